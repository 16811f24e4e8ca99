//! Objects and their lifecycle: the state follows from the dates, and a table says what a state allows.
#![tactic(auto)]

mod allow;
mod fault;
mod laws;
mod life;
mod object;
mod rule;
mod state;

pub use allow::{Act, Allow, AllowLine, allows, in_table};
pub use fault::WrongState;
pub use laws::{possible_rules_admit, rules_admit_only_if_possible};
pub use life::{Life, Material, SecretNo, activated, destroyed, revoked};
pub use object::Object;
pub use rule::Rule;
pub use state::{State, state_at};
