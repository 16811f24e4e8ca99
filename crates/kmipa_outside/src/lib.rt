//! Why a message is outside the profile: each field that makes it so, what stands there, and what is wanted.
//!
//! What the profile wants of fields stands in tables of demands, which the readers of kmipa_msgs meet field by field;
//! the laws say that a message is outside exactly where a demand fails.
#![tactic(auto)]

mod agreement_demands;
mod asked_demands;
mod counting;
mod demand;
mod demands;
mod done_demands;
mod explaining;
mod failing;
mod finding;
mod header_demands;
mod laws;
mod message;
mod operations;
mod requests;
mod responses;
mod shared_demands;
mod shown;
mod tables;
mod telling;
mod told;
mod types;

pub use demand::{Beside, Demand, Inside, Numbers, Step, Wanted, wants};
pub use explaining::{OutsideExplanation, explain_outside};
pub use laws::{
    agreements_are_reasons, asked_demands_are_reasons, asked_reasons_are_demanded,
    done_demands_are_reasons, done_reasons_are_demanded, request_fields_are_reasons,
    request_reasons_have_fields, response_fields_are_reasons, response_reasons_have_fields,
};
pub use message::{request_told, response_told};
pub use told::{FieldTold, MessageTold, Stands};
pub use types::{ItemType, item_type};
