//! The replay of a witness: whether the calls of a transcript, taken one at a time in its order, can give every recorded answer.
#![tactic(auto)]

mod auditing;
mod births;
mod checking;
mod completing;
mod fault;
mod filling;
mod grants;
mod kept;
mod late;
mod laws;
mod leaving;
mod moment;
mod numbers;
mod opening;
mod order;
mod places;
mod plain_laws;
mod reading;
mod replay;
mod segment;
mod stamp;
mod step;
mod turn;
mod verdict;

pub use auditing::{AuditFault, AuditRecords, Audited, audit, audit_with, read_records};
pub use births::born_in;
pub use checking::{check, check_calls};
pub use completing::read_birth;
pub use fault::{CheckFault, Side, StepFault, WitnessFault, WitnessKind};
pub use filling::{are_wanted, filled, needs_fill, none_missing};
pub use grants::Grants;
pub use laws::{
    accepted_audit_is_yes, accepted_behind_is_accepted, accepted_is_explained, accepted_is_yes,
    accepted_since_is_yes, accepted_together_is_accepted, calls_are_timed, filled_is_completed,
    joined_have_begun, known_is_accepted, ledger_is_left, one_answer, one_list_of_calls, one_order,
    placed_one_by_one, recorded_have_begun, refused_is_never, segments_join, step_is_readable,
    taken_is_known,
};
pub use leaving::declaration_left;
pub use moment::moment_given;
pub use numbers::{FirstPlaces, Numbered};
pub use opening::{open_ledger, rules_of_declaration};
pub use order::steps_of;
pub use places::places_of;
pub use plain_laws::{plain_call_has_one_step, plain_call_is_taken_bare};
pub use reading::{read_calls, request_in, response_in};
pub use segment::{Checked, CheckedOn, Left, check_segment, check_segment_on};
pub use stamp::stamp_of;
pub use step::{Given, Posed, Step};
pub use turn::step_of_turn;
pub use verdict::{Refused, Verdict};
