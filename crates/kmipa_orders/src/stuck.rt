//! Where a search got stuck.

use kmipa_check::Refused;

/// Calls that can be taken one after the other, and what is told of each that may be next behind them.
#[derive(Drop)]
pub struct Reached {
    /// The numbers of the calls, in the order in which they are taken.
    pub taken: Vec<i32>,
    /// Each call that may be next, in the order of the begin marks.
    pub next: Vec<NextCall>,
}

/// A call that may be next.
#[derive(Clone, Copy, PartialEq, Eq)]
pub struct NextCall {
    /// The number of the call.
    pub call: i32,
    /// Why it is impossible there, as a check tells it of a witness that takes it behind those calls; none where it is possible.
    pub refused: Option<Refused>,
}
