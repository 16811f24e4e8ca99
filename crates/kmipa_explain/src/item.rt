//! Items that were asked and answered.

use crate::held::DatesHeld;
use kmipa_msgs::Status;

/// An item that was asked and answered.
#[derive(Drop)]
pub struct Item {
    /// Its turn, counted from 1.
    pub turn: usize,
    /// The number of its call.
    pub call: i32,
    /// Its place in the call, counted from 1.
    pub item: usize,
    /// The moment of the call, in seconds since 1970.
    pub stamp: i64,
    /// The operation that was asked for, by its number.
    pub operation: u32,
    pub status: Status,
    /// Whether it is to make an object.
    pub makes: bool,
    /// The dates that it sets, where it sets them.
    pub sets: DatesHeld,
    /// Whether it tells the bytes of an object.
    pub teaches: bool,
    /// The identifier that it is about.
    pub about: Option<String>,
}
