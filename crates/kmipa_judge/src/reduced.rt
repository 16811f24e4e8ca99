//! Orders that are found where what is set aside is left out of the search.

mod about;
mod ahead;
mod items;
mod lots;
mod merging;
mod messages;
mod names;
mod reading;
mod recording;
mod round;
mod scope;
mod searching;
mod shape;
mod stamps;
mod stuck;
mod suspects;

pub(crate) use reading::item_spelled;
pub(crate) use searching::{find_at_once, find_reduced};
