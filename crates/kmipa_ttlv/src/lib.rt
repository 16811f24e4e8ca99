//! TTLV, the encoding of KMIP 2.1: bytes spell exactly this item.
//!
//! `decode` and `decode_view` answer the item that bytes begin with, `encode` writes one. `Frames` gives the items
//! of a stream that comes in pieces, `read_item` those of an `Input`. A `TtlvFault` says what is wrong, and where.
#![tactic(auto)]

mod children;
mod copying;
mod decoding;
mod encoding;
mod fault;
mod frames;
mod head;
mod history;
mod input;
mod item;
mod laws;
mod lending;
mod reading;
mod spelled;
mod splitting;
mod standing;
mod tag;
mod view;

pub use copying::copy_item;
pub use decoding::{decode, decode_view};
pub use encoding::{encode, spelled_len};
pub use fault::{FaultKind, TtlvFault};
pub use frames::Frames;
pub use history::History;
pub use input::Input;
pub use item::{Item, Value};
pub use laws::{
    begins_or_flawed, cut_short, decoded_again, items_in_place, joined, known_flaw, no_flaw,
    no_others, one_flaw, one_list, one_spelling, own_kinds, read_in_place, settled,
};
pub use lending::lend;
pub use reading::{read_all, read_bytes, read_item, read_spelled, read_view};
pub use splitting::split_stream;
pub use tag::Tag;
pub use view::{Children, View, ViewValue};
