//! Views: items whose texts and bytes are lent from what they were read from.

use crate::item::Item;
use crate::tag::Tag;

/// One TTLV item: the same tree as an `Item`, with texts and bytes lent.
#[derive(Clone, Copy)]
pub struct View<'a> {
    pub tag: Tag,
    pub value: ViewValue<'a>,
}

/// The value of a view, by its kind.
#[derive(Clone, Copy)]
pub enum ViewValue<'a> {
    /// The children, in order.
    Structure(Children<'a>),
    Integer(i32),
    LongInteger(i64),
    /// The bytes of a number in two's complement, the highest first; a positive multiple of 8.
    BigInteger(&'a [u8]),
    Enumeration(u32),
    Boolean(bool),
    Text(&'a str),
    Bytes(&'a [u8]),
    /// Seconds since 1970-01-01T00:00:00Z.
    DateTime(i64),
    /// Seconds.
    Interval(u32),
    /// Microseconds since 1970-01-01T00:00:00Z.
    DateTimeExtended(i64),
}

/// The children of a structure that are left, in order: each is lent where it is asked for, and none is kept.
#[derive(Clone, Copy)]
pub struct Children<'a> {
    pub(crate) source: Source<'a>,
}

/// What children are lent from.
#[derive(Clone, Copy)]
pub(crate) enum Source<'a> {
    /// Bytes that spell them, which were tested.
    Spelled(&'a [u8]),
    Lent(&'a [Item]),
}
