//! Sets of attributes that are read and written, and their faults.

use super::check;
use super::reading::view_of;
use super::spelled::{bytes_of, check_item};
use kmipa_attrs::{AttrFault, AttrSet, Side, read_attrs, write_attrs};
use std::alloc::Global;
use std::process::Abort;

// AES and 128 bits, as a declaration spells them.
const AES_128: &str =
    "42012501000000204200280500000004000000030000000042002A02000000040000008000000000";

// The names `a` and `b`, of types 1 and 2, and each other judged attribute.
const ALL: &str = "\
    42012501000000F042005301000000204200550700000001610000000000000042005405000000040000000100000000\
    420053010000002042005507000000016200000000000000420054050000000400000002000000004200570500000004\
    00000002000000004200280500000004000000030000000042002A0200000004000001000000000042002C0200000004\
    0000000C0000000042008D05000000040000000600000000420039090000000800000000000000014200010900000008\
    000000000000000242002F09000000080000000000000003420033090000000800000000000000044200200900000008\
    FFFFFFFFFFFFFFFB";

// What an Attributes item is, its children, and what is told of it where it comes from a client and from a server.
type Row = (
    &'static str,
    &'static str,
    Option<AttrFault>,
    Option<AttrFault>,
);

// The lowest is told: a wrong type before what is there twice, and that before what no client gives.
const FAULTS: [Row; 11] = [
    (
        "two dates",
        "42012501000000204200010900000008000000000000000742002F09000000080000000000000007",
        None,
        None,
    ),
    (
        "an algorithm as an Integer",
        "420125010000001042002802000000040000008000000000",
        Some(AttrFault::WrongType),
        Some(AttrFault::WrongType),
    ),
    (
        "a second algorithm as an Integer",
        "42012501000000204200280500000004000000030000000042002802000000040000008000000000",
        Some(AttrFault::WrongType),
        Some(AttrFault::WrongType),
    ),
    (
        "two States, and a length as an Enumeration",
        "\
        420125010000003042008D0500000004000000030000000042008D0500000004000000030000000042002A05\
        000000040000000300000000",
        Some(AttrFault::WrongType),
        Some(AttrFault::WrongType),
    ),
    (
        "a Name without a value",
        "42012501000000084200530100000000",
        Some(AttrFault::WrongType),
        Some(AttrFault::WrongType),
    ),
    (
        "a text",
        "42012507000000026B31000000000000",
        Some(AttrFault::WrongType),
        Some(AttrFault::WrongType),
    ),
    (
        "two algorithms",
        "\
        4201250100000030420028050000000400000003000000004200FF07000000026B3100000000000042002805\
        000000040000000300000000",
        Some(AttrFault::Repeated),
        Some(AttrFault::Repeated),
    ),
    (
        "two algorithms and a State",
        "\
        4201250100000030420028050000000400000003000000004200280500000004000000030000000042008D05\
        000000040000000300000000",
        Some(AttrFault::Repeated),
        Some(AttrFault::Repeated),
    ),
    (
        "a State",
        "420125010000001042008D05000000040000000300000000",
        Some(AttrFault::NotForClients),
        None,
    ),
    (
        "a Destroy Date",
        "420125010000001042003309000000080000000000000007",
        Some(AttrFault::NotForClients),
        None,
    ),
    (
        "two Unique Identifiers as Enumerations",
        "42012501000000204200940500000004000000030000000042009405000000040000000300000000",
        Some(AttrFault::NotForClients),
        None,
    ),
];

// The set that a server spells so.
fn set_of(rt: &impl Abort, alloc: Global, digits: &str) -> AttrSet {
    let bytes = bytes_of(rt, alloc, &[digits]);
    read_attrs(alloc, &view_of(rt, &bytes), Side::Server).expect(rt, "a set")
}

// Checks that a set is written as these digits.
fn check_written(rt: &impl Abort, alloc: Global, set: &AttrSet, digits: &str) {
    let item = write_attrs(alloc, set).expect(rt, "memory");
    check_item(rt, alloc, item, digits);
}

// Checks that a set and a copy of it are written as they were.
fn check_set(rt: &impl Abort, alloc: Global, digits: &str) {
    let set = set_of(rt, alloc, digits);
    check_written(rt, alloc, &set, digits);
    let copy = set.copy(alloc).expect(rt, "memory");
    check_written(rt, alloc, &copy, digits);
}

#[test]
fn sets_are_written_again(rt: HostRuntime) {
    let alloc = rt.alloc();
    check_set(&rt, alloc, AES_128);
    check_set(&rt, alloc, ALL);
}

// Checks that this is told of an item.
fn check_row(rt: &impl Abort, alloc: Global, row: &Row) {
    let (what, digits, of_client, of_server) = row;
    let bytes = bytes_of(rt, alloc, &[digits]);
    let view = view_of(rt, &bytes);
    let told = read_attrs(alloc, &view, Side::Client).err();
    check(rt, told == *of_client, what);
    let told = read_attrs(alloc, &view, Side::Server).err();
    check(rt, told == *of_server, what);
}

#[test]
fn lowest_faults_are_told(rt: HostRuntime) {
    for row in &FAULTS {
        check_row(&rt, rt.alloc(), row);
    }
}
