//! Calls whose items aren't all judged, and calls that can't be read.

use super::check;
use super::spelled::bytes_of;
use kmipa_passed::{Held, SetAside, leaves};
use kmipa_places::{By, Call, Place, Readable, read_call};
use kmipa_ttlv::{Item, Tag, Value, View, decode, lend};
use std::alloc::Global;
use std::process::Abort;

// A message: the fields of its header in digits, its Batch Count, and its items in digits.
pub(crate) type Spelled = (&'static [&'static str], i32, &'static [&'static str]);

// What a call is, its request and its response, what the witness sets aside, and what is told of it: J for a place that is judged, and R, A or W for
// one that is passed by its request, its answer or the witness; or what it leaves where it can't be read.
type Row = (
    &'static str,
    Option<Spelled>,
    Option<Spelled>,
    &'static [i32],
    &'static str,
);

pub(crate) const VERSION_2_1: &str = "\
    420069010000002042006A0200000004000000020000000042006B02000000040000000100000000";

pub(crate) const GET_K1: &str = "\
    42000F010000002842005C05000000040000000A00000000420079010000001042009407000000026B310000000000\
    00";

pub(crate) const STAMP: &str = "4200920900000008000000006553F100";

pub(crate) const GOT_K1: &str = "\
    42000F01000000A842005C05000000040000000A0000000042007F0500000004000000000000000042007C01000000\
    804200570500000004000000020000000042009407000000026B3100000000000042008F0100000058420040010000\
    00504200420500000004000000010000000042004501000000184200430800000010000102030405060708090A0B0C\
    0D0E0F4200280500000004000000030000000042002A02000000040000008000000000";

pub(crate) const QUERY: &str = "42000F010000001842005C050000000400000018000000004200790100000000";

pub(crate) const QUERIED: &str = "\
    42000F010000002842005C0500000004000000180000000042007F0500000004000000000000000042007C01000000\
    00";

pub(crate) const REKEY_K1: &str = "\
    42000F010000002842005C05000000040000000400000000420079010000001042009407000000026B310000000000\
    00";

const REKEY_FAILED: &str = "\
    42000F010000003042005C0500000004000000040000000042007F0500000004000000010000000042007E05000000\
    040000000100000000";

const OPTION_1: &str = "42000E05000000040000000100000000";

pub(crate) const UNORDERED: &str = "42001006000000080000000000000000";

const LOCATE: &str = "42000F010000001842005C050000000400000008000000004200790100000000";

pub(crate) const STATE_OF_K1: &str = "\
    42000F010000003842005C05000000040000000B00000000420079010000002042009407000000026B310000000000\
    0042013B05000000040042008D00000000";

const LOCATED_NONE: &str = "\
    42000F010000002842005C0500000004000000080000000042007F0500000004000000000000000042007C01000000\
    00";

const NO_STATE_OF_K1: &str = "\
    42000F010000003842005C05000000040000000B0000000042007F0500000004000000000000000042007C01000000\
    1042009407000000026B31000000000000";

pub(crate) const GET_HELD: &str = "\
    42000F010000002842005C05000000040000000A000000004200790100000010420094050000000400000001000000\
    00";

pub(crate) const GET_FAILED: &str = "\
    42000F010000003042005C05000000040000000A0000000042007F0500000004000000010000000042007E05000000\
    040000000100000000";

const STATE_OF_HELD: &str = "\
    42000F010000003842005C05000000040000000B000000004200790100000020420094050000000400000001000000\
    0042013B05000000040042008D00000000";

const ACTIVATE_HELD: &str = "\
    42000F010000002842005C050000000400000012000000004200790100000010420094050000000400000001000000\
    00";

const REVOKE_HELD: &str = "\
    42000F010000004042005C050000000400000013000000004200790100000028420094050000000400000001000000\
    00420081010000001042008205000000040000000100000000";

const DESTROY_HELD: &str = "\
    42000F010000002842005C050000000400000014000000004200790100000010420094050000000400000001000000\
    00";

const GOT_C: &str = "\
    42000F01000000A842005C05000000040000000A0000000042007F0500000004000000000000000042007C01000000\
    80420057050000000400000002000000004200940700000001630000000000000042008F0100000058420040010000\
    00504200420500000004000000010000000042004501000000184200430800000010000102030405060708090A0B0C\
    0D0E0F4200280500000004000000030000000042002A02000000040000008000000000";

const NO_STATE_OF_C: &str = "\
    42000F010000003842005C05000000040000000B0000000042007F0500000004000000000000000042007C01000000\
    1042009407000000016300000000000000";

const ACTIVATED_C: &str = "\
    42000F010000003842005C0500000004000000120000000042007F0500000004000000000000000042007C01000000\
    1042009407000000016300000000000000";

const REVOKED_C: &str = "\
    42000F010000003842005C0500000004000000130000000042007F0500000004000000000000000042007C01000000\
    1042009407000000016300000000000000";

const DESTROYED_C: &str = "\
    42000F010000003842005C0500000004000000140000000042007F0500000004000000000000000042007C01000000\
    1042009407000000016300000000000000";

const GET_2: &str = "\
    42000F010000002842005C05000000040000000A000000004200790100000010420094050000000400000002000000\
    00";

const GET_HELD_WRAPPED: &str = "\
    42000F010000003042005C05000000040000000A000000004200790100000018420094050000000400000001000000\
    004200470100000000";

const REVOKE_HELD_WITHOUT_CODE: &str = "\
    42000F010000002842005C050000000400000013000000004200790100000010420094050000000400000001000000\
    00";

const REVOKED_K1: &str = "\
    42000F010000003842005C0500000004000000130000000042007F0500000004000000000000000042007C01000000\
    1042009407000000026B31000000000000";

const CREATE: &str = "\
    42000F010000006042005C050000000400000001000000004200790100000048420057050000000400000002000000\
    0042012501000000304200280500000004000000030000000042002A0200000004000000800000000042002C020000\
    00040000000C00000000";

const ACTIVATE: &str = "42000F010000001842005C050000000400000012000000004200790100000000";

const CREATED_C: &str = "\
    42000F010000003842005C0500000004000000010000000042007F0500000004000000000000000042007C01000000\
    1042009407000000016300000000000000";

pub(crate) const GET_K1_WRAPPED: &str = "\
    42000F010000003042005C05000000040000000A00000000420079010000001842009407000000026B310000000000\
    004200470100000000";

pub(crate) const ACTIVATE_K1: &str = "\
    42000F010000002842005C05000000040000001200000000420079010000001042009407000000026B310000000000\
    00";

const ACTIVATED_K1: &str = "\
    42000F010000003842005C0500000004000000120000000042007F0500000004000000000000000042007C01000000\
    1042009407000000026B31000000000000";

const REGISTER_OF_TWO_TYPES: &str = "\
    42000F010000008842005C050000000400000003000000004200790100000070420057050000000400000007000000\
    0042008F01000000584200400100000050420042050000000400000001000000004200450100000018420043080000\
    0010000102030405060708090A0B0C0D0E0F4200280500000004000000030000000042002A02000000040000008000\
    000000";

const REGISTERED_Z: &str = "\
    42000F010000003842005C0500000004000000030000000042007F0500000004000000000000000042007C01000000\
    1042009407000000017A00000000000000";

const REGISTER_OPAQUE: &str = "\
    42000F010000002842005C050000000400000003000000004200790100000010420057050000000400000008000000\
    00";

pub(crate) const GET_AS_A_TEXT: &str =
    "42000F010000001842005C070000000347657400000000004200790100000000";

pub(crate) const DONE_GET: &str = "\
    42000F010000002842005C05000000040000000A0000000042007F0500000004000000000000000042007C01000000\
    00";

pub(crate) const POLL: &str = "42000F010000001842005C05000000040000001A000000004200790100000000";

pub(crate) const REKEYED_AS_Z: &str = "\
    42000F010000003842005C0500000004000000040000000042007F0500000004000000000000000042007C01000000\
    1042009407000000017A00000000000000";

pub(crate) const STATE_AS_A_NUMBER: &str = "\
    42000F010000005042005C05000000040000000B0000000042007F0500000004000000000000000042007C01000000\
    2842009407000000026B31000000000000420125010000001042008D02000000040000000200000000";

const ATTRIBUTES_OF_K1: &str = "\
    42000F010000002842005C05000000040000000B00000000420079010000001042009407000000026B310000000000\
    00";

const ATTRIBUTES_OF_3: &str = "\
    42000F010000003842005C05000000040000000B0000000042007F0500000004000000000000000042007C01000000\
    1042009405000000040000000300000000";

pub(crate) const MAY_COME: &str = "42000706000000080000000000000001";

pub(crate) const ACTIVATE_PENDING: &str = "\
    42000F010000002042005C0500000004000000120000000042007F05000000040000000200000000";

pub(crate) const OPERATION_AS_A_NUMBER: &str = "\
    42000F010000002042005C0200000004000000010000000042007F05000000040000000000000000";

pub(crate) const GET_K2: &str = "\
    42000F010000002842005C05000000040000000A00000000420079010000001042009407000000026B320000000000\
    00";

pub(crate) const GOT_K2: &str = "\
    42000F01000000A842005C05000000040000000A0000000042007F0500000004000000000000000042007C01000000\
    804200570500000004000000020000000042009407000000026B3200000000000042008F0100000058420040010000\
    00504200420500000004000000010000000042004501000000184200430800000010000102030405060708090A0B0C\
    0D0E0F4200280500000004000000030000000042002A02000000040000008000000000";

pub(crate) const VERSION_1_0: &str = "\
    420069010000002042006A0200000004000000010000000042006B02000000040000000000000000";

const REFUSED: &str = "42000F010000001042007F05000000040000000100000000";

pub(crate) const VERSION_2_0: &str = "\
    420069010000002042006A0200000004000000020000000042006B02000000040000000000000000";

const OPTION_3: &str = "42000E05000000040000000300000000";

const ACTIVATE_K9: &str = "\
    42000F010000002842005C05000000040000001200000000420079010000001042009407000000026B390000000000\
    00";

const CREATE_UNDONE: &str = "\
    42000F010000002042005C0500000004000000010000000042007F05000000040000000300000000";

const ACTIVATE_FAILED: &str = "\
    42000F010000003042005C0500000004000000120000000042007F0500000004000000010000000042007E05000000\
    040000000100000000";

const OPTION_4: &str = "42000E05000000040000000400000000";

const GET_STATUS_4: &str = "\
    42000F010000002042005C05000000040000000A0000000042007F05000000040000000400000000";

pub(crate) const ACTIVATE_NO_STATUS: &str = "42000F010000001042005C05000000040000001200000000";

const REGISTER: &str = "\
    42000F010000008842005C050000000400000003000000004200790100000070420057050000000400000002000000\
    0042008F01000000584200400100000050420042050000000400000001000000004200450100000018420043080000\
    0010000102030405060708090A0B0C0D0E0F4200280500000004000000030000000042002A02000000040000008000\
    000000";

const NAME_K1: &str = "\
    42000F010000005842005C05000000040000000D00000000420079010000004042009407000000026B310000000000\
    0042013D0100000028420053010000002042005507000000016E000000000000004200540500000004000000010000\
    0000";

const LEASE_K1: &str = "\
    42000F010000004042005C05000000040000000D00000000420079010000002842009407000000026B310000000000\
    0042013D01000000104200490A0000000400000E1000000000";

const SET_DEFAULTS: &str = "42000F010000001842005C050000000400000036000000004200790100000000";

const MAY_COME_2: &str = "42000705000000040000000200000000";

const MAY_NOT_COME: &str = "42000706000000080000000000000000";

const ACTIVATE_FAILED_BARE: &str = "\
    42000F010000002042005C0500000004000000120000000042007F05000000040000000100000000";

const GET_FAILED_BARE: &str = "\
    42000F010000002042005C05000000040000000A0000000042007F05000000040000000100000000";

const ACTIVATED: &str = "\
    42000F010000002042005C0500000004000000120000000042007F05000000040000000000000000";

const REKEY: &str = "42000F010000001842005C050000000400000004000000004200790100000000";

const JUDGED: [Row; 6] = [
    (
        "a Get and its answer",
        Some((&[VERSION_2_1], 1, &[GET_K1])),
        Some((&[VERSION_2_1, STAMP], 1, &[GOT_K1])),
        &[],
        "J",
    ),
    (
        "a Query",
        Some((&[VERSION_2_1], 1, &[QUERY])),
        Some((&[VERSION_2_1, STAMP], 1, &[QUERIED])),
        &[],
        "J",
    ),
    (
        "an operation that is not judged, failed",
        Some((&[VERSION_2_1], 1, &[REKEY_K1])),
        Some((&[VERSION_2_1, STAMP], 1, &[REKEY_FAILED])),
        &[],
        "J",
    ),
    (
        "a Locate without identifier in no order",
        Some((
            &[VERSION_2_1, OPTION_1, UNORDERED],
            2,
            &[LOCATE, STATE_OF_K1],
        )),
        Some((&[VERSION_2_1, STAMP], 2, &[LOCATED_NONE, NO_STATE_OF_K1])),
        &[],
        "JJ",
    ),
    (
        "Enumeration 1 is read as none",
        Some((&[VERSION_2_1], 1, &[GET_HELD])),
        Some((&[VERSION_2_1, STAMP], 1, &[GET_FAILED])),
        &[],
        "J",
    ),
    (
        "Enumeration 1 of each operation on an object",
        Some((
            &[VERSION_2_1],
            5,
            &[
                GET_HELD,
                STATE_OF_HELD,
                ACTIVATE_HELD,
                REVOKE_HELD,
                DESTROY_HELD,
            ],
        )),
        Some((
            &[VERSION_2_1, STAMP],
            5,
            &[GOT_C, NO_STATE_OF_C, ACTIVATED_C, REVOKED_C, DESTROYED_C],
        )),
        &[],
        "JJJJJ",
    ),
];

const OF_THE_REQUEST: [Row; 11] = [
    (
        "Enumeration 2",
        Some((&[VERSION_2_1], 1, &[GET_2])),
        Some((&[VERSION_2_1, STAMP], 1, &[GOT_K1])),
        &[],
        "R",
    ),
    (
        "Enumeration 1 and a wrapped key",
        Some((&[VERSION_2_1], 1, &[GET_HELD_WRAPPED])),
        Some((&[VERSION_2_1, STAMP], 1, &[GOT_K1])),
        &[],
        "R",
    ),
    (
        "Enumeration 1 and no code",
        Some((&[VERSION_2_1], 1, &[REVOKE_HELD_WITHOUT_CODE])),
        Some((&[VERSION_2_1, STAMP], 1, &[REVOKED_K1])),
        &[],
        "R",
    ),
    (
        "Enumeration 1 in no order",
        Some((&[VERSION_2_1, OPTION_1, UNORDERED], 2, &[GET_HELD, GET_K1])),
        Some((&[VERSION_2_1, STAMP], 2, &[GOT_K1, GOT_K1])),
        &[],
        "RJ",
    ),
    (
        "no identifier in no order",
        Some((&[VERSION_2_1, OPTION_1, UNORDERED], 2, &[CREATE, ACTIVATE])),
        Some((&[VERSION_2_1, STAMP], 2, &[CREATED_C, ACTIVATED_C])),
        &[],
        "JR",
    ),
    (
        "a wrapped key is asked for",
        Some((&[VERSION_2_1, OPTION_1], 2, &[GET_K1_WRAPPED, ACTIVATE_K1])),
        Some((&[VERSION_2_1, STAMP], 2, &[GOT_K1, ACTIVATED_K1])),
        &[],
        "RJ",
    ),
    (
        "Register of two types",
        Some((&[VERSION_2_1], 1, &[REGISTER_OF_TWO_TYPES])),
        Some((&[VERSION_2_1, STAMP], 1, &[REGISTERED_Z])),
        &[],
        "R",
    ),
    (
        "Register of an Opaque Object",
        Some((&[VERSION_2_1], 1, &[REGISTER_OPAQUE])),
        Some((&[VERSION_2_1, STAMP], 1, &[REGISTERED_Z])),
        &[],
        "R",
    ),
    (
        "an Operation that is a text",
        Some((&[VERSION_2_1], 1, &[GET_AS_A_TEXT])),
        Some((&[VERSION_2_1, STAMP], 1, &[DONE_GET])),
        &[],
        "R",
    ),
    (
        "Poll",
        Some((&[VERSION_2_1], 1, &[POLL])),
        Some((&[VERSION_2_1, STAMP], 1, &[ACTIVATED_K1])),
        &[],
        "R",
    ),
    (
        "Poll, failed",
        Some((&[VERSION_2_1], 1, &[POLL])),
        Some((&[VERSION_2_1, STAMP], 1, &[GET_FAILED])),
        &[],
        "R",
    ),
];

const OF_THE_ANSWER: [Row; 5] = [
    (
        "Re-key is done",
        Some((&[VERSION_2_1], 1, &[REKEY_K1])),
        Some((&[VERSION_2_1, STAMP], 1, &[REKEYED_AS_Z])),
        &[],
        "A",
    ),
    (
        "a State that is no Enumeration",
        Some((&[VERSION_2_1], 1, &[STATE_OF_K1])),
        Some((&[VERSION_2_1, STAMP], 1, &[STATE_AS_A_NUMBER])),
        &[],
        "A",
    ),
    (
        "an identifier is shown that is no text",
        Some((&[VERSION_2_1], 1, &[ATTRIBUTES_OF_K1])),
        Some((&[VERSION_2_1, STAMP], 1, &[ATTRIBUTES_OF_3])),
        &[],
        "A",
    ),
    (
        "an answer to come",
        Some((&[VERSION_2_1, MAY_COME], 1, &[ACTIVATE_K1])),
        Some((&[VERSION_2_1, STAMP], 1, &[ACTIVATE_PENDING])),
        &[],
        "A",
    ),
    (
        "an Operation of an answer that is no Enumeration",
        Some((&[VERSION_2_1], 1, &[GET_K1])),
        Some((&[VERSION_2_1, STAMP], 1, &[OPERATION_AS_A_NUMBER])),
        &[],
        "A",
    ),
];

const OF_THE_WITNESS: [Row; 3] = [
    (
        "a place that is set aside",
        Some((&[VERSION_2_1], 2, &[GET_K1, GET_K2])),
        Some((&[VERSION_2_1, STAMP], 2, &[GOT_K1, GOT_K2])),
        &[2],
        "JW",
    ),
    (
        "the request comes ahead of the witness",
        Some((&[VERSION_2_1], 1, &[POLL])),
        Some((&[VERSION_2_1, STAMP], 1, &[ACTIVATED_K1])),
        &[1],
        "R",
    ),
    (
        "the answer comes ahead of the witness",
        Some((&[VERSION_2_1, MAY_COME], 1, &[ACTIVATE_K1])),
        Some((&[VERSION_2_1, STAMP], 1, &[ACTIVATE_PENDING])),
        &[1],
        "A",
    ),
];

const LEFT_OVER: [Row; 2] = [
    (
        "an item without an answer is no place",
        Some((&[VERSION_2_1], 2, &[GET_K1, GET_K2])),
        Some((&[VERSION_2_1, STAMP], 1, &[GOT_K1])),
        &[],
        "J",
    ),
    (
        "an answer without an item is no place",
        Some((&[VERSION_2_1], 1, &[GET_K1])),
        Some((&[VERSION_2_1, STAMP], 2, &[GOT_K1, GOT_K2])),
        &[],
        "J",
    ),
];

const OF_OTHER_VERSIONS: [Row; 8] = [
    (
        "a Get in 1.0",
        Some((&[VERSION_1_0], 1, &[GET_K1])),
        Some((&[VERSION_1_0, STAMP], 1, &[GOT_K1])),
        &[],
        "unread:",
    ),
    (
        "it is refused in 1.0",
        Some((&[VERSION_1_0], 1, &[ACTIVATE_K1])),
        Some((&[VERSION_1_0, STAMP], 1, &[REFUSED])),
        &[],
        "unread:",
    ),
    (
        "an Activate in 1.0",
        Some((&[VERSION_1_0], 1, &[ACTIVATE_K1])),
        Some((&[VERSION_1_0, STAMP], 1, &[ACTIVATED_K1])),
        &[],
        "unread: k1",
    ),
    (
        "one of two failed in 1.0",
        Some((&[VERSION_1_0, OPTION_1], 2, &[ACTIVATE_K1, GET_K1])),
        Some((&[VERSION_1_0, STAMP], 2, &[ACTIVATED_K1, GET_FAILED])),
        &[],
        "unread: k1",
    ),
    (
        "a Get answered in 2.0",
        Some((&[VERSION_2_1], 1, &[GET_K1])),
        Some((&[VERSION_2_0, STAMP], 1, &[GOT_K1])),
        &[],
        "unread:",
    ),
    (
        "a Create answered in 2.0",
        Some((&[VERSION_2_1], 1, &[CREATE])),
        Some((&[VERSION_2_0, STAMP], 1, &[CREATED_C])),
        &[],
        "unread: c",
    ),
    (
        "a Create in 1.0 that is undone",
        Some((&[VERSION_1_0, OPTION_3], 2, &[CREATE, ACTIVATE_K9])),
        Some((&[VERSION_1_0, STAMP], 2, &[CREATE_UNDONE, ACTIVATE_FAILED])),
        &[],
        "unread: all",
    ),
    (
        "an answer to come in 1.0",
        Some((&[VERSION_1_0], 1, &[ACTIVATE_K1])),
        Some((&[VERSION_1_0, STAMP], 1, &[ACTIVATE_PENDING])),
        &[],
        "unread: over",
    ),
];

const AT_FAULT: [Row; 6] = [
    (
        "option 4",
        Some((&[VERSION_2_1, OPTION_4], 1, &[ACTIVATE_K1])),
        Some((&[VERSION_2_1, STAMP], 1, &[ACTIVATED_K1])),
        &[],
        "unread: k1",
    ),
    (
        "status 4",
        Some((&[VERSION_2_1], 1, &[GET_K1])),
        Some((&[VERSION_2_1, STAMP], 1, &[GET_STATUS_4])),
        &[],
        "unread:",
    ),
    (
        "no status",
        Some((&[VERSION_2_1], 1, &[ACTIVATE_K1])),
        Some((&[VERSION_2_1, STAMP], 1, &[ACTIVATE_NO_STATUS])),
        &[],
        "unread: k1",
    ),
    (
        "a Batch Count that is too high",
        Some((&[VERSION_2_1], 2, &[ACTIVATE_K1])),
        Some((&[VERSION_2_1, STAMP], 1, &[ACTIVATED_K1])),
        &[],
        "unread: all",
    ),
    (
        "a Batch Count that is too high, and all failed",
        Some((&[VERSION_2_1], 2, &[ACTIVATE_K1])),
        Some((&[VERSION_2_1, STAMP], 1, &[ACTIVATE_FAILED_BARE])),
        &[],
        "unread:",
    ),
    (
        "a response whose Batch Count is too high",
        Some((&[VERSION_2_1], 1, &[ACTIVATE_K1])),
        Some((&[VERSION_2_1, STAMP], 2, &[ACTIVATE_FAILED_BARE])),
        &[],
        "unread: k1",
    ),
];

const WITHOUT_RESPONSE: [Row; 11] = [
    (
        "no response to a Get",
        Some((&[VERSION_2_1], 1, &[GET_K1])),
        None,
        &[],
        "unread:",
    ),
    (
        "no response to a Register",
        Some((&[VERSION_2_1], 1, &[REGISTER])),
        None,
        &[],
        "unread: all",
    ),
    (
        "no response to an Activate of none",
        Some((&[VERSION_2_1], 1, &[ACTIVATE])),
        None,
        &[],
        "unread: all",
    ),
    (
        "no response to an Activate of Enumeration 1",
        Some((&[VERSION_2_1], 1, &[ACTIVATE_HELD])),
        None,
        &[],
        "unread: all",
    ),
    (
        "no response to a name",
        Some((&[VERSION_2_1], 2, &[NAME_K1, GET_K2])),
        None,
        &[],
        "unread: k1",
    ),
    (
        "no response to a Lease Time",
        Some((&[VERSION_2_1], 1, &[LEASE_K1])),
        None,
        &[],
        "unread:",
    ),
    (
        "no response to Set Defaults",
        Some((&[VERSION_2_1], 1, &[SET_DEFAULTS])),
        None,
        &[],
        "unread: over",
    ),
    (
        "no response to a Re-key",
        Some((&[VERSION_2_1], 1, &[REKEY_K1])),
        None,
        &[],
        "unread: all",
    ),
    (
        "no response, and one may come",
        Some((&[VERSION_2_1, MAY_COME], 1, &[GET_K1])),
        None,
        &[],
        "unread: over",
    ),
    (
        "no response, and the Enumeration 2 allows one",
        Some((&[VERSION_2_1, MAY_COME_2], 1, &[GET_K1])),
        None,
        &[],
        "unread: over",
    ),
    (
        "no response, and none may come",
        Some((&[VERSION_2_1, MAY_NOT_COME], 1, &[GET_K1])),
        None,
        &[],
        "unread:",
    ),
];

const WITHOUT_REQUEST: [Row; 3] = [
    (
        "no request",
        None,
        Some((&[VERSION_2_1, STAMP], 1, &[GOT_K1])),
        &[],
        "unread: all",
    ),
    (
        "no request, and all failed",
        None,
        Some((&[VERSION_2_1, STAMP], 1, &[GET_FAILED_BARE])),
        &[],
        "unread:",
    ),
    ("nothing", None, None, &[], "unread: all"),
];

const SET_ASIDE: [Row; 3] = [
    (
        "aside as a whole",
        Some((&[VERSION_2_1], 1, &[ACTIVATE_K1])),
        Some((&[VERSION_2_1, STAMP], 1, &[ACTIVATED_K1])),
        &[0],
        "unread: k1",
    ),
    (
        "aside as a whole, and failed",
        Some((&[VERSION_2_1], 1, &[ACTIVATE_K1])),
        Some((&[VERSION_2_1, STAMP], 1, &[ACTIVATE_FAILED])),
        &[0],
        "unread:",
    ),
    (
        "aside as a whole, and of other places",
        Some((&[VERSION_2_1], 1, &[ACTIVATE_K1])),
        Some((&[VERSION_2_1, STAMP], 1, &[ACTIVATED_K1])),
        &[1, 0],
        "unread: k1",
    ),
];

// What the last place leaves, which isn't judged, where the ID Placeholder holds p.
const PASSED: [Row; 7] = [
    (
        "a change of none in no order, and none is shown",
        Some((&[VERSION_2_1, OPTION_1, UNORDERED], 2, &[CREATE, ACTIVATE])),
        Some((&[VERSION_2_1, STAMP], 2, &[CREATED_C, ACTIVATED])),
        &[],
        "left: all",
    ),
    (
        "a change of Enumeration 1 in no order, and none is shown",
        Some((
            &[VERSION_2_1, OPTION_1, UNORDERED],
            2,
            &[CREATE, ACTIVATE_HELD],
        )),
        Some((&[VERSION_2_1, STAMP], 2, &[CREATED_C, ACTIVATED])),
        &[],
        "left: all",
    ),
    (
        "a change of none in no order, and one is shown",
        Some((&[VERSION_2_1, OPTION_1, UNORDERED], 2, &[CREATE, ACTIVATE])),
        Some((&[VERSION_2_1, STAMP], 2, &[CREATED_C, ACTIVATED_C])),
        &[],
        "left: c",
    ),
    (
        "a change of one in no order, which is asked for and named",
        Some((
            &[VERSION_2_1, OPTION_1, UNORDERED],
            2,
            &[CREATE, ACTIVATE_K1],
        )),
        Some((&[VERSION_2_1, STAMP], 2, &[CREATED_C, ACTIVATED_C])),
        &[2],
        "left: k1 k1",
    ),
    (
        "a change of none in order",
        Some((&[VERSION_2_1, OPTION_1], 2, &[CREATE, ACTIVATE])),
        Some((&[VERSION_2_1, STAMP], 2, &[CREATED_C, ACTIVATED_C])),
        &[2],
        "left: p",
    ),
    (
        "a failed change of none in no order",
        Some((&[VERSION_2_1, OPTION_1, UNORDERED], 2, &[CREATE, ACTIVATE])),
        Some((&[VERSION_2_1, STAMP], 2, &[CREATED_C, ACTIVATE_FAILED])),
        &[],
        "left:",
    ),
    (
        "a Re-key of none in no order",
        Some((&[VERSION_2_1, OPTION_1, UNORDERED], 2, &[CREATE, REKEY])),
        Some((&[VERSION_2_1, STAMP], 2, &[CREATED_C, REKEYED_AS_Z])),
        &[],
        "left: p z",
    ),
];

// The item that digits spell.
fn item_of(rt: &impl Abort, alloc: Global, digits: &str) -> Item {
    let bytes = bytes_of(rt, alloc, &[digits]);
    let (item, _) = decode(alloc, &bytes).expect(rt, "an item");
    item
}

fn tagged(rt: &impl Abort, tag: u32, value: Value) -> Item {
    Item {
        tag: Tag::new(tag).expect(rt, "a tag"),
        value,
    }
}

// The message that is spelled so, under these two tags.
pub(crate) fn message_of(
    rt: &impl Abort,
    alloc: Global,
    spelled: &Spelled,
    tag: u32,
    header: u32,
) -> Item {
    let mut fields = Vec::new(alloc);
    for digits in spelled.0 {
        fields.push(item_of(rt, alloc, digits)).expect(rt, "memory");
    }
    let count = tagged(rt, 0x42_000D, Value::Integer(spelled.1));
    fields.push(count).expect(rt, "memory");
    let mut children = Vec::new(alloc);
    let header = tagged(rt, header, Value::Structure(fields));
    children.push(header).expect(rt, "memory");
    for digits in spelled.2 {
        children
            .push(item_of(rt, alloc, digits))
            .expect(rt, "memory");
    }
    tagged(rt, tag, Value::Structure(children))
}

pub(crate) fn view_of(message: &Option<Item>) -> Option<View<'_>> {
    match message {
        Some(item) => Some(lend(item)),
        None => None,
    }
}

// What is told of a call.
fn told_of(rt: &impl Abort, alloc: Global, call: &Call) -> String {
    let mut told = String::new(alloc);
    match call {
        Call::Unread(left) => {
            told.push_str("unread:").expect(rt, "memory");
            tell_left(rt, left, &mut told);
        }
        Call::Read(call) => tell_places(rt, call, &mut told),
    }
    told
}

fn tell_left(rt: &impl Abort, left: &SetAside, told: &mut String) {
    match left {
        SetAside::These(ids) | SetAside::Strangers(ids) => {
            for id in ids {
                told.push_str(" ").expect(rt, "memory");
                told.push_str(id).expect(rt, "memory");
            }
        }
        SetAside::All => told.push_str(" all").expect(rt, "memory"),
        SetAside::Over => told.push_str(" over").expect(rt, "memory"),
    }
}

fn tell_places(rt: &impl Abort, call: &Readable, told: &mut String) {
    for place in &call.places {
        let word = match place {
            Place::Judged(_, _) => "J",
            Place::Passed(By::Request, _) => "R",
            Place::Passed(By::Answer, _) => "A",
            Place::Passed(By::Witness, _) => "W",
        };
        told.push_str(word).expect(rt, "memory");
    }
}

// What the last place of a call leaves that isn't judged, where the ID Placeholder holds p.
fn left_of(rt: &impl Abort, alloc: Global, call: &Call) -> String {
    let mut told = String::new(alloc);
    if let Call::Read(call) = call {
        if let Some(Place::Passed(_, passed)) = call.places.last() {
            let left = leaves(alloc, &passed.ask, &passed.answer, Held::Holds("p"));
            told.push_str("left:").expect(rt, "memory");
            tell_left(rt, &left.expect(rt, "memory").aside, &mut told);
        }
    }
    told
}

// The message of a row, where there is one.
fn some_message(
    rt: &impl Abort,
    alloc: Global,
    spelled: &Option<Spelled>,
    tag: u32,
    header: u32,
) -> Option<Item> {
    match spelled {
        Some(spelled) => Some(message_of(rt, alloc, spelled, tag, header)),
        None => None,
    }
}

fn check_row(rt: &impl Abort, alloc: Global, row: &Row) {
    let (what, asked, answered, asides, expected) = row;
    let request = some_message(rt, alloc, asked, 0x42_0078, 0x42_0077);
    let response = some_message(rt, alloc, answered, 0x42_007B, 0x42_007A);
    let (asking, answering) = (view_of(&request), view_of(&response));
    let call = read_call(alloc, asking.as_ref(), answering.as_ref(), asides);
    let told = told_of(rt, alloc, &call.expect(rt, "memory"));
    check(rt, told.as_str() == *expected, what);
}

fn check_left(rt: &impl Abort, alloc: Global, row: &Row) {
    let (what, asked, answered, asides, expected) = row;
    let request = some_message(rt, alloc, asked, 0x42_0078, 0x42_0077);
    let response = some_message(rt, alloc, answered, 0x42_007B, 0x42_007A);
    let (asking, answering) = (view_of(&request), view_of(&response));
    let call = read_call(alloc, asking.as_ref(), answering.as_ref(), asides);
    let told = left_of(rt, alloc, &call.expect(rt, "memory"));
    check(rt, told.as_str() == *expected, what);
}

#[test]
fn places_are_judged(rt: HostRuntime) {
    for row in &JUDGED {
        check_row(&rt, rt.alloc(), row);
    }
}

#[test]
fn places_are_passed_by_their_request(rt: HostRuntime) {
    for row in &OF_THE_REQUEST {
        check_row(&rt, rt.alloc(), row);
    }
}

#[test]
fn places_are_passed_by_their_answer(rt: HostRuntime) {
    for row in &OF_THE_ANSWER {
        check_row(&rt, rt.alloc(), row);
    }
}

#[test]
fn places_are_passed_by_the_witness(rt: HostRuntime) {
    for row in &OF_THE_WITNESS {
        check_row(&rt, rt.alloc(), row);
    }
}

#[test]
fn items_that_stand_alone_are_no_places(rt: HostRuntime) {
    for row in &LEFT_OVER {
        check_row(&rt, rt.alloc(), row);
    }
}

#[test]
fn calls_of_other_versions_are_unread(rt: HostRuntime) {
    for row in &OF_OTHER_VERSIONS {
        check_row(&rt, rt.alloc(), row);
    }
}

#[test]
fn calls_at_fault_are_unread(rt: HostRuntime) {
    for row in &AT_FAULT {
        check_row(&rt, rt.alloc(), row);
    }
}

#[test]
fn calls_without_a_response_are_unread(rt: HostRuntime) {
    for row in &WITHOUT_RESPONSE {
        check_row(&rt, rt.alloc(), row);
    }
}

#[test]
fn calls_without_a_request_are_unread(rt: HostRuntime) {
    for row in &WITHOUT_REQUEST {
        check_row(&rt, rt.alloc(), row);
    }
}

#[test]
fn calls_set_aside_are_unread(rt: HostRuntime) {
    for row in &SET_ASIDE {
        check_row(&rt, rt.alloc(), row);
    }
}

#[test]
fn passed_places_leave(rt: HostRuntime) {
    for row in &PASSED {
        check_left(&rt, rt.alloc(), row);
    }
}
