//! Tags: a constant for each that the three files have of their own.

/// The header of a transcript.
pub const TRANSCRIPT_HEADER: u32 = 0x54_0001;

/// The version of the format, in a header.
pub const VERSION: u32 = 0x54_0002;

/// The name of a recording, in the header of a sealed transcript.
pub const RECORDING: u32 = 0x54_0004;

/// Which segment of the recording it is.
pub const SEGMENT: u32 = 0x54_0005;

/// The last seal of the segment before.
pub const PREVIOUS: u32 = 0x54_0006;

/// The mark of a call that begins.
pub const BEGIN_MARK: u32 = 0x54_0010;

/// The number of a call.
pub const CALL: u32 = 0x54_0011;

/// Who made a call.
pub const CLIENT: u32 = 0x54_0012;

/// The request or response message of a call, in a mark.
pub const MESSAGE: u32 = 0x54_0013;

/// The moment of a sealed record.
pub const MOMENT: u32 = 0x54_0014;

/// The seal of a record.
pub const SEAL: u32 = 0x54_0015;

/// What kind of note it is.
pub const NOTE_KIND: u32 = 0x54_0016;

/// The text of a note.
pub const NOTE_TEXT: u32 = 0x54_0017;

/// How many records are ahead of a close.
pub const RECORDS: u32 = 0x54_0018;

/// The mark of a call that ends.
pub const END_MARK: u32 = 0x54_0020;

/// A note of the recorder.
pub const NOTE: u32 = 0x54_0021;

/// The close of a sealed transcript.
pub const CLOSE: u32 = 0x54_0022;

/// The header of a declaration.
pub const DECLARATION_HEADER: u32 = 0x54_0030;

/// Whether names are unique.
pub const UNIQUE_NAMES: u32 = 0x54_0031;

/// A row: a result reason, and a cause that it stands for.
pub const ROW: u32 = 0x54_0032;

/// The cause in a row.
pub const CAUSE: u32 = 0x54_0033;

/// An entry: an object that the server held.
pub const ENTRY: u32 = 0x54_0034;

/// What becomes of what isn't judged, in the header of a declaration.
pub const UNJUDGED: u32 = 0x54_0035;

/// How far moments may be from stamps, in seconds.
pub const TOLERANCE: u32 = 0x54_0036;

/// Whether clients see the objects of others.
pub const VISIBILITY: u32 = 0x54_0037;

/// An allow line: what a server says of an operation in a state.
pub const ALLOW_LINE: u32 = 0x54_0038;

/// The operation of an allow line.
pub const ACT: u32 = 0x54_0039;

/// The word of an allow line.
pub const ALLOW: u32 = 0x54_003A;

/// An own line: an attribute that the server itself gives an object at birth.
pub const OWN_LINE: u32 = 0x54_003B;

/// The owner of an entry's object.
pub const OWNER: u32 = 0x54_003C;

/// An aside entry: an identifier that is set aside.
pub const ASIDE_ENTRY: u32 = 0x54_003D;

/// The header of a witness.
pub const WITNESS_HEADER: u32 = 0x54_0040;

/// The turn of a call.
pub const TURN: u32 = 0x54_0041;

/// A fill: a payload that a response leaves out.
pub const FILL: u32 = 0x54_0042;

/// The place of the item that a fill is for.
pub const FILLED_ITEM: u32 = 0x54_0043;

/// The response message of a call that did not end, in its turn.
pub const ANSWER: u32 = 0x54_0044;

/// The place of an item, where a turn says in which order they are taken.
pub const PLACE: u32 = 0x54_0045;

/// The moment of a call, in its turn.
pub const TURN_MOMENT: u32 = 0x54_0046;

/// A birth: attributes that complete a request.
pub const BIRTH: u32 = 0x54_0047;

/// The place of an item that is set aside, in a turn.
pub const ASIDE: u32 = 0x54_0048;
