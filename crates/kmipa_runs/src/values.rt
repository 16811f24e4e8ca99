//! The texts of values.

ghost use Rattle.std.specs.Prelude.{◌≡◌, ◌≤◌, ◌<◌, ◌*◌, ◌++◌, ◌∷◌, [], ℕ, length, IsTrue, codes, if◌then◌else◌, OnErr, OnOk, option_map};
ghost use Rattle.std.specs.List.{flat_map};
ghost use Rattle.std.specs.Fmt.{signed_decimal};
ghost use Rattle.std.specs.Io.{StartsWith, appended_bytes};
ghost use Rattle.byteorder.specs.Endian.{big_bytes};
ghost use Rattle.hex.specs.Hex.{encode_lower, encode_upper, encode_with};
ghost use Rattle.kmipa_ttlv.specs.ViewTree.{view_value_tree};
ghost use Rattle.kmipa_runs.specs.Shown.{escaped, quoted, kind_name, note, noted, ShowsMoment, ShowsValue};

use crate::dates::calendar_date;
use crate::notes::number_name;
use crate::printer::{Printer, Unprinted};
use itoa::Buffer;
use kmipa_ttlv::{Tag, ViewValue};

/// The digits of tags and Enumerations.
pub const UPPER: &[u8; 16] = b"0123456789ABCDEF";

/// The digits of bytes.
const LOWER: &[u8; 16] = b"0123456789abcdef";

/// How many bytes are made digits at a time.
const BLOCK: usize = 32;

/// Prints the name of a value's type, between spaces.
#[inline(always)]
pub fn push_kind<P: Printer>(value: &ViewValue, out: &mut P) -> Result<(), Unprinted>
    ensures pushes { OnOk result
        ((tag : ℕ)
        → P.printed out.new ≡ P.printed out.old ++ (32 ∷ kind_name (view_value_tree tag value.now) ++ codes " ")) }
    ensures fails { OnErr result (IsTrue (P.has_failed out.new)) }
{
    match value {
        ViewValue::Structure(_) => out.print(b" Structure "),
        ViewValue::Integer(_) => out.print(b" Integer "),
        ViewValue::LongInteger(_) => out.print(b" LongInteger "),
        ViewValue::BigInteger(_) => out.print(b" BigInteger "),
        ViewValue::Enumeration(_) => out.print(b" Enumeration "),
        ViewValue::Boolean(_) => out.print(b" Boolean "),
        ViewValue::Text(_) => out.print(b" Text "),
        ViewValue::Bytes(_) => out.print(b" Bytes "),
        ViewValue::DateTime(_) => out.print(b" DateTime "),
        ViewValue::Interval(_) => out.print(b" Interval "),
        ViewValue::DateTimeExtended(_) => out.print(b" DateTimeExtended "),
    }
}

/// Prints the text of a value; of a Structure nothing.
#[inline(always)]
pub fn push_value<P: Printer>(value: &ViewValue, out: &mut P) -> Result<(), Unprinted>
    ensures shows { OnOk result
        ((tag : ℕ)
        → ShowsValue (view_value_tree tag value.now) (appended_bytes (P.printed out.old) (P.printed out.new))) }
    ensures appends { OnOk result (StartsWith (P.printed out.new) (P.printed out.old)) }
    ensures fails { OnErr result (IsTrue (P.has_failed out.new)) }
{
    match value {
        ViewValue::Structure(_) => Ok(()),
        ViewValue::Integer(n) => push_number(i64::from(*n), out),
        ViewValue::LongInteger(n) => push_number(*n, out),
        ViewValue::BigInteger(bytes) => push_digits(LOWER, bytes, out),
        ViewValue::Enumeration(n) => push_enumeration(*n, out),
        ViewValue::Boolean(true) => out.print(b"true"),
        ViewValue::Boolean(false) => out.print(b"false"),
        ViewValue::Text(text) => push_quoted(text.as_bytes(), out),
        ViewValue::Bytes(bytes) => push_digits(LOWER, bytes, out),
        ViewValue::DateTime(second) => push_moment(*second, out),
        ViewValue::Interval(n) => push_number(i64::from(*n), out),
        ViewValue::DateTimeExtended(n) => push_number(*n, out),
    }
}

/// With the notes, prints the name of an Enumeration's number after a space, in parentheses, where the standard
/// names it.
#[inline(always)]
pub fn push_note<P: Printer>(
    notes: bool,
    tag: Tag,
    value: &ViewValue,
    out: &mut P,
) -> Result<(), Unprinted>
    ensures pushes { OnOk result
        (P.printed out.new ≡ P.printed out.old ++ note notes (view_value_tree tag.number value.now)) }
    ensures fails { OnErr result (IsTrue (P.has_failed out.new)) }
{
    if !notes {
        return Ok(());
    }
    match value {
        ViewValue::Enumeration(number) => push_name(number_name(tag, *number), out),
        _ => Ok(()),
    }
}

/// Prints a name, if there is one, after a space, in parentheses.
fn push_name<P: Printer>(name: Option<&str>, out: &mut P) -> Result<(), Unprinted>
    ensures pushes { OnOk result
        (P.printed out.new ≡ P.printed out.old ++ noted (option_map (λ text. text.now) name.entry)) }
    ensures fails { OnErr result (IsTrue (P.has_failed out.new)) }
{
    let Some(name) = name else {
        return Ok(());
    };
    out.print(b" (")?;
    out.print(name.as_bytes())?;
    out.print(b")")
}

/// Prints the eight digits of an Enumeration's number.
#[inline(always)]
fn push_enumeration<P: Printer>(number: u32, out: &mut P) -> Result<(), Unprinted>
    ensures pushes { OnOk result (P.printed out.new ≡ P.printed out.old ++ encode_upper (big_bytes 4 number)) }
    ensures fails { OnErr result (IsTrue (P.has_failed out.new)) }
{
    let mut digits = [0u8; 8];
    fill_digits(UPPER, &number.to_be_bytes(), &mut digits);
    out.print(&digits)
}

/// Prints a number in decimal.
fn push_number<P: Printer>(number: i64, out: &mut P) -> Result<(), Unprinted>
    ensures pushes { OnOk result (P.printed out.new ≡ P.printed out.old ++ signed_decimal number) }
    ensures fails { OnErr result (IsTrue (P.has_failed out.new)) }
{
    out.print(Buffer::new().format(number).as_bytes())
}

/// Prints bytes as hexadecimal digits of this table.
fn push_digits<P: Printer>(table: &[u8; 16], bytes: &[u8], out: &mut P) -> Result<(), Unprinted>
    ensures pushes { OnOk result (P.printed out.new ≡ P.printed out.old ++ encode_with table.now bytes.now) }
    ensures fails { OnErr result (IsTrue (P.has_failed out.new)) }
{
    let mut left = bytes;
    'digits: while !left.is_empty() {
        let (block, others) = left.split_at(left.len().min(BLOCK));
        push_block(table, block, out)?;
        left = others;
    }
    Ok(())
}

/// Prints a few bytes as hexadecimal digits of this table.
fn push_block<P: Printer>(table: &[u8; 16], block: &[u8], out: &mut P) -> Result<(), Unprinted>
    requires { length block.now ≤ BLOCK }
    ensures pushes { OnOk result (P.printed out.new ≡ P.printed out.old ++ encode_with table.now block.now) }
    ensures fails { OnErr result (IsTrue (P.has_failed out.new)) }
{
    let mut digits = [0u8; 2 * BLOCK];
    let filled = &mut digits[..2 * block.len()];
    fill_digits(table, block, filled);
    out.print(filled)
}

/// Writes bytes as hexadecimal digits of this table.
#[inline(always)]
pub fn fill_digits(table: &[u8; 16], bytes: &[u8], digits: &mut [u8])
    requires { length digits.old ≡ 2 * length bytes.now }
    ensures { digits.new ≡ encode_with table.now bytes.now }
{
    'bytes: for i in 0..bytes.len() {
        let byte = bytes[i];
        digits[2 * i] = table[(byte >> 4) as usize];
        digits[2 * i + 1] = table[(byte & 0x0F) as usize];
    }
}

/// Prints the number of a moment's second, and after a space its date, where the calendar has one.
fn push_moment<P: Printer>(second: i64, out: &mut P) -> Result<(), Unprinted>
    ensures shows { OnOk result (ShowsMoment second (appended_bytes (P.printed out.old) (P.printed out.new))) }
    ensures appends { OnOk result (StartsWith (P.printed out.new) (P.printed out.old)) }
    ensures fails { OnErr result (IsTrue (P.has_failed out.new)) }
{
    push_number(second, out)?;
    let Some(date) = calendar_date(second) else {
        return Ok(());
    };
    out.print(b" ")?;
    out.print(date.as_str().as_bytes())
}

/// Prints a text between double quotes.
fn push_quoted<P: Printer>(text: &[u8], out: &mut P) -> Result<(), Unprinted>
    ensures pushes { OnOk result (P.printed out.new ≡ P.printed out.old ++ quoted text.now) }
    ensures fails { OnErr result (IsTrue (P.has_failed out.new)) }
{
    out.print(b"\"")?;
    if are_plain(text) {
        out.print(text)?;
    } else {
        push_all_escaped(text, out)?;
    }
    out.print(b"\"")
}

/// Prints the bytes of a text, each as it is or escaped.
fn push_all_escaped<P: Printer>(text: &[u8], out: &mut P) -> Result<(), Unprinted>
    ensures pushes { OnOk result (P.printed out.new ≡ P.printed out.old ++ flat_map escaped text.now) }
    ensures fails { OnErr result (IsTrue (P.has_failed out.new)) }
{
    for byte in text {
        push_escaped(*byte, out)?;
    }
    Ok(())
}

/// Whether the bytes of a text stand for themselves.
fn are_plain(text: &[u8]) -> bool
    ensures { IsTrue result → flat_map escaped text.now ≡ text.now }
{
    for byte in text {
        if !is_plain(*byte) {
            return false;
        }
    }
    true
}

/// Whether a byte of a text stands for itself.
pub fn is_plain(byte: u8) -> bool
    ensures escaped { escaped byte ≡ (if result then byte ∷ [] else codes "\\x" ++ encode_lower (byte ∷ [])) }
    ensures bounded { IsTrue result → byte < 128 }
{
    b' ' <= byte && byte <= b'~' && byte != b'"' && byte != b'\\'
}

/// Prints a byte of a text.
fn push_escaped<P: Printer>(byte: u8, out: &mut P) -> Result<(), Unprinted>
    ensures pushes { OnOk result (P.printed out.new ≡ P.printed out.old ++ escaped byte) }
    ensures fails { OnErr result (IsTrue (P.has_failed out.new)) }
{
    if is_plain(byte) {
        return out.print(&[byte]);
    }
    out.print(b"\\x")?;
    push_block(LOWER, &[byte], out)
}
