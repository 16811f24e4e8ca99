//! Characters of a JSON text that stand as escapes, so that none of them orders a terminal about or turns the direction of writing.

ghost use Rattle.std.specs.Prelude.{◌≡◌, ◌<◌, ◌^◌, ◌++◌, flat_map, IfOk, IsTrue, OnOk, string_bytes};
ghost use Rattle.std.specs.Str.{chars};
ghost use Rattle.kmipa_json.specs.Escapes.{escaped, is_hidden, told_char};

use std::alloc::{AllocError, Global};

/// A text with each character as it is, or where it is hidden as its escape.
pub fn with_escapes(alloc: Global, text: &str) -> Result<String, AllocError>
    ensures { IfOk result (λ told. string_bytes told ≡ flat_map told_char (chars text.now)) }
{
    let mut told = String::new(alloc);
    for c in text.chars() {
        push_told(alloc, &mut told, c)?;
    }
    Ok(told)
}

fn push_told(alloc: Global, told: &mut String, c: char) -> Result<(), AllocError>
    ensures { OnOk result (string_bytes told.new ≡ string_bytes told.old ++ told_char c) }
{
    if is_hidden(c) {
        return push_escape(alloc, told, c as u16);
    }
    told.push(c)
}

/// Appends the escape of a code.
fn push_escape(alloc: Global, told: &mut String, code: u16) -> Result<(), AllocError>
    ensures { OnOk result (string_bytes told.new ≡ string_bytes told.old ++ escaped code) }
{
    told.push_str("\\u")?;
    told.push_str(hex::encode(alloc, &code.to_be_bytes())?.as_str())
}

/// Whether a character is a control of the second set, or turns the direction of writing.
fn is_hidden(c: char) -> bool
    ensures hidden { result ≡ is_hidden c }
    ensures few { IsTrue result → c < 2 ^ 16 }
{
    matches!(
        c,
        '\u{80}'..='\u{9F}'
            | '\u{61C}'
            | '\u{200E}'..='\u{200F}'
            | '\u{202A}'..='\u{202E}'
            | '\u{2066}'..='\u{2069}'
    )
}
