//! The lines of whence something is that is held.

ghost use Rattle.std.specs.Prelude.{◌≡◌, IfOk, string_bytes};
ghost use Rattle.kmipa_telling.specs.Sources.{PrintsBehind, PrintsCauseSource, PrintsSource, attribute_source, bytes_source, object_source, value_source};

use crate::stories::event_line;
use kmipa_explain::{Cause, Source, ValueHeld, Whence};
use kmipa_ops::Judged;
use std::alloc::{AllocError, Global};

/// What stands behind the lines of a cause that tell one thing that is held.
pub fn cause_source_line(
    alloc: Global,
    cause: &Cause,
    whence: Option<Whence>,
) -> Result<String, AllocError>
    ensures { IfOk result (λ text. PrintsCauseSource cause.now whence (string_bytes text)) }
{
    match cause {
        Cause::Bytes(_) => source_line(alloc, "known since", bytes_source(whence)),
        Cause::Identifier(_) => source_line(alloc, "held since", object_source(whence)),
        Cause::Name(_) => source_line(alloc, "held since", object_source(whence)),
        _ => Ok(String::new(alloc)),
    }
}

/// A text, and behind it the line of a source.
pub fn with_source(
    alloc: Global,
    first: &str,
    words: &str,
    source: Option<Source>,
) -> Result<String, AllocError>
    ensures { IfOk result (λ text. PrintsBehind first.now words.now source (string_bytes text)) }
{
    let behind = source_line(alloc, words, source)?;
    format!(in alloc; "{first}{behind}")
}

/// The line of a source, behind these words; none where none is known.
pub fn source_line(alloc: Global, words: &str, source: Option<Source>) -> Result<String, AllocError>
    ensures { IfOk result (λ text. PrintsSource words.now source (string_bytes text)) }
{
    match source {
        Some(Source::Declared) => format!(in alloc; "{words}: declared\n"),
        Some(Source::Done(event)) => event_line(alloc, words, &event),
        None => Ok(String::new(alloc)),
    }
}

/// The source of an object.
pub fn object_source(whence: Option<Whence>) -> Option<Source>
    ensures { result ≡ object_source whence }
{
    match whence {
        Some(whence) => whence.object,
        None => None,
    }
}

/// The source of an attribute that the object has.
pub fn attribute_source(whence: Option<Whence>, attribute: Judged) -> Option<Source>
    ensures { result ≡ attribute_source whence attribute }
{
    match whence {
        Some(whence) => whence.of(attribute),
        None => None,
    }
}

/// The source of the bytes that are known of an object.
fn bytes_source(whence: Option<Whence>) -> Option<Source>
    ensures { result ≡ bytes_source whence }
{
    match whence {
        Some(whence) => whence.bytes,
        None => None,
    }
}

/// The source of the value that the object has, where it has one.
pub fn value_source(whence: Option<Whence>, held: &ValueHeld) -> Option<Source>
    ensures { result ≡ value_source whence held.now }
{
    match held.held {
        Some(_) => attribute_source(whence, held.attribute),
        None => None,
    }
}
