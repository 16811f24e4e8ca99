//! What an answer repeats otherwise than it was asked.

ghost use Rattle.std.specs.Prelude.{◌≡◌, IfOk, List, MatchOption, Option, option_map, ℕ};
ghost use Rattle.kmipa_attrs.specs.ObjectTypes.{type_number};
ghost use Rattle.kmipa_msgs.specs.Messages.{AskOf, answer_of, ask_of, maybe_lent};
ghost use Rattle.kmipa_explain.specs.Echoes.{Differs, DiffersSomehow, IsEcho, TellsEcho, id_repeated, type_asked, type_repeated};
ghost use Rattle.kmipa_explain.specs.Meant.{text_of};

use crate::explanation::Cause;
use crate::held::EchoHeld;
use kmipa_attrs::ObjectType;
use kmipa_msgs::{Answer, Ask, Payload};
use kmipa_ops::{Effect, row_of};
use std::alloc::{AllocError, Global};

/// What the answer repeats otherwise: the Unique Batch Item ID, or else the Unique Identifier, or else the Object Type.
pub(crate) fn echo_cause(
    alloc: Global,
    meant: &Option<String>,
    ask: &Ask,
    answer: &Answer,
) -> Result<Cause, AllocError>
    requires { DiffersSomehow (text_of meant.now) (ask_of ask.now) (answer_of answer.now) }
    ensures { IfOk result (TellsEcho (text_of meant.now) (ask_of ask.now) (answer_of answer.now)) }
{
    if let Some(echo) = batch_item_echo(alloc, ask, answer)? {
        return Ok(Cause::Echo(echo));
    }
    if let Some(echo) = identifier_echo(alloc, meant, answer)? {
        return Ok(Cause::Echo(echo));
    }
    match type_echo(ask, answer) {
        Some(echo) => Ok(Cause::Echo(echo)),
        None => Ok(Cause::Object),
    }
}

/// The Unique Batch Item ID, where another is repeated.
fn batch_item_echo(
    alloc: Global,
    ask: &Ask,
    answer: &Answer,
) -> Result<Option<EchoHeld>, AllocError>
    ensures { IfOk result (λ echo. (meant : Option (List ℕ)) → MatchOption echo
        (Differs (ask_of ask.now).batch_id (answer_of answer.now).batch_id → ⊥)
        (IsEcho meant (ask_of ask.now) (answer_of answer.now))) }
{
    let Some(asked) = ask.batch_id else {
        return Ok(None);
    };
    let Some(repeated) = answer.batch_id else {
        return Ok(None);
    };
    if asked == repeated {
        return Ok(None);
    }
    let asked = Vec::from_slice(alloc, asked)?;
    let repeated = Vec::from_slice(alloc, repeated)?;
    Ok(Some(EchoHeld::BatchItem(asked, repeated)))
}

/// The Unique Identifier that is meant, where another is repeated.
fn identifier_echo(
    alloc: Global,
    meant: &Option<String>,
    answer: &Answer,
) -> Result<Option<EchoHeld>, AllocError>
    ensures { IfOk result (λ echo. (ask : AskOf) → MatchOption echo
        (Differs (text_of meant.now) (id_repeated (answer_of answer.now).payload) → ⊥)
        (IsEcho (text_of meant.now) ask (answer_of answer.now))) }
{
    let Some(id) = meant else {
        return Ok(None);
    };
    let Some(repeated) = id_repeated(answer) else {
        return Ok(None);
    };
    if id.as_str() == repeated {
        return Ok(None);
    }
    let id = String::from_str(alloc, id.as_str())?;
    let repeated = String::from_str(alloc, repeated)?;
    Ok(Some(EchoHeld::Identifier(id, repeated)))
}

/// The identifier that the answer of an operation on an object repeats.
fn id_repeated<'c>(answer: &'c Answer) -> Option<&'c str>
    ensures { maybe_lent result ≡ id_repeated (answer_of answer.now).payload }
{
    let Some(payload) = &answer.payload else {
        return None;
    };
    match payload {
        Payload::Get(got) => got.id,
        Payload::GetAttributes(got) => got.id,
        Payload::Change(changed) => changed.id,
        _ => None,
    }
}

/// The Object Type of the new object, where another is repeated.
fn type_echo(ask: &Ask, answer: &Answer) -> Option<EchoHeld>
    ensures { (meant : Option (List ℕ)) → MatchOption result
        (Differs (option_map type_number (type_asked (ask_of ask.now).asked))
        (type_repeated (answer_of answer.now).payload) → ⊥)
        (IsEcho meant (ask_of ask.now) (answer_of answer.now)) }
{
    let kind = type_asked(ask)?;
    let repeated = type_repeated(answer)?;
    if kind.number() == repeated {
        return None;
    }
    Some(EchoHeld::ObjectType(kind, repeated))
}

/// The Object Type of the new object that is asked for.
fn type_asked(ask: &Ask) -> Option<ObjectType>
    ensures { result ≡ type_asked (ask_of ask.now).asked }
{
    match row_of(&ask.asked).effect {
        Effect::Makes(new) => Some(new.kind),
        _ => None,
    }
}

/// The number of the Object Type that the answer of a new object repeats.
fn type_repeated(answer: &Answer) -> Option<u32>
    ensures { result ≡ type_repeated (answer_of answer.now).payload }
{
    let Some(payload) = &answer.payload else {
        return None;
    };
    match payload {
        Payload::Create(created) => created.object_type,
        Payload::Register(registered) => registered.object_type,
        _ => None,
    }
}
