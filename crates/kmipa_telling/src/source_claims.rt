//! Whence something is that is held, as members of a JSON object.

ghost use Rattle.std.specs.Prelude.{◌≡◌, IfOk, OnOk};
ghost use Rattle.kmipa_json.specs.Told.{members_of};
ghost use Rattle.kmipa_telling.specs.SourceClaims.{TellsSource, TellsSourceAs, TellsSources, TellsWhence};

use crate::event_claims::event_object;
use kmipa_explain::{Source, Whence};
use kmipa_json::JsonObject;
use std::alloc::{AllocError, Global};

/// Puts the sources of an object into an object, where one is spoken of.
pub fn tell_whence(
    alloc: Global,
    told: &mut JsonObject,
    whence: Option<Whence>,
) -> Result<(), AllocError>
    ensures { OnOk result (TellsWhence whence (members_of told.old) (members_of told.new)) }
{
    match whence {
        Some(whence) => told.put_object("since", sources_object(alloc, whence)?),
        None => Ok(()),
    }
}

/// Whence an object is, its state, its dates and its bytes, each where it is known.
fn sources_object(alloc: Global, whence: Whence) -> Result<JsonObject, AllocError>
    ensures { IfOk result (λ told. TellsSources whence (members_of told)) }
{
    let mut told = JsonObject::new(alloc);
    tell_source(alloc, &mut told, "object", whence.object)?;
    tell_source(alloc, &mut told, "state", whence.state)?;
    tell_source(alloc, &mut told, "initial_date", whence.initial)?;
    tell_source(alloc, &mut told, "activation_date", whence.activation)?;
    tell_source(alloc, &mut told, "deactivation_date", whence.deactivation)?;
    tell_source(alloc, &mut told, "destroy_date", whence.destroy)?;
    tell_source(alloc, &mut told, "compromise_date", whence.compromise)?;
    tell_source(alloc, &mut told, "bytes", whence.bytes)?;
    Ok(told)
}

/// A source under a name, where there is one.
fn tell_source(
    alloc: Global,
    told: &mut JsonObject,
    key: &str,
    source: Option<Source>,
) -> Result<(), AllocError>
    ensures { OnOk result (TellsSourceAs key.now source (members_of told.old) (members_of told.new)) }
{
    match source {
        Some(source) => told.put_object(key, source_object(alloc, source)?),
        None => Ok(()),
    }
}

/// A source: an item that was done, or that it is declared.
fn source_object(alloc: Global, source: Source) -> Result<JsonObject, AllocError>
    ensures { IfOk result (λ told. TellsSource source (members_of told)) }
{
    match source {
        Source::Declared => declared_object(alloc),
        Source::Done(event) => event_object(alloc, &event),
    }
}

fn declared_object(alloc: Global) -> Result<JsonObject, AllocError>
    ensures { IfOk result (λ told. TellsSource Source.Declared (members_of told)) }
{
    let mut told = JsonObject::new(alloc);
    told.put_truth("declared", true)?;
    Ok(told)
}
