//! What a check with explanations tells in JSON.

ghost use Rattle.std.specs.Prelude.{◌≡◌, IfOk, string_bytes};
ghost use Rattle.kmipa_ttlv.specs.Input.{came_of};
ghost use Rattle.kmipa_json.specs.Told.{members_of};
ghost use Rattle.kmipa_telling.specs.ExplainedJson.{PrintsExplainedJson, TellsExplained, explained_head};
ghost use Rattle.kmipa_telling.specs.Held.{HoldsAll};
ghost use Rattle.kmipa_telling.specs.Seals.{KnowsJudged};
ghost use Rattle.kmipa_telling.specs.Telling.{check_files, opened};

use crate::claims::tell_meaning;
use crate::explained::Explained;
use crate::faults::tell_fault_told;
use crate::held::ReadFiles;
use crate::json::open_files;
use crate::meaning::FaultTold;
use crate::telling::tell_verdict;
use kmipa_jobs::Status;
use kmipa_json::JsonObject;
use kmipa_record::Head;
use kmipa_runs::Lines;
use std::alloc::{AllocError, Global};

/// The head of the transcript that was checked, if it is sealed.
pub fn explained_head(outcome: Result<Explained, FaultTold>) -> Option<Head>
    ensures { result ≡ explained_head outcome }
{
    match outcome {
        Ok(explained) => explained.records.transcript.head,
        Err(_) => None,
    }
}

/// The object of a check of files whose bytes are held, with this outcome, on a line.
pub fn explained_object<R>(
    alloc: Global,
    torn: Option<u64>,
    files: &ReadFiles<R>,
    outcome: &Result<Explained, FaultTold>,
) -> Result<Lines, AllocError>
    requires held { HoldsAll files.now.held.now files.now.transcript.now files.now.declaration.now
        files.now.witness.now }
    requires known { KnowsJudged outcome.now (came_of files.now.transcript.now) (explained_head outcome.now) }
    ensures { IfOk result (λ lines. PrintsExplainedJson torn files.now.transcript.now files.now.declaration.now
        files.now.witness.now outcome.now lines.status (string_bytes lines.text)) }
{
    let mut told = opened_object(alloc, torn, files, outcome)?;
    let status = tell_explained(alloc, &mut told, outcome)?;
    Ok(Lines {
        text: told.into_line()?,
        status,
    })
}

/// An object that has what every one has, where a check of these files had this outcome.
fn opened_object<R>(
    alloc: Global,
    torn: Option<u64>,
    files: &ReadFiles<R>,
    outcome: &Result<Explained, FaultTold>,
) -> Result<JsonObject, AllocError>
    requires { HoldsAll files.now.held.now files.now.transcript.now files.now.declaration.now
        files.now.witness.now }
    ensures { IfOk result (λ told. members_of told
        ≡ opened (check_files torn (explained_head outcome.now) files.now.transcript.now files.now.declaration.now
        files.now.witness.now)) }
{
    match outcome {
        Ok(explained) => open_files(alloc, torn, files, &explained.records.transcript.head),
        Err(_) => open_files(alloc, torn, files, &None),
    }
}

fn tell_explained(
    alloc: Global,
    told: &mut JsonObject,
    outcome: &Result<Explained, FaultTold>,
) -> Result<Status, AllocError>
    ensures { IfOk result (λ status.
        TellsExplained outcome.now status (members_of told.old) (members_of told.new)) }
{
    match outcome {
        Ok(explained) => {
            let status = tell_verdict(
                alloc,
                told,
                &explained.verdict,
                &explained.records.transcript,
                &explained.records.declaration,
                &explained.records.witness,
            )?;
            tell_meaning(alloc, told, &explained.explanation)?;
            Ok(status)
        }
        Err(fault) => tell_fault_told(alloc, told, fault),
    }
}
