//! Chains of the segments of a folder.

ghost use Rattle.std.specs.Prelude.{◌≡◌, ◌≢◌, ◌≤◌, None, IfOk, IfSome, length};
ghost use Rattle.kmipa_record.specs.Declarations.{AreDeclared, declaration_of};
ghost use Rattle.kmipa_jobs.specs.declared.status.Status.{Status};
ghost use Rattle.kmipa_segments.specs.Chaining.{AreNextOf, IsKept};
ghost use Rattle.kmipa_session.specs.Keeping.{AreNextKept, IsKeptAs, IsNextKept};

use crate::did::{Did, Said, Session};
use crate::folder::{AskedFor, Folder, FolderSegment};
use crate::named::Named;
use crate::printing::tell;
use crate::telling::refuse;
use crate::voice::Voice;
use crate::world::{Content, NO_LIMIT, Out, World};
use kmipa_jobs::Status;
use kmipa_links::Links;
use kmipa_segments::{
    Chain, Link, NextSearch, chain_end, chain_out_of_time, chain_witness, sealed_line,
};
use std::alloc::{AllocError, Global};

/// What is asked of a chain.
#[derive(Clone, Copy, PartialEq, Eq)]
pub struct ChainWords<'a> {
    /// The most steps that are made for each segment without a witness.
    pub budget: u64,
    /// The seconds after which the whole ends; 0 where it has all the time that it takes.
    pub seconds: u64,
    /// Tells on standard error how far a long search got.
    pub watched: bool,
    /// The declaration that is written of what the whole leaves.
    pub leaves: Option<&'a str>,
    /// The folder that the witness of each segment is written to.
    pub witnesses: Option<&'a str>,
}

/// Judges the segments of a folder one after the other, and prints a line for each and, where all are a yes, one for the whole.
pub fn run_chain<'n, W: World, O: Out>(
    alloc: Global,
    world: &W,
    mut out: O,
    name: &str,
    words: ChainWords<'_>,
) -> Session<'n, O, W::File, W::Made, W::Refusal> {
    match chain_folder(alloc, world, &mut out, name, words) {
        Ok(status) => Session {
            out,
            status,
            did: Did::Chained,
        },
        Err(refusal) => refuse(world, out, Voice::Lines, refusal),
    }
}

fn chain_folder<W: World, O: Out>(
    alloc: Global,
    world: &W,
    out: &mut O,
    name: &str,
    words: ChainWords<'_>,
) -> Result<Status, W::Refusal> {
    let folder = world.read_folder(name, words.witnesses)?;
    match test_files(alloc, world, out, &folder, words.leaves)? {
        Status::Done => chain_segments(alloc, world, out, &folder, words),
        status => Ok(status),
    }
}

/// Reads the declaration that the segments of a folder begin with, and judges them from there.
fn chain_segments<W: World, O: Out>(
    alloc: Global,
    world: &W,
    out: &mut O,
    folder: &Folder,
    words: ChainWords<'_>,
) -> Result<Status, W::Refusal> {
    let mut declaration = world.open(folder.declaration.as_str(), NO_LIMIT)?;
    let mut lines = Vec::new(alloc);
    let read = declaration.begin(alloc, &mut lines);
    drop(declaration);
    match read {
        Ok(chain) => judge_from(alloc, world, out, folder, chain, words),
        Err(status) => {
            let paths = ["", folder.declaration.as_str()];
            world.hint_kind(&paths, &lines);
            Ok(tell(out, Voice::Lines, &lines, status))
        }
    }
}

/// Judges the segments of a folder from where a chain stands.
fn judge_from<W: World, O: Out>(
    alloc: Global,
    world: &W,
    out: &mut O,
    folder: &Folder,
    mut chain: Chain,
    words: ChainWords<'_>,
) -> Result<Status, W::Refusal>
    requires { AreDeclared (declaration_of chain.held.declaration) }
{
    judge_linked(alloc, world, out, folder, &mut chain, words)
}

/// Links all segments of a folder ahead of any verdict, judges them, each linked once more by the bytes that are judged, and tells the seals of
/// the whole by those.
fn judge_linked<W: World, O: Out>(
    alloc: Global,
    world: &W,
    out: &mut O,
    folder: &Folder,
    chain: &mut Chain,
    words: ChainWords<'_>,
) -> Result<Status, W::Refusal>
    requires { AreDeclared (declaration_of chain.old.held.declaration) }
{
    match link_folder(alloc, world, out, &folder.segments) {
        Status::Done => {}
        status => return Ok(status),
    }
    match judge_all(alloc, world, out, folder, chain, words)? {
        Status::Done => Ok(tell_seals(alloc, out, chain)),
        status => Ok(status),
    }
}

/// Links all segments, each behind those before it.
fn link_folder<W: World, O: Out>(
    alloc: Global,
    world: &W,
    out: &mut O,
    segments: &[FolderSegment],
) -> Status {
    let mut links = Links::new(alloc);
    link_all(alloc, world, out, segments, &mut links)
}

/// Links segments, up to one that can't be read, which is told in its turn; prints the line of the first gap.
fn link_all<W: World, O: Out>(
    alloc: Global,
    world: &W,
    out: &mut O,
    segments: &[FolderSegment],
    links: &mut Links,
) -> Status {
    'segments: for segment in segments {
        match link(alloc, world, out, segment, links) {
            Link::Linked => {}
            Link::Unread => return Status::Done,
            Link::Told(status) => return status,
        }
    }
    Status::Done
}

fn link<W: World, O: Out>(
    alloc: Global,
    world: &W,
    out: &mut O,
    segment: &FolderSegment,
    links: &mut Links,
) -> Link {
    let Some(mut transcript) = world.peek(segment.transcript.as_str()) else {
        return Link::Unread;
    };
    let mut lines = Vec::new(alloc);
    match transcript.link(alloc, links, segment.name.as_str(), &mut lines) {
        Link::Told(status) => Link::Told(tell(out, Voice::Lines, &lines, status)),
        link => link,
    }
}

/// Prints the line of the seals of the segments that were judged, if they bear any.
fn tell_seals<O: Out>(alloc: Global, out: &mut O, chain: &Chain) -> Status {
    match sealed_line(alloc, &chain.links) {
        Ok(line) => tell(out, Voice::Lines, line.as_bytes(), Status::Done),
        Err(_) => tell_memory(out),
    }
}

/// The paths of all files that are read.
fn inputs_of<'f>(alloc: Global, folder: &'f Folder) -> Result<Vec<&'f str>, AllocError> {
    let mut inputs = Vec::new(alloc);
    inputs.push(folder.declaration.as_str())?;
    for segment in &folder.segments {
        add_asked(&segment.asked, &mut inputs)?;
        inputs.push(segment.transcript.as_str())?;
        if let Some(witness) = &segment.witness {
            inputs.push(witness.as_str())?;
        }
    }
    add_asked(&folder.asked, &mut inputs)?;
    Ok(inputs)
}

fn add_asked<'f>(asked: &'f [AskedFor], inputs: &mut Vec<&'f str>) -> Result<(), AllocError> {
    for declaration in asked {
        inputs.push(declaration.path.as_str())?;
    }
    Ok(())
}

/// Tests the files that are to be made, as far as can be seen, and answers the status to end with, where they may not be.
fn test_files<W: World, O: Out>(
    alloc: Global,
    world: &W,
    out: &mut O,
    folder: &Folder,
    leaves: Option<&str>,
) -> Result<Status, W::Refusal> {
    let Ok(inputs) = inputs_of(alloc, folder) else {
        return Ok(tell_memory(out));
    };
    if test_unread(world, leaves, &folder.segments, &inputs).is_err() {
        return Ok(Status::Usage);
    }
    test_outputs(world, leaves, &folder.segments)?;
    Ok(Status::Done)
}

/// Tests that no file that is to be made is one that is read, and that no two are one.
fn test_unread<W: World>(
    world: &W,
    leaves: Option<&str>,
    segments: &[FolderSegment],
    inputs: &[&str],
) -> Result<(), W::Refusal> {
    if let Some(left) = leaves {
        world.test_distinct(left, inputs)?;
    }
    for segment in segments {
        if let Some(kept) = &segment.kept {
            world.test_distinct(kept.as_str(), inputs)?;
            test_not_left(world, kept.as_str(), leaves)?;
        }
    }
    Ok(())
}

fn test_not_left<W: World>(world: &W, kept: &str, leaves: Option<&str>) -> Result<(), W::Refusal> {
    match leaves {
        Some(left) => world.test_two(kept, left),
        None => Ok(()),
    }
}

/// Tests whether the files that are to be made may be, as far as can be seen.
fn test_outputs<W: World>(
    world: &W,
    leaves: Option<&str>,
    segments: &[FolderSegment],
) -> Result<(), W::Refusal> {
    if let Some(left) = leaves {
        world.test_output(left)?;
    }
    for segment in segments {
        if let Some(kept) = &segment.kept {
            world.test_output(kept.as_str())?;
        }
    }
    Ok(())
}

/// Judges all segments, compares what the server was asked for behind the last, and prints the line of the whole.
pub fn judge_all<W: World, O: Out>(
    alloc: Global,
    world: &W,
    out: &mut O,
    folder: &Folder,
    chain: &mut Chain,
    words: ChainWords<'_>,
) -> Result<Status, W::Refusal>
    requires { AreDeclared (declaration_of chain.old.held.declaration) }
    // Status 0 is answered only where each of the segments goes on from those before it.
    ensures { IfOk result (λ status.
        status ≡ Status.Done → AreNextOf chain.old chain.new (length folder.now.segments.items)) }
{
    let (status, _) = judge_in_turn(alloc, world, out, &folder.segments, chain, words)?;
    match status {
        Status::Done => end_all(alloc, world, out, folder, chain, words.leaves),
        status => Ok(status),
    }
}

fn end_all<W: World, O: Out>(
    alloc: Global,
    world: &W,
    out: &mut O,
    folder: &Folder,
    chain: &Chain,
    leaves: Option<&str>,
) -> Result<Status, W::Refusal> {
    match compare_all(alloc, world, out, &folder.asked, chain)? {
        Status::Done => end(alloc, world, out, folder.segments.len(), chain, leaves),
        status => Ok(status),
    }
}

/// Prints the line of a whole chain, and writes what it leaves where that is asked for.
fn end<W: World, O: Out>(
    alloc: Global,
    world: &W,
    out: &mut O,
    segments: usize,
    chain: &Chain,
    leaves: Option<&str>,
) -> Result<Status, W::Refusal> {
    let mut lines = Vec::new(alloc);
    let mut made = Vec::new(alloc);
    let status = chain_end(
        alloc,
        chain,
        segments,
        leaves.is_some(),
        &mut lines,
        &mut made,
    );
    if let Some(name) = leaves {
        if status == Status::Done {
            drop(world.make(Content {
                name,
                bytes: made.as_slice(),
            })?);
        }
    }
    Ok(tell(out, Voice::Lines, &lines, status))
}

/// Judges the segments one after the other, up to the first that is no yes, and answers which files were made of their witnesses, where those are
/// asked for.
pub fn judge_in_turn<W: World, O: Out>(
    alloc: Global,
    world: &W,
    out: &mut O,
    segments: &[FolderSegment],
    chain: &mut Chain,
    words: ChainWords<'_>,
) -> Result<(Status, Vec<Option<W::Made>>), W::Refusal>
    requires { AreDeclared (declaration_of chain.old.held.declaration) }
    // Status 0 is answered only where each of the segments goes on from those before it, and the file that was
    // made for it, where one is asked for, is the witness by which it does.
    ensures kept { IfOk result (λ done. done.0 ≡ Status.Done
        → AreNextKept W.made chain.old chain.new segments.now done.1.items) }
    ensures joins { IfOk result (λ done. done.0 ≡ Status.Done
        → AreNextOf chain.old chain.new (length segments.now)) }
{
    let mut made = Vec::new(alloc);
    let mut place = 0;
    'segments: while place < segments.len() {
        let (said, file) = judge(alloc, world, out, &segments[place], chain, words)?;
        let Status::Done = said else {
            return Ok((said, made));
        };
        let Ok(()) = made.push(file) else {
            return Ok((tell_memory(out), made));
        };
        place += 1;
    }
    Ok((Status::Done, made))
}

/// Prints that a segment isn't judged, since so many seconds are over.
fn tell_out_of_time<O: Out>(
    alloc: Global,
    out: &mut O,
    segment: &FolderSegment,
    seconds: u64,
) -> Status
    ensures { result ≢ Status.Done }
{
    let mut lines = Vec::new(alloc);
    let status = chain_out_of_time(alloc, segment.name.as_str(), seconds, &mut lines);
    tell(out, Voice::Lines, &lines, status)
}

/// Compares what the server was asked for ahead of a segment, and judges it from what the chain holds, and prints the lines. Where the seconds of
/// the whole are over, it is not judged, and that is printed.
fn judge<W: World, O: Out>(
    alloc: Global,
    world: &W,
    out: &mut O,
    segment: &FolderSegment,
    chain: &mut Chain,
    words: ChainWords<'_>,
) -> Result<(Status, Option<W::Made>), W::Refusal>
    requires { AreDeclared (declaration_of chain.old.held.declaration) }
    ensures joins { IfOk result (λ done. done.0 ≡ Status.Done
        → IsNextKept W.made chain.old chain.new segment.now.kept done.1) }
    ensures declared { AreDeclared (declaration_of chain.new.held.declaration) }
{
    if world.is_over(words.seconds) {
        return Ok((tell_out_of_time(alloc, out, segment, words.seconds), None));
    }
    let status = compare_all(alloc, world, out, &segment.asked, chain)?;
    if status != Status::Done {
        return Ok((status, None));
    }
    match &segment.witness {
        Some(witness) => check(alloc, world, out, segment, witness.as_str(), chain),
        None => search(alloc, world, out, segment, chain, words),
    }
}

/// Holds declarations that the server was asked for against what the chain holds, up to the first that differs, and prints a line for each.
fn compare_all<W: World, O: Out>(
    alloc: Global,
    world: &W,
    out: &mut O,
    asked: &[AskedFor],
    chain: &Chain,
) -> Result<Status, W::Refusal> {
    'asked: for declaration in asked {
        let status = compare(alloc, world, out, declaration, chain)?;
        if status != Status::Done {
            return Ok(status);
        }
    }
    Ok(Status::Done)
}

fn compare<W: World, O: Out>(
    alloc: Global,
    world: &W,
    out: &mut O,
    asked: &AskedFor,
    chain: &Chain,
) -> Result<Status, W::Refusal> {
    let mut told = world.open(asked.path.as_str(), NO_LIMIT)?;
    let mut lines = Vec::new(alloc);
    let name = asked.name.as_str();
    let status = told.compare(alloc, chain, name, &mut lines);
    hint(world, name, &["", asked.path.as_str()], &lines, status);
    Ok(tell(out, Voice::Lines, &lines, status))
}

fn check<W: World, O: Out>(
    alloc: Global,
    world: &W,
    out: &mut O,
    segment: &FolderSegment,
    witness: &str,
    chain: &mut Chain,
) -> Result<(Status, Option<W::Made>), W::Refusal>
    requires { AreDeclared (declaration_of chain.old.held.declaration) }
    ensures joins { IfOk result (λ done. done.0 ≡ Status.Done
        → IsNextKept W.made chain.old chain.new segment.now.kept done.1) }
    ensures declared { AreDeclared (declaration_of chain.new.held.declaration) }
{
    let mut transcript = world.open(segment.transcript.as_str(), NO_LIMIT)?;
    let mut order = world.open(witness, NO_LIMIT)?;
    let mut lines = Vec::new(alloc);
    let name = segment.name.as_str();
    let status = Named::check_next(alloc, chain, name, &mut transcript, &mut order, &mut lines);
    let paths = [segment.transcript.as_str(), "", witness];
    hint(world, name, &paths, &lines, status);
    let said = Said { status, lines };
    keep_and_tell(alloc, world, out, &segment.kept, chain, &said)
}

fn search<W: World, O: Out>(
    alloc: Global,
    world: &W,
    out: &mut O,
    segment: &FolderSegment,
    chain: &mut Chain,
    words: ChainWords<'_>,
) -> Result<(Status, Option<W::Made>), W::Refusal>
    requires { AreDeclared (declaration_of chain.old.held.declaration) }
    ensures joins { IfOk result (λ done. done.0 ≡ Status.Done
        → IsNextKept W.made chain.old chain.new segment.now.kept done.1) }
    ensures declared { AreDeclared (declaration_of chain.new.held.declaration) }
{
    let mut transcript = world.open(segment.transcript.as_str(), NO_LIMIT)?;
    let mut lines = Vec::new(alloc);
    let name = segment.name.as_str();
    let mut watch = world.watch(words.budget, words.seconds, words.watched);
    let next = NextSearch {
        name,
        budget: words.budget,
    };
    let status = transcript.search_next(alloc, chain, next, &mut watch, &mut lines);
    let paths = [segment.transcript.as_str()];
    hint(world, name, &paths, &lines, status);
    let said = Said { status, lines };
    keep_and_tell(alloc, world, out, &segment.kept, chain, &said)
}

/// Makes the witness of the segment that was judged, where that is asked for and it was a yes, and prints the lines behind that.
fn keep_and_tell<W: World, O: Out>(
    alloc: Global,
    world: &W,
    out: &mut O,
    kept: &Option<String>,
    chain: &Chain,
    said: &Said,
) -> Result<(Status, Option<W::Made>), W::Refusal>
    ensures kept { IfOk result (λ done. done.0 ≡ Status.Done
        → (said.now.status ≡ Status.Done) × IsKeptAs W.made (IsKept chain.now) kept.now done.1) }
    ensures none { said.now.status ≢ Status.Done → IfOk result (λ done. done.1 ≡ None) }
{
    let lines = said.lines.as_slice();
    let Status::Done = said.status else {
        return Ok((tell(out, Voice::Lines, lines, said.status), None));
    };
    let Some(path) = kept else {
        return Ok((tell(out, Voice::Lines, lines, said.status), None));
    };
    match keep(alloc, world, chain, path.as_str())? {
        Some(file) => Ok((tell(out, Voice::Lines, lines, said.status), Some(file))),
        None => Ok((tell_memory(out), None)),
    }
}

/// Tells that memory ran out.
fn tell_memory<O: Out>(out: &mut O) -> Status
    ensures { result ≡ Status.Failed }
{
    tell(out, Voice::Lines, b"", Status::Failed)
}

/// Makes a file of the witness that a chain holds; none where memory runs out.
fn keep<W: World>(
    alloc: Global,
    world: &W,
    chain: &Chain,
    name: &str,
) -> Result<Option<W::Made>, W::Refusal>
    ensures { IfOk result (λ kept. IfSome kept (λ file.
        ((W.made file).0 ≡ name.now) × IsKept chain.now (W.made file).1)) }
{
    let mut bytes = Vec::new(alloc);
    if chain_witness(alloc, chain, &mut bytes) != Status::Done {
        return Ok(None);
    }
    let file = world.make(Content {
        name,
        bytes: bytes.as_slice(),
    })?;
    Ok(Some(file))
}

/// Where a file behind a line that begins with this name is of another kind, tells so on standard error.
fn hint<W: World>(world: &W, name: &str, paths: &[&str], lines: &[u8], status: Status)
    requires { length paths.now ≤ 3 }
{
    if status != Status::Refused {
        return;
    }
    let told = lines
        .strip_prefix(name.as_bytes())
        .and_then(|rest| rest.strip_prefix(b": "));
    if let Some(told) = told {
        world.hint_kind(paths, told);
    }
}
