//! The folder of a chain: its segments, in the order of their names.

use crate::files::reported;
use kmipa_session::{AskedFor, Folder, FolderSegment};
use std::alloc::{AllocError, Global};
use std::rt::Files;
use std::{fs, io};

/// What the names of a folder's files begin with, for each kind. Behind it stands what they share with the files of the same segment.
const TRANSCRIPT: &str = "transcript";

const DECLARATION: &str = "declaration";

const WITNESS: &str = "witness";

/// What they end with.
const ENDING: &str = ".ttlv";

/// The declaration that the segments begin with.
const FIRST: &str = "declaration.ttlv";

/// The names of a folder's files, by their kind.
#[derive(Drop)]
struct Names {
    transcripts: Vec<String>,
    declarations: Vec<String>,
    witnesses: Vec<String>,
}

impl Names {
    fn new(alloc: Global) -> Names {
        Names {
            transcripts: Vec::new(alloc),
            declarations: Vec::new(alloc),
            witnesses: Vec::new(alloc),
        }
    }

    /// Takes a name, where it is of one of the kinds.
    fn take(&mut self, alloc: Global, name: &str) -> Result<(), AllocError> {
        if suffix_of(name, TRANSCRIPT).is_some() {
            self.transcripts.push(String::from_str(alloc, name)?)?;
        } else if suffix_of(name, DECLARATION).is_some() {
            self.declarations.push(String::from_str(alloc, name)?)?;
        } else if suffix_of(name, WITNESS).is_some() {
            self.witnesses.push(String::from_str(alloc, name)?)?;
        }
        Ok(())
    }

    /// The first name of a witness that has no transcript beside it.
    fn alone(&self) -> Option<&str> {
        self.witnesses
            .iter()
            .find(|name| beside(name, WITNESS, &self.transcripts, TRANSCRIPT).is_none())
            .map(|name| name.as_str())
    }
}

/// What stands between the word for a kind and the ending, in the name of a file of that kind.
fn suffix_of<'a>(name: &'a str, kind: &str) -> Option<&'a str> {
    name.strip_prefix(kind)?.strip_suffix(ENDING)
}

/// The name of another kind that belongs to a name of this kind.
fn beside<'a>(name: &str, kind: &str, others: &'a [String], other: &str) -> Option<&'a str> {
    let suffix = suffix_of(name, kind)?;
    others
        .iter()
        .find(|there| suffix_of(there.as_str(), other) == Some(suffix))
        .map(|there| there.as_str())
}

/// Lists the segments of a folder, each with the file that its witness is written to, where a folder is named for the witnesses. What is wrong with
/// either is told on standard error.
pub fn read_folder<R: Files + AllocGlobal + Eprint + Clone + Drop>(
    rt: &R,
    folder: &str,
    witnesses: Option<&str>,
) -> io::Result<Folder> {
    let mut names = reported(rt, folder, names_of(rt, folder))?;
    test_names(rt, folder, &names)?;
    test_kinds(rt, folder, &names.transcripts)?;
    test_kinds(rt, folder, &names.declarations)?;
    test_kinds(rt, folder, &names.witnesses)?;
    if let Some(other) = witnesses {
        reported(rt, other, test_takes(rt, other))?;
    }
    names.transcripts.sort_unstable();
    names.declarations.sort_unstable();
    Ok(folder_of(rt.alloc(), folder, &names, witnesses)?)
}

/// Tests whether files may be made in a folder, as far as can be seen.
fn test_takes<R: Files>(rt: &R, folder: &str) -> io::Result<()> {
    let there = fs::metadata(rt, folder)?;
    if !there.is_dir() {
        return Err(io::Error::new(
            io::ErrorKind::NotADirectory,
            "is no folder; name the folder that the witnesses are written to",
        ));
    }
    if there.permissions().readonly() {
        return Err(io::Error::new(
            io::ErrorKind::PermissionDenied,
            "is read-only; name another folder, or make it writable",
        ));
    }
    Ok(())
}

fn names_of<R: Files + AllocGlobal + Clone + Drop>(rt: &R, folder: &str) -> io::Result<Names> {
    if !fs::metadata(rt, folder)?.is_dir() {
        return Err(io::Error::new(
            io::ErrorKind::NotADirectory,
            "is no folder; name the folder of the segments",
        ));
    }
    let mut names = Names::new(rt.alloc());
    for entry in fs::read_dir(rt, folder)? {
        names.take(rt.alloc(), entry?.file_name())?;
    }
    Ok(names)
}

/// Tells on standard error what is missing in a folder, if anything is.
fn test_names<R: Eprint>(rt: &R, folder: &str, names: &Names) -> io::Result<()> {
    let told = if names.transcripts.is_empty() {
        rt.eprintln(format_args!(
            "kmip_audit: {folder}: has no segment; name the segments transcript-0001.ttlv, transcript-0002.ttlv and so on"
        ))
    } else if beside(
        "transcript.ttlv",
        TRANSCRIPT,
        &names.declarations,
        DECLARATION,
    )
    .is_none()
    {
        rt.eprintln(format_args!(
            "kmip_audit: {folder}: has no declaration.ttlv; put there what the server held ahead of the first segment"
        ))
    } else if let Some(witness) = names.alone() {
        rt.eprintln(format_args!(
            "kmip_audit: {folder}: {witness} has no transcript beside it; put it there, or take the witness away"
        ))
    } else {
        return Ok(());
    };
    told.ok();
    Err(io::Error::from(io::ErrorKind::NotFound))
}

/// Refuses a pipe or a device in the place of a file: it would be waited for, and nothing says that it ever ends.
fn test_kinds<R: Files + AllocGlobal + Eprint>(
    rt: &R,
    folder: &str,
    names: &[String],
) -> io::Result<()> {
    for name in names {
        let path = path_of(rt.alloc(), folder, name.as_str())?;
        let there = reported(rt, path.as_str(), fs::metadata(rt, path.as_str()))?;
        if !there.is_file() && !there.is_dir() {
            rt.eprintln(format_args!(
                "kmip_audit: {path}: is no plain file; put the file itself there"
            )).ok();
            return Err(io::Error::from(io::ErrorKind::InvalidInput));
        }
    }
    Ok(())
}

fn folder_of(
    alloc: Global,
    folder: &str,
    names: &Names,
    witnesses: Option<&str>,
) -> Result<Folder, AllocError> {
    let declarations = names.declarations.as_slice();
    let mut segments = Vec::new(alloc);
    let mut before = None;
    for name in &names.transcripts {
        let here = Some(name.as_str());
        let asked = asked_between(alloc, folder, declarations, before, here)?;
        let mut segment = segment_of(alloc, folder, name.as_str(), names, asked)?;
        segment.kept = kept_in(alloc, witnesses, name.as_str())?;
        segments.push(segment)?;
        before = here;
    }
    Ok(Folder {
        declaration: path_of(alloc, folder, FIRST)?,
        segments,
        asked: asked_between(alloc, folder, declarations, before, None)?,
    })
}

/// The declarations behind a transcript, ahead of another or beside it.
fn asked_between(
    alloc: Global,
    folder: &str,
    declarations: &[String],
    before: Option<&str>,
    here: Option<&str>,
) -> Result<Vec<AskedFor>, AllocError> {
    let mut asked = Vec::new(alloc);
    for name in declarations {
        if stands_between(name.as_str(), before, here) {
            asked.push(AskedFor {
                name: String::from_str(alloc, name.as_str())?,
                path: path_of(alloc, folder, name.as_str())?,
            })?;
        }
    }
    Ok(asked)
}

/// Whether a declaration that the server was asked for stands there, by the texts behind the words for their kinds.
fn stands_between(name: &str, before: Option<&str>, here: Option<&str>) -> bool {
    name != FIRST
        && before.is_none_or(|transcript| is_behind(name, transcript))
        && here.is_none_or(|transcript| !is_behind(name, transcript))
}

fn is_behind(declaration: &str, transcript: &str) -> bool {
    declaration.strip_prefix(DECLARATION) > transcript.strip_prefix(TRANSCRIPT)
}

fn segment_of(
    alloc: Global,
    folder: &str,
    name: &str,
    names: &Names,
    asked: Vec<AskedFor>,
) -> Result<FolderSegment, AllocError> {
    let witness = match beside(name, TRANSCRIPT, &names.witnesses, WITNESS) {
        Some(witness) => Some(path_of(alloc, folder, witness)?),
        None => None,
    };
    Ok(FolderSegment {
        name: String::from_str(alloc, name)?,
        transcript: path_of(alloc, folder, name)?,
        witness,
        asked,
        kept: None,
    })
}

/// The path of the witness of a segment, in the folder for them, where one is named.
fn kept_in(
    alloc: Global,
    witnesses: Option<&str>,
    transcript: &str,
) -> Result<Option<String>, AllocError> {
    let (Some(folder), Some(suffix)) = (witnesses, suffix_of(transcript, TRANSCRIPT)) else {
        return Ok(None);
    };
    let name = format!(in alloc; "{WITNESS}{suffix}{ENDING}")?;
    Ok(Some(path_of(alloc, folder, name.as_str())?))
}

fn path_of(alloc: Global, folder: &str, name: &str) -> Result<String, AllocError> {
    let between = if folder.ends_with('/') { "" } else { "/" };
    format!(in alloc; "{folder}{between}{name}")
}
