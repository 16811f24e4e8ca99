//! Outputs: a file that is made in place of what it held, whole or not at all.

use crate::files::reported;
use kmipa_session::Content;
use std::fs::{Metadata, OpenFile, OpenOptions};
use std::io::Write;
use std::os::fd::AsFd;
use std::os::unix::fs::{MetadataExt, OpenOptionsExt, fchown};
use std::path::{Path, PathBuf};
use std::rt::Files;
use std::{fs, io};

/// The mode of an output that was not there: it may hold keys, so it is its owner's alone.
const NEW_MODE: u32 = 0o600;

/// How many names are tried for the new file beside an output.
const MOST_NAMES: u32 = 1000;

/// Whether an output is one of the inputs too, by its name or as the same plain file by another; then it is told on standard error.
pub fn is_input<R: Files + Eprint>(rt: &R, output: &str, inputs: &[&str]) -> bool {
    let is_one = inputs.iter().any(|input| *input == output)
        || is_there(rt, output) && inputs.iter().any(|input| are_one_file(rt, input, output));
    if is_one {
        rt.eprintln(format_args!(
            "kmip_audit: {output}: is an input too, and would be lost; name another file for the output"
        )).ok();
    }
    is_one
}

fn is_there<R: Files>(rt: &R, name: &str) -> bool {
    fs::metadata(rt, name).is_ok()
}

/// Whether two outputs are one file, which is there or would be made; then it is told on standard error.
pub fn are_one_output<R: Files + AllocGlobal + Eprint>(rt: &R, one: &str, other: &str) -> bool {
    let are_one = one == other || are_one_file(rt, one, other) || are_one_name(rt, one, other);
    if are_one {
        rt.eprintln(format_args!(
            "kmip_audit: {other}: is named for two outputs; name another file for one of them"
        )).ok();
    }
    are_one
}

/// Whether these are one name in one folder.
fn are_one_name<R: Files + AllocGlobal>(rt: &R, one: &str, other: &str) -> bool {
    let (one, other) = (Path::new(one), Path::new(other));
    match (folder_of(rt, one), folder_of(rt, other)) {
        (Some(folder), Some(same)) => folder == same && one.file_name() == other.file_name(),
        _ => false,
    }
}

/// The folder that a file is in, or would be made in, behind all links.
fn folder_of<R: Files + AllocGlobal>(rt: &R, file: Path<'_>) -> Option<PathBuf> {
    fs::canonicalize(rt, parent_of(file)).ok()
}

/// The folder that a file is in, or would be made in, as its name has it.
fn parent_of(file: Path<'_>) -> Path<'_> {
    match file.parent() {
        Some(parent) if parent != Path::new("") => parent,
        _ => Path::new("."),
    }
}

fn are_one_file<R: Files>(rt: &R, one: &str, other: &str) -> bool {
    match (fs::metadata(rt, one), fs::metadata(rt, other)) {
        (Ok(one), Ok(other)) => {
            one.is_file() && one.dev() == other.dev() && one.ino() == other.ino()
        }
        _ => false,
    }
}

/// Tests ahead of all work whether an output may be written, as far as can be seen: it is no folder, and not read-only. Why it may not is
/// reported on standard error.
pub fn test_output<R: Files + Eprint>(rt: &R, name: &str) -> io::Result<()> {
    match fs::metadata(rt, name) {
        Ok(there) => reported(rt, name, may_be_replaced(&there)),
        Err(_) => reported(rt, name, leads_somewhere(rt, name)),
    }
}

/// A name behind which there is nothing is no link.
fn leads_somewhere<R: Files>(rt: &R, name: &str) -> io::Result<()> {
    match fs::symlink_metadata(rt, name) {
        Ok(_) => Err(io::Error::new(
            io::ErrorKind::NotFound,
            "is a link that leads nowhere; name the file itself",
        )),
        Err(_) => Ok(()),
    }
}

fn may_be_replaced(there: &Metadata) -> io::Result<()> {
    if there.is_dir() {
        return Err(io::Error::from(io::ErrorKind::IsADirectory));
    }
    if there.is_file() && there.permissions().readonly() {
        return Err(io::Error::new(
            io::ErrorKind::PermissionDenied,
            "is read-only; name another file, or make it writable",
        ));
    }
    Ok(())
}

/// Writes a file in place of what it held, whole or not at all, also where the process is killed or the power goes: the bytes are written to a
/// new file beside it, with the mode and the owner of what was there, and are on the disk before that takes its name. Behind a link its file is
/// replaced. What is no plain file, as a device or a pipe, is written as it stands.
pub fn replace_file<R: Files<File: AsFd> + AllocGlobal + Eprint>(
    rt: &R,
    file: Content<'_>,
) -> io::Result<()> {
    let mut staged = reported(rt, file.name, stage(rt, file))?;
    let done = reported(rt, file.name, staged.place(rt));
    staged.let_go(rt);
    done
}

/// Writes two files so, both or neither: where one can't take its name, both have again what they held.
///
/// # Where it is killed
/// What the second held has another name before the first is touched, and the second takes its name last. So at each moment either both
/// are what they were, or both are what was to be written, or the second isn't there. The same once more then makes both.
pub fn replace_both<R: Files<File: AsFd> + AllocGlobal + Eprint>(
    rt: &R,
    one: Content<'_>,
    other: Content<'_>,
) -> io::Result<()> {
    let mut first = reported(rt, one.name, stage(rt, one))?;
    let done = replace_behind(rt, &mut first, other);
    first.let_go(rt);
    done
}

/// Writes the second of two files behind one that is staged.
fn replace_behind<R: Files<File: AsFd> + AllocGlobal + Eprint>(
    rt: &R,
    first: &mut Staged<'_>,
    other: Content<'_>,
) -> io::Result<()> {
    let mut second = reported(rt, other.name, stage(rt, other))?;
    let done = place_in_turn(rt, first, &mut second);
    if done.is_ok() {
        first.forget_held(rt);
        second.forget_held(rt);
    } else {
        first.put_back(rt);
        second.put_back(rt);
    }
    second.let_go(rt);
    done
}

/// Gives two files their names one after the other, with what they held set aside.
fn place_in_turn<R: Files + AllocGlobal + Eprint>(
    rt: &R,
    first: &mut Staged<'_>,
    second: &mut Staged<'_>,
) -> io::Result<()> {
    reported(rt, second.content.name, second.set_aside(rt))?;
    reported(rt, first.content.name, first.set_aside(rt))?;
    reported(rt, first.content.name, first.place(rt))?;
    reported(rt, second.content.name, second.place(rt))
}

/// An output that is ready to be made: a new file with its bytes stands beside it, or it is no plain file, and is written as it stands.
#[derive(Drop)]
struct Staged<'a> {
    content: Content<'a>,
    // The file itself, behind all links; none where it is no plain file.
    real: Option<String>,
    // The new file, until it takes its name.
    beside: Option<String>,
    // What the file held, where that has another name.
    held: Option<String>,
}

impl Staged<'_> {
    /// Gives what the file holds another name, where it is there.
    fn set_aside<R: Files + AllocGlobal>(&mut self, rt: &R) -> io::Result<()> {
        let Some(real) = &self.real else {
            return Ok(());
        };
        if fs::metadata(rt, real.as_str()).is_err() {
            return Ok(());
        }
        let (held, file) = new_beside(rt, real.as_str())?;
        drop(file);
        if let Err(error) = fs::rename(rt, real.as_str(), held.as_str()) {
            fs::remove_file(rt, held.as_str()).ok();
            return Err(error);
        }
        self.held = Some(held);
        sync_folder(rt, real.as_str())
    }

    /// Gives the new file its name, or writes what is no plain file.
    fn place<R: Files>(&mut self, rt: &R) -> io::Result<()> {
        let (Some(beside), Some(real)) = (&self.beside, &self.real) else {
            return fs::write(rt, self.content.name, self.content.bytes);
        };
        fs::rename(rt, beside.as_str(), real.as_str())?;
        self.beside = None;
        sync_folder(rt, real.as_str())
    }

    /// Gives the file again what it held, and removes one that was not there. Where that can't be, what it held keeps its other name.
    fn put_back<R: Files>(&mut self, rt: &R) {
        let Some(real) = &self.real else {
            return;
        };
        match &self.held {
            Some(held) => fs::rename(rt, held.as_str(), real.as_str()).ok(),
            None if self.beside.is_none() => fs::remove_file(rt, real.as_str()).ok(),
            None => return,
        };
        sync_folder(rt, real.as_str()).ok();
    }

    /// Removes what the file held.
    fn forget_held<R: Files>(&self, rt: &R) {
        if let Some(held) = &self.held {
            fs::remove_file(rt, held.as_str()).ok();
        }
    }

    /// Removes the new file, where it did not take its name.
    fn let_go<R: Files>(&mut self, rt: &R) {
        if let Some(beside) = &self.beside {
            fs::remove_file(rt, beside.as_str()).ok();
        }
        self.beside = None;
    }
}

/// Makes ready what is to stand in a file.
fn stage<'a, R: Files<File: AsFd> + AllocGlobal>(
    rt: &R,
    content: Content<'a>,
) -> io::Result<Staged<'a>> {
    let Ok(there) = fs::metadata(rt, content.name) else {
        leads_somewhere(rt, content.name)?;
        let real = String::from_str(rt.alloc(), content.name)?;
        return stage_beside(rt, content, real, None);
    };
    may_be_replaced(&there)?;
    if !there.is_file() {
        return Ok(Staged {
            content,
            real: None,
            beside: None,
            held: None,
        });
    }
    let real = fs::canonicalize(rt, content.name)?;
    let real = String::from_str(rt.alloc(), real.as_str())?;
    stage_beside(rt, content, real, Some(&there))
}

/// Makes the new file, with its bytes. What can't be done whole is removed.
fn stage_beside<'a, R: Files<File: AsFd> + AllocGlobal>(
    rt: &R,
    content: Content<'a>,
    real: String,
    there: Option<&Metadata>,
) -> io::Result<Staged<'a>> {
    let (beside, file) = new_beside(rt, real.as_str())?;
    let done = fill(file, content.bytes, there);
    let mut staged = Staged {
        content,
        real: Some(real),
        beside: Some(beside),
        held: None,
    };
    match done {
        Ok(()) => Ok(staged),
        Err(error) => {
            staged.let_go(rt);
            Err(error)
        }
    }
}

/// Writes a new file, gives it the owner and the mode of the one whose place it takes, and has all of it written to the disk.
fn fill<F: Write + OpenFile + AsFd + Drop>(
    mut file: F,
    bytes: &[u8],
    there: Option<&Metadata>,
) -> io::Result<()> {
    file.write_all(bytes)?;
    if let Some(there) = there {
        keep_owner(&file, there)?;
        file.set_permissions(there.permissions())?;
    }
    file.sync_all()
}

fn keep_owner<F: OpenFile + AsFd>(file: &F, there: &Metadata) -> io::Result<()> {
    let made = file.metadata()?;
    if made.uid() == there.uid() && made.gid() == there.gid() {
        return Ok(());
    }
    fchown(file, Some(there.uid()), Some(there.gid()))
}

/// Makes an empty file beside this one, under the first name of its kind that nothing has. It is opened here, and never again by its name.
fn new_beside<R: Files + AllocGlobal>(rt: &R, name: &str) -> io::Result<(String, R::File)> {
    for number in 1..MOST_NAMES {
        let beside = format!(in rt.alloc(); "{name}.{number}.part")?;
        match make_new(rt, beside.as_str()) {
            Ok(file) => return Ok((beside, file)),
            Err(error) if error.kind() == io::ErrorKind::AlreadyExists => {}
            Err(error) => return Err(error),
        }
    }
    Err(io::Error::from(io::ErrorKind::AlreadyExists))
}

/// Makes and opens a file under a name that nothing has. A link has it too, wherever it leads: with `O_CREAT | O_EXCL`, which is what
/// `create_new` asks for, none is followed.
fn make_new<R: Files>(rt: &R, name: &str) -> io::Result<R::File> {
    OpenOptions::new()
        .write(true)
        .create_new(true)
        .mode(NEW_MODE)
        .open(rt, name)
}

/// Has the names of a file's folder written to the disk. A folder that may not be read, and one whose file system has no such call, are left
/// to the system.
fn sync_folder<R: Files>(rt: &R, file: &str) -> io::Result<()> {
    match synced(rt, parent_of(Path::new(file))) {
        Err(error) if may_stay_unsynced(error.kind()) => Ok(()),
        done => done,
    }
}

fn synced<R: Files>(rt: &R, folder: Path<'_>) -> io::Result<()> {
    fs::open(rt, folder)?.sync_all()
}

fn may_stay_unsynced(kind: io::ErrorKind) -> bool {
    matches!(
        kind,
        io::ErrorKind::PermissionDenied | io::ErrorKind::InvalidInput
    )
}
