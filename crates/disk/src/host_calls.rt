//! What a real folder's calls ask of the system. A place is a path of the host, reached without a link.

ghost use Rattle.std.specs.Prelude.{◌≡◌, ◌≢◌, ◌≤◌, IfOk, IfErr, length};

use crate::access::{Access, mode_of_new_file};
use crate::cause::Cause;
use crate::fault::Fault;
use crate::reach::{Found, found_at, found_in};
use std::alloc::Global;
use std::fs::{self, File, Files, OpenFile, OpenOptions};
use std::io::{ErrorKind, Read, Seek, SeekFrom, Write};
use std::os::unix::fs::OpenOptionsExt;

/// The length of the file at a place. Absent where no file is there, Failed where another kind of node is.
pub fn length<R: Files>(files: &R, place: &str) -> Result<u64, Cause>
    ensures which { IfErr result (λ e. e.fault ≢ Fault.Exists) }
{
    match found_at(files, place)? {
        Found::File(length) => Ok(length),
        Found::Other => Err(Cause::other_node()),
        Found::Nothing | Found::Folder => Err(Cause::absent()),
    }
}

/// Makes an empty file. What access it is given once it is written, if any, nobody exceeds before.
pub fn create<R: Files>(files: &R, place: &str, access: Option<Access>) -> Result<(), Cause> {
    let made = OpenOptions::new()
        .read(true)
        .write(true)
        .create_new(true)
        .mode(mode_of_new_file(access))
        .open(files, place);
    match made {
        Ok(_) => Ok(()),
        Err(e) if e.kind() == ErrorKind::AlreadyExists => Err(Cause::exists()),
        Err(e) => Err(Cause::from(e)),
    }
}

/// Makes a folder where nothing is, and gives it the access, if any.
pub fn make_folder<R: Files>(files: &R, place: &str, access: Option<Access>) -> Result<(), Cause> {
    match found_at(files, place)? {
        Found::Nothing => make_new_folder(files, place, access),
        Found::Folder => Ok(()),
        Found::File(_) => Err(Cause::exists()),
        Found::Other => Err(Cause::other_node()),
    }
}

/// Makes a folder, and gives it the access, if any.
fn make_new_folder<R: Files>(files: &R, place: &str, access: Option<Access>) -> Result<(), Cause> {
    fs::create_dir(files, place)?;
    give(files, place, access);
    Ok(())
}

/// Gives a file or folder the access, if any.
fn give<R: Files>(files: &R, place: &str, access: Option<Access>) {
    if let Some(access) = access {
        access.give(files, place);
    }
}

/// At most `len` bytes of the file at a place, from `from` on. What stands there is looked at first, since to open a pipe
/// would wait; the length is that of the file that was opened, so another file may take the name at any moment.
pub fn read_range<R: Files>(
    files: &R,
    alloc: Global,
    place: &str,
    from: u64,
    len: usize,
) -> Result<Vec<u8>, Cause>
    ensures at_most { IfOk result (λ bytes. length bytes.items ≤ len) }
    ensures which { IfErr result (λ e. e.fault ≢ Fault.Exists) }
{
    length(files, place)?;
    let mut file = File::open(files, place)?;
    let there = open_length(&file)?.saturating_sub(from).min(len as u64);
    let mut bytes = vec![in alloc; 0u8; there as usize]?;
    if there > 0 {
        file.seek(SeekFrom::Start(from))?;
        file.read_exact(&mut bytes)?;
    }
    Ok(bytes)
}

/// The length of an open file. Failed for another kind of node.
fn open_length<F: OpenFile>(file: &F) -> Result<u64, Cause>
    ensures which { IfErr result (λ e. e.fault ≢ Fault.Exists) }
{
    match found_in(file.metadata())? {
        Found::File(length) => Ok(length),
        Found::Nothing | Found::Folder | Found::Other => Err(Cause::other_node()),
    }
}

pub fn append<R: Files>(files: &R, place: &str, bytes: &[u8]) -> Result<(), Cause>
    ensures which { IfErr result (λ e. e.fault ≢ Fault.Exists) }
{
    length(files, place)?;
    let mut file = OpenOptions::new().append(true).open(files, place)?;
    file.write_all(bytes).map_err(Cause::failed)
}

/// Syncs a file, which is given the access before, if any.
pub fn sync<R: Files>(files: &R, place: &str, access: Option<Access>) -> Result<(), Cause>
    ensures which { IfErr result (λ e. e.fault ≢ Fault.Exists) }
{
    length(files, place)?;
    let file = File::open(files, place)?;
    give(files, place, access);
    file.sync_all().map_err(Cause::failed)
}

pub fn sync_folder<R: Files>(files: &R, place: &str) -> Result<(), Cause>
    ensures which { IfErr result (λ e. e.fault ≢ Fault.Exists) }
{
    check_folder(files, place)?;
    File::open(files, place)?.sync_all().map_err(Cause::failed)
}

pub fn rename<R: Files>(files: &R, source: &str, target: &str) -> Result<(), Cause> {
    match (found_at(files, source)?, found_at(files, target)?) {
        (Found::Nothing, _) => Err(Cause::absent()),
        (Found::Other, _) | (_, Found::Other) => Err(Cause::other_node()),
        (Found::Folder, _) | (_, Found::Folder) => Err(Cause::exists()),
        (Found::File(_), Found::File(_) | Found::Nothing) => fs::rename(
            files, source, target,
        ).map_err(Cause::failed),
    }
}

/// Refuses a rename that cannot be, by what stands at its source: Absent where nothing does, Failed where another kind
/// of node does, else Exists.
pub fn refuse_rename<R: Files>(files: &R, source: &str) -> Result<(), Cause>
    ensures refused { IfOk result (λ _. ⊥) }
{
    match found_at(files, source)? {
        Found::Nothing => Err(Cause::absent()),
        Found::Other => Err(Cause::other_node()),
        Found::File(_) | Found::Folder => Err(Cause::exists()),
    }
}

/// Removes a file's name. Absent where no name is there, Exists where it is a folder's.
pub fn remove<R: Files>(files: &R, place: &str) -> Result<(), Cause> {
    match found_at(files, place)? {
        Found::File(_) => fs::remove_file(files, place).map_err(Cause::failed),
        Found::Nothing => Err(Cause::absent()),
        Found::Folder => Err(Cause::exists()),
        Found::Other => Err(Cause::other_node()),
    }
}

/// That a folder is there: Absent where none is, Failed where another kind of node is.
pub fn check_folder<R: Files>(files: &R, place: &str) -> Result<(), Cause>
    ensures which { IfErr result (λ e. e.fault ≢ Fault.Exists) }
{
    match found_at(files, place)? {
        Found::Folder => Ok(()),
        Found::Other => Err(Cause::other_node()),
        Found::Nothing | Found::File(_) => Err(Cause::absent()),
    }
}
