//! The way from a path of the dataset to a file or folder of the host.

ghost use Rattle.std.specs.Prelude.{◌≡◌, ◌≢◌, ◌↔◌, IsTrue, [], IfOk, IfErr, string_bytes};
ghost use Rattle.disk.specs.Plain.{IsPlain, IsProper, FailsWith, host_path};

use crate::cause::Cause;
use crate::fault::Fault;
use crate::paths::path_in;
use std::alloc::Global;
use std::fs::{self, Files, Metadata};
use std::io;

/// What stands at a place of the host; a link is not followed.
#[derive(Clone, Copy, Debug, PartialEq, Eq)]
pub enum Found {
    Nothing,
    /// a file of this many bytes
    File(u64),
    Folder,
    /// a link, a pipe or another kind of node
    Other,
}

/// Whether a path does not leave its folder.
pub fn is_path(path: &str) -> bool
    ensures { IsTrue result ↔ IsProper path.now }
{
    path.is_empty() || path.split('/').all(|part| is_plain(part))
}

/// What stands at a place of the host.
pub fn found_at<R: Files>(files: &R, place: &str) -> Result<Found, Cause>
    ensures which { IfErr result (λ e. e.fault ≢ Fault.Exists) }
{
    found_in(fs::symlink_metadata(files, place))
}

/// What the system says that a node is; Nothing where it says that none is there.
pub fn found_in(metadata: io::Result<Metadata>) -> Result<Found, Cause>
    ensures which { IfErr result (λ e. e.fault ≢ Fault.Exists) }
{
    match metadata {
        Ok(metadata) if metadata.is_file() => Ok(Found::File(metadata.len())),
        Ok(metadata) if metadata.is_dir() => Ok(Found::Folder),
        Ok(_) => Ok(Found::Other),
        Err(e) => match Cause::from(e) {
            Cause {
                fault: Fault::Absent,
                ..
            } => Ok(Found::Nothing),
            cause => Err(cause),
        },
    }
}

/// Where a path stands on the host. Refused Failed for a path that would leave its folder, or that has a link or
/// another kind of node on its way; Absent where a folder on its way is not there. Of the folder itself only Memory.
pub fn reach<R: Files>(files: &R, alloc: Global, root: &str, path: &str) -> Result<String, Cause>
    ensures inside { IfOk result (λ place. string_bytes place ≡ host_path root.now path.now) }
    ensures outside { (IsProper path.now → ⊥) → FailsWith result Fault.Failed }
    ensures top { path.now ≡ [] → IfErr result (λ e. e.fault ≡ Fault.Memory) }
    ensures which { IfErr result (λ e. e.fault ≢ Fault.Exists) }
{
    if !is_path(path) {
        return Err(Cause::refused("an empty part, `.` or `..` in a path"));
    }
    if path.is_empty() {
        return Ok(String::from_str(alloc, root)?);
    }
    check_way(files, alloc, root, path)?;
    match path_in(alloc, root, path) {
        Ok(place) => Ok(place),
        Err(_) => Err(Cause::memory()),
    }
}

/// Whether a part of a path names something in its folder, and neither the folder itself nor the one above it.
fn is_plain(part: &str) -> bool
    ensures { IsTrue result ↔ IsPlain part.now }
{
    match part {
        "" | "." | ".." => false,
        _ => true,
    }
}

/// That each folder on the way to a path is there, and that none is a link.
fn check_way<R: Files>(files: &R, alloc: Global, root: &str, path: &str) -> Result<(), Cause>
    ensures which { IfErr result (λ e. e.fault ≢ Fault.Exists) }
{
    let mut place = String::from_str(alloc, root)?;
    for part in path.split('/') {
        match found_at(files, place.as_str())? {
            Found::Folder => {}
            Found::Other => return Err(Cause::other_node()),
            Found::File(_) | Found::Nothing => return Err(Cause::absent()),
        }
        place.push('/')?;
        place.push_str(part)?;
    }
    Ok(())
}
