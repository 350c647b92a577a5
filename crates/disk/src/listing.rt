//! The listing of a real folder.

ghost use Rattle.std.specs.Prelude.{◌≡◌, ◌≢◌, IfErr};
ghost use Rattle.disk.specs.Plain.{is_dataset_name};

use crate::binding::{Entry, Kind};
use crate::cause::Cause;
use crate::fault::Fault;
use crate::host_calls::check_folder;
use crate::reach::{Found, found_in};
use std::alloc::Global;
use std::fs::{self, DirEntry, Files};
use std::io::{self, ErrorKind};

/// The files and folders in a folder, and each link, pipe, device or socket with a name that a dataset could have given. One
/// with another name is passed over, and so is a name that is not UTF-8, since no dataset has given it.
pub fn list<R: Files + Clone + Drop>(
    files: &R,
    alloc: Global,
    place: &str,
) -> Result<Vec<Entry>, Cause>
    ensures which { IfErr result (λ e. e.fault ≢ Fault.Exists) }
{
    check_folder(files, place)?;
    let mut entries = Vec::new(alloc);
    for entry in fs::read_dir(&(files.clone()?, alloc), place)? {
        if let Some(entry) = listed(alloc, entry)? {
            entries.push(entry)?;
        }
    }
    Ok(entries)
}

/// What the system's entry is listed as; None where it is passed over.
fn listed<R: Files + Clone + Drop>(
    alloc: Global,
    entry: io::Result<DirEntry<R, Global>>,
) -> Result<Option<Entry>, Cause>
    ensures which { IfErr result (λ e. e.fault ≢ Fault.Exists) }
{
    let entry = match entry {
        Ok(entry) => entry,
        Err(e) if is_no_text(&e) => return Ok(None),
        Err(e) => return Err(Cause::from(e)),
    };
    let kind = match found_in(entry.metadata())? {
        Found::File(_) => Kind::File,
        Found::Folder => Kind::Folder,
        Found::Other if is_dataset_name(entry.file_name()) => Kind::Other,
        // The name was removed after the system had listed it, or is none of the dataset's.
        Found::Nothing | Found::Other => return Ok(None),
    };
    let name = String::from_str(alloc, entry.file_name())?;
    Ok(Some(Entry { name, kind }))
}

/// Whether the error is that of a listed name that is not UTF-8. The system's own error of that kind has a number.
fn is_no_text(e: &io::Error) -> bool {
    e.kind() == ErrorKind::InvalidFilename && e.raw_os_error().is_none()
}

/// Whether a dataset could have given this name: one of its root's two, one with `=` as a key folder's, or one that begins
/// with `part.` and ends with `.parquet`.
fn is_dataset_name(name: &str) -> bool
    ensures { result ≡ is_dataset_name name.now }
{
    let bytes = name.as_bytes();
    let is_part = bytes.starts_with(b"part.") && bytes.ends_with(b".parquet");
    name == "_metadata" || name == "_metadata.new" || bytes.contains(&b'=') || is_part
}
