//! Entries of folders.

ghost use Rattle.std.specs.Prelude.{◌≡◌, ◌^◌, ◌<◌, IfOk, MatchOption, string_bytes};
ghost use Rattle.bits.specs.Refusals.{RefusedMemoryOnly};
ghost use Rattle.schema.specs.Keys.{key_columns_view};
ghost use Rattle.disk.specs.Paths.{path_in};
ghost use Rattle.partition.specs.Folders.{part_name_of};
ghost use Rattle.folders.specs.Named.{IsIn};
ghost use Rattle.folders.specs.Entries.{IsBelow, IsNoneBelow, IsStrayFile, IsNoStrayFile};

use crate::named_parts::NamedParts;
use bits::{R, Refusal};
use disk::{Entry, Kind};
use partition::{key_of, part_name, part_number};
use schema::KeyColumn;
use std::alloc::Global;

/// The path of a name in a folder.
pub fn path_below(alloc: Global, folder: &str, name: &str) -> R<String>
    ensures ok { IfOk result (λ path. string_bytes path ≡ path_in folder.now name.now) }
    ensures which { RefusedMemoryOnly result }
{
    let mut path = String::from_str(alloc, folder)?;
    if !folder.is_empty() {
        path.push_str("/")?;
    }
    path.push_str(name)?;
    Ok(path)
}

/// The path of an entry that is the folder of a key of these columns; None of another one.
pub fn key_folder(
    alloc: Global,
    columns: &[KeyColumn],
    folder: &str,
    entry: &Entry,
) -> R<Option<String>>
    ensures stands { let keys = key_columns_view columns.now in
        IfOk result (λ found. MatchOption found (IsNoneBelow keys folder.now entry.now) (λ below. IsBelow keys folder.now entry.now below)) }
    ensures which { RefusedMemoryOnly result }
{
    if entry.kind != Kind::Folder {
        return Ok(None);
    }
    let path = path_below(alloc, folder, entry.name.as_str())?;
    match key_of(alloc, columns, path.as_str()) {
        Ok(_) => Ok(Some(path)),
        Err(Refusal::Key) => Ok(None),
        Err(e) => Err(e),
    }
}

/// The path of an entry of a key folder that is a part file and not among the named ones; None of another one.
pub fn stray_at(alloc: Global, named: &NamedParts, folder: &str, entry: &Entry) -> R<Option<String>>
    ensures stands { IfOk result (λ found. MatchOption found (IsNoStrayFile (IsIn named.now) folder.now entry.now)
        (λ stray. IsStrayFile (IsIn named.now) folder.now entry.now (string_bytes stray))) }
    ensures which { RefusedMemoryOnly result }
{
    match entry.kind {
        Kind::File => match part_number(alloc, entry.name.as_str())? {
            Some(number) => unnamed_part(alloc, named, folder, number),
            None => Ok(None),
        },
        Kind::Folder => Ok(None),
        Kind::Other => Ok(None),
    }
}

/// The path of the part file with this number in a folder; None where it is among the named ones.
fn unnamed_part(alloc: Global, named: &NamedParts, folder: &str, number: u64) -> R<Option<String>>
    ensures stands { let path = path_in folder.now (part_name_of number) in
        IfOk result (λ found. MatchOption found (IsIn named.now path) (λ stray. (string_bytes stray ≡ path) × (IsIn named.now path → ⊥))) }
    ensures fits { number < 2 ^ 64 }
    ensures which { RefusedMemoryOnly result }
{
    if named.has(folder, number) {
        return Ok(None);
    }
    let name = part_name(alloc, number)?;
    let path = path_below(alloc, folder, name.as_str())?;
    Ok(Some(path))
}
