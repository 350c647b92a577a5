//! The part files in the key folders of a table that are not among some paths.

ghost use Rattle.std.specs.Prelude.{◌≡◌, ◌+◌, ◌<◌, ◌≤◌, IfOk, OnOk, [], ◌∷◌, ◌++◌, length, take, string_bytes, map};
ghost use Rattle.bits.specs.Refusals.{RefusedOnly, RefusedMemoryOnly};
ghost use Rattle.schema.specs.Keys.{key_columns_view};
ghost use Rattle.disk.specs.Calls.{AreNamesIn};
ghost use Rattle.upkeep.specs.Reading.{Looks, IsDevice};
ghost use Rattle.folders.specs.Named.{IsIn};
ghost use Rattle.folders.specs.Entries.{IsKeyFolder};
ghost use Rattle.upkeep.specs.Strays.{AreStrays};
ghost use Rattle.upkeep.specs.inner.Walk.{FindsFile, FindsFiles, FindsBelow, Finds, paths_of};

use bits::{R, Refusal};
use disk::{Disk, Entry};
use folders::{NamedParts, key_folder, stray_at};
use schema::KeyColumn;
use std::alloc::Global;
use vault::Vault;

/// The paths of the part files in the folders of these key columns that are not among the named ones. Other files are not
/// looked at. Each folder that leads to a key is listed once; none of it is changed.
///
/// Refused Device where the disk failed, or where a folder is gone that was there, and Memory.
pub(crate) fn strays<D: Disk>(
    alloc: Global,
    vault: &mut Vault<D>,
    keys: &[KeyColumn],
    named: &NamedParts,
) -> R<Vec<String>>
    ensures stands { (D.state vault.old.disk).honest
        → IfOk result (λ found. AreStrays (D.state vault.old.disk).seen (key_columns_view keys.now) (IsIn named.now) (paths_of found)) }
    ensures which { RefusedOnly IsDevice result }
    ensures effect { Looks 0 (D.state vault.old.disk) (D.state vault.new.disk) }
{
    let mut found = Vec::new(alloc);
    find(alloc, vault, keys, named, 0, "", &mut found)?;
    Ok(found)
}

/// Adds the strays in the key folders below this one, which has the folders of the first `depth` key columns.
#[cycle(find)]
fn find<D: Disk>(
    alloc: Global,
    vault: &mut Vault<D>,
    keys: &[KeyColumn],
    named: &NamedParts,
    depth: usize,
    folder: &str,
    found: &mut Vec<String>,
) -> R<()>
    requires depth { depth ≤ length keys.now }
    requires folder { IsKeyFolder (take depth (key_columns_view keys.now)) folder.now }
    ensures finds { (D.state vault.old.disk).honest
        → OnOk result (Finds (key_columns_view keys.now) (IsIn named.now) depth folder.now (D.state vault.old.disk).seen (paths_of found.old) (paths_of found.new)) }
    ensures which { RefusedOnly IsDevice result }
    ensures effect { Looks 0 (D.state vault.old.disk) (D.state vault.new.disk) }
{
    let entries = listed(alloc, vault, folder)?;
    if depth == keys.len() {
        return find_files(alloc, keys, named, folder, entries.as_slice(), found);
    }
    for entry in &entries {
        find_below(alloc, vault, keys, named, depth, folder, entry, found)?;
    }
    Ok(())
}

/// The names in a folder. Refused Device also where it is not there.
pub(crate) fn listed<D: Disk>(alloc: Global, vault: &mut Vault<D>, folder: &str) -> R<Vec<Entry>>
    ensures stands { (D.state vault.old.disk).honest → IfOk result (λ entries. AreNamesIn (D.state vault.old.disk).seen folder.now entries.items) }
    ensures which { RefusedOnly IsDevice result }
    ensures effect { Looks 0 (D.state vault.old.disk) (D.state vault.new.disk) }
{
    match vault.list(alloc, folder) {
        Ok(entries) => Ok(entries),
        Err(Refusal::Memory) => Err(Refusal::Memory),
        Err(_) => Err(Refusal::Device),
    }
}

/// Adds the strays below an entry of this folder as [`find`] does, where the entry is a folder of the next key column.
#[cycle(find)]
fn find_below<D: Disk>(
    alloc: Global,
    vault: &mut Vault<D>,
    keys: &[KeyColumn],
    named: &NamedParts,
    depth: usize,
    folder: &str,
    entry: &Entry,
    found: &mut Vec<String>,
) -> R<()>
    requires depth { depth < length keys.now }
    ensures finds { (D.state vault.old.disk).honest
        → OnOk result (FindsBelow (key_columns_view keys.now) (IsIn named.now) (depth + 1) folder.now entry.now (D.state vault.old.disk).seen (paths_of found.old) (paths_of found.new)) }
    ensures which { RefusedOnly IsDevice result }
    ensures effect { Looks 0 (D.state vault.old.disk) (D.state vault.new.disk) }
{
    let (columns, _) = keys.split_at(depth + 1);
    match key_folder(alloc, columns, folder, entry)? {
        Some(below) => find(alloc, vault, keys, named, depth + 1, below.as_str(), found),
        None => Ok(()),
    }
}

/// Adds the strays among the entries of a key folder.
fn find_files(
    alloc: Global,
    keys: &[KeyColumn],
    named: &NamedParts,
    folder: &str,
    entries: &[Entry],
    found: &mut Vec<String>,
) -> R<()>
    requires { IsKeyFolder (key_columns_view keys.now) folder.now }
    ensures key { IsKeyFolder (key_columns_view keys.now) folder.now }
    ensures finds { OnOk result (FindsFiles (IsIn named.now) folder.now entries.now (paths_of found.old) (paths_of found.new)) }
    ensures which { RefusedMemoryOnly result }
{
    // For the proof: the folder of a key of these columns.
    let _ = keys;
    for entry in entries {
        find_file(alloc, named, folder, entry, found)?;
    }
    Ok(())
}

/// Adds the path of an entry of a key folder, where it is a stray.
fn find_file(
    alloc: Global,
    named: &NamedParts,
    folder: &str,
    entry: &Entry,
    found: &mut Vec<String>,
) -> R<()>
    ensures finds { OnOk result (FindsFile (IsIn named.now) folder.now entry.now (paths_of found.old) (paths_of found.new)) }
    ensures which { RefusedMemoryOnly result }
{
    match stray_at(alloc, named, folder, entry)? {
        Some(path) => push_path(found, path),
        None => Ok(()),
    }
}

fn push_path(found: &mut Vec<String>, path: String) -> R<()>
    ensures adds { OnOk result (paths_of found.new ≡ paths_of found.old ++ string_bytes path ∷ []) }
    ensures which { RefusedMemoryOnly result }
{
    found.push(path)?;
    Ok(())
}
