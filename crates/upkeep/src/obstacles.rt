//! What is in the way of a commit: nodes of another kind than their name says.

ghost use Rattle.std.specs.Prelude.{◌≤◌, length};
ghost use Rattle.bits.specs.Refusals.{RefusedOnly, RefusedMemoryOnly};
ghost use Rattle.upkeep.specs.Reading.{Looks, IsDevice};

use crate::findings::{Damage, Finding};
use crate::walk::listed;
use bits::{R, Refusal};
use disk::{Disk, Entry, Kind};
use folders::{key_folder, path_below};
use partition::{key_of, part_number};
use schema::KeyColumn;
use std::alloc::Global;
use vault::Vault;

/// The name under which a commit makes the next root.
const NEXT_ROOT: &str = "_metadata.new";

/// What is in the way of a commit, in a finding for each: a folder with the name of the next root, or in a key folder of these
/// columns with that of a part file; a file with the name of a key's folder; and a link, a pipe, a device or a socket with one of
/// these names. A commit that comes to such a name is refused. Each folder that leads to a key is listed once; none of it is
/// changed.
///
/// Refused Device where the disk failed, or where a folder is gone that was there, and Memory.
pub(crate) fn obstacles<D: Disk>(
    alloc: Global,
    vault: &mut Vault<D>,
    keys: &[KeyColumn],
) -> R<Vec<Finding>>
    ensures which { RefusedOnly IsDevice result }
    ensures effect { Looks 0 (D.state vault.old.disk) (D.state vault.new.disk) }
{
    let mut found = Vec::new(alloc);
    seek(alloc, vault, keys, 0, "", &mut found)?;
    Ok(found)
}

/// Adds the obstacles in this folder, which has the folders of the first `depth` key columns, and below it.
#[cycle(seek)]
fn seek<D: Disk>(
    alloc: Global,
    vault: &mut Vault<D>,
    keys: &[KeyColumn],
    depth: usize,
    folder: &str,
    found: &mut Vec<Finding>,
) -> R<()>
    requires depth { depth ≤ length keys.now }
    ensures which { RefusedOnly IsDevice result }
    ensures effect { Looks 0 (D.state vault.old.disk) (D.state vault.new.disk) }
{
    let entries = listed(alloc, vault, folder)?;
    for entry in &entries {
        seek_at(alloc, vault, keys, depth, folder, entry, found)?;
    }
    Ok(())
}

/// Adds the entry of this folder where it is an obstacle, and the obstacles below it, where it is a folder of the next key
/// column.
#[cycle(seek)]
fn seek_at<D: Disk>(
    alloc: Global,
    vault: &mut Vault<D>,
    keys: &[KeyColumn],
    depth: usize,
    folder: &str,
    entry: &Entry,
    found: &mut Vec<Finding>,
) -> R<()>
    requires depth { depth ≤ length keys.now }
    ensures which { RefusedOnly IsDevice result }
    ensures effect { Looks 0 (D.state vault.old.disk) (D.state vault.new.disk) }
{
    if depth == keys.len() {
        return add_obstacle_to_file(alloc, folder, entry, found);
    }
    let (columns, _) = keys.split_at(depth + 1);
    match key_folder(alloc, columns, folder, entry)? {
        Some(below) => seek(alloc, vault, keys, depth + 1, below.as_str(), found),
        None => add_obstacle_to_folder(alloc, columns, folder, entry, found),
    }
}

/// Adds an entry of a key folder where it is an obstacle: it has the name of a file, and is none.
fn add_obstacle_to_file(
    alloc: Global,
    folder: &str,
    entry: &Entry,
    found: &mut Vec<Finding>,
) -> R<()>
    ensures which { RefusedMemoryOnly result }
{
    let name = entry.name.as_str();
    if !is_next_root(folder, name) && part_number(alloc, name)?.is_none() {
        return Ok(());
    }
    match entry.kind {
        Kind::File => Ok(()),
        Kind::Folder => add(alloc, folder, name, Damage::Folder, found),
        Kind::Other => add(alloc, folder, name, Damage::OtherNode, found),
    }
}

/// Adds an entry of a folder above the last key column's where it is an obstacle: it has the name of a key's folder, and is none,
/// or that of the next root, and is no file.
fn add_obstacle_to_folder(
    alloc: Global,
    columns: &[KeyColumn],
    folder: &str,
    entry: &Entry,
    found: &mut Vec<Finding>,
) -> R<()>
    ensures which { RefusedMemoryOnly result }
{
    let name = entry.name.as_str();
    if is_next_root(folder, name) {
        return add_obstacle_to_file(alloc, folder, entry, found);
    }
    match entry.kind {
        Kind::Folder => Ok(()),
        Kind::File if is_key_folder(alloc, columns, folder, name)? => {
            add(alloc, folder, name, Damage::File, found)
        }
        Kind::Other if is_key_folder(alloc, columns, folder, name)? => {
            add(alloc, folder, name, Damage::OtherNode, found)
        }
        Kind::File | Kind::Other => Ok(()),
    }
}

/// Whether the name in a folder is the one under which a commit makes the next root.
fn is_next_root(folder: &str, name: &str) -> bool {
    folder.is_empty() && name == NEXT_ROOT
}

/// Whether the name in a folder is that of a folder of these key columns.
fn is_key_folder(alloc: Global, columns: &[KeyColumn], folder: &str, name: &str) -> R<bool>
    ensures which { RefusedMemoryOnly result }
{
    let path = path_below(alloc, folder, name)?;
    match key_of(alloc, columns, path.as_str()) {
        Ok(_) => Ok(true),
        Err(Refusal::Key) => Ok(false),
        Err(e) => Err(e),
    }
}

/// Adds a finding of the name in a folder.
fn add(alloc: Global, folder: &str, name: &str, damage: Damage, found: &mut Vec<Finding>) -> R<()>
    ensures which { RefusedMemoryOnly result }
{
    found.push(Finding {
        path: path_below(alloc, folder, name)?,
        column: None,
        damage,
    })?;
    Ok(())
}
