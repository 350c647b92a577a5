//! The files of a table against its root.

ghost use Rattle.std.specs.Prelude.{◌≡◌, [], ℕ, Some, Ok, IfOk, OnOk, length};
ghost use Rattle.std.specs.List.{slice_get};
ghost use Rattle.disk.specs.State.{content};
ghost use Rattle.manifest.specs.Groups.{Group as GroupShown, root_of, group_view};
ghost use Rattle.manifest.specs.Root.{stored_of};
ghost use Rattle.upkeep.specs.Intact.{HoldsRows, IsHeldIn, AreHeld, AreLeftovers, IsIntact};
ghost use Rattle.upkeep.specs.Reading.{Looks};
ghost use Rattle.upkeep.specs.inner.Walk.{paths_of};

use crate::blame::{blamed, refused_leaf};
use crate::counting::{Totals, totals_of};
use crate::findings::{Damage, Finding};
use crate::obstacles::obstacles;
use crate::part::{Fault, fault_of_part};
use crate::unnamed::{bytes_at, leftovers};
use bits::{R, Refusal};
use disk::Disk;
use folders::part_of_group;
use manifest::{Group, Manifest};
use schema::Leaf;
use std::alloc::Global;
use vault::Vault;

/// What was checked, and what was found.
#[derive(Debug, Drop)]
pub struct Checked {
    /// What the root says of the table.
    pub totals: Totals,
    /// The findings of the files that the table names, in table order, at most one a file; then the nodes of another kind than
    /// their name says.
    pub findings: Vec<Finding>,
    /// The part files that the table does not name, and how many bytes they have in all. They are no fault: a reader may need
    /// them, and the next command that changes the table removes them once none does.
    pub unnamed: Vec<String>,
    pub unnamed_bytes: u64,
}

/// Who is shown how far a check is.
pub trait Watch {
    /// A group with so many rows was checked.
    fn checked(&mut self, rows: u64);
}

/// Reads each part file against the root that was read ([`described`](crate::described)): that it is there, is a file of
/// just the columns that the table says it has, with one row group, whose records and number of rows are the root's; that
/// its pages fill their chunks; and that the statistics in the root are true of its values. A file that the disk fails to read
/// is a finding too. Also lists the folders for part files that the root does not name; for folders that have the name of the
/// next root or of a part file; for files that have the name of a key's folder; and for links, pipes, devices and sockets
/// with one of these names.
///
/// Where nothing is found, each file is there and holds its group (`AreHeld`); where no other file is listed either, the
/// table is intact (`IsIntact`). Nothing is changed. Holds one file, and one of its columns, at a
/// time. Refused Device where a folder cannot be listed, Limit where the rows or bytes in all pass 2^64, Key for a group whose key
/// cannot partition, which no root says, and Memory. Time is linear in the bytes of the files and their entries.
pub fn check<D: Disk, W: Watch>(
    alloc: Global,
    vault: &mut Vault<D>,
    manifest: &Manifest,
    watch: &mut W,
) -> R<Checked>
    ensures held { (D.state vault.old.disk).honest
        → IfOk result (λ x. x.findings.items ≡ [] → AreHeld (D.state vault.old.disk).seen (root_of manifest.now)) }
    ensures unnamed { (D.state vault.old.disk).honest
        → IfOk result (λ x. AreLeftovers (D.state vault.old.disk).seen (root_of manifest.now) (paths_of x.unnamed)) }
    ensures intact { (D.state vault.old.disk).honest
        → IfOk result (λ x. x.findings.items ≡ [] → x.unnamed.items ≡ [] → IsIntact (D.state vault.old.disk).seen (root_of manifest.now)) }
    ensures effect { Looks (length (root_of manifest.now).groups) (D.state vault.old.disk) (D.state vault.new.disk) }
{
    let totals = totals_of(manifest)?;
    let mut findings = Vec::new(alloc);
    check_files(alloc, vault, manifest, watch, &mut findings)?;
    let unnamed = leftovers(alloc, vault, manifest)?;
    let unnamed_bytes = bytes_at(vault, unnamed.as_slice())?;
    Ok(Checked {
        totals,
        findings,
        unnamed,
        unnamed_bytes,
    })
}

/// Adds a finding.
fn add_finding(
    path: String,
    column: Option<String>,
    damage: Damage,
    findings: &mut Vec<Finding>,
) -> R<()>
    ensures found { OnOk result (findings.new.items ≡ [] → ⊥) }
{
    findings.push(Finding {
        path,
        column,
        damage,
    })?;
    Ok(())
}

/// Adds a finding for each damaged file that the root names, then one for each node of another kind than its name says.
fn check_files<D: Disk, W: Watch>(
    alloc: Global,
    vault: &mut Vault<D>,
    manifest: &Manifest,
    watch: &mut W,
    findings: &mut Vec<Finding>,
) -> R<()>
    ensures held { (D.state vault.old.disk).honest → OnOk result (findings.new.items ≡ []
        → (k : ℕ) (g : GroupShown) → slice_get (root_of manifest.now).groups k ≡ Some g → IsHeldIn (D.state vault.old.disk).seen (root_of manifest.now) g) }
    ensures effect { Looks (length (root_of manifest.now).groups) (D.state vault.old.disk) (D.state vault.new.disk) }
{
    check_groups(alloc, vault, manifest, watch, findings)?;
    let obstacles = obstacles(alloc, vault, manifest.keys())?;
    add_obstacles(obstacles, findings)
}

/// Adds these findings.
fn add_obstacles(obstacles: Vec<Finding>, findings: &mut Vec<Finding>) -> R<()>
    ensures found { OnOk result (findings.new.items ≡ [] → findings.old.items ≡ []) }
{
    for Finding {
        path,
        column,
        damage,
    } in obstacles {
        add_finding(path, column, damage, findings)?;
    }
    Ok(())
}

/// Adds a finding for each damaged file that the root names.
fn check_groups<D: Disk, W: Watch>(
    alloc: Global,
    vault: &mut Vault<D>,
    manifest: &Manifest,
    watch: &mut W,
    findings: &mut Vec<Finding>,
) -> R<()>
    ensures held { (D.state vault.old.disk).honest → OnOk result (findings.new.items ≡ []
        → (k : ℕ) (g : GroupShown) → slice_get (root_of manifest.now).groups k ≡ Some g → IsHeldIn (D.state vault.old.disk).seen (root_of manifest.now) g) }
    ensures effect { Looks (length (root_of manifest.now).groups) (D.state vault.old.disk) (D.state vault.new.disk) }
{
    for i in 0..manifest.groups().len() {
        check_group_at(alloc, vault, manifest, watch, i, findings)?;
    }
    Ok(())
}

/// Adds a finding for the file of the group at a place, if it is damaged.
fn check_group_at<D: Disk, W: Watch>(
    alloc: Global,
    vault: &mut Vault<D>,
    manifest: &Manifest,
    watch: &mut W,
    place: usize,
    findings: &mut Vec<Finding>,
) -> R<()>
    ensures held { (D.state vault.old.disk).honest → OnOk result (findings.new.items ≡ [] → (findings.old.items ≡ [])
        × ((g : GroupShown) → slice_get (root_of manifest.now).groups place ≡ Some g → IsHeldIn (D.state vault.old.disk).seen (root_of manifest.now) g)) }
    ensures effect { Looks 1 (D.state vault.old.disk) (D.state vault.new.disk) }
{
    match manifest.groups().group_at(place) {
        Some(group) => {
            watch.checked(group.rows());
            check_group(alloc, vault, manifest, group, findings)
        }
        None => Ok(()),
    }
}

/// Adds a finding for the file of a group, if it is damaged.
fn check_group<D: Disk>(
    alloc: Global,
    vault: &mut Vault<D>,
    manifest: &Manifest,
    group: &Group,
    findings: &mut Vec<Finding>,
) -> R<()>
    ensures held { (D.state vault.old.disk).honest → OnOk result (findings.new.items ≡ [] → (findings.old.items ≡ [])
        × IsHeldIn (D.state vault.old.disk).seen (root_of manifest.now) (group_view group.now)) }
    ensures effect { Looks 1 (D.state vault.old.disk) (D.state vault.new.disk) }
{
    let path = part_of_group(alloc, manifest, group)?;
    match read_part(alloc, vault, path.as_str())? {
        Ok(bytes) => check_bytes(alloc, manifest, group, path, bytes.as_slice(), findings),
        Err(damage) => add_finding(path, None, damage, findings),
    }
}

/// The bytes of a file; the damage where it is not there, or cannot be read.
fn read_part<D: Disk>(alloc: Global, vault: &mut Vault<D>, path: &str) -> R<Result<Vec<u8>, Damage>>
    ensures stands { (D.state vault.old.disk).honest → IfOk result (λ found. IfOk found (λ bytes. content (D.state vault.old.disk).seen path.now ≡ Some bytes.items)) }
    ensures effect { Looks 1 (D.state vault.old.disk) (D.state vault.new.disk) }
{
    let read = vault.get_range(alloc, path, 0, usize::MAX);
    unless_damaged(read)
}

/// What was read; the damage where nothing is there, or the disk failed.
fn unless_damaged(read: R<Vec<u8>>) -> R<Result<Vec<u8>, Damage>>
    ensures { IfOk result (λ found. IfOk found (λ bytes. read ≡ Ok bytes)) }
{
    match read {
        Ok(bytes) => Ok(Ok(bytes)),
        Err(Refusal::Truncated) => Ok(Err(Damage::Missing)),
        Err(Refusal::Device) => Ok(Err(Damage::Refused(Refusal::Device))),
        Err(e) => Err(e),
    }
}

/// Adds a finding for the file of a group with these bytes, if it is damaged.
fn check_bytes(
    alloc: Global,
    manifest: &Manifest,
    group: &Group,
    path: String,
    bytes: &[u8],
    findings: &mut Vec<Finding>,
) -> R<()>
    ensures held { OnOk result (findings.new.items ≡ [] → (findings.old.items ≡ [])
        × HoldsRows (stored_of (root_of manifest.now)) (group_view group.now) bytes.now) }
{
    match fault_of_part(alloc, manifest.stored(), group, bytes)? {
        Some(fault) => add_fault(alloc, manifest, group, path, bytes, fault, findings),
        None => Ok(()),
    }
}

/// Adds a finding for a file with this fault: the refusal of a query that reads the columns of the group, where it is refused.
fn add_fault(
    alloc: Global,
    manifest: &Manifest,
    group: &Group,
    path: String,
    bytes: &[u8],
    fault: Fault,
    findings: &mut Vec<Finding>,
) -> R<()>
    ensures found { OnOk result (findings.new.items ≡ [] → ⊥) }
{
    let leaves = manifest.stored().leaves();
    let fault = fault_of_query(alloc, leaves, group, bytes, fault)?;
    let column = column_of(alloc, leaves, fault.leaf)?;
    let Fault { damage, .. } = fault;
    add_finding(path, column, damage, findings)
}

/// The fault that a query finds in a file, or else this one, with the leaf that is at fault.
fn fault_of_query(
    alloc: Global,
    leaves: &[Leaf],
    group: &Group,
    bytes: &[u8],
    fault: Fault,
) -> R<Fault> {
    let chunks = group.chunks.to_chunks(alloc)?;
    if let Some((leaf, refusal)) = refused_leaf(alloc, leaves, chunks.as_slice(), bytes)? {
        return Ok(Fault {
            damage: Damage::Refused(refusal),
            leaf: Some(leaf),
        });
    }
    let leaf = leaf_of(alloc, leaves, bytes, &fault)?;
    Ok(Fault {
        damage: fault.damage,
        leaf,
    })
}

/// The index of the leaf that is at fault, where it is one.
fn leaf_of(alloc: Global, leaves: &[Leaf], bytes: &[u8], fault: &Fault) -> R<Option<usize>> {
    match fault.damage {
        Damage::Refused(_) => blamed(alloc, leaves, bytes),
        _ => Ok(fault.leaf),
    }
}

/// The names on the way to a leaf, where there is one.
fn column_of(alloc: Global, leaves: &[Leaf], leaf: Option<usize>) -> R<Option<String>> {
    match leaf {
        Some(leaf) if leaf < leaves.len() => Ok(Some(path_text(alloc, &leaves[leaf])?)),
        _ => Ok(None),
    }
}

/// The names on the way to a leaf, with a `.` between two.
pub(crate) fn path_text(alloc: Global, leaf: &Leaf) -> R<String> {
    let mut text = String::new(alloc);
    let mut separator = "";
    for name in &leaf.path {
        text.push_str(separator)?;
        text.push_str(name.as_str())?;
        separator = ".";
    }
    Ok(text)
}
