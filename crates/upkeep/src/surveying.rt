//! A table at a glance.

ghost use Rattle.std.specs.Prelude.{◌≡◌, IfOk, length};
ghost use Rattle.manifest.specs.Groups.{root_of};
ghost use Rattle.upkeep.specs.Intact.{AreLeftovers};
ghost use Rattle.upkeep.specs.Reading.{Looks};
ghost use Rattle.upkeep.specs.Totals.{Counts};
ghost use Rattle.upkeep.specs.inner.Walk.{paths_of};

use crate::checking::path_text;
use crate::counting::{Totals, totals_of};
use crate::key_texts::key_text;
use crate::unnamed::leftovers;
use bits::{R, Refusal};
use disk::Disk;
use folders::part_of_group;
use manifest::{Group, Manifest};
use partition::{path_of, same_keys};
use planning::plan_rewrite;
use reports::note_of;
use schema::{Kind, Leaf, Repetition, Step};
use std::alloc::Global;
use vault::Vault;

/// What a table holds, as its root says, and which of its files are too many or missing.
#[derive(Debug, Drop)]
pub struct Survey {
    /// The leaves of the table's schema, in its order.
    pub columns: Vec<ColumnReport>,
    pub totals: Totals,
    /// One for each key, in table order; one with no folder for a table without key columns.
    pub keys: Vec<KeyReport>,
    /// How many groups have fewer rows than `least` next to another one of their key that has: these a rewrite joins.
    pub small: usize,
    pub least: u64,
    /// The part files in the key folders that the table does not name.
    pub leftovers: Vec<String>,
    /// The files that the table names and that are not there.
    pub missing: Vec<String>,
}

/// A leaf of a table's schema.
#[derive(Debug, Drop)]
pub struct ColumnReport {
    /// The names on the way to the leaf, with a `.` between two.
    pub path: String,
    pub kind: &'static str,
    /// What it says of the meaning of its values, in the words of `inspect`; none where it says nothing.
    pub note: Option<String>,
    /// The repetition of the last field on the way: required, optional or repeated.
    pub repetition: &'static str,
    /// Whether the leaf is a key column, which the folders name.
    pub is_key: bool,
}

/// The groups of one key.
#[derive(Debug, Drop)]
pub struct KeyReport {
    /// The folder of the key, seen from the table's.
    pub folder: String,
    /// The same with names and texts as they are, in place of their escapes.
    pub key: String,
    pub totals: Totals,
}

/// A table at a glance, by its root that was read ([`described`](crate::described)): its columns and keys, how much there is
/// of each key, how many groups a rewrite of those with fewer rows than `least` would join, and which files are too many
/// or missing. Part files are looked for and not read.
///
/// Nothing is changed. Refused Device where the disk failed, Limit where the rows or bytes in all pass 2^64, Key for a
/// group whose key cannot partition, which no root says, and Memory. Time and room are linear in the root and in the names
/// in the key folders and those above them.
pub fn survey_of<D: Disk>(
    alloc: Global,
    vault: &mut Vault<D>,
    manifest: &Manifest,
    least: u64,
) -> R<Survey>
    ensures counts { IfOk result (λ s. Counts s.totals (root_of manifest.now).groups) }
    ensures leftovers { (D.state vault.old.disk).honest
        → IfOk result (λ s. AreLeftovers (D.state vault.old.disk).seen (root_of manifest.now) (paths_of s.leftovers)) }
    ensures effect { Looks (length (root_of manifest.now).groups) (D.state vault.old.disk) (D.state vault.new.disk) }
{
    let files = files_of(alloc, vault, manifest)?;
    with_files(alloc, manifest, least, files)
}

/// What is said of the files of a table.
#[derive(Debug, Drop)]
struct Files {
    leftovers: Vec<String>,
    missing: Vec<String>,
}

/// The files that are too many, and those that are missing.
fn files_of<D: Disk>(alloc: Global, vault: &mut Vault<D>, manifest: &Manifest) -> R<Files>
    ensures leftovers { (D.state vault.old.disk).honest
        → IfOk result (λ f. AreLeftovers (D.state vault.old.disk).seen (root_of manifest.now) (paths_of f.leftovers)) }
    ensures effect { Looks (length (root_of manifest.now).groups) (D.state vault.old.disk) (D.state vault.new.disk) }
{
    let leftovers = leftovers(alloc, vault, manifest)?;
    let missing = missing_files(alloc, vault, manifest)?;
    Ok(Files { leftovers, missing })
}

/// The survey with what is said of the files.
fn with_files(alloc: Global, manifest: &Manifest, least: u64, files: Files) -> R<Survey>
    ensures counts { IfOk result (λ s. Counts s.totals (root_of manifest.now).groups) }
    ensures leftovers { IfOk result (λ s. s.leftovers ≡ files.leftovers) }
{
    let totals = totals_of(manifest)?;
    let columns = columns_of(alloc, manifest)?;
    let keys = keys_of(alloc, manifest)?;
    let numbers = plan_rewrite(alloc, manifest.groups(), least)?;
    let Files { leftovers, missing } = files;
    Ok(Survey {
        columns,
        totals,
        keys,
        small: numbers.len(),
        least,
        leftovers,
        missing,
    })
}

/// The leaves of the table's schema.
fn columns_of(alloc: Global, manifest: &Manifest) -> R<Vec<ColumnReport>> {
    let leaves = manifest.schema().leaves();
    let mut columns = Vec::with_capacity(alloc, leaves.len())?;
    for leaf in leaves {
        let path = path_text(alloc, leaf)?;
        columns.push(ColumnReport {
            path,
            kind: kind_name(leaf.leaf_type.kind),
            note: note_of(alloc, &leaf.leaf_type)?,
            repetition: repetition_name(leaf.steps.as_slice().last()),
            is_key: is_key(manifest, leaf.steps.as_slice().first()),
        })?;
    }
    Ok(columns)
}

/// The name of a physical type.
fn kind_name(kind: Kind) -> &'static str {
    match kind {
        Kind::Boolean => "BOOLEAN",
        Kind::Int32 => "INT32",
        Kind::Int64 => "INT64",
        Kind::ByteArray => "BYTE_ARRAY",
        Kind::FixedLenByteArray(_) => "FIXED_LEN_BYTE_ARRAY",
    }
}

/// The name of the repetition of a field.
fn repetition_name(step: Option<&Step>) -> &'static str {
    match step {
        Some(
            Step {
                repetition: Repetition::Optional,
                ..
            },
        ) => "OPTIONAL",
        Some(
            Step {
                repetition: Repetition::Repeated,
                ..
            },
        ) => "REPEATED",
        _ => "REQUIRED",
    }
}

/// Whether there is a key column at the place of a field.
fn is_key(manifest: &Manifest, step: Option<&Step>) -> bool {
    match step {
        Some(step) => manifest.keys().iter().any(|key| key.at == step.place),
        None => false,
    }
}

/// How much there is of each key.
fn keys_of(alloc: Global, manifest: &Manifest) -> R<Vec<KeyReport>> {
    let groups = manifest.groups();
    let mut reports: Vec<KeyReport> = Vec::new(alloc);
    let mut before: Option<&Group> = None;
    for i in 0..groups.len() {
        if let Some(group) = groups.group_at(i) {
            if !has_same_key(before, group) {
                reports.push(report_of(alloc, manifest, group)?)?;
            }
            add_group(&mut reports, group)?;
            before = Some(group);
        }
    }
    Ok(reports)
}

/// Whether a group has the key of the one before it.
fn has_same_key(before: Option<&Group>, group: &Group) -> bool {
    match before {
        Some(before) => same_keys(&before.key, &group.key),
        None => false,
    }
}

/// The report of a group's key, without a group.
fn report_of(alloc: Global, manifest: &Manifest, group: &Group) -> R<KeyReport> {
    let folder = path_of(alloc, manifest.keys(), &group.key)?;
    let key = key_text(alloc, manifest.keys(), &group.key)?;
    Ok(KeyReport {
        folder,
        key,
        totals: Totals::NONE,
    })
}

/// Adds a group to the last report.
fn add_group(reports: &mut Vec<KeyReport>, group: &Group) -> R<()> {
    if let Some(report) = reports.last_mut() {
        report.totals = report.totals.with(group)?;
    }
    Ok(())
}

/// The files that the root names and that are not there.
fn missing_files<D: Disk>(
    alloc: Global,
    vault: &mut Vault<D>,
    manifest: &Manifest,
) -> R<Vec<String>>
    ensures effect { Looks (length (root_of manifest.now).groups) (D.state vault.old.disk) (D.state vault.new.disk) }
{
    let mut missing = Vec::new(alloc);
    for i in 0..manifest.groups().len() {
        add_missing_at(alloc, vault, manifest, i, &mut missing)?;
    }
    Ok(missing)
}

/// Adds the path of the file of the group at a place, if it is not there.
fn add_missing_at<D: Disk>(
    alloc: Global,
    vault: &mut Vault<D>,
    manifest: &Manifest,
    place: usize,
    missing: &mut Vec<String>,
) -> R<()>
    ensures effect { Looks 1 (D.state vault.old.disk) (D.state vault.new.disk) }
{
    match manifest.groups().group_at(place) {
        Some(group) => add_missing(alloc, vault, manifest, group, missing),
        None => Ok(()),
    }
}

/// Adds the path of the file of a group, if it is not there.
fn add_missing<D: Disk>(
    alloc: Global,
    vault: &mut Vault<D>,
    manifest: &Manifest,
    group: &Group,
    missing: &mut Vec<String>,
) -> R<()>
    ensures effect { Looks 1 (D.state vault.old.disk) (D.state vault.new.disk) }
{
    let path = part_of_group(alloc, manifest, group)?;
    let there = is_there(alloc, vault, path.as_str())?;
    add_unless(there, path, missing)
}

/// Adds a path, unless its file is there.
fn add_unless(there: bool, path: String, missing: &mut Vec<String>) -> R<()> {
    if !there {
        missing.push(path)?;
    }
    Ok(())
}

/// Whether a file is there: none of its bytes is read.
fn is_there<D: Disk>(alloc: Global, vault: &mut Vault<D>, path: &str) -> R<bool>
    ensures effect { Looks 1 (D.state vault.old.disk) (D.state vault.new.disk) }
{
    let read = vault.get_range(alloc, path, 0, 0);
    was_there(read)
}

/// Whether something was read; not where nothing is there.
fn was_there(read: R<Vec<u8>>) -> R<bool> {
    match read {
        Ok(_) => Ok(true),
        Err(Refusal::Truncated) => Ok(false),
        Err(e) => Err(e),
    }
}
