//! The groups of a dataset with what its root knows of their columns, printed.

ghost use Rattle.std.specs.Prelude.{◌≡◌, ◌∷◌, [], ◌++◌, ℕ, List, Ok, map, OnOk};
ghost use Rattle.std.specs.Io.KnownBytes.{Appends};
ghost use Rattle.serde_json.specs.Data.{Data};
ghost use Rattle.serde_json.specs.Written.{compact_text};
ghost use Rattle.schema.specs.Stripe.{leaves_of};
ghost use Rattle.schema.specs.Views.{leaf_view};
ghost use Rattle.statistics.specs.Bounds.{statistics_of};
ghost use Rattle.manifest.specs.Groups.{root_of};
ghost use Rattle.manifest.specs.Root.{stored_of};
ghost use Rattle.jsonrows.specs.GroupColumns.{group_and_columns_json};
ghost use Rattle.table_reads.specs.Listing.{told_of, told_by};
ghost use Rattle.answers.specs.GroupColumns.{Told, AreColumnLines, ListsColumns};

use crate::printing::write_text;
use bits::{R, Refusal};
use disk::Disk;
use jsonrows::group_and_columns_to;
use manifest::Manifest;
use schema::Leaf;
use statistics::Stats;
use std::alloc::Global;
use std::io::Write;
use store::Store;
use table::GroupInfo;

/// Prints what each group is, a line of JSON each, in table order, as `print_groups` does, and in it what the root knows of each
/// column of the group's file: its least and greatest value and its number of nulls. A column that was added later is not in
/// the file. With `texts`, dates, times, timestamps and decimals are texts. Refused Device where the output cannot be written.
pub fn print_groups_and_columns<D: Disk, W: Write>(
    alloc: Global,
    store: &mut Store<D>,
    texts: bool,
    out: &mut W,
) -> R<()>
    ensures prints { ListsColumns D.state texts store.old (W.contents out.old) (W.contents out.new) result }
    ensures same { store.new ≡ store.old }
{
    let groups = store.groups(alloc)?;
    print_each(alloc, store.manifest(), groups.as_slice(), texts, out)
}

/// Prints what the groups of a table are, each with what the root knows of its columns.
fn print_each<W: Write>(
    alloc: Global,
    table: &Manifest,
    groups: &[GroupInfo],
    texts: bool,
    out: &mut W,
) -> R<()>
    ensures printed { map told_by groups.now ≡ map told_of (root_of table.now).groups
        → OnOk result ((told : List Told) × (printed : List ℕ) × (map (λ (t : Told). t.0) told ≡ groups.now)
        × (map (λ (t : Told). t.1) told ≡ (root_of table.now).groups)
        × AreColumnLines texts (leaves_of (stored_of (root_of table.now))) told printed × Appends (W.contents out.old) (W.contents out.new) printed) }
{
    let leaves = table.stored().leaves();
    for (place, group) in groups.iter().enumerate() {
        match table.groups().group_at(place) {
            Some(described) => {
                print_one(
                    alloc,
                    leaves,
                    group,
                    described.stats.leaves.as_slice(),
                    texts,
                    out,
                )?
            }
            // The store tells of no other groups than its table has.
            None => return Err(Refusal::NoGroup),
        }
    }
    Ok(())
}

/// Prints what a group is, with what is known of its columns, a line of JSON.
fn print_one<W: Write>(
    alloc: Global,
    leaves: &[Leaf],
    group: &GroupInfo,
    known: &[Stats],
    texts: bool,
    out: &mut W,
) -> R<()>
    ensures written { OnOk result ((d : Data) × (group_and_columns_json texts (map leaf_view leaves.now) group.now (map statistics_of known.now) ≡ Ok d)
        × Appends (W.contents out.old) (W.contents out.new) (compact_text d ++ 10 ∷ [])) }
{
    let mut text = group_and_columns_to(alloc, leaves, group, known, texts)?;
    text.push('\n')?;
    write_text(text.as_bytes(), out)
}
