//! The groups of a file.

ghost use Rattle.std.specs.Prelude.{◌≡◌, ◌↔◌, List, map, IfOk, OnOk, IfErr, IsTrue};
ghost use Rattle.bits.specs.Refusals.{OnFault};
ghost use Rattle.schema.specs.Values.{ValueTrees};
ghost use Rattle.metadata.specs.Views.{group_meta_view};
ghost use Rattle.footer.specs.File.{LiesHere, GroupsMean};
ghost use Rattle.footer.specs.Faults.{HasGroupsFault};
ghost use Rattle.footer.specs.Held.{GroupsHold};

use bits::{R, Refusal};
use metadata::GroupMeta;
use row_group::check_group;
use schema::Schema;
use std::alloc::Global;

/// Reads the groups, from the bytes of their file before the footer, one after the other. Refused Page where
/// a chunk lies in another file, and else as a group is.
pub fn check_groups(alloc: Global, front: &[u8], groups: &[GroupMeta], schema: &Schema) -> R<()>
    ensures stands { let gs = map group_meta_view groups.now in OnOk result ((rows : List ValueTrees) × GroupsHold front.now schema.now gs rows) }
    ensures only { let gs = map group_meta_view groups.now in OnFault result ((rows : List ValueTrees) → GroupsMean front.now schema.now gs rows → ⊥) }
    ensures which { IfErr result (HasGroupsFault front.now schema.now (map group_meta_view groups.now)) }
{
    for group in groups {
        if !lies_here(group) {
            return Err(Refusal::Page);
        }
        check_group(alloc, front, group, schema)?;
    }
    Ok(())
}

/// Whether the chunks of a group lie in this file.
fn lies_here(group: &GroupMeta) -> bool
    ensures { IsTrue result ↔ LiesHere (group_meta_view group.now) }
{
    for chunk in &group.columns {
        if chunk.file_path.is_some() {
            return false;
        }
    }
    true
}
