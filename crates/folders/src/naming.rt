//! The path of a group's part file.

ghost use Rattle.std.specs.Prelude.{◌≡◌, IfOk, string_bytes};
ghost use Rattle.bits.specs.Refusals.{RefusedOnly};
ghost use Rattle.bits.specs.declared.refusal.Refusal.TheVariants.{Key};
ghost use Rattle.manifest.specs.Groups.{root_of, group_view};
ghost use Rattle.manifest.specs.Table.{path_of_group};

use bits::R;
use manifest::{Group, Manifest};
use partition::part_path;
use std::alloc::Global;

/// The path of a group's part file. Refused Key where its key cannot partition, which no root says, and Memory.
pub fn part_of_group(alloc: Global, manifest: &Manifest, group: &Group) -> R<String>
    ensures stands { IfOk result (λ path. string_bytes path ≡ path_of_group (root_of manifest.now) (group_view group.now)) }
    ensures which { RefusedOnly (λ e. e ≡ Key) result }
{
    part_path(alloc, manifest.keys(), &group.key, group.number)
}
