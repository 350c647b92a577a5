//! Rows, groups and bytes in all.

ghost use Rattle.std.specs.Prelude.{◌≡◌, ◌+◌, IfOk, IfErr};
ghost use Rattle.manifest.specs.Groups.{root_of};
ghost use Rattle.upkeep.specs.Totals.{Counts};

use bits::{R, Refusal};
use manifest::{Group, Manifest, Version};

/// How much there is of a table, or of a part of it, as its root says.
#[derive(Clone, Copy, Debug, PartialEq, Eq)]
pub struct Totals {
    pub rows: u64,
    pub groups: u64,
    /// What the pages of all chunks take.
    pub bytes: u64,
}

impl Totals {
    ghost use Rattle.std.specs.Prelude.{Some};
    ghost use Rattle.std.specs.List.{slice_get};
    ghost use Rattle.manifest.specs.Groups.{Group as GroupShown, group_view, groups_in};
    ghost use Rattle.upkeep.specs.Totals.{CountsOneMore};

    pub const NONE: Totals = Totals {
        rows: 0,
        groups: 0,
        bytes: 0,
    };

    /// The totals with one group more. Refused Limit for more than a `u64` counts.
    pub(crate) fn with(self, group: &Group) -> R<Totals>
        ensures counts { IfOk result (CountsOneMore self (group_view group.now)) }
        ensures which { IfErr result (λ e. e ≡ Refusal.Limit) }
    {
        let rows = sum(self.rows, group.rows())?;
        let groups = sum(self.groups, 1)?;
        let bytes = sum(self.bytes, group.chunks.size())?;
        Ok(Totals {
            rows,
            groups,
            bytes,
        })
    }

    /// The totals with the group at a place, where one is there.
    fn with_at(self, groups: &Version, place: usize) -> R<Totals>
        ensures counts { (g : GroupShown) → slice_get (groups_in groups.now) place ≡ Some g → IfOk result (CountsOneMore self g) }
        ensures which { IfErr result (λ e. e ≡ Refusal.Limit) }
    {
        match groups.group_at(place) {
            Some(group) => self.with(group),
            None => Ok(self),
        }
    }
}

/// A sum, refused Limit for more than a `u64` counts.
fn sum(a: u64, b: u64) -> R<u64>
    ensures sum { IfOk result (λ n. n ≡ a + b) }
    ensures which { IfErr result (λ e. e ≡ Refusal.Limit) }
{
    match a.checked_add(b) {
        Some(sum) => Ok(sum),
        None => Err(Refusal::Limit),
    }
}

/// How much there is of a whole table. Refused Limit for more than a `u64` counts. Takes no memory.
pub(crate) fn totals_of(manifest: &Manifest) -> R<Totals>
    ensures counts { IfOk result (λ t. Counts t (root_of manifest.now).groups) }
    ensures which { IfErr result (λ e. e ≡ Refusal.Limit) }
{
    let groups = manifest.groups();
    let mut totals = Totals::NONE;
    for i in 0..groups.len() {
        let more = totals.with_at(groups, i)?;
        totals = more;
    }
    Ok(totals)
}
