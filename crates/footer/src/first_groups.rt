//! The first groups of a file, as many as its first rows need.

ghost use Rattle.std.specs.Prelude.{◌≡◌, map, take};
ghost use Rattle.metadata.specs.Views.{group_meta_view};
ghost use Rattle.footer.specs.FirstRows.{counted, first_groups};

use metadata::GroupMeta;

/// The first groups that have `count` rows together by their records; all groups where they have fewer. The others are
/// dropped.
pub fn first_groups(mut groups: Vec<GroupMeta>, count: u64) -> Vec<GroupMeta>
    ensures { map group_meta_view result.items ≡ first_groups count (map group_meta_view groups.items) }
{
    groups.truncate(groups_with(groups.as_slice(), count));
    groups
}

/// How many of the first groups have `count` rows together by their records; how many groups there are where they have fewer.
fn groups_with(groups: &[GroupMeta], count: u64) -> usize
    ensures { take result (map group_meta_view groups.now) ≡ first_groups count (map group_meta_view groups.now) }
{
    let mut left = count;
    for (index, group) in groups.iter().enumerate() {
        if left == 0 {
            return index;
        }
        left = left.saturating_sub(rows_of(group));
    }
    groups.len()
}

/// The rows of a group by its record; none where it has a negative number.
fn rows_of(group: &GroupMeta) -> u64
    ensures { result ≡ counted (group_meta_view group.now).num_rows }
{
    if group.num_rows < 0 {
        return 0;
    }
    group.num_rows as u64
}
