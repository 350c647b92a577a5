//! What holds of groups that are ruled out, and of the rows that were read.

ghost use Rattle.scan.specs.Left.{HeldRowsAreOne};
ghost use Rattle.scan.specs.Selected.{RuledOutGroupsHoldNone};
ghost use Rattle.scan.specs.inner.Held.{ChunksHoldColumns};

use row_group::one_meaning;
use schema::columns_determine_rows;

/// A group that a filter rules out, by its key and the statistics that the root has of it, holds no row that satisfies.
pub fn ruled_out_groups_hold_none()
    ensures { RuledOutGroupsHoldNone }
{
    filter::ruled_out_holds_no_row();
    filter::completed_is_the_same();
    manifest::known_of_parts_holds();
}

/// The chunks of a part file hold the columns that the group's rows have in the table.
pub fn chunks_hold_columns()
    ensures { ChunksHoldColumns }
{}

/// What was read and accepted of a group is one list of rows.
pub fn held_rows_are_one()
    ensures { HeldRowsAreOne }
{
    one_meaning();
    columns_determine_rows();
}
