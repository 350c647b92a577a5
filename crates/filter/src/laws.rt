//! What holds of the definitions.

ghost use Rattle.filter.specs.Law.{RuledOutHoldsNoRow, CompletedIsTheSame, TestsDecide, CutFiltersAgree};

/// No row of a group that is ruled out satisfies the filter, where what is known of the group is true of it.
pub fn ruled_out_holds_no_row()
    ensures { RuledOutHoldsNoRow }
{}

/// A group is ruled out by what is known of its file's leaves exactly when it is by that completed for the leaves that the
/// file lacks.
pub fn completed_is_the_same()
    ensures { CompletedIsTheSame }
{}

/// Whether a row satisfies a filter is decided by the tests of `specs/Deciding.antt`.
pub fn tests_decide()
    ensures { TestsDecide }
{}

/// Made over a cut schema that keeps its columns, a filter says of the cut row what it says over the whole
/// schema of the whole row.
pub fn cut_filters_agree()
    ensures { CutFiltersAgree }
{
    schema::cut_rows_are_of_wanted_leaves();
    schema::a_cut_has_the_wanted_leaves();
}
