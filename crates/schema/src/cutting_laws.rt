//! What holds of schemas and rows that are cut.

ghost use Rattle.schema.specs.Cutting.{CutRowsFit, CutRowsHaveColumns, CutHasLeaves};

/// Rows that fit a schema fit the schema cut to some leaves once they are cut to these, and have just
/// these leaves' columns, in the order of the leaves.
pub fn cut_rows_are_of_wanted_leaves()
    ensures fit { CutRowsFit }
    ensures columns { CutRowsHaveColumns }
{}

/// The leaves of a cut schema are the wanted ones, in the order of the leaves.
pub fn a_cut_has_the_wanted_leaves()
    ensures { CutHasLeaves }
{}
