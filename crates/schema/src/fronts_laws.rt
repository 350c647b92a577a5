//! What holds of the first fields of a schema, and of one with a field more.

ghost use Rattle.schema.specs.Fronts.{FrontsHaveFirstLeaves, LeavesTellFronts, PaddedRowsFit, WholeRowsArePadded, PaddingComposes, PaddedRowsHaveColumns};
ghost use Rattle.schema.specs.Growing.{GrownRowsFit, FrontsStay, KeysStay, ColumnsAreOne, GrownHaveFronts, FrontsOfFronts};

/// The leaves of the first fields are the first leaves.
#[tactic(auto, using(crate::proofs::FrontLeaves::fronts_have_first_leaves))]
pub fn fronts_have_the_first_leaves()
    ensures { FrontsHaveFirstLeaves }
{}

/// The number of leaves of a schema's first fields says how many fields these are.
#[tactic(auto, using(crate::proofs::FrontLeaves::leaves_tell_fronts))]
pub fn leaves_tell_fronts()
    ensures { LeavesTellFronts }
{}

/// A row that fits the first fields fits all the fields when it is padded.
#[tactic(auto, using(crate::proofs::Padding::padded_rows_fit))]
pub fn padded_rows_fit()
    ensures { PaddedRowsFit }
{}

/// A row that fits all the fields is padded already.
#[tactic(auto, using(crate::proofs::Padding::whole_rows_are_padded))]
pub fn whole_rows_are_padded()
    ensures { WholeRowsArePadded }
{}

/// Padding a row to some more fields and then to all is padding it to all.
#[tactic(auto, using(crate::proofs::Padding::padding_composes))]
pub fn padding_composes()
    ensures { PaddingComposes }
{}

/// The columns of padded rows are those of the rows, and columns of nulls for the other leaves.
#[tactic(auto, using(crate::proofs::Padding::padded_rows_have_columns))]
pub fn padded_rows_have_columns()
    ensures { PaddedRowsHaveColumns }
{}

/// A row with Null at its end fits the fields with an OPTIONAL one more.
#[tactic(auto, using(crate::proofs::Grown::grown_rows_fit))]
pub fn grown_rows_fit()
    ensures { GrownRowsFit }
{}

/// What files can have of some fields, they can have of those with an OPTIONAL one more.
pub fn fronts_stay()
    ensures { FrontsStay }
{}

/// Key columns stay key columns when a field is added, and the keys of rows stay.
pub fn keys_stay()
    ensures { KeysStay }
{}

/// Elements are at most one field that a schema can take at its end.
pub fn columns_are_one()
    ensures { ColumnsAreOne }
{}

/// The fields of a schema are the first of those with one more.
pub fn grown_schemas_have_fronts()
    ensures { GrownHaveFronts }
{}

/// The first fields of first fields are first fields.
pub fn fronts_of_fronts()
    ensures { FrontsOfFronts }
{}
