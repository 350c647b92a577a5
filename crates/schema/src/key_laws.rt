//! Rows with and without the values of their key columns.

ghost use Rattle.schema.specs.Keys.{BesidesFit, RowsAreOne};

/// Rows that fit a table's fields still fit without their keys: the rest fits the other fields.
#[tactic(auto, using(crate::proofs::Besides::besides_fit))]
pub fn rows_without_keys_fit()
    ensures { BesidesFit }
{}

/// A key and the other values make at most one row.
#[tactic(auto, using(crate::proofs::Besides::rows_are_one))]
pub fn a_row_is_its_key_and_the_rest()
    ensures { RowsAreOne }
{}
