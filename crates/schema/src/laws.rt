//! What holds of the definitions.

ghost use Rattle.schema.specs.Law.{ColumnsDetermineRows, LevelsAreOfSteps, EntriesAreOfLeaves, RowsBeginOnce, AnnotationsAreKept};
ghost use Rattle.schema.specs.Worked.{DocumentExample, ListExample};
ghost use Rattle.schema.specs.Orders.{OrdersAreTotal, UnsignedOrderIsOfBits, OrdersHaveAtMost};

/// The order of a leaf that has one is total on the leaf's values.
#[tactic(auto, using(crate::proofs::Orders::orders_are_total))]
pub fn orders_are_total()
    ensures { OrdersAreTotal }
{}

/// The unsigned order is that of the unsigned numbers of the same bits.
#[tactic(auto, using(crate::proofs::Orders::unsigned_order_is_of_bits))]
pub fn unsigned_order_is_of_bits()
    ensures { UnsignedOrderIsOfBits }
{}

/// In each order, at most and below chain, and exclude each other.
#[tactic(auto, using(crate::proofs::AtMost::at_most_laws))]
pub fn at_most_laws()
    ensures { OrdersHaveAtMost }
{}

/// Rows that fit one schema and have the same columns are the same rows.
#[tactic(auto, using(crate::proofs::Determined::columns_determine_rows))]
pub fn columns_determine_rows()
    ensures { ColumnsDetermineRows }
{}

/// The greatest levels of a leaf are those of the fields on the path to it.
#[tactic(auto, using(crate::proofs::Kept::levels_are_of_steps))]
pub fn levels_are_of_steps()
    ensures { LevelsAreOfSteps }
{}

/// The columns of rows that fit have entries within their leaves' greatest levels, with a value that fits
/// exactly when the definition level is the greatest.
#[tactic(auto, using(crate::proofs::Entries::entries_are_of_leaves))]
pub fn entries_are_of_leaves()
    ensures { EntriesAreOfLeaves }
{}

/// Each row that fits gives each leaf entries of which the first begins a row, and no other: the columns of n
/// rows have n entries with the repetition level 0.
#[tactic(auto, using(crate::proofs::RowStarts::rows_begin_once))]
pub fn rows_begin_once()
    ensures { RowsBeginOnce }
{}

/// An annotation that was decided once is decided so again from what is written for it.
#[tactic(auto, using(crate::proofs::Kept::annotations_are_kept))]
pub fn annotations_are_kept()
    ensures { AnnotationsAreKept }
{}

/// The two records of the Dremel paper have the columns that it shows, and each row of a nested list
/// the entry that the standard gives it.
#[tactic(auto, using(crate::proofs::Worked::document_example, crate::proofs::Worked::list_example))]
pub fn worked_examples()
    ensures document { DocumentExample }
    ensures list { ListExample }
{}
