//! What holds of the definitions.

ghost use Rattle.rowtext.specs.Law.{RowsReadBack, RowsReadBackAs};

/// The text of each row that fits a schema, with texts or without, is read in the same way as that row.
pub fn rows_read_back_as()
    ensures { RowsReadBackAs }
{}

/// The text of each row that fits a schema is read as that row.
pub fn rows_read_back()
    ensures { RowsReadBack }
{}
