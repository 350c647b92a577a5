//! Rows, schemas, filters, calls and answers as JSON text (RFC 8259).
//!
//! The rows are those of `rowtext`. `specs/SchemaJson.antt` says which schema a text is, `specs/SchemaPrinted.antt`
//! how one is printed, `specs/Filters.antt` which filter a text is, `specs/Calls.antt` which call, `specs/Scripts.antt` over
//! which schema the next line of a script is read, `specs/Answers.antt` how an answer is printed, and
//! `specs/GroupColumns.antt` how a group with what is known of its columns is.
#![tactic(auto)]

mod answer_printing;
mod batch_json;
mod call_form;
mod call_members;
mod call_reading;
mod filter_reading;
mod group_columns;
mod laws;
mod refusal_json;
mod schema_elements;
mod schema_notes;
mod schema_printing;
mod schema_reading;
mod script_reader;
mod value_json;

pub use answer_printing::{answer_to, answer_to_as, group_to};
pub use call_reading::{call_from, call_from_as};
pub use filter_reading::{filter_from, filter_from_as};
pub use group_columns::group_and_columns_to;
pub use laws::schemas_read_back;
pub use rowtext::{
    Reader, RowPlan, RowText, row_from, row_from_as, row_to, rows_read_back, rows_read_back_as,
};
pub use schema_printing::schema_to;
pub use schema_reading::{GROUP_MEMBERS, LEAF_MEMBERS, schema_from};
pub use script_reader::ScriptReader;
