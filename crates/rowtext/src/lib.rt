//! Rows as JSON text (RFC 8259), and back.
//!
//! `specs/Json.antt` says which text a row has, `specs/Reading.antt` which row a text is, `specs/Rows.antt`
//! what a printer of rows was shown, and `specs/Reader.antt` what a reader keeps.
#![tactic(auto)]

mod cursor;
mod escapes;
mod hex_digits;
mod hex_pairs;
mod integers;
mod json_text;
mod kept_rows;
mod kept_texts;
mod key;
mod lanes;
mod laws;
mod leaf_lines;
mod leaf_text;
mod level;
mod line;
mod names;
mod object_text;
mod piece_list;
mod pieces;
mod place;
mod plain_front;
mod plain_text;
mod printed_rows;
mod quoted_strings;
mod read_plan;
mod reader;
mod row_lines;
mod row_plan;
mod row_printing;
mod row_reading;
mod row_text;
mod row_text_sink;
mod scalars;
mod spans;
mod strings;
mod unread;

pub use json_text::json_of;
pub use laws::{rows_read_back, rows_read_back_as};
pub use reader::Reader;
pub use row_plan::RowPlan;
pub use row_printing::row_to;
pub use row_reading::{
    bytes_of_digits, leaf_from, leaf_from_as, members_from, members_from_as, row_from, row_from_as,
};
pub use row_text::RowText;
pub use scalars::{NUMBERS_OF_INT32, form_if};
