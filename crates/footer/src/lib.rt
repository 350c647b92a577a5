//! Whole files (parquet-format, README.md, "File format").
//!
//! `specs/File.antt` says which rows of which schema the bytes of a file mean (`FileMeans`),
//! `specs/FirstRows.antt` which its first rows are, `specs/Faults.antt` which refusal comes when,
//! `specs/Writing.antt` how a file is written, `specs/Own.antt` what the store's own writer puts
//! into one, and `specs/Writer.antt` which rows a writer was given. `specs/Laws.antt` says that a file means one list of rows.
#![tactic(auto)]

mod file_reader;
mod file_writer;
mod file_writing;
mod first_groups;
mod footer_reading;
mod footer_record;
mod footer_writing;
mod groups;
mod groups_left;
mod laws;
mod limits;
mod options;
mod rows;

pub use file_reader::{FileReader, read_file};
pub use file_writer::FileWriter;
pub use file_writing::{is_out_of_range, write_file};
pub use footer_reading::read_footer;
pub use footer_writing::{close_file, with_footer};
pub use laws::{chunks_have_the_dictionaries_asked_for, one_list_of_first_rows, one_list_of_rows};
pub use limits::{MAGIC, MOST_BYTES_OF_FILE, MOST_BYTES_OF_FOOTER, MOST_GROUP_ROWS};
pub use options::WriteOptions;
pub use rows::Rows;
