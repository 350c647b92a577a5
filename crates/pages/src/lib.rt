//! Pages of column chunks (parquet-format, README.md, "Data Pages"; `parquet.thrift`, PageHeader).
//!
//! `specs/Page.antt` says which page the bytes at a front are (`IsPage`), `specs/Chunk.antt` which entries
//! the pages of a chunk hold, `specs/Encodings.antt` has the table of encodings, `specs/Limits.antt` what is
//! beyond a limit, `specs/Left.antt` which entries a data page still has to give, `specs/Apart.antt` what one
//! page says of every other page of the same bytes. `specs/Writing.antt` says what a written page stands for
//! and weighs, `specs/Headers.antt` which bytes it has, and `specs/WrittenValues.antt` which bytes its values
//! have. `specs/Worked.antt` has pages made by hand.
#![tactic(auto)]

mod body_reading;
mod data_page;
mod dictionary_page_writing;
mod encoding;
mod header_writing;
mod index_page_writing;
mod indexed_values;
mod laws;
mod level_list;
mod level_reading;
mod level_writing;
mod levelled_page;
mod limits;
mod page;
mod page_reading;
mod page_values;
mod page_version;
mod page_writing;
mod parts_writing;
mod plain_page_writing;
mod plain_values;
mod section_writing;
mod shared_values;
mod split_values;
mod standing;
mod value_checks;
mod value_reading;
mod value_writing;
mod written_entries;

pub use data_page::DataPage;
pub use dictionary_page_writing::write_dictionary_page;
pub use encoding::Encoding;
pub use index_page_writing::write_index_page;
pub use laws::{one_page, pages_of_a_dictionary, short_pages_are_within_limits, worked_examples};
pub use limits::MOST_BYTES_OF_PAGE;
pub use page::PageRef;
pub use page_reading::{read_page, read_page_again};
pub use page_version::PageVersion;
pub use page_writing::write_page;
pub use plain_page_writing::write_plain_page;
pub use written_entries::{count_values, values_of};
