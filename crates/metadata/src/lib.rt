//! The records of the footer of a Parquet file and of page headers (`parquet.thrift`), between
//! structs of the compact protocol and bytes.
//!
//! `specs/FromTree.antt` says which record a struct is, by the table of ids in `specs/Ids.antt`;
//! `specs/Records.antt` has the records apart from where they lie in memory, and `specs/Views.antt`
//! sees those of the program as these.
//!
//! `specs/ToTree.antt` says which struct is written for a record. A record is read in one pass over its
//! bytes: `src/slots.rt` has a place for each id of its table, which keeps the last value of that id.
//! Reading from a tree goes over its fields once for each id.
//! `specs/Weight.antt` says what a footer weighs, which bounds the length of one that the store
//! writes.
//!
//! Texts are kept as the bytes that they are: Thrift's strings are binary, and what must be UTF-8 is
//! asked where it is used.
#![tactic(auto)]

mod chunk_meta;
mod column_meta;
mod column_order;
mod copies;
mod data_page_header;
mod data_page_header_v2;
mod dictionary_page_header;
mod element;
mod file_meta;
mod footer_pieces;
mod group_meta;
mod ids;
mod key_value;
mod known;
mod laws;
mod page_header;
mod put;
mod slots;
mod statistics;

pub use chunk_meta::ChunkMeta;
pub use column_meta::ColumnMeta;
pub use column_order::{ColumnOrder, type_orders};
pub use data_page_header::DataPageHeader;
pub use data_page_header_v2::DataPageHeaderV2;
pub use dictionary_page_header::DictionaryPageHeader;
pub use element::{element_from_tree, element_to_tree};
pub use file_meta::FileMeta;
pub use footer_pieces::{begin_chunk, begin_group, end_group};
pub use group_meta::GroupMeta;
pub use key_value::KeyValue;
pub use laws::{
    footer_again, footers_are_written_in_pieces, one_chunk, one_footer, one_page_header,
    page_header_again, records_again,
};
pub use page_header::{DATA_PAGE, DATA_PAGE_V2, DICTIONARY_PAGE, PageHeader};
pub use statistics::Statistics;
