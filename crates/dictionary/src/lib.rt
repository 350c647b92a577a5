//! Dictionaries of a chunk, and the pages that go with them: the page of a dictionary's entries, and
//! pages of indexes into them (parquet-format, Encodings.md, "Dictionary Encoding").
//!
//! `specs/Entries.antt` says which entries and indexes a list of values has; `specs/IndexPages.antt`
//! which bytes stand for which indexes, and for which values of a dictionary.
#![tactic(auto)]

mod building;
mod codec;
mod dictionary;
mod key;
mod laws;
mod reading;
mod writing;

pub use codec::Indexes;
pub use dictionary::Dictionary;
pub use laws::{one_dictionary, one_list, one_list_of_values, worked_examples};
pub use reading::decode_indexes;
pub use writing::encode_indexes;
