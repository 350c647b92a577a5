//! PLAIN values, from bytes and to bytes (parquet-format, Encodings.md, "Plain"), and values whose bytes stand apart, in
//! streams ("Byte Stream Split").
//!
//! `specs/Plain.antt` and `specs/Split.antt` carry the contracts: `IsPlain` and `IsSplit`, which bytes stand for which
//! values. `specs/SplitLeft.antt` says which values a cursor over split values still gives.
//! `specs/Held.antt` says what an entry that a value is read to holds, `specs/ValuesLeft.antt` which values a
//! cursor still gives.
#![tactic(auto)]

mod codec;
mod columns;
mod cursor;
mod held;
mod laws;
mod lent;
mod measuring;
mod placing;
mod reading;
mod split_cursor;
mod split_reading;
mod split_writing;
mod writing;

pub use codec::{Plain, Split};
pub use cursor::Values;
pub use held::Holds;
pub use laws::{one_list, one_split_list, split_examples, what_is_of_a_kind_fits_it};
pub use lent::Lends;
pub use measuring::size_of_byte_array;
pub use placing::{place_byte_array, place_int32, place_int64, place_text};
pub use reading::{MOST_BYTES_OF_VALUE, decode, decode_to};
pub use split_cursor::SplitValues;
pub use split_reading::{split_decode, split_values};
pub use split_writing::split_encode;
pub use writing::{encode, encode_fitting, encoded_size, fitting_size};
