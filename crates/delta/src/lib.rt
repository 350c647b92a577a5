//! Numbers as differences (parquet-format, Encodings.md, "Delta Encoding"), byte values by their
//! lengths ("Delta-length byte array") and by what they share with the value before ("Delta
//! Strings"), from bytes and to bytes.
//!
//! `specs/Delta.antt` and `specs/ByteDeltas.antt` carry the contracts: which bytes stand for which
//! values; `specs/Written.antt` and `specs/WrittenBytes.antt`: which of them are written.
//! `specs/ValuesLeft.antt` says what a reader of shared prefixes still gives.
#![tactic(auto)]

mod blocks;
mod codec;
mod header;
mod integer;
mod laws;
mod lengths;
mod prefixes;
mod put_lengths;
mod put_prefixes;
mod reading;
mod writing;

pub use codec::{Delta, DeltaLengths};
pub use integer::Integer;
pub use laws::{one_byte_list, one_list, one_prefixed_list, one_text, worked_examples};
pub use lengths::decode_lengths;
pub use prefixes::{Prefixed, decode_prefixes};
pub use put_lengths::encode_lengths;
pub use put_prefixes::encode_prefixes;
pub use reading::{decode, decode_i32, decode_i64};
pub use writing::{encode_i32, encode_i64};
