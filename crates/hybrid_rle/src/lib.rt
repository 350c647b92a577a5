//! The hybrid of repeated values and packed values, in which levels, dictionary indexes and RLE
//! booleans stand (parquet-format, Encodings.md, "Run Length Encoding / Bit-Packing Hybrid").
//!
//! `specs/Hybrid.antt` carries the contracts: `IsHybrid`, which bytes stand for which numbers.
#![tactic(auto)]

mod codec;
mod laws;
mod number;
mod reading;
mod writing;

pub use codec::Hybrid;
pub use laws::{one_list, worked_examples};
pub use number::Number;
pub use reading::decode;
pub use writing::encode;
