//! Varints, packed bits, the one enum of refusals, and what every reader and writer promises.
//!
//! The vocabulary of all contracts is in `specs/Refusals.antt` (what a refusal says) and
//! `specs/Codec.antt` (what a reader and a writer promise); `specs/Varint.antt` and
//! `specs/Bits.antt` carry the contracts of the calls here.
#![tactic(auto)]

mod codec;
mod fault;
mod lanes;
mod laws;
mod packing;
mod refusal;
mod varint;

pub use codec::ValueCodec;
pub use fault::Fault;
pub use laws::{one_number, one_packing};
pub use packing::{pack, unpack, unpack_u32};
pub use refusal::{R, Refusal};
pub use varint::{read_uleb, unzigzag, write_uleb, zigzag};
