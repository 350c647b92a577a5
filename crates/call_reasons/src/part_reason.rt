//! Which refusals are of the bytes of a file.

use bits::Refusal;

/// Whether a refusal is one of the bytes of a file.
pub fn is_of_bytes(refusal: &Refusal) -> bool {
    matches!(
        refusal,
        Refusal::Truncated
            | Refusal::Magic
            | Refusal::Thrift
            | Refusal::Schema
            | Refusal::Codec
            | Refusal::Float(_)
            | Refusal::Int96(_)
            | Refusal::Encoding
            | Refusal::Page
            | Refusal::Levels
            | Refusal::Value
            | Refusal::Utf8
            | Refusal::Limit
    )
}
