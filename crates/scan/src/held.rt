//! What was read of a group.

ghost use Rattle.std.specs.Prelude.{◌≡◌, IfOk};
ghost use Rattle.bits.specs.Refusals.{RefusedMemoryOnly};

use bits::R;
use metadata::ChunkMeta;
use schema::Schema;
use std::alloc::Global;

/// The schema of a table, the records of the chunks of one of its groups, and the bytes of those that were read, for
/// each leaf: for the filter, or after that.
#[derive(Drop)]
pub(crate) struct Held {
    pub schema: Schema,
    pub chunks: Vec<ChunkMeta>,
    pub first: Vec<Vec<u8>>,
    pub later: Vec<Vec<u8>>,
}

/// A copy of a schema.
pub(crate) fn copied_schema(alloc: Global, schema: &Schema) -> R<Schema>
    ensures same { IfOk result (λ copy. copy ≡ schema.now) }
    ensures which { RefusedMemoryOnly result }
{
    let count = schema.leaves().len();
    let mut numbers = Vec::with_capacity(alloc, count)?;
    for number in 0..count {
        numbers.push(number)?;
    }
    schema.cut(alloc, numbers.as_slice())
}
