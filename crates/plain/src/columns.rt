//! Rows of bytes, written column by column.

ghost use Rattle.std.specs.Prelude.{◌≡◌, ℕ, ◌+◌, ◌*◌, ◌<◌, ◌≤◌, length, slice_index, OnOk, OnErr};
ghost use Rattle.bits.specs.Refusals.{RefusedMemoryOnly};
ghost use Rattle.plain.specs.inner.ByColumns.{AppendsColumns};

use bits::{R, Refusal};

/// Writes the bytes of `rows` rows of `columns` bytes each at the end of `out`, column by column. It fails only when
/// out of memory, and leaves `out` unchanged then. Asks for room once.
pub(crate) fn put_columns(rows: usize, columns: usize, bytes: &[u8], out: &mut Vec<u8>) -> R<()>
    requires { columns * rows ≤ length bytes.now }
    ensures stands { OnOk result (AppendsColumns rows columns bytes.now out.old.items out.new.items) }
    ensures which { RefusedMemoryOnly result }
    ensures unchanged { OnErr result (out.new.items ≡ out.old.items) }
{
    let kept = out.len();
    let size = columns * rows;
    if size >= usize::MAX - kept {
        // No buffer is so long.
        return Err(Refusal::Memory);
    }
    out.resize(kept + size, 0)?;
    place_columns(rows, columns, bytes, kept, out.as_mut_slice());
    Ok(())
}

/// Writes the columns from the index `start` on.
fn place_columns(rows: usize, columns: usize, bytes: &[u8], start: usize, room: &mut [u8])
    requires there { columns * rows ≤ length bytes.now }
    requires fits { start + columns * rows ≤ length room.old }
    ensures len { length room.new ≡ length room.old }
    ensures before { (p : ℕ) → p < start → slice_index room.new p ≡ slice_index room.old p }
    ensures each { (r c : ℕ) → r < rows → c < columns → slice_index room.new (start + (c * rows + r)) ≡ slice_index bytes.now (r * columns + c) }
{
    for column in 0..columns {
        place_column(rows, columns, column, bytes, start + column * rows, room);
    }
}

/// Writes a column from the index `at` on.
#[inline(always)]
fn place_column(
    rows: usize,
    columns: usize,
    column: usize,
    bytes: &[u8],
    at: usize,
    room: &mut [u8],
)
    requires there { columns * rows ≤ length bytes.now }
    requires one { column < columns }
    requires fits { at + rows ≤ length room.old }
    ensures len { length room.new ≡ length room.old }
    ensures before { (p : ℕ) → p < at → slice_index room.new p ≡ slice_index room.old p }
    ensures each { (r : ℕ) → r < rows → slice_index room.new (at + r) ≡ slice_index bytes.now (r * columns + column) }
{
    for row in 0..rows {
        room[at + row] = bytes[row * columns + column];
    }
}
