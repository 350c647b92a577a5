//! The end of a file that is written: the footer, its length, and the magic.

ghost use Rattle.std.specs.Prelude.{◌≡◌, ◌⊎◌, ◌+◌, ◌-◌, ◌<◌, ◌≤◌, ◌++◌, List, ℕ, length, IfOk, OnOk, Err};
ghost use Rattle.bits.specs.Codec.{Appends};
ghost use Rattle.bits.specs.Refusals.{RefusedOnly, RefusedMemoryOnly};
ghost use Rattle.byteorder.specs.Endian.{little_bytes};
ghost use Rattle.thrift_compact.specs.Compact.{IsThrift};
ghost use Rattle.thrift_compact.specs.Length.{size_struct, AppendsStruct};
ghost use Rattle.metadata.specs.Records.{FileMeta as FileMetaShown};
ghost use Rattle.metadata.specs.ToTree.{file_meta_fields};
ghost use Rattle.metadata.specs.Views.{file_meta_view};
ghost use Rattle.metadata.specs.Kept.{EachKeepsWritten};
ghost use Rattle.metadata.specs.Weight.{IsOfTheWriter, footer_weight};
ghost use Rattle.footer.specs.Greatest.{most_of_file, most_of_footer};
ghost use Rattle.footer.specs.Faults.{IsLong};
ghost use Rattle.footer.specs.File.{magic, IsFramed};
ghost use Rattle.footer.specs.Own.{EndsWith};

use crate::limits::{MAGIC, MOST_BYTES_OF_FILE, MOST_BYTES_OF_FOOTER};
use bits::{R, Refusal};
use byteorder::{ByteOrder, LittleEndian};
use metadata::{FileMeta, footer_again};
use std::alloc::Global;

/// The file of these bytes before its footer, `PAR1` and chunks, and of this record: the bytes, the footer, its length
/// in four bytes, and `PAR1` (parquet-format, README.md, "File format"). A file without chunks has [`MAGIC`] alone
/// before its footer.
///
/// The structs that the schema's elements keep have to be ones that can be written, as those of a
/// [`Schema`](schema::Schema) can. Refused Limit only where the footer is longer than 16 MiB, or the file than
/// 2^31 - 1 bytes; where the record is one of the store's own, that comes only where its weight says so, with the weight
/// of the keys that it keeps as pairs. The time is linear in the record.
pub fn with_footer(alloc: Global, front: Vec<u8>, meta: &FileMeta) -> R<Vec<u8>>
    requires { EachKeepsWritten (file_meta_view meta.now) }
    ensures stands { IfOk result (λ file. EndsWith front.items (file_meta_view meta.now) file.items) }
    ensures size { IfOk result (λ file. length file.items ≤ most_of_file) }
    ensures footer_size { IfOk result (λ file. (before footer : List ℕ) → IsFramed file.items before footer → length footer ≤ most_of_footer) }
    ensures within_limits { IfOk result (λ file. IsLong file.items → ⊥) }
    ensures too_long { let size = size_struct (file_meta_fields (file_meta_view meta.now)) in result ≡ Err Refusal.Limit
        → (most_of_footer < size) ⊎ (most_of_file < length front.items + 8 + size) }
    ensures limit { let seen = file_meta_view meta.now in result ≡ Err Refusal.Limit → (keys : List (List ℕ)) → IsOfTheWriter keys seen
        → (most_of_footer < footer_weight keys seen) ⊎ (most_of_file < length front.items + 8 + footer_weight keys seen) }
    ensures which { RefusedOnly (λ e. e ≡ Refusal.Limit) result }
{
    let start = front.len();
    let mut out = front;
    write_record(alloc, meta, &mut out)?;
    close_file(out, start)
}

/// The file of these bytes, of which those from `start` on are the record of its footer: the bytes, the footer's length
/// in four bytes, and `PAR1`. So a footer can be written that is no record in memory, as [`FileMeta::begin`] does it.
///
/// Refused Limit exactly when the footer is longer than 16 MiB, or the file than 2^31 - 1 bytes, out of memory aside.
/// Takes no time but for the twelve bytes.
pub fn close_file(out: Vec<u8>, start: usize) -> R<Vec<u8>>
    ensures stands { IfOk result (λ file. (front : List ℕ) (meta : FileMetaShown) → length front ≡ start → AppendsStruct (file_meta_fields meta) front out.items → EndsWith front meta file.items) }
    ensures size { IfOk result (λ file. length file.items ≤ most_of_file) }
    ensures footer_size { IfOk result (λ file. (before footer : List ℕ) → IsFramed file.items before footer → length footer ≤ most_of_footer) }
    ensures within_limits { IfOk result (λ file. IsLong file.items → ⊥) }
    ensures limit { result ≡ Err Refusal.Limit → (most_of_footer < length out.items - start) ⊎ (most_of_file < length out.items + 8) }
    ensures which { RefusedOnly (λ e. e ≡ Refusal.Limit) result }
{
    footer_again();
    let mut out = out;
    let size = out.len().saturating_sub(start);
    if size > MOST_BYTES_OF_FOOTER || out.len() > MOST_BYTES_OF_FILE - 8 {
        return Err(Refusal::Limit);
    }
    write_length(&mut out, size as u32)?;
    Ok(out)
}

/// Writes the record at the end of `out`. It fails only when out of memory.
fn write_record(alloc: Global, meta: &FileMeta, out: &mut Vec<u8>) -> R<()>
    requires { EachKeepsWritten (file_meta_view meta.now) }
    ensures stands { let fields = file_meta_fields (file_meta_view meta.now) in
        OnOk result (Appends (λ bytes used. IsThrift bytes fields used) (size_struct fields) out.old.items out.new.items) }
    ensures size { OnOk result (length out.new.items ≤ length out.old.items + size_struct (file_meta_fields (file_meta_view meta.now))) }
    ensures weight { let seen = file_meta_view meta.now in
        (keys : List (List ℕ)) → IsOfTheWriter keys seen → OnOk result (length out.new.items ≤ length out.old.items + footer_weight keys seen) }
    ensures which { RefusedMemoryOnly result }
{
    meta.write(alloc, out)
}

/// Writes the length of the footer and the magic at the end of `out`.
fn write_length(out: &mut Vec<u8>, size: u32) -> R<()>
    ensures stands { OnOk result (out.new.items ≡ out.old.items ++ little_bytes 4 size ++ magic) }
    ensures which { RefusedMemoryOnly result }
{
    let mut length = [0; 4];
    LittleEndian::write_u32(&mut length, size);
    out.extend_from_slice(&length)?;
    out.extend_from_slice(MAGIC)?;
    Ok(())
}
