//! From bytes to the record of the footer.

ghost use Rattle.std.specs.Prelude.{◌≡◌, ◌↔◌, ◌≤◌, ◌-◌, ℕ, List, length, take, drop, IfOk, OnOk, IfErr, IsTrue, true, false};
ghost use Rattle.bits.specs.Refusals.{OnFault};
ghost use Rattle.metadata.specs.Records.{FileMeta as FileMetaShown};
ghost use Rattle.metadata.specs.Views.{file_meta_view};
ghost use Rattle.footer.specs.File.{magic, IsFramed, IsFile};
ghost use Rattle.footer.specs.Faults.{LacksMagic, IsLong, HasFooterFault};

use crate::limits::{MAGIC, MOST_BYTES_OF_FILE, MOST_BYTES_OF_FOOTER};
use bits::{R, Refusal};
use byteorder::{ByteOrder, LittleEndian};
use metadata::{FileMeta, one_footer};
use std::alloc::Global;

/// The bytes before the footer, and the record in the footer.
pub fn parts_and_record(alloc: Global, bytes: &[u8]) -> R<(&[u8], FileMeta)>
    ensures stands { IfOk result (λ x. IsFile bytes.now x.0.now (file_meta_view x.1)) }
    ensures alone { IfOk result (λ x. (front : List ℕ) (other : FileMetaShown) → IsFile bytes.now front other
        → (front ≡ x.0.now) × (other ≡ file_meta_view x.1)) }
    ensures within_limits { OnOk result (IsLong bytes.now → ⊥) }
    ensures only { OnFault result ((front : List ℕ) (meta : FileMetaShown) → IsFile bytes.now front meta → ⊥) }
    ensures which { IfErr result (HasFooterFault bytes.now) }
{
    one_footer();
    let (front, footer) = parts_of(bytes)?;
    let (record, _) = FileMeta::read(alloc, footer)?;
    Ok((front, record))
}

/// The record in the footer of a file (`parquet.thrift`, FileMetaData). The chunks are not looked at.
///
/// Refused Truncated for fewer than 12 bytes, a footer that is longer than the file, or one that ends
/// within its struct; Magic where the first or the last four bytes are not `PAR1`; Thrift where the footer
/// is no such struct; Limit for a file of more than 2,147,483,647 bytes, or a footer of more than 16 MiB.
/// No record is returned of a file that has more bytes, or that announces a longer footer.
pub fn read_footer(alloc: Global, bytes: &[u8]) -> R<FileMeta>
    ensures stands { IfOk result (λ meta. (front : List ℕ) × IsFile bytes.now front (file_meta_view meta)) }
    ensures alone { IfOk result (λ meta. (front : List ℕ) (other : FileMetaShown) → IsFile bytes.now front other → other ≡ file_meta_view meta) }
    ensures within_limits { OnOk result (IsLong bytes.now → ⊥) }
    ensures only { OnFault result ((front : List ℕ) (meta : FileMetaShown) → IsFile bytes.now front meta → ⊥) }
    ensures which { IfErr result (HasFooterFault bytes.now) }
{
    let (_, record) = parts_and_record(alloc, bytes)?;
    Ok(record)
}

/// Whether the bytes are the format's magic.
fn is_magic(bytes: &[u8]) -> bool
    ensures { IsTrue result ↔ (bytes.now ≡ magic) }
{
    bytes == MAGIC
}

/// Whether the bytes begin and end with the format's magic.
fn has_magic(bytes: &[u8]) -> bool
    requires { 12 ≤ length bytes.now }
    ensures magic { result ≡ true → (take 4 bytes.now ≡ magic) × (drop (length bytes.now - 4) bytes.now ≡ magic) }
    ensures lacks { result ≡ false → LacksMagic bytes.now }
{
    is_magic(bytes.split_at(4).0) && is_magic(bytes.split_at(bytes.len() - 4).1)
}

/// The bytes before the footer, and the footer.
fn parts_of(bytes: &[u8]) -> R<(&[u8], &[u8])>
    ensures framed { IfOk result (λ x. IsFramed bytes.now x.0.now x.1.now) }
    ensures within_limits { OnOk result (IsLong bytes.now → ⊥) }
    ensures only { OnFault result ((front footer : List ℕ) → IsFramed bytes.now front footer → ⊥) }
    ensures which { IfErr result (HasFooterFault bytes.now) }
{
    if bytes.len() > MOST_BYTES_OF_FILE {
        return Err(Refusal::Limit);
    }
    if bytes.len() < 12 {
        return Err(Refusal::Truncated);
    }
    if !has_magic(bytes) {
        return Err(Refusal::Magic);
    }
    let (head, tail) = bytes.split_at(bytes.len() - 8);
    let size = LittleEndian::read_u32(tail) as usize;
    if size > MOST_BYTES_OF_FOOTER {
        return Err(Refusal::Limit);
    }
    if size > head.len() - 4 {
        return Err(Refusal::Truncated);
    }
    Ok(head.split_at(head.len() - size))
}
