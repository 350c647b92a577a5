//! The bytes of a file before its footer.

ghost use Rattle.std.specs.Prelude.{◌≡◌, ℕ, List};
ghost use Rattle.metadata.specs.Records.{FileMeta};
ghost use Rattle.footer.specs.File.{IsFile};

use byteorder::{ByteOrder, LittleEndian};

/// The bytes before the footer, where there is one.
pub(crate) fn front_of(bytes: &[u8]) -> &[u8]
    ensures { (front : List ℕ) (meta : FileMeta) → IsFile bytes.now front meta → result.now ≡ front }
{
    if bytes.len() < 12 {
        return bytes;
    }
    let (head, tail) = bytes.split_at(bytes.len() - 8);
    let size = LittleEndian::read_u32(tail) as usize;
    if size > head.len() {
        return bytes;
    }
    head.split_at(head.len() - size).0
}
