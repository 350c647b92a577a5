//! Bytes after their length.

ghost use Rattle.std.specs.Prelude.{◌≡◌, ◌≤◌, ◌++◌, length, OnOk};
ghost use Rattle.byteorder.specs.Endian.{little_bytes};
ghost use Rattle.bits.specs.Refusals.{RefusedMemoryOnly};
ghost use Rattle.pages.specs.Greatest.{most_of_page};
ghost use Rattle.pages.specs.Headers.{section};
ghost use Rattle.pages.specs.inner.Put.{Extends, before};

use crate::page_version::PageVersion;
use bits::R;
use byteorder::{ByteOrder, LittleEndian};

/// Writes a section of levels whose greatest is this at the end: in version 1 its length comes before
/// it, where there is one. It fails only when out of memory; some bytes may stand there then.
pub(crate) fn put_section(
    version: PageVersion,
    greatest: u32,
    bytes: &[u8],
    out: &mut Vec<u8>,
) -> R<()>
    requires { length bytes.now ≤ most_of_page }
    ensures stands { OnOk result (out.new.items ≡ out.old.items ++ section version greatest bytes.now) }
    ensures which { RefusedMemoryOnly result }
    ensures front { Extends out.old.items out.new.items }
{
    if version == PageVersion::V1 && greatest > 0 {
        put_length(bytes.len(), out)?;
    }
    out.extend_from_slice(bytes)?;
    Ok(())
}

/// How many bytes come before a section of levels whose greatest is this: four in version 1, where
/// there is a section.
pub(crate) fn size_before(version: PageVersion, greatest: u32) -> usize
    ensures { result ≡ before version greatest }
{
    if version == PageVersion::V1 && greatest > 0 {
        4
    } else {
        0
    }
}

/// Writes the number in four bytes, the lowest first.
pub(crate) fn put_length(length: usize, out: &mut Vec<u8>) -> R<()>
    requires { length ≤ most_of_page }
    ensures stands { OnOk result (out.new.items ≡ out.old.items ++ little_bytes 4 length) }
    ensures which { RefusedMemoryOnly result }
    ensures front { Extends out.old.items out.new.items }
{
    let mut field = [0; 4];
    LittleEndian::write_u32(&mut field, length as u32);
    out.extend_from_slice(&field)?;
    Ok(())
}
