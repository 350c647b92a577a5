//! Escapes of names and texts (RFC 3986, section 2.1).

ghost use Rattle.std.specs.Prelude.{◌≡◌, ◌++◌, OnOk, string_bytes};
ghost use Rattle.bits.specs.Refusals.{RefusedMemoryOnly};
ghost use Rattle.partition.specs.Folders.{escaped};

use bits::R;
use percent_encoding::{AsciiSet, NON_ALPHANUMERIC, ascii_set, percent_encode};

/// The ASCII bytes that are escaped: all but letters, digits, `_`, `.` and `-`.
pub const ESCAPED: AsciiSet = ascii_set!(NON_ALPHANUMERIC.remove(b'_').remove(b'.').remove(b'-'));

/// Writes the escaped form of a text at the end.
pub fn push_escaped(out: &mut String, text: &[u8]) -> R<()>
    ensures ok { OnOk result (string_bytes out.new ≡ string_bytes out.old ++ escaped text.now) }
    ensures which { RefusedMemoryOnly result }
{
    percent_encode(text, ESCAPED).append_to(out)?;
    Ok(())
}
