//! Where bytes that are read in blocks are cut into lines.

ghost use Rattle.std.specs.Prelude.{◌≡◌, ◌≤◌, ◌<◌, length, take, drop, vec_len};
ghost use Rattle.commands.specs.inner.LineCuts.{IsLineLength, IsWholeLength};
ghost use Rattle.commands.specs.FileLines.{AreWholeLines};

/// How many bytes the first line of bytes has, with its line feed; all that there are, where none is a line feed.
pub(crate) fn line_length(bytes: &[u8]) -> usize
    ensures within { result ≤ length bytes.now }
    ensures is { IsLineLength bytes.now result }
{
    for (place, byte) in bytes.iter().enumerate() {
        if *byte == b'\n' {
            return place + 1;
        }
    }
    bytes.len()
}

/// The line that begins at a place of bytes, with its line feed; the rest, where none is a line feed.
pub(crate) fn line_at(bytes: &[u8], place: usize) -> &[u8]
    requires { place ≤ length bytes.now }
    ensures is { IsLineLength (drop place bytes.now) (length result.now) }
    ensures front { result.now ≡ take (length result.now) (drop place bytes.now) }
{
    let rest = bytes.split_at(place).1;
    rest.split_at(line_length(rest)).0
}

/// How many bytes the whole lines of bytes have, of which so many were looked at before and have no line feed; all that there are, where
/// no more come.
pub(crate) fn whole_length(bytes: &[u8], seen: usize, come_more: bool) -> usize
    ensures within { result ≤ length bytes.now }
    ensures is { IsWholeLength bytes.now come_more result }
{
    if come_more {
        after_last_feed(bytes, seen)
    } else {
        bytes.len()
    }
}

/// How many bytes there are up to the last line feed, and with it; 0 where none comes after the first so many bytes.
fn after_last_feed(bytes: &[u8], seen: usize) -> usize
    ensures within { result ≤ length bytes.now }
    ensures whole { AreWholeLines (take result bytes.now) }
{
    let mut end = bytes.len();
    while end > seen {
        if bytes[end - 1] == b'\n' {
            return end;
        }
        end -= 1;
    }
    0
}

/// Takes the first so many bytes away.
pub(crate) fn forget(bytes: &mut Vec<u8>, count: usize)
    requires { count ≤ vec_len bytes.old }
    ensures { bytes.new.items ≡ drop count bytes.old.items }
{
    if count > 0 {
        let left = bytes.len() - count;
        bytes.copy_within(count.., 0);
        bytes.truncate(left);
    }
}
