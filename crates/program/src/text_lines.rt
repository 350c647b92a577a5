//! The lines of a text, cut off one by one.

ghost use Rattle.std.specs.Prelude.{◌≡◌, ◌<◌, ◌∷◌, [], length, IfSome, IfNone};
ghost use Rattle.std.specs.Str.{IsUtf8};
ghost use Rattle.std.specs.Str.Lines.{lines, strip_carriage_return};

use memchr::memchr;

/// The first line of a text and the text after it, as `str::lines` has them: without its line feed, and without the
/// carriage return before that. None for an empty text.
#[inline(always)]
pub fn split_line(text: &str) -> Option<(&str, &str)>
    ensures line { IfSome result (λ r. lines text.now ≡ r.0.now ∷ lines r.1.now) }
    ensures texts { IfSome result (λ r. IsUtf8 r.0.now × IsUtf8 r.1.now) }
    ensures shorter { IfSome result (λ r. length r.1.now < length text.now) }
    ensures none { IfNone result (text.now ≡ []) }
{
    if text.is_empty() {
        return None;
    }
    match memchr(b'\n', text.as_bytes()) {
        None => Some((text, "")),
        Some(end) => Some((without_return(&text[..end]), &text[end + 1..])),
    }
}

/// A line without the one carriage return at its end, if it has one.
#[inline(always)]
fn without_return(line: &str) -> &str
    ensures { result.now ≡ strip_carriage_return line.now }
{
    match line.as_bytes().last() {
        Some(b'\r') => &line[..line.len() - 1],
        _ => line,
    }
}
