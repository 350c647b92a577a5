//! The text of an object: its members in the order of their names, and its braces.

ghost use Rattle.std.specs.Prelude.{◌≡◌, ◌≤◌, ◌+◌, ◌++◌, ◌∷◌, [], ℕ, List, length, drop, IfSome, IfOk, OnOk, flat_map, take};
ghost use Rattle.std.specs.Bool.{OnTrue, OnFalse};
ghost use Rattle.rowtext.specs.inner.Levels.{between, piece, braced_at};

use crate::line::Line;
use std::alloc::AllocError;

/// The bytes of a text from an index on.
#[inline(always)]
pub fn rest(text: &[u8], from: usize) -> &[u8]
    ensures { result.now ≡ drop from text.now }
{
    text.get(from..).unwrap_or(&[])
}

/// Bytes from one index of a text up to another.
#[inline(always)]
fn between(text: &[u8], from: usize, to: usize) -> &[u8]
    ensures { result.now ≡ between text.now from to }
{
    if from <= to && to <= text.len() {
        return &text[from..to];
    }
    let rest = rest(text, from);
    rest.get(..to.saturating_sub(from)).unwrap_or(rest)
}

/// The member of an object at an index, by where its members begin.
#[inline(always)]
fn piece<'t>(text: &'t [u8], starts: &[usize], index: usize) -> &'t [u8]
    ensures { result.now ≡ piece text.now starts.now index }
{
    let rest = starts.get(index..).unwrap_or(&[]);
    match rest.split_first() {
        None => &[],
        Some((start, later)) => match later.first() {
            None => between(text, *start, text.len()),
            Some(end) => between(text, *start, *end),
        },
    }
}

/// Appends the members of an object in this order.
#[inline(always)]
fn put_pieces(
    text: &[u8],
    starts: &[usize],
    order: &[usize],
    out: &mut Line,
) -> Result<(), AllocError>
    ensures { OnOk result (out.new.items ≡ out.old.items ++ flat_map (piece text.now starts.now) order.now) }
{
    for index in order {
        out.extend_from_slice(piece(text, starts, *index))?;
    }
    Ok(())
}

/// Where the member at an index begins and ends, by where the members begin in a text of `len` bytes; none where it does
/// not stand in the text.
#[inline(always)]
fn span_of(starts: &[usize], index: usize, len: usize) -> Option<(usize, usize)>
    ensures within { IfSome result (λ span. (span.0 ≤ span.1) × (span.1 ≤ len)) }
    ensures piece { (text : List ℕ) → len ≡ length text → IfSome result (λ span. piece text starts.now index ≡ between text span.0 span.1) }
{
    let rest = starts.get(index..)?;
    let (start, later) = rest.split_first()?;
    let end = match later.first() {
        None => len,
        Some(end) => *end,
    };
    if *start <= end && end <= len {
        Some((*start, end))
    } else {
        None
    }
}

/// Appends the members of an object in this order to the text that they stand in, and returns whether they stand in it:
/// where it returns false, some of them were appended.
#[inline(always)]
fn append_pieces(order: &[usize], starts: &[usize], text: &mut Line) -> Result<bool, AllocError>
    ensures pieces { IfOk result (λ all. OnTrue all (text.new.items ≡ text.old.items ++ flat_map (piece text.old.items starts.now) order.now)) }
    ensures before { OnOk result (take (length text.old.items) text.new.items ≡ text.old.items) }
{
    let len = text.len();
    for index in order {
        let Some((start, end)) = span_of(starts, *index, len) else {
            return Ok(false);
        };
        text.extend_within(start, end)?;
    }
    Ok(true)
}

/// Puts the members of an object in this order, as [`sort`] does.
// For the proof: of the object's own text and places, the fast form never gives way to this one.
#[cold]
#[inline(never)]
fn sort_slowly(
    order: &[usize],
    from: usize,
    starts: &[usize],
    text: &mut Line,
    spare: &mut Line,
) -> Result<(), AllocError>
    ensures { OnOk result (text.new.items ≡ take from text.old.items ++ flat_map (piece text.old.items starts.now) order.now) }
{
    spare.clear();
    put_pieces(text.as_slice(), starts, order, spare)?;
    text.truncate(from);
    text.extend_from_slice(spare.as_slice())
}

/// Puts the two members of an object in the other order, where these are all of them, and returns whether they are: the
/// first is appended once more, and then removed from where it stood. Else it does nothing.
#[inline(always)]
fn swap(order: &[usize], from: usize, starts: &[usize], text: &mut Line) -> Result<bool, AllocError>
    ensures swapped { IfOk result (λ all. OnTrue all (text.new.items ≡ take from text.old.items ++ flat_map (piece text.old.items starts.now) order.now)) }
    ensures same { IfOk result (λ all. OnFalse all (text.new.items ≡ text.old.items)) }
{
    let ([1, 0], [start, middle]) = (order, starts) else {
        return Ok(false);
    };
    if *start != from || *start > *middle || *middle > text.len() {
        return Ok(false);
    }
    text.extend_within(*start, *middle)?;
    text.cut_out(*start, *middle);
    Ok(true)
}

/// Puts the members of an object in this order. The text of the object begins at `from`; of `starts`, those from `first`
/// on are where its members begin; `spare` is room.
#[inline(always)]
pub fn sort(
    order: &[usize],
    from: usize,
    first: usize,
    starts: &[usize],
    text: &mut Line,
    spare: &mut Line,
) -> Result<(), AllocError>
    ensures { OnOk result (text.new.items ≡ take from text.old.items ++ flat_map (piece text.old.items (drop first starts.now)) order.now) }
{
    let starts = starts.get(first..).unwrap_or(&[]);
    if swap(order, from, starts, text)? {
        return Ok(());
    }
    sort_all(order, from, starts, text, spare)
}

/// Puts the members of an object, which begin at `starts`, in this order: they are appended in it, and then moved to where
/// the text of the object begins.
#[inline(never)]
fn sort_all(
    order: &[usize],
    from: usize,
    starts: &[usize],
    text: &mut Line,
    spare: &mut Line,
) -> Result<(), AllocError>
    ensures { OnOk result (text.new.items ≡ take from text.old.items ++ flat_map (piece text.old.items starts.now) order.now) }
{
    let len = text.len();
    if from > len {
        return sort_slowly(order, from, starts, text, spare);
    }
    if !append_pieces(order, starts, text)? {
        text.truncate(len);
        return sort_slowly(order, from, starts, text, spare);
    }
    text.cut_out(from, len);
    Ok(())
}

/// Puts a brace where a text begins, in place of the comma before its first member.
#[inline(always)]
fn put_brace(from: usize, text: &mut Line)
    requires { 1 ≤ text.old.ready }
    ensures items { text.new.items ≡ braced_at from text.old.items }
    ensures ready { text.old.ready ≤ text.new.ready + 1 }
{
    if from < text.len() {
        text.set(from, b'{');
    } else {
        text.place_byte(b'{');
    }
}

/// Puts the braces of an object whose text begins at `from`.
#[inline(always)]
pub fn put_braces(from: usize, text: &mut Line) -> Result<(), AllocError>
    ensures { OnOk result (text.new.items ≡ braced_at from text.old.items ++ 125 ∷ []) }
{
    text.reserve(2)?;
    put_brace(from, text);
    text.place_byte(b'}');
    Ok(())
}

/// Puts the braces of an object whose text begins at `from`, and a line feed after it.
#[inline(always)]
pub fn put_line_end(from: usize, text: &mut Line) -> Result<(), AllocError>
    ensures { OnOk result (text.new.items ≡ (braced_at from text.old.items ++ 125 ∷ []) ++ 10 ∷ []) }
{
    text.reserve(3)?;
    put_brace(from, text);
    text.place_byte(b'}');
    text.place_byte(b'\n');
    Ok(())
}
