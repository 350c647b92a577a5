//! Values of fields from a line.

ghost use Rattle.std.specs.Prelude.{◌≡◌, ◌<◌, Some, true, false, length, slice_index_or, IfOk, OnOk, IsTrue, MatchBool};
ghost use Rattle.json.specs.Lex.{operator, class};
ghost use Rattle.schema.specs.Law.{AllDiffer, names as names_in, IsValid, AreValid};
ghost use Rattle.schema.specs.Shape.{name_of};
ghost use Rattle.schema.specs.Views.{field_view, field_views};
ghost use Rattle.rowtext.specs.Reading.{inside_read_as, field_read_as};
ghost use Rattle.rowtext.specs.inner.Lines.{rest_of, IsKeyAt, IsMore, IsClosed};
ghost use Rattle.rowtext.specs.inner.Pieces.{IsTaken, AreItemsTaken, AreMembersTaken};
ghost use Rattle.rowtext.specs.inner.Spans.{IsNameBefore, IsNameAt, IsMemberTaken};
ghost use Rattle.rowtext.specs.inner.Slots.{slot_of, slots_made, slot_view, slots_view};

use crate::cursor::Cursor;
use crate::integers::split_first;
use crate::leaf_lines::leaf_at;
use crate::names::{Names, index_of};
use crate::piece_list::Pieces;
use crate::pieces::Piece;
use crate::quoted_strings::string_in;
use crate::row_plan::Slot;
use crate::spans::{Span, Spans, arrange};
use crate::unread::Unread;
use json::Scratch;
use schema::{Field, Repetition};
use std::alloc::Global;

/// Whether a first member or item stands there, and not the bracket that ends the object or array.
#[inline(always)]
#[tactic(auto, using(crate::proofs::Lexing::first_more))]
fn is_some(closing: u8, line: &mut Cursor<'_>) -> bool
    requires { class closing ≡ operator }
    ensures more { IsTrue result → IsMore true line.old line.new }
    ensures closed { result ≡ false → IsClosed closing line.old line.new }
{
    !line.skip_mark(closing)
}

/// Whether a further member or item stands there, by the comma before it; if not, the bracket ends the object or array.
#[inline(always)]
#[tactic(auto, using(crate::proofs::Lexing::comma_more, crate::proofs::Lexing::closed_later))]
fn is_further(closing: u8, line: &mut Cursor<'_>) -> Result<bool, Unread>
    requires { class closing ≡ operator }
    ensures { IfOk result (λ more. MatchBool more (IsMore false line.old line.new) (IsClosed closing line.old line.new)) }
{
    if line.skip_mark(b',') {
        return Ok(true);
    }
    if line.skip_mark(closing) {
        Ok(false)
    } else {
        Err(Unread::Unknown)
    }
}

/// Whether another member or item stands there; if not, the bracket ends the object or array.
#[inline(always)]
fn is_more(closing: u8, is_first: bool, line: &mut Cursor<'_>) -> Result<bool, Unread>
    requires { class closing ≡ operator }
    ensures { IfOk result (λ more. MatchBool more (IsMore is_first line.old line.new) (IsClosed closing line.old line.new)) }
{
    if is_first {
        let more = is_some(closing, line);
        return Ok(more);
    }
    is_further(closing, line)
}

/// Passes over the name of a field, in quotes and with a colon at once after it, where it stands there.
#[inline(always)]
fn skip_key(field: &Field, slot: &Slot, line: &mut Cursor<'_>) -> bool
    requires { slot_view slot.now ≡ slot_of (field_view field.now) }
    ensures taken { IsTrue result → IsKeyAt (name_of (field_view field.now)) line.old line.new }
    ensures unchanged { result ≡ false → rest_of line.new ≡ rest_of line.old }
{
    let Some((_comma, name)) = split_first(slot.key()) else {
        return false;
    };
    line.skip_text(name)
}

/// Passes over the name of the field of this index, as `skip_key` does, if there is such a field.
#[inline(always)]
fn skip_name(fields: &[Field], slots: &[Slot], index: usize, line: &mut Cursor<'_>) -> bool
    requires { slots_view slots.now ≡ slots_made (field_views fields.now) }
    ensures taken { IsTrue result → IsNameAt (field_views fields.now) index line.old line.new }
    ensures unchanged { result ≡ false → rest_of line.new ≡ rest_of line.old }
{
    let Ok(field) = field_there(fields, index) else {
        return false;
    };
    let Ok(slot) = slot_there(slots, index) else {
        return false;
    };
    skip_key(field, slot, line)
}

/// The index of the field whose name stands there, with escapes in any form.
#[cold]
#[inline(never)]
#[tactic(auto, using(crate::proofs::Lexing::quoted_name))]
fn index_quoted(
    fields: &[Field],
    names: &Names,
    scratch: &mut Scratch,
    line: &mut Cursor<'_>,
) -> Result<usize, Unread>
    ensures { IfOk result (λ index. IsNameBefore (field_views fields.now) index line.old line.new) }
{
    let Some(quoted) = line.quoted() else {
        return Err(Unread::Unknown);
    };
    let Some(name) = string_in(quoted, scratch)? else {
        return Err(Unread::Unknown);
    };
    let index = index_of(fields, names, name)?;
    Ok(index)
}

/// The index of the field whose name stands there, before its colon.
#[inline(always)]
#[tactic(auto, using(crate::proofs::Lexing::plain_name))]
fn index_named(
    fields: &[Field],
    names: &Names,
    scratch: &mut Scratch,
    line: &mut Cursor<'_>,
) -> Result<usize, Unread>
    ensures { IfOk result (λ index. IsNameBefore (field_views fields.now) index line.old line.new) }
{
    let start = *line;
    if let Some(name) = line.string() {
        let index = index_of(fields, names, name)?;
        return Ok(index);
    }
    *line = start;
    index_quoted(fields, names, scratch, line)
}

/// The index of the field whose name stands there, by a look-up.
#[inline(never)]
fn index_by_name(
    fields: &[Field],
    names: &Names,
    scratch: &mut Scratch,
    line: &mut Cursor<'_>,
) -> Result<usize, Unread>
    ensures { IfOk result (λ index. IsNameAt (field_views fields.now) index line.old line.new) }
{
    let index = index_named(fields, names, scratch, line)?;
    line.skip_blanks();
    if line.skip_mark(b':') {
        Ok(index)
    } else {
        Err(Unread::Unknown)
    }
}

/// The index of the field whose name stands there. It is expected at `place` among the members, as in the objects read before, or at
/// the place after it, where a member is missing; else it is looked up, and expected at this place from now on. `place` becomes
/// that of the next member.
#[inline(always)]
#[tactic(auto, using(crate::proofs::Lexing::name_from))]
fn index_at(
    fields: &[Field],
    slots: &[Slot],
    names: &Names,
    place: &mut usize,
    scratch: &mut Scratch,
    line: &mut Cursor<'_>,
) -> Result<usize, Unread>
    requires { slots_view slots.now ≡ slots_made (field_views fields.now) }
    ensures { IfOk result (λ index. IsNameAt (field_views fields.now) index line.old line.new) }
{
    let here = *place;
    let expected = names.expected(here);
    *place = here.saturating_add(1);
    if skip_name(fields, slots, expected, line) {
        return Ok(expected);
    }
    let after = names.expected(*place);
    if skip_name(fields, slots, after, line) {
        *place = here.saturating_add(2);
        return Ok(after);
    }
    let index = index_by_name(fields, names, scratch, line)?;
    names.expect(here, index);
    Ok(index)
}

/// What stands at the field of an index.
#[inline(always)]
pub fn slot_there(slots: &[Slot], index: usize) -> Result<&Slot, Unread>
    ensures { IfOk result (λ slot. (index < length slots.now) × (slot.now ≡ slice_index_or slots.now index slot.now)) }
{
    if index < slots.len() {
        Ok(&slots[index])
    } else {
        Err(Unread::Unknown)
    }
}

/// The field of an index.
#[inline(always)]
pub fn field_there(fields: &[Field], index: usize) -> Result<&Field, Unread>
    ensures { IfOk result (λ field. (index < length fields.now) × (field.now ≡ slice_index_or fields.now index field.now)) }
{
    if index < fields.len() {
        Ok(&fields[index])
    } else {
        Err(Unread::Unknown)
    }
}

/// Reads a value of a field, its repetition aside.
#[cycle(lines)]
fn inside_at<'t>(
    alloc: Global,
    field: &Field,
    slot: &Slot,
    names: &Names,
    deep: usize,
    texts: bool,
    scratch: &mut Scratch,
    line: &mut Cursor<'t>,
    pieces: &mut Pieces<'t>,
) -> Result<(), Unread>
    requires slot { slot_view slot.now ≡ slot_of (field_view field.now) }
    requires valid { IsValid (field_view field.now) }
    ensures { OnOk result (IsTaken (inside_read_as texts (field_view field.now)) deep line.old line.new pieces.old.items pieces.new.items) }
{
    match field {
        Field::Leaf { leaf_type, .. } => leaf_at(leaf_type, texts, scratch, line, pieces),
        Field::Group { fields, .. } => match slot {
            Slot::Group { slots, .. } if deep > 0 => {
                if !line.skip_mark(b'{') {
                    return Err(Unread::Unknown);
                }
                let slots = slots.as_slice();
                let fields = fields.as_slice();
                pieces.push(Piece::GroupBegins)?;
                members_at(
                    alloc,
                    fields,
                    slots,
                    names,
                    deep - 1,
                    texts,
                    scratch,
                    line,
                    pieces,
                )?;
                pieces.push(Piece::GroupEnds)?;
                Ok(())
            }
            _ => Err(Unread::Unknown),
        },
    }
}

/// Reads the items of an array, after its bracket.
#[cycle(lines)]
fn items_at<'t>(
    alloc: Global,
    field: &Field,
    slot: &Slot,
    names: &Names,
    deep: usize,
    texts: bool,
    scratch: &mut Scratch,
    line: &mut Cursor<'t>,
    pieces: &mut Pieces<'t>,
) -> Result<(), Unread>
    requires slot { slot_view slot.now ≡ slot_of (field_view field.now) }
    requires valid { IsValid (field_view field.now) }
    ensures { OnOk result (AreItemsTaken (inside_read_as texts (field_view field.now)) deep line.old line.new pieces.old.items pieces.new.items) }
{
    let mut is_first = true;
    'items: for _ in 0..u64::MAX {
        let more = is_more(b']', is_first, line)?;
        if !more {
            return Ok(());
        }
        inside_at(
            alloc, field, slot, names, deep, texts, scratch, line, pieces,
        )?;
        is_first = false;
    }
    Err(Unread::Unknown)
}

/// Reads a value of a field.
#[inline(always)]
#[cycle(lines)]
fn field_at<'t>(
    alloc: Global,
    field: &Field,
    slot: &Slot,
    names: &Names,
    deep: usize,
    texts: bool,
    scratch: &mut Scratch,
    line: &mut Cursor<'t>,
    pieces: &mut Pieces<'t>,
) -> Result<(), Unread>
    requires slot { slot_view slot.now ≡ slot_of (field_view field.now) }
    requires valid { IsValid (field_view field.now) }
    ensures { OnOk result (IsTaken (λ d. field_read_as texts (field_view field.now) (Some d)) deep line.old line.new pieces.old.items pieces.new.items) }
{
    match field.repetition() {
        Repetition::Required => inside_at(
            alloc, field, slot, names, deep, texts, scratch, line, pieces,
        ),
        Repetition::Optional => {
            if line.skip(b"null") {
                if !line.end_value() {
                    return Err(Unread::Unknown);
                }
                pieces.push(Piece::Null)?;
                return Ok(());
            }
            inside_at(
                alloc, field, slot, names, deep, texts, scratch, line, pieces,
            )
        }
        Repetition::Repeated => {
            if deep == 0 || !line.skip_mark(b'[') {
                return Err(Unread::Unknown);
            }
            pieces.push(Piece::ListBegins)?;
            items_at(
                alloc,
                field,
                slot,
                names,
                deep - 1,
                texts,
                scratch,
                line,
                pieces,
            )?;
            pieces.push(Piece::ListEnds)?;
            Ok(())
        }
    }
}

/// Reads a member.
#[inline(always)]
#[cycle(lines)]
fn member_at<'t>(
    alloc: Global,
    fields: &[Field],
    slots: &[Slot],
    names: &Names,
    place: &mut usize,
    deep: usize,
    texts: bool,
    scratch: &mut Scratch,
    line: &mut Cursor<'t>,
    pieces: &mut Pieces<'t>,
    spans: &mut Spans,
) -> Result<(), Unread>
    requires slots { slots_view slots.now ≡ slots_made (field_views fields.now) }
    requires valid { AreValid (field_views fields.now) }
    ensures { OnOk result (IsMemberTaken texts (field_views fields.now) deep line.old line.new pieces.old.items pieces.new.items spans.old.items spans.new.items) }
{
    let index = index_at(fields, slots, names, place, scratch, line)?;
    let field = field_there(fields, index)?;
    let slot = slot_there(slots, index)?;
    let below = names.below(index).ok_or(Unread::Unknown)?;
    let from = pieces.len();
    field_at(
        alloc, field, slot, below, deep, texts, scratch, line, pieces,
    )?;
    let to = pieces.len();
    spans.note(index, Span { from, to })
}

/// Reads the values of fields by the members of an object, after its brace.
#[cycle(lines)]
pub fn members_at<'t>(
    alloc: Global,
    fields: &[Field],
    slots: &[Slot],
    names: &Names,
    deep: usize,
    texts: bool,
    scratch: &mut Scratch,
    line: &mut Cursor<'t>,
    pieces: &mut Pieces<'t>,
) -> Result<(), Unread>
    requires slots { slots_view slots.now ≡ slots_made (field_views fields.now) }
    requires differ { AllDiffer (names_in (field_views fields.now)) }
    requires valid { AreValid (field_views fields.now) }
    ensures { OnOk result (AreMembersTaken texts (field_views fields.now) deep line.old line.new pieces.old.items pieces.new.items) }
{
    let from = pieces.len();
    let mut spans = Spans::new(alloc, fields.len())?;
    let mut place = 0;
    'members: for turn in 0..usize::MAX {
        let more = is_more(b'}', turn == 0, line)?;
        if !more {
            return arrange(alloc, fields, spans.as_slice(), from, pieces);
        }
        member_at(
            alloc, fields, slots, names, &mut place, deep, texts, scratch, line, pieces, &mut spans,
        )?;
    }
    Err(Unread::Unknown)
}
