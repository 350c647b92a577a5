//! Where the pieces of the members of an object lie, which stand in another order than their fields.

ghost use Rattle.std.specs.Prelude.{◌≡◌, ◌≤◌, true, None, flat_map, length, replicate, IfOk, OnOk, IsTrue};
ghost use Rattle.std.specs.List.{AllByRecursion};
ghost use Rattle.schema.specs.Shape.{repetition_of};
ghost use Rattle.schema.specs.Views.{field_view, field_views};
ghost use Rattle.rowtext.specs.inner.Pieces.{Grows};
ghost use Rattle.rowtext.specs.inner.Spans.{span_tokens, IsSpan, absent_tokens, part_tokens, parts_tokens, may_lack, is_there, are_there, AreJoined, IsNoted, AreArranged};

use crate::piece_list::Pieces;
use crate::pieces::Piece;
use crate::unread::Unread;
use schema::{Field, Repetition};
use std::alloc::{AllocError, Global};
use std::marker::Model;

/// The pieces from an index up to another.
#[derive(Debug, Clone, Copy)]
pub struct Span {
    pub from: usize,
    pub to: usize,
}

/// How many members of an object take no allocation.
const FEW: usize = 8;

/// No spans.
const NONE: [Option<Span>; FEW] = [None; FEW];

/// Where the pieces of each member are, where it was read: in `few`, where there are `count` of no more, or in `many`.
#[derive(Drop)]
pub struct Spans {
    few: [Option<Span>; FEW],
    count: usize,
    many: Vec<Option<Span>>,
}

impl Model for Spans {
    ghost use Rattle.std.specs.Prelude.{◌≡◌, length};
    ghost use Rattle.rowtext.specs.inner.PieceLists.{held};
    ghost use Rattle.rowtext.specs.inner.SpanLists.{SpanList};

    ghost Value = { SpanList };

    ghost view = { λ s. record { items = held s.count s.few s.many.items } };

    ghost invariant = { λ s. length s.few ≡ 8 };
}

impl Spans {
    /// Room for the spans of this many members, none of which was read.
    #[inline(always)]
    pub fn new(alloc: Global, count: usize) -> Result<Spans, AllocError>
        ensures { IfOk result (λ spans. spans.items ≡ replicate count None) }
    {
        if count > FEW {
            let many = no_spans(alloc, count)?;
            return Ok(Spans {
                few: NONE,
                count,
                many,
            });
        }
        Ok(Spans {
            few: NONE,
            count,
            many: Vec::new(alloc),
        })
    }

    /// The spans.
    #[inline(always)]
    pub fn as_slice(&self) -> &[Option<Span>]
        ensures { result.now ≡ self.now.items }
    {
        if self.count <= FEW {
            &self.few[..self.count]
        } else {
            self.many.as_slice()
        }
    }

    /// Notes where the pieces of a member are. Unknown where it was read before.
    #[inline(always)]
    pub fn note(&mut self, index: usize, span: Span) -> Result<(), Unread>
        ensures { OnOk result (IsNoted self.old.items index span self.new.items) }
    {
        let count = self.count;
        if count > FEW {
            return note_span(&mut self.many, index, span);
        }
        if index >= count {
            return Err(Unread::Unknown);
        }
        let known = self.few[index];
        if known.is_some() {
            return Err(Unread::Unknown);
        }
        self.few[index] = Some(span);
        Ok(())
    }
}

/// The spans of this many members, none of which was read.
fn no_spans(alloc: Global, count: usize) -> Result<Vec<Option<Span>>, AllocError>
    ensures { IfOk result (λ spans. spans.items ≡ replicate count None) }
{
    let mut spans = Vec::with_capacity(alloc, count)?;
    for _ in 0..count {
        spans.push(None)?;
    }
    Ok(spans)
}

/// Notes a span in a vector. Unknown where there is one.
fn note_span(spans: &mut Vec<Option<Span>>, index: usize, span: Span) -> Result<(), Unread>
    ensures { OnOk result (IsNoted spans.old.items index span spans.new.items) }
{
    match spans.get(index) {
        Some(None) => {
            spans[index] = Some(span);
            Ok(())
        }
        _ => Err(Unread::Unknown),
    }
}

/// Adds the pieces of a member. Unknown where it was not read.
fn put_span<'t>(
    read: &[Piece<'t>],
    span: Option<Span>,
    pieces: &mut Pieces<'t>,
) -> Result<(), Unread>
    ensures there { OnOk result (IsSpan span) }
    ensures grows { OnOk result (Grows pieces.old.items pieces.new.items (span_tokens read.now span)) }
{
    let Some(span) = span else {
        return Err(Unread::Unknown);
    };
    let Some(part) = read.get(span.from..span.to) else {
        return Err(Unread::Unknown);
    };
    pieces.extend_from_slice(part)?;
    Ok(())
}

/// Adds the pieces of members, in the order of their fields. Unknown where one was not read.
pub fn put_spans<'t>(
    read: &[Piece<'t>],
    spans: &[Option<Span>],
    pieces: &mut Pieces<'t>,
) -> Result<(), Unread>
    ensures { OnOk result (AllByRecursion IsSpan spans.now × Grows pieces.old.items pieces.new.items (flat_map (span_tokens read.now) spans.now)) }
{
    for span in spans {
        put_span(read, *span, pieces)?;
    }
    Ok(())
}

/// Adds the pieces of an absent member. Unknown where it may not be absent.
#[cold]
fn put_absent(field: &Field, pieces: &mut Pieces<'_>) -> Result<(), Unread>
    ensures there { OnOk result (may_lack (repetition_of (field_view field.now)) ≡ true) }
    ensures grows { OnOk result (Grows pieces.old.items pieces.new.items (absent_tokens (repetition_of (field_view field.now)))) }
{
    match field.repetition() {
        Repetition::Required => Err(Unread::Unknown),
        Repetition::Optional => {
            pieces.push(Piece::Null)?;
            Ok(())
        }
        Repetition::Repeated => {
            pieces.push(Piece::ListBegins)?;
            pieces.push(Piece::ListEnds)?;
            Ok(())
        }
    }
}

/// Adds the pieces of a member, which are among those read, or of an absent one.
fn put_part<'t>(
    field: &Field,
    read: &[Piece<'t>],
    span: Option<Span>,
    pieces: &mut Pieces<'t>,
) -> Result<(), Unread>
    ensures there { OnOk result (is_there (field_view field.now) span ≡ true) }
    ensures grows { OnOk result (Grows pieces.old.items pieces.new.items (part_tokens (field_view field.now) read.now span)) }
{
    let Some(span) = span else {
        return put_absent(field, pieces);
    };
    let Some(part) = read.get(span.from..span.to) else {
        return Err(Unread::Unknown);
    };
    pieces.extend_from_slice(part)?;
    Ok(())
}

/// Adds the pieces of members, in the order of their fields. Unknown where one is absent that may not be.
fn put_parts<'t>(
    fields: &[Field],
    read: &[Piece<'t>],
    spans: &[Option<Span>],
    pieces: &mut Pieces<'t>,
) -> Result<(), Unread>
    ensures there { OnOk result (are_there (field_views fields.now) spans.now ≡ true) }
    ensures grows { OnOk result (Grows pieces.old.items pieces.new.items (parts_tokens (field_views fields.now) read.now spans.now)) }
{
    if fields.len() != spans.len() {
        return Err(Unread::Unknown);
    }
    for (i, field) in fields.iter().enumerate() {
        put_part(field, read, spans[i], pieces)?;
    }
    Ok(())
}

/// Whether all members were read, one after another in the order of the fields, from an index up to another.
#[inline(always)]
fn are_joined(spans: &[Option<Span>], from: usize, to: usize) -> bool
    ensures { IsTrue result → AreJoined from spans.now to }
{
    let mut at = from;
    for span in spans {
        match span {
            Some(span) if span.from == at => at = span.to,
            _ => return false,
        }
    }
    at == to
}

/// Puts the pieces from an index on, which are those of members, in the order of the fields. Unknown where a member is
/// absent that may not be.
#[inline(always)]
pub fn arrange(
    alloc: Global,
    fields: &[Field],
    spans: &[Option<Span>],
    from: usize,
    pieces: &mut Pieces<'_>,
) -> Result<(), Unread>
    requires { from ≤ length pieces.old.items }
    ensures { OnOk result (AreArranged (field_views fields.now) spans.now from pieces.old.items pieces.new.items) }
{
    if are_joined(spans, from, pieces.len()) {
        return Ok(());
    }
    rearrange(alloc, fields, spans, from, pieces)
}

/// Puts the pieces from an index on in the order of the fields.
#[inline(never)]
fn rearrange(
    alloc: Global,
    fields: &[Field],
    spans: &[Option<Span>],
    from: usize,
    pieces: &mut Pieces<'_>,
) -> Result<(), Unread>
    requires { from ≤ length pieces.old.items }
    ensures { OnOk result (AreArranged (field_views fields.now) spans.now from pieces.old.items pieces.new.items) }
{
    let mut read = Pieces::new(alloc);
    read.extend_from_slice(pieces.as_slice())?;
    pieces.truncate(from);
    put_parts(fields, read.as_slice(), spans, pieces)
}
