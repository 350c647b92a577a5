//! The known fields of a record while it is read in one pass over its bytes: a place for each.

ghost use Rattle.std.specs.Prelude.{◌≡◌, ◌≤◌, ℤ, List, Option, None, map, option_map, length, IfOk};
ghost use Rattle.bits.specs.Refusals.{RefusedOnly};
ghost use Rattle.thrift_compact.specs.Tree.{Node};
ghost use Rattle.thrift_compact.specs.View.{code_of};
ghost use Rattle.thrift_compact.specs.Reading.{IsNamed};
ghost use Rattle.thrift_compact.specs.Values.{IsRefusedFor, ReadAs};
ghost use Rattle.metadata.specs.FieldValues.{any_struct, record_by, list_by};
ghost use Rattle.metadata.specs.Answers.{IsRecordOf};
ghost use Rattle.metadata.specs.inner.Slots.{slot_step, other_step, known_row, needed_row, other_row, row_of, item_step, no_item};

use crate::known::FromNode;
use bits::{R, Refusal};
use std::alloc::Global;
use thrift_compact::{TakesElements, TakesFields, Unread, one_value};

/// Places for the known fields of a record.
pub trait Slots: Drop {
    /// What they hold in the end.
    type Row;

    /// What a contract sees of what they hold.
    ghost Held: { Type 0 };

    ghost held: { Self → Held };

    /// What they hold after one more field, by its id and its value; None if it cannot be read.
    ghost step: { Held → ℤ → Node → Option Held };

    /// What a contract sees of what they hold in the end.
    ghost Seen: { Type 0 };

    ghost seen: { Self.Row → Seen };

    /// What they hold in the end; None if a needed one holds nothing.
    ghost contents: { Held → Option Seen };

    /// Keeps a field in its place, and returns how many bytes its value takes.
    fn keep(&mut self, alloc: Global, id: i16, value: Unread<'_>) -> R<usize>
        requires named { IsNamed value.kind }
        ensures stands { IfOk result (λ used. ReadAs (step (held self.old) id) (code_of value.entry.kind) value.entry.left value.entry.bytes.now (held self.new) used) }
        ensures within { IfOk result (λ used. used ≤ length value.entry.bytes.now) }
        ensures which { RefusedOnly (IsRefusedFor (ReadAs (step (held self.old) id) (code_of value.entry.kind) value.entry.left) value.entry.bytes.now) result };

    /// What they hold. Refused Thrift if a needed one holds nothing.
    fn contents(self) -> R<Self::Row>
        ensures stands { IsRecordOf seen (contents (held self)) result };
}

/// A place for a field that may be absent, and places for others.
#[derive(Drop)]
pub struct Known<T, O> {
    id: i16,
    found: Option<T>,
    others: O,
}

/// A place for a field that has to be there, and places for others.
#[derive(Drop)]
pub struct Needed<T, O> {
    id: i16,
    found: Option<T>,
    others: O,
}

/// No more places: other fields are skipped.
#[derive(Drop)]
pub struct Others;

/// A place for the field of this id, which may be absent, before places for others.
pub fn optional<T, O>(id: i16, others: O) -> Known<T, O>
    ensures id { result.id ≡ id }
    ensures empty { result.found ≡ None }
    ensures others { result.others ≡ others }
{
    Known {
        id,
        found: None,
        others,
    }
}

/// A place for the field of this id, which has to be there, before places for others.
pub fn required<T, O>(id: i16, others: O) -> Needed<T, O>
    ensures id { result.id ≡ id }
    ensures empty { result.found ≡ None }
    ensures others { result.others ≡ others }
{
    Needed {
        id,
        found: None,
        others,
    }
}

impl<T: FromNode, O: Slots> Slots for Known<T, O> {
    type Row = (Option<T>, O::Row);

    ghost Held = { (ℤ × Option T.Shown) × O.Held };

    ghost held = { λ s. ((s.id, option_map T.shown s.found), O.held s.others) };

    ghost step = { slot_step T.read O.step };

    ghost Seen = { Option T.Shown × O.Seen };

    ghost seen = { λ r. (option_map T.shown r.0, O.seen r.1) };

    ghost contents = { known_row O.contents };

    fn keep(&mut self, alloc: Global, id: i16, value: Unread<'_>) -> R<usize> {
        if id == self.id {
            let (found, used) = T::from_unread(alloc, value)?;
            self.found = Some(found);
            return Ok(used);
        }
        let used = self.others.keep(alloc, id, value)?;
        Ok(used)
    }

    fn contents(self) -> R<(Option<T>, O::Row)> {
        let others = self.others.contents()?;
        Ok((self.found, others))
    }
}

impl<T: FromNode, O: Slots> Slots for Needed<T, O> {
    type Row = (T, O::Row);

    ghost Held = { (ℤ × Option T.Shown) × O.Held };

    ghost held = { λ s. ((s.id, option_map T.shown s.found), O.held s.others) };

    ghost step = { slot_step T.read O.step };

    ghost Seen = { T.Shown × O.Seen };

    ghost seen = { λ r. (T.shown r.0, O.seen r.1) };

    ghost contents = { needed_row O.contents };

    fn keep(&mut self, alloc: Global, id: i16, value: Unread<'_>) -> R<usize> {
        if id == self.id {
            let (found, used) = T::from_unread(alloc, value)?;
            self.found = Some(found);
            return Ok(used);
        }
        let used = self.others.keep(alloc, id, value)?;
        Ok(used)
    }

    fn contents(self) -> R<(T, O::Row)> {
        let Needed { found, others, .. } = self;
        match found {
            Some(found) => {
                let others = others.contents()?;
                Ok((found, others))
            }
            None => Err(Refusal::Thrift),
        }
    }
}

impl Slots for Others {
    type Row = ();

    ghost Held = { Unit {0} };

    ghost held = { λ _. tt };

    ghost step = { other_step };

    ghost Seen = { Unit {0} };

    ghost seen = { λ _. tt };

    ghost contents = { other_row };

    fn keep(&mut self, _alloc: Global, _id: i16, value: Unread<'_>) -> R<usize> {
        value.pass()
    }

    fn contents(self) -> R<()> {
        Ok(())
    }
}

/// What takes the fields of a struct into their places.
#[derive(Drop)]
struct Taking<S> {
    places: S,
}

impl<S: Slots> TakesFields for Taking<S> {
    ghost Shown = { S.Held };

    ghost shown = { λ s. S.held s.places };

    ghost step = { S.step };

    fn take(&mut self, alloc: Global, id: i16, value: Unread<'_>) -> R<usize> {
        self.places.keep(alloc, id, value)
    }
}

/// What the places hold after the fields of the struct, and how many bytes it takes. Refused Truncated
/// or Thrift only where there is no struct, or a field cannot be read or is absent.
pub fn read_row<S: Slots>(alloc: Global, value: Unread<'_>, places: S) -> R<(S::Row, usize)>
    ensures stands { IfOk result (λ x. ReadAs (record_by (row_of S.step S.contents (S.held places))) (code_of value.entry.kind) value.entry.left value.entry.bytes.now (S.seen x.0) x.1) }
    ensures within { IfOk result (λ x. x.1 ≤ length value.entry.bytes.now) }
    ensures which { RefusedOnly (IsRefusedFor (ReadAs (record_by (row_of S.step S.contents (S.held places))) (code_of value.entry.kind) value.entry.left) value.entry.bytes.now) result }
{
    one_value();
    let mut taking = Taking { places };
    let used = value.take_fields(alloc, &mut taking)?;
    let row = taking.places.contents()?;
    Ok((row, used))
}

/// How many bytes a struct takes, whatever its fields are.
pub fn pass_struct(alloc: Global, value: Unread<'_>) -> R<usize>
    ensures stands { IfOk result (λ used. ReadAs any_struct (code_of value.entry.kind) value.entry.left value.entry.bytes.now tt used) }
    ensures within { IfOk result (λ used. used ≤ length value.entry.bytes.now) }
    ensures which { RefusedOnly (IsRefusedFor (ReadAs any_struct (code_of value.entry.kind) value.entry.left) value.entry.bytes.now) result }
{
    let mut taking = Taking { places: Others };
    let used = value.take_fields(alloc, &mut taking)?;
    Ok(used)
}

/// The elements of a list that were read.
#[derive(Drop)]
struct Items<T> {
    items: Vec<T>,
}

impl<T: FromNode> TakesElements for Items<T> {
    ghost Shown = { List T.Shown };

    ghost shown = { λ s. map T.shown s.items.items };

    ghost step = { item_step T.read };

    fn take(&mut self, alloc: Global, value: Unread<'_>) -> R<usize> {
        let (item, used) = T::from_unread(alloc, value)?;
        self.items.push(item)?;
        Ok(used)
    }

    ghost no_flags = { λ held b. no_item T.read held b (T.no_flags b) };
}

/// The elements of the list, each of which is of this type, and how many bytes it takes. Memory is
/// taken as they come, and what the list does not need of it is given back.
pub fn read_items<T: FromNode>(alloc: Global, value: Unread<'_>) -> R<(Vec<T>, usize)>
    ensures stands { IfOk result (λ x. ReadAs (list_by T.read) (code_of value.entry.kind) value.entry.left value.entry.bytes.now (map T.shown x.0.items) x.1) }
    ensures within { IfOk result (λ x. x.1 ≤ length value.entry.bytes.now) }
    ensures which { RefusedOnly (IsRefusedFor (ReadAs (list_by T.read) (code_of value.entry.kind) value.entry.left) value.entry.bytes.now) result }
{
    let mut items = Items {
        items: Vec::new(alloc),
    };
    let used = value.take_elements(alloc, &mut items)?;
    items.items.shrink_to_fit();
    Ok((items.items, used))
}
