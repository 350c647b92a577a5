//! What takes the fields of a struct or the elements of a list one after the other, without a tree.

ghost use Rattle.std.specs.Prelude.{◌≡◌, ℕ, ◌≤◌, ℤ, Option, None, length, IfOk};
ghost use Rattle.bits.specs.Refusals.{RefusedOnly};
ghost use Rattle.thrift_compact.specs.Tree.{Node, flag};
ghost use Rattle.thrift_compact.specs.View.{code_of};
ghost use Rattle.thrift_compact.specs.Reading.{IsNamed};
ghost use Rattle.thrift_compact.specs.Values.{IsRefusedFor, ReadAs};
ghost use Rattle.thrift_compact.specs.inner.Reading.{ElementRead, FieldsTaken, ListTaken, ElementsTaken};

use crate::heads::{field_head_at, list_head_at};
use crate::tree::ElementType;
use crate::unread::Unread;
use bits::{R, Refusal};
use std::alloc::Global;

/// What takes the fields of a struct, in their order.
pub trait TakesFields {
    /// What a contract sees of what it holds.
    ghost Shown: { Type 0 };

    ghost shown: { Self → Shown };

    /// What it holds after one more field, by its id and its value; None if it cannot take that.
    ghost step: { Shown → ℤ → Node → Option Shown };

    /// Takes a field, and returns how many bytes its value takes. Refused Truncated where no value that
    /// it can take stands there, and Thrift where none does whatever follows.
    fn take(&mut self, alloc: Global, id: i16, value: Unread<'_>) -> R<usize>
        requires named { IsNamed value.kind }
        ensures stands { IfOk result (λ used. ReadAs (step (shown self.old) id) (code_of value.entry.kind) value.entry.left value.entry.bytes.now (shown self.new) used) }
        ensures within { IfOk result (λ used. used ≤ length value.entry.bytes.now) }
        ensures which { RefusedOnly (IsRefusedFor (ReadAs (step (shown self.old) id) (code_of value.entry.kind) value.entry.left) value.entry.bytes.now) result };
}

/// What takes the elements of a list, in their order. It takes no boolean ones.
pub trait TakesElements {
    /// What a contract sees of what it holds.
    ghost Shown: { Type 0 };

    ghost shown: { Self → Shown };

    /// What it holds after one more element; None if it cannot take that.
    ghost step: { Shown → Node → Option Shown };

    /// Takes an element, and returns how many bytes it takes. Refused Truncated where no value that it
    /// can take stands there, and Thrift where none does whatever follows.
    fn take(&mut self, alloc: Global, value: Unread<'_>) -> R<usize>
        requires named { IsNamed value.kind }
        ensures stands { IfOk result (λ used. ReadAs (step (shown self.old)) (code_of value.entry.kind) value.entry.left value.entry.bytes.now (shown self.new) used) }
        ensures within { IfOk result (λ used. used ≤ length value.entry.bytes.now) }
        ensures which { RefusedOnly (IsRefusedFor (ReadAs (step (shown self.old)) (code_of value.entry.kind) value.entry.left) value.entry.bytes.now) result };

    /// A boolean element is a byte, and it takes none.
    ghost no_flags: { (held : Shown) (b : ℕ) → step held (flag b) ≡ None };
}

/// Fields up to the byte that ends them.
pub(crate) fn fields_taken_at<T: TakesFields>(
    alloc: Global,
    left: u32,
    bytes: &[u8],
    taker: &mut T,
) -> R<usize>
    ensures stands { IfOk result (λ used. FieldsTaken T.step (T.shown taker.old) left bytes.now (T.shown taker.new) used) }
    ensures within { IfOk result (λ used. used ≤ length bytes.now) }
    ensures which { RefusedOnly (IsRefusedFor (FieldsTaken T.step (T.shown taker.old) left) bytes.now) result }
{
    let mut previous: i16 = 0;
    let mut at = 0;
    while at < bytes.len() {
        if bytes[at] == 0 {
            return Ok(at + 1);
        }
        let (_, rest) = bytes.split_at(at);
        let ((id, kind), head) = field_head_at(previous, rest)?;
        let (_, rest) = bytes.split_at(at + head);
        let value = Unread {
            kind,
            left,
            bytes: rest,
        };
        let used = taker.take(alloc, id, value)?;
        previous = id;
        at += head + used;
    }
    Err(Refusal::Truncated)
}

/// A list, with its header.
pub(crate) fn list_taken_at<T: TakesElements>(
    alloc: Global,
    left: u32,
    bytes: &[u8],
    taker: &mut T,
) -> R<usize>
    ensures stands { IfOk result (λ used. ListTaken T.step (T.shown taker.old) left bytes.now (T.shown taker.new) used) }
    ensures within { IfOk result (λ used. used ≤ length bytes.now) }
    ensures which { RefusedOnly (IsRefusedFor (ListTaken T.step (T.shown taker.old) left) bytes.now) result }
{
    let ((kind, size), head) = list_head_at(bytes)?;
    let (_, rest) = bytes.split_at(head);
    if size > rest.len() as u64 {
        return Err(Refusal::Truncated);
    }
    let used = elements_taken_at(alloc, kind, size, left, rest, taker)?;
    Ok(head + used)
}

/// `size` elements of one type.
fn elements_taken_at<T: TakesElements>(
    alloc: Global,
    kind: ElementType,
    size: u64,
    left: u32,
    bytes: &[u8],
    taker: &mut T,
) -> R<usize>
    requires { IsNamed kind }
    ensures stands { IfOk result (λ used. ElementsTaken T.step (T.shown taker.old) (code_of kind) left size bytes.now (T.shown taker.new) used) }
    ensures within { IfOk result (λ used. used ≤ length bytes.now) }
    ensures which { RefusedOnly (IsRefusedFor (ElementsTaken T.step (T.shown taker.old) (code_of kind) left size) bytes.now) result }
{
    let mut at = 0;
    for _ in 0..size {
        let (_, rest) = bytes.split_at(at);
        let value = Unread {
            kind,
            left,
            bytes: rest,
        };
        let used = element_taken(alloc, value, taker)?;
        at += used;
    }
    Ok(at)
}

/// An element of a list: none is taken that is boolean.
fn element_taken<T: TakesElements>(alloc: Global, value: Unread<'_>, taker: &mut T) -> R<usize>
    requires named { IsNamed value.kind }
    ensures stands { IfOk result (λ used. ElementRead (T.step (T.shown taker.old)) (code_of value.entry.kind) value.entry.left value.entry.bytes.now (T.shown taker.new) used) }
    ensures within { IfOk result (λ used. used ≤ length value.entry.bytes.now) }
    ensures which { RefusedOnly (IsRefusedFor (ElementRead (T.step (T.shown taker.old)) (code_of value.entry.kind) value.entry.left) value.entry.bytes.now) result }
{
    match value.kind {
        ElementType::True | ElementType::False => Err(Refusal::Thrift),
        _ => {
            let used = taker.take(alloc, value)?;
            Ok(used)
        }
    }
}
