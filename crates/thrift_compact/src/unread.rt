//! Values that are read where they stand.

ghost use Rattle.std.specs.Prelude.{◌≡◌, ◌≤◌, length, IfOk};
ghost use Rattle.bits.specs.Refusals.{RefusedOnly};
ghost use Rattle.thrift_compact.specs.declared.tree.ElementType.TheVariants.{Struct};
ghost use Rattle.thrift_compact.specs.Tree.{i32, i64, binary, struct};
ghost use Rattle.thrift_compact.specs.View.{code_of, tree_view};
ghost use Rattle.thrift_compact.specs.Reading.{IsNamed};
ghost use Rattle.thrift_compact.specs.Values.{IsRefusedFor, ValueOf, ReadAs, truth_of, passed, fields_by, elements_by};

use crate::numbers::{binary_at, i32_at, i64_at};
use crate::passing::pass_value;
use crate::reading::fields_at;
use crate::taking::{TakesElements, TakesFields, fields_taken_at, list_taken_at};
use crate::tree::{DEEPEST, ElementType, Tree};
use bits::{R, Refusal};
use std::alloc::Global;

/// A value at the start of bytes that is not read yet.
#[derive(Clone, Copy)]
pub struct Unread<'b> {
    /// Its type.
    pub kind: ElementType,
    /// How many levels lists, sets, maps and structs may nest in it, its own among them.
    pub left: u32,
    /// The bytes from the value on; what follows it is not looked at.
    pub bytes: &'b [u8],
}

impl<'b> Unread<'b> {
    /// The struct at the start of the bytes, in which 32 levels may nest.
    pub fn of_struct(bytes: &'b [u8]) -> Unread<'b>
        ensures kind { result.kind ≡ Struct }
        ensures left { result.left ≡ 33 }
        ensures bytes { result.bytes.now ≡ bytes.now }
    {
        Unread {
            kind: ElementType::Struct,
            left: DEEPEST + 1,
            bytes,
        }
    }

    /// The boolean, and how many bytes it takes: none.
    pub fn read_bool(self) -> R<(bool, usize)>
        ensures stands { IfOk result (λ x. ValueOf (code_of self.entry.kind) self.entry.left self.entry.bytes.now (truth_of x.0) x.1) }
        ensures within { IfOk result (λ x. x.1 ≤ length self.entry.bytes.now) }
        ensures which { RefusedOnly (IsRefusedFor (λ bytes b. ValueOf (code_of self.entry.kind) self.entry.left bytes (truth_of b)) self.entry.bytes.now) result }
    {
        match self.kind {
            ElementType::True => Ok((true, 0)),
            ElementType::False => Ok((false, 0)),
            _ => Err(Refusal::Thrift),
        }
    }

    /// The 32-bit number, and how many bytes it takes.
    pub fn read_i32(self) -> R<(i32, usize)>
        ensures stands { IfOk result (λ x. ValueOf (code_of self.entry.kind) self.entry.left self.entry.bytes.now (i32 x.0) x.1) }
        ensures within { IfOk result (λ x. x.1 ≤ length self.entry.bytes.now) }
        ensures which { RefusedOnly (IsRefusedFor (λ bytes z. ValueOf (code_of self.entry.kind) self.entry.left bytes (i32 z)) self.entry.bytes.now) result }
    {
        match self.kind {
            ElementType::I32 => {
                let (int, used) = i32_at(self.bytes)?;
                Ok((int, used))
            }
            _ => Err(Refusal::Thrift),
        }
    }

    /// The 64-bit number, and how many bytes it takes.
    pub fn read_i64(self) -> R<(i64, usize)>
        ensures stands { IfOk result (λ x. ValueOf (code_of self.entry.kind) self.entry.left self.entry.bytes.now (i64 x.0) x.1) }
        ensures within { IfOk result (λ x. x.1 ≤ length self.entry.bytes.now) }
        ensures which { RefusedOnly (IsRefusedFor (λ bytes z. ValueOf (code_of self.entry.kind) self.entry.left bytes (i64 z)) self.entry.bytes.now) result }
    {
        match self.kind {
            ElementType::I64 => {
                let (long, used) = i64_at(self.bytes)?;
                Ok((long, used))
            }
            _ => Err(Refusal::Thrift),
        }
    }

    /// A copy of the binary value, and how many bytes it takes.
    pub fn read_binary(self, alloc: Global) -> R<(Vec<u8>, usize)>
        ensures stands { IfOk result (λ x. ValueOf (code_of self.entry.kind) self.entry.left self.entry.bytes.now (binary x.0.items) x.1) }
        ensures within { IfOk result (λ x. x.1 ≤ length self.entry.bytes.now) }
        ensures which { RefusedOnly (IsRefusedFor (λ bytes s. ValueOf (code_of self.entry.kind) self.entry.left bytes (binary s)) self.entry.bytes.now) result }
    {
        match self.kind {
            ElementType::Binary => {
                let (text, used) = binary_at(alloc, self.bytes)?;
                Ok((text, used))
            }
            _ => Err(Refusal::Thrift),
        }
    }

    /// The struct as a tree, and how many bytes it takes.
    pub fn read_tree(self, alloc: Global) -> R<(Tree, usize)>
        ensures stands { IfOk result (λ x. ValueOf (code_of self.entry.kind) self.entry.left self.entry.bytes.now (struct (tree_view x.0)) x.1) }
        ensures within { IfOk result (λ x. x.1 ≤ length self.entry.bytes.now) }
        ensures which { RefusedOnly (IsRefusedFor (λ bytes fs. ValueOf (code_of self.entry.kind) self.entry.left bytes (struct fs)) self.entry.bytes.now) result }
    {
        if self.left == 0 {
            return Err(Refusal::Thrift);
        }
        match self.kind {
            ElementType::Struct => {
                let (fields, used) = fields_at(alloc, self.left - 1, self.bytes)?;
                Ok((Tree { fields }, used))
            }
            _ => Err(Refusal::Thrift),
        }
    }

    /// How many bytes the value takes, whatever it is. Takes no memory.
    pub fn pass(self) -> R<usize>
        requires named { IsNamed self.kind }
        ensures stands { IfOk result (λ used. ReadAs passed (code_of self.entry.kind) self.entry.left self.entry.bytes.now tt used) }
        ensures within { IfOk result (λ used. used ≤ length self.entry.bytes.now) }
        ensures which { RefusedOnly (IsRefusedFor (ReadAs passed (code_of self.entry.kind) self.entry.left) self.entry.bytes.now) result }
    {
        let used = pass_value(self.kind, self.left, self.bytes)?;
        Ok(used)
    }

    /// Gives each field of the struct to the taker, in their order, and returns how many bytes the
    /// struct takes.
    pub fn take_fields<T: TakesFields>(self, alloc: Global, taker: &mut T) -> R<usize>
        ensures stands { IfOk result (λ used. ReadAs (fields_by T.step (T.shown taker.old)) (code_of self.entry.kind) self.entry.left self.entry.bytes.now (T.shown taker.new) used) }
        ensures within { IfOk result (λ used. used ≤ length self.entry.bytes.now) }
        ensures which { RefusedOnly (IsRefusedFor (ReadAs (fields_by T.step (T.shown taker.old)) (code_of self.entry.kind) self.entry.left) self.entry.bytes.now) result }
    {
        if self.left == 0 {
            return Err(Refusal::Thrift);
        }
        match self.kind {
            ElementType::Struct => {
                let used = fields_taken_at(alloc, self.left - 1, self.bytes, taker)?;
                Ok(used)
            }
            _ => Err(Refusal::Thrift),
        }
    }

    /// Gives each element of the list to the taker, in their order, and returns how many bytes the
    /// list takes.
    pub fn take_elements<T: TakesElements>(self, alloc: Global, taker: &mut T) -> R<usize>
        ensures stands { IfOk result (λ used. ReadAs (elements_by T.step (T.shown taker.old)) (code_of self.entry.kind) self.entry.left self.entry.bytes.now (T.shown taker.new) used) }
        ensures within { IfOk result (λ used. used ≤ length self.entry.bytes.now) }
        ensures which { RefusedOnly (IsRefusedFor (ReadAs (elements_by T.step (T.shown taker.old)) (code_of self.entry.kind) self.entry.left) self.entry.bytes.now) result }
    {
        if self.left == 0 {
            return Err(Refusal::Thrift);
        }
        match self.kind {
            ElementType::List => {
                let used = list_taken_at(alloc, self.left - 1, self.bytes, taker)?;
                Ok(used)
            }
            _ => Err(Refusal::Thrift),
        }
    }
}
