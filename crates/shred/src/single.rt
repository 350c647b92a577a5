//! Values of leaves, as they come.

ghost use Rattle.std.specs.Prelude.{◌≡◌, Some, IfOk, OnErr};
ghost use Rattle.schema.specs.Values.{ValueTree, integer, bytes as text_value};
ghost use Rattle.schema.specs.Borrowed.{value_ref_view};
ghost use Rattle.shred.specs.inner.Put.{IsPut};
ghost use Rattle.shred.specs.inner.Roomy.{list_of};
ghost use Rattle.shred.specs.inner.Spelled.{IsSpelledIf};

use crate::roomy_list::RoomyList;
use crate::slot::Slot;
use schema::{Kind, ValueRef};
use std::alloc::AllocError;

/// A value of a leaf, or a null.
///
/// A number and bytes each have a path of their own into a column, which does not ask what the value is.
pub(crate) trait Single: Copy {
    /// What contracts see of the value.
    ghost meant: { Self → ValueTree };

    /// Puts the value in PLAIN after others, and returns whether it is of the type: no other is put. It fails only when
    /// out of memory, and then leaves the bytes as they are.
    fn put_plain(self, kind: Kind, bytes: &mut RoomyList<u8>) -> Result<bool, AllocError>
        ensures put { IfOk result (λ put. IsSpelledIf put kind (meant self) (list_of bytes.old) (list_of bytes.new)) }
        ensures unchanged { OnErr result (list_of bytes.new ≡ list_of bytes.old) };

    /// Puts the bytes of the value, if it has any, after the bytes of others, and returns its slot. It fails only when
    /// out of memory, and then leaves the bytes as they are.
    fn put_bytes(self, bytes: &mut RoomyList<u8>) -> Result<Slot, AllocError>
        ensures stands { IfOk result (λ slot. IsPut slot (Some (meant self)) (list_of bytes.old) (list_of bytes.new)) }
        ensures unchanged { OnErr result (list_of bytes.new ≡ list_of bytes.old) };
}

impl Single for i64 {
    ghost meant = { integer };

    #[inline(always)]
    fn put_plain(self, kind: Kind, bytes: &mut RoomyList<u8>) -> Result<bool, AllocError> {
        if let Kind::Int64 = kind {
            bytes.put_int64(self)?;
            return Ok(true);
        }
        if let Kind::Int32 = kind {
            let Ok(small) = i32::try_from(self) else {
                return Ok(false);
            };
            bytes.put_int32(small)?;
            return Ok(true);
        }
        Ok(false)
    }

    #[inline(always)]
    fn put_bytes(self, _bytes: &mut RoomyList<u8>) -> Result<Slot, AllocError> {
        Ok(Slot::Int(self))
    }
}

impl<'a> Single for &'a [u8] {
    ghost meant = { λ text. text_value text.now };

    #[inline(always)]
    fn put_plain(self, kind: Kind, bytes: &mut RoomyList<u8>) -> Result<bool, AllocError> {
        if let Kind::ByteArray = kind {
            if self.len() > u32::MAX as usize {
                return Ok(false);
            }
            bytes.put_byte_array(self)?;
            return Ok(true);
        }
        if let Kind::FixedLenByteArray(size) = kind {
            if self.len() != size as usize {
                return Ok(false);
            }
            bytes.append_apart(self)?;
            return Ok(true);
        }
        Ok(false)
    }

    #[inline(always)]
    fn put_bytes(self, bytes: &mut RoomyList<u8>) -> Result<Slot, AllocError> {
        bytes.append(self)?;
        Ok(Slot::Bytes(self.len()))
    }
}

impl<'a> Single for ValueRef<'a> {
    ghost meant = { value_ref_view };

    // The value is looked at before the type: where it is known which value comes, little is left to be asked.
    #[inline(always)]
    fn put_plain(self, kind: Kind, bytes: &mut RoomyList<u8>) -> Result<bool, AllocError> {
        match self {
            ValueRef::Int(number) => number.put_plain(kind, bytes),
            ValueRef::Bytes(text) => text.put_plain(kind, bytes),
            _ => Ok(false),
        }
    }

    #[inline(always)]
    fn put_bytes(self, bytes: &mut RoomyList<u8>) -> Result<Slot, AllocError> {
        match self {
            ValueRef::Null => Ok(Slot::Null),
            ValueRef::Bool(b) => Ok(Slot::Bool(b)),
            ValueRef::Int(n) => Ok(Slot::Int(n)),
            ValueRef::Bytes(own) => {
                bytes.append_apart(own)?;
                Ok(Slot::Bytes(own.len()))
            }
            // Never reached: a leaf has no such value.
            ValueRef::Group(_) | ValueRef::List(_) => Err(AllocError),
        }
    }
}
