//! A text in a buffer that is kept: room for a value is made once, and its bytes are then stored with no further test.

ghost use Rattle.std.specs.Prelude.{◌≡◌, ◌+◌, ◌-◌, ◌*◌, ◌<◌, ◌≤◌, [], ◌∷◌, ◌++◌, length, take, drop, OnOk, slice_set, decimal};
ghost use Rattle.std.specs.Bool.{OnTrue};
ghost use Rattle.hex.specs.Hex.{encode_lower};
ghost use Rattle.json.specs.Print.{escape};

use crate::hex_pairs::place_digits;
use crate::place::{
    MOVED, cut_out, place_byte, place_few, place_natural, place_padded, place_slowly, place_text,
};
use crate::plain_text::place_plain;
use std::alloc::{AllocError, Global};
use std::marker::Model;

/// How much room is made at least.
const LEAST: usize = 64;

/// The first `len` bytes of a buffer are the text; what lies after them is room.
#[derive(Drop)]
pub struct Line {
    bytes: Vec<u8>,
    len: usize,
}

impl Model for Line {
    ghost use Rattle.std.specs.Prelude.{◌-◌, ◌≤◌, length, take};
    ghost use Rattle.rowtext.specs.inner.Room.{Room, room_code};

    ghost Value = { Room };

    ghost coded = { room_code };

    ghost view = { λ s. record { items = take s.len s.bytes.items; ready = length s.bytes.items - s.len } };

    ghost invariant = { λ s. s.len ≤ length s.bytes.items };
}

impl Line {
    /// No text.
    pub fn new(alloc: Global) -> Line
        ensures { result.items ≡ [] }
    {
        Line {
            bytes: Vec::new(alloc),
            len: 0,
        }
    }

    /// How many bytes the text has.
    #[inline(always)]
    pub fn len(&self) -> usize
        ensures { result ≡ length self.now.items }
    {
        self.len
    }

    /// The text.
    #[inline(always)]
    pub fn as_slice(&self) -> &[u8]
        ensures value { result.now ≡ self.now.items }
    {
        &self.bytes.as_slice()[..self.len]
    }

    /// The text; the room after it stays with it.
    pub fn into_vec(self) -> Vec<u8>
        ensures { result.items ≡ self.items }
    {
        let Line { mut bytes, len } = self;
        bytes.truncate(len);
        bytes
    }

    /// Whether there is room for so many more bytes.
    #[inline(always)]
    pub fn has_room(&self, more: usize) -> bool
        ensures { OnTrue result (more ≤ self.now.ready) }
    {
        more <= self.bytes.len() - self.len
    }

    /// Makes room for so many more bytes.
    #[inline(always)]
    pub fn reserve(&mut self, more: usize) -> Result<(), AllocError>
        ensures items { self.new.items ≡ self.old.items }
        ensures ready { OnOk result (more ≤ self.new.ready) }
    {
        if more <= self.bytes.len() - self.len {
            return Ok(());
        }
        self.grow(more)
    }

    /// Makes more room, and at least as much as there is, so that bytes are moved a constant number of times each.
    #[cold]
    #[inline(never)]
    fn grow(&mut self, more: usize) -> Result<(), AllocError>
        ensures items { self.new.items ≡ self.old.items }
        ensures ready { OnOk result (more ≤ self.new.ready) }
    {
        let len = self.bytes.len();
        let Some(all) = len.checked_add(more.max(len).max(LEAST)) else {
            return Err(AllocError);
        };
        self.bytes.resize(all, 0)
    }

    /// Appends bytes that there is room for.
    #[inline(always)]
    pub fn place(&mut self, bytes: &[u8])
        requires { length bytes.now ≤ self.old.ready }
        ensures items { self.new.items ≡ self.old.items ++ bytes.now }
        ensures ready { self.old.ready ≡ self.new.ready + length bytes.now }
    {
        self.len = place_text(self.bytes.as_mut_slice(), self.len, bytes);
    }

    /// Appends the first `len` bytes of a text of at least 16, where there is room for 16.
    #[inline(always)]
    pub fn place_padded(&mut self, text: &[u8], len: usize)
        requires padded { (len ≤ 16) × (16 ≤ length text.now) }
        requires room { 16 ≤ self.old.ready }
        ensures items { self.new.items ≡ self.old.items ++ take len text.now }
        ensures ready { self.old.ready ≡ self.new.ready + len }
    {
        self.len = place_padded(self.bytes.as_mut_slice(), self.len, text, len);
    }

    /// Appends a text that there is room for, and returns whether it stands in a JSON string as it is: where it is
    /// not known, it returns false.
    #[inline(always)]
    pub fn place_plain(&mut self, text: &[u8]) -> bool
        requires { length text.now ≤ self.old.ready }
        ensures items { self.new.items ≡ self.old.items ++ text.now }
        ensures ready { self.old.ready ≡ self.new.ready + length text.now }
        ensures plain { OnTrue result (escape text.now ≡ text.now) }
    {
        let is_plain = place_plain(self.bytes.as_mut_slice(), self.len, text);
        self.len += text.len();
        is_plain
    }

    /// Appends a byte that there is room for.
    #[inline(always)]
    pub fn place_byte(&mut self, byte: u8)
        requires { 1 ≤ self.old.ready }
        ensures items { self.new.items ≡ self.old.items ++ byte ∷ [] }
        ensures ready { self.old.ready ≡ self.new.ready + 1 }
    {
        self.len = place_byte(self.bytes.as_mut_slice(), self.len, byte);
    }

    /// Appends the hexadecimal digits of bytes, which there is room for.
    #[inline(always)]
    pub fn place_digits(&mut self, bytes: &[u8])
        requires { 2 * length bytes.now ≤ self.old.ready }
        ensures items { self.new.items ≡ self.old.items ++ encode_lower bytes.now }
        ensures ready { self.old.ready ≡ self.new.ready + 2 * length bytes.now }
    {
        self.len = place_digits(self.bytes.as_mut_slice(), self.len, bytes);
    }

    /// Appends the digits of a number, which there is room for, and for 32 bytes more.
    #[inline(always)]
    pub fn place_natural(&mut self, number: u64)
        requires { 52 ≤ self.old.ready }
        ensures items { self.new.items ≡ self.old.items ++ decimal number }
    {
        self.len = place_natural(self.bytes.as_mut_slice(), self.len, number);
    }

    /// Appends bytes.
    #[inline(always)]
    pub fn extend_from_slice(&mut self, bytes: &[u8]) -> Result<(), AllocError>
        ensures items { OnOk result (self.new.items ≡ self.old.items ++ bytes.now) }
    {
        self.reserve(bytes.len())?;
        self.place(bytes);
        Ok(())
    }

    /// Appends a byte.
    #[inline(always)]
    pub fn push(&mut self, byte: u8) -> Result<(), AllocError>
        ensures items { OnOk result (self.new.items ≡ self.old.items ++ byte ∷ []) }
    {
        self.reserve(1)?;
        self.place_byte(byte);
        Ok(())
    }

    /// Appends bytes of the text itself, from one index up to another.
    #[inline(always)]
    pub fn extend_within(&mut self, from: usize, to: usize) -> Result<(), AllocError>
        requires { (from ≤ to) × (to ≤ length self.old.items) }
        ensures items { OnOk result (self.new.items ≡ self.old.items ++ take (to - from) (drop from self.old.items)) }
    {
        let count = to - from;
        if count <= MOVED {
            self.reserve(MOVED)?;
            self.len = place_few::<MOVED>(self.bytes.as_mut_slice(), self.len, from, count);
            return Ok(());
        }
        self.reserve(count)?;
        self.len = place_slowly(self.bytes.as_mut_slice(), self.len, from, count);
        Ok(())
    }

    /// Removes the bytes from one index up to another.
    #[inline(always)]
    pub fn cut_out(&mut self, from: usize, to: usize)
        requires { (from ≤ to) × (to ≤ length self.old.items) }
        ensures items { self.new.items ≡ take from self.old.items ++ drop to self.old.items }
    {
        self.len = cut_out(self.bytes.as_mut_slice(), from, to, self.len);
    }

    /// Cuts the text off.
    #[inline(always)]
    pub fn truncate(&mut self, len: usize)
        ensures { self.new.items ≡ take len self.old.items }
    {
        if len < self.len {
            self.len = len;
        }
    }

    /// Forgets the text.
    #[inline(always)]
    pub fn clear(&mut self)
        ensures items { self.new.items ≡ [] }
    {
        self.len = 0;
    }

    /// Replaces a byte.
    #[inline(always)]
    pub fn set(&mut self, at: usize, byte: u8)
        requires { at < length self.old.items }
        ensures items { self.new.items ≡ slice_set self.old.items at byte }
        ensures ready { self.new.ready ≡ self.old.ready }
    {
        self.bytes[at] = byte;
    }
}
