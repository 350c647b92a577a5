//! Names of members as they are printed.

ghost use Rattle.std.specs.Prelude.{◌≡◌, ◌+◌, ◌≤◌, ◌++◌, length, IfOk, OnOk};
ghost use Rattle.std.specs.Bool.{OnTrue};

use crate::line::Line;
use crate::place::PADDED;
use crate::scalars::NUMBER_ROOM;
use std::alloc::{AllocError, Global};
use std::marker::Model;

/// A name as it is printed, between a comma and a colon: the first `len` bytes of at least 16, so that a short one is
/// placed by one load and one store.
#[derive(Drop)]
pub struct Key {
    padded: Vec<u8>,
    len: usize,
}

impl Model for Key {
    ghost use Rattle.std.specs.Prelude.{◌≤◌, ℕ, List, length, take};

    ghost Value = { List ℕ };

    ghost view = { λ k. take k.len k.padded.items };

    ghost invariant = { λ k. (16 ≤ length k.padded.items) × (k.len ≤ length k.padded.items) };
}

impl Key {
    /// A name that is printed so.
    pub fn new(alloc: Global, text: &[u8]) -> Result<Key, AllocError>
        ensures { IfOk result (λ key. key ≡ text.now) }
    {
        let len = text.len();
        let mut padded = Vec::from_slice(alloc, text)?;
        padded.resize(len.max(PADDED), 0)?;
        Ok(Key { padded, len })
    }

    /// The name.
    #[inline(always)]
    pub fn as_slice(&self) -> &[u8]
        ensures { result.now ≡ self.now }
    {
        &self.padded.as_slice()[..self.len]
    }

    /// Whether it is placed at once.
    #[inline(always)]
    pub fn is_short(&self) -> bool
        ensures { OnTrue result (length self.now ≤ 16) }
    {
        self.len <= PADDED
    }

    /// Appends a short name, where there is room for 16 bytes.
    #[inline(always)]
    pub fn place(&self, out: &mut Line)
        requires short { length self.now ≤ 16 }
        requires room { 16 ≤ out.old.ready }
        ensures items { out.new.items ≡ out.old.items ++ self.now }
        ensures ready { out.old.ready ≤ out.new.ready + 16 }
    {
        out.place_padded(self.padded.as_slice(), self.len);
    }

    /// Appends the name, with room after it for a number or a word.
    #[inline(always)]
    pub fn put(&self, out: &mut Line) -> Result<(), AllocError>
        ensures items { OnOk result (out.new.items ≡ out.old.items ++ self.now) }
        ensures ready { OnOk result (53 ≤ out.new.ready) }
    {
        if self.is_short() {
            out.reserve(PADDED + NUMBER_ROOM)?;
            self.place(out);
        } else {
            out.reserve(self.len + NUMBER_ROOM)?;
            out.place(self.as_slice());
        }
        Ok(())
    }
}
