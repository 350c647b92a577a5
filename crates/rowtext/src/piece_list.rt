//! The pieces of a row, of which a few take no allocation.

ghost use Rattle.std.specs.Prelude.{◌≡◌, ◌≤◌, [], ◌∷◌, ◌++◌, length, take, drop, OnOk};
ghost use Rattle.rowtext.specs.inner.PieceLists.{exchanged};

use crate::pieces::Piece;
use std::alloc::{AllocError, Global};
use std::marker::Model;

/// How many pieces take no allocation.
const FEW: usize = 8;

/// What `count` is where the pieces are in the allocation.
const BEYOND: usize = 9;

/// The pieces of a row: the first `count` of `few`, or all of `many` where `count` is `BEYOND`.
#[derive(Drop)]
pub struct Pieces<'t> {
    few: [Piece<'t>; FEW],
    count: usize,
    many: Vec<Piece<'t>>,
}

impl<'t> Model for Pieces<'t> {
    ghost use Rattle.std.specs.Prelude.{◌≡◌, ◌≤◌, length};
    ghost use Rattle.rowtext.specs.inner.PieceLists.{PieceList, held};

    ghost Value = { PieceList };

    ghost view = { λ p. record { items = held p.count p.few p.many.items } };

    ghost invariant = { λ p. (p.count ≤ 9) × (length p.few ≡ 8) };
}

impl<'t> Pieces<'t> {
    /// No pieces.
    #[inline(always)]
    pub fn new(alloc: Global) -> Pieces<'t>
        ensures { result.items ≡ [] }
    {
        Pieces {
            few: [Piece::Null; FEW],
            count: 0,
            many: Vec::new(alloc),
        }
    }

    /// Makes room for this many, where they are more than a few: where there are none yet, all are put there.
    #[inline(always)]
    pub fn reserve(&mut self, count: usize) -> Result<(), AllocError>
        ensures { OnOk result (self.new.items ≡ self.old.items) }
    {
        if count > FEW {
            if self.count == 0 {
                self.many.clear();
                self.count = BEYOND;
            }
            self.many.reserve(count)?;
        }
        Ok(())
    }

    /// The pieces.
    #[inline(always)]
    pub fn as_slice(&self) -> &[Piece<'t>]
        ensures { result.now ≡ self.now.items }
    {
        if self.count <= FEW {
            &self.few[..self.count]
        } else {
            self.many.as_slice()
        }
    }

    /// How many pieces there are.
    #[inline(always)]
    pub fn len(&self) -> usize
        ensures { result ≡ length self.now.items }
    {
        self.as_slice().len()
    }

    /// Adds a piece.
    #[inline(always)]
    pub fn push(&mut self, piece: Piece<'t>) -> Result<(), AllocError>
        ensures { OnOk result (self.new.items ≡ self.old.items ++ piece.entry ∷ []) }
    {
        if self.count < FEW {
            self.few[self.count] = piece;
            self.count += 1;
            Ok(())
        } else {
            self.push_beyond(piece)
        }
    }

    /// Adds a piece where there is no place left among the few.
    #[inline(always)]
    fn push_beyond(&mut self, piece: Piece<'t>) -> Result<(), AllocError>
        ensures { OnOk result (self.new.items ≡ self.old.items ++ piece.entry ∷ []) }
    {
        if self.count == BEYOND {
            self.many.push(piece)?;
            Ok(())
        } else {
            self.push_moved(piece)
        }
    }

    /// Adds a piece, after the few are moved to the allocation.
    #[cold]
    #[inline(never)]
    fn push_moved(&mut self, piece: Piece<'t>) -> Result<(), AllocError>
        ensures { OnOk result (self.new.items ≡ self.old.items ++ piece.entry ∷ []) }
    {
        let count = self.count;
        if count == BEYOND {
            self.many.push(piece)?;
            return Ok(());
        }
        let few = self.few;
        self.many.clear();
        self.many.extend_from_slice(&few[..count])?;
        self.many.push(piece)?;
        self.count = BEYOND;
        Ok(())
    }

    /// Puts the pieces from the second index on before those from the first up to it.
    #[inline(always)]
    pub fn exchange(&mut self, from: usize, middle: usize)
        requires { (from ≤ middle) × (middle ≤ length self.old.items) }
        ensures { self.new.items ≡ exchanged from middle self.old.items }
    {
        let count = self.count;
        if count > FEW {
            exchange(self.many.as_mut_slice(), from, middle);
        } else if count - from == 2 && middle - from == 1 {
            let first = self.few[from];
            self.few[from] = self.few[middle];
            self.few[middle] = first;
        } else {
            let mut few = self.few;
            exchange(&mut few[..count], from, middle);
            self.few = few;
        }
    }

    /// Removes the pieces from an index on.
    #[inline(always)]
    pub fn truncate(&mut self, count: usize)
        requires { count ≤ length self.old.items }
        ensures { self.new.items ≡ take count self.old.items }
    {
        if self.count <= FEW {
            self.count = count;
        } else {
            self.many.truncate(count);
        }
    }

    /// Removes all pieces.
    #[inline(always)]
    pub fn clear(&mut self)
        ensures { self.new.items ≡ [] }
    {
        if self.count <= FEW {
            self.count = 0;
        } else {
            self.many.clear();
        }
    }

    /// Adds pieces.
    pub fn extend_from_slice(&mut self, pieces: &[Piece<'t>]) -> Result<(), AllocError>
        ensures { OnOk result (self.new.items ≡ self.old.items ++ pieces.now) }
    {
        for piece in pieces {
            self.push(*piece)?;
        }
        Ok(())
    }
}

/// Puts the pieces from an index on before the others.
#[inline(always)]
fn rotate(pieces: &mut [Piece<'_>], count: usize)
    requires { count ≤ length pieces.old }
    ensures { pieces.new ≡ drop count pieces.old ++ take count pieces.old }
{
    if count == 1 && pieces.len() == 2 {
        let first = pieces[0];
        pieces[0] = pieces[1];
        pieces[1] = first;
    } else {
        pieces.rotate_left(count);
    }
}

/// Puts the pieces from the second index on before those from the first up to it.
#[inline(always)]
fn exchange(pieces: &mut [Piece<'_>], from: usize, middle: usize)
    requires { (from ≤ middle) × (middle ≤ length pieces.old) }
    ensures { pieces.new ≡ exchanged from middle pieces.old }
{
    rotate(&mut pieces[from..], middle - from);
}
