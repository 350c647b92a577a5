//! What holds of the definitions.

ghost use Rattle.std.specs.Prelude.{◌≡◌, ℕ, List, length};
ghost use Rattle.bits.specs.Codec.{IsFunctional};
ghost use Rattle.bits.specs.Varint.{IsUleb};
ghost use Rattle.bits.specs.Bits.{IsPacked};

/// A prefix of the bytes stands for at most one varint.
pub fn one_number()
    ensures { IsFunctional IsUleb }
{}

/// Bytes hold at most one list of n numbers of some width.
pub fn one_packing()
    ensures { (bytes xs ys : List ℕ) (w : ℕ) → length xs ≡ length ys → IsPacked bytes w xs → IsPacked bytes w ys → xs ≡ ys }
{}
