//! What holds of the definition.

ghost use Rattle.std.specs.Prelude.{ℕ, [], ◌∷◌, replicate};
ghost use Rattle.bits.specs.Codec.{NothingStands, IsFunctional};
ghost use Rattle.hybrid_rle.specs.Hybrid.{IsHybrid};

/// A prefix of the bytes stands for at most one list of n numbers of some width.
pub fn one_list()
    ensures { (width n : ℕ) → IsFunctional (λ bytes. IsHybrid width bytes n) }
{}

/// Eight packed numbers of three bits, and no ninth; the first five of them; five of a packed run
/// that is cut, and no sixth; a cut run takes all bytes, also where it is read for fewer numbers; a
/// hundred ones as one repeated number, and 300 three times in two bytes; a repeated number that is
/// too wide, in a run of none.
#[tactic(auto, using(crate::proofs::Examples::eight_values, crate::proofs::Examples::five_values, crate::proofs::Examples::cut_values, crate::proofs::Examples::cut_takes_all, crate::proofs::Examples::hundred_ones, crate::proofs::Examples::two_bytes))]
pub fn worked_examples()
    ensures eight { IsHybrid 3 (3 ∷ 136 ∷ 198 ∷ 250 ∷ []) 8 (0 ∷ 1 ∷ 2 ∷ 3 ∷ 4 ∷ 5 ∷ 6 ∷ 7 ∷ []) 4 }
    ensures nine { NothingStands (IsHybrid 3 (3 ∷ 136 ∷ 198 ∷ 250 ∷ []) 9) }
    ensures five { IsHybrid 3 (3 ∷ 136 ∷ 198 ∷ 250 ∷ []) 5 (0 ∷ 1 ∷ 2 ∷ 3 ∷ 4 ∷ []) 4 }
    ensures cut { IsHybrid 3 (3 ∷ 136 ∷ 198 ∷ []) 5 (0 ∷ 1 ∷ 2 ∷ 3 ∷ 4 ∷ []) 3 }
    ensures past_the_cut { NothingStands (IsHybrid 3 (3 ∷ 136 ∷ 198 ∷ []) 6) }
    ensures cut_takes_all { IsHybrid 3 (5 ∷ 136 ∷ 198 ∷ 250 ∷ 7 ∷ []) 8 (0 ∷ 1 ∷ 2 ∷ 3 ∷ 4 ∷ 5 ∷ 6 ∷ 7 ∷ []) 5 }
    ensures hundred { IsHybrid 1 (200 ∷ 1 ∷ 1 ∷ []) 100 (replicate 100 1) 3 }
    ensures two_bytes { IsHybrid 9 (6 ∷ 44 ∷ 1 ∷ []) 3 (300 ∷ 300 ∷ 300 ∷ []) 3 }
    ensures too_wide { NothingStands (IsHybrid 1 (0 ∷ 2 ∷ 2 ∷ 1 ∷ []) 1) }
{}
