//! What holds of lists.

ghost use Rattle.std.specs.Prelude.{◌≡◌, ◌<◌, ◌+◌, ℕ, List, ◌∷◌, length, get_or, drop};

/// From an index on a list is the item there, and what follows.
#[tactic(auto, using(crate::proofs::Slices::drop_here))]
pub fn lists_are_parts()
    ensures { (xs : List ℕ) (i x : ℕ) → i < length xs → x ≡ get_or xs i x → drop i xs ≡ x ∷ drop (i + 1) xs }
{}
