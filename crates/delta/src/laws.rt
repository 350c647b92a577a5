//! What holds of the definitions.

ghost use Rattle.std.specs.Prelude.{◌≡◌, ℕ, ℤ, List, [], ◌∷◌, ◌++◌, length, pos, negsuc};
ghost use Rattle.std.specs.Int.{Width, w32, w64};
ghost use Rattle.bits.specs.Codec.{NothingStands, IsFunctional};
ghost use Rattle.plain.specs.Plain.{AreBytes};
ghost use Rattle.delta.specs.Delta.{IsDelta};
ghost use Rattle.delta.specs.Written.{IsWrittenDelta};
ghost use Rattle.delta.specs.ByteDeltas.{IsByteLengths, IsPrefixed};
ghost use Rattle.delta.specs.Examples.{down_and_up_bytes, down_and_up_values, two_blocks_bytes, two_blocks_values, extreme_bytes, three_lengths_bytes, four_words_bytes, four_words};

/// A front of the bytes stands for at most one list of n numbers of some bits.
pub fn one_list()
    ensures { (w : Width) (n : ℕ) → IsFunctional (λ bytes. IsDelta w bytes n) }
{}

/// A front of the bytes stands for at most one list of n byte values by their lengths.
pub fn one_byte_list()
    ensures { (n : ℕ) → IsFunctional (λ bytes. IsByteLengths bytes n) }
{}

/// A front of the bytes stands for at most one list of n byte values by their prefixes.
pub fn one_prefixed_list()
    ensures { (n : ℕ) → IsFunctional (λ bytes. IsPrefixed bytes n) }
{}

/// A writer writes one text for the same numbers of the same bits.
pub fn one_text()
    ensures { (w : Width) (values : List ℤ) (text other : List ℕ) → AreBytes text → AreBytes other
        → IsWrittenDelta w values text (length text) → IsWrittenDelta w values other (length other) → text ≡ other }
{}

/// One to five, whose deltas have no bits, and no four values there; 7, 5, 3, 1, 2, 3, 4, 5, whose
/// deltas have two; 0 to 128, 131, 130 in two blocks, read, and as a writer writes them; the least and
/// the greatest of 64 bits, whose sum wraps; 1 and 300; no values, in four varints; width bytes of
/// miniblocks that are not needed, whatever they are; a, bb and the empty value by their lengths, and
/// nothing with a length of -1; axis, axle, babble and babyhood by their prefixes.
pub fn worked_examples()
    ensures one_to_five { IsDelta w32 (128 ∷ 1 ∷ 4 ∷ 5 ∷ 2 ∷ 2 ∷ 0 ∷ 0 ∷ 0 ∷ 0 ∷ []) 5 (pos 1 ∷ pos 2 ∷ pos 3 ∷ pos 4 ∷ pos 5 ∷ []) 10 }
    ensures down_and_up { IsDelta w32 down_and_up_bytes 8 down_and_up_values 18 }
    ensures two_blocks { IsDelta w32 two_blocks_bytes 131 two_blocks_values 28 }
    ensures two_blocks_written { IsWrittenDelta w32 two_blocks_values two_blocks_bytes 28 }
    ensures extremes { IsDelta w64 extreme_bytes 2 (negsuc 9223372036854775807 ∷ pos 9223372036854775807 ∷ []) 19 }
    ensures far { IsDelta w64 (128 ∷ 1 ∷ 4 ∷ 2 ∷ 2 ∷ 214 ∷ 4 ∷ 0 ∷ 0 ∷ 0 ∷ 0 ∷ []) 2 (pos 1 ∷ pos 300 ∷ []) 11 }
    ensures none { IsDelta w32 (128 ∷ 1 ∷ 4 ∷ 0 ∷ 9 ∷ []) 0 [] 5 }
    ensures unneeded { IsDelta w32 (128 ∷ 1 ∷ 4 ∷ 2 ∷ 2 ∷ 2 ∷ 0 ∷ 255 ∷ 65 ∷ 7 ∷ []) 2 (pos 1 ∷ pos 2 ∷ []) 10 }
    ensures other_count { NothingStands (IsDelta w32 (128 ∷ 1 ∷ 4 ∷ 5 ∷ 2 ∷ 2 ∷ 0 ∷ 0 ∷ 0 ∷ 0 ∷ []) 4) }
    ensures lengths { IsByteLengths three_lengths_bytes 3 ((97 ∷ []) ∷ (98 ∷ 98 ∷ []) ∷ [] ∷ []) 21 }
    ensures negative { NothingStands (IsByteLengths (128 ∷ 1 ∷ 4 ∷ 1 ∷ 1 ∷ []) 1) }
    ensures prefixes { IsPrefixed four_words_bytes 4 four_words 61 }
{}
