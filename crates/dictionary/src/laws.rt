//! What holds of the definitions.

ghost use Rattle.std.specs.Prelude.{ℕ, List, [], ◌∷◌};
ghost use Rattle.bits.specs.Codec.{NothingStands, IsFunctional};
ghost use Rattle.schema.specs.declared.value.Kind.TheVariants.{ByteArray};
ghost use Rattle.schema.specs.Values.{ValueTree, bytes};
ghost use Rattle.plain.specs.Plain.{IsPlain};
ghost use Rattle.dictionary.specs.Entries.{IsIndexed, AtMostOneDictionary};
ghost use Rattle.dictionary.specs.IndexPages.{IsIndexPage, AreIndexed};

/// A front of the bytes stands for at most one list of n indexes into a dictionary of some size.
pub fn one_list()
    ensures { (size n : ℕ) → IsFunctional (λ bytes. IsIndexPage size bytes n) }
{}

/// A front of the bytes stands for at most one list of n values of a dictionary.
pub fn one_list_of_values()
    ensures { (entries : List ValueTree) (n : ℕ) → IsFunctional (λ bytes. AreIndexed entries bytes n) }
{}

/// A list of values has at most one list of entries, and at most one list of indexes.
pub fn one_dictionary()
    ensures { AtMostOneDictionary }
{}

/// The page of a dictionary of a and b; a, b, a over it; an index past its end; a three times in no
/// bits; no first entry; a width of 33 bits, and no width; the entries and indexes of b, a, b.
pub fn worked_examples()
    ensures page { IsPlain ByteArray 2 (1 ∷ 0 ∷ 0 ∷ 0 ∷ 97 ∷ 1 ∷ 0 ∷ 0 ∷ 0 ∷ 98 ∷ []) (bytes (97 ∷ []) ∷ bytes (98 ∷ []) ∷ []) 10 }
    ensures three { AreIndexed (bytes (97 ∷ []) ∷ bytes (98 ∷ []) ∷ []) (1 ∷ 3 ∷ 2 ∷ []) 3 (bytes (97 ∷ []) ∷ bytes (98 ∷ []) ∷ bytes (97 ∷ []) ∷ []) 3 }
    ensures past_the_end { NothingStands (IsIndexPage 1 (1 ∷ 3 ∷ 2 ∷ []) 3) }
    ensures no_bits { AreIndexed (bytes (97 ∷ []) ∷ []) (0 ∷ []) 3 (bytes (97 ∷ []) ∷ bytes (97 ∷ []) ∷ bytes (97 ∷ []) ∷ []) 1 }
    ensures no_entry { NothingStands (IsIndexPage 0 (0 ∷ []) 1) }
    ensures none { IsIndexPage 0 (0 ∷ []) 0 [] 1 }
    ensures too_wide { NothingStands (IsIndexPage 1 (33 ∷ 6 ∷ 0 ∷ 0 ∷ 0 ∷ 0 ∷ 0 ∷ []) 3) }
    ensures no_width { NothingStands (IsIndexPage 1 [] 0) }
    ensures built { IsIndexed (bytes (98 ∷ []) ∷ bytes (97 ∷ []) ∷ bytes (98 ∷ []) ∷ []) (bytes (98 ∷ []) ∷ bytes (97 ∷ []) ∷ []) (0 ∷ 1 ∷ 0 ∷ []) }
{}
