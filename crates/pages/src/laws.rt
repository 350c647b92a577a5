//! What holds of the definitions.

ghost use Rattle.std.specs.Prelude.{ℕ, Option, List, [], ◌∷◌, codes};
ghost use Rattle.bits.specs.Codec.{IsFunctional};
ghost use Rattle.schema.specs.declared.value.Repetition.TheVariants.{Optional, Repeated};
ghost use Rattle.schema.specs.Values.{ValueTree, bytes};
ghost use Rattle.schema.specs.Stripe.{Leaf};
ghost use Rattle.pages.specs.Page.{IsPage, dictionary};
ghost use Rattle.pages.specs.Chunk.{IsChunk};
ghost use Rattle.pages.specs.Writing.{StandsAsPage};
ghost use Rattle.pages.specs.Worked.{number_leaf, text_leaf, five_null_six, three_lists, page_of_version_1, page_of_version_2, page_of_texts, page_of_lists};
ghost use Rattle.pages.specs.Apart.{DictionaryIsNotRead, EntriesStandAlone, NoPageOfNoBytes};
ghost use Rattle.pages.specs.ShortPages.{ShortPagesAreWithinLimits};

use delta::{one_byte_list, one_prefixed_list};
use dictionary::one_list_of_values;
use metadata::one_page_header;

/// Skipped pages and dictionary pages are the same pages whatever dictionary the chunk has. Where a
/// data page stands, neither of them does, under any dictionary. Nothing is a page of no bytes.
pub fn pages_of_a_dictionary()
    ensures unread { DictionaryIsNotRead }
    ensures apart { EntriesStandAlone }
    ensures some_bytes { NoPageOfNoBytes }
{
    one_page_header();
}

/// A front of the bytes is at most one page of a chunk that has this dictionary, and holds at most one
/// list of this many entries as the pages of a chunk: also of bytes that nobody has read.
pub fn one_page()
    ensures page { (leaf : Leaf) (d : Option (List ValueTree)) → IsFunctional (IsPage leaf d) }
    ensures chunk { (leaf : Leaf) (n : ℕ) → IsFunctional (λ bytes. IsChunk leaf bytes n) }
{
    one_page_header();
    plain::one_list();
    plain::one_split_list();
    hybrid_rle::one_list();
    one_list_of_values();
    delta::one_list();
    one_byte_list();
    one_prefixed_list();
}

/// A page without a value of more than 16 MiB, its dictionary's page aside, is over no limit: also one that
/// nobody has read.
pub fn short_pages_are_within_limits()
    ensures { ShortPagesAreWithinLimits }
{
    one_page_header();
    hybrid_rle::one_list();
    delta::one_list();
}

/// Pages made by hand from the standard: 5, null and 6 of an OPTIONAL leaf as a page of version 1 and as
/// one of version 2, the texts a and b as a dictionary, and the rows [5, 6], [] and [7] of a REPEATED
/// leaf, with levels of both kinds.
#[tactic(auto, using(crate::proofs::Worked::version_1, crate::proofs::Worked::version_2, crate::proofs::Worked::two_texts, crate::proofs::Worked::lists))]
pub fn worked_examples()
    ensures version_1 { StandsAsPage (number_leaf Optional) five_null_six page_of_version_1 31 }
    ensures version_2 { StandsAsPage (number_leaf Optional) five_null_six page_of_version_2 32 }
    ensures dictionary { (d : Option (List ValueTree)) → IsPage text_leaf d page_of_texts (dictionary (bytes (codes "a") ∷ bytes (codes "b") ∷ [])) 23 }
    ensures lists { StandsAsPage (number_leaf Repeated) three_lists page_of_lists 43 }
{}
