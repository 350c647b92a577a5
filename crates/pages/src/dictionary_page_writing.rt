//! From dictionaries to their pages.

ghost use Rattle.std.specs.Prelude.{◌≡◌, ◌⊎◌, ◌<◌, ◌≤◌, ◌+◌, All, length, take, OnOk, OnErr, Err};
ghost use Rattle.std.specs.List.{Any};
ghost use Rattle.bits.specs.Refusals.{OnFault, RefusedOnly};
ghost use Rattle.bits.specs.Codec.{Appends};
ghost use Rattle.plain.specs.Plain.{IsOfKind, IsTooLong};
ghost use Rattle.dictionary.specs.Entries.{entries_of};
ghost use Rattle.pages.specs.Headers.{IsWrittenDictionary};
ghost use Rattle.pages.specs.Writing.{dictionary_weight, IsDictionaryTooMuch, StandsAsDictionary};

use crate::header_writing::put_dictionary_header;
use bits::{R, Refusal};
use dictionary::Dictionary;
use metadata::page_header_again;
use plain::encoded_size;
use schema::Kind;
use std::alloc::Global;

/// Writes the page of a dictionary at the end of `out`: a page header, and the entries as PLAIN values of
/// the leaf's type. (parquet-format, Encodings.md, "Dictionary Encoding".) It is the first page of its chunk.
/// It takes at most 1,024 bytes, 32 an entry, and the bytes of its byte values.
///
/// Refused Value exactly when an entry is not of the type. Refused Limit only where an entry has more than
/// 16 MiB, or where the page weighs more than [`MOST_BYTES_OF_PAGE`](crate::MOST_BYTES_OF_PAGE). After a
/// refusal `out` is unchanged. Takes two passes over the entries, and one over their bytes.
pub fn write_dictionary_page(
    alloc: Global,
    kind: Kind,
    dictionary: &Dictionary,
    out: &mut Vec<u8>,
) -> R<()>
    ensures stands { let vs = entries_of dictionary.now in
        OnOk result (Appends (StandsAsDictionary kind vs) (dictionary_weight vs) out.old.items out.new.items) }
    ensures written { let vs = entries_of dictionary.now in
        OnOk result (Appends (IsWrittenDictionary kind vs) (dictionary_weight vs) out.old.items out.new.items) }
    ensures within_limits { OnOk result (Any IsTooLong (entries_of dictionary.now) → ⊥) }
    ensures size { OnOk result (length out.new.items ≤ length out.old.items + 2147484671) }
    ensures only { OnFault result (All (IsOfKind kind) (entries_of dictionary.now) → ⊥) }
    ensures limit { result ≡ Err Refusal.Limit → IsDictionaryTooMuch (entries_of dictionary.now) }
    ensures which { RefusedOnly (λ e. (e ≡ Refusal.Value) ⊎ (e ≡ Refusal.Limit)) result }
    ensures unchanged { OnErr result (out.new.items ≡ out.old.items) }
{
    let kept = out.len();
    let done = put_dictionary_page(alloc, kind, dictionary, out);
    if done.is_err() {
        out.truncate(kept);
    }
    done
}

/// Writes the page; where it is refused, its header may stand there.
fn put_dictionary_page(
    alloc: Global,
    kind: Kind,
    dictionary: &Dictionary,
    out: &mut Vec<u8>,
) -> R<()>
    ensures written { let vs = entries_of dictionary.now in
        OnOk result (Appends (IsWrittenDictionary kind vs) (dictionary_weight vs) out.old.items out.new.items) }
    ensures within_limits { OnOk result (Any IsTooLong (entries_of dictionary.now) → ⊥) }
    ensures size { OnOk result (length out.new.items ≤ length out.old.items + 2147484671) }
    ensures only { OnFault result (All (IsOfKind kind) (entries_of dictionary.now) → ⊥) }
    ensures limit { result ≡ Err Refusal.Limit → IsDictionaryTooMuch (entries_of dictionary.now) }
    ensures which { RefusedOnly (λ e. (e ≡ Refusal.Value) ⊎ (e ≡ Refusal.Limit)) result }
    ensures front { OnErr result (take (length out.old.items) out.new.items ≡ out.old.items) }
{
    page_header_again();
    let size = encoded_size(kind, dictionary.entries())?;
    put_dictionary_header(alloc, size, dictionary.entries().len(), out)?;
    dictionary.write(kind, out)
}
