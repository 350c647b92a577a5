//! Dictionaries, and their pages.

ghost use Rattle.std.specs.Prelude.{◌≡◌, ◌∷◌, [], ℕ, ◌+◌, ◌≤◌, ◌<◌, ◌⊎◌, List, All, length, map, slice_get, vec_len, Some, IfOk, OnOk, OnErr};
ghost use Rattle.std.specs.Option.{option_map};
ghost use Rattle.bits.specs.Refusals.{OnFault, RefusedOnly, LimitJustWhere};
ghost use Rattle.bits.specs.Codec.{NothingStands, Appends};
ghost use Rattle.schema.specs.Values.{view};
ghost use Rattle.schema.specs.Borrowed.{value_ref_view};
ghost use Rattle.plain.specs.Plain.{IsOfKind, IsPlain, HasZeroPadding, IsReadOver, IsWriteOver, plain_size};
ghost use Rattle.dictionary.specs.Entries.{entries_of, indexes_of, AreEntriesAt};
ghost use Rattle.dictionary.specs.IndexPages.{AreIndexed};

use crate::reading::decode_indexes;
use bits::{R, Refusal};
use schema::{Kind, Value, ValueRef};
use std::alloc::Global;

/// The different values of a chunk, and the indexes of the values that they were built from.
#[derive(Debug, Drop)]
pub struct Dictionary {
    pub(crate) entries: Vec<Value>,
    /// The index of each value that the dictionary was built from; none in a dictionary that was read.
    pub(crate) indexes: Vec<u32>,
}

impl Dictionary {
    /// The entries, in the order of their indexes.
    pub fn entries(&self) -> &[Value]
        ensures { map view result.now ≡ entries_of self.now }
    {
        self.entries.as_slice()
    }

    /// The index of each value that the dictionary was built from, in their order; none where it was
    /// read from bytes.
    pub fn indexes(&self) -> &[u32]
        ensures { result.now ≡ indexes_of self.now }
    {
        self.indexes.as_slice()
    }

    /// The entry at an index; None past the end. Takes no memory.
    pub fn lookup(&self, index: u32) -> Option<&Value>
        ensures { option_map (λ v. view v.now) result ≡ slice_get (entries_of self.now) index }
    {
        self.entries.as_slice().get(index as usize)
    }

    /// The dictionary whose `n` entries stand at the front of a dictionary page's body, and how many
    /// bytes they take: PLAIN values of the leaf's type. Bytes after them are left.
    ///
    /// Refused as [`plain::decode`] is: Limit exactly when one of the entries is announced with more
    /// than 16 MiB and those before it stand; else Truncated only where no `n` values stand there.
    pub fn read(alloc: Global, kind: Kind, bytes: &[u8], n: usize) -> R<(Dictionary, usize)>
        ensures stands { IfOk result (λ x. IsPlain kind n bytes.now (entries_of x.0) x.1) }
        ensures count { IfOk result (λ x. length (entries_of x.0) ≡ n) }
        ensures of_kind { IfOk result (λ x. All (IsOfKind kind) (entries_of x.0)) }
        ensures no_indexes { IfOk result (λ x. indexes_of x.0 ≡ []) }
        ensures within { IfOk result (λ x. x.1 ≤ length bytes.now) }
        ensures only { OnFault result (NothingStands (IsPlain kind n bytes.now)) }
        ensures which { RefusedOnly (λ e. (e ≡ Refusal.Truncated) ⊎ (e ≡ Refusal.Limit)) result }
        ensures limit { LimitJustWhere (IsReadOver kind bytes.now n) result }
    {
        let (entries, used) = plain::decode(alloc, kind, bytes, n)?;
        let dictionary = Dictionary {
            entries,
            indexes: Vec::new(alloc),
        };
        Ok((dictionary, used))
    }

    /// Writes the entries at the end of `out` as PLAIN values of the leaf's type, as [`read`](Dictionary::read)
    /// reads them: the body of a dictionary page.
    ///
    /// Refused Value exactly when an entry is not of the type, and Limit exactly when all are and one
    /// has more than 16 MiB. On a refusal `out` is unchanged.
    pub fn write(&self, kind: Kind, out: &mut Vec<u8>) -> R<()>
        ensures stands { let seen = entries_of self.now in
            OnOk result (Appends (λ bytes. IsPlain kind (length seen) bytes seen) (plain_size kind seen) out.old.items out.new.items) }
        ensures size { OnOk result (length out.new.items ≡ length out.old.items + plain_size kind (entries_of self.now)) }
        ensures padding { let seen = entries_of self.now in
            OnOk result (Appends (HasZeroPadding kind (length seen)) (plain_size kind seen) out.old.items out.new.items) }
        ensures only { let seen = entries_of self.now in OnFault result ((bytes : List ℕ) (used : ℕ) → IsPlain kind (length seen) bytes seen used → ⊥) }
        ensures unfit { OnFault result (All (IsOfKind kind) (entries_of self.now) → ⊥) }
        ensures which { RefusedOnly (λ e. (e ≡ Refusal.Value) ⊎ (e ≡ Refusal.Limit)) result }
        ensures limit { LimitJustWhere (IsWriteOver kind (entries_of self.now)) result }
        ensures unchanged { OnErr result (out.new.items ≡ out.old.items) }
    {
        plain::encode(kind, self.entries.as_slice(), out)
    }

    /// The entries at the indexes, borrowed: no bytes are copied.
    ///
    /// Refused Value exactly when an index is past the end.
    pub fn values_of<'a>(&'a self, alloc: Global, indexes: &[u32]) -> R<Vec<ValueRef<'a>>>
        ensures stands { IfOk result (λ values. AreEntriesAt (entries_of self.now) indexes.now (map value_ref_view values.items)) }
        ensures count { IfOk result (λ values. vec_len values ≡ length indexes.now) }
        ensures only { OnFault result (All (λ i. i < length (entries_of self.now)) indexes.now → ⊥) }
        ensures which { RefusedOnly (λ e. e ≡ Refusal.Value) result }
    {
        let mut values = Vec::with_capacity(alloc, indexes.len())?;
        for index in indexes {
            match self.lookup(*index) {
                Some(value) => values.push(ValueRef::of(value))?,
                None => return Err(Refusal::Value),
            }
        }
        Ok(values)
    }

    /// The first `n` values of a page of indexes into this dictionary, borrowed from it, and how many
    /// bytes they take. Refused as [`decode_indexes`] is.
    pub fn decode_refs<'a>(
        &'a self,
        alloc: Global,
        bytes: &[u8],
        n: usize,
    ) -> R<(Vec<ValueRef<'a>>, usize)>
        ensures stands { IfOk result (λ x. AreIndexed (entries_of self.now) bytes.now n (map value_ref_view x.0.items) x.1) }
        ensures count { IfOk result (λ x. vec_len x.0 ≡ n) }
        ensures within { IfOk result (λ x. x.1 ≤ length bytes.now) }
        ensures only { OnFault result (NothingStands (AreIndexed (entries_of self.now) bytes.now n)) }
        ensures which { RefusedOnly (λ e. (e ≡ Refusal.Truncated) ⊎ (e ≡ Refusal.Thrift) ⊎ (e ≡ Refusal.Value)) result }
    {
        let (indexes, used) = decode_indexes(alloc, self.entries.len(), bytes, n)?;
        let values = self.values_of(alloc, &indexes)?;
        Ok((values, used))
    }
}
