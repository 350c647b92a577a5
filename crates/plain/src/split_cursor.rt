//! Split values one by one.

ghost use Rattle.std.specs.Prelude.{◌≡◌, ◌⊎◌, ◌+◌, ◌≤◌, All, length, IfOk};
ghost use Rattle.std.specs.Option.{ForSome};
ghost use Rattle.bits.specs.Refusals.{OnFault, RefusedOnly, LimitJustWhere};
ghost use Rattle.bits.specs.Codec.{NothingStands};
ghost use Rattle.schema.specs.Borrowed.{value_ref_view};
ghost use Rattle.schema.specs.Values.{null};
ghost use Rattle.plain.specs.Plain.{IsOfKind};
ghost use Rattle.plain.specs.Split.{IsSplit, IsSplitReadOver};
ghost use Rattle.plain.specs.ValuesFrom.{size_at, end_from, greatest_end};

use crate::cursor::value_at;
use crate::split_reading::{size_of_kind, split_decode};
use bits::{R, Refusal};
use schema::{Kind, ValueRef};
use std::alloc::Global;

/// Split values of one physical type, to be taken one by one. Their bytes lie apart: it holds them joined, in one
/// buffer, and borrows each value from there.
#[derive(Debug, Drop)]
pub struct SplitValues {
    kind: Kind,
    text: Vec<u8>,
    /// Where the next value stands.
    at: usize,
    left: usize,
    /// Where the value stands that was taken last.
    taken: Option<usize>,
    /// The values that are left are all there.
    ghost there: { end_from kind left at text.items ≤ greatest_end kind text.items },
    /// The value that was taken last is there too.
    ghost taken_there: { ForSome taken (λ index. index + size_at kind index text.items ≤ greatest_end kind text.items) },
}

impl SplitValues {
    ghost use Rattle.plain.specs.SplitLeft.{values_left, last_taken, Advances};

    /// The first `n` values of the type, none of which is taken, and how many bytes they take. Bytes after them are
    /// ignored.
    ///
    /// Refused as by [`split_values`](crate::split_values). Takes one pass, and asks for room once, for bytes that are
    /// there.
    pub fn new(alloc: Global, kind: Kind, bytes: &[u8], n: usize) -> R<(SplitValues, usize)>
        ensures stands { IfOk result (λ x. IsSplit kind n bytes.now (values_left x.0) x.1) }
        ensures count { IfOk result (λ x. length (values_left x.0) ≡ n) }
        ensures of_kind { IfOk result (λ x. All (IsOfKind kind) (values_left x.0)) }
        ensures none_taken { IfOk result (λ x. last_taken x.0 ≡ null) }
        ensures within { IfOk result (λ x. x.1 ≤ length bytes.now) }
        ensures only { OnFault result (NothingStands (IsSplit kind n bytes.now)) }
        ensures which { RefusedOnly (λ e. (e ≡ Refusal.Truncated) ⊎ (e ≡ Refusal.Value) ⊎ (e ≡ Refusal.Limit)) result }
        ensures limit { LimitJustWhere (IsSplitReadOver kind bytes.now n) result }
    {
        match size_of_kind(kind) {
            None => Err(Refusal::Value),
            Some(k) => {
                let (text, used) = split_decode(alloc, k, bytes, n)?;
                let values = SplitValues {
                    kind,
                    text,
                    at: 0,
                    left: n,
                    taken: None,
                };
                Ok((values, used))
            }
        }
    }

    /// Takes the next value and returns whether there was one. From then on it is [`value`](SplitValues::value).
    #[inline(always)]
    pub fn advance(&mut self) -> bool
        ensures { Advances self.old self.new result }
    {
        if self.left == 0 {
            return false;
        }
        let (_, size) = value_at(self.kind, &self.text, self.at);
        self.taken = Some(self.at);
        self.at += size;
        self.left -= 1;
        true
    }

    /// The value that was taken last; before the first one, null.
    #[inline(always)]
    pub fn value(&self) -> ValueRef<'_>
        ensures { value_ref_view result ≡ last_taken self.now }
    {
        match self.taken {
            None => ValueRef::Null,
            Some(index) => value_at(self.kind, &self.text, index).0,
        }
    }
}
