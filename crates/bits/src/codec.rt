//! What every encoding of a list of values promises.

ghost use Rattle.std.specs.Prelude.{◌≡◌, ℕ, ◌≤◌, ◌⊎◌, List, map, length, vec_len, IfOk, OnOk, OnErr};
ghost use Rattle.bits.specs.Refusals.{OnFault, RefusedOnly, LimitJustWhere, IsOfValues};
ghost use Rattle.bits.specs.Codec.{NothingStands, IsFunctional, AppendsValues};

use crate::refusal::{R, Refusal};
use std::alloc::Global;

/// An encoding of a list of values as bytes. The law of an implementation is its relation
/// `stands`: the first `used` of the bytes stand for these n values, whatever follows them.
pub trait ValueCodec {
    type Value;

    /// What a contract sees of a value.
    ghost Shown: { Type 0 };

    ghost shown: { Self.Value → Shown };

    /// The first `used` bytes stand for these n values.
    ghost stands: { Self → ℕ → List ℕ → List Shown → ℕ → Type 0 };

    /// Bytes, for n values, that are over a limit.
    ghost reads_over: { Self → List ℕ → ℕ → Type 0 };

    /// Values that are over a limit.
    ghost writes_over: { Self → List Shown → Type 0 };

    /// How many bytes the values take at most.
    ghost most: { Self → List Shown → ℕ };

    /// The first `n` values, and how many bytes they take, which the bytes have. Refused Truncated,
    /// Thrift and Value only where no `n` values stand there, and Limit exactly when the bytes are
    /// over a limit.
    fn decode(&self, alloc: Global, bytes: &[u8], n: usize) -> R<(Vec<Self::Value>, usize)>
        ensures stands { IfOk result (λ x. stands self.now n bytes.now (map shown x.0.items) x.1) }
        ensures count { IfOk result (λ x. vec_len x.0 ≡ n) }
        ensures within { IfOk result (λ x. x.1 ≤ length bytes.now) }
        ensures only { OnFault result (NothingStands (stands self.now n bytes.now)) }
        ensures which { RefusedOnly IsOfValues result }
        ensures limit { LimitJustWhere (reads_over self.now bytes.now n) result };

    /// Writes the values at the end of `out`. Refused Value only where no bytes stand for them, and
    /// Limit exactly when they are over a limit; then `out` is unchanged.
    fn encode(&self, values: &[Self::Value], out: &mut Vec<u8>) -> R<()>
        ensures stands { let seen = map shown values.now in
            OnOk result (AppendsValues (stands self.now) (most self.now seen) seen out.old.items out.new.items) }
        ensures only { let seen = map shown values.now in OnFault result ((bytes : List ℕ) (used : ℕ) → stands self.now (length seen) bytes seen used → ⊥) }
        ensures which { RefusedOnly (λ e. (e ≡ Refusal.Value) ⊎ (e ≡ Refusal.Limit)) result }
        ensures limit { LimitJustWhere (writes_over self.now (map shown values.now)) result }
        ensures unchanged { OnErr result (out.new.items ≡ out.old.items) };

    /// The law that a prefix of the bytes stands for at most one list of n values.
    fn one_meaning(&self)
        ensures { (n : ℕ) → IsFunctional (stands self.now n) };
}
