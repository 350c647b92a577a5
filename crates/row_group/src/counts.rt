//! Numbers of records that count, or that are places.

ghost use Rattle.std.specs.Prelude.{◌≡◌, ◌≢◌, ℕ, pos, ◌<ℤ◌, Option, MatchOption, IfOk, OnOk, IfErr, Err};
ghost use Rattle.bits.specs.Refusals.{OnFault, RefusedOnly};
ghost use Rattle.pages.specs.Limits.{IsOfPages};
ghost use Rattle.row_group.specs.RecordFaults.{IsCountFault};

use bits::{R, Refusal};

/// The number, if it is not negative.
pub fn natural(number: i64) -> Option<usize>
    ensures { MatchOption result ((n : ℕ) → number ≡ pos n → ⊥) (λ n. number ≡ pos n) }
{
    if number < 0 {
        return None;
    }
    Some(number as usize)
}

/// A count of at most this many. Refused Page for a negative number, and Limit for more than `most`.
pub fn count_of(number: i64, most: i64) -> R<usize>
    ensures count_is { IfOk result (λ n. number ≡ pos n) }
    ensures within_limits { OnOk result (most <ℤ number → ⊥) }
    ensures only { OnFault result ((n : ℕ) → number ≡ pos n → ⊥) }
    ensures limit { result ≡ Err Refusal.Limit → most <ℤ number }
    ensures cause { IfErr result (IsCountFault number most) }
    ensures which { RefusedOnly IsOfPages result }
{
    if number > most {
        return Err(Refusal::Limit);
    }
    let Some(count) = natural(number) else {
        return Err(Refusal::Page);
    };
    Ok(count)
}
