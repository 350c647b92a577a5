//! Counters that stay at the greatest u64.

ghost use Rattle.std.specs.Prelude.{◌≡◌};
ghost use Rattle.disk.specs.State.{IsOneMore};
ghost use Rattle.disk.specs.Calls.{CountsFailure};

use crate::fault::Fault;

pub fn one_more(count: u64) -> u64
    ensures { IsOneMore count result }
{
    count.saturating_add(1)
}

/// The result as it is; where it is Failed, one failure more is counted.
pub fn counted<T>(failures: &mut u64, answer: Result<T, Fault>) -> Result<T, Fault>
    ensures same { result ≡ answer }
    ensures counts { CountsFailure result failures.old failures.new }
{
    if let Err(Fault::Failed) = answer {
        *failures = one_more(*failures);
    }
    answer
}
