//! How many rows may still come.

ghost use Rattle.std.specs.Prelude.{◌≡◌, ℕ, List, Some, length, true};
ghost use Rattle.schema.specs.Values.{ValueTrees};
ghost use Rattle.answers.specs.QueryFile.{first_of};
ghost use Rattle.answers.specs.inner.Fetched.{fewer};

/// How many rows are taken at most.
pub fn most_of(limit: Option<u64>) -> u64
    ensures { (most : ℕ) → limit ≡ Some most → result ≡ most }
{
    match limit {
        Some(limit) => limit,
        None => u64::MAX,
    }
}

/// Whether no more rows may come.
pub fn is_used_up(left: Option<u64>) -> bool
    ensures { result ≡ true → left ≡ Some 0 }
{
    match left {
        Some(rows) => rows == 0,
        None => false,
    }
}

/// How many more rows there may be after so many, where there is a limit.
pub fn fewer(limit: Option<u64>, count: u64) -> Option<u64>
    ensures { result ≡ fewer limit count }
{
    match limit {
        Some(limit) => Some(limit.saturating_sub(count)),
        None => None,
    }
}

/// How many of so many rows are taken, where there is a limit.
pub fn taken_of(limit: Option<u64>, count: u64) -> u64
    ensures { (rows : List ValueTrees) → count ≡ length rows → result ≡ length (first_of limit rows) }
{
    match limit {
        Some(limit) => { if limit < count { limit } else { count } }
        None => count,
    }
}
