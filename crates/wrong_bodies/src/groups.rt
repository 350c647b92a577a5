//! Filters and keys.

ghost use Rattle.std.specs.Prelude.{◌≡◌, ◌↔◌, IfOk, IsTrue, map};
ghost use Rattle.bits.specs.Refusals.{OnFault, RefusedOnly};
ghost use Rattle.schema.specs.Keys.{places_of, key_columns_view};
ghost use Rattle.schema.specs.Views.{key_view, rows_view};
ghost use Rattle.statistics.specs.Bounds.{known_of};
ghost use Rattle.filter.specs.RuledOut.{RuledOut};
ghost use Rattle.filter.specs.Test.{tests_in};
ghost use Rattle.partition.specs.Splitting.{HaveKeys, IsSplit, key_rows_view};

use bits::{R, Refusal};
use filter::Filter;
use partition::{KeyRows, split_by_key};
use schema::{Key, KeyColumn, Row};
use statistics::GroupStats;
use std::alloc::Global;

/// [`Filter::ruled_out`].
pub fn is_ruled_out(filter: &Filter, keys: &[KeyColumn], key: &Key, known: &GroupStats) -> bool
    ensures { IsTrue result ↔ RuledOut (tests_in filter.now) (places_of (key_columns_view keys.now)) (key_view key.now) (known_of known.now) }
{
    filter.ruled_out(keys, key, known)
}

/// [`split_by_key`].
pub fn rows_by_key(alloc: Global, columns: &[KeyColumn], rows: &[Row]) -> R<Vec<KeyRows>>
    ensures stands { IfOk result (λ split. IsSplit (key_columns_view columns.now) (rows_view rows.now) (map key_rows_view split.items)) }
    ensures only { OnFault result (HaveKeys (key_columns_view columns.now) (rows_view rows.now) → ⊥) }
    ensures which { RefusedOnly (λ e. e ≡ Refusal.Key) result }
{
    let split = split_by_key(alloc, columns, rows)?;
    Ok(split)
}
