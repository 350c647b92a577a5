//! Rows that are appended unless some row satisfies a filter.

ghost use Rattle.std.specs.Prelude.{◌≡◌, List, Some};
ghost use Rattle.schema.specs.Values.{ValueTrees};
ghost use Rattle.footer.specs.declared.options.WriteOptions.{WriteOptions};
ghost use Rattle.manifest.specs.Groups.{Root};
ghost use Rattle.gather.specs.GatheredRows.{holds};
ghost use Rattle.table_commits.specs.Gathering.{AreGatheredFor};
ghost use Rattle.answers.specs.Appending.{AppendsRows};
ghost use Rattle.answers.specs.Unless.{CountsByText, MakesUnless, AsksImport};

use bits::R;
use disk::Disk;
use gather::Gathered;
use jsonrows::filter_from_as;
use std::alloc::Global;
use store::Store;

/// Appends rows that were gathered for a table, unless some row of the store's table satisfies a filter: then it returns 0, and
/// nothing is appended. With `texts`, dates, times, timestamps and decimals are also read from their texts in the filter. Refused as
/// `filter_from_as` refuses the filter, as `Store::count`, and then as `Store::append_gathered`.
pub fn append_unless<D: Disk>(
    alloc: Global,
    store: &mut Store<D>,
    filter: &str,
    rows: Gathered<'_>,
    texts: bool,
) -> R<u64>
    ensures appends { (root : Root) (options : WriteOptions) (given : List ValueTrees) → holds rows.entry given → AreGatheredFor root options rows.entry
        → AppendsRows D.state texts root options given (Some filter.now) store.old store.new result }
{
    let count = count_rows(alloc, store, filter, texts)?;
    if count > 0 {
        return Ok(0);
    }
    store.append_gathered(alloc, rows)
}

/// Appends the rows of a Parquet file, unless some row of the table satisfies a filter: then it returns 0, and nothing is
/// appended. With `texts`, dates, times, timestamps and decimals are also read from their texts in the filter. Refused as
/// `filter_from_as` refuses the filter, as `Store::count`, and then as `Store::import`.
pub fn import_unless<D: Disk>(
    alloc: Global,
    store: &mut Store<D>,
    filter: &str,
    bytes: &[u8],
    texts: bool,
) -> R<u64>
    ensures makes { MakesUnless D.state texts store.old store.new filter.now (AsksImport bytes.now) (λ fs e. ⊥) result }
{
    let count = count_rows(alloc, store, filter, texts)?;
    if count > 0 {
        return Ok(0);
    }
    store.import(alloc, bytes)
}

/// How many rows satisfy the filter of a text. Refused as `filter_from_as` refuses the text, and then as `Store::count`.
pub fn count_rows<D: Disk>(alloc: Global, store: &mut Store<D>, filter: &str, texts: bool) -> R<u64>
    ensures counts { CountsByText D.state texts store.old store.new filter.now result }
    ensures honest { (D.state store.old.vault.disk).honest → (D.state store.new.vault.disk).honest }
{
    let terms = filter_from_as(alloc, store.schema(), filter, texts)?;
    store.count(alloc, terms.as_slice())
}
