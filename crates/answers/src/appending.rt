//! Rows that were gathered for a table, appended to it.

ghost use Rattle.std.specs.Prelude.{List};
ghost use Rattle.schema.specs.Values.{ValueTrees};
ghost use Rattle.footer.specs.declared.options.WriteOptions.{WriteOptions};
ghost use Rattle.manifest.specs.Groups.{Root};
ghost use Rattle.gather.specs.GatheredRows.{holds};
ghost use Rattle.table_commits.specs.Gathering.{AreGatheredFor};
ghost use Rattle.answers.specs.Appending.{AppendsRows};
ghost use Rattle.answers.specs.Making.{lent_text};

use crate::unless::append_unless;
use bits::R;
use disk::Disk;
use gather::Gathered;
use std::alloc::Global;
use store::Store;

/// Appends rows that were gathered for a table; where there is a filter, unless some row satisfies it: then it returns 0, and nothing
/// is appended. With `texts`, dates, times, timestamps and decimals are also read from their texts in the filter.
///
/// Refused as [`append_unless`], and as `Store::append_gathered`: Schema where the store has another table than the one for which
/// the rows were gathered, and then nothing is appended.
pub fn append_rows<D: Disk>(
    alloc: Global,
    store: &mut Store<D>,
    unless: Option<&str>,
    rows: Gathered<'_>,
    texts: bool,
) -> R<u64>
    ensures appends { (root : Root) (options : WriteOptions) (given : List ValueTrees) → holds rows.entry given → AreGatheredFor root options rows.entry
        → AppendsRows D.state texts root options given (lent_text unless.entry) store.old store.new result }
{
    match unless {
        Some(filter) => append_unless(alloc, store, filter, rows, texts),
        None => store.append_gathered(alloc, rows),
    }
}
