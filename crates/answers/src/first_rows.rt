//! The first rows of a query.

ghost use Rattle.std.specs.Prelude.{◌≡◌, option_map};
ghost use Rattle.std.specs.Io.KnownBytes.{Appends};
ghost use Rattle.table.specs.Views.{names_view};
ghost use Rattle.answers.specs.Querying.{Reads};
ghost use Rattle.answers.specs.First.{first_lines};

use crate::querying::{filter_of, print_selected};
use bits::R;
use disk::Disk;
use reports::Progress;
use std::alloc::Global;
use std::io::{Write, sink};
use store::Store;

/// Prints the first `limit` of the rows that satisfy a filter, a line each, in table order: objects of the columns of these
/// names, or of all, with `texts` as [`print_rows`](crate::print_rows) does. No group after theirs is read.
///
/// Refused as [`print_rows`](crate::print_rows) is.
pub fn print_first_rows<D: Disk, W: Write>(
    alloc: Global,
    store: &mut Store<D>,
    filter: Option<&str>,
    columns: Option<&[String]>,
    limit: u64,
    texts: bool,
    out: &mut W,
) -> R<()>
    ensures prints { Reads D.state texts store.old store.new (option_map (λ t. t.now) filter.entry)
        (λ terms table. Appends (W.contents out.old) (W.contents out.new) (first_lines texts limit terms (names_view columns.entry) table))
        (W.contents out.new ≡ W.contents out.old) result }
{
    let terms = filter_of(alloc, store, filter, texts)?;
    let mut unseen = Progress::new(alloc, "printed", None, false);
    print_selected(
        alloc,
        store,
        terms.as_slice(),
        columns,
        Some(limit),
        texts,
        out,
        &mut sink(),
        &mut unseen,
    )
}
