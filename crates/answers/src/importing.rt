//! Several Parquet files, imported in one commit.

ghost use Rattle.std.specs.Prelude.{◌≡◌, [], List};
ghost use Rattle.schema.specs.Values.{ValueTrees};
ghost use Rattle.partition.specs.Splitting.{HaveKeys};
ghost use Rattle.gather.specs.GatheredRows.{holds, schema_of, columns_of};
ghost use Rattle.table_commits.specs.Gathering.{KeepsTable};
ghost use Rattle.answers.specs.Importing.{files_view, ImportsFiles, ImportsUnless};
ghost use Rattle.answers.specs.inner.GatheredFiles.{GathersFiles, TakesFile};

use crate::unless::count_rows;
use bits::{R, Refusal};
use disk::Disk;
use gather::Gathered;
use std::alloc::Global;
use store::{Store, begin_gathering, gather_file};

/// Appends the rows of Parquet files, one file after another, in one commit, and returns how many rows there are. No row is made;
/// the columns of all rows are held until they are written.
///
/// Refused as `Store::import` refuses the first file that it refuses, before anything is written; then `refused` gets the file's
/// place among the files. Refused as `Store::append_gathered`. Where it is refused, none of the files comes in.
pub fn import_files<D: Disk>(
    alloc: Global,
    store: &mut Store<D>,
    files: &[Vec<u8>],
    refused: &mut Option<usize>,
) -> R<u64>
    ensures imports { ImportsFiles D.state store.old store.new (files_view files.now) result }
{
    let table = store.description()?;
    let mut gathered = begin_gathering(alloc, &table, store.options())?;
    gather_files(alloc, &mut gathered, files, refused)?;
    store.append_gathered(alloc, gathered)
}

/// Appends the rows of Parquet files as [`import_files`] does, unless some row of the table satisfies a filter: then it returns
/// 0, and nothing is appended. With `texts`, dates, times, timestamps and decimals are also read from their texts in the filter.
/// Refused as `filter_from_as` refuses the filter, as `Store::count`, and then as [`import_files`].
pub fn import_files_unless<D: Disk>(
    alloc: Global,
    store: &mut Store<D>,
    filter: &str,
    files: &[Vec<u8>],
    texts: bool,
    refused: &mut Option<usize>,
) -> R<u64>
    ensures imports { ImportsUnless D.state texts store.old store.new filter.now (files_view files.now) result }
{
    let count = count_rows(alloc, store, filter, texts)?;
    if count > 0 {
        return Ok(0);
    }
    import_files(alloc, store, files, refused)
}

/// Gathers the rows of files, one file after another. `refused` gets the place of the first that is refused.
fn gather_files(
    alloc: Global,
    gathered: &mut Gathered<'_>,
    files: &[Vec<u8>],
    refused: &mut Option<usize>,
) -> R<()>
    ensures gathers { holds gathered.old [] → GathersFiles (schema_of gathered.old) (columns_of gathered.old) (files_view files.now) gathered.new result }
    ensures table { KeepsTable gathered.old gathered.new }
{
    for (place, file) in files.iter().enumerate() {
        gather_at(alloc, gathered, file.as_slice(), place, refused)?;
    }
    Ok(())
}

/// Gathers the rows of the file at a place among some. Refused as [`gather_next`]; then `refused` gets the place.
fn gather_at(
    alloc: Global,
    gathered: &mut Gathered<'_>,
    bytes: &[u8],
    place: usize,
    refused: &mut Option<usize>,
) -> R<()>
    ensures gathers { (before : List ValueTrees) → holds gathered.old before → HaveKeys (columns_of gathered.old) before
        → TakesFile (schema_of gathered.old) (columns_of gathered.old) before bytes.now gathered.new result }
    ensures table { KeepsTable gathered.old gathered.new }
{
    match gather_next(alloc, gathered, bytes) {
        Ok(()) => Ok(()),
        Err(refusal) => {
            *refused = Some(place);
            Err(refusal)
        }
    }
}

/// Gathers the rows of a file too. Refused as [`gather_file`]; and Key where the key of a row can name no folder.
fn gather_next(alloc: Global, gathered: &mut Gathered<'_>, bytes: &[u8]) -> R<()>
    ensures gathers { (before : List ValueTrees) → holds gathered.old before → HaveKeys (columns_of gathered.old) before
        → TakesFile (schema_of gathered.old) (columns_of gathered.old) before bytes.now gathered.new result }
    ensures table { KeepsTable gathered.old gathered.new }
{
    gather_file(alloc, gathered, bytes)?;
    if gathered.fault().is_some() {
        return Err(Refusal::Key);
    }
    Ok(())
}
