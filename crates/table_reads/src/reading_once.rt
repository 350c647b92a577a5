//! What a whole query reads.

ghost use Rattle.table_reads.specs.Passing.{QueriesReadOnce, FetchesFollow};

use disk::Disk;

/// Over a query none of whose fetches was refused, each needed chunk is read at most once.
pub fn queries_read_once()
    ensures { QueriesReadOnce }
{}

/// A fetch that was not refused is the first of a query's fetches, where the others begin with the cursor that it leaves.
pub fn fetches_follow<D: Disk>(disk: &D)
    ensures { FetchesFollow D.state }
{
    let _ = disk;
}
