//! What an append's groups make of the table, once they are written, as the contract of a function that does nothing.

ghost use Rattle.table_commits.specs.Bringing.{AppendsAreReady};

use disk::Disk;

/// Where the groups of an append are written, its commit may be made, and the call asks for it; and a root that is too
/// heavy then is one of a table that weighs too much.
pub(crate) fn appends_are_ready<D: Disk>(disk: &D)
    ensures ready { AppendsAreReady D.state }
{
    let _ = disk;
}
