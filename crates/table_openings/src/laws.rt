//! What the parts of a call make of it, as contracts of functions that do nothing.

ghost use Rattle.table_commits.specs.Keeping.{NewFilesAreFree};
ghost use Rattle.table_state.specs.Paths.{PathsAreApart, PathsAreApartBothWays};
ghost use Rattle.table_commits.specs.Weighing.{HeavyRootsAreTooMuch, PlansAreTooMuch};
ghost use Rattle.table_commits.specs.Acting.{CommitsAct, RefusalsAct, AppendsAsk};

use disk::Disk;

/// A commit call acts, by what it wrote and how its commit ended; and so does one that is refused after it wrote files.
pub(crate) fn parts_make_calls<D: Disk>(disk: &D)
    ensures commits { CommitsAct D.state }
    ensures refusals { RefusalsAct D.state }
    ensures appends { AppendsAsk }
{
    let _ = disk;
}

/// Part files of other keys or numbers have other paths, none is at one of the root's two names, and none of all these
/// is on the way to another one.
pub fn paths_are_apart()
    ensures apart { PathsAreApart }
    ensures both_ways { PathsAreApartBothWays }
{}

/// A store writes a part file under the number that it gives next (`put_part`, which alone puts files), so at a path where no file
/// stands that the present root names, nor one that was replaced since the opening, nor one that another part file was written to.
pub fn new_files_are_free<D: Disk>(disk: &D)
    ensures { NewFilesAreFree D.state }
{
    let _ = disk;
}

/// Where the record of a root is too heavy to be written, a root of its table is too much.
pub fn heavy_roots_are_too_much()
    ensures { HeavyRootsAreTooMuch }
{}

/// Where the root of a planned commit is too heavy to be written, a root of its table is too much.
pub(crate) fn plans_are_too_much<D: Disk>(disk: &D)
    ensures { PlansAreTooMuch D.state }
{
    let _ = disk;
}
