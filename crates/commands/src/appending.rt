//! Rows of lines that are appended: they are read while nobody is kept from the dataset.

ghost use Rattle.std.specs.Prelude.{◌≡◌, ⊤, false, IfOk, IfErr};
ghost use Rattle.manifest.specs.Groups.{root_of};
ghost use Rattle.commands.specs.FoundTable.{FindsTable};
ghost use Rattle.places.specs.Blocks.{AreKnown};
ghost use Rattle.commands.specs.FileLines.{AreRefusedOf};
ghost use Rattle.places.specs.Places.{InFolder};
ghost use Rattle.answers.specs.Making.{lent_text};
ghost use Rattle.commands.specs.Calls.{AppendsLines, state_within, disk_within};
ghost use Rattle.commands.specs.inner.GatheredRows.{HasReadAll};

use crate::gathering::{LineGatherer, gathered_lines};
use crate::making::{Making, root_reason};
use crate::opening::Brought;
use bits::R;
use disk::Disk;
use manifest::Manifest;
use places::{BlockReader, Places, Reason};
use std::io::Write;

impl<S: Write + Clone + Drop> Making<'_, S> {
    /// Appends the rows of the lines of the file at a path; where there is a filter, unless some row satisfies it. The file is opened
    /// first. Its lines are read over the table that is found then; the folder is locked, and the dataset opened to change it, when all
    /// are read.
    ///
    /// Refused Device where the file cannot be read, which is noted; as the opening of the dataset; for the first line that is no row,
    /// as [`gathered_lines`]; and then as [`append_rows`](answers::append_rows).
    pub(crate) fn append<P: Places, W: Write, E: Write>(
        &self,
        places: &mut P,
        path: &str,
        unless: Option<&str>,
        out: &mut W,
        err: &mut E,
        why: &mut Option<Reason>,
    ) -> R<()>
        ensures comes { AppendsLines S P.Disk.state P.known (P.known places.old) (P.known places.new) self.now.call.now path.now (lent_text unless.entry)
            (W.contents out.old) (W.contents out.new) result }
        ensures quiet { self.now.terminals.err ≡ false → E.contents err.new ≡ E.contents err.old }
    {
        let mut file = places.reader(self.alloc, path, self.notes)?;
        let table = self.find_table(places, err, why)?;
        let rows = self.gather(&table, &mut file, err, why)?;
        drop(file);
        self.change(places, Brought::Rows(rows, unless), out, err, why)
    }

    /// The rows of the lines of a file, gathered for a table.
    fn gather<'a, B: BlockReader, E: Write>(
        &self,
        table: &'a Manifest,
        file: &mut B,
        err: &mut E,
        why: &mut Option<Reason>,
    ) -> R<LineGatherer<'a>>
        ensures stands { IfOk result (HasReadAll self.now.call.now.texts (root_of table.now) self.now.call.now.options (B.left file.old)) }
        ensures which { IfErr result (AreRefusedOf (B.is_shut file.old) (AreKnown (B.left file.old)) self.now.call.now.texts (root_of table.now).schema) }
        ensures quiet { self.now.terminals.err ≡ false → E.contents err.new ≡ E.contents err.old }
    {
        let (alloc, texts, shows) = (self.alloc, self.call.texts, self.terminals.err);
        let (options, notes) = (&self.call.options, self.notes);
        gathered_lines(alloc, table, options, texts, file, notes, err, shows, why)
    }

    /// What the root says of the dataset in the folder, which is opened to read it, and not used any more then.
    fn find_table<P: Places, E: Write>(
        &self,
        places: &mut P,
        err: &mut E,
        why: &mut Option<Reason>,
    ) -> R<Manifest>
        ensures finds { InFolder (disk_within {D = P.Disk} {S = S}) (P.known places.old) (P.known places.new) self.now.call.now.folder.now
            (FindsTable (state_within P.Disk.state) self.now.call.now.options) ⊤ result }
        ensures quiet { self.now.terminals.err ≡ false → E.contents err.new ≡ E.contents err.old }
    {
        let lock = self.share(places, err, why)?;
        let found = self.find_table_in_folder(places, why);
        drop(lock);
        found
    }

    /// The same, where the folder is shared.
    fn find_table_in_folder<P: Places>(
        &self,
        places: &mut P,
        why: &mut Option<Reason>,
    ) -> R<Manifest>
        ensures finds { InFolder (disk_within {D = P.Disk} {S = S}) (P.known places.old) (P.known places.new) self.now.call.now.folder.now
            (FindsTable (state_within P.Disk.state) self.now.call.now.options) ⊤ result }
    {
        let disk = self.take(places, false)?;
        let (disk, found) = self.find_table_on(disk, why);
        self.give(places, disk);
        found
    }

    /// The same of a dataset on a disk, which is handed back.
    fn find_table_on<D: Disk>(&self, disk: D, why: &mut Option<Reason>) -> (D, R<Manifest>)
        ensures finds { FindsTable D.state self.now.call.now.options disk result.0 result.1 }
    {
        match store::open_to_read(self.alloc, disk, self.call.options) {
            Ok(store) => {
                let table = store.description();
                (store.into_disk(), table)
            }
            Err((disk, refusal)) => {
                *why = root_reason(&refusal);
                (disk, Err(refusal))
            }
        }
    }
}
