//! A dataset opened in its folder, and a call made on it.
//!
//! A call that reads shares the readers' lock, and removes nothing. One that changes the dataset has the folder's lock, and
//! removes what is not needed any more, at its opening and at its end, where no reader needs it.

ghost use Rattle.std.specs.Prelude.{◌≡◌, ◌++◌, List, false, true, codes, decimal, Ok, Err, OnOk, IfErr, MatchResult};
ghost use Rattle.std.specs.Io.KnownBytes.{Appends};
ghost use Rattle.bits.specs.Refusals.{RefusedOnly};
ghost use Rattle.answers.specs.Importing.{files_view};
ghost use Rattle.places.specs.Places.{StaysKnown, IsKeptFrom, InFolder};
ghost use Rattle.schema.specs.Values.{ValueTrees};
ghost use Rattle.manifest.specs.Groups.{Root};
ghost use Rattle.gather.specs.GatheredRows.{holds};
ghost use Rattle.table_commits.specs.Gathering.{AreGatheredFor};
ghost use Rattle.commands.specs.inner.Brought.{ChangesWith};
ghost use Rattle.answers.specs.Making.{lent_text};
ghost use Rattle.commands.specs.Opening.{OpensToRead, OpensToChange, MayCleanUp};
ghost use Rattle.commands.specs.Calls.{Answers, ChangesAsAsked, ChangesByRows, ChangesStore, ChangesDisk, RunsCalls, IsUnshown, TellsDone};
ghost use Rattle.commands.specs.Calls.{state_within, disk_within};
ghost use Rattle.table_state.specs.declared.standing.Core.{Core};

use crate::gathering::LineGatherer;
use crate::making::{Making, root_reason};
use crate::stopping::run_to_refusal;
use crate::tasks::{ask, bytes_at, change_in_style, found, run};
use crate::watched::Watched;
use crate::writers::writer_refusal;
use answers::{append_rows, print_done};
use bits::{R, Refusal};
use call_reasons::append_reason;
use dataset_words::{Change, Question, Task};
use disk::Disk;
use footer::WriteOptions;
use places::{Access, Explains, Places, Readers, Reason};
use std::alloc::Global;
use std::io::Write;
use store::Store;

/// The seconds for which a command that has made a change tries to keep readers out.
const CLEANING_SECONDS: u64 = 1;

/// What was read for a change before the folder is locked.
#[derive(Drop)]
pub(crate) enum Brought<'a> {
    /// The bytes of the files that the call names.
    Files(&'a [Vec<u8>]),
    /// The rows of an append, and the filter that no row may satisfy.
    Rows(LineGatherer<'a>, Option<&'a str>),
}

impl<S: Write + Clone + Drop> Making<'_, S> {
    /// Opens the dataset to read it, and prints what is asked.
    pub(crate) fn read<P: Places, W: Write, E: Write>(
        &self,
        places: &mut P,
        question: &Question<'_>,
        out: &mut W,
        err: &mut E,
        why: &mut Option<Reason>,
    ) -> R<()>
        ensures comes { InFolder (disk_within {D = P.Disk} {S = S}) (P.known places.old) (P.known places.new) self.now.call.now.folder.now
            (Answers (state_within P.Disk.state) self.now.call.now question.now (W.contents out.old) (W.contents out.new))
            (W.contents out.new ≡ W.contents out.old) result }
        ensures quiet { self.now.terminals.err ≡ false → E.contents err.new ≡ E.contents err.old }
    {
        let lock = self.share(places, err, why)?;
        let answered = self.answer_in_folder(places, question, out, err, why);
        drop(lock);
        answered
    }

    /// Shares the readers' lock, or that of the folder where there is none for readers.
    pub(crate) fn share<P: Places, E: Write>(
        &self,
        places: &mut P,
        err: &mut E,
        why: &mut Option<Reason>,
    ) -> R<P::Held>
        ensures refused { IfErr result (IsKeptFrom (P.known places.old) self.now.call.now.folder.now) }
        ensures same { StaysKnown (P.known places.old) (P.known places.new) }
        ensures quiet { self.now.terminals.err ≡ false → E.contents err.new ≡ E.contents err.old }
    {
        let (folder, patience) = (self.call.folder, self.patience());
        match places.share(self.alloc, folder, patience, err, why)? {
            Some(lock) => Ok(lock),
            None => places.lock(folder, Access::Reads, patience, err, why),
        }
    }

    /// Prints what is asked of the dataset in the folder, which is opened to read it.
    fn answer_in_folder<P: Places, W: Write, E: Write>(
        &self,
        places: &mut P,
        question: &Question<'_>,
        out: &mut W,
        err: &mut E,
        why: &mut Option<Reason>,
    ) -> R<()>
        ensures comes { InFolder (disk_within {D = P.Disk} {S = S}) (P.known places.old) (P.known places.new) self.now.call.now.folder.now
            (Answers (state_within P.Disk.state) self.now.call.now question.now (W.contents out.old) (W.contents out.new))
            (W.contents out.new ≡ W.contents out.old) result }
        ensures quiet { self.now.terminals.err ≡ false → E.contents err.new ≡ E.contents err.old }
    {
        let disk = self.take(places, false)?;
        let (disk, answered) = self.answer_on(disk, question, out, err, why);
        self.give(places, disk);
        answered
    }

    /// Prints what is asked of the dataset on a disk, which is opened to read it. The disk is handed back.
    fn answer_on<D: Disk, W: Write, E: Write>(
        &self,
        disk: D,
        question: &Question<'_>,
        out: &mut W,
        err: &mut E,
        why: &mut Option<Reason>,
    ) -> (D, R<()>)
        ensures comes { Answers D.state self.now.call.now question.now (W.contents out.old) (W.contents out.new) disk result.0 result.1 }
        ensures quiet { self.now.terminals.err ≡ false → E.contents err.new ≡ E.contents err.old }
    {
        match store::open_to_read(self.alloc, disk, self.call.options) {
            Ok(store) => {
                let mut store = store;
                let (alloc, texts) = (self.alloc, self.call.texts);
                let shows = self.terminals.shows_beside_output();
                let answered = ask(alloc, &mut store, question, texts, out, err, shows, why);
                (store.into_disk(), answered)
            }
            Err((disk, refusal)) => {
                *why = root_reason(&refusal);
                (disk, Err(refusal))
            }
        }
    }

    /// Locks the folder, opens the dataset and changes it.
    pub(crate) fn change<P: Places, W: Write, E: Write>(
        &self,
        places: &mut P,
        brought: Brought<'_>,
        out: &mut W,
        err: &mut E,
        why: &mut Option<Reason>,
    ) -> R<()>
        ensures comes { InFolder (disk_within {D = P.Disk} {S = S}) (P.known places.old) (P.known places.new) self.now.call.now.folder.now
            (ChangesDisk P.Disk.state self.now.call.now.options (ChangesWith P.Disk.state self.now.call.now brought.entry (W.contents out.old) (W.contents out.new))
            (W.contents out.old) (W.contents out.new)) (W.contents out.new ≡ W.contents out.old) result }
        ensures quiet { self.now.terminals.err ≡ false → E.contents err.new ≡ E.contents err.old }
    {
        let lock = places.lock(self.call.folder, Access::Writes, self.patience(), err, why)?;
        let made = self.change_in_folder(places, brought, out, why);
        drop(lock);
        made
    }

    /// Opens the dataset, in the locked folder, and changes it.
    fn change_in_folder<P: Places, W: Write>(
        &self,
        places: &mut P,
        brought: Brought<'_>,
        out: &mut W,
        why: &mut Option<Reason>,
    ) -> R<()>
        ensures comes { InFolder (disk_within {D = P.Disk} {S = S}) (P.known places.old) (P.known places.new) self.now.call.now.folder.now
            (ChangesDisk P.Disk.state self.now.call.now.options (ChangesWith P.Disk.state self.now.call.now brought.entry (W.contents out.old) (W.contents out.new))
            (W.contents out.old) (W.contents out.new)) (W.contents out.new ≡ W.contents out.old) result }
    {
        let disk = self.take(places, self.shows_disk())?;
        let (disk, made) = self.change_on(places, disk, brought, out, why);
        self.give(places, disk);
        made
    }

    /// Opens the dataset on a disk, in the locked folder, and changes it. The disk is handed back.
    fn change_on<P: Places, D: Explains, W: Write>(
        &self,
        places: &mut P,
        disk: Watched<D, S>,
        brought: Brought<'_>,
        out: &mut W,
        why: &mut Option<Reason>,
    ) -> (Watched<D, S>, R<()>)
        ensures comes { ChangesDisk D.state self.now.call.now.options (ChangesWith D.state self.now.call.now brought.entry (W.contents out.old) (W.contents out.new))
            (W.contents out.old) (W.contents out.new) disk result.0 result.1 }
        ensures same { StaysKnown (P.known places.old) (P.known places.new) }
    {
        match self.open(places, disk) {
            Ok(store) => {
                let mut store = store;
                let made = self.change_store(&mut store, brought, out, why);
                self.clean_up(places, &mut store);
                (store.into_disk(), made)
            }
            Err((disk, refusal)) => {
                *why = root_reason(&refusal);
                (disk, Err(refusal))
            }
        }
    }

    /// Changes the dataset with what was read before, and prints what came of it.
    fn change_store<D: Explains, W: Write>(
        &self,
        store: &mut Store<Watched<D, S>>,
        brought: Brought<'_>,
        out: &mut W,
        why: &mut Option<Reason>,
    ) -> R<()>
        ensures comes { ChangesWith D.state self.now.call.now brought.entry (W.contents out.old) (W.contents out.new) store.old store.new result }
    {
        match brought {
            Brought::Files(files) => self.change_by_files(store, files, out, why),
            Brought::Rows(rows, unless) => self.append_to(store, rows, unless, out, why),
        }
    }

    /// Changes the dataset with the bytes of the files that the call names, and prints what came of it.
    fn change_by_files<D: Explains, W: Write>(
        &self,
        store: &mut Store<Watched<D, S>>,
        files: &[Vec<u8>],
        out: &mut W,
        why: &mut Option<Reason>,
    ) -> R<()>
        ensures comes { ChangesStore D.state self.now.call.now self.now.call.now.task (files_view files.now)
            (W.contents out.old) (W.contents out.new) store.old store.new result }
    {
        match &self.call.task {
            Task::Create { .. } | Task::Look(_) | Task::Ask(_) => Ok(()),
            Task::Change(change) => self.make_change(store, change, files, out, why),
            Task::Run { stops, .. } => {
                let bytes = bytes_at(files, 0);
                run_calls(self.alloc, store, bytes, *stops, self.call.texts, out, why)
            }
        }
    }

    /// Makes a change of the dataset, and prints that it is done.
    fn make_change<D: Explains, W: Write>(
        &self,
        store: &mut Store<Watched<D, S>>,
        change: &Change<'_>,
        files: &[Vec<u8>],
        out: &mut W,
        why: &mut Option<Reason>,
    ) -> R<()>
        ensures comes { ChangesAsAsked D.state self.now.call.now change.now (files_view files.now) (W.contents out.old) (W.contents out.new)
            store.old store.new result }
    {
        let (alloc, texts) = (self.alloc, self.call.texts);
        let keeps = self.call.keeps_style;
        let mut at = None;
        let done = change_in_style(alloc, store, change, keeps, files, texts, why, &mut at);
        store.disk_mut().clear();
        if let (Some(place), Err(refusal)) = (at, &done) {
            self.name_file(place, refusal, why);
        }
        tell_done(done, out, why)
    }

    /// Appends rows to the dataset, and prints that it is done.
    fn append_to<D: Explains, W: Write>(
        &self,
        store: &mut Store<Watched<D, S>>,
        rows: LineGatherer<'_>,
        unless: Option<&str>,
        out: &mut W,
        why: &mut Option<Reason>,
    ) -> R<()>
        ensures comes { (root : Root) (given : List ValueTrees) → holds rows.entry.gathered given → AreGatheredFor root self.now.call.now.options rows.entry.gathered
            → ChangesByRows D.state self.now.call.now (lent_text unless.entry) root given (W.contents out.old) (W.contents out.new) store.old store.new result }
    {
        let (alloc, texts) = (self.alloc, self.call.texts);
        let (gathered, notes) = rows.into_parts(alloc);
        let done = append_rows(alloc, store, unless, gathered, texts);
        store.disk_mut().clear();
        if let Err(refusal) = &done {
            *why = found(append_reason(
                alloc,
                store.manifest(),
                store.options(),
                notes,
                unless,
                texts,
                refusal,
            ));
        }
        tell_done(done, out, why)
    }

    /// Opens the dataset on a disk to change it; it keeps what is replaced from then on. It is cleaned where no reader is at work, and
    /// there is a file for readers to lock then. Refused, the disk is handed back.
    fn open<P: Places, D: Disk>(&self, places: &mut P, disk: D) -> Result<Store<D>, (D, Refusal)>
        ensures opens { MatchResult result
            (λ store. (opened : Core D) × OpensToChange D.state disk self.now.call.now.options (Ok opened) × (store ≡ record opened { keeps = true }))
            (λ e. OpensToChange D.state disk self.now.call.now.options (Err e)) }
        ensures same { StaysKnown (P.known places.old) (P.known places.new) }
    {
        let (alloc, folder) = (self.alloc, self.call.folder);
        let readers = places.keep_out(alloc, folder, 0);
        let opened = open_beside(alloc, disk, self.call.options, &readers);
        if let (Readers::NoFile, Ok(_)) = (&readers, &opened) {
            places.make_lock(alloc, folder);
        }
        drop(readers);
        let mut store = opened?;
        store.keep_replaced();
        Ok(store)
    }

    /// Whether the screen shows what the disk reads and writes.
    fn shows_disk(&self) -> bool {
        match &self.call.task {
            Task::Change(Change::AddColumn { .. }) => false,
            Task::Change(_) => self.terminals.err,
            _ => false,
        }
    }

    /// Removes the files that are not needed any more, where no reader is at work; else they stay for the next command that
    /// changes the dataset.
    fn clean_up<P: Places, D: Disk>(&self, places: &mut P, store: &mut Store<D>)
        ensures cleans { MayCleanUp D.state store.old store.new }
        ensures same { StaysKnown (P.known places.old) (P.known places.new) }
    {
        let seconds = self.call.waits.unwrap_or(CLEANING_SECONDS);
        let seconds = seconds.min(CLEANING_SECONDS);
        let readers = places.keep_out(self.alloc, self.call.folder, seconds);
        match &readers {
            Readers::MayBe => {}
            Readers::NoFile | Readers::Out(_) => {
                // What could not be removed stays, too.
                let _ = store.clean_up(self.alloc);
            }
        }
        drop(readers);
    }
}

/// Opens the dataset on a disk; it is cleaned where no reader may be at work.
fn open_beside<D: Disk, L: Drop>(
    alloc: Global,
    disk: D,
    options: WriteOptions,
    readers: &Readers<L>,
) -> Result<Store<D>, (D, Refusal)>
    ensures opens { OpensToChange D.state disk options result }
{
    match readers {
        Readers::MayBe => store::open_to_read(alloc, disk, options),
        Readers::NoFile | Readers::Out(_) => store::open(alloc, disk, options),
    }
}

/// Makes the calls of a script on a store, all or up to the first that is refused.
fn run_calls<D: Disk, W: Write>(
    alloc: Global,
    store: &mut Store<D>,
    bytes: &[u8],
    stops: bool,
    texts: bool,
    out: &mut W,
    why: &mut Option<Reason>,
) -> R<()>
    ensures runs { RunsCalls D.state stops texts store.old store.new bytes.now (W.contents out.old) (W.contents out.new) result }
{
    if stops {
        run_to_refusal(alloc, store, bytes, texts, out, why)
    } else {
        run(alloc, store, bytes, texts, out, why)
    }
}

/// Prints `done N` of a change that is done, and passes all that was printed on. Refused as the change, and Device where that cannot
/// be done.
fn tell_done<W: Write>(done: R<u64>, out: &mut W, why: &mut Option<Reason>) -> R<()>
    ensures told { TellsDone done (W.contents out.old) (W.contents out.new) result }
{
    let told = print_rows_done(done?, out);
    if told.is_err() {
        *why = Some(Reason::Unprinted);
    }
    told
}

/// Prints `done N`, and passes all that was printed on. Refused Device where that cannot be done.
fn print_rows_done<W: Write>(rows: u64, out: &mut W) -> R<()>
    ensures told { OnOk result (Appends (W.contents out.old) (W.contents out.new) (codes "done " ++ decimal rows ++ codes "\n")) }
    ensures which { RefusedOnly (λ e. e ≡ Refusal.Device) result }
{
    print_done(rows, out)?;
    out.flush().map_err(writer_refusal)
}
