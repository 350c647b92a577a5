//! A call on the dataset in a folder, made.

ghost use Rattle.std.specs.Prelude.{◌≡◌, ◌∷◌, ◌++◌, [], ℕ, Option, false, Some, None, Ok, Err, MatchOption, OnOk, IfOk, IfErr, IsTrue, slice_index_or};
ghost use Rattle.std.specs.Io.KnownBytes.{Appends};
ghost use Rattle.serde_json.specs.Data.{Items, array};
ghost use Rattle.serde_json.specs.Written.{compact_text};
ghost use Rattle.bits.specs.Refusals.{RefusedMemoryOnly};
ghost use Rattle.schema.specs.Shape.{Fields};
ghost use Rattle.vault.specs.Calls.{LeavesAll};
ghost use Rattle.manifest.specs.Groups.{root_of};
ghost use Rattle.upkeep.specs.Intact.{AreHeld};
ghost use Rattle.jsonrows.specs.SchemaPrinted.{PrintsFields};
ghost use Rattle.answers.specs.Importing.{files_view};
ghost use Rattle.places.specs.Places.{StaysKnown, StaysBut, AreFilesAt, IsKeptFrom, AreKeptAmong, InFolder};
ghost use Rattle.commands.specs.Calls.{MayBeOfFile, PrintsOfFile, OnFolder, OnFiles, OnFilesBy, ComesUnfiltered, ComesFiltered, CallComes};
ghost use Rattle.commands.specs.Calls.{GivesCall, GivesNoFile, IsPassedOn};
ghost use Rattle.commands.specs.Calls.{named_paths, append_of, filter_path, state_within, disk_within};
ghost use Rattle.commands.specs.Looking.{LinesFit, Finds, LooksOnly, LooksInFolder};
ghost use Rattle.answers.specs.Querying.{IsSchemaOfFile};
ghost use Rattle.answers.specs.Making.{lent_text};
ghost use Rattle.commands.specs.Tasks.{lent_texts};

use crate::filter_file::{filter_file, with_filter};
use crate::giving::KeptFiles;
use crate::later_reason::Refused;
use crate::looking::{Checking, print_check, print_rows_fit, print_survey};
use crate::opening::Brought;
use crate::remarks::{print_doubled_note, print_schema_fits, print_schema_notes};
use crate::tally::Tally;
use crate::tasks::{bytes_at, found};
use crate::watched::Watched;
use answers::{print_schema_of, text_of};
use bits::{R, Refusal};
use call_reasons::{file_reason, filter_text_reason, is_of_bytes, no_text_reason};
use dataset_words::{Call, Change, Datasets, FileSink, Look, Question, Task};
use disk::Disk;
use manifest::Manifest;
use places::{Access, Notes, Patience, Places, Reason, print_reason, refusal_of};
use reports::Terminals;
use std::alloc::Global;
use std::io::{self, Write};
use upkeep::described;
use vault::Vault;

/// Datasets in folders, wherever these are.
#[derive(Drop)]
pub struct Folders<P: Places + Drop, S: Write + Clone + Drop> {
    pub places: P,
    /// Standard error, once more: where it is a terminal, a disk shows on it what it reads and writes.
    pub screen: S,
    /// How many bytes the groups of one of several files take at most ([`PART_BYTES`](answers::PART_BYTES)).
    pub part_bytes: usize,
}

impl<P: Places + Drop, S: Write + Clone + Drop, W: Write, E: Write> Datasets<W, E>
    for Folders<P, S> {
    ghost prints = { λ old new call before after. CallComes S P.Disk.state P.known (P.known old.places) (P.known new.places) call before after (Ok tt) };

    ghost refuses = { λ old new call before after e. CallComes S P.Disk.state P.known (P.known old.places) (P.known new.places) call before after (Err e) };

    ghost gives = { λ old new call was is. (most : Option ℕ) × GivesCall S P.Disk.state (P.known old.places) (P.known new.places) call most was is (Ok tt) };

    ghost withholds = { λ old new call e. GivesNoFile S P.Disk.state (P.known old.places) (P.known new.places) call e };

    /// The file that a call names is read first. Then the folder is locked, the dataset is opened, the JSON is looked at,
    /// and the call is made; `create` looks at its JSON before it makes the folder. Refused Device where a file, the folder,
    /// its lock or the output cannot be used, Script for bytes that are no text, and as the store and the readers of JSON
    /// refuse. What was printed before a refusal stays printed. Where there is more to say than the refusal, `err` gets a
    /// line. What is shown on the way is gone by then.
    fn make(
        &mut self,
        alloc: Global,
        call: &Call<'_>,
        out: &mut W,
        err: &mut E,
        terminals: Terminals,
    ) -> R<()> {
        self.make_call(alloc, call, out, err, terminals)
    }

    /// The rows of a query as a file. The folder is shared and the dataset opened as for [`make`](Folders::make), and refused as
    /// there; Limit for options out of range, and for rows that are too much for a file. Where there is more to say than the
    /// refusal, `err` gets a line. What is shown on the way is gone by then.
    fn file_of(
        &mut self,
        alloc: Global,
        call: &Call<'_>,
        err: &mut E,
        terminals: Terminals,
    ) -> R<Vec<u8>> {
        let mut kept = KeptFiles {
            files: Vec::new(alloc),
        };
        self.give_files(alloc, call, None, &mut kept, err, terminals)?;
        kept.only()
    }

    /// The rows of a query as files. Refused as [`file_of`](Folders::file_of), and as the sink refuses a file.
    fn files_of<K: FileSink>(
        &mut self,
        alloc: Global,
        call: &Call<'_>,
        sink: &mut K,
        err: &mut E,
        terminals: Terminals,
    ) -> R<()> {
        self.give_files(alloc, call, Some(self.part_bytes), sink, err, terminals)
    }
}

impl<P: Places + Drop, S: Write + Clone + Drop> Folders<P, S> {
    /// Makes a call, and prints what it is to print. Where it is refused and there is more to say than the refusal, `err` gets a line.
    fn make_call<W: Write, E: Write>(
        &mut self,
        alloc: Global,
        call: &Call<'_>,
        out: &mut W,
        err: &mut E,
        terminals: Terminals,
    ) -> R<()>
        ensures comes { CallComes S P.Disk.state P.known (P.known self.old.places) (P.known self.new.places) call.now
            (W.contents out.old) (W.contents out.new) result }
        ensures quiet { terminals.err ≡ false → OnOk result (E.contents err.new ≡ E.contents err.old) }
    {
        let notes = Notes::new(alloc)?;
        let making = Making {
            screen: &self.screen,
            alloc,
            call,
            terminals,
            notes: &notes,
        };
        let mut why = None;
        let made = making.make_filtered(&mut self.places, out, err, &mut why);
        let flushed = out.flush();
        let passed = passed_on(made, &flushed);
        making.explain(&self.places, &passed, &flushed, why, err);
        passed
    }

    /// Gives a sink the files of what a call asks for, one where `most` is none. Where it is refused and there is more to say than
    /// the refusal, `err` gets a line, unless the sink refused it.
    fn give_files<K: FileSink, E: Write>(
        &mut self,
        alloc: Global,
        call: &Call<'_>,
        most: Option<usize>,
        sink: &mut K,
        err: &mut E,
        terminals: Terminals,
    ) -> R<()>
        ensures gives { GivesCall S P.Disk.state (P.known self.old.places) (P.known self.new.places) call.now most (K.taken sink.old) (K.taken sink.new) result }
        ensures quiet { terminals.err ≡ false → OnOk result (E.contents err.new ≡ E.contents err.old) }
    {
        let notes = Notes::new(alloc)?;
        let making = Making {
            screen: &self.screen,
            alloc,
            call,
            terminals,
            notes: &notes,
        };
        let mut why = None;
        let given = making.give_filtered(&mut self.places, most, sink, err, &mut why);
        match given {
            Ok(()) => Ok(()),
            Err(refusal) => {
                let given = Err(refusal);
                let is_said = sink.has_refused();
                making.explain_unless(is_said, &self.places, &given, why, err);
                given
            }
        }
    }
}

/// What comes of a call, where `flushed` is what came of writing the last of the output.
fn passed_on(made: R<()>, flushed: &io::Result<()>) -> R<()>
    ensures { IsPassedOn made result }
{
    match (made, flushed) {
        (Ok(()), Err(error)) => Err(refusal_of(*error)),
        (made, _) => made,
    }
}

/// A call that is to be made.
#[derive(Drop)]
pub(crate) struct Making<'a, S> {
    pub(crate) screen: &'a S,
    pub(crate) alloc: Global,
    pub(crate) call: &'a Call<'a>,
    pub(crate) terminals: Terminals,
    pub(crate) notes: &'a Notes,
}

impl<S: Write + Clone + Drop> Making<'_, S> {
    /// Makes the call, with the filter that its words have or name a file of.
    fn make_filtered<P: Places, W: Write, E: Write>(
        &self,
        places: &mut P,
        out: &mut W,
        err: &mut E,
        why: &mut Option<Reason>,
    ) -> R<()>
        ensures comes { ComesFiltered S P.Disk.state P.known (P.known places.old) (P.known places.new) self.now.call.now
            (W.contents out.old) (W.contents out.new) result }
        ensures quiet { self.now.terminals.err ≡ false → E.contents err.new ≡ E.contents err.old }
    {
        match filter_file(self.call) {
            Some(path) => self.make_with_filter(places, path, out, err, why),
            None => self.make(places, out, err, why),
        }
    }

    /// Makes the call with the filter that is the text of a file. Refused Device where that cannot be read, Script where it
    /// is no text, and then as [`make`](Making::make).
    fn make_with_filter<P: Places, W: Write, E: Write>(
        &self,
        places: &mut P,
        path: &str,
        out: &mut W,
        err: &mut E,
        why: &mut Option<Reason>,
    ) -> R<()>
        requires named { filter_path self.now.call.now.task ≡ Some path.now }
        ensures comes { ComesFiltered S P.Disk.state P.known (P.known places.old) (P.known places.new) self.now.call.now
            (W.contents out.old) (W.contents out.new) result }
        ensures quiet { self.now.terminals.err ≡ false → E.contents err.new ≡ E.contents err.old }
    {
        let bytes = places.bytes(self.alloc, path, self.notes)?;
        match with_filter(self.alloc, self.call, bytes.as_slice()) {
            Ok(call) => self.with_call(&call).make(places, out, err, why),
            Err(refusal) => {
                *why = found(filter_text_reason(self.alloc, path, bytes.as_slice()));
                Err(refusal)
            }
        }
    }

    /// Another call that is to be made in the same way.
    pub(crate) fn with_call<'b>(&'b self, call: &'b Call<'b>) -> Making<'b, S>
        ensures call { result.call.now ≡ call.now }
        ensures terminals { result.terminals ≡ self.now.terminals }
    {
        Making {
            screen: self.screen,
            alloc: self.alloc,
            call,
            terminals: self.terminals,
            notes: self.notes,
        }
    }

    /// Says why the call is refused, as [`explain`](Making::explain), unless another says it.
    fn explain_unless<P: Places, E: Write>(
        &self,
        is_said: bool,
        places: &P,
        made: &R<()>,
        why: Option<Reason>,
        err: &mut E,
    )
        ensures quiet { OnOk made.now (E.contents err.new ≡ E.contents err.old) }
    {
        if !is_said {
            self.explain(places, made, &Ok(()), why, err);
        }
    }

    /// Says why the call is refused, if it is and there is more to say than the refusal: what was found while it was made, or what can
    /// be found when it is over.
    fn explain<P: Places, E: Write>(
        &self,
        places: &P,
        made: &R<()>,
        flushed: &io::Result<()>,
        why: Option<Reason>,
        err: &mut E,
    )
        ensures quiet { OnOk made.now (E.contents err.new ≡ E.contents err.old) }
    {
        let Err(refusal) = made else {
            return;
        };
        let why = match why {
            Some(reason) => Some(reason),
            None => self.later_reason(places, refusal, flushed),
        };
        if let Some(reason) = &why {
            let file = self.named_file(places).unwrap_or("");
            print_reason(reason, self.call.folder, file, err);
        }
    }

    /// Why the call is refused, as far as that can be found when it is over, by what was noted; none where there is no memory for it.
    fn later_reason<P: Places>(
        &self,
        places: &P,
        refusal: &Refusal,
        flushed: &io::Result<()>,
    ) -> Option<Reason> {
        let refused = Refused {
            places,
            alloc: self.alloc,
            call: self.call,
            notes: self.notes,
        };
        found(refused.reason(refusal, flushed))
    }

    /// Makes the call, and gives a writer what it is to print. Where it is refused, `why` may get the reason.
    fn make<P: Places, W: Write, E: Write>(
        &self,
        places: &mut P,
        out: &mut W,
        err: &mut E,
        why: &mut Option<Reason>,
    ) -> R<()>
        ensures comes { ComesUnfiltered S P.Disk.state P.known (P.known places.old) (P.known places.new) self.now.call.now
            (W.contents out.old) (W.contents out.new) result }
        ensures quiet { self.now.terminals.err ≡ false → E.contents err.new ≡ E.contents err.old }
    {
        if self.is_of_file(places) {
            self.make_of_file(places, out, why)
        } else {
            self.make_on_files(places, out, err, why)
        }
    }

    /// Whether a file may be named in place of the folder, and there is no folder.
    fn is_of_file<P: Places>(&self, places: &P) -> bool
        ensures task { IsTrue result → MayBeOfFile self.now.call.now.task }
        ensures none { IsTrue result → (P.known places.now).is_folder self.now.call.now.folder.now false }
    {
        may_be_of_file(&self.call.task) && self.has_no_folder(places)
    }

    /// Whether there is no folder where the call names one.
    fn has_no_folder<P: Places>(&self, places: &P) -> bool
        ensures { IsTrue result → (P.known places.now).is_folder self.now.call.now.folder.now false }
    {
        match places.is_folder(self.call.folder) {
            true => false,
            false => true,
        }
    }

    /// Prints what is asked of a file that is named in place of the folder.
    fn make_of_file<P: Places, W: Write>(
        &self,
        places: &mut P,
        out: &mut W,
        why: &mut Option<Reason>,
    ) -> R<()>
        requires task { MayBeOfFile self.now.call.now.task }
        ensures prints { PrintsOfFile (P.known places.old) self.now.call.now.folder.now self.now.call.now.task (W.contents out.old) (W.contents out.new) result }
        ensures same { StaysKnown (P.known places.old) (P.known places.new) }
    {
        let (alloc, path) = (self.alloc, self.call.folder);
        match &self.call.task {
            Task::Ask(_) => {
                let bytes = places.ends(alloc, path, self.notes)?;
                print_file_columns(alloc, bytes.as_slice(), out, why)
            }
            _ => {
                let bytes = places.bytes(alloc, path, self.notes)?;
                print_schema_fits(alloc, bytes.as_slice(), out, why)
            }
        }
    }

    /// Reads the files that the call names, and makes it.
    fn make_on_files<P: Places, W: Write, E: Write>(
        &self,
        places: &mut P,
        out: &mut W,
        err: &mut E,
        why: &mut Option<Reason>,
    ) -> R<()>
        ensures comes { OnFilesBy S P.Disk.state P.known (P.known places.old) (P.known places.new) self.now.call.now (append_of self.now.call.now.task)
            (W.contents out.old) (W.contents out.new) result }
        ensures quiet { self.now.terminals.err ≡ false → E.contents err.new ≡ E.contents err.old }
    {
        match append_of(&self.call.task) {
            Some(asked) => self.append(places, asked.path, asked.unless, out, err, why),
            None => self.make_with_files(places, out, err, why),
        }
    }

    /// Reads the files that the call names, whole, and makes it.
    fn make_with_files<P: Places, W: Write, E: Write>(
        &self,
        places: &mut P,
        out: &mut W,
        err: &mut E,
        why: &mut Option<Reason>,
    ) -> R<()>
        ensures comes { OnFiles S P.Disk.state (P.known places.old) (P.known places.new) self.now.call.now (W.contents out.old) (W.contents out.new) result }
        ensures quiet { self.now.terminals.err ≡ false → E.contents err.new ≡ E.contents err.old }
    {
        let files = self.named_bytes(places)?;
        self.make_on_folder(places, files.as_slice(), out, err, why)
    }

    /// Makes the call on the folder, with the bytes of the files that it names.
    fn make_on_folder<P: Places, W: Write, E: Write>(
        &self,
        places: &mut P,
        files: &[Vec<u8>],
        out: &mut W,
        err: &mut E,
        why: &mut Option<Reason>,
    ) -> R<()>
        ensures comes { OnFolder S P.Disk.state (P.known places.old) (P.known places.new) self.now.call.now self.now.call.now.task (files_view files.now)
            (W.contents out.old) (W.contents out.new) result }
        ensures quiet { self.now.terminals.err ≡ false → E.contents err.new ≡ E.contents err.old }
    {
        let bytes = bytes_at(files, 0);
        match &self.call.task {
            Task::Create { keys, .. } => {
                self.make_table(places, bytes, keys.as_slice(), err, why)
            }
            Task::Ask(question) => self.read(places, question, out, err, why),
            Task::Change(_) => self.change(places, Brought::Files(files), out, err, why),
            Task::Run { .. } => self.change(places, Brought::Files(files), out, err, why),
            Task::Look(look) => self.look(places, look, bytes, out, err, why),
        }
    }

    /// The bytes of the files that the call names, one of each.
    fn named_bytes<P: Places>(&self, places: &mut P) -> R<Vec<Vec<u8>>>
        ensures read { IfOk result (λ files. AreFilesAt (P.known places.old) (named_paths self.now.call.now.task) (files_view files.items)) }
        ensures refused { IfErr result (AreKeptAmong (P.known places.old) (named_paths self.now.call.now.task)) }
        ensures same { StaysKnown (P.known places.old) (P.known places.new) }
    {
        let paths = named_paths(self.alloc, &self.call.task)?;
        self.bytes_at(places, paths.as_slice())
    }

    /// The bytes of the files at these paths, one of each.
    fn bytes_at<P: Places>(&self, places: &mut P, paths: &[&str]) -> R<Vec<Vec<u8>>>
        ensures read { IfOk result (λ files. AreFilesAt (P.known places.old) (lent_texts paths.now) (files_view files.items)) }
        ensures refused { IfErr result (AreKeptAmong (P.known places.old) (lent_texts paths.now)) }
        ensures same { StaysKnown (P.known places.old) (P.known places.new) }
    {
        let mut files = Vec::new(self.alloc);
        for place in 0..paths.len() {
            let path = path_at(paths, place);
            let bytes = places.bytes(self.alloc, path, self.notes)?;
            files.push(bytes)?;
        }
        Ok(files)
    }

    /// The file that the call names, or the first of several, if it names one.
    fn named_file<P: Places>(&self, places: &P) -> Option<&str> {
        if self.is_of_file(places) {
            Some(self.call.folder)
        } else {
            file_named(&self.call.task)
        }
    }

    /// How long the call waits for another one.
    pub(crate) fn patience(&self) -> Patience
        ensures { result.shows ≡ self.now.terminals.err }
    {
        Patience {
            seconds: self.call.waits,
            shows: self.terminals.err,
        }
    }

    /// Takes the disk of the folder. Where `shows` says so, the screen shows what it reads and writes.
    pub(crate) fn take<P: Places>(&self, places: &mut P, shows: bool) -> R<Watched<P::Disk, S>>
        ensures taken { IfOk result (λ disk. (P.known places.old).folder self.now.call.now.folder.now disk.disk) }
        ensures others { StaysBut self.now.call.now.folder.now (P.known places.old) (P.known places.new) }
        ensures refused { IfErr result (λ e. IsKeptFrom (P.known places.old) self.now.call.now.folder.now e × StaysKnown (P.known places.old) (P.known places.new)) }
    {
        let folder = self.call.folder;
        let screen = self.screen.clone()?;
        let notes = self.notes.shared()?;
        let name = String::from_str(self.alloc, folder)?;
        let tally = Tally::new(self.alloc, screen, shows);
        let disk = places.take(self.alloc, folder)?;
        Ok(Watched::new(disk, tally, notes, name))
    }

    /// Gives the disk of the folder back, once nothing of it is on the screen.
    pub(crate) fn give<P: Places>(&self, places: &mut P, disk: Watched<P::Disk, S>)
        ensures given { (P.known places.new).folder self.now.call.now.folder.now disk.disk }
        ensures others { StaysBut self.now.call.now.folder.now (P.known places.old) (P.known places.new) }
    {
        places.give(self.call.folder, disk.into_inner());
    }

    /// Looks at the dataset, which is not opened, once the folder is locked.
    fn look<P: Places, W: Write, E: Write>(
        &self,
        places: &mut P,
        look: &Look<'_>,
        bytes: &[u8],
        out: &mut W,
        err: &mut E,
        why: &mut Option<Reason>,
    ) -> R<()>
        ensures looks { LooksInFolder (state_within P.Disk.state) (disk_within {D = P.Disk} {S = S}) (P.known places.old) (P.known places.new)
            self.now.call.now.folder.now self.now.call.now.texts look.now bytes.now (W.contents out.old) (W.contents out.new) result }
        ensures quiet { self.now.terminals.err ≡ false → E.contents err.new ≡ E.contents err.old }
    {
        if self.has_no_folder(places) {
            *why = Some(Reason::NoFolder);
            Err(Refusal::Device)
        } else {
            self.look_alone(places, look, bytes, out, err, why)
        }
    }

    /// Looks at the dataset in the folder, once it is locked.
    fn look_alone<P: Places, W: Write, E: Write>(
        &self,
        places: &mut P,
        look: &Look<'_>,
        bytes: &[u8],
        out: &mut W,
        err: &mut E,
        why: &mut Option<Reason>,
    ) -> R<()>
        ensures looks { InFolder (disk_within {D = P.Disk} {S = S}) (P.known places.old) (P.known places.new) self.now.call.now.folder.now
            (LooksOnly (state_within P.Disk.state) self.now.call.now.texts look.now bytes.now (W.contents out.old) (W.contents out.new))
            (W.contents out.new ≡ W.contents out.old) result }
        ensures quiet { self.now.terminals.err ≡ false → E.contents err.new ≡ E.contents err.old }
    {
        let lock = places.lock(self.call.folder, Access::Reads, self.patience(), err, why)?;
        let looked = self.look_in_folder(places, look, bytes, out, err, why);
        drop(lock);
        looked
    }

    /// Looks at the dataset in the locked folder.
    fn look_in_folder<P: Places, W: Write, E: Write>(
        &self,
        places: &mut P,
        look: &Look<'_>,
        bytes: &[u8],
        out: &mut W,
        err: &mut E,
        why: &mut Option<Reason>,
    ) -> R<()>
        ensures looks { InFolder (disk_within {D = P.Disk} {S = S}) (P.known places.old) (P.known places.new) self.now.call.now.folder.now
            (LooksOnly (state_within P.Disk.state) self.now.call.now.texts look.now bytes.now (W.contents out.old) (W.contents out.new))
            (W.contents out.new ≡ W.contents out.old) result }
        ensures quiet { self.now.terminals.err ≡ false → E.contents err.new ≡ E.contents err.old }
    {
        let disk = self.take(places, false)?;
        let (disk, looked) = self.look_on(disk, look, bytes, out, err, why);
        self.give(places, disk);
        looked
    }

    /// Looks at the dataset on a disk, which is handed back.
    fn look_on<D: Disk, W: Write, E: Write>(
        &self,
        disk: D,
        look: &Look<'_>,
        bytes: &[u8],
        out: &mut W,
        err: &mut E,
        why: &mut Option<Reason>,
    ) -> (D, R<()>)
        ensures looks { LooksOnly D.state self.now.call.now.texts look.now bytes.now (W.contents out.old) (W.contents out.new) disk result.0 result.1 }
        ensures quiet { self.now.terminals.err ≡ false → E.contents err.new ≡ E.contents err.old }
    {
        let mut vault = Vault::start(disk);
        let looked = self.look_at_root(&mut vault, look, bytes, out, err, why);
        (vault.into_disk(), looked)
    }

    /// Looks at the dataset of the root that a disk has.
    fn look_at_root<D: Disk, W: Write, E: Write>(
        &self,
        vault: &mut Vault<D>,
        look: &Look<'_>,
        bytes: &[u8],
        out: &mut W,
        err: &mut E,
        why: &mut Option<Reason>,
    ) -> R<()>
        ensures looks { LooksOnly D.state self.now.call.now.texts look.now bytes.now (W.contents out.old) (W.contents out.new)
            vault.old.disk vault.new.disk result }
        ensures quiet { self.now.terminals.err ≡ false → E.contents err.new ≡ E.contents err.old }
    {
        match described(self.alloc, vault) {
            Ok(table) => self.look_at_table(vault, &table, look, bytes, out, err, why),
            Err(refusal) => {
                *why = root_reason(&refusal);
                Err(refusal)
            }
        }
    }

    /// Looks at the table that the root on a disk describes.
    fn look_at_table<D: Disk, W: Write, E: Write>(
        &self,
        vault: &mut Vault<D>,
        table: &Manifest,
        look: &Look<'_>,
        bytes: &[u8],
        out: &mut W,
        err: &mut E,
        why: &mut Option<Reason>,
    ) -> R<()>
        ensures leaves { (D.state vault.old.disk).honest → LeavesAll (D.state vault.old.disk) (D.state vault.new.disk) }
        ensures finds { (D.state vault.old.disk).honest → OnOk result (Finds self.now.call.now.texts look.now bytes.now (D.state vault.old.disk).seen
            (root_of table.now) (W.contents out.old) (W.contents out.new)) }
        ensures quiet { self.now.terminals.err ≡ false → E.contents err.new ≡ E.contents err.old }
    {
        match look {
            Look::Survey { min_rows, as_json } => {
                let (alloc, folder) = (self.alloc, self.call.folder);
                print_survey(alloc, vault, folder, table, *min_rows, *as_json, out)
            }
            Look::Files => self.look_at_files(vault, table, out),
            Look::Rows { rows } => self.look_at_rows(table, rows, bytes, out, err, why),
        }
    }

    /// Looks at the files of the table that the root on a disk describes.
    fn look_at_files<D: Disk, W: Write>(
        &self,
        vault: &mut Vault<D>,
        table: &Manifest,
        out: &mut W,
    ) -> R<()>
        ensures held { (D.state vault.old.disk).honest → OnOk result (AreHeld (D.state vault.old.disk).seen (root_of table.now)) }
        ensures leaves { (D.state vault.old.disk).honest → LeavesAll (D.state vault.old.disk) (D.state vault.new.disk) }
    {
        let (alloc, folder, shows) = (self.alloc, self.call.folder, self.terminals.err);
        let screen = self.screen.clone()?;
        let mut checking = Checking::new(alloc, table, screen, shows);
        print_check(alloc, vault, folder, table, &mut checking, out)?;
        print_schema_notes(alloc, table.schema(), out)
    }

    /// Looks at the lines of a file, which is at this path and has these bytes, as rows of a table.
    fn look_at_rows<W: Write, E: Write>(
        &self,
        table: &Manifest,
        path: &str,
        bytes: &[u8],
        out: &mut W,
        err: &mut E,
        why: &mut Option<Reason>,
    ) -> R<()>
        ensures fit { OnOk result (LinesFit self.now.call.now.texts (root_of table.now).schema bytes.now (W.contents out.old) (W.contents out.new)) }
        ensures quiet { self.now.terminals.err ≡ false → E.contents err.new ≡ E.contents err.old }
    {
        let (alloc, texts, shows) = (self.alloc, self.call.texts, self.terminals.err);
        match text_of(bytes) {
            Ok(text) => {
                print_rows_fit(alloc, table, text, texts, out, err, shows, why)?;
                print_doubled_note(alloc, path, text, out)
            }
            Err(refusal) => {
                *why = found(no_text_reason(alloc, bytes));
                Err(refusal)
            }
        }
    }
}

/// Whether a file may be named in place of the folder.
fn may_be_of_file(task: &Task<'_>) -> bool
    ensures { IsTrue result → MayBeOfFile task.now }
{
    matches!(task, Task::Ask(Question::Schema) | Task::Look(Look::Files))
}

/// The file that a task names, or the first of several, if it names one.
pub(crate) fn file_named<'a>(task: &'a Task<'a>) -> Option<&'a str> {
    match task {
        Task::Create { schema, .. } => Some(schema),
        Task::Run { script, .. } => Some(script),
        Task::Look(Look::Rows { rows }) => Some(rows),
        Task::Change(Change::Append { rows, .. }) => Some(rows),
        Task::Change(Change::Import { files, .. }) => files.first().map(|file| *file),
        Task::Change(Change::AddColumn { schema }) => Some(schema),
        _ => None,
    }
}

/// An append that is asked for.
#[derive(Drop)]
struct Append<'a> {
    /// The path of its rows.
    path: &'a str,
    /// The filter that no row may satisfy.
    unless: Option<&'a str>,
}

/// The append that a task is; none where it is another task.
fn append_of<'a>(task: &'a Task<'a>) -> Option<Append<'a>>
    ensures asked { MatchOption result (append_of task.now ≡ None) (λ asked. append_of task.now ≡ Some (asked.path.now, lent_text asked.unless)) }
{
    match task {
        Task::Change(Change::Append { rows, unless }) => Some(Append {
            path: rows,
            unless: *unless,
        }),
        _ => None,
    }
}

/// The paths of the files that a task names. It fails only when out of memory.
fn named_paths<'a>(alloc: Global, task: &'a Task<'a>) -> R<Vec<&'a str>>
    ensures paths { IfOk result (λ paths. lent_texts paths.items ≡ named_paths task.now) }
    ensures memory { RefusedMemoryOnly result }
{
    match task {
        Task::Create { schema, .. } => only_path(alloc, schema),
        Task::Run { script, .. } => only_path(alloc, script),
        Task::Look(Look::Rows { rows }) => only_path(alloc, rows),
        Task::Change(Change::Append { rows, .. }) => only_path(alloc, rows),
        Task::Change(Change::Import { files, .. }) => copied(alloc, files.as_slice()),
        Task::Change(Change::AddColumn { schema }) => only_path(alloc, schema),
        _ => Ok(Vec::new(alloc)),
    }
}

/// The path at a place; none where there is no such path.
fn path_at<'a>(paths: &[&'a str], place: usize) -> &'a str
    ensures { result.now ≡ slice_index_or (lent_texts paths.now) place [] }
{
    match paths.get(place) {
        Some(path) => *path,
        None => "",
    }
}

/// The same paths, once more. It fails only when out of memory.
fn copied<'a>(alloc: Global, paths: &[&'a str]) -> R<Vec<&'a str>>
    ensures same { IfOk result (λ copy. copy.items ≡ paths.now) }
    ensures memory { RefusedMemoryOnly result }
{
    let copy = Vec::from_slice(alloc, paths)?;
    Ok(copy)
}

/// A single path. It fails only when out of memory.
fn only_path<'a>(alloc: Global, path: &'a str) -> R<Vec<&'a str>>
    ensures only { IfOk result (λ paths. lent_texts paths.items ≡ path.now ∷ []) }
    ensures memory { RefusedMemoryOnly result }
{
    let mut paths = Vec::new(alloc);
    paths.push(path)?;
    Ok(paths)
}

/// Prints the columns of a Parquet file. Where it is refused, `why` may get the reason.
fn print_file_columns<W: Write>(
    alloc: Global,
    bytes: &[u8],
    out: &mut W,
    why: &mut Option<Reason>,
) -> R<()>
    ensures printed { OnOk result ((fs : Fields) × IsSchemaOfFile bytes.now fs
        × ((ds : Items) × PrintsFields fs ds × Appends (W.contents out.old) (W.contents out.new) (compact_text (array ds) ++ 10 ∷ []))) }
{
    let printed = print_schema_of(alloc, bytes, out);
    if let Err(refusal) = &printed
        && is_of_bytes(refusal)
    {
        *why = found(file_reason(alloc, bytes));
    }
    printed
}

/// Why no table is described, where there is more to say than the refusal.
pub(crate) fn root_reason(refusal: &Refusal) -> Option<Reason> {
    if (is_of_bytes(refusal) && *refusal != Refusal::Limit) || *refusal == Refusal::Key {
        Some(Reason::Root)
    } else {
        None
    }
}
