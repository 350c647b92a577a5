//! The rows of a query in a folder, as files.

ghost use Rattle.std.specs.Prelude.{◌≡◌, ◌≢◌, ◌∷◌, [], Some, false, length, IfOk, IfErr};
ghost use Rattle.bits.specs.declared.refusal.Refusal.TheVariants.{Script};
ghost use Rattle.answers.specs.Importing.{files_view};
ghost use Rattle.places.specs.Places.{InFolder};
ghost use Rattle.commands.specs.Calls.{Gives, GivesAsked, Filtered, filter_path, state_within, disk_within};
ghost use Rattle.answers.specs.Making.{lent_text};
ghost use Rattle.commands.specs.Tasks.{lent_texts, columns_named, GivesQuery, GivesAnswer};

use crate::filter_file::{filter_file, with_filter};
use crate::making::{Making, root_reason};
use crate::tasks::found;
use crate::texts::{columns_named, owned};
use answers::query_files;
use bits::{R, Refusal};
use call_reasons::{filter_text_reason, question_reason};
use dataset_words::{FileSink, Question, Task};
use disk::Disk;
use footer::WriteOptions;
use places::{Places, Reason};
use std::alloc::Global;
use std::io::Write;
use store::Store;

/// Files that are kept.
#[derive(Drop)]
pub(crate) struct KeptFiles {
    pub(crate) files: Vec<Vec<u8>>,
}

impl FileSink for KeptFiles {
    ghost taken = { λ kept. Some (files_view kept.files.items) };

    fn take(&mut self, file: Vec<u8>) -> R<()> {
        self.files.push(file)?;
        Ok(())
    }

    fn has_refused(&self) -> bool {
        false
    }
}

impl KeptFiles {
    /// The one file. Refused Script where there is none, or there are several.
    pub(crate) fn only(self) -> R<Vec<u8>>
        ensures only { IfOk result (λ file. files_view self.files.items ≡ file.items ∷ []) }
        ensures others { IfErr result (λ e. (length (files_view self.files.items) ≢ 1) × (e ≡ Script)) }
    {
        let mut files = self.files;
        match files.pop() {
            Some(file) if files.is_empty() => Ok(file),
            _ => Err(Refusal::Script),
        }
    }
}

impl<S: Write + Clone + Drop> Making<'_, S> {
    /// Gives a sink the files of the call with the filter that is the text of a file. Refused Device where that cannot be read, Script where it
    /// is no text, and then as [`give`](Making::give).
    fn give_with_filter<P: Places, K: FileSink, E: Write>(
        &self,
        places: &mut P,
        path: &str,
        most: Option<usize>,
        sink: &mut K,
        err: &mut E,
        why: &mut Option<Reason>,
    ) -> R<()>
        requires named { filter_path self.now.call.now.task ≡ Some path.now }
        ensures gives { Filtered (P.known places.old) (P.known places.new) self.now.call.now
            (λ asked. GivesAsked S P.Disk.state (P.known places.old) (P.known places.new) asked most (K.taken sink.old) (K.taken sink.new) result)
            (K.taken sink.new ≡ K.taken sink.old) result }
        ensures quiet { self.now.terminals.err ≡ false → E.contents err.new ≡ E.contents err.old }
    {
        let bytes = places.bytes(self.alloc, path, self.notes)?;
        match with_filter(self.alloc, self.call, bytes.as_slice()) {
            Ok(call) => self
                .with_call(&call)
                .give_files(places, most, sink, err, why),
            Err(refusal) => {
                *why = found(filter_text_reason(self.alloc, path, bytes.as_slice()));
                Err(refusal)
            }
        }
    }

    /// Gives a sink the files of the call, with the filter that its words have or name a file of.
    pub(crate) fn give_filtered<P: Places, K: FileSink, E: Write>(
        &self,
        places: &mut P,
        most: Option<usize>,
        sink: &mut K,
        err: &mut E,
        why: &mut Option<Reason>,
    ) -> R<()>
        ensures gives { Filtered (P.known places.old) (P.known places.new) self.now.call.now
            (λ asked. GivesAsked S P.Disk.state (P.known places.old) (P.known places.new) asked most (K.taken sink.old) (K.taken sink.new) result)
            (K.taken sink.new ≡ K.taken sink.old) result }
        ensures quiet { self.now.terminals.err ≡ false → E.contents err.new ≡ E.contents err.old }
    {
        match filter_file(self.call) {
            Some(path) => self.give_with_filter(places, path, most, sink, err, why),
            None => self.give_files(places, most, sink, err, why),
        }
    }

    /// Opens the dataset to read it, and gives a sink the files of what is asked, one where `most` is none. Where it is refused,
    /// `why` may get the reason.
    fn give_files<P: Places, K: FileSink, E: Write>(
        &self,
        places: &mut P,
        most: Option<usize>,
        sink: &mut K,
        err: &mut E,
        why: &mut Option<Reason>,
    ) -> R<()>
        ensures gives { GivesAsked S P.Disk.state (P.known places.old) (P.known places.new) self.now.call.now most (K.taken sink.old) (K.taken sink.new) result }
        ensures quiet { self.now.terminals.err ≡ false → E.contents err.new ≡ E.contents err.old }
    {
        let Task::Ask(question) = &self.call.task else {
            // Nothing else asks for a file.
            return Err(Refusal::Script);
        };
        let lock = self.share(places, err, why)?;
        let given = self.give_in_folder(places, question, most, sink, err, why);
        drop(lock);
        given
    }

    /// Gives a sink the files of what is asked of the dataset in the folder, which is opened to read it.
    fn give_in_folder<P: Places, K: FileSink, E: Write>(
        &self,
        places: &mut P,
        question: &Question<'_>,
        most: Option<usize>,
        sink: &mut K,
        err: &mut E,
        why: &mut Option<Reason>,
    ) -> R<()>
        ensures gives { InFolder (disk_within {D = P.Disk} {S = S}) (P.known places.old) (P.known places.new) self.now.call.now.folder.now
            (Gives (state_within P.Disk.state) self.now.call.now question.now most (K.taken sink.old) (K.taken sink.new))
            (K.taken sink.new ≡ K.taken sink.old) result }
        ensures quiet { self.now.terminals.err ≡ false → E.contents err.new ≡ E.contents err.old }
    {
        let disk = self.take(places, false)?;
        let (disk, given) = self.give_on(disk, question, most, sink, err, why);
        self.give(places, disk);
        given
    }

    /// Gives a sink the files of what is asked of the dataset on a disk, which is opened to read it. The disk is handed back.
    fn give_on<D: Disk, K: FileSink, E: Write>(
        &self,
        disk: D,
        question: &Question<'_>,
        most: Option<usize>,
        sink: &mut K,
        err: &mut E,
        why: &mut Option<Reason>,
    ) -> (D, R<()>)
        ensures gives { Gives D.state self.now.call.now question.now most (K.taken sink.old) (K.taken sink.new) disk result.0 result.1 }
        ensures quiet { self.now.terminals.err ≡ false → E.contents err.new ≡ E.contents err.old }
    {
        match store::open_to_read(self.alloc, disk, self.call.options) {
            Ok(store) => {
                let mut store = store;
                let given = self.give_of(&mut store, question, most, sink, err, why);
                (store.into_disk(), given)
            }
            Err((disk, refusal)) => {
                *why = root_reason(&refusal);
                (disk, Err(refusal))
            }
        }
    }

    /// Gives a sink the files of what is asked of a store. Where it is refused, `why` may get the reason, unless the sink refused it.
    fn give_of<D: Disk, K: FileSink, E: Write>(
        &self,
        store: &mut Store<D>,
        question: &Question<'_>,
        most: Option<usize>,
        sink: &mut K,
        err: &mut E,
        why: &mut Option<Reason>,
    ) -> R<()>
        ensures gives { GivesAnswer D.state self.now.call.now.texts store.old store.new question.now self.now.call.now.options most
            (K.taken sink.old) (K.taken sink.new) result }
        ensures quiet { self.now.terminals.err ≡ false → E.contents err.new ≡ E.contents err.old }
    {
        let options = self.call.options;
        let (alloc, texts, shows) = (self.alloc, self.call.texts, self.terminals.err);
        let given = give_answer(
            alloc, store, question, texts, &options, most, sink, err, shows,
        );
        if let Err(refusal) = &given
            && !sink.has_refused()
        {
            *why = found(question_reason(alloc, store.schema(), question, texts, refusal));
        }
        given
    }
}

/// Gives a sink the files of what is asked of a store: of the rows of a query, whose filter is read with texts or without. Where
/// `shows` says so, `err` shows how many rows were read so far.
fn give_answer<D: Disk, K: FileSink, E: Write>(
    alloc: Global,
    store: &mut Store<D>,
    question: &Question<'_>,
    texts: bool,
    options: &WriteOptions,
    most: Option<usize>,
    sink: &mut K,
    err: &mut E,
    shows: bool,
) -> R<()>
    ensures gives { GivesAnswer D.state texts store.old store.new question.now options.now most (K.taken sink.old) (K.taken sink.new) result }
    ensures quiet { shows ≡ false → E.contents err.new ≡ E.contents err.old }
{
    match question {
        Question::Query {
            filter,
            columns,
            limit,
        } => {
            let names = columns.as_slice();
            give_query(
                alloc, store, *filter, names, *limit, texts, options, most, sink, err, shows,
            )
        }
        // Only a query has files.
        _ => Err(Refusal::Script),
    }
}

/// Gives a sink files of the rows of a query, all or the first of them, in the columns of these names, or in all where none is
/// named.
fn give_query<D: Disk, K: FileSink, E: Write>(
    alloc: Global,
    store: &mut Store<D>,
    filter: Option<&str>,
    columns: &[&str],
    limit: Option<u64>,
    texts: bool,
    options: &WriteOptions,
    most: Option<usize>,
    sink: &mut K,
    err: &mut E,
    shows: bool,
) -> R<()>
    ensures gives { GivesQuery D.state texts store.old store.new (lent_text filter.entry) (columns_named (lent_texts columns.now)) limit options.now most
        (K.taken sink.old) (K.taken sink.new) result }
    ensures quiet { shows ≡ false → E.contents err.new ≡ E.contents err.old }
{
    let names = owned(alloc, columns)?;
    let wanted = columns_named(names.as_slice());
    query_files(
        alloc, store, filter, wanted, limit, texts, options, most, sink, err, shows,
    )
}
