//! Why a call on a folder is refused, found when it is over: by what the disk and the system refused last.

use bits::{R, Refusal};
use call_reasons::is_of_bytes;
use dataset_words::{Call, Change, Look, Question, Task};
use places::{Node, Notes, Places, Reason};
use reasons::{Cause, SystemFault, options_fault, output_cause, system_fault};
use reports::first_problem;
use std::alloc::Global;
use std::io;

/// The number that the system gives the error "File exists".
const FILE_EXISTS: i32 = 17;

/// The number that the system gives the error "Not a directory".
const NO_FOLDER: i32 = 20;

/// The number that the system gives the error "Is a directory".
const FOLDER: i32 = 21;

/// The path of the root of a dataset in its folder.
const ROOT: &str = "_metadata";

/// How the path of a part file ends.
const PART_ENDING: &str = ".parquet";

/// A call that was refused.
#[derive(Drop)]
pub struct Refused<'a, P> {
    pub places: &'a P,
    pub alloc: Global,
    pub call: &'a Call<'a>,
    pub notes: &'a Notes,
}

impl<P: Places> Refused<'_, P> {
    /// Why the call is refused, as far as that can be found when it is over. `flushed` is what came of writing the last of the
    /// output.
    pub fn reason(&self, refusal: &Refusal, flushed: &io::Result<()>) -> R<Option<Reason>> {
        match refusal {
            Refusal::Device => self.of_system(flushed),
            Refusal::NoTable => Ok(Some(self.of_no_table()?)),
            Refusal::Limit => Ok(Some(self.of_limit())),
            _ if is_of_bytes(refusal) && self.is_of_stored() => self.of_part(),
            _ => Ok(None),
        }
    }

    /// Whether only what is stored can have a fault, and not what the call brings.
    fn is_of_stored(&self) -> bool {
        match &self.call.task {
            Task::Create { .. } | Task::Run { .. } | Task::Look(_) => false,
            Task::Change(
                Change::Import { .. } | Change::Append { .. } | Change::AddColumn { .. },
            ) => { false }
            _ => true,
        }
    }

    /// What the system refused: at a path, or of the folder, or of the output. None where a check found something, whose line says
    /// why.
    fn of_system(&self, flushed: &io::Result<()>) -> R<Option<Reason>> {
        if let Some(fault) = self.notes.take_refused()? {
            if self.is_of_folder(&fault) && self.is_link() {
                return Ok(Some(Reason::Link));
            }
            return Ok(Some(Reason::Told(Cause::System(fault))));
        }
        if let Err(error) = flushed {
            return Ok(Some(Reason::Told(output_cause(self.alloc, *error)?)));
        }
        if let Some(reason) = self.of_folder()? {
            return Ok(Some(reason));
        }
        match self.notes.take_in_the_way() {
            Some(path) => Ok(Some(self.of_node_at(path.as_str())?)),
            None if self.has_findings() => Ok(None),
            None => Ok(Some(Reason::Told(Cause::Output))),
        }
    }

    /// Whether the system refused something at the folder or in it.
    fn is_of_folder(&self, fault: &SystemFault) -> bool {
        fault.is_about(self.call.folder) || fault.is_within(self.call.folder)
    }

    /// Whether the call prints what it finds in the files of a dataset, each with a refusal.
    fn has_findings(&self) -> bool {
        matches!(self.call.task, Task::Look(Look::Files))
    }

    /// What stands in the way at a path in the folder: a folder, or something else.
    fn of_node_at(&self, path: &str) -> R<Reason> {
        let found = self
            .places
            .in_folder(self.alloc, self.call.folder, path, false)?;
        let number = match found {
            Some(Node::Folder) => FOLDER,
            _ => FILE_EXISTS,
        };
        self.of_number_at(path, number)
    }

    /// The system's error of this number at a path in the folder.
    fn of_number_at(&self, path: &str, number: i32) -> R<Reason> {
        let folder = self.call.folder;
        let place = format!(in self.alloc; "{folder}/{path}")?;
        let error = io::Error::from_raw_os_error(number);
        let fault = system_fault(self.alloc, place.as_str(), error)?;
        Ok(Reason::Told(Cause::System(fault)))
    }

    /// Whether the folder is named by a link to it, which no disk follows.
    fn is_link(&self) -> bool {
        match self.places.at_folder(self.call.folder, false) {
            Ok(Node::Link) => true,
            _ => false,
        }
    }

    /// Whether a file may be named in place of the folder.
    fn may_be_file(&self) -> bool {
        matches!(
            self.call.task,
            Task::Ask(Question::Schema) | Task::Look(Look::Files)
        )
    }

    /// Why the folder is none.
    fn of_folder(&self) -> R<Option<Reason>> {
        let folder = self.call.folder;
        let error = match self.places.at_folder(folder, true) {
            Ok(Node::Folder) => return Ok(None),
            Ok(_) if self.may_be_file() => return Ok(None),
            Ok(_) => io::Error::from_raw_os_error(NO_FOLDER),
            Err(error) => error,
        };
        let fault = system_fault(self.alloc, folder, error)?;
        Ok(Some(Reason::Told(Cause::System(fault))))
    }

    /// Why the folder has no table: there is no root, a folder in its place, or one of another tool.
    fn of_no_table(&self) -> R<Reason> {
        match self.root()? {
            Some(Node::Folder) => self.of_number_at(ROOT, FOLDER),
            Some(_) => Ok(Reason::OtherRoot),
            None => Ok(Reason::NoRoot),
        }
    }

    /// What is where the root should be.
    fn root(&self) -> R<Option<Node>> {
        self.places
            .in_folder(self.alloc, self.call.folder, ROOT, true)
    }

    /// Which limit is exceeded: that of an option, or others.
    fn of_limit(&self) -> Reason {
        let options = &self.call.options;
        let found = options_fault(options.group_rows, options.page_rows, options.page_version);
        match found {
            Some(fault) => Reason::Told(Cause::Limit(fault)),
            None => Reason::Limits(self.root_length()),
        }
    }

    /// How long the root is; 0 where that cannot be found.
    fn root_length(&self) -> u64 {
        match self.root() {
            Ok(Some(Node::File(bytes))) => bytes,
            _ => 0,
        }
    }

    /// Which part file is absent or damaged, or that the root has a fault: by the path at which nothing was last, or that was
    /// read last. Only that file is read once more.
    fn of_part(&self) -> R<Option<Reason>> {
        if let Some(path) = self.notes.take_absent()
            && path.ends_with(PART_ENDING)
        {
            return Ok(Some(Reason::NoPart(path)));
        }
        let Some(path) = self.notes.take_read() else {
            return Ok(None);
        };
        if !path.ends_with(PART_ENDING) {
            return Ok(Some(Reason::Root));
        }
        let folder = self.call.folder;
        let bytes = self
            .places
            .part(self.alloc, folder, path.as_str(), self.notes)?;
        match first_problem(self.alloc, bytes.as_slice())? {
            Some(problem) => Ok(Some(Reason::Part(path, problem))),
            None => Ok(Some(Reason::RootOfPart(path))),
        }
    }
}
