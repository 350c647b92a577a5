//! What the system refused, and which file a disk read, kept until the call is made.

ghost use Rattle.bits.specs.Refusals.{RefusedMemoryOnly};

use bits::R;
use disk::{Disk, Failure, HostDisk};
use reasons::{SystemFault, system_fault};
use std::alloc::Global;
use std::cell::RefCell;
use std::io::{self, ErrorKind};
use std::rc::Rc;
use std::rt::Files;

/// A disk that says what its last failure and its last absence were about.
pub trait Explains: Disk {
    /// What the last failure was about.
    fn failure(&self) -> Option<&Failure>;

    /// What the last absence was about; None where it was at the path of the call.
    fn absence(&self) -> Option<&Failure>;
}

impl<R: Files + Clone + Drop> Explains for HostDisk<R> {
    fn failure(&self) -> Option<&Failure> {
        self.last_failure()
    }

    fn absence(&self) -> Option<&Failure> {
        self.last_absence()
    }
}

/// What to do where the folder above a new one is not there.
const MAKE_THEM_FIRST: &str = "`create` makes one folder, not those above it: make them first";

/// What the system refused at a path of the host.
#[derive(Drop)]
struct Refused {
    path: String,
    error: io::Error,
    /// Whether the folder above the path was not there.
    lacks_folder: bool,
}

/// What is kept.
#[derive(Drop)]
struct Kept {
    /// What the system refused last.
    refused: Option<Refused>,
    /// The path in the folder at which nothing was last, where no file was read since.
    absent: Option<String>,
    /// The path in the folder at which something stood in the way last.
    in_the_way: Option<String>,
    /// The path in the folder that was read last.
    read: Option<String>,
}

/// What is kept of a call on a folder. It is shared by all that use files. Where there is no memory to keep something,
/// that is not kept.
#[derive(Drop)]
pub struct Notes {
    alloc: Global,
    kept: Rc<RefCell<Kept>>,
}

impl Notes {
    /// Notes in which nothing is kept.
    pub fn new(alloc: Global) -> R<Notes>
        ensures memory { RefusedMemoryOnly result }
    {
        let kept = Kept {
            refused: None,
            absent: None,
            in_the_way: None,
            read: None,
        };
        Ok(Notes {
            alloc,
            kept: Rc::new(alloc, RefCell::new(kept))?,
        })
    }

    /// The same notes, once more.
    pub fn shared(&self) -> R<Notes>
        ensures memory { RefusedMemoryOnly result }
    {
        Ok(Notes {
            alloc: self.alloc,
            kept: self.kept.clone()?,
        })
    }

    /// Keeps that the system refused something at a path of the host.
    pub fn note_refused(&self, path: &str, error: io::Error) {
        self.keep(path, error, false);
    }

    /// Keeps that a folder could not be made at a path of the host.
    pub fn note_unmade(&self, path: &str, error: io::Error) {
        self.keep(path, error, error.kind() == ErrorKind::NotFound);
    }

    /// Keeps a failure of the disk of a folder.
    pub fn note_failure(&self, folder: &str, failure: &Failure) {
        let path = match &failure.path {
            Some(path) => path.as_str(),
            None => "",
        };
        if path.is_empty() {
            self.note_refused(folder, failure.error);
        } else if let Ok(place) = format!(in self.alloc; "{folder}/{path}") {
            self.note_refused(place.as_str(), failure.error);
        }
    }

    /// Keeps what the system refused.
    fn keep(&self, path: &str, error: io::Error, lacks_folder: bool) {
        if let (Ok(path), Ok(mut kept)) = (
            String::from_str(self.alloc, path),
            self.kept.try_borrow_mut(),
        ) {
            kept.refused = Some(Refused {
                path,
                error,
                lacks_folder,
            });
        }
    }

    /// Keeps that a disk read the file at a path.
    pub fn note_read(&self, path: &str) {
        if let (Ok(path), Ok(mut kept)) = (
            String::from_str(self.alloc, path),
            self.kept.try_borrow_mut(),
        ) {
            kept.absent = None;
            kept.read = Some(path);
        }
    }

    /// Keeps that a disk found nothing at a path.
    pub fn note_absent(&self, path: &str) {
        if let (Ok(path), Ok(mut kept)) = (
            String::from_str(self.alloc, path),
            self.kept.try_borrow_mut(),
        ) {
            kept.absent = Some(path);
        }
    }

    /// Keeps that at a path there was something else than a disk was to make or remove there.
    pub fn note_in_the_way(&self, path: &str) {
        if let (Ok(path), Ok(mut kept)) = (
            String::from_str(self.alloc, path),
            self.kept.try_borrow_mut(),
        ) {
            kept.in_the_way = Some(path);
        }
    }

    /// What the system refused last. It is not kept any more.
    pub fn take_refused(&self) -> R<Option<SystemFault>> {
        let taken = match self.kept.try_borrow_mut() {
            Ok(mut kept) => kept.refused.take(),
            Err(_) => None,
        };
        let Some(refused) = taken else {
            return Ok(None);
        };
        let fault = system_fault(self.alloc, refused.path.as_str(), refused.error)?;
        if refused.lacks_folder {
            Ok(Some(fault.with_advice(MAKE_THEM_FIRST)))
        } else {
            Ok(Some(fault))
        }
    }

    /// The path at which nothing was last. It is not kept any more.
    pub fn take_absent(&self) -> Option<String> {
        match self.kept.try_borrow_mut() {
            Ok(mut kept) => kept.absent.take(),
            Err(_) => None,
        }
    }

    /// The path at which something stood in the way last. It is not kept any more.
    pub fn take_in_the_way(&self) -> Option<String> {
        match self.kept.try_borrow_mut() {
            Ok(mut kept) => kept.in_the_way.take(),
            Err(_) => None,
        }
    }

    /// The path that was read last. It is not kept any more.
    pub fn take_read(&self) -> Option<String> {
        match self.kept.try_borrow_mut() {
            Ok(mut kept) => kept.read.take(),
            Err(_) => None,
        }
    }
}
