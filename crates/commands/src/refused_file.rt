//! Which of several files is refused.

use crate::making::{Making, file_named};
use bits::{R, Refusal};
use dataset_words::{Change, Task};
use places::{Reason, Told};
use std::alloc::Global;
use std::io::Write;

impl<S: Write + Clone + Drop> Making<'_, S> {
    /// Puts the name of the file that is refused, which is at this place among those that the call names, before the reason.
    /// Where the refusal is not one of a file, or there is no memory for it, the reason stays as it is.
    pub(crate) fn name_file(&self, place: usize, refusal: &Refusal, why: &mut Option<Reason>) {
        if !is_of_file(refusal) {
            return;
        }
        let name = self.file_at(place);
        let line = match &*why {
            Some(reason) => line_of(self.alloc, name, self.call.folder, reason),
            None => bare_line(self.alloc, name),
        };
        if let Ok(line) = line {
            *why = Some(Reason::Said(line));
        }
    }

    /// The name of the file at this place among those that the call names.
    fn file_at(&self, place: usize) -> &str {
        match self.imported_files() {
            Some(files) if place < files.len() => files[place],
            _ => self.file_of_task().unwrap_or(""),
        }
    }

    /// The files of an import.
    fn imported_files(&self) -> Option<&[&str]> {
        match &self.call.task {
            Task::Change(Change::Import { files, .. }) => Some(files.as_slice()),
            _ => None,
        }
    }

    /// The file that the task names, or the first of several, if it names one.
    fn file_of_task(&self) -> Option<&str> {
        file_named(&self.call.task)
    }
}

/// What is said of a file that is refused for a reason. Some reasons have its name already.
fn line_of(alloc: Global, name: &str, folder: &str, reason: &Reason) -> R<String> {
    let told = Told {
        reason,
        folder,
        file: name,
    };
    let line = match reason {
        Reason::KeyValue(..) | Reason::File(_) => format!(in alloc; "{told}")?,
        _ => format!(in alloc; "{name}: {told}")?,
    };
    Ok(line)
}

/// What is said of a file that is refused where the refusal says all else.
fn bare_line(alloc: Global, name: &str) -> R<String> {
    let line = format!(in alloc; "{name} is refused: none of the files is imported")?;
    Ok(line)
}

/// Whether a refusal can be one of a file that is imported.
fn is_of_file(refusal: &Refusal) -> bool {
    !matches!(
        refusal,
        Refusal::Device | Refusal::Memory | Refusal::Full | Refusal::Closed | Refusal::NoJob
    )
}
