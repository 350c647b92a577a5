//! Calls that read the standard input.

ghost use Rattle.std.specs.Prelude.{IsTrue};
ghost use Rattle.dataset_words.specs.Inputs.{TaskReadsInputTwice};

use crate::call::{Call, Change, Task};

/// The path that is the standard input.
const INPUT: &str = "-";

/// The filter that is read from the standard input.
const FILTER_OF_INPUT: &str = "@-";

/// Whether a call names the standard input for two of the files that it reads.
pub fn reads_input_twice(call: &Call<'_>) -> bool
    ensures { IsTrue result → TaskReadsInputTwice call.now.task }
{
    match &call.task {
        Task::Change(Change::Append { rows, unless }) => {
            *rows == INPUT && *unless == Some(FILTER_OF_INPUT)
        }
        Task::Change(Change::Import { files, unless }) => {
            let count = files.iter().filter(|file| **file == INPUT).count();
            count > 1 || (count == 1 && *unless == Some(FILTER_OF_INPUT))
        }
        _ => false,
    }
}
