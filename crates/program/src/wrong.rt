//! Calls that are wrong though each of their words is right.

ghost use Rattle.std.specs.Prelude.{◌⊎◌, IsTrue, IsSome};
ghost use Rattle.program.specs.Words.{ReadsInputTwice, PrintsTextsAsBytes};

use crate::arguments::Call;

/// The file that is the standard input, or the standard output.
const STANDARD: &str = "-";

/// What is said where two files are the standard input.
const INPUT_TWICE: &str =
    "error: the standard input, -, can be only one of the files (./- names a file)\n";

/// What is said where texts are asked for, and the bytes of a file as well.
const TEXT_AND_BYTES: &str =
    "error: --text cannot be used with --out -, which prints the bytes of a file\n";

/// Why a call is wrong; None where it is not.
pub fn fault_of(call: &Call<'_>) -> Option<&'static str>
    ensures wrong { IsSome result → ReadsInputTwice call.now ⊎ PrintsTextsAsBytes call.now }
{
    if reads_input_twice(call) {
        Some(INPUT_TWICE)
    } else if prints_texts_as_bytes(call) {
        Some(TEXT_AND_BYTES)
    } else {
        None
    }
}

/// Whether a call names the standard input for two of its files.
fn reads_input_twice(call: &Call<'_>) -> bool
    ensures { IsTrue result → ReadsInputTwice call.now }
{
    match call {
        Call::Encode { sources, .. } | Call::Check { sources, .. } => {
            sources.schema == STANDARD && sources.rows == STANDARD
        }
        Call::Dataset { call } | Call::Save { call, .. } => dataset_words::reads_input_twice(call),
        _ => false,
    }
}

/// Whether a call on a dataset asks for texts, and is to print the bytes of a file.
fn prints_texts_as_bytes(call: &Call<'_>) -> bool
    ensures { IsTrue result → PrintsTextsAsBytes call.now }
{
    match call {
        Call::Save { call, path } => call.texts && *path == STANDARD,
        _ => false,
    }
}
