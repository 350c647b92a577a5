//! What words ask for.

ghost use Rattle.std.specs.Prelude.{◌≡◌, ◌≢◌, ℕ, List, Some, IfNone, IfSome, IfOk, OnErr, OnOk, codes};
ghost use Rattle.bits.specs.Refusals.{RefusedMemoryOnly};
ghost use Rattle.clap.specs.Values.{kind_of};
ghost use Rattle.clap.specs.Matches.{found_of};
ghost use Rattle.clap.specs.declared.error.kind.ErrorKind.TheVariants.{OutOfMemory};
ghost use Rattle.program.specs.Words.{first_word, word_of};
ghost use Rattle.program.specs.Asked.{AreAsking, AreNoCall, AsksFor, LacksWord};
ghost use Rattle.program.specs.inner.Met.{IsMetRequest, IsUnmet};
ghost use Rattle.dataset_words.specs.Asked.{HasFlag};

use crate::command_line::parsed;
use crate::encode::Sources;
use crate::wrong::fault_of;
use bits::{R, Refusal};
use clap::error::ErrorKind;
use clap::{ArgMatches, Error};
use dataset_words::{
    Look, found_for, limit_in, look_call, min_rows_in, options_in, out_in, quiet_in, texts_in,
    words_in,
};
use footer::WriteOptions;
use std::alloc::Global;

/// A file that is made of the rows of another one, or of the first of them, in some columns, or in all where none is named; `-` is
/// standard output.
#[derive(Drop)]
pub struct Copying<'a> {
    pub file: &'a str,
    pub path: &'a str,
    pub columns: Vec<&'a str>,
    pub limit: Option<u64>,
    pub options: WriteOptions,
}

/// What the words ask for.
#[derive(Drop)]
pub enum Call<'a> {
    /// Print the rows of a file, or the first of them, with texts of dates, times, timestamps and decimals or without.
    Decode {
        file: &'a str,
        limit: Option<u64>,
        texts: bool,
    },
    /// Make a file of the rows of another one.
    Copy {
        copying: Copying<'a>,
    },
    /// Make a file.
    Encode {
        sources: Sources<'a>,
        file: &'a str,
    },
    /// Say what a file is; or, of a folder, look at the dataset in it.
    Inspect {
        file: &'a str,
        as_json: bool,
        table: dataset_words::Call<'a>,
    },
    /// Say whether a file can be made; or, of a folder in place of the schema, whether the rows are of the dataset in it.
    Check {
        sources: Sources<'a>,
        table: dataset_words::Call<'a>,
    },
    /// Do what is asked of a dataset.
    Dataset {
        call: dataset_words::Call<'a>,
    },
    /// Make a file of what is asked of a dataset; `-` is standard output.
    Save {
        call: dataset_words::Call<'a>,
        path: &'a str,
    },
}

/// A call, and whether its progress is not to be shown.
#[derive(Drop)]
pub struct Request<'a> {
    pub call: Call<'a>,
    pub quiet: bool,
}

/// What the words ask for, or the text on the program's use, where they ask for nothing that it knows, or for a wrong call. It fails
/// only when out of memory.
pub fn request_of<'a>(alloc: Global, words: &'a [String]) -> R<Result<Request<'a>, String>>
    ensures first { IfOk result (λ said. IfOk said (λ request. first_word words.now ≡ Some (word_of request.call))) }
    ensures asking { IfOk result (λ said. IfOk said (AreAsking words.now)) }
    ensures no_call { IfOk result (λ said. OnErr said (AreNoCall words.now)) }
    ensures which { RefusedMemoryOnly result }
{
    let matches = match parsed(alloc, words)? {
        Ok(matches) => matches,
        Err(error) => return Ok(Err(error_text(alloc, &error)?)),
    };
    let request = match known_request(alloc, words, &matches)? {
        Some(request) => request,
        // The files are required, so that this does not come.
        None => return Ok(Err(String::new(alloc))),
    };
    match fault_of(&request.call) {
        Some(fault) => Ok(Err(String::from_str(alloc, fault)?)),
        None => Ok(Ok(request)),
    }
}

/// The text of an error of the words. It fails only when out of memory, also where that is the error.
fn error_text(alloc: Global, error: &Error) -> R<String>
    ensures other { OnOk result (kind_of error.now ≢ OutOfMemory) }
    ensures which { RefusedMemoryOnly result }
{
    if error.kind() == ErrorKind::OutOfMemory {
        return Err(Refusal::Memory);
    }
    let text = format!(in alloc; "{error}")?;
    Ok(text)
}

/// What the words ask for, by what was found in them. None where a file that is required is not there, or where the first word is
/// not the command's.
fn known_request<'a>(
    alloc: Global,
    words: &[String],
    matches: &ArgMatches<'a>,
) -> R<Option<Request<'a>>>
    ensures first { IfOk result (λ known. IfSome known (λ request. first_word words.now ≡ Some (word_of request.call))) }
    ensures asking { IfOk result (λ known. IfSome known (IsMetRequest matches.now)) }
    ensures none { IfOk result (λ known. IfNone known ((word : List ℕ) → first_word words.now ≡ Some word → IsUnmet matches.now word)) }
    ensures which { RefusedMemoryOnly result }
{
    let Some(word) = words.first() else {
        return Ok(None);
    };
    met_request(alloc, word.as_str(), matches)
}

/// What is asked for by what was found in the words, where this is the command's word.
fn met_request<'a>(alloc: Global, word: &str, matches: &ArgMatches<'a>) -> R<Option<Request<'a>>>
    ensures begins { IfOk result (λ known. IfSome known (λ request. word_of request.call ≡ word.now)) }
    ensures asking { IfOk result (λ known. IfSome known (IsMetRequest matches.now)) }
    ensures none { IfOk result (λ known. IfNone known (IsUnmet matches.now word.now)) }
    ensures which { RefusedMemoryOnly result }
{
    let Some(found) = found_for(matches, word) else {
        return Ok(None);
    };
    request_in(alloc, word, found)
}

/// What a command asks for, by what was found for its arguments.
fn request_in<'a>(alloc: Global, word: &str, found: &ArgMatches<'a>) -> R<Option<Request<'a>>>
    ensures begins { IfOk result (λ known. IfSome known (λ request. word_of request.call ≡ word.now)) }
    ensures asks { IfOk result (λ known. IfSome known (λ request. AsksFor word.now (found_of found.now) request.call)) }
    ensures quiet { IfOk result (λ known. IfSome known (λ request. HasFlag (found_of found.now) (codes "quiet") request.quiet)) }
    ensures lacks { IfOk result (λ known. IfNone known (LacksWord word.now (found_of found.now))) }
    ensures which { RefusedMemoryOnly result }
{
    let Some(call) = call_in(alloc, word, found)? else {
        return Ok(None);
    };
    let quiet = quiet_in(found);
    Ok(Some(Request { call, quiet }))
}

/// The call that a command asks for, by what was found for its arguments: on files, or on a dataset. None for another word, and
/// where something that is required was not found.
fn call_in<'a>(alloc: Global, word: &str, found: &ArgMatches<'a>) -> R<Option<Call<'a>>>
    ensures begins { IfOk result (λ known. IfSome known (λ call. word_of call ≡ word.now)) }
    ensures asks { IfOk result (λ known. IfSome known (AsksFor word.now (found_of found.now))) }
    ensures lacks { IfOk result (λ known. IfNone known (LacksWord word.now (found_of found.now))) }
    ensures which { RefusedMemoryOnly result }
{
    match word {
        "decode" => decode_call(alloc, found),
        "encode" => Ok(encode_call(found)),
        "inspect" => Ok(inspect_call(found)),
        "check" => Ok(check_call(found)),
        _ => dataset_call(alloc, word, found),
    }
}

fn decode_call<'a>(alloc: Global, found: &ArgMatches<'a>) -> R<Option<Call<'a>>>
    ensures begins { IfOk result (λ known. IfSome known (λ call. word_of call ≡ codes "decode")) }
    ensures asks { IfOk result (λ known. IfSome known (AsksFor (codes "decode") (found_of found.now))) }
    ensures lacks { IfOk result (λ known. IfNone known (LacksWord (codes "decode") (found_of found.now))) }
    ensures which { RefusedMemoryOnly result }
{
    let Some(file) = found.get_str("FILE") else {
        return Ok(None);
    };
    let limit = limit_in(found);
    let Some(path) = out_in(found) else {
        let texts = texts_in(found);
        return Ok(Some(Call::Decode { file, limit, texts }));
    };
    let columns = words_in(alloc, found, "columns")?;
    let options = options_in(found);
    let copying = Copying {
        file,
        path,
        columns,
        limit,
        options,
    };
    Ok(Some(Call::Copy { copying }))
}

fn encode_call<'a>(found: &ArgMatches<'a>) -> Option<Call<'a>>
    ensures begins { IfSome result (λ call. word_of call ≡ codes "encode") }
    ensures asks { IfSome result (AsksFor (codes "encode") (found_of found.now)) }
    ensures lacks { IfNone result (LacksWord (codes "encode") (found_of found.now)) }
{
    let schema = found.get_str("SCHEMA")?;
    let rows = found.get_str("ROWS")?;
    let file = found.get_str("OUT")?;
    let options = options_in(found);
    let texts = texts_in(found);
    let sources = Sources {
        schema,
        rows,
        options,
        texts,
    };
    Some(Call::Encode { sources, file })
}

fn inspect_call<'a>(found: &ArgMatches<'a>) -> Option<Call<'a>>
    ensures begins { IfSome result (λ call. word_of call ≡ codes "inspect") }
    ensures asks { IfSome result (AsksFor (codes "inspect") (found_of found.now)) }
    ensures lacks { IfNone result (LacksWord (codes "inspect") (found_of found.now)) }
{
    let file = found.get_str("FILE")?;
    let as_json = found.get_flag("json");
    let min_rows = min_rows_in(found);
    let table = look_call(file, found, Look::Survey { min_rows, as_json });
    Some(Call::Inspect {
        file,
        as_json,
        table,
    })
}

fn check_call<'a>(found: &ArgMatches<'a>) -> Option<Call<'a>>
    ensures begins { IfSome result (λ call. word_of call ≡ codes "check") }
    ensures asks { IfSome result (AsksFor (codes "check") (found_of found.now)) }
    ensures lacks { IfNone result (LacksWord (codes "check") (found_of found.now)) }
{
    let schema = found.get_str("SCHEMA")?;
    let Some(rows) = found.get_str("ROWS") else {
        let call = look_call(schema, found, Look::Files);
        return Some(Call::Dataset { call });
    };
    let options = WriteOptions::standard();
    let texts = texts_in(found);
    let sources = Sources {
        schema,
        rows,
        options,
        texts,
    };
    let table = look_call(schema, found, Look::Rows { rows });
    Some(Call::Check { sources, table })
}

/// The call on a dataset that a command asks for.
fn dataset_call<'a>(alloc: Global, word: &str, found: &ArgMatches<'a>) -> R<Option<Call<'a>>>
    ensures begins { IfOk result (λ known. IfSome known (λ call. word_of call ≡ word.now)) }
    ensures asks { IfOk result (λ known. IfSome known (AsksFor word.now (found_of found.now))) }
    ensures lacks { IfOk result (λ known. IfNone known (LacksWord word.now (found_of found.now))) }
    ensures which { RefusedMemoryOnly result }
{
    let Some(call) = dataset_words::call_in(alloc, word, found)? else {
        return Ok(None);
    };
    match out_in(found) {
        Some(path) => Ok(Some(Call::Save { call, path })),
        None => Ok(Some(Call::Dataset { call })),
    }
}
