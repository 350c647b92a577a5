//! The command line, as its parser knows it.

ghost use Rattle.std.specs.Prelude.{◌≢◌, IfErr, IfOk, codes};
ghost use Rattle.bits.specs.Refusals.{RefusedMemoryOnly};
ghost use Rattle.clap.specs.Values.{kind_of};
ghost use Rattle.clap.specs.declared.error.kind.ErrorKind.TheVariants.{OutOfMemory};
ghost use Rattle.dataset_words.specs.CommandLine.{IsArg, IsCommand, bound, flag, named};
ghost use Rattle.dataset_words.specs.declared.options.Styles.{Styles};
ghost use Rattle.program.specs.CommandLine as spec;
ghost use Rattle.program.specs.CommandLine.{AreMatchesBy, AreNotTaken};

use crate::help;
use bits::{R, Refusal};
use clap::{Arg, ArgAction, ArgMatches, Command, Error};
use dataset_words::{
    Styles, limit_option, min_rows_option, out_option, quiet_flag, text_flag, with_commands,
    with_help, with_options, with_waiting,
};
use std::alloc::{AllocError, Global};

/// What is said of the file that gets the rows.
const OUT_HELP: &str = "Makes a Parquet file OUT of the rows; - is standard output";

/// A file that must be named.
fn file_named<'a>(alloc: Global, name: &'a str, help: &'a str) -> Arg<'a>
    ensures { IsArg (named name.entry.now) result }
{
    Arg::new(alloc, name)
        .required(true)
        .action(ArgAction::Set)
        .help(help)
}

/// The columns that a file is made of.
fn wanted_columns<'a>(alloc: Global) -> Arg<'a>
    ensures { IsArg spec.wanted_columns result }
{
    Arg::new(alloc, "columns")
        .long("columns")
        .value_name("COLUMN")
        .action(ArgAction::Append)
        .num_args(1..)
        .help("Of --out: makes OUT of these columns alone")
}

/// The same, which needs the name of that file.
fn columns_option<'a>(alloc: Global) -> Result<Arg<'a>, AllocError>
    ensures { IfOk result (IsArg (bound spec.wanted_columns)) }
{
    wanted_columns(alloc).requires_arg("out")
}

/// The flag by which the rows of a file are printed as texts, which does not go with a file that is made of them.
fn printed_text_flag<'a>(alloc: Global) -> Result<Arg<'a>, AllocError>
    ensures { IfOk result (IsArg (bound (flag (codes "text")))) }
{
    text_flag(alloc).conflicts_with("out")
}

fn decode_command<'a>(alloc: Global, styles: Styles<'a>) -> Result<Command<'a>, Error>
    ensures { IfOk result (IsCommand (spec.decode styles.entry)) }
{
    let file = "The Parquet file to read; - is standard input";
    let decode = with_help(
        Command::new(alloc, "decode"),
        help::DECODE,
        help::DECODE_LONG,
        help::DECODE_REFUSALS,
    )
    .arg(file_named(alloc, "FILE", file))?
    .arg(limit_option(alloc))?
    .arg(columns_option(alloc)?)?
    .arg(out_option(alloc, OUT_HELP))?
    .arg(printed_text_flag(alloc)?)?;
    let decode = with_options(alloc, decode, styles)?.arg(quiet_flag(alloc))?;
    Ok(decode)
}

fn encode_command<'a>(alloc: Global, styles: Styles<'a>) -> Result<Command<'a>, Error>
    ensures { IfOk result (IsCommand (spec.encode styles.entry)) }
{
    let schema = "The file with the columns, as JSON; - is standard input";
    let rows = "The file with the rows, as lines of JSON; - is standard input";
    let encode = with_help(
        Command::new(alloc, "encode"),
        help::ENCODE,
        help::ENCODE_LONG,
        help::ENCODE_REFUSALS,
    )
    .arg(file_named(alloc, "SCHEMA", schema))?
    .arg(file_named(alloc, "ROWS", rows))?
    .arg(file_named(alloc, "OUT", "The Parquet file to make"))?
    .arg(text_flag(alloc))?;
    let encode = with_options(alloc, encode, styles)?.arg(quiet_flag(alloc))?;
    Ok(encode)
}

/// The flag by which a report is JSON.
fn json_flag<'a>(alloc: Global) -> Arg<'a>
    ensures { IsArg (flag (codes "json")) result }
{
    Arg::new(alloc, "json")
        .long("json")
        .action(ArgAction::SetTrue)
        .help("Prints one line of JSON in place of text")
}

fn inspect_command<'a>(alloc: Global) -> Result<Command<'a>, Error>
    ensures { IfOk result (IsCommand spec.inspect) }
{
    let file = "The Parquet file, or the folder of the dataset, to look into; - is standard input";
    let small =
        "Of a dataset: counts groups of fewer rows that stand next to each other [default: 65536]";
    let inspect = with_help(
        Command::new(alloc, "inspect"),
        help::INSPECT,
        help::INSPECT_LONG,
        help::INSPECT_REFUSALS,
    )
    .arg(file_named(alloc, "FILE", file))?
    .arg(json_flag(alloc))?
    .arg(min_rows_option(alloc, small))?;
    let inspect = with_waiting(alloc, inspect)?;
    Ok(inspect)
}

/// The file with the rows to check. Without it the schema is checked, or the files of a dataset.
fn rows_named<'a>(alloc: Global) -> Arg<'a>
    ensures { IsArg (spec.may_be_named (codes "ROWS")) result }
{
    Arg::new(alloc, "ROWS").action(ArgAction::Set).help(
        "The file with the rows, as lines of JSON; - is standard input. Without it the schema, or the files of the dataset, are checked",
    )
}

fn check_command<'a>(alloc: Global) -> Result<Command<'a>, Error>
    ensures { IfOk result (IsCommand spec.check) }
{
    let schema =
        "The file with the columns, as JSON, or the folder of a dataset; - is standard input";
    let check = with_help(
        Command::new(alloc, "check"),
        help::CHECK,
        help::CHECK_LONG,
        help::CHECK_REFUSALS,
    )
    .arg(file_named(alloc, "SCHEMA", schema))?
    .arg(rows_named(alloc))?
    .arg(text_flag(alloc))?;
    let check = with_waiting(alloc, check)?.arg(quiet_flag(alloc))?;
    Ok(check)
}

/// The program without its commands.
fn bare_program<'a>(alloc: Global) -> Result<Command<'a>, AllocError>
    ensures { IfOk result (IsCommand spec.bare) }
{
    let program = Command::new(alloc, "pqds")
        .about(help::ABOUT)
        .version(help::VERSION)
        .after_help(help::AFTER)
        .no_binary_name(true)
        .disable_help_subcommand(true)
        .subcommand_required(true)
        .arg_required_else_help(true)
        .bin_name("pqds")?;
    Ok(program)
}

/// The program with its commands.
fn program<'a>(alloc: Global, styles: Styles<'a>) -> Result<Command<'a>, Error>
    ensures { IfOk result (IsCommand (spec.command_line styles.entry)) }
{
    let program = bare_program(alloc)?
        .subcommand(decode_command(alloc, styles)?)?
        .subcommand(encode_command(alloc, styles)?)?
        .subcommand(inspect_command(alloc)?)?
        .subcommand(check_command(alloc)?)?;
    let program = with_commands(alloc, program, styles)?;
    Ok(program)
}

/// What the parser finds in the words, or why they are no call of the program. It fails only when out of memory.
pub fn parsed<'a>(alloc: Global, words: &'a [String]) -> R<Result<ArgMatches<'a>, Error>>
    ensures finds { IfOk result (λ said. IfOk said (λ matches. (styles : Styles) × AreMatchesBy styles words.now matches)) }
    ensures refused { IfOk result (λ said. IfErr said (λ error. kind_of error ≢ OutOfMemory → (styles : Styles) × AreNotTaken styles words.now)) }
    ensures which { RefusedMemoryOnly result }
{
    match program(alloc, Styles::standard()) {
        Ok(program) => Ok(program.try_get_matches_from(words)),
        // It is built, unless there is no memory for it.
        Err(_) => Err(Refusal::Memory),
    }
}
