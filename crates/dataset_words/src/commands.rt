//! The commands on a dataset, as the parser of the command line knows them.

ghost use Rattle.std.specs.Prelude.{IfOk, codes, true};
ghost use Rattle.dataset_words.specs.CommandLine as spec;
ghost use Rattle.dataset_words.specs.CommandLine.{AddsRules, IsArg, IsCommand, bound, flag, named, of_u64, on_dataset, option, words_named};

use crate::help;
use crate::options::{Styles, with_kept_options, with_options};
use clap::{Arg, ArgAction, Command, Error, value_parser};
use std::alloc::{AllocError, Global};

const QUERY_OUT_HELP: &str =
    "Makes a Parquet file OUT of the rows, or files in OUT if it is an empty folder; - is standard output";

const ROWS_HELP: &str = "The file with the rows, as lines of JSON; - is standard input";

/// A folder or a file that must be named.
fn named<'a>(alloc: Global, name: &'a str, help: &'a str) -> Arg<'a>
    ensures { IsArg (named name.entry.now) result }
{
    Arg::new(alloc, name)
        .required(true)
        .action(ArgAction::Set)
        .help(help)
}

/// The folder of a dataset.
fn folder_named<'a>(alloc: Global) -> Arg<'a>
    ensures { IsArg (named (codes "DIR")) result }
{
    named(alloc, "DIR", "The folder of the dataset")
}

/// The flag by which a command on a dataset does not wait for another one.
fn no_wait_flag<'a>(alloc: Global) -> Arg<'a>
    ensures { IsArg (flag (codes "no-wait")) result }
{
    Arg::new(alloc, "no-wait")
        .long("no-wait")
        .action(ArgAction::SetTrue)
        .help("Is refused 25 where another command is using DIR, in place of waiting")
}

/// The option by which a command on a dataset waits for another one no longer than this.
fn seconds_option<'a>(alloc: Global) -> Arg<'a>
    ensures { IsArg (of_u64 (option (codes "wait"))) result }
{
    Arg::new(alloc, "wait")
        .long("wait")
        .value_name("SECONDS")
        .value_parser(value_parser!(u64))
        .help(
            "Is refused 25 where another command is using DIR for longer than this; 0 is --no-wait",
        )
}

/// The same, which excludes the flag by which it does not wait.
fn wait_option<'a>(alloc: Global) -> Result<Arg<'a>, AllocError>
    ensures { IfOk result (IsArg (bound (of_u64 (option (codes "wait"))))) }
{
    seconds_option(alloc).conflicts_with("no-wait")
}

/// The command, with the arguments that say how long it waits for another one.
pub fn with_waiting<'a>(alloc: Global, command: Command<'a>) -> Result<Command<'a>, Error>
    ensures { IfOk result (AddsRules spec.waiting command.entry) }
{
    let command = command.arg(no_wait_flag(alloc))?.arg(wait_option(alloc)?)?;
    Ok(command)
}

/// The command, with what its help says: in short, at length, and at the end.
pub fn with_help<'a>(
    command: Command<'a>,
    about: &'a str,
    long_about: &'a str,
    after_help: &'a str,
) -> Command<'a>
    ensures { AddsRules (λ app. app) command.entry result }
{
    command
        .about(about)
        .long_about(long_about)
        .after_help(after_help)
}

/// The command, with another line of usage.
fn with_usage<'a>(command: Command<'a>, usage: &'a str) -> Command<'a>
    ensures { AddsRules (λ app. app) command.entry result }
{
    command.override_usage(usage)
}

/// The flag by which no progress is shown.
pub fn quiet_flag<'a>(alloc: Global) -> Arg<'a>
    ensures { IsArg (flag (codes "quiet")) result }
{
    Arg::new(alloc, "quiet")
        .long("quiet")
        .action(ArgAction::SetTrue)
        .help("Shows no progress where standard error is a terminal")
}

/// The flag by which dates, times, timestamps and decimals are texts.
pub fn text_flag<'a>(alloc: Global) -> Arg<'a>
    ensures { IsArg (flag (codes "text")) result }
{
    Arg::new(alloc, "text")
        .long("text")
        .action(ArgAction::SetTrue)
        .help("Reads and prints dates, times, timestamps and decimals as texts")
}

/// A command on the dataset in a folder, which is its first word.
fn on_dataset<'a>(alloc: Global, word: &'a str) -> Result<Command<'a>, Error>
    ensures { IfOk result (IsCommand (on_dataset word.entry.now)) }
{
    let command = Command::new(alloc, word).arg(folder_named(alloc))?;
    let command = with_waiting(alloc, command)?;
    Ok(command)
}

/// Any number of words.
fn words_named<'a>(alloc: Global, name: &'a str, help: &'a str) -> Arg<'a>
    ensures { IsArg (words_named 0 name.entry.now) result }
{
    Arg::new(alloc, name)
        .action(ArgAction::Append)
        .num_args(0..)
        .help(help)
}

/// Group numbers, one at least where there are any.
fn numbers_named<'a>(alloc: Global, help: &'a str) -> Arg<'a>
    ensures { IsArg spec.numbers result }
{
    words_named(alloc, "NUMBER", help)
        .num_args(1..)
        .value_parser(value_parser!(u64))
}

/// Parquet files, one at least.
fn files_named<'a>(alloc: Global) -> Arg<'a>
    ensures { IsArg (record (words_named 1 (codes "FILE")) { required = true }) result }
{
    words_named(
        alloc,
        "FILE",
        "The Parquet files with the rows, in their order",
    )
    .num_args(1..)
    .required(true)
}

/// How many rows are printed at most.
pub fn limit_option<'a>(alloc: Global) -> Arg<'a>
    ensures { IsArg (of_u64 (option (codes "limit"))) result }
{
    Arg::new(alloc, "limit")
        .long("limit")
        .value_name("N")
        .value_parser(value_parser!(u64))
        .help("Takes only the first N rows")
}

/// The file that gets the rows in place of standard output.
pub fn out_option<'a>(alloc: Global, help: &'a str) -> Arg<'a>
    ensures { IsArg (option (codes "out")) result }
{
    Arg::new(alloc, "out")
        .long("out")
        .value_name("OUT")
        .help(help)
}

/// The filter that no row of the dataset may satisfy.
fn unless_option<'a>(alloc: Global) -> Arg<'a>
    ensures { IsArg (option (codes "unless")) result }
{
    Arg::new(alloc, "unless")
        .long("unless")
        .value_name("JSON")
        .help("Appends nothing if a row of the dataset satisfies this filter")
}

/// The flag by which all groups are rewritten.
fn every_flag<'a>(alloc: Global) -> Arg<'a>
    ensures { IsArg (flag (codes "all")) result }
{
    Arg::new(alloc, "all")
        .long("all")
        .action(ArgAction::SetTrue)
        .help("Rewrites all groups")
}

/// The same, in place of group numbers.
fn all_flag<'a>(alloc: Global) -> Result<Arg<'a>, AllocError>
    ensures { IfOk result (IsArg (bound (flag (codes "all")))) }
{
    every_flag(alloc).conflicts_with("NUMBER")
}

/// The number of rows below which groups are rewritten, in place of group numbers or of all groups.
fn small_option<'a>(alloc: Global) -> Result<Arg<'a>, AllocError>
    ensures { IfOk result (IsArg (bound (of_u64 (option (codes "min-rows"))))) }
{
    let help = "Rewrites groups of fewer rows that stand next to each other";
    min_rows_option(alloc, help)
        .conflicts_with("NUMBER")?
        .conflicts_with("all")
}

/// The numbers of the groups that are rewritten, where neither of the other two is given.
fn rewritten_numbers<'a>(alloc: Global) -> Result<Arg<'a>, AllocError>
    ensures { IfOk result (IsArg (bound spec.numbers)) }
{
    numbers_named(alloc, "The numbers of the groups to rewrite")
        .required_unless_present("min-rows")?
        .required_unless_present("all")
}

/// The flag by which groups are printed with what is known of their columns.
fn stats_flag<'a>(alloc: Global) -> Arg<'a>
    ensures { IsArg (flag (codes "stats")) result }
{
    Arg::new(alloc, "stats")
        .long("stats")
        .action(ArgAction::SetTrue)
        .help("Prints the least and the greatest value and the nulls of each column, too")
}

/// The flag by which a script ends at the first call that is refused.
fn stop_flag<'a>(alloc: Global) -> Arg<'a>
    ensures { IsArg (flag (codes "stop")) result }
{
    Arg::new(alloc, "stop")
        .long("stop")
        .action(ArgAction::SetTrue)
        .help("Ends at the first call that is refused, with its refusal and status 1")
}

fn filter_option<'a>(alloc: Global, help: &'a str) -> Arg<'a>
    ensures { IsArg (option (codes "filter")) result }
{
    Arg::new(alloc, "filter")
        .long("filter")
        .value_name("JSON")
        .help(help)
}

/// The filter of the rows that are removed, in place of group numbers.
fn removal_filter<'a>(alloc: Global) -> Result<Arg<'a>, AllocError>
    ensures { IfOk result (IsArg (bound (option (codes "filter")))) }
{
    filter_option(alloc, "Removes the rows that satisfy this filter")
        .conflicts_with("NUMBER")?
        .required_unless_present("NUMBER")
}

fn create_command<'a>(alloc: Global, styles: Styles<'a>) -> Result<Command<'a>, Error>
    ensures { IfOk result (IsCommand (spec.create styles.entry)) }
{
    let create = with_help(
        on_dataset(alloc, "create")?,
        help::CREATE,
        help::CREATE_LONG,
        help::CREATE_EXAMPLE,
    )
    .arg(named(
        alloc,
        "SCHEMA",
        "The file with the columns, as JSON; - is standard input",
    ))?
    .arg(words_named(
        alloc,
        "KEY",
        "The names of the key columns, in the order of the folders",
    ))?;
    let create = with_options(alloc, create, styles)?;
    Ok(create)
}

fn append_command<'a>(alloc: Global, styles: Styles<'a>) -> Result<Command<'a>, Error>
    ensures { IfOk result (IsCommand (spec.append styles.entry)) }
{
    let append = with_help(
        on_dataset(alloc, "append")?,
        help::APPEND,
        help::APPEND_LONG,
        help::APPEND_EXAMPLE,
    )
    .arg(named(alloc, "ROWS", ROWS_HELP))?
    .arg(unless_option(alloc))?
    .arg(text_flag(alloc))?;
    let append = with_options(alloc, append, styles)?.arg(quiet_flag(alloc))?;
    Ok(append)
}

fn import_command<'a>(alloc: Global, styles: Styles<'a>) -> Result<Command<'a>, Error>
    ensures { IfOk result (IsCommand (spec.import_files styles.entry)) }
{
    let import = with_help(
        on_dataset(alloc, "import")?,
        help::IMPORT,
        help::IMPORT_LONG,
        help::IMPORT_EXAMPLE,
    )
    .arg(files_named(alloc))?
    .arg(unless_option(alloc))?
    .arg(text_flag(alloc))?;
    let import = with_options(alloc, import, styles)?.arg(quiet_flag(alloc))?;
    Ok(import)
}

fn query_command<'a>(alloc: Global, styles: Styles<'a>) -> Result<Command<'a>, Error>
    ensures { IfOk result (IsCommand (spec.query styles.entry)) }
{
    let query = with_help(
        on_dataset(alloc, "query")?,
        help::QUERY,
        help::QUERY_LONG,
        help::QUERY_EXAMPLE,
    )
    .arg(filter_option(alloc, "Prints only the rows that satisfy this filter"))?
    .arg(limit_option(alloc))?
    .arg(out_option(alloc, QUERY_OUT_HELP))?
    .arg(text_flag(alloc))?
    .arg(words_named(
        alloc,
        "COLUMN",
        "The columns to print; all where none is named",
    ))?;
    let query = with_options(alloc, query, styles)?.arg(quiet_flag(alloc))?;
    Ok(query)
}

fn count_command<'a>(alloc: Global) -> Result<Command<'a>, Error>
    ensures { IfOk result (IsCommand spec.count) }
{
    let count = with_help(
        on_dataset(alloc, "count")?,
        help::COUNT,
        help::COUNT_LONG,
        help::COUNT_EXAMPLE,
    )
    .arg(filter_option(alloc, "Counts only the rows that satisfy this filter"))?
    .arg(text_flag(alloc))?;
    Ok(count)
}

fn groups_command<'a>(alloc: Global) -> Result<Command<'a>, Error>
    ensures { IfOk result (IsCommand spec.groups) }
{
    let groups = with_help(
        on_dataset(alloc, "groups")?,
        help::GROUPS,
        help::GROUPS_LONG,
        help::GROUPS_EXAMPLE,
    )
    .arg(stats_flag(alloc))?
    .arg(text_flag(alloc))?;
    Ok(groups)
}

fn schema_command<'a>(alloc: Global) -> Result<Command<'a>, Error>
    ensures { IfOk result (IsCommand spec.schema) }
{
    let schema = with_help(
        Command::new(alloc, "schema"),
        help::SCHEMA,
        help::SCHEMA_LONG,
        help::SCHEMA_EXAMPLE,
    )
    .arg(named(
        alloc,
        "PATH",
        "The folder of the dataset, or a Parquet file",
    ))?;
    let schema = with_waiting(alloc, schema)?;
    Ok(schema)
}

fn remove_command<'a>(alloc: Global, styles: Styles<'a>) -> Result<Command<'a>, Error>
    ensures { IfOk result (IsCommand (spec.remove styles.entry)) }
{
    let remove = with_help(
        with_usage(on_dataset(alloc, "remove")?, help::REMOVE_USAGE),
        help::REMOVE,
        help::REMOVE_LONG,
        help::REMOVE_EXAMPLE,
    )
    .arg(removal_filter(alloc)?)?
    .arg(numbers_named(alloc, "The numbers of the groups to remove"))?
    .arg(text_flag(alloc))?;
    let remove = with_kept_options(alloc, remove, styles)?.arg(quiet_flag(alloc))?;
    Ok(remove)
}

/// The number of rows below which a group is small.
pub fn min_rows_option<'a>(alloc: Global, help: &'a str) -> Arg<'a>
    ensures { IsArg (of_u64 (option (codes "min-rows"))) result }
{
    Arg::new(alloc, "min-rows")
        .long("min-rows")
        .value_name("N")
        .value_parser(value_parser!(u64))
        .help(help)
}

fn rewrite_command<'a>(alloc: Global, styles: Styles<'a>) -> Result<Command<'a>, Error>
    ensures { IfOk result (IsCommand (spec.rewrite styles.entry)) }
{
    let rewrite = with_help(
        with_usage(on_dataset(alloc, "rewrite")?, help::REWRITE_USAGE),
        help::REWRITE,
        help::REWRITE_LONG,
        help::REWRITE_EXAMPLE,
    )
    .arg(small_option(alloc)?)?
    .arg(rewritten_numbers(alloc)?)?
    .arg(all_flag(alloc)?)?;
    let rewrite = with_kept_options(alloc, rewrite, styles)?.arg(quiet_flag(alloc))?;
    Ok(rewrite)
}

fn run_command<'a>(alloc: Global, styles: Styles<'a>) -> Result<Command<'a>, Error>
    ensures { IfOk result (IsCommand (spec.run styles.entry)) }
{
    let run = with_help(
        on_dataset(alloc, "run")?,
        help::RUN,
        help::RUN_LONG,
        help::RUN_EXAMPLE,
    )
    .arg(named(
        alloc,
        "SCRIPT",
        "The file with the calls, as lines of JSON; - is standard input",
    ))?
    .arg(stop_flag(alloc))?
    .arg(text_flag(alloc))?;
    let run = with_options(alloc, run, styles)?;
    Ok(run)
}

fn add_column_command<'a>(alloc: Global) -> Result<Command<'a>, Error>
    ensures { IfOk result (IsCommand spec.add_column) }
{
    let add = with_help(
        on_dataset(alloc, "add-column")?,
        help::ADD_COLUMN,
        help::ADD_COLUMN_LONG,
        help::ADD_COLUMN_EXAMPLE,
    )
    .arg(named(
        alloc,
        "SCHEMA",
        "The file with the one column, as JSON; - is standard input",
    ))?;
    Ok(add)
}

/// The program's commands, with those on a dataset.
pub fn with_commands<'a>(
    alloc: Global,
    program: Command<'a>,
    styles: Styles<'a>,
) -> Result<Command<'a>, Error>
    ensures { IfOk result (AddsRules (spec.with_dataset_commands styles.entry) program.entry) }
{
    let program = program
        .subcommand(create_command(alloc, styles)?)?
        .subcommand(append_command(alloc, styles)?)?
        .subcommand(import_command(alloc, styles)?)?
        .subcommand(query_command(alloc, styles)?)?
        .subcommand(count_command(alloc)?)?
        .subcommand(groups_command(alloc)?)?
        .subcommand(schema_command(alloc)?)?
        .subcommand(remove_command(alloc, styles)?)?
        .subcommand(rewrite_command(alloc, styles)?)?
        .subcommand(add_column_command(alloc)?)?
        .subcommand(run_command(alloc, styles)?)?;
    Ok(program)
}
