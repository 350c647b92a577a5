//! How files are written, by the words.

ghost use Rattle.std.specs.Prelude.{◌≡◌, ◌↔◌, Some, IsTrue, IfOk, codes, option_map};
ghost use Rattle.clap.specs.Matches.{found_of};
ghost use Rattle.dataset_words.specs.Asked.{HasOptions, KeepsStyle};
ghost use Rattle.dataset_words.specs.CommandLine.{AddsRules, IsArg, option, of_u32, of_u8, or_else, style_option, with_rows, with_style};
ghost use Rattle.dataset_words.specs.Styles.{style_named};

use clap::{Arg, ArgMatches, Command, Error, value_parser};
use footer::WriteOptions;
use row_group::Style;
use std::alloc::Global;

/// The words for the styles.
static STYLES: [&str; 5] = ["plain", "dictionary", "delta", "lengths", "split"];

/// The words for the styles, and that for the style of what is there.
static STYLES_OR_KEEP: [&str; 6] = ["plain", "dictionary", "delta", "lengths", "split", KEEP];

/// The word for the style of what is there.
const KEEP: &str = "keep";

/// The words that the option for the style takes.
#[derive(Clone, Copy)]
pub struct Styles<'a> {
    /// The words for the styles.
    pub words: &'a [&'a str],
    /// These, and the word for the style of what is there.
    pub words_or_keep: &'a [&'a str],
}

impl Styles<'static> {
    /// The words of the program.
    pub fn standard() -> Styles<'static> {
        Styles {
            words: STYLES.as_slice(),
            words_or_keep: STYLES_OR_KEEP.as_slice(),
        }
    }
}

fn group_rows_option<'a>(alloc: Global) -> Arg<'a>
    ensures { IsArg (or_else (codes "131072") (of_u32 (option (codes "group-rows")))) result }
{
    Arg::new(alloc, "group-rows")
        .long("group-rows")
        .value_name("N")
        .value_parser(value_parser!(u32))
        .default_value("131072")
        .help("How many rows a row group has at most: 1 to 16777216")
}

fn page_rows_option<'a>(alloc: Global) -> Arg<'a>
    ensures { IsArg (or_else (codes "20000") (of_u32 (option (codes "page-rows")))) result }
{
    Arg::new(alloc, "page-rows")
        .long("page-rows")
        .value_name("N")
        .value_parser(value_parser!(u32))
        .default_value("20000")
        .help("How many rows a page has at most: 1 or more")
}

fn page_version_option<'a>(alloc: Global) -> Arg<'a>
    ensures { IsArg (or_else (codes "1") (of_u8 (option (codes "page-version")))) result }
{
    Arg::new(alloc, "page-version")
        .long("page-version")
        .value_name("N")
        .value_parser(value_parser!(u8))
        .default_value("1")
        .help("The version of the pages: 1 or 2")
}

/// The option for the style, which is one of these words.
fn style_option<'a>(alloc: Global, words: &'a [&'a str], help: &'a str) -> Arg<'a>
    ensures { IsArg (style_option words.entry) result }
{
    Arg::new(alloc, "style")
        .long("style")
        .value_name("STYLE")
        .default_value("plain")
        .value_parser(words)
        .help(help)
}

/// The command, with the options of the rows of groups and pages.
fn with_rows<'a>(alloc: Global, command: Command<'a>) -> Result<Command<'a>, Error>
    ensures { IfOk result (AddsRules with_rows command.entry) }
{
    let command = command
        .arg(group_rows_option(alloc))?
        .arg(page_rows_option(alloc))?
        .arg(page_version_option(alloc))?;
    Ok(command)
}

/// The command, with the options of those that write files.
pub fn with_options<'a>(
    alloc: Global,
    command: Command<'a>,
    styles: Styles<'a>,
) -> Result<Command<'a>, Error>
    ensures { IfOk result (AddsRules (with_style styles.entry.words) command.entry) }
{
    let style = style_option(alloc, styles.words, "The encodings of the values");
    let command = with_rows(alloc, command)?.arg(style)?;
    Ok(command)
}

/// The command, with the options of those that write the rows of groups anew.
pub fn with_kept_options<'a>(
    alloc: Global,
    command: Command<'a>,
    styles: Styles<'a>,
) -> Result<Command<'a>, Error>
    ensures { IfOk result (AddsRules (with_style styles.entry.words_or_keep) command.entry) }
{
    let style = style_option(
        alloc,
        styles.words_or_keep,
        "The encodings of the values; keep: those of the first group that is written anew",
    );
    let command = with_rows(alloc, command)?.arg(style)?;
    Ok(command)
}

/// Whether the words ask for the style of what is there.
pub fn keeps_style_in(matches: &ArgMatches<'_>) -> bool
    ensures { KeepsStyle (found_of matches.now) result }
{
    is_keep(matches.get_str("style"))
}

/// Whether a word is that for the style of what is there.
fn is_keep(word: Option<&str>) -> bool
    ensures { IsTrue result ↔ (option_map (λ text. text.now) word.entry ≡ Some (codes "keep")) }
{
    match word {
        Some(word) => word == KEEP,
        None => false,
    }
}

/// The style that a word of [`STYLES`] says; `plain` where none is said.
fn style_of(word: Option<&str>) -> Style
    ensures { result ≡ style_named (option_map (λ text. text.now) word.entry) }
{
    match word {
        Some("dictionary") => Style::Dictionary,
        Some("delta") => Style::Delta,
        Some("lengths") => Style::Lengths,
        Some("split") => Style::Split,
        _ => Style::Plain,
    }
}

/// How files are written, by the words; what they do not say is as in the standard options.
pub fn options_in(matches: &ArgMatches<'_>) -> WriteOptions
    ensures { HasOptions (found_of matches.now) result }
{
    let standard = WriteOptions::standard();
    let group_rows = matches.get_one::<u32>("group-rows");
    let page_rows = matches.get_one::<u32>("page-rows");
    let page_version = matches.get_one::<u8>("page-version");
    WriteOptions {
        group_rows: group_rows.unwrap_or(standard.group_rows),
        page_rows: page_rows.unwrap_or(standard.page_rows),
        page_version: page_version.unwrap_or(standard.page_version),
        style: style_of(matches.get_str("style")),
    }
}
