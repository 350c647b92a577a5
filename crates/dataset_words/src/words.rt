//! What is asked for by the words of the commands on a dataset.

ghost use Rattle.std.specs.Prelude.{◌≡◌, false, IfNone, IfSome, IfOk, codes, map, option_map};
ghost use Rattle.bits.specs.Refusals.{RefusedMemoryOnly};
ghost use Rattle.clap.specs.Matches.{found_of};
ghost use Rattle.clap.specs.declared.parser.matches.Found.{Found};
ghost use Rattle.dataset_words.specs.Asked.{HasFlag, HasTexts, MayHaveText, MayHaveNumber, HasNumberOr, HasNumbers, AreNumbers, HasNoNumber, texts_of};
ghost use Rattle.dataset_words.specs.Asked.{HasQuestion, HasChange, HasTask, HasFolder, HasWaiting, HasMet, HasNone, LacksPart, IsCallOf, IsLookCall};
ghost use Rattle.dataset_words.specs.Words.{task_word, question_word, change_word, look_word};
ghost use Rattle.dataset_words.specs.Words.{is_task_word, is_question_word, is_change_word, is_change_of_file, is_change_of_rows, is_file_word};

use crate::call::{Call, Change, Look, Question, Task};
use crate::options::{keeps_style_in, options_in};
use bits::R;
use clap::ArgMatches;
use footer::WriteOptions;
use std::alloc::Global;

/// The words that an argument was given.
pub fn words_in<'a>(alloc: Global, matches: &ArgMatches<'a>, name: &str) -> R<Vec<&'a str>>
    ensures which { RefusedMemoryOnly result }
    ensures texts { IfOk result (λ words. HasTexts (found_of matches.now) name.now words.items) }
{
    let words = matches.get_strs(name).unwrap_or(&[]);
    let words = Vec::from_slice(alloc, words)?;
    Ok(words)
}

/// The group numbers that were given. None where one is no number. It fails only when out of memory.
fn numbers_in(alloc: Global, matches: &ArgMatches<'_>) -> R<Option<Vec<u64>>>
    ensures has { IfOk result (λ known. IfSome known (λ numbers. HasNumbers (found_of matches.now) 64 (codes "NUMBER") numbers.items)) }
    ensures none { IfOk result (λ known. IfNone known (HasNoNumber (texts_of (found_of matches.now) (codes "NUMBER")))) }
    ensures which { RefusedMemoryOnly result }
{
    let words = words_in(alloc, matches, "NUMBER")?;
    numbers_of(alloc, words.as_slice())
}

/// The numbers that words are. None where one is no number. It fails only when out of memory.
fn numbers_of(alloc: Global, words: &[&str]) -> R<Option<Vec<u64>>>
    ensures are { IfOk result (λ known. IfSome known (λ numbers. AreNumbers 64 (map (λ word. word.now) words.now) numbers.items)) }
    ensures none { IfOk result (λ known. IfNone known (HasNoNumber (map (λ word. word.now) words.now))) }
    ensures which { RefusedMemoryOnly result }
{
    let mut numbers = Vec::new(alloc);
    for word in words {
        match word.parse::<u64>() {
            Ok(number) => numbers.push(number)?,
            // Each passed the parser of its argument, so that this does not come.
            Err(_) => return Ok(None),
        }
    }
    Ok(Some(numbers))
}

/// The change that a command makes that names a file.
fn change_of_file<'a>(word: &str, matches: &ArgMatches<'a>) -> Option<Change<'a>>
    ensures word { IfSome result (λ change. change_word change ≡ word.now) }
    ensures asked { IfSome result (HasChange (found_of matches.now)) }
    ensures none { IfNone result (HasNone (is_change_of_file word.now) word.now (found_of matches.now)) }
{
    match word {
        "append" => Some(Change::Append {
            rows: matches.get_str("ROWS")?,
            unless: matches.get_str("unless"),
        }),
        "add-column" => Some(Change::AddColumn {
            schema: matches.get_str("SCHEMA")?,
        }),
        _ => None,
    }
}

/// The change that a command makes that names files, rows or groups, any number of them.
fn change_of_rows<'a>(alloc: Global, word: &str, matches: &ArgMatches<'a>) -> R<Option<Change<'a>>>
    ensures word { IfOk result (λ found. IfSome found (λ change. change_word change ≡ word.now)) }
    ensures asked { IfOk result (λ found. IfSome found (HasChange (found_of matches.now))) }
    ensures none { IfOk result (λ found. IfNone found (HasNone (is_change_of_rows word.now) word.now (found_of matches.now))) }
    ensures which { RefusedMemoryOnly result }
{
    match word {
        "import" => Ok(Some(Change::Import {
            files: words_in(alloc, matches, "FILE")?,
            unless: matches.get_str("unless"),
        })),
        "remove" => removal_in(alloc, matches),
        "rewrite" => rewrite_in(alloc, matches),
        _ => Ok(None),
    }
}

/// The rows or the groups that are removed. None where what is to be a number is none.
fn removal_in<'a>(alloc: Global, matches: &ArgMatches<'a>) -> R<Option<Change<'a>>>
    ensures word { IfOk result (λ found. IfSome found (λ change. change_word change ≡ codes "remove")) }
    ensures asked { IfOk result (λ found. IfSome found (HasChange (found_of matches.now))) }
    ensures none { IfOk result (λ found. IfNone found (HasNoNumber (texts_of (found_of matches.now) (codes "NUMBER")))) }
    ensures which { RefusedMemoryOnly result }
{
    match matches.get_str("filter") {
        Some(filter) => Ok(Some(Change::Remove { filter })),
        None => match numbers_in(alloc, matches)? {
            Some(numbers) => Ok(Some(Change::RemoveGroups { numbers })),
            None => Ok(None),
        },
    }
}

/// The groups that are written anew. None where what is to be a number is none.
fn rewrite_in<'a>(alloc: Global, matches: &ArgMatches<'a>) -> R<Option<Change<'a>>>
    ensures word { IfOk result (λ found. IfSome found (λ change. change_word change ≡ codes "rewrite")) }
    ensures asked { IfOk result (λ found. IfSome found (HasChange (found_of matches.now))) }
    ensures none { IfOk result (λ found. IfNone found (HasNoNumber (texts_of (found_of matches.now) (codes "NUMBER")))) }
    ensures which { RefusedMemoryOnly result }
{
    if matches.get_flag("all") {
        return Ok(Some(Change::RewriteAll));
    }
    if let Some(min_rows) = matches.get_one::<u64>("min-rows") {
        return Ok(Some(Change::RewriteSmall { min_rows }));
    }
    match numbers_in(alloc, matches)? {
        Some(numbers) => Ok(Some(Change::Rewrite { numbers })),
        None => Ok(None),
    }
}

/// The change that a command makes.
fn change_of<'a>(alloc: Global, word: &str, matches: &ArgMatches<'a>) -> R<Option<Change<'a>>>
    ensures word { IfOk result (λ found. IfSome found (λ change. change_word change ≡ word.now)) }
    ensures asked { IfOk result (λ found. IfSome found (HasChange (found_of matches.now))) }
    ensures none { IfOk result (λ found. IfNone found (HasNone (is_change_word word.now) word.now (found_of matches.now))) }
    ensures which { RefusedMemoryOnly result }
{
    match change_of_file(word, matches) {
        Some(change) => Ok(Some(change)),
        None => change_of_rows(alloc, word, matches),
    }
}

/// The question that a command asks.
fn question_of<'a>(alloc: Global, word: &str, matches: &ArgMatches<'a>) -> R<Option<Question<'a>>>
    ensures word { IfOk result (λ found. IfSome found (λ question. question_word question ≡ word.now)) }
    ensures asked { IfOk result (λ found. IfSome found (HasQuestion (found_of matches.now))) }
    ensures none { IfOk result (λ found. IfNone found (is_question_word word.now ≡ false)) }
    ensures which { RefusedMemoryOnly result }
{
    let filter = matches.get_str("filter");
    let question = match word {
        "query" => Question::Query {
            filter,
            columns: words_in(alloc, matches, "COLUMN")?,
            limit: limit_in(matches),
        },
        "count" => Question::Count { filter },
        "groups" => Question::Groups {
            stats: matches.get_flag("stats"),
        },
        "schema" => Question::Schema,
        _ => return Ok(None),
    };
    Ok(Some(question))
}

/// What a command is to do that makes a dataset, or runs a script.
fn task_of_file<'a>(alloc: Global, word: &str, matches: &ArgMatches<'a>) -> R<Option<Task<'a>>>
    ensures word { IfOk result (λ found. IfSome found (λ task. task_word task ≡ word.now)) }
    ensures asked { IfOk result (λ found. IfSome found (HasTask (found_of matches.now))) }
    ensures none { IfOk result (λ found. IfNone found (HasNone (is_file_word word.now) word.now (found_of matches.now))) }
    ensures which { RefusedMemoryOnly result }
{
    let task = match word {
        "create" => match matches.get_str("SCHEMA") {
            Some(schema) => Task::Create {
                schema,
                keys: words_in(alloc, matches, "KEY")?,
            },
            None => return Ok(None),
        },
        "run" => match matches.get_str("SCRIPT") {
            Some(script) => Task::Run {
                script,
                stops: matches.get_flag("stop"),
            },
            None => return Ok(None),
        },
        _ => return Ok(None),
    };
    Ok(Some(task))
}

/// What a command is to do.
fn task_of<'a>(alloc: Global, word: &str, matches: &ArgMatches<'a>) -> R<Option<Task<'a>>>
    ensures word { IfOk result (λ found. IfSome found (λ task. task_word task ≡ word.now)) }
    ensures asked { IfOk result (λ found. IfSome found (HasTask (found_of matches.now))) }
    ensures none { IfOk result (λ found. IfNone found (HasNone (is_task_word word.now) word.now (found_of matches.now))) }
    ensures which { RefusedMemoryOnly result }
{
    if let Some(question) = question_of(alloc, word, matches)? {
        return Ok(Some(Task::Ask(question)));
    }
    if let Some(change) = change_of(alloc, word, matches)? {
        return Ok(Some(Task::Change(change)));
    }
    task_of_file(alloc, word, matches)
}

/// The folder that a command is on; of `schema` it may be a file.
fn folder_in<'a>(matches: &ArgMatches<'a>) -> Option<&'a str>
    ensures { HasFolder (found_of matches.now) (option_map (λ folder. folder.now) result) }
{
    matches.get_str("DIR").or(matches.get_str("PATH"))
}

/// What was found for the arguments of the command of this word; None where the words name another command.
pub fn found_for<'m, 'a>(matches: &'m ArgMatches<'a>, word: &str) -> Option<&'m ArgMatches<'a>>
    ensures met { IfSome result (λ found. HasMet matches.now word.now (found_of found.now)) }
    ensures none { IfNone result ((found : Found) → HasMet matches.now word.now found → ⊥) }
{
    matches.subcommand_matches(word)
}

/// The call on a dataset that the command of this word asks for, by what was found for its arguments. None for another word, and
/// where something that is required was not found.
pub fn call_in<'a>(alloc: Global, word: &str, found: &ArgMatches<'a>) -> R<Option<Call<'a>>>
    ensures word { IfOk result (λ known. IfSome known (λ call. task_word call.task ≡ word.now)) }
    ensures asked { IfOk result (λ known. IfSome known (IsCallOf word.now (found_of found.now))) }
    ensures lacks { IfOk result (λ known. IfNone known (LacksPart word.now (found_of found.now))) }
    ensures which { RefusedMemoryOnly result }
{
    let task = task_of(alloc, word, found)?;
    match (folder_in(found), task) {
        (Some(folder), Some(task)) => Ok(Some(Call {
            folder,
            waits: seconds_in(found),
            options: options_in(found),
            keeps_style: keeps_style_in(found),
            texts: texts_in(found),
            task,
        })),
        _ => Ok(None),
    }
}

/// Whether dates, times, timestamps and decimals are texts, by the words; not where they do not say it.
pub fn texts_in(matches: &ArgMatches<'_>) -> bool
    ensures { HasFlag (found_of matches.now) (codes "text") result }
{
    matches.get_flag("text")
}

/// Whether no progress is to be shown, by the words; it is where they do not say it.
pub fn quiet_in(matches: &ArgMatches<'_>) -> bool
    ensures { HasFlag (found_of matches.now) (codes "quiet") result }
{
    matches.get_flag("quiet")
}

/// The file that gets what a command would print, where the words name one; `-` is standard output.
pub fn out_in<'a>(matches: &ArgMatches<'a>) -> Option<&'a str>
    ensures { MayHaveText (found_of matches.now) (codes "out") result }
{
    matches.get_str("out")
}

/// How many rows are printed at most, where the words say it.
pub fn limit_in(matches: &ArgMatches<'_>) -> Option<u64>
    ensures { MayHaveNumber (found_of matches.now) 64 (codes "limit") result }
{
    matches.get_one::<u64>("limit")
}

/// The number of rows below which a group is small, where the words do not say it: half of the default of `--group-rows`.
const SMALL_ROWS: u64 = 65_536;

/// The number of rows below which a group is small: as the words say, or else [`SMALL_ROWS`].
pub fn min_rows_in(matches: &ArgMatches<'_>) -> u64
    ensures { HasNumberOr (found_of matches.now) 64 (codes "min-rows") 65536 result }
{
    matches.get_one::<u64>("min-rows").unwrap_or(SMALL_ROWS)
}

/// The seconds that a call waits at most for a lock, by the words; None where they do not say it.
fn seconds_in(matches: &ArgMatches<'_>) -> Option<u64>
    ensures { HasWaiting (found_of matches.now) result }
{
    if matches.get_flag("no-wait") {
        Some(0)
    } else {
        matches.get_one::<u64>("wait")
    }
}

/// The call that looks at the folder of a dataset, as `look` says.
pub fn look_call<'a>(folder: &'a str, matches: &ArgMatches<'_>, look: Look<'a>) -> Call<'a>
    ensures word { task_word result.task ≡ look_word look.entry }
    ensures asked { IsLookCall (found_of matches.now) folder.entry look.entry result }
{
    Call {
        folder,
        waits: seconds_in(matches),
        options: WriteOptions::standard(),
        keeps_style: false,
        texts: texts_in(matches),
        task: Task::Look(look),
    }
}
