//! Filters that are read from files.

ghost use Rattle.std.specs.Prelude.{◌≡◌, ◌⊎◌, None, option_and_then, IfOk, IfErr, IsUtf8};
ghost use Rattle.bits.specs.Refusals.{HasCause};
ghost use Rattle.answers.specs.Making.{lent_text};
ghost use Rattle.commands.specs.Calls.{filter_by_words, filter_path, after_at, HasFilter, IsFiltered};

use answers::text_of;
use bits::{R, Refusal};
use dataset_words::{Call, Change, Question, Task};
use std::alloc::Global;

/// The filter that a call has by its words, if it has one.
fn filter_of<'a>(call: &Call<'a>) -> Option<&'a str>
    ensures { lent_text result ≡ filter_by_words call.now.task }
{
    match &call.task {
        Task::Ask(Question::Query { filter, .. }) => *filter,
        Task::Ask(Question::Count { filter }) => *filter,
        Task::Change(Change::Append { unless, .. }) => *unless,
        Task::Change(Change::Import { unless, .. }) => *unless,
        Task::Change(Change::Remove { filter }) => Some(*filter),
        _ => None,
    }
}

/// The file that has the filter of a call, where its words name one: `@FILE`. No filter begins so.
pub fn filter_file<'a>(call: &Call<'a>) -> Option<&'a str>
    ensures { lent_text result ≡ filter_path call.now.task }
{
    let filter = filter_of(call)?;
    after_at(filter)
}

/// What follows a first `@`.
fn after_at(text: &str) -> Option<&str>
    ensures { lent_text result ≡ after_at text.now }
{
    text.strip_prefix('@')
}

/// The call with the filter that is the text of a file. Refused Script where that is no text, or the call has no filter; else it
/// fails only when out of memory.
pub fn with_filter<'a>(alloc: Global, call: &'a Call<'a>, bytes: &'a [u8]) -> R<Call<'a>>
    ensures filtered { IfOk result (λ asked. IsFiltered call.now bytes.now asked × IsUtf8 bytes.now) }
    ensures which { IfErr result (HasCause (λ e. (e ≡ Refusal.Script) × ((IsUtf8 bytes.now → ⊥) ⊎ (filter_by_words call.now.task ≡ None)))) }
{
    let text = text_of(bytes)?;
    Ok(Call {
        folder: call.folder,
        waits: call.waits,
        options: call.options,
        keeps_style: call.keeps_style,
        texts: call.texts,
        task: task_with_filter(alloc, &call.task, text)?,
    })
}

/// The task with this filter. Refused Script where it has none; else it fails only when out of memory.
fn task_with_filter<'a>(alloc: Global, task: &'a Task<'a>, text: &'a str) -> R<Task<'a>>
    ensures filtered { IfOk result (HasFilter task.now text.now) }
    ensures which { IfErr result (HasCause (λ e. (e ≡ Refusal.Script) × (filter_by_words task.now ≡ None))) }
{
    match task {
        Task::Ask(Question::Query { columns, limit, .. }) => Ok(Task::Ask(Question::Query {
            filter: Some(text),
            columns: Vec::from_slice(alloc, columns.as_slice())?,
            limit: *limit,
        })),
        Task::Ask(Question::Count { .. }) => Ok(Task::Ask(Question::Count { filter: Some(text) })),
        Task::Change(Change::Append { rows, .. }) => Ok(Task::Change(Change::Append {
            rows: *rows,
            unless: Some(text),
        })),
        Task::Change(Change::Import { files, .. }) => Ok(Task::Change(Change::Import {
            files: Vec::from_slice(alloc, files.as_slice())?,
            unless: Some(text),
        })),
        Task::Change(Change::Remove { .. }) => Ok(Task::Change(Change::Remove { filter: text })),
        _ => Err(Refusal::Script),
    }
}
