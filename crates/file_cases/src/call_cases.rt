//! Calls and answers as JSON.

use crate::json_cases::shown_elements;
use crate::schemas::{rows_of, shown_rows};
use bits::{R, Refusal};
use case_words::{
    count, hexed, listed, natural, naturals, part, shown_numbers, text_after, value_of, word,
    words_from,
};
use jsonrows::{ScriptReader, answer_to, call_from, schema_from};
use schema::{Key, Schema};
use std::alloc::Global;
use table::{Answer, Batch, Call, GroupInfo};

/// What a case of this subject gives; None where the operation is of another one.
pub fn outcome(alloc: Global, operation: &str, words: &[&str], line: &str) -> Option<R<String>> {
    let outcome = match operation {
        "call" => call(alloc, words, line),
        "script" => script(alloc, words),
        "answer" => answer(alloc, words),
        "answer-refused" => refused(alloc, words),
        "answer-groups" => groups(alloc, words),
        "answer-batch" => batch(alloc, words),
        _ => return None,
    };
    Some(outcome)
}

/// A call's name, and a number of it, if it has one.
fn named(call: &Call) -> (&'static str, Option<u64>) {
    match call {
        Call::Append(_) => ("append", None),
        Call::BeginAppend => ("begin_append", None),
        Call::Stage(job, _) => ("stage", Some(*job)),
        Call::Commit(job) => ("commit", Some(*job)),
        Call::Abort(job) => ("abort", Some(*job)),
        Call::Remove(terms) => ("remove", Some(terms.len() as u64)),
        Call::RemoveGroups(_) => ("remove_groups", None),
        Call::BeginRewrite(_) => ("begin_rewrite", None),
        Call::StepRewrite(job) => ("step_rewrite", Some(*job)),
        Call::PlanRewrite(least) => ("plan_rewrite", Some(*least)),
        Call::Query(terms, _) => ("query", Some(terms.len() as u64)),
        Call::Fetch(cursor) => ("fetch", Some(*cursor)),
        Call::Close(cursor) => ("close", Some(*cursor)),
        Call::Groups => ("groups", None),
        Call::Count(terms) => ("count", Some(terms.len() as u64)),
        Call::Import(_) => ("import", None),
        Call::AddColumn(_) => ("add_column", None),
        Call::Reopen => ("reopen", None),
    }
}

/// What a call holds besides its name and its number.
fn held(alloc: Global, schema: &Schema, call: &Call) -> R<String> {
    match call {
        Call::Append(rows) => shown_rows(alloc, schema, rows.as_slice()),
        Call::Stage(_, rows) => shown_rows(alloc, schema, rows.as_slice()),
        Call::RemoveGroups(numbers) => shown_numbers(alloc, numbers.as_slice()),
        Call::BeginRewrite(numbers) => shown_numbers(alloc, numbers.as_slice()),
        Call::Query(_, Some(names)) => listed(alloc, names.as_slice()),
        Call::Query(_, None) => Ok(String::from_str(alloc, "all")?),
        Call::Import(bytes) => hexed(alloc, bytes.as_slice()),
        Call::AddColumn(elements) => shown_elements(alloc, elements.as_slice()),
        _ => Ok(String::new(alloc)),
    }
}

/// Appends a text after a space, where it has none and is not empty.
fn put_after_space(text: &mut String, more: &str) -> R<()> {
    if !more.is_empty() && !more.starts_with(' ') {
        text.push(' ')?;
    }
    text.push_str(more)?;
    Ok(())
}

/// A call: its name, a number of it (of a filter: how many ANDs it has), and what it holds.
fn shown_call(alloc: Global, schema: &Schema, call: &Call) -> R<String> {
    let (name, number) = named(call);
    let mut text = String::from_str(alloc, name)?;
    if let Some(number) = number {
        let shown = format!(in alloc; "{number}")?;
        put_after_space(&mut text, shown.as_str())?;
    }
    let held = held(alloc, schema, call)?;
    put_after_space(&mut text, held.as_str())?;
    Ok(text)
}

/// `call SCHEMA TEXT`: the call.
fn call(alloc: Global, words: &[&str], line: &str) -> R<String> {
    let schema = schema_from(alloc, word(words, 1)?)?;
    let call = call_from(alloc, &schema, text_after(line, 2))?;
    shown_call(alloc, &schema, &call)
}

/// `script SCHEMA CALL..`: whether each line of a script is read, over the columns that those before it add.
fn script(alloc: Global, words: &[&str]) -> R<String> {
    let mut script = ScriptReader::new(schema_from(alloc, word(words, 1)?)?);
    let mut items = Vec::new(alloc);
    for line in words_from(words, 2) {
        let said = match script.read(alloc, line) {
            Ok(_) => String::from_str(alloc, "read")?,
            Err(refusal) => format!(in alloc; "{refusal}")?,
        };
        items.push(said)?;
    }
    listed(alloc, items.as_slice())
}

/// The schema of answers that name no column.
const NO_COLUMNS: &str = r#"[{"name":"x","rep":"required","type":"int64"}]"#;

/// An answer of a number, or of none.
fn answer_of(alloc: Global, words: &[&str]) -> R<Answer> {
    let number = match words.get(2) {
        Some(word) => natural(word)?,
        None => 0,
    };
    match word(words, 1)? {
        "done" => Ok(Answer::Done(number)),
        "job" => Ok(Answer::Job(number)),
        "cursor" => Ok(Answer::Cursor(number)),
        "end" => Ok(Answer::End),
        "more" => Ok(Answer::More(number > 0)),
        "count" => Ok(Answer::Count(number)),
        "ok" => Ok(Answer::Accepted),
        "plan" => Ok(Answer::Plan(naturals(alloc, words_from(words, 2))?)),
        _ => Err(Refusal::Script),
    }
}

/// An answer as it is printed.
fn printed(alloc: Global, answer: &Answer) -> R<String> {
    let schema = schema_from(alloc, NO_COLUMNS)?;
    answer_to(alloc, &schema, answer)
}

/// `answer NAME [NUMBER..]`: the answer, as it is printed.
fn answer(alloc: Global, words: &[&str]) -> R<String> {
    printed(alloc, &answer_of(alloc, words)?)
}

/// A refusal by its name, of those that are printed in some way of their own, and of some others.
fn refusal_of(alloc: Global, name: &str) -> R<Refusal> {
    let path = String::from_str(alloc, "a.b")?;
    match name {
        "Truncated" => Ok(Refusal::Truncated),
        "Float" => Ok(Refusal::Float(path)),
        "Int96" => Ok(Refusal::Int96(path)),
        "Full" => Ok(Refusal::Full),
        "Script" => Ok(Refusal::Script),
        _ => Err(Refusal::Script),
    }
}

/// `answer-refused NAME`: a refusal, as it is printed; Float and Int96 are of the path `a.b`.
fn refused(alloc: Global, words: &[&str]) -> R<String> {
    let refusal = refusal_of(alloc, word(words, 1)?)?;
    printed(alloc, &Answer::Refused(refusal))
}

/// A group of its number, rows, bytes and the value of its key.
fn group_of(alloc: Global, words: &[&str]) -> R<GroupInfo> {
    let mut values = Vec::new(alloc);
    values.push(value_of(alloc, word(words, 3)?)?)?;
    Ok(GroupInfo {
        number: natural(word(words, 0)?)?,
        rows: natural(word(words, 1)?)?,
        bytes: natural(word(words, 2)?)?,
        key: Key { values },
    })
}

/// `answer-groups SCHEMA NUMBER ROWS BYTES VALUE`: a group, as it is printed.
fn groups(alloc: Global, words: &[&str]) -> R<String> {
    let schema = schema_from(alloc, word(words, 1)?)?;
    let mut groups = Vec::new(alloc);
    groups.push(group_of(alloc, words_from(words, 2))?)?;
    answer_to(alloc, &schema, &Answer::Groups(groups))
}

/// `answer-batch SCHEMA PLACE.. + ROW..`: rows of the columns at these places, as they are printed.
fn batch(alloc: Global, words: &[&str]) -> R<String> {
    let named = part(words, 0);
    let schema = schema_from(alloc, word(named, 0)?)?;
    let mut places = Vec::new(alloc);
    for place in 1..named.len() {
        places.push(count(named, place)?)?;
    }
    let rows = rows_of(alloc, &schema, part(words, 1))?;
    answer_to(alloc, &schema, &Answer::Batch(Batch { places, rows }))
}
