//! Rows of random schemas: in columns, in columns that were changed, and in files.

use crate::random::{Random, random_rows, random_schema};
use crate::schemas::are_same;
use assemble::{Cursor, assemble, count_rows};
use bits::{R, Refusal};
use case_words::{range, word};
use footer::{WriteOptions, read_file, write_file};
use row_group::Style;
use schema::{Column, Row, Schema, Value};
use shred::{shred, to_columns};
use std::alloc::Global;

/// What a case of this subject gives; None where the operation is of another one.
pub fn outcome(alloc: Global, operation: &str, words: &[&str]) -> Option<R<String>> {
    let outcome = match operation {
        "random-columns" => columns_of(alloc, words),
        "random-changes" => changes_of(alloc, words),
        "random-files" => files_of(alloc, words),
        _ => return None,
    };
    Some(outcome)
}

/// How many of the seeds did what they should.
fn told(alloc: Global, good: u64) -> R<String> {
    Ok(format!(in alloc; "{good} seeds")?)
}

/// The seeds of a word, `0..60`.
fn seeds(words: &[&str]) -> R<(i64, i64)> {
    range(word(words, 1)?).ok_or(Refusal::Script)
}

/// A random schema, and rows of it.
#[derive(Drop)]
struct Made {
    random: Random,
    schema: Schema,
    rows: Vec<Row>,
}

/// The random schema of a seed, with fewer random rows than `below`.
fn make(alloc: Global, seed: i64, below: u16) -> R<Made> {
    let mut random = Random {
        state: u64::try_from(seed).unwrap_or(0),
    };
    let schema = random_schema(alloc, &mut random)?;
    let rows = random_rows(alloc, &mut random, &schema, below)?;
    Ok(Made {
        random,
        schema,
        rows,
    })
}

/// The columns of the rows.
fn columns(alloc: Global, made: &Made) -> R<Vec<Column>> {
    let borrowed = shred(alloc, &made.schema, made.rows.as_slice())?;
    to_columns(alloc, borrowed.as_slice())
}

/// How many rows the columns have.
fn counted(alloc: Global, schema: &Schema, columns: &[Column]) -> R<u64> {
    let mut cursors = Vec::new(alloc);
    for column in columns {
        cursors.push(Cursor::new(column.entries.as_slice()))?;
    }
    count_rows(schema, cursors.as_mut_slice())
}

/// Whether the rows of a seed come again of their columns, and are counted.
fn come_again(alloc: Global, seed: i64) -> R<bool> {
    let made = make(alloc, seed, 5)?;
    let columns = columns(alloc, &made)?;
    let again = assemble(alloc, &made.schema, columns.as_slice())?;
    let count = counted(alloc, &made.schema, columns.as_slice())?;
    Ok(are_same(made.rows.as_slice(), again.as_slice()) && count == made.rows.len() as u64)
}

/// `random-columns SEEDS`: for how many seeds the random rows come again of their columns, and are counted.
fn columns_of(alloc: Global, words: &[&str]) -> R<String> {
    let (low, high) = seeds(words)?;
    let mut good: u64 = 0;
    for seed in low..high {
        if come_again(alloc, seed)? {
            good = good.saturating_add(1);
        }
    }
    told(alloc, good)
}

/// Changes a random entry: a level, or whether it has a value. Whether there was one to change.
fn change(random: &mut Random, columns: &mut [Column]) -> bool {
    let at = random.index(columns.len());
    let Some(column) = columns.get_mut(at) else {
        return false;
    };
    let at = random.index(column.entries.len());
    let Some(entry) = column.entries.get_mut(at) else {
        return false;
    };
    match random.below(4) {
        0 => entry.repetition = entry.repetition.wrapping_add(1),
        1 => entry.repetition = entry.repetition.wrapping_sub(1),
        2 => entry.definition = entry.definition.wrapping_sub(1),
        _ => {
            entry.value = match entry.value {
                None => Some(Value::Null),
                Some(_) => None,
            }
        }
    }
    true
}

/// Whether both refusals are Levels, or both are Value.
fn are_alike(refusal: &Refusal, count: &R<u64>) -> bool {
    match (refusal, count) {
        (Refusal::Levels, Err(Refusal::Levels)) => true,
        (Refusal::Value, Err(Refusal::Value)) => true,
        _ => false,
    }
}

/// Whether columns are refused, or have other rows than these; and they are counted accordingly.
fn is_told(alloc: Global, schema: &Schema, columns: &[Column], rows: &[Row]) -> bool {
    let count = counted(alloc, schema, columns);
    match assemble(alloc, schema, columns) {
        Ok(others) => {
            let counted = matches!(&count, Ok(n) if *n == others.len() as u64);
            counted && !are_same(rows, others.as_slice())
        }
        Err(refusal) => are_alike(&refusal, &count),
    }
}

/// Whether each of four changes of an entry of a seed's columns is told from the rows.
fn are_told(alloc: Global, seed: i64) -> R<bool> {
    let mut made = make(alloc, seed, 5)?;
    for _ in 0..4 {
        let mut changed = columns(alloc, &made)?;
        let is_changed = change(&mut made.random, changed.as_mut_slice());
        if is_changed
            && !is_told(
                alloc,
                &made.schema,
                changed.as_slice(),
                made.rows.as_slice(),
            )
        {
            return Ok(false);
        }
    }
    Ok(true)
}

/// `random-changes SEEDS`: for how many seeds no changed entry gives the same rows.
fn changes_of(alloc: Global, words: &[&str]) -> R<String> {
    let (low, high) = seeds(words)?;
    let mut good: u64 = 0;
    for seed in low..high {
        if are_told(alloc, seed)? {
            good = good.saturating_add(1);
        }
    }
    told(alloc, good)
}

/// A random style.
fn random_style(random: &mut Random) -> Style {
    match random.below(5) {
        0 => Style::Plain,
        1 => Style::Dictionary,
        2 => Style::Delta,
        3 => Style::Lengths,
        _ => Style::Split,
    }
}

/// Random options, with groups and pages of a few rows.
fn random_options(random: &mut Random) -> WriteOptions {
    WriteOptions {
        group_rows: u32::from(random.below(12)).saturating_add(1),
        page_rows: u32::from(random.below(5)).saturating_add(1),
        page_version: if random.below(2) == 0 { 1 } else { 2 },
        style: random_style(random),
    }
}

/// Whether the rows of a seed are read again of four files.
fn are_read_again(alloc: Global, seed: i64) -> R<bool> {
    let mut made = make(alloc, seed, 30)?;
    for _ in 0..4 {
        let options = random_options(&mut made.random);
        let file = write_file(alloc, &made.schema, &options, made.rows.as_slice())?;
        let (_, again) = read_file(alloc, file.as_slice())?;
        if !are_same(made.rows.as_slice(), again.as_slice()) {
            return Ok(false);
        }
    }
    Ok(true)
}

/// `random-files SEEDS`: for how many seeds the rows are read again of files that are written in random ways.
fn files_of(alloc: Global, words: &[&str]) -> R<String> {
    let (low, high) = seeds(words)?;
    let mut good: u64 = 0;
    for seed in low..high {
        if are_read_again(alloc, seed)? {
            good = good.saturating_add(1);
        }
    }
    told(alloc, good)
}
