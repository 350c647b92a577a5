//! Statistics of columns, and filters.

use crate::elements::schema;
use crate::key_cases::key_column;
use crate::kinds::kind;
use crate::texts::shown_option;
use crate::values::{row, value, values};
use bits::{R, Refusal};
use case_words::{both, bytes_of, hexed_option, natural, part, word, words_from, yes_or_no};
use filter::{Filter, Op, Term};
use plain::{Values, encode};
use schema::{Column, Entry, EntryRef, Key, KeyColumn, Kind, Leaf, Schema, Value};
use statistics::{GroupStats, Stats, bounds, bounds_of, bounds_of_values};
use std::alloc::Global;

/// What a case of this subject gives; None where the operation is of another one.
pub fn outcome(alloc: Global, operation: &str, words: &[&str]) -> Option<R<String>> {
    let outcome = match operation {
        "bounds" => bounds_of_words(alloc, words),
        "bound-bytes" => bound_bytes(alloc, words),
        "read-bounds" => read_bounds(alloc, words),
        "rising-bounds" => rising_bounds(alloc, words),
        "filter" => made(alloc, words),
        "satisfies" => satisfied(alloc, words),
        "satisfied-by" => satisfied_by(alloc, words),
        "looks-at" => looks_at(alloc, words),
        "rules-out" => ruled_out(alloc, words),
        _ => return None,
    };
    Some(outcome)
}

/// The schema of one OPTIONAL leaf `x` of this type.
fn schema_of(alloc: Global, text: &str) -> R<Schema> {
    let leaf = format!(in alloc; "?x:{text}")?;
    schema(alloc, &["root/1", leaf.as_str()])
}

/// The entries of these values in an OPTIONAL leaf.
fn entries_of(alloc: Global, words: &[&str]) -> R<Vec<Entry>> {
    let mut entries = Vec::new(alloc);
    for value in values(alloc, words)? {
        let (definition, value) = match value {
            Value::Null => (0, None),
            other => (1, Some(other)),
        };
        entries.push(Entry {
            repetition: 0,
            definition,
            value,
        })?;
    }
    Ok(entries)
}

/// The statistics of a column of these entries, in the only leaf of a schema.
fn statistics_of(alloc: Global, schema: &Schema, entries: Vec<Entry>) -> R<Stats> {
    match schema.leaves().first() {
        Some(leaf) => bounds(alloc, leaf, &Column { entries }),
        None => Err(Refusal::Script),
    }
}

/// The statistics of a column of these entries, borrowed, in the only leaf of a schema.
fn borrowed_statistics_of(alloc: Global, schema: &Schema, entries: &[Entry]) -> R<Stats> {
    let mut borrowed = Vec::new(alloc);
    for entry in entries {
        borrowed.push(EntryRef::of(entry))?;
    }
    match schema.leaves().first() {
        Some(leaf) => bounds_of(alloc, leaf, borrowed.as_slice()),
        None => Err(Refusal::Script),
    }
}

/// The least value, the greatest, and how many are null.
fn shown_statistics(alloc: Global, found: R<Stats>) -> R<String> {
    let found = found?;
    let min = shown_option(alloc, &found.min)?;
    let max = shown_option(alloc, &found.max)?;
    let nulls = found.nulls;
    Ok(format!(in alloc; "from {min} to {max}, {nulls} null")?)
}

/// `bounds TYPE VALUE..`: the least and the greatest value, and how many are null; also of borrowed entries.
fn bounds_of_words(alloc: Global, words: &[&str]) -> R<String> {
    let schema = schema_of(alloc, word(words, 1)?)?;
    let entries = entries_of(alloc, words_from(words, 2))?;
    let borrowed = borrowed_statistics_of(alloc, &schema, entries.as_slice());
    let borrowed = shown_statistics(alloc, borrowed);
    let owned = statistics_of(alloc, &schema, entries);
    both(alloc, shown_statistics(alloc, owned), borrowed)
}

/// The physical type of a type.
fn kind_of(text: &str) -> R<Kind> {
    Ok(crate::kinds::annotated(text)?.0)
}

/// `bound-bytes TYPE VALUE..`: the bytes of the bounds.
fn bound_bytes(alloc: Global, words: &[&str]) -> R<String> {
    let text = word(words, 1)?;
    let schema = schema_of(alloc, text)?;
    let found = statistics_of(alloc, &schema, entries_of(alloc, words_from(words, 2))?)?;
    let bytes = found.to_bytes(alloc, kind_of(text)?)?;
    let min = hexed_option(alloc, &bytes.min)?;
    let max = hexed_option(alloc, &bytes.max)?;
    Ok(format!(in alloc; "from {min} to {max}")?)
}

/// Bytes that may be missing: `none`.
fn optional_bytes(alloc: Global, text: &str) -> R<Option<Vec<u8>>> {
    match text {
        "none" => Ok(None),
        text => Ok(Some(bytes_of(alloc, text)?)),
    }
}

/// `read-bounds KIND BYTES BYTES NULLS`: the bounds of these bytes.
fn read_bounds(alloc: Global, words: &[&str]) -> R<String> {
    let kind = kind(words, 1)?;
    let min = optional_bytes(alloc, word(words, 2)?)?;
    let max = optional_bytes(alloc, word(words, 3)?)?;
    let nulls = natural(word(words, 4)?)?;
    let min = min.as_ref().map(|bytes| bytes.as_slice());
    let max = max.as_ref().map(|bytes| bytes.as_slice());
    shown_statistics(alloc, Stats::from_bytes(alloc, kind, min, max, nulls))
}

/// Whether the bounds of a page of these two texts are the least and the greatest.
fn bounds_are(
    alloc: Global,
    leaf: &Leaf,
    texts: &[Value],
    least: &Value,
    greatest: &Value,
) -> R<bool> {
    let mut page = Vec::new(alloc);
    encode(Kind::ByteArray, texts, &mut page)?;
    let (cursor, _) = Values::new(Kind::ByteArray, page.as_slice(), texts.len())?;
    let found = bounds_of_values(alloc, leaf, cursor)?;
    match (&found.min, &found.max) {
        (Some(min), Some(max)) => Ok(schema::same(min, least) && schema::same(max, greatest)),
        _ => Ok(false),
    }
}

/// How many of the pages of the first value and one of the others, in both orders, have these two as their bounds.
fn pages_bounded(alloc: Global, leaf: &Leaf, values: &[Value]) -> R<usize> {
    let Some(least) = values.first() else {
        return Ok(0);
    };
    let mut count: usize = 0;
    for greatest in values {
        for (one, other) in [(least, greatest), (greatest, least)] {
            let mut texts = Vec::new(alloc);
            texts.push(one.copied(alloc)?)?;
            texts.push(other.copied(alloc)?)?;
            if bounds_are(alloc, leaf, texts.as_slice(), least, greatest)? {
                count = count.saturating_add(1);
            }
        }
    }
    Ok(count)
}

/// `rising-bounds VALUE..`: of texts, each before the next, how many of the pages of two of them, in both orders and with
/// themselves, have the one that comes first and the other as their bounds.
fn rising_bounds(alloc: Global, words: &[&str]) -> R<String> {
    let schema = schema(alloc, &["root/1", "x:bytes@utf8"])?;
    let Some(leaf) = schema.leaves().first() else {
        return Err(Refusal::Script);
    };
    let values = values(alloc, words_from(words, 1))?;
    let mut count: usize = 0;
    for at in 0..values.len() {
        let rest = values.as_slice().get(at..).unwrap_or(&[]);
        count = count.saturating_add(pages_bounded(alloc, leaf, rest)?);
    }
    Ok(format!(in alloc; "{count} pages")?)
}

/// An operator.
fn op(text: &str) -> R<Op> {
    match text {
        "==" => Ok(Op::Equal),
        "!=" => Ok(Op::NotEqual),
        "<" => Ok(Op::Less),
        "<=" => Ok(Op::LessOrEqual),
        ">" => Ok(Op::Greater),
        ">=" => Ok(Op::GreaterOrEqual),
        "in" => Ok(Op::In),
        "not-in" => Ok(Op::NotIn),
        _ => Err(Refusal::Script),
    }
}

/// The term of a path, an operator and a value.
fn term(alloc: Global, path: &str, operator: &str, text: &str) -> R<Term> {
    let op = op(operator)?;
    let value = value(alloc, text)?;
    let mut column = Vec::new(alloc);
    for name in path.split('.') {
        column.push(String::from_str(alloc, name)?)?;
    }
    Ok(Term { column, op, value })
}

/// Terms with `and` between them.
fn terms(alloc: Global, words: &[&str]) -> R<Vec<Term>> {
    let mut terms = Vec::new(alloc);
    for part in words.split(|word| *word == "and") {
        match part {
            [] => {}
            [path, operator, text] => terms.push(term(alloc, path, operator, text)?)?,
            _ => return Err(Refusal::Script),
        }
    }
    Ok(terms)
}

/// The filter of the words: lists of terms with `or` between them. No words are the filter of no lists.
fn filter(alloc: Global, schema: &Schema, words: &[&str]) -> R<Filter> {
    let mut ands = Vec::new(alloc);
    if !words.is_empty() {
        for part in words.split(|word| *word == "or") {
            ands.push(terms(alloc, part)?)?;
        }
    }
    Filter::new(alloc, schema, ands.as_slice())
}

/// `filter ELEMENT.. + TERM..`: that it can be made.
fn made(alloc: Global, words: &[&str]) -> R<String> {
    let schema = schema(alloc, part(words, 0))?;
    let _filter = filter(alloc, &schema, part(words, 1))?;
    Ok(String::from_str(alloc, "a filter")?)
}

/// `satisfies ELEMENT.. + ROW + TERM..`: whether the row satisfies the filter.
fn satisfied(alloc: Global, words: &[&str]) -> R<String> {
    let schema = schema(alloc, part(words, 0))?;
    let row = row(alloc, part(words, 1))?;
    let filter = filter(alloc, &schema, part(words, 2))?;
    yes_or_no(alloc, filter.satisfies(&row))
}

/// `satisfied-by ELEMENT.. + VALUE.. + TERM..`: whether the values of the leaves satisfy the filter.
fn satisfied_by(alloc: Global, words: &[&str]) -> R<String> {
    let schema = schema(alloc, part(words, 0))?;
    let values = values(alloc, part(words, 1))?;
    let filter = filter(alloc, &schema, part(words, 2))?;
    yes_or_no(alloc, filter.satisfied_by(values.as_slice()))
}

/// `looks-at ELEMENT.. + LEAF + TERM..`: whether the filter depends on the leaf.
fn looks_at(alloc: Global, words: &[&str]) -> R<String> {
    let schema = schema(alloc, part(words, 0))?;
    let leaf = natural(word(part(words, 1), 0)?)? as usize;
    let filter = filter(alloc, &schema, part(words, 2))?;
    yes_or_no(alloc, filter.looks_at(leaf))
}

/// A bound, or `none`.
fn bound(alloc: Global, text: &str) -> R<Option<Value>> {
    match text {
        "none" => Ok(None),
        text => Ok(Some(value(alloc, text)?)),
    }
}

/// The statistics of a leaf: `min,max,nulls`.
fn stats(alloc: Global, text: &str) -> R<Stats> {
    let Some((min, rest)) = text.split_once(',') else {
        return Err(Refusal::Script);
    };
    let Some((max, nulls)) = rest.split_once(',') else {
        return Err(Refusal::Script);
    };
    Ok(Stats {
        min: bound(alloc, min)?,
        max: bound(alloc, max)?,
        nulls: natural(nulls)?,
    })
}

/// The number of rows, and the statistics of the leaves.
fn known(alloc: Global, words: &[&str]) -> R<GroupStats> {
    let rows = natural(word(words, 0)?)?;
    let mut leaves = Vec::new(alloc);
    for text in words_from(words, 1) {
        leaves.push(stats(alloc, text)?)?;
    }
    Ok(GroupStats { rows, leaves })
}

/// A key: for each key column its name and type, and `=` and its value.
fn key(alloc: Global, words: &[&str]) -> R<(Vec<KeyColumn>, Key)> {
    let mut columns = Vec::new(alloc);
    let mut values = Vec::new(alloc);
    for text in words {
        let Some((column, shown)) = text.split_once('=') else {
            return Err(Refusal::Script);
        };
        columns.push(key_column(alloc, column)?)?;
        values.push(value(alloc, shown)?)?;
    }
    Ok((columns, Key { values }))
}

/// `rules-out ELEMENT.. + KEYCOLUMN=VALUE.. + ROWS STATISTICS.. + TERM..`: whether no row of such a group can satisfy the
/// filter.
fn ruled_out(alloc: Global, words: &[&str]) -> R<String> {
    let schema = schema(alloc, part(words, 0))?;
    let (columns, key) = key(alloc, part(words, 1))?;
    let known = known(alloc, part(words, 2))?;
    let filter = filter(alloc, &schema, part(words, 3))?;
    yes_or_no(alloc, filter.ruled_out(columns.as_slice(), &key, &known))
}
