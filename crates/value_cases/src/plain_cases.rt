//! Lists of values: PLAIN, BYTE_STREAM_SPLIT, and byte arrays by their lengths or their prefixes.

use crate::kinds::kind;
use crate::texts::shown;
use crate::values::values;
use bits::{R, Refusal};
use case_words::{
    agreed, begun, both, bytes, count, listed, shown_bytes, shown_value, shown_values, word,
    words_from, written,
};
use delta::{Prefixed, decode_lengths, decode_prefixes, encode_lengths, encode_prefixes};
use plain::{
    SplitValues, Values, decode, decode_to, encode, encoded_size, split_decode, split_encode,
    split_values,
};
use schema::{Entry, Kind, Value, ValueRef};
use std::alloc::Global;

/// What a case of this subject gives; None where the operation is of another one.
pub fn outcome(alloc: Global, operation: &str, words: &[&str]) -> Option<R<String>> {
    let outcome = match operation {
        "read-plain" => read_plain(alloc, words),
        "write-plain" => write_plain(alloc, words),
        "plain-size" => plain_size(alloc, words),
        "read-split" => read_split(alloc, words),
        "write-split" => write_split(alloc, words),
        "join-split" => join_split(alloc, words),
        "read-lengths" => read_lengths(alloc, words),
        "write-lengths" => write_lengths(alloc, words),
        "read-prefixes" => read_prefixes(alloc, words),
        "write-prefixes" => write_prefixes(alloc, words),
        _ => return None,
    };
    Some(outcome)
}

/// How many bytes the values take, and the values.
fn read(alloc: Global, read: R<(Vec<Value>, usize)>) -> R<String> {
    let (values, used) = read?;
    let text = shown(alloc, values.as_slice())?;
    Ok(format!(in alloc; "{used} bytes:{text}")?)
}

/// How many bytes borrowed values take, and the values.
fn read_refs(alloc: Global, read: R<(Vec<ValueRef<'_>>, usize)>) -> R<String> {
    let (values, used) = read?;
    let text = shown_values(alloc, values.as_slice())?;
    Ok(format!(in alloc; "{used} bytes:{text}")?)
}

/// The values of entries, as they are read for a leaf without levels.
fn read_entries(alloc: Global, kind: Kind, bytes: &[u8], n: usize) -> R<String> {
    let (entries, used) = decode_to::<Entry>(alloc, kind, bytes, n)?;
    let mut items = Vec::new(alloc);
    for entry in &entries {
        match (&entry.value, entry.repetition, entry.definition) {
            (Some(value), 0, 0) => items.push(shown_value(alloc, ValueRef::of(value))?)?,
            _ => return Err(Refusal::Levels),
        }
    }
    let text = listed(alloc, items.as_slice())?;
    Ok(format!(in alloc; "{used} bytes:{text}")?)
}

/// The values, as a cursor gives them one by one.
fn read_one_by_one(alloc: Global, kind: Kind, bytes: &[u8], n: usize) -> R<String> {
    let (mut values, used) = Values::new(kind, bytes, n)?;
    let mut items = Vec::new(alloc);
    for _ in 0..n {
        match values.next() {
            Some(value) => items.push(shown_value(alloc, value)?)?,
            None => return Err(Refusal::Truncated),
        }
    }
    if values.next().is_some() {
        return Err(Refusal::Limit);
    }
    let text = listed(alloc, items.as_slice())?;
    Ok(format!(in alloc; "{used} bytes:{text}")?)
}

/// `read-plain KIND COUNT BYTES`: how many bytes the values take, and the values; also as borrowed values and as entries.
fn read_plain(alloc: Global, words: &[&str]) -> R<String> {
    let kind = kind(words, 1)?;
    let n = count(words, 2)?;
    let bytes = bytes(alloc, words, 3)?;
    let owned = read(alloc, decode(alloc, kind, &bytes, n));
    let borrowed = read_refs(alloc, decode_to::<ValueRef<'_>>(alloc, kind, &bytes, n));
    let entries = read_entries(alloc, kind, &bytes, n);
    let one_by_one = read_one_by_one(alloc, kind, &bytes, n);
    both(
        alloc,
        both(alloc, owned, borrowed),
        both(alloc, entries, one_by_one),
    )
}

/// These values, borrowed.
fn refs<'a>(alloc: Global, values: &'a [Value]) -> R<Vec<ValueRef<'a>>> {
    let mut refs = Vec::new(alloc);
    for value in values {
        refs.push(ValueRef::of(value))?;
    }
    Ok(refs)
}

/// `write-plain KIND VALUE..`: the bytes; also from borrowed values.
fn write_plain(alloc: Global, words: &[&str]) -> R<String> {
    let kind = kind(words, 1)?;
    let values = values(alloc, words_from(words, 2))?;
    let mut out = begun(alloc)?;
    let done = encode(kind, &values, &mut out);
    let one = written(alloc, &out, done);
    let refs = refs(alloc, &values)?;
    let mut out = begun(alloc)?;
    let done = encode(kind, refs.as_slice(), &mut out);
    both(alloc, one, written(alloc, &out, done))
}

/// References to these values.
fn lent<'a>(alloc: Global, values: &'a [Value]) -> R<Vec<&'a Value>> {
    let mut lent = Vec::new(alloc);
    for value in values {
        lent.push(value)?;
    }
    Ok(lent)
}

/// `plain-size KIND VALUE..`: how many bytes the values take, and these, written from where the values lie.
fn plain_size(alloc: Global, words: &[&str]) -> R<String> {
    let kind = kind(words, 1)?;
    let values = values(alloc, words_from(words, 2))?;
    let lent = lent(alloc, &values)?;
    let size = encoded_size(kind, lent.as_slice())?;
    let mut out = begun(alloc)?;
    let done = encode(kind, lent.as_slice(), &mut out);
    let bytes = written(alloc, &out, done)?;
    Ok(format!(in alloc; "{size} bytes: {bytes}")?)
}

/// The values of split bytes, as a cursor gives them one by one.
fn split_one_by_one(alloc: Global, kind: Kind, bytes: &[u8], n: usize) -> R<String> {
    let (mut values, used) = SplitValues::new(alloc, kind, bytes, n)?;
    let mut items = Vec::new(alloc);
    for _ in 0..n {
        if !values.advance() {
            return Err(Refusal::Truncated);
        }
        items.push(shown_value(alloc, values.value())?)?;
    }
    if values.advance() {
        return Err(Refusal::Limit);
    }
    let text = listed(alloc, items.as_slice())?;
    Ok(format!(in alloc; "{used} bytes:{text}")?)
}

/// `read-split KIND COUNT BYTES`: how many bytes the values take, and the values; also one by one.
fn read_split(alloc: Global, words: &[&str]) -> R<String> {
    let kind = kind(words, 1)?;
    let n = count(words, 2)?;
    let bytes = bytes(alloc, words, 3)?;
    let all = read(alloc, split_values(alloc, kind, &bytes, n));
    both(alloc, all, split_one_by_one(alloc, kind, &bytes, n))
}

/// `write-split KIND VALUE..`: the bytes.
fn write_split(alloc: Global, words: &[&str]) -> R<String> {
    let kind = kind(words, 1)?;
    let values = values(alloc, words_from(words, 2))?;
    let mut out = begun(alloc)?;
    let done = split_encode(kind, &values, &mut out);
    written(alloc, &out, done)
}

/// `join-split SIZE COUNT BYTES`: how many bytes so many pieces of that size take, and their bytes, piece after piece.
fn join_split(alloc: Global, words: &[&str]) -> R<String> {
    let size = count(words, 1)?;
    let n = count(words, 2)?;
    let bytes = bytes(alloc, words, 3)?;
    let (joined, used) = split_decode(alloc, size, &bytes, n)?;
    let text = shown_bytes(alloc, joined.as_slice())?;
    Ok(format!(in alloc; "{used} bytes: {text}")?)
}

/// `read-lengths COUNT BYTES`: how many bytes the values take, and the values; also as borrowed values.
fn read_lengths(alloc: Global, words: &[&str]) -> R<String> {
    let n = count(words, 1)?;
    let bytes = bytes(alloc, words, 2)?;
    let owned = read(alloc, decode_lengths::<Value>(alloc, &bytes, n));
    let borrowed = read_refs(alloc, decode_lengths::<ValueRef<'_>>(alloc, &bytes, n));
    both(alloc, owned, borrowed)
}

/// `write-lengths VALUE..`: the bytes.
fn write_lengths(alloc: Global, words: &[&str]) -> R<String> {
    let values = values(alloc, words_from(words, 1))?;
    let mut out = begun(alloc)?;
    let done = encode_lengths(&values, &mut out);
    written(alloc, &out, done)
}

/// Appends the next value, or what is wrong with it.
fn push_next(alloc: Global, prefixed: &mut Prefixed<'_>, items: &mut Vec<String>) -> R<()> {
    let shown = match prefixed.next()? {
        Some(value) => shown_bytes(alloc, value)?,
        None => return Ok(()),
    };
    let kept = shown_bytes(alloc, prefixed.value())?;
    items.push(agreed(alloc, shown, kept)?)?;
    Ok(())
}

/// `read-prefixes COUNT BYTES`: how many bytes the values take, and the values. After the last no other comes, also when asked
/// again.
fn read_prefixes(alloc: Global, words: &[&str]) -> R<String> {
    let n = count(words, 1)?;
    let bytes = bytes(alloc, words, 2)?;
    let (mut prefixed, used) = decode_prefixes(alloc, &bytes, n)?;
    let announced = prefixed.len();
    let mut items = Vec::new(alloc);
    for _ in 0..n.saturating_add(1) {
        push_next(alloc, &mut prefixed, &mut items)?;
    }
    if announced != n || prefixed.advance()? {
        return Err(Refusal::Limit);
    }
    let text = listed(alloc, items.as_slice())?;
    Ok(format!(in alloc; "{used} bytes:{text}")?)
}

/// `write-prefixes VALUE..`: the bytes.
fn write_prefixes(alloc: Global, words: &[&str]) -> R<String> {
    let values = values(alloc, words_from(words, 1))?;
    let mut out = begun(alloc)?;
    let done = encode_prefixes(&values, &mut out);
    written(alloc, &out, done)
}
