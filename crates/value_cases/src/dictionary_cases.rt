//! Dictionaries.

use crate::kinds::kind;
use crate::texts::shown;
use crate::values::values;
use bits::{R, Refusal};
use case_words::{
    begun, bytes, count, listed, shown_numbers, shown_value, shown_values, small_naturals, word,
    words_from, written,
};
use dictionary::Dictionary;
use schema::ValueRef;
use std::alloc::Global;

/// What a case of this subject gives; None where the operation is of another one.
pub fn outcome(alloc: Global, operation: &str, words: &[&str]) -> Option<R<String>> {
    let outcome = match operation {
        "dictionary" => build(alloc, words),
        "write-dictionary" => write(alloc, words),
        "read-dictionary" => read(alloc, words),
        "look-up" => look_up(alloc, words),
        "read-looked-up" => read_looked_up(alloc, words),
        _ => return None,
    };
    Some(outcome)
}

/// The entries, looked up one by one until there is none.
fn entries(alloc: Global, dictionary: &Dictionary) -> R<String> {
    let mut items = Vec::new(alloc);
    for index in 0..u32::MAX {
        match dictionary.lookup(index) {
            Some(value) => items.push(shown_value(alloc, ValueRef::of(value))?)?,
            None => break,
        }
    }
    listed(alloc, items.as_slice())
}

/// `dictionary VALUE..`: its entries, and the index of each value; or that there are too many values.
fn build(alloc: Global, words: &[&str]) -> R<String> {
    let values = values(alloc, words_from(words, 1))?;
    let Some(dictionary) = Dictionary::build(alloc, &values)? else {
        return Ok(String::from_str(alloc, "too many values")?);
    };
    let entries = entries(alloc, &dictionary)?;
    let indexes = shown_numbers(alloc, dictionary.indexes())?;
    Ok(format!(in alloc; "entries{entries}, indexes{indexes}")?)
}

/// `write-dictionary KIND VALUE..`: the bytes of its entries.
fn write(alloc: Global, words: &[&str]) -> R<String> {
    let kind = kind(words, 1)?;
    let values = values(alloc, words_from(words, 2))?;
    let Some(dictionary) = Dictionary::build(alloc, &values)? else {
        return Err(Refusal::Script);
    };
    let mut out = begun(alloc)?;
    let done = dictionary.write(kind, &mut out);
    written(alloc, &out, done)
}

/// `read-dictionary KIND COUNT BYTES`: how many bytes the entries take, and the entries.
fn read(alloc: Global, words: &[&str]) -> R<String> {
    let kind = kind(words, 1)?;
    let n = count(words, 2)?;
    let bytes = bytes(alloc, words, 3)?;
    let (dictionary, used) = Dictionary::read(alloc, kind, &bytes, n)?;
    let entries = shown(alloc, dictionary.entries())?;
    Ok(format!(in alloc; "{used} bytes:{entries}")?)
}

/// The dictionary of the words KIND COUNT BYTES.
fn given(alloc: Global, words: &[&str]) -> R<Dictionary> {
    let kind = kind(words, 1)?;
    let n = count(words, 2)?;
    let bytes = bytes(alloc, words, 3)?;
    let (dictionary, _) = Dictionary::read(alloc, kind, &bytes, n)?;
    Ok(dictionary)
}

/// `look-up KIND COUNT BYTES INDEX..`: the entries of that dictionary at these indexes.
fn look_up(alloc: Global, words: &[&str]) -> R<String> {
    let dictionary = given(alloc, words)?;
    let indexes = small_naturals(alloc, words_from(words, 4))?;
    let values = dictionary.values_of(alloc, &indexes)?;
    shown_values(alloc, values.as_slice())
}

/// `read-looked-up KIND COUNT BYTES COUNT BYTES`: how many bytes the indexes take, and the entries of that dictionary there.
fn read_looked_up(alloc: Global, words: &[&str]) -> R<String> {
    let dictionary = given(alloc, words)?;
    let n = count(words, 4)?;
    let bytes = bytes(alloc, words, 5)?;
    let (values, used) = dictionary.decode_refs(alloc, &bytes, n)?;
    let text = shown_values(alloc, values.as_slice())?;
    Ok(format!(in alloc; "{used} bytes:{text}")?)
}
