//! Pages, read and written.

use crate::entries::{borrowed, entries_of, shown_entries, values_of};
use crate::schemas::leaf_of;
use bits::{R, Refusal};
use case_words::{
    begun, bytes, bytes_of, count, listed, part, shown_entry, shown_numbers, shown_value,
    shown_values, small_naturals, word, words_from, written,
};
use dictionary::Dictionary;
use jsonrows::schema_from;
use pages::{
    DataPage, Encoding, PageRef, PageVersion, read_page, write_dictionary_page, write_index_page,
    write_page,
};
use schema::{Entry, Leaf, ValueRef};
use std::alloc::Global;

/// What a case of this subject gives; None where the operation is of another one.
pub fn outcome(alloc: Global, operation: &str, words: &[&str]) -> Option<R<String>> {
    let outcome = match operation {
        "page" => page(alloc, words),
        "flat-page" => flat_page(alloc, words),
        "write-page" => written_page(alloc, words),
        "write-dictionary" => written_dictionary(alloc, words),
        "write-indexes" => written_indexes(alloc, words),
        _ => return None,
    };
    Some(outcome)
}

/// The entries that are left of a page; the levels that it shows of each are those of the entry.
fn taken_entries(alloc: Global, page: &mut DataPage<'_>) -> R<String> {
    let mut items = Vec::new(alloc);
    for _ in 0..page.len() {
        let next = page.peek();
        if !page.advance()? {
            break;
        }
        let entry = page.entry();
        if next != Some((entry.repetition, entry.definition)) {
            return Ok(String::from_str(alloc, "other levels than were shown")?);
        }
        items.push(shown_entry(alloc, entry)?)?;
    }
    listed(alloc, items.as_slice())
}

/// The entries of a page; after them it gives none.
fn shown_page(alloc: Global, page: PageRef<'_>) -> R<String> {
    match page {
        PageRef::Skipped(_) => Ok(String::from_str(alloc, ", skipped")?),
        PageRef::Dictionary(values) => {
            let shown = shown_values(alloc, values.as_slice())?;
            Ok(format!(in alloc; ", a dictionary:{shown}")?)
        }
        PageRef::Data(mut page) => {
            let shown = taken_entries(alloc, &mut page)?;
            if page.peek().is_some() || page.advance()? {
                return Ok(String::from_str(alloc, " and more")?);
            }
            Ok(format!(in alloc; ":{shown}")?)
        }
    }
}

/// The page at the front of the bytes, and how many of them it takes.
fn read(
    alloc: Global,
    bytes: &[u8],
    leaf: &Leaf,
    dictionary: Option<&[ValueRef<'_>]>,
    left: usize,
) -> R<String> {
    let (page, used) = read_page(alloc, bytes, leaf, dictionary, left)?;
    let shown = shown_page(alloc, page)?;
    Ok(format!(in alloc; "{used} bytes{shown}")?)
}

/// The values of a dictionary page.
fn dictionary_of<'a>(alloc: Global, page: &'a [u8], leaf: &Leaf) -> R<Vec<ValueRef<'a>>> {
    match read_page(alloc, page, leaf, None, 0)? {
        (PageRef::Dictionary(values), _) => Ok(values),
        _ => Err(Refusal::Script),
    }
}

/// `page SCHEMA COUNT BYTES [BYTES]`: the page at the front of the bytes, in a chunk of the schema's first leaf that lacks so
/// many entries, and that has the dictionary page behind them, if any.
fn page(alloc: Global, words: &[&str]) -> R<String> {
    let schema = schema_from(alloc, word(words, 1)?)?;
    let leaf = leaf_of(&schema)?;
    let left = count(words, 2)?;
    let page = bytes(alloc, words, 3)?;
    let Some(dictionary) = words.get(4) else {
        return read(alloc, page.as_slice(), leaf, None, left);
    };
    let dictionary = bytes_of(alloc, dictionary)?;
    let values = dictionary_of(alloc, dictionary.as_slice(), leaf)?;
    read(alloc, page.as_slice(), leaf, Some(values.as_slice()), left)
}

/// `flat-page SCHEMA COUNT BYTES`: the values that a page gives at once, as one without levels does.
fn flat_page(alloc: Global, words: &[&str]) -> R<String> {
    let schema = schema_from(alloc, word(words, 1)?)?;
    let leaf = leaf_of(&schema)?;
    let bytes = bytes(alloc, words, 3)?;
    let (page, _) = read_page(alloc, bytes.as_slice(), leaf, None, count(words, 2)?)?;
    let PageRef::Data(mut page) = page else {
        return Err(Refusal::Script);
    };
    let mut items = Vec::new(alloc);
    for _ in 0..page.len() {
        let Some(value) = page.next_plain() else {
            break;
        };
        items.push(shown_value(alloc, value)?)?;
    }
    let left = page.len();
    let shown = listed(alloc, items.as_slice())?;
    Ok(format!(in alloc; "{left} left:{shown}")?)
}

/// A version of pages.
pub fn version_of(text: &str) -> R<PageVersion> {
    match text {
        "1" => Ok(PageVersion::V1),
        "2" => Ok(PageVersion::V2),
        _ => Err(Refusal::Script),
    }
}

/// The encoding of a number of the format.
fn encoding_of(text: &str) -> R<Encoding> {
    match text.parse::<i32>() {
        Ok(number) => Encoding::of_number(number).ok_or(Refusal::Script),
        Err(_) => Err(Refusal::Script),
    }
}

/// A buffer for the work, with bytes of an earlier page.
fn used_buffer(alloc: Global) -> R<Vec<u8>> {
    Ok(Vec::from_slice(alloc, &[9, 9, 9])?)
}

/// What was written after the byte 7, where reading it gives these entries again.
fn read_again(alloc: Global, out: &[u8], done: R<()>, leaf: &Leaf, entries: &[Entry]) -> R<String> {
    let text = written(alloc, out, done)?;
    let bytes = words_after(out);
    let wanted = shown_entries(alloc, entries)?;
    let (size, number) = (bytes.len(), entries.len());
    let wanted = format!(in alloc; "{size} bytes:{wanted}")?;
    let again = read(alloc, bytes, leaf, None, number)?;
    if again.as_str() == wanted.as_str() {
        return Ok(text);
    }
    Ok(format!(in alloc; "{text} read as {again}")?)
}

/// The bytes after the first one.
fn words_after(out: &[u8]) -> &[u8] {
    out.get(1..).unwrap_or(&[])
}

/// `write-page SCHEMA VERSION ENCODING ENTRY..`: the bytes of a page, which is read again.
fn written_page(alloc: Global, words: &[&str]) -> R<String> {
    let schema = schema_from(alloc, word(words, 1)?)?;
    let leaf = leaf_of(&schema)?;
    let version = version_of(word(words, 2)?)?;
    let encoding = encoding_of(word(words, 3)?)?;
    let entries = entries_of(alloc, words_from(words, 4))?;
    let refs = borrowed(alloc, entries.as_slice())?;
    let mut scratch = used_buffer(alloc)?;
    let mut out = begun(alloc)?;
    let done = write_page(
        alloc,
        leaf,
        version,
        encoding,
        refs.as_slice(),
        &mut scratch,
        &mut out,
    );
    read_again(alloc, out.as_slice(), done, leaf, entries.as_slice())
}

/// `write-dictionary SCHEMA VALUE..`: the bytes of the dictionary's page, and the index of each value.
fn written_dictionary(alloc: Global, words: &[&str]) -> R<String> {
    let schema = schema_from(alloc, word(words, 1)?)?;
    let leaf = leaf_of(&schema)?;
    let values = values_of(alloc, words_from(words, 2))?;
    let Some(dictionary) = Dictionary::build(alloc, values.as_slice())? else {
        return Ok(String::from_str(alloc, "no dictionary")?);
    };
    let mut out = begun(alloc)?;
    let done = write_dictionary_page(alloc, leaf.leaf_type.kind, &dictionary, &mut out);
    let text = written(alloc, out.as_slice(), done)?;
    let indexes = shown_numbers(alloc, dictionary.indexes())?;
    Ok(format!(in alloc; "{text}, indexes{indexes}")?)
}

/// `write-indexes SCHEMA VERSION SIZE INDEX.. + ENTRY..`: the bytes of a page of indexes into a dictionary of this size.
fn written_indexes(alloc: Global, words: &[&str]) -> R<String> {
    let schema = schema_from(alloc, word(words, 1)?)?;
    let leaf = leaf_of(&schema)?;
    let version = version_of(word(words, 2)?)?;
    let size = count(words, 3)?;
    let indexes = small_naturals(alloc, words_from(part(words, 0), 3))?;
    let entries = entries_of(alloc, part(words, 1))?;
    let refs = borrowed(alloc, entries.as_slice())?;
    let mut scratch = used_buffer(alloc)?;
    let mut out = begun(alloc)?;
    let done = write_index_page(
        alloc,
        leaf,
        version,
        refs.as_slice(),
        indexes.as_slice(),
        size,
        &mut scratch,
        &mut out,
    );
    written(alloc, out.as_slice(), done)
}
