//! What the bytes of a root say.

use bits::{R, Refusal};
use case_words::{bytes, shown_numbers, yes_or_no};
use manifest::Manifest;
use std::alloc::Global;

/// The numbers of all groups, and how many columns the file of each has.
fn groups_of(alloc: Global, manifest: &Manifest) -> R<(Vec<u64>, Vec<usize>)> {
    let mut numbers = Vec::new(alloc);
    let mut widths = Vec::new(alloc);
    for block in manifest.groups().blocks() {
        for group in &block.groups {
            numbers.push(group.number)?;
            widths.push(group.width)?;
        }
    }
    Ok((numbers, widths))
}

/// `root BYTES`: what the root says, and whether it is written again as it is.
pub fn root(alloc: Global, words: &[&str]) -> R<String> {
    let bytes = bytes(alloc, words, 1)?;
    let manifest = Manifest::from_bytes(alloc, bytes.as_slice())?;
    let again = manifest.to_bytes(alloc)?;
    let (numbers, widths) = groups_of(alloc, &manifest)?;
    let numbers = shown_numbers(alloc, numbers.as_slice())?;
    let widths = shown_numbers(alloc, widths.as_slice())?;
    let same = yes_or_no(alloc, again.as_slice() == bytes.as_slice())?;
    let (next, keys) = (manifest.next(), manifest.keys().len());
    let (fields, stored) = (
        manifest.schema().fields().len(),
        manifest.stored().fields().len(),
    );
    Ok(format!(in alloc;
        "next {next}, keys {keys} of {fields} fields, {stored} stored, groups{numbers}, columns{widths}, the same: {same}"
    )?)
}

/// `root-cuts BYTES`: how many of the fronts of a root are Truncated, and how many of the others Magic.
pub fn root_cuts(alloc: Global, words: &[&str]) -> R<String> {
    let bytes = bytes(alloc, words, 1)?;
    let bytes = bytes.as_slice();
    let mut truncated: usize = 0;
    let mut magic: usize = 0;
    for size in 0..bytes.len() {
        match Manifest::from_bytes(alloc, bytes.get(..size).unwrap_or(&[])) {
            Err(Refusal::Truncated) if magic == 0 => truncated = truncated.saturating_add(1),
            Err(Refusal::Magic) => magic = magic.saturating_add(1),
            Err(Refusal::Memory) => return Err(Refusal::Memory),
            _ => return Ok(format!(in alloc; "not the front of {size}")?),
        }
    }
    Ok(format!(in alloc; "{truncated} Truncated, then {magic} Magic")?)
}
