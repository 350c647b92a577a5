//! A table looked at and checked.

use crate::disks::Cases;
use bits::{R, Refusal};
use case_words::{natural, word};
use mem_disk::MemDisk;
use std::alloc::Global;
use upkeep::{Watch, check, described, survey_of, text_of_check, text_of_survey};
use vault::Vault;

/// The rows that were checked.
#[derive(Drop)]
struct Seen(u64);

impl Watch for Seen {
    fn checked(&mut self, rows: u64) {
        self.0 = self.0.saturating_add(rows);
    }
}

/// The lines of a text, each after a line feed.
fn lines_of(alloc: Global, bytes: &[u8], text: &mut String) -> R<()> {
    let Ok(lines) = std::str::from_utf8(bytes) else {
        return Err(Refusal::Utf8);
    };
    for line in lines.lines() {
        let more = format!(in alloc; "\n{line}")?;
        text.push_str(more.as_str())?;
    }
    Ok(())
}

/// How many rows are checked, and what is found.
fn checked(alloc: Global, vault: &mut Vault<MemDisk>) -> R<String> {
    let manifest = described(alloc, vault)?;
    let mut seen = Seen(0);
    let checked = check(alloc, vault, &manifest, &mut seen)?;
    let rows = seen.0;
    let mut text = format!(in alloc; "{rows} rows checked")?;
    lines_of(
        alloc,
        text_of_check(alloc, "", &checked)?.as_slice(),
        &mut text,
    )?;
    Ok(text)
}

/// What a survey says, with how many rows a group has at least that is not small.
fn surveyed(alloc: Global, vault: &mut Vault<MemDisk>, least: u64) -> R<String> {
    let manifest = described(alloc, vault)?;
    let survey = survey_of(alloc, vault, &manifest, least)?;
    let mut text = String::new(alloc);
    lines_of(
        alloc,
        text_of_survey(alloc, "", &survey)?.as_slice(),
        &mut text,
    )?;
    Ok(text)
}

/// `check`: the store is given up, and the files of the table on its disk are checked.
pub fn check_table(alloc: Global, cases: &mut Cases) -> R<String> {
    let mut vault = Vault::start(cases.take_disk()?);
    let text = checked(alloc, &mut vault);
    cases.disk = Some(vault.into_disk());
    text
}

/// `survey LEAST`: the store is given up, and the table on its disk is looked at, with groups of fewer rows than LEAST as small.
pub fn survey_table(alloc: Global, cases: &mut Cases, words: &[&str]) -> R<String> {
    let least = natural(word(words, 1)?)?;
    let mut vault = Vault::start(cases.take_disk()?);
    let text = surveyed(alloc, &mut vault, least);
    cases.disk = Some(vault.into_disk());
    text
}
