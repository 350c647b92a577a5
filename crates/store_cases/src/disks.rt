//! The disk of the lines, and the store on it.

use bits::{R, Refusal};
use case_words::{natural, small_natural, word, yes_or_no};
use disk::Disk;
use footer::WriteOptions;
use jsonrows::schema_from;
use mem_disk::MemDisk;
use row_group::Style;
use std::alloc::Global;
use store::Store;

/// What stands between two lines: an open store, or else a disk, or neither.
#[derive(Drop)]
pub struct Cases {
    pub store: Option<Store<MemDisk>>,
    pub disk: Option<MemDisk>,
    /// The reads of the disk when they were last told.
    reads: u64,
    /// How files are written, but for the size of groups.
    options: WriteOptions,
}

impl Cases {
    pub fn new() -> Cases {
        Cases {
            store: None,
            disk: None,
            reads: 0,
            options: WriteOptions::standard(),
        }
    }

    /// Gives up the store, and takes its disk, or else the disk that is there; Script where there is none.
    pub fn take_disk(&mut self) -> R<MemDisk> {
        if let Some(store) = self.store.take() {
            return Ok(store.into_disk());
        }
        self.disk.take().ok_or(Refusal::Script)
    }

    /// The options with a size of groups.
    pub fn options_of(&self, size: &str) -> R<WriteOptions> {
        let mut options = self.options;
        options.group_rows = small_natural(size)?;
        Ok(options)
    }

    /// Counts so many more reads as told already.
    pub fn told_reads(&mut self, more: u64) {
        self.reads = self.reads.saturating_add(more);
    }

    /// Keeps what making or opening a store gave.
    fn keep(&mut self, made: Result<Store<MemDisk>, (MemDisk, Refusal)>) -> R<()> {
        match made {
            Ok(store) => {
                self.store = Some(store);
                Ok(())
            }
            Err((disk, refusal)) => {
                self.disk = Some(disk);
                Err(refusal)
            }
        }
    }
}

/// An outcome of which nothing is to be told.
pub fn ok(alloc: Global) -> R<String> {
    Ok(String::from_str(alloc, "ok")?)
}

/// `options STYLE ROWS VERSION`: from now on files are written in this style, in pages of so many rows and this version.
pub fn options(alloc: Global, cases: &mut Cases, words: &[&str]) -> R<String> {
    let page_rows = small_natural(word(words, 2)?)?;
    let page_version = u8::try_from(natural(word(words, 3)?)?).map_err(|_| Refusal::Script)?;
    cases.options.style = style_of(word(words, 1)?)?;
    cases.options.page_rows = page_rows;
    cases.options.page_version = page_version;
    ok(alloc)
}

fn style_of(name: &str) -> R<Style> {
    match name {
        "plain" => Ok(Style::Plain),
        "dictionary" => Ok(Style::Dictionary),
        "delta" => Ok(Style::Delta),
        "lengths" => Ok(Style::Lengths),
        "split" => Ok(Style::Split),
        _ => Err(Refusal::Script),
    }
}

/// The names of key columns, parted by commas; `-` is none.
fn names_of(alloc: Global, text: &str) -> R<Vec<String>> {
    let mut names = Vec::new(alloc);
    if text == "-" {
        return Ok(names);
    }
    for name in text.split(',') {
        names.push(String::from_str(alloc, name)?)?;
    }
    Ok(names)
}

/// Makes a table on a disk.
fn create_on(alloc: Global, cases: &mut Cases, words: &[&str], disk: MemDisk) -> R<String> {
    let options = cases.options_of(word(words, 1)?)?;
    let names = names_of(alloc, word(words, 2)?)?;
    let schema = schema_from(alloc, word(words, 3)?)?;
    cases.keep(store::create(alloc, disk, schema, names.as_slice(), options))?;
    cases.reads = disk_of(cases)?.reads();
    ok(alloc)
}

/// `create SIZE KEYS SCHEMA`: makes a table on a new disk.
pub fn create(alloc: Global, cases: &mut Cases, words: &[&str]) -> R<String> {
    let disk = MemDisk::new(alloc);
    cases.store = None;
    cases.reads = 0;
    create_on(alloc, cases, words, disk)
}

/// `create-here SIZE KEYS SCHEMA`: makes a table on the disk that is there.
pub fn create_here(alloc: Global, cases: &mut Cases, words: &[&str]) -> R<String> {
    let disk = cases.take_disk()?;
    create_on(alloc, cases, words, disk)
}

/// `empty`: a new disk.
pub fn empty(alloc: Global, cases: &mut Cases) -> R<String> {
    cases.store = None;
    cases.reads = 0;
    cases.disk = Some(MemDisk::new(alloc));
    ok(alloc)
}

/// `open SIZE`: opens the table that is on the disk; a store that is open is given up.
pub fn open(alloc: Global, cases: &mut Cases, words: &[&str]) -> R<String> {
    let options = cases.options_of(word(words, 1)?)?;
    let disk = cases.take_disk()?;
    cases.keep(store::open(alloc, disk, options))?;
    ok(alloc)
}

/// `crash WORD..`: the store is given up, and the disk is what the words say that a stop leaves.
pub fn crash(alloc: Global, cases: &mut Cases, picks: &[u64]) -> R<String> {
    let disk = cases.take_disk()?;
    cases.reads = 0;
    match disk.crash(picks) {
        Ok(left) => cases.disk = Some(left),
        Err(_) => return Err(Refusal::Memory),
    }
    ok(alloc)
}

/// The disk, of the open store or alone.
pub fn disk_of(cases: &mut Cases) -> R<&mut MemDisk> {
    if let Some(store) = &mut cases.store {
        return Ok(store.disk_mut());
    }
    cases.disk.as_mut().ok_or(Refusal::Script)
}

/// `fuse K PICK`: from now on K calls of the disk pass, and all later ones fail.
pub fn fuse(alloc: Global, cases: &mut Cases, words: &[&str]) -> R<String> {
    let passes = natural(word(words, 1)?)?;
    let pick = natural(word(words, 2)?)?;
    disk_of(cases)?.fuse(passes, pick);
    ok(alloc)
}

/// `fail-once K PICK`: from now on K calls of the disk pass, one fails, and all later ones pass.
pub fn fail_once(alloc: Global, cases: &mut Cases, words: &[&str]) -> R<String> {
    let passes = natural(word(words, 1)?)?;
    let pick = natural(word(words, 2)?)?;
    disk_of(cases)?.fail_once(passes, pick);
    ok(alloc)
}

/// `reads`: how many ranges were read since the last such line, or since the disk was made.
pub fn reads(alloc: Global, cases: &mut Cases) -> R<String> {
    let now = disk_of(cases)?.reads();
    let more = now.saturating_sub(cases.reads);
    cases.reads = now;
    Ok(format!(in alloc; "{more}")?)
}

/// `failures`: how many calls of the disk have failed.
pub fn failures(alloc: Global, cases: &mut Cases) -> R<String> {
    let failures = disk_of(cases)?.failures();
    Ok(format!(in alloc; "{failures}")?)
}

/// `clean`: whether no cleaning met a fault since one of the whole dataset.
pub fn clean(alloc: Global, cases: &mut Cases) -> R<String> {
    match &cases.store {
        Some(store) => yes_or_no(alloc, store.is_clean()),
        None => Err(Refusal::Script),
    }
}
