//! What a line gives: on every disk and a vault over it, and on a disk in memory.

use crate::images::{image, images};
use crate::outcome::Outcome;
use crate::{calls, vault_calls};
use bits::{R, Refusal};
use case_words::{word, words_from};
use disk::Disk;
use mem_disk::MemDisk;
use std::alloc::Global;
use vault::Vault;

/// What a call of the vault gives; Script where the word is none.
fn of_vault<D: Disk>(alloc: Global, vault: &mut Vault<D>, words: &[&str]) -> R<Outcome> {
    match word(words, 0)? {
        "put" => vault_calls::put(alloc, vault, words),
        "forget" => vault_calls::forget(alloc, vault, words),
        "swap" => vault_calls::swap(alloc, vault, words),
        "root" => vault_calls::root(alloc, vault),
        "get" => vault_calls::get(alloc, vault, words),
        "names" => vault_calls::names(alloc, vault, words),
        "commit" => vault_calls::commit_all(alloc, vault, words),
        "settle" => Outcome::of_change(alloc, vault.settle()),
        "forget-next" => Outcome::of_change(alloc, vault.forget_next()),
        _ => Err(Refusal::Script),
    }
}

/// What a call of a disk, or of a vault over it, gives; Script where there is no such call.
pub fn of_any_disk<D: Disk>(alloc: Global, vault: &mut Vault<D>, words: &[&str]) -> R<Outcome> {
    let disk = &mut vault.disk;
    match word(words, 0)? {
        "create" | "folder" | "append" | "sync" | "sync-folder" | "rename" | "remove" =>
            calls::change(alloc, disk, words),
        "read" => calls::read(alloc, disk, words),
        "length" => calls::length(alloc, disk, words),
        "list" => calls::list(alloc, disk, words),
        "count" => calls::count(alloc, disk, words),
        "failures" | "reads" => calls::counter(alloc, disk, words),
        "files" => Ok(Outcome::of(image(alloc, disk)?)),
        _ => of_vault(alloc, vault, words),
    }
}

/// What a call gives, by its first word; Script where there is no such call.
fn outcome(alloc: Global, vault: &mut Vault<MemDisk>, words: &[&str]) -> R<Outcome> {
    let disk = &mut vault.disk;
    match word(words, 0)? {
        "new" => {
            *disk = MemDisk::new(alloc);
            Outcome::ok(alloc)
        }
        "shortages" => Outcome::of_count(alloc, disk.shortages()),
        "fuse" | "fail-once" => calls::plan(alloc, disk, words),
        "crash" => calls::crash(alloc, disk, words),
        "images" => Ok(Outcome::of(images(alloc, disk, words_from(words, 1))?)),
        "folder-of" | "path-in" => calls::of_paths(alloc, words),
        _ => of_any_disk(alloc, vault, words),
    }
}

/// What a line gives. A line that is no call is not done.
pub fn made(alloc: Global, vault: &mut Vault<MemDisk>, line: &str) -> R<Outcome> {
    let words: Vec<&str> = line.split_whitespace().collect(alloc)?;
    Outcome::or_refused(alloc, outcome(alloc, vault, words.as_slice()))
}
