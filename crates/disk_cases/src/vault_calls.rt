//! Calls of the vault.

ghost use Rattle.std.specs.Prelude.{IsTrue};
ghost use Rattle.vault.specs.Views.{IsNoRoot};

use crate::arguments::{bytes, path};
use crate::outcome::{Outcome, shown_file, shown_names};
use bits::{R, Refusal};
use case_words::{natural, word, words_from};
use disk::Disk;
use std::alloc::Global;
use vault::Vault;

/// Whether a path is none of the root's two, so that a file may be put there.
fn is_no_root(path: &str) -> bool
    ensures { IsTrue result → IsNoRoot path.now }
{
    path != "_metadata" && path != "_metadata.new"
}

/// `put PATH BYTES`: puts a file. Script at the root's two paths.
pub fn put<D: Disk>(alloc: Global, vault: &mut Vault<D>, words: &[&str]) -> R<Outcome> {
    let at = path(words, 1)?;
    let bytes = bytes(alloc, words, 2)?;
    if !is_no_root(at) {
        return Err(Refusal::Script);
    }
    Outcome::of_change(alloc, vault.put(at, bytes.as_slice()))
}

/// `forget PATH`: lets a file go. Script at the root's two paths.
pub fn forget<D: Disk>(alloc: Global, vault: &mut Vault<D>, words: &[&str]) -> R<Outcome> {
    let at = path(words, 1)?;
    if !is_no_root(at) {
        return Err(Refusal::Script);
    }
    Outcome::of_change(alloc, vault.forget(at))
}

/// `swap BYTES`: swaps the root for these bytes.
pub fn swap<D: Disk>(alloc: Global, vault: &mut Vault<D>, words: &[&str]) -> R<Outcome> {
    let bytes = bytes(alloc, words, 1)?;
    Outcome::of_change(alloc, vault.swap_root(bytes.as_slice()))
}

/// `root`: the root's bytes, or `none`.
pub fn root<D: Disk>(alloc: Global, vault: &mut Vault<D>) -> R<Outcome> {
    match vault.root(alloc) {
        Ok(Some(bytes)) => Ok(Outcome::of(shown_file(alloc, bytes.as_slice())?)),
        Ok(None) => Ok(Outcome::of(String::from_str(alloc, "none")?)),
        Err(refusal) => Outcome::refused(alloc, refusal),
    }
}

/// `get PATH FROM LEN`: a range of a file's bytes.
pub fn get<D: Disk>(alloc: Global, vault: &mut Vault<D>, words: &[&str]) -> R<Outcome> {
    let from = natural(word(words, 2)?)?;
    let len = natural(word(words, 3)?)? as usize;
    match vault.get_range(alloc, path(words, 1)?, from, len) {
        Ok(bytes) => Ok(Outcome::of(shown_file(alloc, bytes.as_slice())?)),
        Err(refusal) => Outcome::refused(alloc, refusal),
    }
}

/// `names FOLDER`: the names in a folder.
pub fn names<D: Disk>(alloc: Global, vault: &mut Vault<D>, words: &[&str]) -> R<Outcome> {
    match vault.list(alloc, path(words, 1)?) {
        Ok(entries) => Ok(Outcome::of(shown_names(alloc, entries.as_slice())?)),
        Err(refusal) => Outcome::refused(alloc, refusal),
    }
}

/// A file that a commit writes.
#[derive(Drop)]
struct NewFile {
    path: String,
    bytes: Vec<u8>,
}

/// The files that a commit writes: the words `+ PATH BYTES`.
fn new_files(alloc: Global, words: &[&str]) -> R<Vec<NewFile>> {
    let mut files = Vec::new(alloc);
    for (at, sign) in words.iter().enumerate() {
        if *sign == "+" {
            let rest = words_from(words, at);
            files.push(NewFile {
                path: String::from_str(alloc, path(rest, 1)?)?,
                bytes: bytes(alloc, rest, 2)?,
            })?;
        }
    }
    Ok(files)
}

/// The paths that go with a commit: the words `! PATH`.
fn gone_paths(alloc: Global, words: &[&str]) -> R<Vec<String>> {
    let mut gone = Vec::new(alloc);
    for (at, sign) in words.iter().enumerate() {
        if *sign == "!" {
            gone.push(String::from_str(alloc, path(words_from(words, at), 1)?)?)?;
        }
    }
    Ok(gone)
}

/// Puts the files, in order, up to the first that is refused.
fn put_all<D: Disk>(vault: &mut Vault<D>, files: &[NewFile]) -> R<()> {
    for file in files {
        let path = file.path.as_str();
        if !is_no_root(path) {
            return Err(Refusal::Script);
        }
        vault.put(path, file.bytes.as_slice())?;
    }
    Ok(())
}

/// Lets the paths go. What the disk does not remove stays.
fn forget_all<D: Disk>(vault: &mut Vault<D>, gone: &[String]) {
    for path in gone {
        let path = path.as_str();
        if is_no_root(path) {
            let _ = vault.forget(path);
        }
    }
}

/// Puts the files, swaps the root for this one, and lets the paths go.
fn commit<D: Disk>(vault: &mut Vault<D>, files: &[NewFile], root: &[u8], gone: &[String]) -> R<()> {
    put_all(vault, files)?;
    vault.swap_root(root)?;
    forget_all(vault, gone);
    Ok(())
}

/// `commit ROOT + PATH BYTES .. ! PATH ..`: puts the files, swaps the root, and lets the paths after `!` go. Script where
/// one of them is one of the root's two.
pub fn commit_all<D: Disk>(alloc: Global, vault: &mut Vault<D>, words: &[&str]) -> R<Outcome> {
    let root = bytes(alloc, words, 1)?;
    let files = new_files(alloc, words)?;
    let gone = gone_paths(alloc, words)?;
    if !files.iter().all(|file| is_no_root(file.path.as_str())) {
        return Err(Refusal::Script);
    }
    if !gone.iter().all(|path| is_no_root(path.as_str())) {
        return Err(Refusal::Script);
    }
    let done = commit(vault, files.as_slice(), root.as_slice(), gone.as_slice());
    Outcome::of_change(alloc, done)
}
