//! What is listed of a folder.

ghost use Rattle.std.specs.Prelude.{◌≡◌, ◌≢◌, ◌<◌, ◌⊎◌, ℕ, List, [], true, false, IfErr, IfOk, OnOk, MatchOption, string_bytes};
ghost use Rattle.disk.specs.Paths.{path_in, IsName};
ghost use Rattle.disk.specs.Calls.{Listed};
ghost use Rattle.disk.specs.declared.fault.Fault.TheVariants.{Absent, Memory};
ghost use Rattle.disk.specs.declared.binding.Binding.TheVariants.{Nothing};
ghost use Rattle.mem_disk.specs.Listings.{IsEntryOf, IsUnlisted, AreListed, AddsEntry, IsKindOf};
ghost use Rattle.mem_disk.specs.States.{AlsoFailed};
ghost use Rattle.mem_disk.specs.Holding.{state_held};

use crate::held::Held;
use crate::name::Name;
use disk::{Binding, Entry, Fault, Kind};
use std::alloc::{AllocError, Global};

/// What a binding is listed as.
fn kind_of(binding: Binding) -> Option<Kind>
    ensures { MatchOption result (binding ≡ Nothing) (λ kind. IsKindOf binding kind) }
{
    match binding {
        Binding::Nothing => None,
        Binding::Folder => Some(Kind::Folder),
        Binding::File(_) => Some(Kind::File),
    }
}

/// Whether these bytes are a name in a folder.
fn is_name(bytes: &[u8]) -> bool
    ensures yes { result ≡ true → IsName bytes.now }
    ensures no { result ≡ false → IsName bytes.now → ⊥ }
{
    for b in bytes {
        if *b == b'/' {
            return false;
        }
    }
    !bytes.is_empty()
}

/// What stands after a folder and its slash.
fn behind<'a>(path: &'a str, folder: &str) -> Option<&'a str>
    ensures { MatchOption result ((name : List ℕ) → path.now ≢ path_in folder.now name) (λ name. path.now ≡ path_in folder.now name.now) }
{
    if folder.is_empty() {
        return Some(path);
    }
    path.strip_prefix(folder)?.strip_prefix('/')
}

/// What a name is listed as, where it stands for something and lies in the folder.
fn entry_of(alloc: Global, name: &Name, folder: &str) -> Result<Option<Entry>, AllocError>
    ensures { IfOk result (λ r. MatchOption r (IsUnlisted folder.now name.entry.now) (λ entry. IsEntryOf folder.now name.entry.now entry)) }
{
    let Some(kind) = kind_of(name.now) else {
        return Ok(None)
    };
    let Some(local) = behind(&name.path, folder) else {
        return Ok(None)
    };
    if !is_name(local.as_bytes()) {
        return Ok(None);
    }
    Ok(Some(Entry {
        name: String::from_str(alloc, local)?,
        kind,
    }))
}

/// Adds what a name is listed as.
fn add_entry(
    alloc: Global,
    entries: &mut Vec<Entry>,
    name: &Name,
    folder: &str,
) -> Result<(), AllocError>
    ensures { OnOk result (AddsEntry folder.now name.entry.now entries.old.items entries.new.items) }
{
    let listed = entry_of(alloc, name, folder)?;
    match listed {
        Some(entry) => Ok(entries.push(entry)?),
        None => Ok(()),
    }
}

/// The names in a folder, in the order of the list.
fn entries_of(alloc: Global, names: &[Name], folder: &str) -> Result<Vec<Entry>, AllocError>
    ensures { IfOk result (λ entries. AreListed folder.now names.now entries.items) }
{
    let mut entries = Vec::new(alloc);
    for name in names {
        add_entry(alloc, &mut entries, name, folder)?;
    }
    Ok(entries)
}

impl Held {
    /// The names in a folder, each once.
    pub fn list_names(&self, alloc: Global, folder: &str) -> Result<Vec<Entry>, Fault>
        ensures effect { (f g r s : ℕ) → AlsoFailed (Listed (λ entries. entries.items) folder.now (state_held self.now f r) (state_held self.now g s)) result }
        ensures which { IfErr result (λ e. (e ≡ Absent) ⊎ (e ≡ Memory)) }
    {
        let Binding::Folder = self.binding(folder) else {
            return Err(Fault::Absent)
        };
        let entries = entries_of(alloc, &self.names.list, folder)?;
        Ok(entries)
    }
}
