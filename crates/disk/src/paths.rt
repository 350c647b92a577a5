//! Paths of files and folders.

ghost use Rattle.std.specs.Prelude.{◌≡◌, ◌≢◌, ◌<◌, List, ℕ, [], IfOk, IfErr, length, string_bytes};
ghost use Rattle.disk.specs.Paths.{folder_of, path_in, IsName, IsOnTheWay};

use crate::fault::Fault;
use std::alloc::Global;

/// The folder that a path lies in; the empty string, which is the dataset's own folder, where the path has no `/`.
pub fn folder_of(path: &str) -> &str
    ensures value { result.now ≡ folder_of path.now }
    ensures shorter { path.now ≢ [] → length result.now < length path.now }
{
    match path.rfind('/') {
        Some(at) => path.split_at(at).0,
        None => "",
    }
}

/// The path of a name in a folder. Refused only Memory.
pub fn path_in(alloc: Global, folder: &str, name: &str) -> Result<String, Fault>
    ensures value { IfOk result (λ path. string_bytes path ≡ path_in folder.now name.now) }
    ensures which { IfErr result (λ e. e ≡ Fault.Memory) }
{
    let mut path = String::from_str(alloc, folder)?;
    if !folder.is_empty() {
        path.push('/')?;
    }
    path.push_str(name)?;
    Ok(path)
}

/// A name's path lies in its folder.
pub fn one_folder()
    ensures { (folder name : List ℕ) → IsName name → folder_of (path_in folder name) ≡ folder }
{}

/// The folder that a path lies in, where it is not the dataset's, is on the way to it, and so is each folder on the
/// way to that one.
pub fn way_up()
    ensures first { (path : List ℕ) → folder_of path ≢ [] → IsOnTheWay (folder_of path) path }
    ensures further { (folder path : List ℕ) → IsOnTheWay folder (folder_of path) → IsOnTheWay folder path }
{}
