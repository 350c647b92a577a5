//! Files and folders of the host.

ghost use Rattle.std.specs.Prelude.{◌≡◌, ◌⊎◌};
ghost use Rattle.bits.specs.Refusals.{HasCause, RefusedOnly, RefusedMemoryOnly};

use crate::notes::Notes;
use crate::places::Node;
use bits::{R, Refusal};
use disk::HostDisk;
use std::alloc::Global;
use std::fs::{self, File, OpenFile};
use std::io::{self, ErrorKind, Input, Read};
use std::rt::Files;

/// The number that the system gives the error "Is a directory".
const IS_FOLDER: i32 = 21;

/// Why a file or a writer could not be used: Memory where a growth was refused, else Device.
pub fn refusal_of(error: io::Error) -> Refusal
    ensures which { (result ≡ Refusal.Memory) ⊎ (result ≡ Refusal.Device) }
    ensures caused { HasCause (λ e. e ≡ Refusal.Device) result }
{
    match error.kind() {
        ErrorKind::OutOfMemory => Refusal::Memory,
        _ => Refusal::Device,
    }
}

/// Whether a path of a file is the standard input.
pub fn is_input(path: &str) -> bool {
    path == "-" || path == "/dev/stdin"
}

/// The bytes of a file of the host, all of them; `-` is the standard input. Refused Device where it cannot be read, which is
/// noted.
pub fn bytes_of<F: Files + Input>(rt: &F, alloc: Global, path: &str, notes: &Notes) -> R<Vec<u8>>
    ensures which { RefusedOnly (λ e. e ≡ Refusal.Device) result }
{
    if is_input(path) {
        all_of(alloc, path, &mut rt.reader(), notes)
    } else {
        bytes_at(rt, alloc, path, notes)
    }
}

/// The bytes of the file of the host at a path, all of them. Refused Device where it cannot be read.
pub fn bytes_at<F: Files>(rt: &F, alloc: Global, path: &str, notes: &Notes) -> R<Vec<u8>>
    ensures which { RefusedOnly (λ e. e ≡ Refusal.Device) result }
{
    match File::open(rt, path) {
        Ok(file) => {
            let mut file = file;
            all_of(alloc, path, &mut file, notes)
        }
        Err(error) => Err(refused_at(path, error, notes)),
    }
}

/// What is refused where the system refuses something at a path, which is noted.
pub fn refused_at(path: &str, error: io::Error, notes: &Notes) -> Refusal
    ensures caused { HasCause (λ e. e ≡ Refusal.Device) result }
{
    notes.note_refused(path, error);
    refusal_of(error)
}

/// All that a reader gives. Refused Device where it cannot be read.
pub fn all_of<T: Read>(alloc: Global, path: &str, reader: &mut T, notes: &Notes) -> R<Vec<u8>>
    ensures which { RefusedOnly (λ e. e ≡ Refusal.Device) result }
{
    let mut bytes = Vec::new(alloc);
    match reader.read_to_end(&mut bytes) {
        Ok(_) => Ok(bytes),
        Err(error) => Err(refused_at(path, error, notes)),
    }
}

/// Whether a folder is there.
pub fn is_folder<F: Files>(rt: &F, path: &str) -> bool {
    match fs::metadata(rt, path) {
        Ok(metadata) => metadata.is_dir(),
        Err(_) => false,
    }
}

/// What is at a path of the host: at the end of a link, where `follows` says so.
pub fn node_at<F: Files>(rt: &F, path: &str, follows: bool) -> io::Result<Node> {
    let metadata = if follows {
        fs::metadata(rt, path)?
    } else {
        fs::symlink_metadata(rt, path)?
    };
    if metadata.is_dir() {
        Ok(Node::Folder)
    } else if metadata.is_symlink() {
        Ok(Node::Link)
    } else {
        Ok(Node::File(metadata.len()))
    }
}

/// The disk of a folder. New files take the mode and the group of the root that is there. It fails only when out of memory.
pub fn disk_of<F: Files + Clone + Drop>(rt: &F, alloc: Global, folder: &str) -> R<HostDisk<F>>
    ensures memory { RefusedMemoryOnly result }
{
    let files = rt.clone()?;
    let made = HostDisk::new(alloc, files, folder);
    match made.and_then(|disk| disk.with_files_like("_metadata")) {
        Ok(disk) => Ok(disk),
        Err(_) => Err(Refusal::Memory),
    }
}

/// Refused Device where a folder has the name of the root: no file could be called so, and that would be seen only at the commit,
/// where it is in doubt what was done.
pub fn root_is_free<F: Files>(rt: &F, alloc: Global, folder: &str, notes: &Notes) -> R<()>
    ensures which { RefusedOnly (λ e. e ≡ Refusal.Device) result }
{
    let path = format!(in alloc; "{folder}/_metadata")?;
    match fs::symlink_metadata(rt, path.as_str()) {
        Ok(metadata) if metadata.is_dir() => {
            let error = io::Error::from_raw_os_error(IS_FOLDER);
            notes.note_refused(path.as_str(), error);
            Err(Refusal::Device)
        }
        _ => Ok(()),
    }
}

/// Makes a folder where nothing is, and makes its name durable, also where it is there. Whether it was made. Refused Device
/// where it cannot be made or the folder above it not be synced; then none is made.
pub fn make_folder<F: Files>(rt: &F, alloc: Global, folder: &str, notes: &Notes) -> R<bool>
    ensures which { RefusedOnly (λ e. e ≡ Refusal.Device) result }
{
    let is_new = match make_new(rt, folder) {
        Ok(is_new) => is_new,
        Err(error) => {
            notes.note_unmade(folder, error);
            return Err(refusal_of(error));
        }
    };
    let synced = sync_above(rt, alloc, folder, notes);
    if is_new && synced.is_err() {
        let _ = fs::remove_dir(rt, folder);
    }
    synced?;
    Ok(is_new)
}

/// Makes a folder, unless something has its name. Whether it was made.
fn make_new<F: Files>(rt: &F, folder: &str) -> io::Result<bool> {
    match fs::create_dir(rt, folder) {
        Ok(()) => Ok(true),
        Err(error) if error.kind() == ErrorKind::AlreadyExists => Ok(false),
        Err(error) => Err(error),
    }
}

/// Syncs the folder in which this one is. Refused Device where that fails.
fn sync_above<F: Files>(rt: &F, alloc: Global, folder: &str, notes: &Notes) -> R<()>
    ensures which { RefusedOnly (λ e. e ≡ Refusal.Device) result }
{
    let above = format!(in alloc; "{folder}/..")?;
    match sync_at(rt, above.as_str()) {
        Ok(()) => Ok(()),
        // What has the folder's name is none.
        Err(error) if error.kind() == ErrorKind::NotADirectory => {
            Err(refused_at(folder, error, notes))
        }
        Err(error) => Err(refused_at(above.as_str(), error, notes)),
    }
}

/// Syncs the folder at a path.
fn sync_at<F: Files>(rt: &F, path: &str) -> io::Result<()> {
    File::open(rt, path)?.sync_all()
}
