//! Who may use new files and folders: the mode and the group that they take from what is there.

ghost use Rattle.std.specs.Prelude.{◌≡◌, ◌*◌, None, bit_and, bit_or};
ghost use Rattle.std.specs.Fs.{metadata_mode};

use std::fs::{self, Files, Metadata, Permissions};
use std::os::unix::fs::{MetadataExt, PermissionsExt, lchown};

/// Who may use a file or a folder.
#[derive(Clone, Copy, Debug)]
pub struct Access {
    mode: u32,
    group: u32,
}

/// The mode that the system is asked for where a new file takes it from none.
const MODE_OF_ANY_FILE: u32 = 0o666;

impl Access {
    /// The access of the file at a place; None where no file is there. What a file's owner may always do is to read it.
    pub fn of_file<R: Files>(files: &R, place: &str) -> Option<Access> {
        let metadata = fs::symlink_metadata(files, place).ok()?;
        metadata
            .is_file()
            .then_some(Access::with_bits(&metadata, 0o777, 0o400))
    }

    /// The access of the folder at a place, with the bit by which what is made in it takes its group; None where no folder
    /// is there. What a folder's owner may always do is to use it.
    pub fn of_folder<R: Files>(files: &R, place: &str) -> Option<Access> {
        let metadata = fs::symlink_metadata(files, place).ok()?;
        metadata
            .is_dir()
            .then_some(Access::with_bits(&metadata, 0o3777, 0o700))
    }

    /// These bits of a node's mode, the owner's bits, and its group.
    fn with_bits(metadata: &Metadata, bits: u32, owner: u32) -> Access
        ensures mode { result.mode ≡ bit_or (bit_and (metadata_mode metadata.now) bits) owner }
    {
        Access {
            mode: metadata.mode() & bits | owner,
            group: metadata.gid(),
        }
    }

    /// Gives the file or folder at a place this access. Where the group cannot be set, the group that it has may do what
    /// everybody may. What else cannot be set stays.
    pub fn give<R: Files>(self, files: &R, place: &str) {
        let Ok(found) = fs::symlink_metadata(files, place) else {
            return;
        };
        let is_in_group = found.gid() == self.group
            || lchown(files, place, None, Some(self.group)).is_ok();
        let mode = if is_in_group {
            self.mode
        } else {
            in_any_group(self.mode)
        };
        if found.mode() & 0o7777 != mode {
            let _ = fs::set_permissions(files, place, Permissions::from_mode(mode));
        }
    }
}

/// The mode with which a new file is made that is given this access once it is written: nobody may do more with it than
/// then, but for its owner, who writes it.
pub fn mode_of_new_file(access: Option<Access>) -> u32
    ensures any { access ≡ None → result ≡ 0o666 }
{
    match access {
        Some(access) => in_any_group(access.mode) | 0o600,
        None => MODE_OF_ANY_FILE,
    }
}

/// A mode in which the group may do no more than everybody may.
fn in_any_group(mode: u32) -> u32
    ensures { result ≡ bit_and mode (bit_or 0o7707 (bit_and mode 0o7 * 8)) }
{
    mode & (0o7707 | (mode & 0o7) << 3)
}
