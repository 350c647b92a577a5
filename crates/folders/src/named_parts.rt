//! The part files that a root names.

ghost use Rattle.std.specs.Prelude.{◌≡◌, ◌↔◌, ◌<◌, ◌^◌, ℕ, List, IfOk, OnOk, IsTrue, string_bytes};
ghost use Rattle.std.specs.Option.{option_or};
ghost use Rattle.std.specs.Rc.{rc_value};
ghost use Rattle.bits.specs.Refusals.{RefusedOnly};
ghost use Rattle.bits.specs.declared.refusal.Refusal.TheVariants.{Key};
ghost use Rattle.schema.specs.Views.{key_view};
ghost use Rattle.schema.specs.Keys.{key_columns_view};
ghost use Rattle.disk.specs.Paths.{path_in};
ghost use Rattle.partition.specs.Folders.{path, part_name_of};
ghost use Rattle.manifest.specs.Groups.{root_of, group_view, handles_view};
ghost use Rattle.folders.specs.Named.{IsIn, AreNamed, folder_in};
ghost use Rattle.folders.specs.inner.Names.{folder_if, folder_for, IsFolderOf};

use bits::R;
use manifest::{Group, Manifest};
use partition::{path_of, same_keys};
use schema::KeyColumn;
use std::alloc::Global;
use std::collections::HashMap;
use std::rc::Rc;

/// The part files that a root names, found by the numbers of their groups: no two groups of a root have one number.
#[derive(Drop)]
pub struct NamedParts {
    /// The folder of the group with each number. Groups of one key that are next to each other share it.
    folders: HashMap<u64, Rc<String>>,
}

impl NamedParts {
    /// The part files that a root names: one pass over its groups, which makes a path for each key, and none for a group.
    /// Refused Key where a group's key cannot partition, which no root says, and Memory.
    pub fn of(alloc: Global, manifest: &Manifest) -> R<NamedParts>
        ensures named { IfOk result (λ named. AreNamed (root_of manifest.now) named) }
        ensures which { RefusedOnly (λ e. e ≡ Key) result }
    {
        // For the proof: each number is below the next one.
        let _next = manifest.next();
        let mut named = NamedParts {
            folders: HashMap::new(alloc),
        };
        let mut last = None;
        for block in manifest.groups().blocks() {
            named.add_groups(alloc, manifest.keys(), &mut last, block.groups.as_slice())?;
        }
        Ok(named)
    }

    /// Whether the part file with this number in this folder is named: one look-up, and a comparison of two folders. Takes no
    /// memory.
    pub fn has(&self, folder: &str, number: u64) -> bool
        ensures { IsTrue result ↔ IsIn self.now (path_in folder.now (part_name_of number)) }
    {
        match self.folders.get(&number) {
            Some(named) => named.as_str() == folder,
            None => false,
        }
    }

    /// Adds the part files of these groups; `last` is the group before them, and becomes the last one of them.
    fn add_groups(
        &mut self,
        alloc: Global,
        columns: &[KeyColumn],
        last: &mut Option<InFolder>,
        groups: &[Rc<Group>],
    ) -> R<()>
        requires last { IsFolderOf (key_columns_view columns.now) last.old }
        ensures last { OnOk result (IsFolderOf (key_columns_view columns.now) last.new) }
        ensures adds { OnOk result ((n : ℕ)
            → folder_in self.new n ≡ option_or (folder_for (key_columns_view columns.now) (handles_view groups.now) n) (folder_in self.old n)) }
        ensures which { RefusedOnly (λ e. e ≡ Key) result }
    {
        for group in groups {
            self.add_group(alloc, columns, last, group)?;
        }
        Ok(())
    }

    /// Adds the part file of a group; `last` is the group before it, and becomes this one.
    fn add_group(
        &mut self,
        alloc: Global,
        columns: &[KeyColumn],
        last: &mut Option<InFolder>,
        group: &Rc<Group>,
    ) -> R<()>
        requires last { IsFolderOf (key_columns_view columns.now) last.old }
        ensures last { OnOk result (IsFolderOf (key_columns_view columns.now) last.new) }
        ensures adds { OnOk result ((n : ℕ)
            → folder_in self.new n ≡ option_or (folder_if (key_columns_view columns.now) (group_view (rc_value group.now)) n) (folder_in self.old n)) }
        ensures which { RefusedOnly (λ e. e ≡ Key) result }
    {
        let folder = folder_of(alloc, columns, last, group)?;
        self.folders.insert(group.number, folder.clone()?)?;
        *last = Some(InFolder {
            group: group.clone()?,
            folder,
        });
        Ok(())
    }
}

/// A group, and the folder of its key.
#[derive(Drop)]
struct InFolder {
    group: Rc<Group>,
    folder: Rc<String>,
}

/// The folder of a group's key: that of the last group, where it has the same key.
fn folder_of(
    alloc: Global,
    columns: &[KeyColumn],
    last: &Option<InFolder>,
    group: &Group,
) -> R<Rc<String>>
    requires { IsFolderOf (key_columns_view columns.now) last.now }
    ensures is { IfOk result (λ folder. string_bytes (rc_value folder) ≡ path (key_columns_view columns.now) (key_view group.now.key)) }
    ensures which { RefusedOnly (λ e. e ≡ Key) result }
{
    match last {
        Some(last) if same_keys(&last.group.key, &group.key) => Ok(last.folder.clone()?),
        _ => Ok(Rc::new(alloc, path_of(alloc, columns, &group.key)?)?),
    }
}
