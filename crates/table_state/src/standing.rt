//! A store.

ghost use Rattle.std.specs.Prelude.{◌≡◌};
ghost use Rattle.schema.specs.Keys.{key_columns_view};

use crate::jobs::{OpenCursor, OpenJob};
use disk::Disk;
use footer::WriteOptions;
use manifest::Manifest;
use schema::{KeyColumn, Schema};
use snapshots::Snapshots;
use vault::Vault;

/// A table on a disk, with the jobs and cursors that are open on it.
#[derive(Drop)]
pub struct Core<D: Disk> {
    pub vault: Vault<D>,
    pub options: WriteOptions,
    /// The table's description: its schema, its key columns, its next number, and its groups.
    pub manifest: Manifest,
    /// Which versions and files are in use.
    pub snapshots: Snapshots,
    pub jobs: Vec<OpenJob>,
    pub cursors: Vec<OpenCursor>,
    pub next_job: u64,
    pub next_cursor: u64,
    pub next_group: u64,
    pub closed: bool,
    /// Whether no cleaning met a fault since one of the whole dataset, by an opening or by `clean_up`. It is false where none was
    /// made. While it is true, each part file in the key folders is tracked by `snapshots`.
    pub clean: bool,
    /// Whether files that are replaced are kept, and an opening anew cleans nothing: others may be reading them.
    pub keeps: bool,
}

impl<D: Disk> Core<D> {
    ghost use Rattle.table.specs.State.{State};
    ghost use Rattle.table_state.specs.Stands.{Stands};

    /// Lends the disk. Takes no memory.
    pub fn disk(&self) -> &D
        ensures { result.now ≡ self.now.vault.disk }
    {
        self.vault.disk()
    }

    /// The table's schema, with the key columns. Takes no memory.
    pub fn schema(&self) -> &Schema
        ensures { (s : State) → Stands D.state self.now s → result.now ≡ s.table.schema }
    {
        self.manifest.schema()
    }

    /// The key columns, in the order of the folders. Takes no memory.
    pub fn keys(&self) -> &[KeyColumn]
        ensures { (s : State) → Stands D.state self.now s → key_columns_view result.now ≡ s.table.keys }
    {
        self.manifest.keys()
    }

    /// Gives the disk back. Takes no memory.
    pub fn into_disk(self) -> D
        ensures { result ≡ self.vault.disk }
    {
        self.vault.into_disk()
    }
}
