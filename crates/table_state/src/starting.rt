//! A store on which nothing is open.

ghost use Rattle.std.specs.Prelude.{◌≡◌, IfOk, OnOk, OnErr};
ghost use Rattle.bits.specs.Refusals.{RefusedMemoryOnly};
ghost use Rattle.manifest.specs.Groups.{root_of};
ghost use Rattle.snapshots.specs.State.{start};
ghost use Rattle.snapshots.specs.Views.{state_of};
ghost use Rattle.table_state.specs.Starting.{IsStarted};

use crate::standing::Core;
use bits::R;
use disk::Disk;
use footer::WriteOptions;
use manifest::Manifest;
use snapshots::Snapshots;
use std::alloc::Global;
use vault::Vault;

/// The versions of a table on which nothing is open. Refused for memory alone.
pub fn first_versions(alloc: Global, manifest: &Manifest) -> R<Snapshots>
    ensures are { IfOk result (λ s. state_of s ≡ start (root_of manifest.now).groups) }
    ensures which { RefusedMemoryOnly result }
{
    // For the proof: the groups of a description are a version.
    snapshots::versions_are_told();
    let groups = manifest.groups().share()?;
    Snapshots::new(alloc, groups)
}

/// A store of this description and its versions, which keeps files that are replaced or not. Takes no memory.
pub fn started<D: Disk>(
    alloc: Global,
    vault: Vault<D>,
    options: WriteOptions,
    manifest: Manifest,
    snapshots: Snapshots,
    clean: bool,
    keeps: bool,
) -> Core<D>
    ensures started { state_of snapshots ≡ start (root_of manifest).groups → IsStarted options result }
    ensures vault { result.vault ≡ vault }
    ensures manifest { result.manifest ≡ manifest }
    ensures clean { result.clean ≡ clean }
    ensures keeps { result.keeps ≡ keeps }
{
    let next_group = manifest.next();
    Core {
        vault,
        options,
        manifest,
        snapshots,
        jobs: Vec::new(alloc),
        cursors: Vec::new(alloc),
        next_job: 0,
        next_cursor: 0,
        next_group,
        closed: false,
        clean,
        keeps,
    }
}

impl<D: Disk> Core<D> {
    /// Goes over to this description: nothing is open any more, and each counter begins anew. Refused for memory alone,
    /// and nothing has changed then.
    pub fn start_anew(&mut self, alloc: Global, manifest: Manifest, clean: bool) -> R<()>
        ensures started { OnOk result (IsStarted self.old.options self.new) }
        ensures vault { self.new.vault ≡ self.old.vault }
        ensures manifest { OnOk result (self.new.manifest ≡ manifest) }
        ensures clean { OnOk result (self.new.clean ≡ clean) }
        ensures keeps { self.new.keeps ≡ self.old.keeps }
        ensures unchanged { OnErr result (self.new ≡ self.old) }
        ensures which { RefusedMemoryOnly result }
    {
        let snapshots = first_versions(alloc, &manifest)?;
        self.next_group = manifest.next();
        self.manifest = manifest;
        self.snapshots = snapshots;
        self.jobs = Vec::new(alloc);
        self.cursors = Vec::new(alloc);
        self.next_job = 0;
        self.next_cursor = 0;
        self.closed = false;
        self.clean = clean;
        Ok(())
    }
}
