//! What the calls do to what a disk keeps.

ghost use Rattle.std.specs.Prelude.{◌≡◌, ◌≢◌, ◌<◌, ◌⊎◌, ◌↔◌, ℕ, length, IfErr, IsErrOf, IsTrue, OnOk, OnErr, true};
ghost use Rattle.disk.specs.Paths.{folder_of};
ghost use Rattle.disk.specs.Calls.{IsStill, Created, FolderMade, Appended, Synced, FolderSynced, IsMovable, Renamed, Removed};
ghost use Rattle.disk.specs.declared.fault.Fault.TheVariants.{Exists, Failed, Memory};
ghost use Rattle.mem_disk.specs.Loose.{bound, appended, node_synced, folder_synced};
ghost use Rattle.mem_disk.specs.Shortages.{told_as};
ghost use Rattle.mem_disk.specs.Failing.{taken, written, moved, doubtful, IsVacant, IsFile, IsSureFile, IsToBeDone};
ghost use Rattle.mem_disk.specs.States.{AlsoFailed, FailsToSync};
ghost use Rattle.mem_disk.specs.Holding.{loose_held, image_held, state_held, next_node, IsFileAt, IsSure, DoesBy};
ghost use Rattle.disk.specs.declared.binding.Binding.TheVariants.{Folder, File};
ghost use Rattle.disk.specs.declared.binding.Binding.TheVariants as binding;

use crate::fuse::{Done, Trip};
use crate::held::Held;
use disk::{Binding, Fault, folder_of};
use std::alloc::AllocError;

/// Two names of one folder.
fn are_beside(source: &str, target: &str) -> bool
    ensures { IsTrue result ↔ (folder_of target.now ≡ folder_of source.now) × (target.now ≢ source.now) }
{
    folder_of(target) == folder_of(source) && target != source
}

impl Held {
    /// Makes an empty file.
    pub fn create_file(&mut self, trip: Trip, path: &str) -> Result<(), Fault>
        ensures effect { (f g r s : ℕ) → AlsoFailed (Created path.now (state_held self.old f r) (state_held self.new g s)) result }
        ensures passes { trip ≡ Trip.Passes → IsErrOf result Failed → ⊥ }
        ensures nothing { trip ≡ Trip.Fails Done.Nothing → self.new.calls.items ≡ self.old.calls.items }
        ensures extent { IsVacant (image_held self.old) path.now
            → DoesBy (taken (λ l. bound l path.now (File (next_node self.old)))) trip self.old self.new result }
        ensures out_of_memory { IsErrOf result Memory → IsToBeDone trip (IsVacant (image_held self.old) path.now) }
        ensures whole { OnOk result (loose_held self.new ≡ bound (loose_held self.old) path.now (File (next_node self.old))) }
        ensures unable { (IsVacant (image_held self.old) path.now → ⊥) → self.new.calls.items ≡ self.old.calls.items }
    {
        if trip == Trip::Fails(Done::Nothing) {
            return Err(Fault::Failed);
        }
        let Binding::Nothing = self.binding(path) else {
            return Err(Fault::Exists)
        };
        let Binding::Folder = self.binding(folder_of(path)) else {
            return Err(Fault::Absent)
        };
        let Ok(node) = self.add_node() else {
            return Err(Fault::Memory)
        };
        if self.bind(path, Binding::File(node)).is_err() {
            return Err(Fault::Memory);
        }
        Ok(())
    }

    /// Makes a folder.
    pub fn create_folder(&mut self, trip: Trip, path: &str) -> Result<(), Fault>
        ensures effect { (f g r s : ℕ) → AlsoFailed (FolderMade path.now (state_held self.old f r) (state_held self.new g s)) result }
        ensures passes { trip ≡ Trip.Passes → IsErrOf result Failed → ⊥ }
        ensures nothing { trip ≡ Trip.Fails Done.Nothing → self.new.calls.items ≡ self.old.calls.items }
        ensures extent { IsVacant (image_held self.old) path.now → DoesBy (taken (λ l. bound l path.now Folder)) trip self.old self.new result }
        ensures out_of_memory { IsErrOf result Memory → IsToBeDone trip (IsVacant (image_held self.old) path.now) }
        ensures whole { IsVacant (image_held self.old) path.now → OnOk result (loose_held self.new ≡ bound (loose_held self.old) path.now Folder) }
        ensures unable { (IsVacant (image_held self.old) path.now → ⊥) → self.new.calls.items ≡ self.old.calls.items }
    {
        if trip == Trip::Fails(Done::Nothing) {
            return Err(Fault::Failed);
        }
        match self.binding(path) {
            Binding::Nothing => {}
            Binding::Folder => return Ok(()),
            Binding::File(_) => return Err(Fault::Exists),
        }
        let Binding::Folder = self.binding(folder_of(path)) else {
            return Err(Fault::Absent)
        };
        self.bind(path, Binding::Folder)?;
        Ok(())
    }

    /// Takes a file's name away.
    pub fn remove_file(&mut self, trip: Trip, path: &str) -> Result<(), Fault>
        ensures effect { (f g r s : ℕ) → AlsoFailed (Removed path.now (state_held self.old f r) (state_held self.new g s)) result }
        ensures nothing { trip ≡ Trip.Fails Done.Nothing → self.new.calls.items ≡ self.old.calls.items }
        ensures passes { trip ≡ Trip.Passes → IsErrOf result Failed → ⊥ }
        ensures extent { IsFile (image_held self.old) path.now → DoesBy (taken (λ l. bound l path.now binding.Nothing)) trip self.old self.new result }
        ensures out_of_memory { IsErrOf result Memory → IsToBeDone trip (IsFile (image_held self.old) path.now) }
        ensures whole { OnOk result (loose_held self.new ≡ bound (loose_held self.old) path.now binding.Nothing) }
        ensures unable { (IsFile (image_held self.old) path.now → ⊥) → self.new.calls.items ≡ self.old.calls.items }
    {
        if trip == Trip::Fails(Done::Nothing) {
            return Err(Fault::Failed);
        }
        match self.binding(path) {
            Binding::Nothing => return Err(Fault::Absent),
            Binding::Folder => return Err(Fault::Exists),
            Binding::File(_) => {}
        }
        self.bind(path, Binding::Nothing)?;
        Ok(())
    }

    /// Gives a file another name in its folder. After Memory the target's name may be there, as after a failure.
    pub fn rename_file(&mut self, trip: Trip, source: &str, target: &str) -> Result<(), Fault>
        ensures effect { (f g r s : ℕ) → AlsoFailed (Renamed source.now target.now (state_held self.old f r) (state_held self.new g s)) (told_as result) }
        ensures nothing { trip ≡ Trip.Fails Done.Nothing → self.new.calls.items ≡ self.old.calls.items }
        ensures passes { trip ≡ Trip.Passes → IsErrOf result Failed → ⊥ }
        ensures extent { IsMovable (image_held self.old) source.now target.now → DoesBy (moved source.now target.now) trip self.old self.new result }
        ensures out_of_memory { IsErrOf result Memory → IsToBeDone trip (IsMovable (image_held self.old) source.now target.now) }
        ensures whole { OnOk result (loose_held self.new ≡ moved source.now target.now Done.Whole (loose_held self.old)) }
        ensures unable { (IsMovable (image_held self.old) source.now target.now → ⊥) → self.new.calls.items ≡ self.old.calls.items }
    {
        if trip == Trip::Fails(Done::Nothing) {
            return Err(Fault::Failed);
        }
        let node = match self.binding(source) {
            Binding::Nothing => return Err(Fault::Absent),
            Binding::Folder => return Err(Fault::Exists),
            Binding::File(node) => node,
        };
        if let Binding::Folder = self.binding(target) {
            return Err(Fault::Exists);
        }
        if !are_beside(source, target) {
            return Err(Fault::Exists);
        }
        if self.bind(target, Binding::File(node)).is_err() {
            return Err(Fault::Memory);
        }
        if trip == Trip::Fails(Done::Part) {
            return Err(Fault::Failed);
        }
        if self.bind(source, Binding::Nothing).is_err() {
            return Err(Fault::Memory);
        }
        Ok(())
    }

    /// Writes after a file's end.
    pub fn append_file(&mut self, trip: Trip, path: &str, bytes: &[u8]) -> Result<(), Fault>
        ensures effect { (f g r s : ℕ) → AlsoFailed (Appended path.now bytes.now (state_held self.old f r) (state_held self.new g s)) result }
        ensures which { IfErr result (λ e. e ≢ Exists) }
        ensures passes { trip ≡ Trip.Passes → IsErrOf result Failed → ⊥ }
        ensures nothing { trip ≡ Trip.Fails Done.Nothing → self.new.calls.items ≡ self.old.calls.items }
        ensures extent { (n : ℕ) → IsFileAt self.old path.now n → DoesBy (written n bytes.now) trip self.old self.new result }
        ensures out_of_memory { IsErrOf result Memory → IsToBeDone trip (IsFile (image_held self.old) path.now) }
        ensures whole { (n : ℕ) → IsFileAt self.old path.now n → OnOk result (loose_held self.new ≡ appended (loose_held self.old) n bytes.now) }
        ensures unable { (IsFile (image_held self.old) path.now → ⊥) → self.new.calls.items ≡ self.old.calls.items }
    {
        if trip == Trip::Fails(Done::Nothing) {
            return Err(Fault::Failed);
        }
        let Binding::File(node) = self.binding(path) else {
            return Err(Fault::Absent)
        };
        if trip == Trip::Fails(Done::Part) {
            let half = bytes.split_at(bytes.len() / 2).0;
            self.append(node, half)?;
            return Err(Fault::Failed);
        }
        self.append(node, bytes)?;
        Ok(())
    }

    /// Whether a sync of the node has failed.
    fn is_doubted(&self, node: usize) -> bool
        requires { node < length self.now.nodes.items }
        ensures { result ≡ (loose_held self.now).doubted node }
    {
        self.nodes[node].doubted
    }

    /// Makes a file's bytes durable, where no sync of it has failed.
    pub fn sync_file(&mut self, trip: Trip, path: &str) -> Result<(), Fault>
        ensures effect { (f g r s : ℕ) → AlsoFailed (Synced path.now (state_held self.old f r) (state_held self.new g s)) result }
        ensures which { IfErr result (λ e. e ≢ Exists) }
        ensures passes { trip ≡ Trip.Passes → IsErrOf result Failed → ⊥ }
        ensures doubt { IsErrOf result Failed → (n : ℕ) × ((loose_held self.old).names path.now ≡ File n) × ((loose_held self.new).doubted n ≡ true) }
        ensures nothing { trip ≡ Trip.Fails Done.Nothing → (loose_held self.new).synced ≡ (loose_held self.old).synced }
        ensures extent { (n : ℕ) → IsFileAt self.old path.now n → IsSure self.old n → DoesBy (doubtful n) trip self.old self.new result }
        ensures out_of_memory { IsErrOf result Memory → IsSureFile (loose_held self.old) path.now }
        ensures whole { (n : ℕ) → IsFileAt self.old path.now n → IsSure self.old n → OnOk result (loose_held self.new ≡ node_synced (loose_held self.old) n) }
        ensures unable { (IsSureFile (loose_held self.old) path.now → ⊥) → self.new.calls.items ≡ self.old.calls.items }
    {
        let Binding::File(node) = self.binding(path) else {
            return Err(Fault::Absent)
        };
        if self.is_doubted(node) {
            return Ok(());
        }
        match trip {
            Trip::Passes => {
                self.sync(node)?;
                Ok(())
            }
            Trip::Fails(done) => {
                self.fail_sync(done, path, node)?;
                Err(Fault::Failed)
            }
        }
    }

    /// A sync of the node fails and leaves doubt. It was done nevertheless, or not.
    fn fail_sync(&mut self, done: Done, path: &str, node: usize) -> Result<(), AllocError>
        requires { (loose_held self.old).names path.now ≡ File node }
        ensures effect { (f g r s : ℕ) → FailsToSync path.now (state_held self.old f r) (state_held self.new g s) }
        ensures extent { OnOk result (loose_held self.new ≡ doubtful node done (loose_held self.old)) }
        ensures nothing { done ≡ Done.Nothing → (loose_held self.new).synced ≡ (loose_held self.old).synced }
        ensures err { OnErr result ((f g r s : ℕ) → IsStill (state_held self.old f r) (state_held self.new g s)) }
    {
        match done {
            Done::Nothing => self.doubt(node),
            Done::Whole | Done::Part => {
                self.sync(node)?;
                self.doubt(node)
            }
        }
    }

    /// Makes a folder's names durable.
    pub fn sync_names(&mut self, trip: Trip, folder: &str) -> Result<(), Fault>
        ensures effect { (f g r s : ℕ) → AlsoFailed (FolderSynced folder.now (state_held self.old f r) (state_held self.new g s)) (told_as result) }
        ensures which { IfErr result (λ e. e ≢ Exists) }
        ensures passes { trip ≡ Trip.Passes → IsErrOf result Failed → ⊥ }
        ensures nothing { trip ≡ Trip.Fails Done.Nothing → self.new.calls.items ≡ self.old.calls.items }
        ensures extent { (loose_held self.old).names folder.now ≡ Folder → DoesBy (taken (λ l. folder_synced l folder.now)) trip self.old self.new result }
        ensures out_of_memory { IsErrOf result Memory → IsToBeDone trip ((loose_held self.old).names folder.now ≡ Folder) }
        ensures whole { OnOk result (loose_held self.new ≡ folder_synced (loose_held self.old) folder.now) }
        ensures unable { (((loose_held self.old).names folder.now ≡ Folder) → ⊥) → self.new.calls.items ≡ self.old.calls.items }
    {
        if trip == Trip::Fails(Done::Nothing) {
            return Err(Fault::Failed);
        }
        let Binding::Folder = self.binding(folder) else {
            return Err(Fault::Absent)
        };
        if self.sync_folder(folder).is_err() {
            return Err(Fault::Memory);
        }
        Ok(())
    }
}
