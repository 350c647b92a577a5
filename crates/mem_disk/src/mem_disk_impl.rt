//! The disk.

ghost use Rattle.std.specs.Prelude.{◌≡◌, ◌≢◌, ◌⊎◌, ◌↔◌, ℕ, OnOk, IfErr, IsErrOf};
ghost use Rattle.disk.specs.State.{IsOneMore};
ghost use Rattle.disk.specs.Calls.{CountsFailure, Created, FolderMade, Appended, Synced, FolderSynced, IsMovable, Renamed, Removed, RangeRead, Measured, Listed};
ghost use Rattle.disk.specs.declared.binding.Binding.TheVariants.{Folder, File};
ghost use Rattle.disk.specs.declared.binding.Binding.TheVariants as binding;
ghost use Rattle.mem_disk.specs.Loose.{bound, appended, node_synced, folder_synced};
ghost use Rattle.mem_disk.specs.Disks.{state_of, lawful_of, loose_in, FailsBy, ShortOnlyWhere};
ghost use Rattle.mem_disk.specs.Fuses.{Burns, trip_of};
ghost use Rattle.mem_disk.specs.Holding.{next_node, IsFileAt, IsSure};
ghost use Rattle.mem_disk.specs.Failing.{taken, written, moved, doubtful, IsVacant, IsFile, IsSureFile, StaysUnlessShort};
ghost use Rattle.mem_disk.specs.declared.fuse.Done.TheVariants as extent;
ghost use Rattle.mem_disk.specs.declared.fuse.Trip.TheVariants as case;

use crate::MemDisk;
use crate::fuse::{answer, count_shortage, tell_shortage};
use disk::{Disk, Entry, Fault};
use std::alloc::Global;

impl Disk for MemDisk {
    ghost state = { state_of };

    ghost lawful = { lawful_of };

    fn create(&mut self, path: &str) -> Result<(), Fault>
        ensures effect { (state_of self.old).honest → Created path.now (state_of self.old) (state_of self.new) result }
        ensures counts { CountsFailure result (state_of self.old).failures (state_of self.new).failures }
        ensures reads { (state_of self.new).reads ≡ (state_of self.old).reads }
        ensures honest { (state_of self.old).honest ↔ (state_of self.new).honest }
        ensures fuse { Burns self.old.fuse self.new.fuse result }
        ensures passes { trip_of self.old.fuse ≡ case.Passes → IsErrOf result Fault.Failed → ⊥ }
        ensures nothing { trip_of self.old.fuse ≡ case.Fails extent.Nothing → self.new.held.calls.items ≡ self.old.held.calls.items }
        ensures extent { IsVacant (state_of self.old).seen path.now
            → FailsBy (taken (λ l. bound l path.now (File (next_node self.old.held)))) self.old self.new }
        ensures ample { ShortOnlyWhere (IsVacant (state_of self.old).seen path.now) self.old self.new result }
        ensures whole { OnOk result (loose_in self.new ≡ bound (loose_in self.old) path.now (File (next_node self.old.held))) }
        ensures unable { (IsVacant (state_of self.old).seen path.now → ⊥) → self.new.held.calls.items ≡ self.old.held.calls.items }
    {
        let trip = self.fuse.burn();
        let done = self.held.create_file(trip, path);
        count_shortage(&mut self.shortages, trip, &done);
        answer(&mut self.failures, trip, done)
    }

    fn make_folder(&mut self, path: &str) -> Result<(), Fault>
        ensures effect { (state_of self.old).honest → FolderMade path.now (state_of self.old) (state_of self.new) result }
        ensures counts { CountsFailure result (state_of self.old).failures (state_of self.new).failures }
        ensures reads { (state_of self.new).reads ≡ (state_of self.old).reads }
        ensures honest { (state_of self.old).honest ↔ (state_of self.new).honest }
        ensures fuse { Burns self.old.fuse self.new.fuse result }
        ensures passes { trip_of self.old.fuse ≡ case.Passes → IsErrOf result Fault.Failed → ⊥ }
        ensures nothing { trip_of self.old.fuse ≡ case.Fails extent.Nothing → self.new.held.calls.items ≡ self.old.held.calls.items }
        ensures extent { IsVacant (state_of self.old).seen path.now → FailsBy (taken (λ l. bound l path.now Folder)) self.old self.new }
        ensures ample { ShortOnlyWhere (IsVacant (state_of self.old).seen path.now) self.old self.new result }
        ensures whole { IsVacant (state_of self.old).seen path.now → OnOk result (loose_in self.new ≡ bound (loose_in self.old) path.now Folder) }
        ensures unable { (IsVacant (state_of self.old).seen path.now → ⊥) → self.new.held.calls.items ≡ self.old.held.calls.items }
    {
        let trip = self.fuse.burn();
        let done = self.held.create_folder(trip, path);
        count_shortage(&mut self.shortages, trip, &done);
        answer(&mut self.failures, trip, done)
    }

    fn read_range(
        &mut self,
        alloc: Global,
        path: &str,
        from: u64,
        len: usize,
    ) -> Result<Vec<u8>, Fault>
        ensures effect { (state_of self.old).honest → RangeRead (λ bytes. bytes.items) path.now from len (state_of self.old) (state_of self.new) result }
        ensures which { IfErr result (λ e. e ≢ Fault.Exists) }
        ensures counts { CountsFailure result (state_of self.old).failures (state_of self.new).failures }
        ensures reads { IsOneMore (state_of self.old).reads (state_of self.new).reads }
        ensures honest { (state_of self.old).honest ↔ (state_of self.new).honest }
        ensures fuse { Burns self.old.fuse self.new.fuse result }
        ensures passes { trip_of self.old.fuse ≡ case.Passes → IsErrOf result Fault.Failed → ⊥ }
        ensures shortages { self.new.shortages ≡ self.old.shortages }
        ensures calls { self.new.held.calls.items ≡ self.old.held.calls.items }
    {
        self.reads = self.reads.saturating_add(1);
        let trip = self.fuse.burn();
        let done = self.held.read_file(alloc, path, from, len);
        answer(&mut self.failures, trip, done)
    }

    fn length(&mut self, path: &str) -> Result<u64, Fault>
        ensures effect { (state_of self.old).honest → Measured path.now (state_of self.old) (state_of self.new) result }
        ensures which { IfErr result (λ e. e ≢ Fault.Exists) }
        ensures counts { CountsFailure result (state_of self.old).failures (state_of self.new).failures }
        ensures reads { (state_of self.new).reads ≡ (state_of self.old).reads }
        ensures honest { (state_of self.old).honest ↔ (state_of self.new).honest }
        ensures fuse { Burns self.old.fuse self.new.fuse result }
        ensures passes { trip_of self.old.fuse ≡ case.Passes → IsErrOf result Fault.Failed → ⊥ }
        ensures shortages { self.new.shortages ≡ self.old.shortages }
        ensures calls { self.new.held.calls.items ≡ self.old.held.calls.items }
    {
        let trip = self.fuse.burn();
        let done = self.held.measure_file(path);
        answer(&mut self.failures, trip, done)
    }

    fn list(&mut self, alloc: Global, folder: &str) -> Result<Vec<Entry>, Fault>
        ensures effect { (state_of self.old).honest → Listed (λ entries. entries.items) folder.now (state_of self.old) (state_of self.new) result }
        ensures which { IfErr result (λ e. e ≢ Fault.Exists) }
        ensures counts { CountsFailure result (state_of self.old).failures (state_of self.new).failures }
        ensures reads { (state_of self.new).reads ≡ (state_of self.old).reads }
        ensures honest { (state_of self.old).honest ↔ (state_of self.new).honest }
        ensures fuse { Burns self.old.fuse self.new.fuse result }
        ensures passes { trip_of self.old.fuse ≡ case.Passes → IsErrOf result Fault.Failed → ⊥ }
        ensures shortages { self.new.shortages ≡ self.old.shortages }
        ensures calls { self.new.held.calls.items ≡ self.old.held.calls.items }
    {
        let trip = self.fuse.burn();
        let done = self.held.list_names(alloc, folder);
        answer(&mut self.failures, trip, done)
    }

    fn append(&mut self, path: &str, bytes: &[u8]) -> Result<(), Fault>
        ensures effect { (state_of self.old).honest → Appended path.now bytes.now (state_of self.old) (state_of self.new) result }
        ensures which { IfErr result (λ e. e ≢ Fault.Exists) }
        ensures counts { CountsFailure result (state_of self.old).failures (state_of self.new).failures }
        ensures reads { (state_of self.new).reads ≡ (state_of self.old).reads }
        ensures honest { (state_of self.old).honest ↔ (state_of self.new).honest }
        ensures fuse { Burns self.old.fuse self.new.fuse result }
        ensures passes { trip_of self.old.fuse ≡ case.Passes → IsErrOf result Fault.Failed → ⊥ }
        ensures nothing { trip_of self.old.fuse ≡ case.Fails extent.Nothing → self.new.held.calls.items ≡ self.old.held.calls.items }
        ensures extent { (n : ℕ) → IsFileAt self.old.held path.now n → FailsBy (written n bytes.now) self.old self.new }
        ensures ample { ShortOnlyWhere (IsFile (state_of self.old).seen path.now) self.old self.new result }
        ensures whole { (n : ℕ) → IsFileAt self.old.held path.now n → OnOk result (loose_in self.new ≡ appended (loose_in self.old) n bytes.now) }
        ensures unable { (IsFile (state_of self.old).seen path.now → ⊥) → self.new.held.calls.items ≡ self.old.held.calls.items }
    {
        let trip = self.fuse.burn();
        let done = self.held.append_file(trip, path, bytes);
        count_shortage(&mut self.shortages, trip, &done);
        answer(&mut self.failures, trip, done)
    }

    fn sync(&mut self, path: &str) -> Result<(), Fault>
        ensures effect { (state_of self.old).honest → Synced path.now (state_of self.old) (state_of self.new) result }
        ensures which { IfErr result (λ e. e ≢ Fault.Exists) }
        ensures counts { CountsFailure result (state_of self.old).failures (state_of self.new).failures }
        ensures reads { (state_of self.new).reads ≡ (state_of self.old).reads }
        ensures honest { (state_of self.old).honest ↔ (state_of self.new).honest }
        ensures fuse { Burns self.old.fuse self.new.fuse result }
        ensures passes { trip_of self.old.fuse ≡ case.Passes → IsErrOf result Fault.Failed → ⊥ }
        ensures nothing { trip_of self.old.fuse ≡ case.Fails extent.Nothing → (loose_in self.new).synced ≡ (loose_in self.old).synced }
        ensures extent { (n : ℕ) → IsFileAt self.old.held path.now n → IsSure self.old.held n → FailsBy (doubtful n) self.old self.new }
        ensures ample { StaysUnlessShort (IsSureFile (loose_in self.old) path.now) result self.old.shortages self.new.shortages }
        ensures whole { (n : ℕ) → IsFileAt self.old.held path.now n → IsSure self.old.held n
            → OnOk result (loose_in self.new ≡ node_synced (loose_in self.old) n) }
        ensures unable { (IsSureFile (loose_in self.old) path.now → ⊥) → self.new.held.calls.items ≡ self.old.held.calls.items }
    {
        let trip = self.fuse.burn();
        let done = self.held.sync_file(trip, path);
        count_shortage(&mut self.shortages, trip, &done);
        answer(&mut self.failures, trip, done)
    }

    fn sync_folder(&mut self, folder: &str) -> Result<(), Fault>
        ensures effect { (state_of self.old).honest → FolderSynced folder.now (state_of self.old) (state_of self.new) result }
        ensures which { IfErr result (λ e. (e ≡ Fault.Absent) ⊎ (e ≡ Fault.Failed)) }
        ensures counts { CountsFailure result (state_of self.old).failures (state_of self.new).failures }
        ensures reads { (state_of self.new).reads ≡ (state_of self.old).reads }
        ensures honest { (state_of self.old).honest ↔ (state_of self.new).honest }
        ensures fuse { Burns self.old.fuse self.new.fuse result }
        ensures nothing { trip_of self.old.fuse ≡ case.Fails extent.Nothing → self.new.held.calls.items ≡ self.old.held.calls.items }
        ensures passes { trip_of self.old.fuse ≡ case.Passes → IsErrOf result Fault.Failed → IsOneMore self.old.shortages self.new.shortages }
        ensures extent { (state_of self.old).seen.names folder.now ≡ Folder → FailsBy (taken (λ l. folder_synced l folder.now)) self.old self.new }
        ensures ample { ShortOnlyWhere ((state_of self.old).seen.names folder.now ≡ Folder) self.old self.new result }
        ensures whole { OnOk result (loose_in self.new ≡ folder_synced (loose_in self.old) folder.now) }
        ensures unable { (((state_of self.old).seen.names folder.now ≡ Folder) → ⊥) → self.new.held.calls.items ≡ self.old.held.calls.items }
    {
        let trip = self.fuse.burn();
        let done = self.held.sync_names(trip, folder);
        let told = tell_shortage(&mut self.shortages, done);
        answer(&mut self.failures, trip, told)
    }

    fn rename(&mut self, source: &str, target: &str) -> Result<(), Fault>
        ensures effect { (state_of self.old).honest → Renamed source.now target.now (state_of self.old) (state_of self.new) result }
        ensures which { IfErr result (λ e. e ≢ Fault.Memory) }
        ensures counts { CountsFailure result (state_of self.old).failures (state_of self.new).failures }
        ensures reads { (state_of self.new).reads ≡ (state_of self.old).reads }
        ensures honest { (state_of self.old).honest ↔ (state_of self.new).honest }
        ensures fuse { Burns self.old.fuse self.new.fuse result }
        ensures nothing { trip_of self.old.fuse ≡ case.Fails extent.Nothing → self.new.held.calls.items ≡ self.old.held.calls.items }
        ensures passes { trip_of self.old.fuse ≡ case.Passes → IsErrOf result Fault.Failed → IsOneMore self.old.shortages self.new.shortages }
        ensures extent { IsMovable (state_of self.old).seen source.now target.now → FailsBy (moved source.now target.now) self.old self.new }
        ensures ample { ShortOnlyWhere (IsMovable (state_of self.old).seen source.now target.now) self.old self.new result }
        ensures whole { OnOk result (loose_in self.new ≡ moved source.now target.now extent.Whole (loose_in self.old)) }
        ensures unable { (IsMovable (state_of self.old).seen source.now target.now → ⊥) → self.new.held.calls.items ≡ self.old.held.calls.items }
    {
        let trip = self.fuse.burn();
        let done = self.held.rename_file(trip, source, target);
        let told = tell_shortage(&mut self.shortages, done);
        answer(&mut self.failures, trip, told)
    }

    fn remove(&mut self, path: &str) -> Result<(), Fault>
        ensures effect { (state_of self.old).honest → Removed path.now (state_of self.old) (state_of self.new) result }
        ensures counts { CountsFailure result (state_of self.old).failures (state_of self.new).failures }
        ensures reads { (state_of self.new).reads ≡ (state_of self.old).reads }
        ensures honest { (state_of self.old).honest ↔ (state_of self.new).honest }
        ensures fuse { Burns self.old.fuse self.new.fuse result }
        ensures nothing { trip_of self.old.fuse ≡ case.Fails extent.Nothing → self.new.held.calls.items ≡ self.old.held.calls.items }
        ensures passes { trip_of self.old.fuse ≡ case.Passes → IsErrOf result Fault.Failed → ⊥ }
        ensures extent { IsFile (state_of self.old).seen path.now → FailsBy (taken (λ l. bound l path.now binding.Nothing)) self.old self.new }
        ensures ample { ShortOnlyWhere (IsFile (state_of self.old).seen path.now) self.old self.new result }
        ensures whole { OnOk result (loose_in self.new ≡ bound (loose_in self.old) path.now binding.Nothing) }
        ensures unable { (IsFile (state_of self.old).seen path.now → ⊥) → self.new.held.calls.items ≡ self.old.held.calls.items }
    {
        let trip = self.fuse.burn();
        let done = self.held.remove_file(trip, path);
        count_shortage(&mut self.shortages, trip, &done);
        answer(&mut self.failures, trip, done)
    }

    fn failures(&self) -> u64 {
        self.failures
    }

    fn reads(&self) -> u64 {
        self.reads
    }
}
