//! A disk that keeps nothing but the list of the calls that it got, and fails one of them.

ghost use Rattle.std.specs.Prelude.{◌≡◌, ◌⊎◌, IfErr};
ghost use Rattle.disk.specs.State.{State};
ghost use Rattle.disk.specs.Calls.{CountsFailure};
ghost use Rattle.disk.specs.declared.binding.Binding.TheVariants.{Nothing};
ghost use Rattle.std.specs.Prelude.{[]};

use disk::{Disk, Entry, Fault};
use std::alloc::Global;

#[derive(Drop)]
pub(crate) struct Fake {
    alloc: Global,
    // each call's name and its path, one a line
    pub log: String,
    calls: u64,
    // the number of the call that fails, from 1 on
    fails_at: u64,
    failures: u64,
    reads: u64,
}

impl Fake {
    pub(crate) fn new(alloc: Global, fails_at: u64) -> Fake {
        Fake {
            alloc,
            log: String::new(alloc),
            calls: 0,
            fails_at,
            failures: 0,
            reads: 0,
        }
    }

    fn call(&mut self, name: &str, path: &str) -> Result<(), Fault>
        ensures counts { CountsFailure result self.old.failures self.new.failures }
        ensures reads { self.new.reads ≡ self.old.reads }
        ensures which { IfErr result (λ e. e ≡ Fault.Failed) }
    {
        let _ = self.note(name, path);
        self.calls = self.calls.saturating_add(1);
        if self.calls == self.fails_at {
            self.failures = self.failures.saturating_add(1);
            return Err(Fault::Failed);
        }
        Ok(())
    }

    fn note(&mut self, name: &str, path: &str) -> Result<(), Fault>
        ensures failures { self.new.failures ≡ self.old.failures }
        ensures reads { self.new.reads ≡ self.old.reads }
    {
        self.log.push_str(name)?;
        self.log.push(' ')?;
        self.log.push_str(path)?;
        self.log.push('\n')?;
        Ok(())
    }
}

impl Disk for Fake {
    ghost state = { λ fake. record {
      seen = record { names = λ q. Nothing; bytes = λ n. [] };
      moment = 0;
      images = λ m c. ⊥;
      doubted = λ n. ⊥;
      failures = fake.failures;
      reads = fake.reads;
      honest = ⊥;
    } };

    fn create(&mut self, path: &str) -> Result<(), Fault> {
        self.call("create", path)
    }

    fn make_folder(&mut self, path: &str) -> Result<(), Fault> {
        self.call("make_folder", path)
    }

    fn read_range(
        &mut self,
        alloc: Global,
        path: &str,
        _from: u64,
        _len: usize,
    ) -> Result<Vec<u8>, Fault> {
        self.reads = self.reads.saturating_add(1);
        self.call("read_range", path)?;
        let mut bytes = Vec::new(alloc);
        bytes.push(7)?;
        Ok(bytes)
    }

    fn length(&mut self, path: &str) -> Result<u64, Fault> {
        self.call("length", path)?;
        Ok(1)
    }

    fn list(&mut self, alloc: Global, folder: &str) -> Result<Vec<Entry>, Fault> {
        self.call("list", folder)?;
        Ok(Vec::new(alloc))
    }

    fn append(&mut self, path: &str, _bytes: &[u8]) -> Result<(), Fault> {
        self.call("append", path)
    }

    fn sync(&mut self, path: &str) -> Result<(), Fault> {
        self.call("sync", path)
    }

    fn sync_folder(&mut self, folder: &str) -> Result<(), Fault> {
        self.call("sync_folder", folder)
    }

    fn rename(&mut self, source: &str, _target: &str) -> Result<(), Fault> {
        self.call("rename", source)
    }

    fn remove(&mut self, path: &str) -> Result<(), Fault> {
        self.call("remove", path)?;
        Err(Fault::Absent)
    }

    fn failures(&self) -> u64 {
        self.failures
    }

    fn reads(&self) -> u64 {
        self.reads
    }

    ghost lawful = { λ fake. record { seen_may_stay = λ h. h; whole = λ h. absurd h } };
}
