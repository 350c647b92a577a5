//! Names.

ghost use Rattle.std.specs.Prelude.{◌≡◌, ◌++◌, ◌∷◌, [], MatchOption, OnOk, OnErr};
ghost use Rattle.disk.specs.declared.binding.Binding.TheVariants.{Nothing, Folder};

use disk::Binding;
use std::alloc::{AllocError, Global};

/// A name, and what it stands for.
#[derive(Drop)]
pub struct Name {
    pub path: String,
    pub now: Binding,
    /// what else the name has stood for since its folder's last sync, in the order of time
    pub had: Vec<Binding>,
}

impl Name {
    ghost use Rattle.mem_disk.specs.Tables.{Settled};

    /// From now on the name stands for this.
    pub fn turn(&mut self, to: Binding) -> Result<(), AllocError>
        ensures path { self.new.path ≡ self.old.path }
        ensures now { OnOk result (self.new.now ≡ to) }
        ensures had { OnOk result (self.new.had.items ≡ self.old.had.items ++ self.old.now ∷ []) }
        ensures err { OnErr result ((self.new.now ≡ self.old.now) × (self.new.had.items ≡ self.old.had.items)) }
    {
        self.had.push(self.now)?;
        self.now = to;
        Ok(())
    }

    /// A folder was synced: a name that lies in it is durable.
    pub fn settle(&mut self, folder: &str)
        ensures settled { Settled folder.now self.old self.new }
    {
        if self.had.is_empty() {
            return;
        }
        if disk::folder_of(&self.path) == folder {
            self.had.clear();
        }
    }
}
