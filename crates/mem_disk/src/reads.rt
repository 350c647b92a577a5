//! What is read of what a disk keeps.

ghost use Rattle.std.specs.Prelude.{◌≡◌, ◌<◌, ◌⊎◌, ℕ, length, take, drop, option_map, IfErr, IfOk};
ghost use Rattle.disk.specs.Calls.{RangeRead, Measured};
ghost use Rattle.disk.specs.State.{content};
ghost use Rattle.disk.specs.declared.fault.Fault.TheVariants.{Absent, Memory};
ghost use Rattle.mem_disk.specs.States.{AlsoFailed};
ghost use Rattle.mem_disk.specs.Holding.{loose_held, image_held, state_held};

use crate::held::Held;
use disk::{Binding, Fault};
use std::alloc::{AllocError, Global};

/// At most `len` bytes from `from` on: as many as are there.
fn part(alloc: Global, bytes: &[u8], from: u64, len: usize) -> Result<Vec<u8>, AllocError>
    ensures { IfOk result (λ read. read.items ≡ take len (drop from bytes.now)) }
{
    if from >= bytes.len() as u64 {
        return Ok(Vec::new(alloc));
    }
    let back = bytes.split_at(from as usize).1;
    let wanted = back.split_at(len.min(back.len())).0;
    Vec::from_slice(alloc, wanted)
}

impl Held {
    /// The bytes of a node.
    fn bytes_of(&self, node: usize) -> &[u8]
        requires { node < length self.now.nodes.items }
        ensures { result.now ≡ (loose_held self.now).bytes node }
    {
        &self.nodes[node].bytes
    }

    /// The bytes of the file at a path; None where no file is there.
    pub fn content(&self, path: &str) -> Option<&[u8]>
        ensures { option_map (λ bytes. bytes.now) result ≡ content (image_held self.now) path.now }
    {
        match self.binding(path) {
            Binding::File(node) => Some(self.bytes_of(node)),
            Binding::Nothing | Binding::Folder => None,
        }
    }

    /// The bytes of a file from `from` on, `len` of them or as many as are there.
    pub fn read_file(
        &self,
        alloc: Global,
        path: &str,
        from: u64,
        len: usize,
    ) -> Result<Vec<u8>, Fault>
        ensures effect { (f g r s : ℕ) → AlsoFailed (RangeRead (λ bytes. bytes.items) path.now from len (state_held self.now f r)
            (state_held self.now g s)) result }
        ensures which { IfErr result (λ e. (e ≡ Absent) ⊎ (e ≡ Memory)) }
    {
        let Binding::File(node) = self.binding(path) else {
            return Err(Fault::Absent)
        };
        let bytes = self.bytes_of(node);
        let read = part(alloc, bytes, from, len)?;
        Ok(read)
    }

    /// How many bytes a file has.
    pub fn measure_file(&self, path: &str) -> Result<u64, Fault>
        ensures effect { (f g r s : ℕ) → AlsoFailed (Measured path.now (state_held self.now f r) (state_held self.now g s)) result }
        ensures which { IfErr result (λ e. e ≡ Absent) }
    {
        let Binding::File(node) = self.binding(path) else {
            return Err(Fault::Absent)
        };
        Ok(self.bytes_of(node).len() as u64)
    }
}
