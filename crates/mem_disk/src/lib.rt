//! A disk in memory that keeps the model of the trait `Disk`, and whose stops and failures can be chosen: what the
//! crates above are tested on.
//!
//! [`MemDisk::new`] is the empty folder. [`MemDisk::fuse`] and [`MemDisk::fail_once`] say which calls fail and what a
//! failed call has done, and [`MemDisk::crash`] gives a disk with what a stop may leave, by a list of words.
//!
//! The record of its calls is the disk: `specs/Loose.antt` says what a record leaves loose (`replayed`) and what a stop
//! may leave of that (`MayLeave`), and `specs/States.antt` makes of it the state that the trait's contract speaks of,
//! one moment for each call of the record (`state_with`; of a `MemDisk`: `state_of` in `specs/Disks.antt`). Lists of
//! names and nodes next to the record serve reads without a replay, and a ghost field ties them to it (`Keeps`).
//! `specs/Fuses.antt` says which calls fail (`Burns`), `specs/Failing.antt` what a call that fails has done (`HasDone`),
//! `specs/Shortages.antt` what a call that never returns Memory returns when it is out of memory, and `specs/Picks.antt` which
//! image a list of words picks (`ArePickedBy`).
//!
//! A call finds its name by a map, so its time depends neither on the number of names nor on the length of the record.
//! `sync_folder` and `list` pass once over all names that ever came up. `crash` looks up each folder above each name:
//! its time grows with the number of names times the depth of their folders, and with the bytes of all files. The
//! record is never cut: each byte that is appended is kept twice.
#![tactic(auto)]

mod acts;
mod call;
mod crash;
mod fuse;
mod held;
mod left;
mod listing;
mod mem_disk_impl;
mod name;
mod names;
mod node;
mod reads;

ghost use Rattle.std.specs.Prelude.{◌≡◌, option_map};

use crate::fuse::{Fuse, done_of};
use crate::held::Held;
use disk::Binding;
use std::alloc::Global;

/// A disk of folders and files in memory.
#[derive(Drop)]
pub struct MemDisk {
    held: Held,
    failures: u64,
    reads: u64,
    shortages: u64,
    fuse: Fuse,
}

impl MemDisk {
    ghost use Rattle.disk.specs.State.{IsAtRest, content};
    ghost use Rattle.mem_disk.specs.Disks.{state_of};
    ghost use Rattle.mem_disk.specs.Loose.{empty, image_of};
    ghost use Rattle.mem_disk.specs.Fuses;
    ghost use Rattle.mem_disk.specs.declared.fuse.Fuse.TheVariants as plan;

    /// The empty folder, with nothing loose; no call fails.
    pub fn new(alloc: Global) -> MemDisk
        ensures rest { IsAtRest (state_of result) }
        ensures seen { (state_of result).seen ≡ image_of empty }
        ensures failures { result.failures ≡ 0 }
        ensures reads { result.reads ≡ 0 }
        ensures shortages { result.shortages ≡ 0 }
        ensures fuse { result.fuse ≡ plan.Never }
    {
        MemDisk {
            held: Held::new(alloc),
            failures: 0,
            reads: 0,
            shortages: 0,
            fuse: Fuse::Never,
        }
    }

    /// From now on `k` calls pass, and all later ones fail. Each call of the disk counts, those that read too, but for
    /// `failures` and `reads`; what was set before is forgotten. A call that fails returns Failed, whatever it would
    /// have returned. The pick, modulo 3, says what a failed call has done: 0 nothing, 1 the whole, 2 a part (of an
    /// append the first half, rounded down to whole bytes, of a rename the target's name only, of any other call the
    /// whole).
    pub fn fuse(&mut self, k: u64, pick: u64)
        ensures fuse { self.new.fuse ≡ plan.After k (Fuses.done_of pick) }
        ensures calls { self.new.held.calls.items ≡ self.old.held.calls.items }
        ensures failures { self.new.failures ≡ self.old.failures }
        ensures reads { self.new.reads ≡ self.old.reads }
        ensures shortages { self.new.shortages ≡ self.old.shortages }
    {
        self.fuse = Fuse::After(k, done_of(pick));
    }

    /// From now on `k` calls pass, one fails, and all later ones pass. The pick is as in [`MemDisk::fuse`].
    pub fn fail_once(&mut self, k: u64, pick: u64)
        ensures fuse { self.new.fuse ≡ plan.Once k (Fuses.done_of pick) }
        ensures calls { self.new.held.calls.items ≡ self.old.held.calls.items }
        ensures failures { self.new.failures ≡ self.old.failures }
        ensures reads { self.new.reads ≡ self.old.reads }
        ensures shortages { self.new.shortages ≡ self.old.shortages }
    {
        self.fuse = Fuse::Once(k, done_of(pick));
    }

    /// What a path names. It is no call: no fuse burns, and nothing is counted.
    pub fn named(&self, path: &str) -> Binding
        ensures { result ≡ (state_of self.now).seen.names path.now }
    {
        self.held.binding(path)
    }

    /// The bytes of the file at a path; None where no file is there. It is no call.
    pub fn content(&self, path: &str) -> Option<&[u8]>
        ensures { option_map (λ bytes. bytes.now) result ≡ content (state_of self.now).seen path.now }
    {
        self.held.content(path)
    }

    /// How many calls that returned Failed have done less than they were to, since a growth was refused in them: of
    /// those that the fuse lets fail any that should do something, of all others only `rename` and `sync_folder`, which
    /// never return Memory. It stays at the greatest u64.
    pub fn shortages(&self) -> u64
        ensures { result ≡ self.now.shortages }
    {
        self.shortages
    }
}
