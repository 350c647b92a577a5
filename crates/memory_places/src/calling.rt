//! A call of the program on files and folders in memory.

ghost use Rattle.std.specs.Prelude.{◌≡◌, ◌≤◌, ℕ, List, Bool};
ghost use Rattle.program.specs.Asked.{IsDone, EndsRefused, AreUnused};
ghost use Rattle.memory_places.specs.Called.{prints_in_memory, fails_in_memory, gives_in_memory, withholds_in_memory};
ghost use Rattle.memory_places.specs.Files.{place_in, place_at};
ghost use Rattle.memory_places.specs.Folders.{known_in_memory};

use crate::disks::FolderDisks;
use crate::layout::Layout;
use crate::memory_paths::MemoryPaths;
use crate::memory_places::MemoryPlaces;
use commands::Folders;
use program::{Terminals, work};
use std::alloc::Global;
use std::io::Write;

/// What came of a call.
#[derive(Drop)]
pub struct Called<'a> {
    pub status: u8,
    /// What is at paths, with the files that were made.
    pub paths: MemoryPaths<'a>,
    /// The folders with their disks.
    pub places: MemoryPlaces<'a>,
}

/// Makes a call of the program by its words, where this is at paths, and folders have these disks. What it prints goes to `out`
/// and `err`; `screen` is standard error once more, and `part_bytes` how many bytes the groups of one of several files take at
/// most.
pub fn made_call<'a, W: Write, E: Write, S: Write + Clone + Drop>(
    alloc: Global,
    layout: &'a Layout,
    disks: FolderDisks,
    words: &[String],
    out: &mut W,
    err: &mut E,
    screen: S,
    terminals: Terminals,
    part_bytes: usize,
) -> Called<'a>
    ensures status { result.status ≤ 2 }
    ensures done { result.status ≡ 0 → IsDone
        (prints_in_memory S (known_in_memory layout.now disks) (known_in_memory result.places.layout.now result.places.disks))
        (gives_in_memory S (known_in_memory layout.now disks) (known_in_memory result.places.layout.now result.places.disks))
        (place_in layout.now) (place_at result.paths.layout.now result.paths.made) words.now
        (W.contents out.old) (W.contents out.new) (E.contents err.old) (E.contents err.new) }
    ensures refused { result.status ≡ 1 → (is_told : Bool) × EndsRefused
        (fails_in_memory S (known_in_memory layout.now disks) (known_in_memory result.places.layout.now result.places.disks))
        (withholds_in_memory S (known_in_memory layout.now disks) (known_in_memory result.places.layout.now result.places.disks))
        (place_in layout.now) (place_at result.paths.layout.now result.paths.made) words.now
        (W.contents out.old) (W.contents out.new) is_told E.contents err.new }
    ensures usage { result.status ≡ 2 → AreUnused words.now terminals.out × (W.contents out.new ≡ W.contents out.old)
        × ((path : List ℕ) → place_at result.paths.layout.now result.paths.made path ≡ place_in layout.now path) }
{
    let mut paths = MemoryPaths::new(alloc, layout);
    let mut datasets = Folders {
        places: MemoryPlaces { layout, disks },
        screen,
        part_bytes,
    };
    let status = work(&mut paths, alloc, words, out, err, terminals, &mut datasets);
    Called {
        status,
        paths,
        places: datasets.places,
    }
}
