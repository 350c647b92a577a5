//! Nodes.

ghost use Rattle.std.specs.Prelude.{◌≡◌, [], length, false};

use std::alloc::Global;

/// The bytes of a file.
#[derive(Drop)]
pub struct Node {
    pub bytes: Vec<u8>,
    /// how many of the bytes were there at the last sync
    pub synced: usize,
    /// a sync has failed; later ones make nothing durable
    pub doubted: bool,
}

impl Node {
    pub fn new(alloc: Global) -> Node
        ensures bytes { result.bytes.items ≡ [] }
        ensures synced { result.synced ≡ 0 }
        ensures doubted { result.doubted ≡ false }
    {
        Node {
            bytes: Vec::new(alloc),
            synced: 0,
            doubted: false,
        }
    }

    /// Makes the bytes of the node durable.
    pub fn sync(&mut self)
        ensures bytes { self.new.bytes ≡ self.old.bytes }
        ensures synced { self.new.synced ≡ length self.old.bytes.items }
        ensures doubted { self.new.doubted ≡ self.old.doubted }
    {
        self.synced = self.bytes.len();
    }
}
