//! What a disk keeps: the record of its calls, and what the record says of names and nodes.

ghost use Rattle.std.specs.Prelude.{◌≡◌, ◌≢◌, ◌<◌, ◌+◌, ℕ, [], length, IfOk, OnOk, OnErr};
ghost use Rattle.disk.specs.Paths.{folder_of};
ghost use Rattle.disk.specs.declared.binding.Binding.TheVariants.{Nothing, Folder, File};
ghost use Rattle.mem_disk.specs.Tables.{AreApart, apart_once};
ghost use Rattle.mem_disk.specs.Loose.{Keeps, GoesOn, empty, replayed, bound, appended, node_synced, node_doubted, folder_synced};

use crate::call::Call;
use crate::names::Names;
use crate::node::Node;
use disk::Binding;
use std::alloc::{AllocError, Global};

/// What a disk keeps.
#[derive(Drop)]
pub struct Held {
    pub alloc: Global,
    pub names: Names,
    pub nodes: Vec<Node>,
    /// what has been done since the disk began
    pub calls: Vec<Call>,
    pub ghost kept: { Keeps names.list.items nodes.items calls.items },
    pub ghost apart: { AreApart names.list.items } by { apart_once names.list.items },
}

impl Held {
    /// The empty folder.
    pub fn new(alloc: Global) -> Held
        ensures { result.calls.items ≡ [] }
    {
        Held {
            alloc,
            names: Names::new(alloc),
            nodes: Vec::new(alloc),
            calls: Vec::new(alloc),
        }
    }

    /// What a path names.
    pub fn binding(&self, path: &str) -> Binding
        ensures { result ≡ (replayed empty self.now.calls.items).names path.now }
    {
        self.names.binding(path)
    }

    /// A new node, which is empty.
    pub fn add_node(&mut self) -> Result<usize, AllocError>
        ensures node { IfOk result (λ n. (n ≡ length self.old.nodes.items) × (length self.new.nodes.items ≡ n + 1)) }
        ensures calls { self.new.calls.items ≡ self.old.calls.items }
    {
        let node = self.nodes.len();
        self.nodes.push(Node::new(self.alloc))?;
        Ok(node)
    }

    /// Binds a path.
    pub fn bind(&mut self, path: &str, to: Binding) -> Result<(), AllocError>
        requires no_folder { (replayed empty self.old.calls.items).names path.now ≢ Folder }
        requires home { (replayed empty self.old.calls.items).names (folder_of path.now) ≡ Folder }
        requires node { (n : ℕ) → to ≡ File n → n < length self.old.nodes.items }
        ensures ok { OnOk result (GoesOn self.old.calls.items self.new.calls.items (bound (replayed empty self.old.calls.items) path.now to)) }
        ensures err { OnErr result (self.new.calls.items ≡ self.old.calls.items) }
        ensures nodes { self.new.nodes.items ≡ self.old.nodes.items }
    {
        let call = Call::Bind(String::from_str(self.alloc, path)?, to);
        self.calls.push(call)?;
        match self.names.rebind(self.alloc, path, to) {
            Ok(()) => Ok(()),
            Err(e) => {
                self.calls.pop();
                Err(e)
            }
        }
    }

    /// Writes after a node's end.
    pub fn append(&mut self, node: usize, bytes: &[u8]) -> Result<(), AllocError>
        requires { node < length self.old.nodes.items }
        ensures ok { OnOk result (GoesOn self.old.calls.items self.new.calls.items (appended (replayed empty self.old.calls.items) node bytes.now)) }
        ensures err { OnErr result (self.new.calls.items ≡ self.old.calls.items) }
    {
        let call = Call::Append(node, Vec::from_slice(self.alloc, bytes)?);
        self.calls.push(call)?;
        let to = &mut self.nodes[node];
        match to.bytes.extend_from_slice(bytes) {
            Ok(()) => Ok(()),
            Err(e) => {
                self.calls.pop();
                Err(e)
            }
        }
    }

    /// Makes a node's bytes durable.
    pub fn sync(&mut self, node: usize) -> Result<(), AllocError>
        requires { node < length self.old.nodes.items }
        ensures ok { OnOk result (GoesOn self.old.calls.items self.new.calls.items (node_synced (replayed empty self.old.calls.items) node)) }
        ensures err { OnErr result (self.new.calls.items ≡ self.old.calls.items) }
        ensures nodes { length self.new.nodes.items ≡ length self.old.nodes.items }
    {
        self.calls.push(Call::Sync(node))?;
        let at = &mut self.nodes[node];
        at.sync();
        Ok(())
    }

    /// A sync of the node has failed.
    pub fn doubt(&mut self, node: usize) -> Result<(), AllocError>
        requires { node < length self.old.nodes.items }
        ensures ok { OnOk result (GoesOn self.old.calls.items self.new.calls.items (node_doubted (replayed empty self.old.calls.items) node)) }
        ensures err { OnErr result (self.new.calls.items ≡ self.old.calls.items) }
        ensures nodes { length self.new.nodes.items ≡ length self.old.nodes.items }
    {
        self.calls.push(Call::Doubt(node))?;
        let at = &mut self.nodes[node];
        at.doubted = true;
        Ok(())
    }

    /// Makes a folder's names durable.
    pub fn sync_folder(&mut self, folder: &str) -> Result<(), AllocError>
        ensures ok { OnOk result (GoesOn self.old.calls.items self.new.calls.items (folder_synced (replayed empty self.old.calls.items) folder.now)) }
        ensures err { OnErr result (self.new.calls.items ≡ self.old.calls.items) }
    {
        let call = Call::SyncFolder(String::from_str(self.alloc, folder)?);
        self.calls.push(call)?;
        self.names.settle(folder);
        Ok(())
    }
}
