//! What a stop leaves of names and nodes.

ghost use Rattle.std.specs.Prelude.{◌≡◌, IfOk};
ghost use Rattle.mem_disk.specs.Left.{EachOf, IsLeft, IsCopy, left_in};

use crate::name::Name;
use crate::names::Names;
use crate::node::Node;
use disk::{Binding, folder_of};
use std::alloc::{AllocError, Global};

/// The names, each with what is there of it.
pub fn left_names(alloc: Global, picked: &Names) -> Result<Vec<Name>, AllocError>
    ensures { IfOk result (λ left. EachOf (IsLeft (left_in picked.now.list.items)) picked.now.list.items left.items) }
{
    let mut left = Vec::new(alloc);
    for name in &picked.list {
        left.push(Name {
            path: String::from_str(alloc, &name.path)?,
            now: left_at(picked, &name.path),
            had: Vec::new(alloc),
        })?;
    }
    Ok(left)
}

/// A copy of each node, in their order.
pub fn copies_of(alloc: Global, nodes: &[Node]) -> Result<Vec<Node>, AllocError>
    ensures { IfOk result (λ copies. EachOf IsCopy nodes.now copies.items) }
{
    let mut copies = Vec::new(alloc);
    for node in nodes {
        copies.push(Node {
            bytes: Vec::from_slice(alloc, &node.bytes)?,
            synced: node.synced,
            doubted: node.doubted,
        })?;
    }
    Ok(copies)
}

/// What is there of a path, where each of these names has picked its binding: nothing below a folder that is not there.
fn left_at(picked: &Names, path: &str) -> Binding
    ensures { result ≡ left_in picked.now.list.items path.now }
{
    if path.is_empty() {
        return Binding::Folder;
    }
    match left_at(picked, folder_of(path)) {
        Binding::Folder => picked.binding(path),
        _ => Binding::Nothing,
    }
}
