//! What is recorded.

use crate::name::Name;
use crate::node::Node;
use disk::Binding;

/// What a call has done to the disk.
#[derive(Drop)]
pub enum Call {
    /// the disk began with these names and nodes
    Begin(Vec<Name>, Vec<Node>),
    Bind(String, Binding),
    Append(usize, Vec<u8>),
    Sync(usize),
    SyncFolder(String),
    Doubt(usize),
}
