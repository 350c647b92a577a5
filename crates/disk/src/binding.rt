//! What names stand for.

/// What a name stands for in the model of a disk.
#[derive(Clone, Copy, Debug, PartialEq, Eq)]
pub enum Binding {
    Nothing,
    Folder,
    /// the file of this node; two names of one node are one file
    File(usize),
}

/// What a listed name stands for.
#[derive(Clone, Copy, Debug, PartialEq, Eq)]
pub enum Kind {
    File,
    Folder,
    /// a link, a pipe, a device or a socket: an honest disk lists none
    Other,
}

/// A name in a folder that was listed.
#[derive(Debug, PartialEq, Eq, Drop)]
pub struct Entry {
    /// only the name, without its folder
    pub name: String,
    pub kind: Kind,
}
