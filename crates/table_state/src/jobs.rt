//! What a store keeps of its open jobs and cursors.

use filter::Filter;
use manifest::{Group, Manifest};
use partition::KeyRows;
use planning::Sources;
use schema::Row;
use std::rc::Rc;
use table::{CursorId, JobId};

/// An append that was staged: full groups that are written, and the rows that wait, by key, keys ascending, without
/// their values in the key columns.
#[derive(Debug, Drop)]
pub struct Appending {
    pub written: Vec<Rc<Group>>,
    pub waiting: Vec<KeyRows>,
}

/// A rewrite: its runs of sources, and the whole rows of each of the first sources, which are read.
#[derive(Debug, Drop)]
pub struct Rewriting {
    pub runs: Vec<Sources>,
    pub read: Vec<Vec<Row>>,
}

#[derive(Debug, Drop)]
pub enum Work {
    Append(Appending),
    Rewrite(Rewriting),
}

#[derive(Debug, Drop)]
pub struct OpenJob {
    pub number: JobId,
    pub work: Work,
}

/// A cursor over the table of its opening.
#[derive(Drop)]
pub struct OpenCursor {
    pub number: CursorId,
    /// The table's description at its opening: its schema, and its groups.
    pub table: Manifest,
    pub filter: Filter,
    /// The places of the cursor's columns in the schema of `table`, rising.
    pub places: Vec<usize>,
    /// How many groups the cursor has passed.
    pub passed: usize,
    pub ended: bool,
}
