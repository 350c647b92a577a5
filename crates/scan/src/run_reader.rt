//! The rows of columns side by side, one by one.

ghost use Rattle.std.specs.Prelude.{◌≡◌, List, false, length, map, IfOk, OnOk, IfErr, IsTrue};
ghost use Rattle.bits.specs.Refusals.{RefusedOnly, RefusedMemoryOnly};
ghost use Rattle.schema.specs.Values.{ValueTrees};
ghost use Rattle.scan.specs.Faults.{IsOfParts};
ghost use Rattle.scan.specs.Left.{RunHolds};
ghost use Rattle.schema.specs.Cutting.{cut_to};
ghost use Rattle.schema.specs.Stripe.{leaves_of};
ghost use Rattle.metadata.specs.Views.{chunk_meta_view};
ghost use Rattle.scan.specs.inner.Parts.{AreSized};
ghost use Rattle.scan.specs.inner.Texts.{HoldColumns, texts_view};
ghost use Rattle.scan.specs.inner.Uses.{numbers_of};

use crate::checking::{check_wanted, have_counts};
use crate::held::Held;
use crate::parts::Run;
use crate::sources::sources_of;
use assemble::{
    RowSink, count_rows, flat_columns_have_rows, is_flat, next_flat_row_to, next_known_row_to,
};
use bits::{Fault, R, Refusal};
use pages::one_page;
use row_group::ChunkReader;
use schema::{Schema, a_cut_has_the_wanted_leaves, columns_determine_rows};
use std::alloc::Global;

/// The pieces of rows in columns that are read, as they are still to come.
#[derive(Drop)]
pub(crate) struct RunReader<'a> {
    pub schema: &'a Schema,
    pub readers: Vec<ChunkReader<'a>>,
    /// Whether the schema is flat: then rows are read without a look at it.
    pub is_flat: bool,
}

impl<'a> RunReader<'a> {
    ghost use Rattle.assemble.specs.RowsOf.{StandForRows};
    ghost use Rattle.row_group.specs.Left.{chunk_stands};
    ghost use Rattle.scan.specs.Left.{RunStands};
    ghost use Rattle.scan.specs.inner.Parts.{ShowsNext, IsMemoryWhere};

    /// A reader of all pieces of a run of columns. No page is read.
    pub fn new(alloc: Global, held: &'a Held, run: &'a Run) -> R<RunReader<'a>>
        ensures stands { IfOk result (λ r. (pieces : List ValueTrees) → RunHolds held.now run.now pieces → RunStands r pieces) }
        ensures holds { IfOk result (λ r. (pieces : List ValueTrees) → StandForRows chunk_stands r.readers.items run.now.schema pieces
            → RunHolds held.now run.now pieces) }
        ensures schema { IfOk result (λ r. r.schema.now ≡ run.now.schema) }
        ensures only { (pieces : List ValueTrees) → RunHolds held.now run.now pieces → RefusedMemoryOnly result }
        ensures which { RefusedOnly IsOfParts result }
    {
        // For the proof: the run's is a schema.
        let _ = run.schema.leaves();
        if !is_sized(held, run) {
            return Err(Refusal::Schema);
        }
        let readers = sources_of(
            alloc,
            &held.schema,
            held.chunks.as_slice(),
            run.uses.as_slice(),
            held.first.as_slice(),
            held.later.as_slice(),
            false,
        )?;
        Ok(RunReader {
            schema: &run.schema,
            readers,
            is_flat: is_flat(&run.schema),
        })
    }

    /// Shows a sink the next piece. A fault owns no memory.
    #[inline(always)]
    pub fn show_next<K: RowSink>(&mut self, sink: &mut K) -> Result<(), Fault>
        ensures shows { OnOk result (ShowsNext (RunStands self.old) (RunStands self.new) (λ piece. piece) (K.shows sink.old) (K.shows sink.new)) }
        ensures only { IfErr result (IsMemoryWhere (RunStands self.old)) }
        ensures base_stays { K.base sink.new ≡ K.base sink.old }
    {
        if self.is_flat {
            next_flat_row_to(self.readers.as_mut_slice(), sink)
        } else {
            next_known_row_to(self.schema, self.readers.as_mut_slice(), sink)
        }
    }
}

/// Reads the chunks of a run of columns to their ends, and keeps nothing of them: they hold so many pieces. Refused
/// Levels for another number of them; otherwise as the chunks are.
///
/// In a flat schema each piece has one entry in each column, so that the pieces are counted without a look at each of
/// them.
pub(crate) fn check_run(alloc: Global, held: &Held, run: &Run, count: u64) -> R<()>
    requires cut { run.now.schema ≡ cut_to (numbers_of false 0 run.now.uses.items) held.now.schema }
    ensures accepts { OnOk result ((pieces : List ValueTrees) × RunHolds held.now run.now pieces × (length pieces ≡ count)) }
    ensures only { (pieces : List ValueTrees) → RunHolds held.now run.now pieces → length pieces ≡ count → RefusedMemoryOnly result }
    ensures which { RefusedOnly IsOfParts result }
{
    flat_columns_have_rows();
    a_cut_has_the_wanted_leaves();
    // For the proof: the run's is a schema.
    let _ = run.schema.leaves();
    if is_flat(&run.schema) && have_counts(held.chunks.as_slice(), run.uses.as_slice(), count) {
        return check_held(alloc, held, run);
    }
    check_row_by_row(alloc, held, run, count)
}

/// As [`check_run`], for each schema: counts the pieces one by one, and makes none.
fn check_row_by_row(alloc: Global, held: &Held, run: &Run, count: u64) -> R<()>
    ensures accepts { OnOk result ((pieces : List ValueTrees) × RunHolds held.now run.now pieces × (length pieces ≡ count)) }
    ensures only { (pieces : List ValueTrees) → RunHolds held.now run.now pieces → length pieces ≡ count → RefusedMemoryOnly result }
    ensures which { RefusedOnly IsOfParts result }
{
    one_page();
    columns_determine_rows();
    // For the proof: the run's is a schema.
    let _ = run.schema.leaves();
    let mut reader = RunReader::new(alloc, held, run)?;
    match count_rows(&run.schema, reader.readers.as_mut_slice()) {
        Ok(pieces) if pieces == count => Ok(()),
        Ok(_) => Err(Refusal::Levels),
        Err(refusal) => {
            check_held(alloc, held, run)?;
            Err(refusal)
        }
    }
}

/// Reads the pages of the chunks of a run of columns, and keeps nothing of them. Refused as the first chunk that has a
/// fault is.
fn check_held(alloc: Global, held: &Held, run: &Run) -> R<()>
    ensures accepts { OnOk result (HoldColumns false (map chunk_meta_view held.now.chunks.items) (leaves_of held.now.schema) run.now.uses.items
        (texts_view held.now.first.items) (texts_view held.now.later.items)) }
    ensures only { (pieces : List ValueTrees) → RunHolds held.now run.now pieces → RefusedMemoryOnly result }
    ensures which { RefusedOnly IsOfParts result }
{
    if !is_sized(held, run) {
        return Err(Refusal::Schema);
    }
    check_wanted(
        alloc,
        &held.schema,
        held.chunks.as_slice(),
        run.uses.as_slice(),
        held.first.as_slice(),
        held.later.as_slice(),
    )
}

/// Whether what is asked of the leaves, and what was read of them, is there for each leaf: so it is of all that is held.
fn is_sized(held: &Held, run: &Run) -> bool
    ensures sized { IsTrue result → AreSized held.now run.now }
    ensures not_sized { result ≡ false → AreSized held.now run.now → ⊥ }
{
    let count = held.schema.leaves().len();
    if run.uses.len() != count {
        return false;
    }
    if held.first.len() != count {
        return false;
    }
    held.later.len() == count
}
