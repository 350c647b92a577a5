//! The parts of rows, one row after another.

ghost use Rattle.std.specs.Prelude.{◌≡◌, List, length, IfOk, OnOk, IfErr};
ghost use Rattle.bits.specs.Refusals.{RefusedOnly, RefusedMemoryOnly};
ghost use Rattle.schema.specs.Values.{ValueTrees};
ghost use Rattle.schema.specs.Views.{row_view};
ghost use Rattle.assemble.specs.Sinks.{Adds, tokens_each};
ghost use Rattle.scan.specs.Faults.{IsOfParts};
ghost use Rattle.scan.specs.Left.{part_stands, part_holds, PartsStand, PartsHold, joined};
ghost use Rattle.scan.specs.inner.Parts.{ShowsNext, IsMemoryWhere, IsCutPart, AreCutParts};

use crate::held::Held;
use crate::parts::Part;
use crate::run_reader::{RunReader, check_run};
use assemble::{RowSink, show_repeated_row};
use bits::{Fault, R};
use schema::Row;
use std::alloc::Global;

/// The pieces of rows in some of their columns, as they are still to come.
#[derive(Drop)]
pub(crate) enum PartReader<'a> {
    /// The same values in each row.
    Given(&'a Row),
    Read(RunReader<'a>),
}

/// A reader of each part. No page is read.
pub(crate) fn readers_of<'a>(
    alloc: Global,
    held: &'a Held,
    parts: &'a [Part],
) -> R<Vec<PartReader<'a>>>
    ensures stands { IfOk result (λ rs. (rows : List (List ValueTrees)) → PartsHold held.now parts.now rows → PartsStand rs.items rows) }
    ensures as_many { IfOk result (λ rs. length rs.items ≡ length parts.now) }
    ensures only { (rows : List (List ValueTrees)) → PartsHold held.now parts.now rows → RefusedMemoryOnly result }
    ensures which { RefusedOnly IsOfParts result }
{
    let mut readers = Vec::with_capacity(alloc, parts.len())?;
    for part in parts {
        readers.push(reader_of(alloc, held, part)?)?;
    }
    Ok(readers)
}

/// A reader of a part. No page is read.
fn reader_of<'a>(alloc: Global, held: &'a Held, part: &'a Part) -> R<PartReader<'a>>
    ensures stands { IfOk result (λ r. (pieces : List ValueTrees) → part_holds held.now part.now pieces → part_stands r pieces) }
    ensures only { (pieces : List ValueTrees) → part_holds held.now part.now pieces → RefusedMemoryOnly result }
    ensures which { RefusedOnly IsOfParts result }
{
    match part {
        Part::Given(row) => Ok(PartReader::Given(row)),
        Part::Read(run) => Ok(PartReader::Read(RunReader::new(alloc, held, run)?)),
    }
}

/// Reads the chunks of each part to their ends, and keeps nothing of them: they hold so many rows.
pub(crate) fn check_parts(alloc: Global, held: &Held, parts: &[Part], count: u64) -> R<()>
    requires cut { AreCutParts held.now.schema parts.now }
    ensures accepts { OnOk result ((rows : List (List ValueTrees)) × PartsHold held.now parts.now rows × (length rows ≡ count)) }
    ensures only { (rows : List (List ValueTrees)) → PartsHold held.now parts.now rows → length rows ≡ count → RefusedMemoryOnly result }
    ensures which { RefusedOnly IsOfParts result }
{
    for part in parts {
        check_part(alloc, held, part, count)?;
    }
    Ok(())
}

/// Reads the chunks of a part to their ends, and keeps nothing of them: they hold so many rows.
fn check_part(alloc: Global, held: &Held, part: &Part, count: u64) -> R<()>
    requires cut { IsCutPart held.now.schema part.now }
    ensures accepts { OnOk result ((pieces : List ValueTrees) × part_holds held.now part.now pieces × (length pieces ≡ count)) }
    ensures only { (pieces : List ValueTrees) → part_holds held.now part.now pieces → length pieces ≡ count → RefusedMemoryOnly result }
    ensures which { RefusedOnly IsOfParts result }
{
    match part {
        Part::Given(_) => Ok(()),
        Part::Read(run) => check_run(alloc, held, run, count),
    }
}

/// Shows a sink the pieces of the next row, one part after another. A fault owns no memory.
#[inline(always)]
pub(crate) fn show_parts<K: RowSink>(
    parts: &mut [PartReader<'_>],
    sink: &mut K,
) -> Result<(), Fault>
    ensures shows { OnOk result (ShowsNext (PartsStand parts.old) (PartsStand parts.new) (joined (length parts.old)) (K.shows sink.old) (K.shows sink.new)) }
    ensures only { IfErr result (IsMemoryWhere (PartsStand parts.old)) }
    ensures as_many { length parts.new ≡ length parts.old }
    ensures base_stays { K.base sink.new ≡ K.base sink.old }
{
    for k in 0..parts.len() {
        show_part(&mut parts[k], sink)?;
    }
    Ok(())
}

/// Shows a sink the next piece of a part.
#[inline(always)]
fn show_part<K: RowSink>(part: &mut PartReader<'_>, sink: &mut K) -> Result<(), Fault>
    ensures shows { OnOk result (ShowsNext (part_stands part.old) (part_stands part.new) (λ piece. piece) (K.shows sink.old) (K.shows sink.new)) }
    ensures only { IfErr result (IsMemoryWhere (part_stands part.old)) }
    ensures base_stays { K.base sink.new ≡ K.base sink.old }
{
    match part {
        PartReader::Given(row) => show_given(*row, sink),
        PartReader::Read(run) => run.show_next(sink),
    }
}

/// Shows a sink the values of a row, which are shown again for the next row.
#[inline(always)]
fn show_given<K: RowSink>(row: &Row, sink: &mut K) -> Result<(), Fault>
    ensures shown { OnOk result (Adds (K.shows sink.old) (K.shows sink.new) (tokens_each (row_view row.now))) }
    ensures memory { IfErr result (λ f. f ≡ Fault.Memory) }
    ensures base_stays { K.base sink.new ≡ K.base sink.old }
{
    match show_repeated_row(row, sink) {
        Ok(()) => Ok(()),
        Err(_) => Err(Fault::Memory),
    }
}
