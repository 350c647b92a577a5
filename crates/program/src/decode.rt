//! Files to lines.

ghost use Rattle.std.specs.Prelude.{◌≡◌, ◌≢◌, ◌⊎◌, ℕ, Bool, List, Option, false, IfErr, OnOk};
ghost use Rattle.bits.specs.Refusals.{IsFault, RefusedOnly};
ghost use Rattle.bits.specs.declared.refusal.Refusal.TheVariants.{Memory, Device};
ghost use Rattle.schema.specs.Values.{ValueTrees};
ghost use Rattle.schema.specs.Shape.{Fields};
ghost use Rattle.schema.specs.Fits.{RowsFit};
ghost use Rattle.footer.specs.File.{FileMeans};
ghost use Rattle.footer.specs.Faults.{HasFault};
ghost use Rattle.footer.specs.Left.{rows_stand};
ghost use Rattle.rowtext.specs.Rows.{BeginsLineAs};
ghost use Rattle.program.specs.Program.{WritesRowsOf, MeansRows};
ghost use Rattle.program.specs.inner.Gathered.{AppendsLines, AreGathered, GathersLines, WritesPart};

use crate::host::{OUTPUT_BUFFER_BYTES, write_text, write_whole};
use bits::{R, Refusal};
use footer::{FileReader, Rows, read_footer};
use jsonrows::{RowPlan, RowText};
use reports::Progress;
use schema::Schema;
use std::alloc::Global;
use std::io::Write;

/// How many rows are taken at most before progress is counted.
const ROWS_AT_ONCE: usize = 1_024;

/// Writes the rows that the bytes of a file mean, each as a line of JSON; with `texts`, dates, times, timestamps and decimals are
/// texts. Refused as [`FileReader::new`] is, and then nothing is written; Device where a line cannot be written. Once the file was accepted, lines
/// are made of the rows one by one, gathered, and written some 64 KiB at a time. If memory runs out at a row, lines
/// before it may be written already. Where `shows` says so, `err` shows how many rows were decoded so far.
///
/// The file is decoded twice: once to accept it, and once for its rows. Time is linear in what is decoded and in the
/// lines; memory is that of one page of each column of a group, of a line, and of what is gathered.
pub fn decode<W: Write, E: Write>(
    alloc: Global,
    bytes: &[u8],
    texts: bool,
    out: &mut W,
    err: &mut E,
    shows: bool,
) -> R<()>
    ensures stands { OnOk result (WritesRowsOf texts bytes.now (W.contents out.old) (W.contents out.new)) }
    ensures only { IfErr result (λ e. IsFault e → e ≢ Device → (fs : Fields) (rows : List ValueTrees) → FileMeans bytes.now fs rows → ⊥) }
    ensures accepted { IfErr result (λ e. ((e ≢ Device) × (W.contents out.new ≡ W.contents out.old)) ⊎ MeansRows bytes.now) }
    ensures which { IfErr result (λ e. (e ≡ Device) ⊎ HasFault bytes.now e) }
    ensures unchanged { IfErr result (λ e. e ≢ Device → e ≢ Memory → W.contents out.new ≡ W.contents out.old) }
    ensures quiet { shows ≡ false → E.contents err.new ≡ E.contents err.old }
{
    let file = FileReader::new(alloc, bytes)?;
    let mut progress = progress_of(alloc, bytes, shows);
    let mut rows = file.rows(alloc);
    let written = write_rows(
        alloc,
        file.schema(),
        &mut rows,
        texts,
        out,
        err,
        &mut progress,
    );
    progress.clear(err);
    written
}

/// Takes rows and gathers their lines, until these are enough to be written or [`ROWS_AT_ONCE`] rows were taken.
/// Returns how many, and 0 only after the last row. It fails only when out of memory.
fn put_lines(rows: &mut Rows<'_>, text: &mut RowText<'_>) -> R<usize>
    ensures puts { (texts : Bool) (fs : Fields) (all : List ValueTrees) (old new : Option (List ℕ))
        → AreGathered texts fs (rows_stand rows.old) (BeginsLineAs texts text.old fs) all old new
        → GathersLines texts fs (rows_stand rows.new) (BeginsLineAs texts text.new fs) all old new result }
{
    for count in 0..ROWS_AT_ONCE {
        if !text.put_next(rows)? {
            return Ok(count);
        }
        if text.lines().len() >= OUTPUT_BUFFER_BYTES {
            return Ok(count + 1);
        }
    }
    Ok(ROWS_AT_ONCE)
}

/// Writes the lines that were gathered once they are enough. Refused Device where they cannot be written.
pub fn write_full<W: Write>(text: &mut RowText<'_>, out: &mut W) -> R<()>
    ensures stands { (texts : Bool) (fs : Fields) (lines : List ℕ) → BeginsLineAs texts text.old fs lines
        → OnOk result (WritesPart (W.contents out.old) (W.contents out.new) (BeginsLineAs texts text.new fs) lines) }
    ensures which { RefusedOnly (λ e. e ≡ Device) result }
{
    if text.lines().len() < OUTPUT_BUFFER_BYTES {
        return Ok(());
    }
    write_text(text.lines(), out)?;
    text.clear_lines();
    Ok(())
}

/// Takes the rows, writes each as a line, and counts them. Refused Device where one cannot be written.
fn write_rows<W: Write, E: Write>(
    alloc: Global,
    schema: &Schema,
    rows: &mut Rows<'_>,
    texts: bool,
    out: &mut W,
    err: &mut E,
    progress: &mut Progress,
) -> R<()>
    ensures stands { (all : List ValueTrees) → rows_stand rows.old all → RowsFit schema.now all
        → OnOk result (AppendsLines texts schema.now all (W.contents out.old) (W.contents out.new)) }
    ensures which { (all : List ValueTrees) → rows_stand rows.old all → RowsFit schema.now all → RefusedOnly (λ e. e ≡ Device) result }
    ensures quiet { progress.old.is_shown ≡ false → E.contents err.new ≡ E.contents err.old }
    ensures same { progress.new.is_shown ≡ progress.old.is_shown }
{
    let plan = RowPlan::with_texts(alloc, schema, texts)?;
    let mut text = RowText::new(alloc, &plan);
    'more: for _ in 0..u64::MAX {
        let count = put_lines(rows, &mut text)?;
        if count == 0 {
            return write_whole(text.lines(), out);
        }
        write_full(&mut text, out)?;
        progress.count_rows(count as u64, err);
    }
    // Never reached: no file has as many rows.
    Err(Refusal::Memory)
}

/// How many rows the groups of a file have, as its footer says; none where it cannot be read.
fn rows_of_groups(alloc: Global, bytes: &[u8]) -> Option<u64> {
    let record = read_footer(alloc, bytes).ok()?;
    let mut all: u64 = 0;
    for group in &record.row_groups {
        all = all.saturating_add(u64::try_from(group.num_rows).ok()?);
    }
    Some(all)
}

/// The progress of decoding a file, of which no row is decoded yet.
fn progress_of(alloc: Global, bytes: &[u8], shows: bool) -> Progress
    ensures { result.is_shown ≡ shows }
{
    let all = if shows {
        rows_of_groups(alloc, bytes)
    } else {
        None
    };
    Progress::new(alloc, "decoded", all, shows)
}
