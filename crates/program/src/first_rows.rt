//! The first rows of a file, to lines.

ghost use Rattle.std.specs.Prelude.{◌≡◌, ◌≢◌, ◌⊎◌, ℕ, List, Option, Some, false, take, IfErr, OnOk};
ghost use Rattle.bits.specs.Refusals.{IsFault, RefusedOnly};
ghost use Rattle.bits.specs.declared.refusal.Refusal.TheVariants.{Memory, Device};
ghost use Rattle.schema.specs.Values.{ValueTrees};
ghost use Rattle.schema.specs.Shape.{Fields};
ghost use Rattle.schema.specs.Fits.{RowsFit};
ghost use Rattle.footer.specs.Left.{rows_stand};
ghost use Rattle.program.specs.Program.{WritesFirstRowsOf, WritesRowsUpTo, MeansUpTo, MeansRowsUpTo, HasFaultUpTo};
ghost use Rattle.program.specs.inner.Gathered.{AppendsLines};

use crate::decode::{decode, write_full};
use crate::host::write_whole;
use bits::R;
use footer::{FileReader, Rows};
use jsonrows::{RowPlan, RowText};
use schema::Schema;
use std::alloc::Global;
use std::io::Write;

/// Writes the rows that the bytes of a file mean, each as a line of JSON, with texts or without, as [`decode`] does; where there is
/// a limit, the first `limit` rows. Then no groups are read but those that have these rows. Refused as [`decode`], and where there
/// is a limit, for no fault of a group after these.
pub fn decode_up_to<W: Write, E: Write>(
    alloc: Global,
    bytes: &[u8],
    limit: Option<u64>,
    texts: bool,
    out: &mut W,
    err: &mut E,
    shows: bool,
) -> R<()>
    ensures stands { OnOk result (WritesRowsUpTo texts limit bytes.now (W.contents out.old) (W.contents out.new)) }
    ensures only { IfErr result (λ e. IsFault e → e ≢ Device → (fs : Fields) (rows : List ValueTrees) → MeansUpTo limit bytes.now fs rows → ⊥) }
    ensures accepted { IfErr result (λ e. ((e ≢ Device) × (W.contents out.new ≡ W.contents out.old)) ⊎ MeansRowsUpTo limit bytes.now) }
    ensures which { IfErr result (λ e. (e ≡ Device) ⊎ HasFaultUpTo limit bytes.now e) }
    ensures unchanged { IfErr result (λ e. e ≢ Device → e ≢ Memory → W.contents out.new ≡ W.contents out.old) }
    ensures quiet { shows ≡ false → E.contents err.new ≡ E.contents err.old }
{
    match limit {
        None => decode(alloc, bytes, texts, out, err, shows),
        Some(limit) => decode_first(alloc, bytes, limit, texts, out),
    }
}

/// Writes the first `limit` rows of a file, each as a line of JSON, with texts or without. Refused as [`decode_up_to`].
fn decode_first<W: Write>(
    alloc: Global,
    bytes: &[u8],
    limit: u64,
    texts: bool,
    out: &mut W,
) -> R<()>
    ensures stands { OnOk result (WritesFirstRowsOf texts limit bytes.now (W.contents out.old) (W.contents out.new)) }
    ensures only { IfErr result (λ e. IsFault e → e ≢ Device → (fs : Fields) (rows : List ValueTrees) → MeansUpTo (Some limit) bytes.now fs rows → ⊥) }
    ensures accepted { IfErr result (λ e. ((e ≢ Device) × (W.contents out.new ≡ W.contents out.old)) ⊎ MeansRowsUpTo (Some limit) bytes.now) }
    ensures which { IfErr result (λ e. (e ≡ Device) ⊎ HasFaultUpTo (Some limit) bytes.now e) }
    ensures unchanged { IfErr result (λ e. e ≢ Device → e ≢ Memory → W.contents out.new ≡ W.contents out.old) }
{
    let file = FileReader::of_first_rows(alloc, bytes, limit)?;
    let mut rows = file.rows(alloc);
    write_first(alloc, file.schema(), &mut rows, limit, texts, out)
}

/// Takes the first `limit` rows, and writes each as a line. Refused Device where one cannot be written.
fn write_first<W: Write>(
    alloc: Global,
    schema: &Schema,
    rows: &mut Rows<'_>,
    limit: u64,
    texts: bool,
    out: &mut W,
) -> R<()>
    ensures stands { (all : List ValueTrees) → rows_stand rows.old all → RowsFit schema.now all
        → OnOk result (AppendsLines texts schema.now (take limit all) (W.contents out.old) (W.contents out.new)) }
    ensures which { (all : List ValueTrees) → rows_stand rows.old all → RowsFit schema.now all → RefusedOnly (λ e. e ≡ Device) result }
{
    let plan = RowPlan::with_texts(alloc, schema, texts)?;
    let mut text = RowText::new(alloc, &plan);
    for count in 0..limit {
        // For the proof: how many were taken has a name.
        let _ = count;
        if !text.put_next(rows)? {
            return write_whole(text.lines(), out);
        }
        write_full(&mut text, out)?;
    }
    write_whole(text.lines(), out)
}
