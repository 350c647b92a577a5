//! What the commands print.

ghost use Rattle.std.specs.Prelude.{◌≡◌, ◌⊎◌, ◌∷◌, [], ◌++◌, ℕ, Bool, List, Option, None, Some, Ok, codes, decimal, length, IfOk, OnOk};
ghost use Rattle.std.specs.Io.KnownBytes.{Appends};
ghost use Rattle.serde_json.specs.Data.{Data, Items, array};
ghost use Rattle.serde_json.specs.Written.{compact_text};
ghost use Rattle.bits.specs.Refusals.{HasCause, RefusedOnly};
ghost use Rattle.bits.specs.declared.refusal.Refusal.TheVariants.{Device};
ghost use Rattle.schema.specs.Values.{ValueTrees};
ghost use Rattle.schema.specs.Shape.{Fields, no_fields};
ghost use Rattle.schema.specs.Fits.{RowsFit};
ghost use Rattle.rowtext.specs.Rows.{BeginsLineAs};
ghost use Rattle.scan.specs.Left.{rows_stand};
ghost use Rattle.jsonrows.specs.Answers.{answer_json_as, group_json};
ghost use Rattle.jsonrows.specs.SchemaPrinted.{PrintsFields};
ghost use Rattle.answers.specs.QueryFile.{first_of};
ghost use Rattle.answers.specs.inner.Gathering.{AreGathered, HasWrittenLines, BeginsLines};

use crate::row_limit::most_of;
use assemble::Discard;
use bits::{R, Refusal};
use itoa::Buffer;
use jsonrows::{RowText, answer_to_as, group_to, schema_to};
use places::refusal_of;
use scan::Rows;
use schema::Schema;
use std::alloc::Global;
use std::io::{self, Write};
use table::{Answer, GroupInfo};

/// How many bytes of lines are gathered before they are written.
const GATHERED_BYTES: usize = 65_536;

/// Why a writer could not be used: Memory where a growth was refused, else Device.
fn writer_refusal(error: io::Error) -> Refusal
    ensures which { (result ≡ Refusal.Memory) ⊎ (result ≡ Refusal.Device) }
    ensures caused { HasCause (λ e. e ≡ Refusal.Device) result }
{
    refusal_of(error)
}

/// Writes all of a text. Refused Device where it cannot be written.
pub fn write_text<W: Write>(text: &[u8], out: &mut W) -> R<()>
    ensures written { OnOk result (Appends (W.contents out.old) (W.contents out.new) text.now) }
    ensures which { RefusedOnly (λ e. e ≡ Device) result }
{
    out.write_all(text).map_err(writer_refusal)
}

/// Prints `done N`, a line, and takes no memory of its own: for want of it no change is refused after it was made. Refused
/// Device where it cannot be written.
pub fn print_done<W: Write>(rows: u64, out: &mut W) -> R<()>
    ensures written { OnOk result (Appends (W.contents out.old) (W.contents out.new) (codes "done " ++ decimal rows ++ codes "\n")) }
    ensures which { RefusedOnly (λ e. e ≡ Device) result }
{
    let mut digits = Buffer::new();
    write_text(b"done ", out)?;
    write_text(digits.format(rows).as_bytes(), out)?;
    write_text(b"\n", out)
}

/// Prints a number, a line. Refused Device where it cannot be written.
pub fn print_number<W: Write>(alloc: Global, number: u64, out: &mut W) -> R<()>
    ensures written { OnOk result (Appends (W.contents out.old) (W.contents out.new) (decimal number ++ codes "\n")) }
{
    let line = format!(in alloc; "{number}\n")?;
    write_text(line.as_bytes(), out)
}

/// Prints an answer over a schema, a line of JSON. With `texts`, dates, times, timestamps and decimals in the rows of a batch are
/// texts. Refused RowShape for rows that are none of the schema, and Device where it cannot be written.
pub fn print_answer<W: Write>(
    alloc: Global,
    schema: &Schema,
    answer: &Answer,
    texts: bool,
    out: &mut W,
) -> R<()>
    ensures written { OnOk result ((d : Data) × (answer_json_as texts schema.now answer.now ≡ Ok d)
        × Appends (W.contents out.old) (W.contents out.new) (compact_text d ++ 10 ∷ [])) }
{
    let mut text = answer_to_as(alloc, schema, answer, texts)?;
    text.push('\n')?;
    write_text(text.as_bytes(), out)
}

/// Prints a schema, a line of JSON that [`schema_from`](jsonrows::schema_from) reads as it. Refused Device where it cannot be
/// written.
pub fn print_columns<W: Write>(alloc: Global, schema: &Schema, out: &mut W) -> R<()>
    ensures written { OnOk result ((ds : Items) × PrintsFields schema.now ds
        × Appends (W.contents out.old) (W.contents out.new) (compact_text (array ds) ++ 10 ∷ [])) }
{
    let mut text = schema_to(alloc, schema)?;
    text.push('\n')?;
    write_text(text.as_bytes(), out)
}

/// Prints the rows that a reader still gives, or the first `limit` of them, a line each, and returns how many. `text` makes
/// their lines, and has gathered none; without it each row is `{}`. Refused Device where they cannot be written.
pub fn print_shown<W: Write>(
    rows: &mut Rows<'_>,
    limit: Option<u64>,
    text: &mut Option<RowText<'_>>,
    out: &mut W,
) -> R<u64>
    ensures printed { (texts : Bool) (fs : Fields) (all : List ValueTrees) → BeginsLines texts fs text.old → rows_stand rows.old all → RowsFit fs all
        → IfOk result (HasWrittenLines texts fs (first_of limit all) text.new (W.contents out.old) (W.contents out.new)) }
    ensures which { (texts : Bool) (fs : Fields) (all : List ValueTrees) → BeginsLines texts fs text.old → rows_stand rows.old all → RowsFit fs all
        → RefusedOnly (λ e. e ≡ Device) result }
{
    match text {
        Some(text) => print_lines(rows, limit, text, out),
        None => print_empty_rows(rows, limit, out),
    }
}

/// Takes rows, at most so many where there is a limit, and gathers their lines, which are written where they are many.
/// Returns how many rows.
fn gather_lines<W: Write>(
    rows: &mut Rows<'_>,
    limit: Option<u64>,
    text: &mut RowText<'_>,
    out: &mut W,
) -> R<u64>
    ensures gathers { (texts : Bool) (fs : Fields) (all : List ValueTrees) → BeginsLineAs texts text.old fs [] → rows_stand rows.old all → RowsFit fs all
        → IfOk result (λ count. (count ≡ length (first_of limit all))
        × AreGathered texts fs (first_of limit all) text.new (W.contents out.old) (W.contents out.new)) }
    ensures which { (texts : Bool) (fs : Fields) (all : List ValueTrees) → BeginsLineAs texts text.old fs [] → rows_stand rows.old all → RowsFit fs all
        → RefusedOnly (λ e. e ≡ Device) result }
{
    for count in 0..most_of(limit) {
        // For the proof: how many were taken has a name.
        let _ = count;
        if !text.put_next(rows)? {
            return Ok(count);
        }
        write_full(text, out)?;
    }
    match limit {
        Some(limit) => Ok(limit),
        // Never reached: no group has as many rows.
        None => Err(Refusal::Memory),
    }
}

/// Prints rows with columns, at most so many where there is a limit, and returns how many.
fn print_lines<W: Write>(
    rows: &mut Rows<'_>,
    limit: Option<u64>,
    text: &mut RowText<'_>,
    out: &mut W,
) -> R<u64>
    ensures printed { (texts : Bool) (fs : Fields) (all : List ValueTrees) → BeginsLineAs texts text.old fs [] → rows_stand rows.old all → RowsFit fs all
        → IfOk result (HasWrittenLines texts fs (first_of limit all) (Some text.new) (W.contents out.old) (W.contents out.new)) }
    ensures which { (texts : Bool) (fs : Fields) (all : List ValueTrees) → BeginsLineAs texts text.old fs [] → rows_stand rows.old all → RowsFit fs all
        → RefusedOnly (λ e. e ≡ Device) result }
{
    let count = gather_lines(rows, limit, text, out)?;
    write_text(text.lines(), out)?;
    text.clear_lines();
    Ok(count)
}

/// Writes the lines that were gathered once they are many, and forgets them. Refused Device where they cannot be written.
fn write_full<W: Write>(text: &mut RowText<'_>, out: &mut W) -> R<()>
    ensures gathered { (texts : Bool) (fs : Fields) (rows : List ValueTrees) (old : Option (List ℕ)) → AreGathered texts fs rows text.old old (W.contents out.old)
        → OnOk result (AreGathered texts fs rows text.new old (W.contents out.new)) }
    ensures which { RefusedOnly (λ e. e ≡ Device) result }
{
    if text.lines().len() < GATHERED_BYTES {
        return Ok(());
    }
    write_text(text.lines(), out)?;
    text.clear_lines();
    Ok(())
}

/// Prints rows without columns, at most so many where there is a limit, and returns how many.
fn print_empty_rows<W: Write>(rows: &mut Rows<'_>, limit: Option<u64>, out: &mut W) -> R<u64>
    ensures printed { (texts : Bool) (all : List ValueTrees) → rows_stand rows.old all
        → IfOk result (HasWrittenLines texts no_fields (first_of limit all) None (W.contents out.old) (W.contents out.new)) }
    ensures which { (all : List ValueTrees) → rows_stand rows.old all → RefusedOnly (λ e. e ≡ Device) result }
{
    for count in 0..most_of(limit) {
        // For the proof: how many were taken has a name.
        let _ = count;
        if !rows.show_next(&mut Discard)? {
            return Ok(count);
        }
        write_text(b"{}\n", out)?;
    }
    match limit {
        Some(limit) => Ok(limit),
        // Never reached: no group has as many rows.
        None => Err(Refusal::Memory),
    }
}

/// Prints what a group is, a line of JSON: its bytes, its key, its number, its rows.
pub fn print_group<W: Write>(alloc: Global, group: &GroupInfo, out: &mut W) -> R<()>
    ensures written { OnOk result ((d : Data) × (group_json group.now ≡ Ok d) × Appends (W.contents out.old) (W.contents out.new) (compact_text d ++ 10 ∷ [])) }
{
    let mut text = group_to(alloc, group)?;
    text.push('\n')?;
    write_text(text.as_bytes(), out)
}
