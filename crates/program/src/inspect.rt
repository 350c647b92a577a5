//! What a file is, written.

ghost use Rattle.std.specs.Prelude.{◌≡◌, ◌≢◌, ◌⊎◌, ℕ, List, IfErr, OnOk};
ghost use Rattle.bits.specs.declared.refusal.Refusal.TheVariants.{Memory, Device};
ghost use Rattle.metadata.specs.Records.{FileMeta};
ghost use Rattle.footer.specs.File.{IsFile};
ghost use Rattle.footer.specs.Faults.{HasFooterFault};
ghost use Rattle.program.specs.Paths.{IsUnwritten};
ghost use Rattle.program.specs.Program.{WritesReportOf, IsPartsRefusal};

use crate::host::{refused_in, write_whole};
use bits::{R, Refusal};
use reasons::Cause;
use reports::{ByteSource, ends_of, footer_problem, report_by_ends, report_text};
use std::alloc::Global;
use std::io::{self, Write};

/// Writes what a file is: for a person, or as a line of JSON. Refused as [`report_text`] is, and Device where the output
/// cannot be written; nothing is written before all of the report is there.
pub fn inspect<W: Write>(alloc: Global, bytes: &[u8], as_json: bool, out: &mut W) -> R<()>
    ensures stands { OnOk result (WritesReportOf bytes.now (W.contents out.old) (W.contents out.new)) }
    ensures which { IfErr result (λ e. (e ≡ Device) ⊎ HasFooterFault bytes.now e) }
    ensures unchanged { IfErr result (λ e. e ≢ Device → e ≢ Memory → W.contents out.new ≡ W.contents out.old) }
{
    let text = report_text(alloc, bytes, as_json)?;
    write_whole(text.as_slice(), out)
}

/// Writes what the file at a path is, as [`inspect`], from its parts: only its ends and the page headers are read. Refused also Device
/// where it cannot be read. Then `why` may get the path and the system's words, or what is wrong with its footer.
pub fn inspect_parts<S: ByteSource<Fault = io::Error>, W: Write>(
    alloc: Global,
    path: &str,
    parts: &mut S,
    as_json: bool,
    out: &mut W,
    why: &mut Option<Cause>,
) -> R<()>
    ensures stands { OnOk result ((bytes : List ℕ) × WritesReportOf bytes (W.contents out.old) (W.contents out.new)) }
    ensures which { IfErr result IsPartsRefusal }
    ensures unwritten { IfErr result (IsUnwritten (W.contents out.old) (W.contents out.new)) }
{
    let text = text_of_parts(alloc, path, parts, as_json, why)?;
    write_whole(text.as_slice(), out)
}

/// What a file is, from its parts, as text. Refused as [`inspect_parts`] but for the output.
fn text_of_parts<S: ByteSource<Fault = io::Error>>(
    alloc: Global,
    path: &str,
    parts: &mut S,
    as_json: bool,
    why: &mut Option<Cause>,
) -> R<Vec<u8>>
    ensures stands { OnOk result ((bytes : List ℕ) × (front : List ℕ) × (meta : FileMeta) × IsFile bytes front meta) }
    ensures which { IfErr result IsPartsRefusal }
{
    let ends = match ends_of(alloc, parts) {
        Ok(ends) => ends,
        Err(error) => return Err(refused_in(alloc, path, error, why)),
    };
    match report_by_ends(alloc, ends.as_slice(), parts, as_json) {
        Ok(Ok(text)) => Ok(text),
        Ok(Err(error)) => Err(refused_in(alloc, path, error, why)),
        Err(refusal) => {
            say_footer(alloc, path, ends.as_slice(), parts.len(), &refusal, why);
            Err(refusal)
        }
    }
}

/// Where the footer of a file of so many bytes is refused, `why` gets the path and what is wrong with it, if there is memory.
fn say_footer(
    alloc: Global,
    path: &str,
    ends: &[u8],
    length: usize,
    refusal: &Refusal,
    why: &mut Option<Cause>,
) {
    if *refusal != Refusal::Memory
        && let Ok(problem) = footer_problem(alloc, ends, length, refusal)
        && let Ok(line) = format!(in alloc; "{path}: {problem}")
    {
        *why = Some(Cause::Said(line));
    }
}
