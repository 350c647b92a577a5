//! Rows as lines of JSON, which are read in blocks and gathered under their keys.

ghost use Rattle.std.specs.Prelude.{◌≡◌, ◌<◌, ◌^◌, ◌+◌, ◌∷◌, [], ℕ, List, Bool, Option, false, length, IfOk, IfErr, OnOk, MatchResult};
ghost use Rattle.std.specs.Str.Lines.{lines};
ghost use Rattle.bits.specs.Refusals.{RefusedOnly, RefusedMemoryOnly};
ghost use Rattle.bits.specs.declared.refusal.Refusal.TheVariants.{Limit};
ghost use Rattle.footer.specs.declared.options.WriteOptions.{WriteOptions as Options};
ghost use Rattle.manifest.specs.Groups.{Root, root_of};
ghost use Rattle.rowtext.specs.Reader.{schema_of};
ghost use Rattle.table_commits.specs.Gathering.{KeepsTable};
ghost use Rattle.commands.specs.RowLines.{IsRefusedLine};
ghost use Rattle.places.specs.Blocks.{AreKnown};
ghost use Rattle.commands.specs.FileLines.{AreRefusedOf};
ghost use Rattle.commands.specs.inner.LineCuts.{IsLineLength};
ghost use Rattle.commands.specs.inner.GatheredRows.{AddsLine, HoldsLines, GathersLines, GathersBytes, GathersBlock, HasRead, HasReadAll};

use crate::line_cuts::{forget, line_at, line_length, whole_length};
use crate::tasks::found;
use answers::as_text;
use assemble::RowSink;
use bits::{R, Refusal};
use call_reasons::{LineNotes, RowNotes, gathered_reason};
use footer::WriteOptions;
use gather::Gathered;
use jsonrows::Reader;
use manifest::Manifest;
use places::{BlockReader, Notes, Reason};
use reports::Progress;
use std::alloc::Global;
use std::io::Write;
use store::begin_gathering;

/// How many bytes a line has at most, with the two of its end.
const LONGEST_LINE: usize = 1_073_741_826;

/// Rows of lines, gathered for a table while they are read.
#[derive(Drop)]
pub(crate) struct LineGatherer<'a> {
    gathered: Gathered<'a>,
    /// What is kept of the lines.
    met: LineNotes,
    reader: Reader<'a>,
    /// Whether dates, times, timestamps and decimals are also read from their texts.
    texts: bool,
    progress: Progress,
}

/// The rows of the lines of a file, gathered for a table, in groups of the size that the options say; a last line needs no line
/// feed. With `texts`, dates, times, timestamps and decimals are also read from their texts. Where `shows` says so, `err` shows how
/// many rows were read so far.
///
/// Refused Device where the file cannot be read, which is noted. Refused for the first line that is no row: Script where it is not
/// UTF-8, Limit where it has more than 1,073,741,824 bytes, else as `row_from_as` refuses it; then `why` gets its number and what is
/// wrong in it. A row whose key can name no folder is no fault of its line. Time is linear in the file. Room is that of the columns, of
/// a block and of the longest line; no row is made.
pub(crate) fn gathered_lines<'a, B: BlockReader, E: Write>(
    alloc: Global,
    table: &'a Manifest,
    options: &WriteOptions,
    texts: bool,
    file: &mut B,
    notes: &Notes,
    err: &mut E,
    shows: bool,
    why: &mut Option<Reason>,
) -> R<LineGatherer<'a>>
    ensures stands { IfOk result (HasReadAll texts (root_of table.now) options.now (B.left file.old)) }
    ensures which { IfErr result (AreRefusedOf (B.is_shut file.old) (AreKnown (B.left file.old)) texts (root_of table.now).schema) }
    ensures quiet { shows ≡ false → E.contents err.new ≡ E.contents err.old }
{
    let mut lines = LineGatherer::new(alloc, table, options, texts, shows)?;
    let gathered = lines.gather_file(alloc, file, notes, err);
    lines.progress.clear(err);
    match gathered {
        Ok(()) => Ok(lines),
        Err(refusal) => {
            *why = lines.met.fault();
            Err(refusal)
        }
    }
}

impl<'a> LineGatherer<'a> {
    /// No rows yet for a table. It fails only when out of memory.
    fn new(
        alloc: Global,
        table: &'a Manifest,
        options: &WriteOptions,
        texts: bool,
        shows: bool,
    ) -> R<LineGatherer<'a>>
        ensures begins { IfOk result (HoldsLines texts (root_of table.now) options.now []) }
        ensures shown { IfOk result (λ g. g.progress.is_shown ≡ shows) }
        ensures which { RefusedMemoryOnly result }
    {
        let gathered = begin_gathering(alloc, table, options)?;
        let reader = Reader::new(alloc, table.schema())?;
        Ok(LineGatherer {
            gathered,
            met: LineNotes::new(alloc),
            reader,
            texts,
            progress: Progress::new(alloc, "read", None, shows),
        })
    }

    /// The rows, and what is kept of them.
    pub(crate) fn into_parts(self, alloc: Global) -> (Gathered<'a>, RowNotes<'a>)
        ensures { result.0 ≡ self.entry.gathered }
    {
        let LineGatherer { gathered, met, .. } = self;
        let notes = RowNotes {
            schema: gathered.schema(),
            lines: met,
            key: found(gathered_reason(alloc, &gathered)),
        };
        (gathered, notes)
    }

    /// Gathers the rows of all lines of a file. Refused as [`gathered_lines`].
    fn gather_file<B: BlockReader, E: Write>(
        &mut self,
        alloc: Global,
        file: &mut B,
        notes: &Notes,
        err: &mut E,
    ) -> R<()>
        ensures gathers { (texts : Bool) (root : Root) (options : Options) → HoldsLines texts root options [] self.old
            → MatchResult result (λ _. HasReadAll texts root options (B.left file.old) self.new)
            (AreRefusedOf (B.is_shut file.old) (AreKnown (B.left file.old)) texts root.schema) }
        ensures quiet { self.old.progress.is_shown ≡ false → E.contents err.new ≡ E.contents err.old }
        ensures hidden { self.new.progress.is_shown ≡ self.old.progress.is_shown }
    {
        let mut waiting = Vec::new(alloc);
        'reads: for _ in 0..u64::MAX {
            if !self.gather_block(file, &mut waiting, notes, err)? {
                return Ok(());
            }
        }
        // Never reached: no file has as many blocks.
        Err(Refusal::Memory)
    }

    /// Reads the next block of a file behind the bytes that wait, and gathers the rows of the lines that are whole then. False after
    /// the last block.
    fn gather_block<B: BlockReader, E: Write>(
        &mut self,
        file: &mut B,
        waiting: &mut Vec<u8>,
        notes: &Notes,
        err: &mut E,
    ) -> R<bool>
        ensures gathers { (texts : Bool) (root : Root) (options : Options) (start : Option (List ℕ))
            → HasRead texts root options start (B.left file.old) waiting.old.items self.old
            → GathersBlock texts root options start (B.left file.new) (B.is_shut file.old) waiting.new.items self.new result }
        ensures shut { B.is_shut file.new → B.is_shut file.old }
        ensures quiet { self.old.progress.is_shown ≡ false → E.contents err.new ≡ E.contents err.old }
        ensures hidden { self.new.progress.is_shown ≡ self.old.progress.is_shown }
    {
        // A line may come in many blocks, so that what waits is not looked at again.
        let seen = waiting.len();
        let is_more = file.read_block(waiting, notes)?;
        let bytes = waiting.as_slice();
        check_length(bytes, &mut self.met)?;
        let whole = whole_length(bytes, seen, is_more);
        self.gather_bytes(bytes.split_at(whole).0, err)?;
        forget(waiting, whole);
        Ok(is_more)
    }

    /// Gathers the rows of the lines of bytes. Refused Script for a line that is not UTF-8.
    fn gather_bytes<E: Write>(&mut self, bytes: &[u8], err: &mut E) -> R<()>
        ensures gathers { GathersBytes bytes.now self.old self.new result }
        ensures quiet { self.old.progress.is_shown ≡ false → E.contents err.new ≡ E.contents err.old }
        ensures hidden { self.new.progress.is_shown ≡ self.old.progress.is_shown }
    {
        match as_text(bytes) {
            Some(text) => self.gather_lines(text, err),
            None => self.gather_texts(bytes, err),
        }
    }

    /// Gathers the rows of the lines of bytes, each of which is looked at by itself, up to the first that is not UTF-8.
    #[cold]
    fn gather_texts<E: Write>(&mut self, bytes: &[u8], err: &mut E) -> R<()>
        ensures gathers { GathersBytes bytes.now self.old self.new result }
        ensures quiet { self.old.progress.is_shown ≡ false → E.contents err.new ≡ E.contents err.old }
        ensures hidden { self.new.progress.is_shown ≡ self.old.progress.is_shown }
    {
        let mut place = 0;
        while place < bytes.len() {
            let line = line_at(bytes, place);
            self.gather_text(line, err)?;
            place += line.len();
        }
        Ok(())
    }

    /// Gathers the row of the only line of bytes. Refused Script where it is not UTF-8.
    fn gather_text<E: Write>(&mut self, line: &[u8], err: &mut E) -> R<()>
        requires { IsLineLength line.now (length line.now) }
        ensures gathers { GathersBytes line.now self.old self.new result }
        ensures quiet { self.old.progress.is_shown ≡ false → E.contents err.new ≡ E.contents err.old }
        ensures hidden { self.new.progress.is_shown ≡ self.old.progress.is_shown }
    {
        match as_text(line) {
            Some(text) => self.gather_lines(text, err),
            None => {
                self.met.refuse_bytes();
                Err(Refusal::Script)
            }
        }
    }

    /// Gathers the rows of the lines of a text.
    fn gather_lines<E: Write>(&mut self, text: &str, err: &mut E) -> R<()>
        ensures gathers { GathersLines (lines text.now) self.old self.new result }
        ensures quiet { self.old.progress.is_shown ≡ false → E.contents err.new ≡ E.contents err.old }
        ensures hidden { self.new.progress.is_shown ≡ self.old.progress.is_shown }
    {
        for line in text.lines() {
            self.gather_line(line)?;
            self.progress.count_row(err);
        }
        Ok(())
    }

    /// Gathers the row of a line too. Refused as `row_from_as` refuses the line.
    fn gather_line(&mut self, line: &str) -> R<()>
        ensures gathers { GathersLines (line.now ∷ []) self.old self.new result }
        ensures hidden { self.new.progress.is_shown ≡ self.old.progress.is_shown }
    {
        let schema = self.gathered.schema();
        self.met.count(line);
        let added = add_line(&mut self.reader, line, self.texts, &mut self.gathered);
        self.met.keep(schema, line, self.texts, &added);
        added
    }
}

/// Refused Limit where the first line of bytes, which may not be whole, is too long; then `met` gets its number.
fn check_length(bytes: &[u8], met: &mut LineNotes) -> R<()>
    ensures which { RefusedOnly (λ e. (e ≡ Limit) × (n : ℕ) × (2 ^ 30 + 2 < n) × IsLineLength bytes.now n) result }
{
    if bytes.len() > LONGEST_LINE && line_length(bytes) > LONGEST_LINE {
        met.refuse_length();
        return Err(Refusal::Limit);
    }
    Ok(())
}

/// Adds the row of a line to those that are gathered. Refused as `row_from_as` refuses the line.
fn add_line(reader: &mut Reader<'_>, line: &str, texts: bool, gathered: &mut Gathered<'_>) -> R<()>
    ensures stands { OnOk result (AddsLine texts (schema_of reader.old) line.now gathered.old gathered.new) }
    ensures which { RefusedOnly (IsRefusedLine texts (schema_of reader.old) line.now) result }
    ensures table { KeepsTable gathered.old gathered.new }
    ensures same { schema_of reader.new ≡ schema_of reader.old }
{
    gathered.begin_row();
    reader.read_to_as(line, gathered, texts)?;
    gathered.end_row()
}
