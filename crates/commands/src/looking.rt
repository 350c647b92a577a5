//! Commands that look at a dataset and do not open it: nothing is changed, and nothing that a stop left behind is removed.

ghost use Rattle.std.specs.Prelude.{◌≡◌, ◌++◌, [], List, false, codes, decimal, length, OnOk};
ghost use Rattle.std.specs.Io.KnownBytes.{Appends};
ghost use Rattle.std.specs.Str.Lines.{lines};
ghost use Rattle.schema.specs.Values.{ValueTrees};
ghost use Rattle.manifest.specs.Groups.{root_of};
ghost use Rattle.upkeep.specs.Intact.{AreHeld};
ghost use Rattle.upkeep.specs.Reading.{Looks};
ghost use Rattle.commands.specs.RowLines.{AreRowTexts};

use crate::row_lines::rows_of;
use crate::survey_json::json_of_survey;
use answers::write_text;
use bits::{R, Refusal};
use call_reasons::rows_reason;
use disk::Disk;
use manifest::Manifest;
use places::Reason;
use reasons::{large_value, row_fault};
use reports::Progress;
use schema::Schema;
use std::alloc::Global;
use std::io::Write;
use upkeep::{Finding, Watch, check, survey_of, text_of_check, text_of_survey};
use vault::Vault;

/// Prints what a table in a folder has, at a glance, as text or as a line of JSON. Groups of fewer rows than this are small. Refused as
/// `survey_of`, and Device where the output cannot be written.
pub fn print_survey<D: Disk, W: Write>(
    alloc: Global,
    vault: &mut Vault<D>,
    folder: &str,
    table: &Manifest,
    min_rows: u64,
    as_json: bool,
    out: &mut W,
) -> R<()>
    ensures effect { Looks (length (root_of table.now).groups) (D.state vault.old.disk) (D.state vault.new.disk) }
{
    let survey = survey_of(alloc, vault, table, min_rows)?;
    if as_json {
        let line = json_of_survey(alloc, &survey)?;
        return write_text(line.as_slice(), out);
    }
    let text = text_of_survey(alloc, folder, &survey)?;
    write_text(text.as_slice(), out)
}

/// Shows on a screen how many rows a check has dealt with.
#[derive(Drop)]
pub struct Checking<S: Write + Drop> {
    progress: Progress,
    screen: S,
}

impl<S: Write + Drop> Checking<S> {
    /// A check of a table, of which no row is checked yet.
    pub fn new(alloc: Global, table: &Manifest, screen: S, is_shown: bool) -> Checking<S>
        ensures { result.progress.is_shown ≡ is_shown }
    {
        let all = if is_shown { Some(rows_in(table)) } else { None };
        let progress = Progress::new(alloc, "checked", all, is_shown);
        Checking { progress, screen }
    }
}

impl<S: Write + Drop> Watch for Checking<S> {
    fn checked(&mut self, rows: u64) {
        self.progress.count_rows(rows, &mut self.screen);
    }
}

/// How many rows a table has.
fn rows_in(table: &Manifest) -> u64 {
    let groups = table.groups();
    let mut rows: u64 = 0;
    for place in 0..groups.len() {
        if let Some(group) = groups.group_at(place) {
            rows = rows.saturating_add(group.rows());
        }
    }
    rows
}

/// Prints `ok` and how much there is in the table of a folder, or a line for each file that is not as the table says; then a note of the part files
/// that the table does not name, if there are any, which are no fault. With such a line it is refused as the first
/// of these counts; else as `check`, and Device where the output cannot be written. `checking` shows how far it is, and no
/// longer once that is printed.
pub fn print_check<D: Disk, W: Write, S: Write + Drop>(
    alloc: Global,
    vault: &mut Vault<D>,
    folder: &str,
    table: &Manifest,
    checking: &mut Checking<S>,
    out: &mut W,
) -> R<()>
    ensures held { (D.state vault.old.disk).honest → OnOk result (AreHeld (D.state vault.old.disk).seen (root_of table.now)) }
    ensures effect { Looks (length (root_of table.now).groups) (D.state vault.old.disk) (D.state vault.new.disk) }
{
    let checked = check(alloc, vault, table, checking);
    checking.progress.clear(&mut checking.screen);
    let checked = checked?;
    let text = text_of_check(alloc, folder, &checked)?;
    write_text(text.as_slice(), out)?;
    first_refusal(checked.findings)
}

/// Refused as the first of these findings counts; Ok where there are none.
fn first_refusal(findings: Vec<Finding>) -> R<()>
    ensures none { OnOk result (findings.items ≡ []) }
{
    let mut left = findings.into_iter();
    match left.next() {
        Some(finding) => Err(finding.damage.into_refusal()),
        None => Ok(()),
    }
}

/// Prints `ok N rows`, N the number of lines, where each line of a text is a row that a table takes. With `texts`, dates, times,
/// timestamps and decimals are also read from their texts.
///
/// Refused as `row_from_as` refuses the first line that is no row, Key for a row whose key has no folder, and Limit for a
/// value of more than 16,777,216 bytes, which no file of the dataset can have; then `why` gets
/// the place and what is wrong there. Nothing is appended. Where `shows` says so, `err` shows how many rows were read so far.
pub fn print_rows_fit<W: Write, E: Write>(
    alloc: Global,
    table: &Manifest,
    text: &str,
    texts: bool,
    out: &mut W,
    err: &mut E,
    shows: bool,
    why: &mut Option<Reason>,
) -> R<()>
    ensures fit { OnOk result ((rows : List ValueTrees) × AreRowTexts texts (root_of table.now).schema (lines text.now) rows
        × Appends (W.contents out.old) (W.contents out.new) (codes "ok " ++ decimal (length rows) ++ codes " rows\n")) }
    ensures quiet { shows ≡ false → E.contents err.new ≡ E.contents err.old }
{
    let rows = match rows_of(alloc, table.schema(), text, texts, err, shows) {
        Ok(rows) => rows,
        Err(refusal) => {
            *why = misfit_reason(alloc, table.schema(), text, texts).unwrap_or(None);
            return Err(refusal);
        }
    };
    if let Some(reason) = rows_reason(alloc, table.keys(), rows.as_slice())? {
        *why = Some(reason);
        return Err(Refusal::Key);
    }
    if let Some(fault) = large_value(alloc, table.schema(), "", text, texts)? {
        *why = Some(Reason::Large(fault));
        return Err(Refusal::Limit);
    }
    let count = rows.len();
    let line = format!(in alloc; "ok {count} rows\n")?;
    write_text(line.as_bytes(), out)
}

/// Why the rows of a text are none of a schema. The file's name is put before it later.
fn misfit_reason(alloc: Global, schema: &Schema, text: &str, texts: bool) -> R<Option<Reason>> {
    let fault = row_fault(alloc, schema, "", text, texts)?;
    Ok(fault.map(|fault| Reason::Text(fault)))
}
