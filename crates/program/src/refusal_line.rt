//! The line of a refusal.

ghost use Rattle.std.specs.Prelude.{◌≡◌, ℕ, List, ◌++◌, OnOk};
ghost use Rattle.std.specs.Io.KnownBytes.{Appends};
ghost use Rattle.program.specs.RefusalLine.{WritesRefusal, refusal_line};

use bits::{R, Refusal};
use reports::OneLine;
use std::alloc::Global;
use std::fmt::Write as _;
use std::io::{self, Write};

/// The line of a refusal, without the column of one for a column.
fn line_of(refusal: &Refusal) -> &'static str
    ensures { result.now ≡ refusal_line refusal.now }
{
    match refusal {
        Refusal::Truncated => "refused 1 Truncated\n",
        Refusal::Magic => "refused 2 Magic\n",
        Refusal::Thrift => "refused 3 Thrift\n",
        Refusal::Schema => "refused 4 Schema\n",
        Refusal::Codec => "refused 5 Codec\n",
        Refusal::Float(_) => "refused 6 Float\n",
        Refusal::Int96(_) => "refused 7 Int96\n",
        Refusal::Encoding => "refused 8 Encoding\n",
        Refusal::Page => "refused 9 Page\n",
        Refusal::Levels => "refused 10 Levels\n",
        Refusal::Value => "refused 11 Value\n",
        Refusal::Utf8 => "refused 12 Utf8\n",
        Refusal::Limit => "refused 13 Limit\n",
        Refusal::RowShape => "refused 14 RowShape\n",
        Refusal::NoColumn => "refused 15 NoColumn\n",
        Refusal::Unordered => "refused 16 Unordered\n",
        Refusal::Key => "refused 17 Key\n",
        Refusal::NoGroup => "refused 18 NoGroup\n",
        Refusal::Stale => "refused 19 Stale\n",
        Refusal::NoJob => "refused 20 NoJob\n",
        Refusal::NoCursor => "refused 21 NoCursor\n",
        Refusal::Full => "refused 22 Full\n",
        Refusal::NoTable => "refused 23 NoTable\n",
        Refusal::Exists => "refused 24 Exists\n",
        Refusal::Device => "refused 25 Device\n",
        Refusal::InDoubt => "refused 26 InDoubt\n",
        Refusal::Closed => "refused 27 Closed\n",
        Refusal::Memory => "refused 28 Memory\n",
        Refusal::Script => "refused 29 Script\n",
    }
}

/// The name of a column after a space, whatever it has in it, and a line feed. It fails only when out of memory.
fn column_of(alloc: Global, path: &str) -> R<Vec<u8>> {
    let mut end = Vec::new(alloc);
    let mut line = OneLine(&mut end);
    if write!(line, " {path}").is_err() {
        return Err(Refusal::Memory);
    }
    end.push(b'\n')?;
    Ok(end)
}

/// Writes the line of a refusal for a column: its words, and then the column's name, if there is memory to show it.
fn put_column<E: Write>(alloc: Global, err: &mut E, words: &str, path: &str) -> io::Result<()>
    ensures { OnOk result ((column : List ℕ) × Appends (E.contents err.old) (E.contents err.new) (words.now ++ column)) }
{
    err.write_all(words.as_bytes())?;
    match column_of(alloc, path) {
        Ok(end) => err.write_all(end.as_slice()),
        Err(_) => err.write_all(b"\n"),
    }
}

/// Writes the line of a refusal: `refused`, its number and its name, and the name of the column that it is for, if it is for one and
/// there is memory to show it.
pub fn put_refusal<E: Write>(alloc: Global, err: &mut E, refusal: &Refusal) -> io::Result<()>
    ensures { OnOk result (WritesRefusal refusal.now (E.contents err.old) (E.contents err.new)) }
{
    match refusal {
        Refusal::Float(path) => put_column(alloc, err, "refused 6 Float", path.as_str()),
        Refusal::Int96(path) => put_column(alloc, err, "refused 7 Int96", path.as_str()),
        _ => err.write_all(line_of(refusal).as_bytes()),
    }
}
