//! `pqds decode` where its output cannot be written.

ghost use Rattle.std.specs.Prelude.{◌≡◌};
ghost use Rattle.bits.specs.declared.refusal.Refusal.TheVariants.{Device};

use bits::{R, Refusal};
use dataset_words::{Call, Datasets, FileSink};
use program::{HostPaths, Terminals, work};
use std::alloc::Global;
use std::fs;
use std::io::{self, BufWriter, ErrorKind, Write};
use std::test::*;

/// A file with the rows 1 and 300 of one REQUIRED INT64 `x`.
const TWO_ROWS: [u8; 140] = [
    80, 65, 82, 49, 21, 0, 21, 32, 21, 32, 44, 21, 4, 21, 0, 21, 6, 21, 6, 0, 0, 1, 0, 0, 0, 0, 0,
    0, 0, 44, 1, 0, 0, 0, 0, 0, 0, 21, 2, 25, 44, 72, 6, 115, 99, 104, 101, 109, 97, 21, 2, 0, 21,
    4, 37, 0, 24, 1, 120, 0, 22, 4, 25, 28, 25, 28, 38, 0, 28, 21, 4, 25, 37, 0, 6, 25, 24, 1, 120,
    21, 0, 22, 4, 22, 66, 22, 66, 38, 8, 60, 54, 0, 40, 8, 44, 1, 0, 0, 0, 0, 0, 0, 24, 8, 1, 0, 0,
    0, 0, 0, 0, 0, 0, 0, 0, 22, 66, 22, 4, 0, 40, 4, 112, 113, 100, 115, 25, 28, 28, 0, 0, 0, 95,
    0, 0, 0, 80, 65, 82, 49,
];

/// What both calls write to standard error.
const REFUSED_TWICE: &str = "standard output could not be written\nrefused 25 Device\n\
the reader closed the pipe\nrefused 25 Device\n";

/// No output is a terminal.
const NO_TERMINALS: Terminals = Terminals {
    out: false,
    err: false,
};

/// A writer that takes nothing.
#[derive(Drop)]
struct Closed;

impl Write for Closed {
    fn write(&mut self, _bytes: &[u8]) -> io::Result<usize> {
        Err(io::Error::from(ErrorKind::BrokenPipe))
    }

    fn flush(&mut self) -> io::Result<()> {
        Ok(())
    }
}

/// Nobody makes calls on datasets.
#[derive(Drop)]
struct NoDatasets;

impl<W: Write, E: Write> Datasets<W, E> for NoDatasets {
    ghost prints = { λ old_self new_self call old new. ⊥ };

    ghost refuses = { λ old_self new_self call old new e. e ≡ Device };

    ghost gives = { λ old_self new_self call was is. ⊥ };

    ghost withholds = { λ old_self new_self call e. e ≡ Device };

    fn make(
        &mut self,
        _alloc: Global,
        _call: &Call<'_>,
        _out: &mut W,
        _err: &mut E,
        _terminals: Terminals,
    ) -> R<()> {
        Err(Refusal::Device)
    }

    fn file_of(
        &mut self,
        _alloc: Global,
        _call: &Call<'_>,
        _err: &mut E,
        _terminals: Terminals,
    ) -> R<Vec<u8>> {
        Err(Refusal::Device)
    }

    fn files_of<S: FileSink>(
        &mut self,
        _alloc: Global,
        _call: &Call<'_>,
        _sink: &mut S,
        _err: &mut E,
        _terminals: Terminals,
    ) -> R<()> {
        Err(Refusal::Device)
    }
}

/// The status of `decode` of the file, whose lines go to a writer.
fn decoded<W: Write>(rt: &HostRuntime, out: &mut W, err: &mut Vec<u8>) -> R<u8> {
    let alloc = rt.alloc();
    let mut words = Vec::new(alloc);
    for word in ["decode", "rows.parquet"] {
        words.push(String::from_str(alloc, word)?)?;
    }
    let words = words.as_slice();
    let mut paths = HostPaths { rt };
    let mut nobody = NoDatasets;
    Ok(work(
        &mut paths,
        alloc,
        words,
        out,
        err,
        NO_TERMINALS,
        &mut nobody,
    ))
}

#[test]
fn an_output_that_cannot_be_written_is_refused(rt: HostRuntime) -> Result<(), Fail> {
    let alloc = rt.alloc();
    fs::write(&rt, "rows.parquet", &TWO_ROWS)?;
    let mut err = Vec::new(alloc);
    let at_once = decoded(&rt, &mut Closed, &mut err)?;
    let mut gathered = BufWriter::new(alloc, Closed)?;
    let at_last = decoded(&rt, &mut gathered, &mut err)?;
    fs::remove_file(&rt, "rows.parquet")?;
    assert!(rt; at_once == 1 && at_last == 1 && err.as_slice() == REFUSED_TWICE.as_bytes());
    Ok(())
}
