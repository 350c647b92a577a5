//! The program `pqds`: the arguments, a gathered writer and the exit code. All else is the library `program`.
#![tactic(auto)]

use bits::R;
use commands::{Folders, PART_BYTES};
use places::HostPlaces;
use program::{HostPaths, OUTPUT_BUFFER_BYTES, Terminals, refusal_of, refuse, work};
use std::env;
use std::io::{BufWriter, IsTerminal};
use std::process::ExitCode;

/// How many bytes of the output are gathered. They are more than what is handed over at once, so that what could not be written
/// is still there, and why can be asked.
const BUFFER_BYTES: usize = 2 * OUTPUT_BUFFER_BYTES;

/// The status of the program, which is then done. An argument that is not UTF-8 cannot be handed over.
fn run(rt: &HostRuntime) -> R<u8> {
    let alloc = rt.alloc();
    let words = env::args(rt).map_err(|error| refusal_of(error))?;
    let words: Vec<String> = words.skip(1).collect(alloc)?;
    let gathered = BufWriter::with_capacity(alloc, BUFFER_BYTES, rt.stdout());
    let mut out = gathered.map_err(|error| refusal_of(error))?;
    let terminals = Terminals {
        out: rt.stdout().is_terminal(),
        err: rt.stderr().is_terminal(),
    };
    let mut err = rt.stderr();
    let mut paths = HostPaths { rt };
    let mut datasets = Folders {
        places: HostPlaces { files: rt },
        screen: rt.stderr(),
        part_bytes: PART_BYTES,
    };
    let words = words.as_slice();
    let status = work(
        &mut paths,
        alloc,
        words,
        &mut out,
        &mut err,
        terminals,
        &mut datasets,
    );
    // What could not be written is not tried once more.
    drop(out.into_parts());
    Ok(status)
}

fn main(rt: HostRuntime) -> ExitCode {
    let status = match run(&rt) {
        Ok(status) => status,
        Err(refusal) => refuse(rt.alloc(), &mut rt.stderr(), &refusal).status,
    };
    ExitCode::from(status)
}
