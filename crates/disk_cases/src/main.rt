//! Calls on a disk and on a vault over it, as text: each line of standard input is a call, and the line that is printed has its
//! outcome. Calls are made on a disk in memory, and on a folder of a host whose files are in memory: after ` == ` is what both
//! give, after ` = ` what the disk in memory gives alone. Blocks make calls many times over, and stop them at each call of the
//! disk. `stdin` has the lines and `stdout` what they must print; README.md lists them.
#![tactic(auto)]

mod arguments;
mod calls;
mod host;
mod images;
mod lines;
mod mem_files;
mod outcome;
mod script;
mod stops;
mod turns;
mod vault_calls;

use crate::turns::Turns;
use std::io;

fn main(rt: HostRuntime) -> io::Result<()> {
    let mut turns = Turns::new(rt.alloc());
    for line in rt.lines(rt.alloc()) {
        let line = line?;
        match turns.feed(rt.alloc(), line.as_str()) {
            Ok(Some(text)) => println!(rt; "{text}")?,
            Ok(None) => {}
            Err(refusal) => println!(rt; "{refusal}")?,
        }
    }
    Ok(())
}
