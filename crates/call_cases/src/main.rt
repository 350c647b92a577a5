//! Calls of the program on files in a folder of its own, as a transcript: standard input has the calls and what is done to
//! the files between them, and what is printed is each call with what it says. README.md lists the lines.
#![tactic(auto)]

mod calls;
mod changing;
mod file_place;
mod looking;
mod refusals;
mod screen;

use crate::file_place::{FilePlace, HostFolder};
use crate::refusals::refusal_of;
use bits::R;
use case_words::{word, words_from};
use memory_places::Tree;
use program::Terminals;
use std::alloc::Global;
use std::io::{self, Write};

/// No output is a terminal.
const NO_TERMINALS: Terminals = Terminals {
    out: false,
    err: false,
};

/// The terminals that a line names.
fn terminals_in(words: &[&str]) -> Terminals {
    Terminals {
        out: words.iter().any(|word| *word == "out"),
        err: words.iter().any(|word| *word == "err"),
    }
}

/// What a line prints, where files are in this place: a call with what it says, a look at a file with its outcome, of a change of
/// files nothing, and any other line as it is.
fn played<P: FilePlace>(
    place: &mut P,
    alloc: Global,
    terminals: &mut Terminals,
    line: &str,
) -> R<String> {
    let words: Vec<&str> = line.split(' ').collect(alloc)?;
    let words = words.as_slice();
    let outcome = match word(words, 0)? {
        "pqds" => return calls::told(place, alloc, *terminals, line, true),
        "ask" => return calls::told(place, alloc, *terminals, line, false),
        "terminals" => {
            *terminals = terminals_in(words_from(words, 1));
            Ok(String::new(alloc))
        }
        "put" | "times" | "bytes" | "copy" | "change" | "cut" | "remove" | "folder" => {
            changing::done(place, alloc, words, line)
        }
        "same" | "has" | "last" | "length" | "list" => looking::seen(place, alloc, words, line),
        _ => return Ok(format!(in alloc; "{line}\n")?),
    };
    match outcome {
        Ok(text) if text.is_empty() => Ok(text),
        Ok(text) => Ok(format!(in alloc; "{line} = {text}\n")?),
        Err(refusal) => Ok(format!(in alloc; "{line} = refused {refusal}\n")?),
    }
}

/// A tree in memory with copies of the files that are there at first.
fn copied(host: &mut HostFolder<'_>, alloc: Global) -> R<Tree> {
    let mut tree = Tree::new(alloc)?;
    for name in &host.names(".")? {
        // What is no file is none of the transcript.
        if let Ok(bytes) = host.read(name.as_str()) {
            tree.write(name.as_str(), bytes.as_slice())?;
        }
    }
    Ok(tree)
}

/// Plays the lines, each in the folder and in memory; what is printed in memory is told where it is something else.
fn play(rt: &HostRuntime) -> R<()> {
    let alloc = rt.alloc();
    let mut host = HostFolder { rt };
    let mut tree = copied(&mut host, alloc)?;
    let mut terminals = NO_TERMINALS;
    for line in rt.lines(alloc) {
        let line = line.map_err(refusal_of)?;
        let text = played(&mut host, alloc, &mut terminals, line.as_str())?;
        let in_memory = played(&mut tree, alloc, &mut terminals, line.as_str())?;
        rt.stdout().write_all(text.as_bytes()).map_err(refusal_of)?;
        if in_memory != text {
            print_other(rt, in_memory.as_str())?;
        }
    }
    Ok(())
}

/// Prints what a line prints in memory.
fn print_other(rt: &HostRuntime, text: &str) -> R<()> {
    for line in text.lines() {
        println!(rt; "  in memory: {line}").map_err(refusal_of)?;
    }
    Ok(())
}

fn main(rt: HostRuntime) -> io::Result<()> {
    match play(&rt) {
        Ok(()) => Ok(()),
        Err(refusal) => println!(rt; "{refusal}"),
    }
}
