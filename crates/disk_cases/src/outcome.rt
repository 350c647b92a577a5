//! What a call gives, and how it is printed.

use bits::{R, Refusal};
use case_words::{hexed, joined_by};
use disk::{Entry, Fault, Kind};
use std::alloc::Global;

/// How many bytes a sector has.
const SECTOR: usize = 512;

/// The most digits by which the bytes of a sector are printed whole.
const MOST_DIGITS: usize = 256;

/// How many digits are printed of a sector that has more.
const FEW_DIGITS: usize = 8;

/// What a call gives: a text, and whether the call was done.
#[derive(Drop)]
pub struct Outcome {
    pub text: String,
    pub is_done: bool,
}

impl Outcome {
    /// The outcome of a call that was done and gives this text.
    pub fn of(text: String) -> Outcome {
        Outcome {
            text,
            is_done: true,
        }
    }

    /// The outcome of a call that was done and gives nothing.
    pub fn ok(alloc: Global) -> R<Outcome> {
        Ok(Outcome::of(String::from_str(alloc, "ok")?))
    }

    /// The outcome of a call of the disk that was not done: the fault's name.
    pub fn fault(alloc: Global, fault: Fault) -> R<Outcome> {
        Ok(Outcome {
            text: String::from_str(alloc, name_of(fault))?,
            is_done: false,
        })
    }

    /// The outcome of a call of the vault that was refused.
    pub fn refused(alloc: Global, refusal: Refusal) -> R<Outcome> {
        Ok(Outcome {
            text: format!(in alloc; "refused {refusal}")?,
            is_done: false,
        })
    }

    /// The outcome of a line, which is not done where it is refused.
    pub fn or_refused(alloc: Global, outcome: R<Outcome>) -> R<Outcome> {
        match outcome {
            Ok(outcome) => Ok(outcome),
            Err(refusal) => Outcome::refused(alloc, refusal),
        }
    }

    /// The outcome of a call of the disk that gives nothing where it is done.
    pub fn of_call(alloc: Global, done: Result<(), Fault>) -> R<Outcome> {
        match done {
            Ok(()) => Outcome::ok(alloc),
            Err(fault) => Outcome::fault(alloc, fault),
        }
    }

    /// The outcome of a call of the vault that gives nothing where it is done.
    pub fn of_change(alloc: Global, done: R<()>) -> R<Outcome> {
        match done {
            Ok(()) => Outcome::ok(alloc),
            Err(refusal) => Outcome::refused(alloc, refusal),
        }
    }

    /// The outcome of a call that gives a count.
    pub fn of_count(alloc: Global, count: u64) -> R<Outcome> {
        Ok(Outcome::of(format!(in alloc; "{count}")?))
    }
}

/// The name of a fault.
fn name_of(fault: Fault) -> &'static str {
    match fault {
        Fault::Absent => "Absent",
        Fault::Exists => "Exists",
        Fault::Failed => "Failed",
        Fault::Memory => "Memory",
    }
}

/// The refusal that stands for a fault that no line is to meet.
pub fn refusal_of(fault: Fault) -> Refusal {
    match fault {
        Fault::Memory => Refusal::Memory,
        _ => Refusal::Device,
    }
}

/// Whether bytes are printed as text.
fn is_plain_text(bytes: &[u8]) -> bool {
    !bytes.is_empty()
        && bytes
            .iter()
            .all(|byte| byte.is_ascii_alphanumeric() || *byte == b'-')
}

/// The bytes of a sector, in hexadecimal; of many that differ only the first ones, and dots.
fn shown_sector(alloc: Global, bytes: &[u8]) -> R<String> {
    let digits = hexed(alloc, bytes)?;
    if digits.len() <= MOST_DIGITS {
        return Ok(digits);
    }
    match digits.as_str().get(..FEW_DIGITS) {
        Some(first) => Ok(format!(in alloc; "{first}..")?),
        None => Ok(digits),
    }
}

/// The bytes of a file: text after a `'` where it is plain, else in hexadecimal, a sector after a sector.
pub fn shown_file(alloc: Global, bytes: &[u8]) -> R<String> {
    if is_plain_text(bytes) && bytes.len() < SECTOR {
        if let Ok(text) = std::str::from_utf8(bytes) {
            return Ok(format!(in alloc; "'{text}")?);
        }
    }
    if bytes.is_empty() {
        return hexed(alloc, bytes);
    }
    let mut shown = String::new(alloc);
    for sector in bytes.chunks(SECTOR) {
        let more = shown_sector(alloc, sector)?;
        let gap = if shown.is_empty() { "" } else { "." };
        shown.push_str(gap)?;
        shown.push_str(more.as_str())?;
    }
    Ok(shown)
}

/// A listed name: that of a folder has a slash after it, that of a link, a pipe, a device or a socket a `?`.
fn shown_name(alloc: Global, entry: &Entry) -> R<String> {
    let slash = match entry.kind {
        Kind::Folder => "/",
        Kind::File => "",
        Kind::Other => "?",
    };
    let name = entry.name.as_str();
    Ok(format!(in alloc; "{name}{slash}")?)
}

/// The names in a folder, in byte order.
pub fn shown_names(alloc: Global, entries: &[Entry]) -> R<String> {
    let mut names = Vec::new(alloc);
    for entry in entries {
        names.push(shown_name(alloc, entry)?)?;
    }
    names.sort()?;
    joined(alloc, names.as_slice(), ",")
}

/// Texts with a mark between them; `nothing` if there are none.
pub fn joined(alloc: Global, texts: &[String], mark: &str) -> R<String> {
    joined_by(alloc, texts, mark, "nothing")
}
