//! Why a call is refused, in a sentence.

use reasons::{Cause, FilterFault, LimitFault, TextFault};
use reports::OneLine;
use std::fmt::{self, Display, Formatter, Write as _};
use std::io::Write;

/// Why a call is refused, where the refusal alone does not say it.
#[derive(Drop)]
pub enum Reason {
    /// What is wrong in the file that the call names. Its name is put before it.
    Text(TextFault),
    /// A cause that says all.
    Told(Cause),
    /// A line that says all.
    Said(String),
    /// A value in the file that the call names has too many bytes.
    Large(LimitFault),
    /// What is named as the folder is none.
    NoFolder,
    /// What is named as the folder is a link to it.
    Link,
    /// Another command has the folder.
    InUse,
    /// The folder cannot be locked.
    NoLocks,
    /// The file that readers lock cannot be opened.
    ShutLock,
    /// `_metadata` is no description of a table.
    Root,
    /// The folder has no `_metadata`.
    NoRoot,
    /// `_metadata` is a Parquet file of another tool.
    OtherRoot,
    /// What `_metadata` says of the part file at this path is not so.
    RootOfPart(String),
    /// `_metadata` has this many bytes, and would have too many; or another limit is exceeded.
    Limits(u64),
    /// `_metadata` has this many bytes, and would have too many.
    FullRoot(usize),
    /// The columns, with names of so many bytes, are too much for `_metadata`.
    WideRoot { columns: usize, bytes: u64 },
    /// What is wrong with the Parquet file that the call names. Its name is put before it.
    File(String),
    /// No group has this number.
    NoGroup(u64),
    /// The folder has another table than the one for which rows were read.
    OtherTable,
    /// The folder has a `_metadata`.
    HasRoot,
    /// The folder has part files that are no dataset's: this one.
    LoosePart(String),
    /// Whether the change was done is not known. This command shows it.
    InDoubt(&'static str),
    /// The change was committed, and its result cannot be printed.
    Unprinted,
    /// So many of the calls of a script were made before the one that is refused.
    Stopped { made: usize, calls: usize },
    /// The columns of a file are not those of the table.
    Columns(Difference),
    /// The file is compressed.
    Compressed,
    /// A column of the file has no type of ours, but can be cast to this one.
    Cast(&'static str),
    /// The filter is none, or has a term that is none.
    Filter(FilterFault),
    /// No column has this name.
    NoColumn(String),
    /// The part file at this path is damaged, so.
    Part(String, String),
    /// There is no part file at this path.
    NoPart(String),
    /// The key of this name is none.
    Key(String, KeyFault),
    /// As many keys are named as there are columns, or more.
    AllKeys,
    /// More keys are named than a table can have.
    ManyKeys,
    /// The row of this number has no folder, for its value of the key of this name.
    KeyValue(u64, String, ValueFault),
}

/// The first column in which a file is not as the table. Each is shown as in a schema.
#[derive(Drop)]
pub enum Difference {
    Other { table: String, file: String },
    Lacks { table: String },
    More { file: String },
}

/// What is wrong with a key.
#[derive(Clone, Copy)]
pub enum KeyFault {
    NoColumn,
    Twice,
    /// The column is not of a key's type.
    Type,
}

/// Why a value of a key column names no folder.
#[derive(Clone, Copy)]
pub enum ValueFault {
    Empty,
    TooLong,
}

/// Says why a call on a folder is refused, in one line, whatever the names in it have. Where that cannot be written nothing
/// is left to be said.
pub fn print_reason<E: Write>(reason: &Reason, folder: &str, file: &str, err: &mut E) {
    let told = Told {
        reason,
        folder,
        file,
    };
    let mut line = OneLine(&mut *err);
    if write!(line, "{told}").is_ok() {
        let _ = err.write_all(b"\n");
    }
}

/// A reason, the folder that the call is on, and the file that it names.
#[derive(Drop)]
pub struct Told<'a> {
    pub reason: &'a Reason,
    pub folder: &'a str,
    pub file: &'a str,
}

impl Told<'_> {
    /// Writes a reason that is of the root, a group or a part file.
    fn write_of_stored<W: fmt::Write>(&self, f: &mut Formatter<W>) -> fmt::Result {
        let folder = self.folder;
        match self.reason {
            Reason::Root => write!(f, "{folder}/_metadata is damaged: it describes no table"),
            Reason::NoRoot => write!(f, "{folder} has no dataset: there is no {folder}/_metadata"),
            Reason::OtherRoot => {
                write!(
                    f,
                    "{folder}/_metadata was not written by pqds: it describes no table"
                )
            }
            Reason::OtherTable => {
                write!(
                    f,
                    "the columns or the keys of {folder} were changed while the rows were read: append them once more"
                )
            }
            Reason::HasRoot => {
                write!(f, "{folder}/_metadata is there already, and stays as it is")
            }
            Reason::RootOfPart(path) => {
                write!(
                    f,
                    "{folder}/_metadata is damaged: what it says of {path} is not so"
                )
            }
            Reason::Part(path, problem) => write!(f, "{folder}/{path} is damaged: {problem}"),
            Reason::FullRoot(bytes) => write!(
                f,
                "{folder}/_metadata has {bytes} bytes, and would have more than 16777216: use fewer groups (`pqds rewrite {folder} --min-rows 65536` joins small ones), or fewer keys"
            ),
            Reason::WideRoot { columns, bytes } => write!(
                f,
                "{folder}/_metadata would have more than 16777216 bytes: there are {columns} columns, with names of {bytes} bytes: use fewer columns, or shorter names"
            ),
            Reason::NoPart(path) => write!(f, "{folder}/{path}: No such file or directory"),
            Reason::LoosePart(path) => write!(
                f,
                "{folder}/{path} is there already: a new dataset would remove it, as it removes each such file that it does not name"
            ),
            Reason::NoGroup(number) => {
                write!(
                    f,
                    "no group has the number {number}: `pqds groups {folder}` prints the numbers"
                )
            }
            reason => write!(f, "{reason}"),
        }
    }
}

impl Display for Told<'_> {
    fn fmt<W: fmt::Write>(&self, f: &mut Formatter<W>) -> fmt::Result {
        let (folder, file) = (self.folder, self.file);
        match self.reason {
            Reason::Text(fault) => write!(f, "{file}{fault}"),
            Reason::Large(fault) => write!(f, "{file}{fault}"),
            Reason::File(problem) => write!(f, "{file}: {problem}"),
            Reason::KeyValue(row, name, fault) => {
                write!(f, "{file}: row {row}: the key {name:?} {fault}")
            }
            Reason::Limits(bytes) => write!(
                f,
                "{folder}/_metadata would be longer than 16777216 bytes (it has {bytes}), or a column would have more than 16777216 entries in a group, or a part file more than 2147483647 bytes: use fewer groups (rewrite --min-rows), fewer keys, or fewer rows in a group"
            ),
            Reason::NoFolder => write!(f, "{folder} is no folder"),
            Reason::Link => write!(
                f,
                "{folder} is a link: name it with a slash after it, {folder}/"
            ),
            Reason::InUse => write!(f, "another command is using {folder}"),
            Reason::NoLocks => write!(
                f,
                "{folder} cannot be locked, as its file system has no locks"
            ),
            Reason::ShutLock => write!(
                f,
                "{folder}/_lock cannot be opened, so that somebody may be reading {folder}"
            ),
            Reason::InDoubt(word) => write!(
                f,
                "the disk failed at the commit: all of it is done, or nothing; `pqds {word} {folder}` shows which"
            ),
            _ => self.write_of_stored(f),
        }
    }
}

impl Display for Reason {
    fn fmt<W: fmt::Write>(&self, f: &mut Formatter<W>) -> fmt::Result {
        match self {
            Reason::Told(cause) => write!(f, "{cause}"),
            Reason::Said(line) => f.write_str(line.as_str()),
            Reason::Columns(difference) => write!(f, "{difference}"),
            Reason::Compressed => {
                f.write_str("the file is compressed: write it with compression=\"none\"")
            }
            Reason::Cast(to) => write!(f, "cast this column to {to}, or leave it out"),
            Reason::Filter(fault) => write!(f, "{fault}"),
            Reason::NoColumn(name) => write!(f, "no column is named {name:?}"),
            Reason::Key(name, fault) => write!(f, "the key {name:?} {fault}"),
            Reason::AllKeys => f.write_str("one column at least must be no key"),
            Reason::Unprinted => {
                f.write_str("the change was committed, but the result could not be printed")
            }
            Reason::Stopped { made, calls } => write!(f, "{made} of {calls} calls were made"),
            Reason::ManyKeys => f.write_str("there can be 8 keys at most"),
            _ => Ok(()),
        }
    }
}

impl Display for Difference {
    fn fmt<W: fmt::Write>(&self, f: &mut Formatter<W>) -> fmt::Result {
        match self {
            Difference::Other { table, file } => {
                write!(f, "the file has {file} where the dataset has {table}")
            }
            Difference::Lacks { table } => write!(f, "the file lacks {table}"),
            Difference::More { file } => write!(f, "the file has {file} after the last column"),
        }
    }
}

impl Display for KeyFault {
    fn fmt<W: fmt::Write>(&self, f: &mut Formatter<W>) -> fmt::Result {
        match self {
            KeyFault::NoColumn => f.write_str("is no column of the schema"),
            KeyFault::Twice => f.write_str("is named twice"),
            KeyFault::Type => {
                f.write_str(
                    "is no required column of type boolean, int32 or int64 without a note, or of bytes noted as utf8",
                )
            }
        }
    }
}

impl Display for ValueFault {
    fn fmt<W: fmt::Write>(&self, f: &mut Formatter<W>) -> fmt::Result {
        match self {
            ValueFault::Empty => f.write_str("is an empty text, which no folder can be named by"),
            ValueFault::TooLong => f.write_str(
                "is too long: a folder's name has 255 bytes at most",
            ),
        }
    }
}
