//! What is found wrong with the files of a table.

use bits::Refusal;
use std::fmt::{self, Display};

/// What is wrong with a file.
#[derive(Debug, PartialEq, Eq, Drop)]
pub enum Damage {
    /// The table names the file, and it is not there.
    Missing,
    /// A folder has the name of a file that a commit makes: of the next root, or of a part file. Commits are refused then.
    Folder,
    /// A file has the name of a key's folder. A commit that has rows of such a key is refused.
    File,
    /// A link, a pipe, a device or a socket has a name that the table gives its files and folders.
    OtherNode,
    /// The bytes of the file are refused so, as a Parquet file is.
    Refused(Refusal),
    /// The columns of the file are not those that the table says it has.
    Schema,
    /// The file has this many row groups, and not one.
    Groups(usize),
    /// The file has another number of rows than the table says.
    Rows,
    /// The footer of the file and the table describe a column's chunk differently.
    Record,
    /// The pages of a column do not fill just the bytes that the table says.
    Size,
    /// The statistics that the table has of a column are not true of its values.
    Statistics,
}

impl Damage {
    /// The refusal that the damage counts as.
    pub fn into_refusal(self) -> Refusal {
        match self {
            Damage::Missing => Refusal::Truncated,
            Damage::Folder | Damage::File => Refusal::Exists,
            Damage::OtherNode => Refusal::Device,
            Damage::Refused(refusal) => refusal,
            Damage::Schema => Refusal::Schema,
            Damage::Groups(_) | Damage::Rows | Damage::Record | Damage::Size | Damage::Statistics =>
                Refusal::Page,
        }
    }

    /// The cause in words, after the number and the name of the refusal that it counts as; none for one that it carries.
    fn words(&self) -> &'static str {
        match self {
            Damage::Missing => "1 Truncated: the table names this file, and it is not there",
            Damage::Folder => "24 Exists: a folder has the name of a file that a commit makes",
            Damage::File => "24 Exists: a file has the name of a key's folder",
            Damage::OtherNode => "25 Device: neither a file nor a folder",
            Damage::Refused(_) => "",
            Damage::Schema => "4 Schema: its columns are not those that the table says it has",
            Damage::Groups(_) => "9 Page: it has another number of row groups than one",
            Damage::Rows => "9 Page: it has another number of rows than the table says",
            Damage::Record => "9 Page: its footer and the table describe its chunk differently",
            Damage::Size => "9 Page: its pages do not fill the bytes that the table says",
            Damage::Statistics => "9 Page: the statistics in the table are not true of its values",
        }
    }
}

impl Display for Damage {
    fn fmt<W: fmt::Write>(&self, f: &mut fmt::Formatter<W>) -> fmt::Result {
        match self {
            Damage::Refused(refusal) => write!(f, "{refusal}: it cannot be read"),
            _ => f.write_str(self.words()),
        }
    }
}

/// A file of which something is found.
#[derive(Debug, PartialEq, Eq, Drop)]
pub struct Finding {
    /// The path of the file, seen from the table's folder.
    pub path: String,
    /// The names on the way to the column that is at fault, with a `.` between two, where it is one column.
    pub column: Option<String>,
    pub damage: Damage,
}
