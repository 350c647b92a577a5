//! What is asked of a dataset.

use footer::WriteOptions;

/// A call on the dataset in a folder.
#[derive(Drop)]
pub struct Call<'a> {
    /// The folder; of the question for a schema it may be a Parquet file.
    pub folder: &'a str,
    /// The seconds to wait at most for each lock that another command holds; the call is refused then. None for as long
    /// as it takes.
    pub waits: Option<u64>,
    /// How part files are written.
    pub options: WriteOptions,
    /// Whether they are written in the style of a group that is there, in place of that of the options.
    pub keeps_style: bool,
    /// Whether dates, times, timestamps and decimals are texts, in rows, in filters and in what is printed.
    pub texts: bool,
    pub task: Task<'a>,
}

/// What is to be done.
#[derive(Drop)]
pub enum Task<'a> {
    /// Make a table: the file of its schema, and the names of its key columns.
    Create { schema: &'a str, keys: Vec<&'a str> },
    /// Print what a dataset has.
    Ask(Question<'a>),
    /// Change a dataset, in one commit.
    Change(Change<'a>),
    /// Look at a dataset, which is not opened.
    Look(Look<'a>),
    /// Make the calls of a file, one of each line, and print their answers; all of them, or up to the first that is refused.
    Run { script: &'a str, stops: bool },
}

/// What is to be printed of a dataset.
#[derive(Drop)]
pub enum Question<'a> {
    /// Rows: a filter, the columns that are wanted, none for all, and how many rows at most.
    Query {
        filter: Option<&'a str>,
        columns: Vec<&'a str>,
        limit: Option<u64>,
    },
    /// How many rows there are.
    Count {
        filter: Option<&'a str>,
    },
    /// What the groups are, with what is known of their columns or without.
    Groups {
        stats: bool,
    },
    /// What the columns are.
    Schema,
}

/// What is to be made of a dataset.
#[derive(Drop)]
pub enum Change<'a> {
    /// The rows of a file, a line each, come in, unless some row of the dataset satisfies a filter.
    Append {
        rows: &'a str,
        unless: Option<&'a str>,
    },
    /// The rows of Parquet files come in, one file after another, unless some row of the dataset satisfies a filter.
    Import {
        files: Vec<&'a str>,
        unless: Option<&'a str>,
    },
    /// A column comes at the end; the file has its schema.
    AddColumn {
        schema: &'a str,
    },
    /// The rows that satisfy a filter go.
    Remove {
        filter: &'a str,
    },
    /// The groups of these numbers go.
    RemoveGroups {
        numbers: Vec<u64>,
    },
    /// The rows of the groups of these numbers are written anew, in full groups.
    Rewrite {
        numbers: Vec<u64>,
    },
    /// The rows of groups with fewer rows than this, where neighbours of one key have fewer too, are written anew, in full groups.
    RewriteSmall {
        min_rows: u64,
    },
    /// The rows of all groups are written anew, in full groups.
    RewriteAll,
}

/// What is to be said of the folder of a dataset.
#[derive(Drop)]
pub enum Look<'a> {
    /// What the dataset has, at a glance, as text or as JSON. Groups of fewer rows are small.
    Survey { min_rows: u64, as_json: bool },
    /// Whether the files are as the dataset says.
    Files,
    /// Whether the rows of a file, a line each, are rows of the dataset.
    Rows { rows: &'a str },
}
