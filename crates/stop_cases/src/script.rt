//! The calls that are stopped, the answers that they have without a fault, and the tables that they lead to.

use bits::{R, Refusal};
use disk::Disk;
use footer::WriteOptions;
use jsonrows::{answer_to, call_from, schema_from};
use mem_disk::MemDisk;
use std::alloc::Global;
use store::Store;
use table::{Answer, Call, Fetched};

/// The table's schema; `k` is its key column.
pub const SCHEMA: &str =
    "[{\"name\":\"k\",\"note\":\"utf8\",\"rep\":\"required\",\"type\":\"bytes\"},{\"name\":\"x\",\"rep\":\"required\",\"type\":\"int64\"}]";

/// A call, its answer, and whether it is a commit. Numbers of groups that have other values after a refused call are
/// words in them ([`numbered`]).
pub struct Step {
    pub call: &'static str,
    pub answer: &'static str,
    pub commits: bool,
}

/// What two appends, a removal and a rewrite do while a cursor is open.
pub const STEPS: [Step; 14] = [
    Step {
        call: "{\"call\":\"append\",\"rows\":[{\"k\":\"a\",\"x\":1},{\"k\":\"b\",\"x\":2}]}",
        answer: "{\"done\":2}",
        commits: true,
    },
    Step {
        call: "{\"call\":\"begin_append\"}",
        answer: "{\"job\":0}",
        commits: false,
    },
    Step {
        call: "{\"call\":\"stage\",\"job\":0,\"rows\":[{\"k\":\"a\",\"x\":3}]}",
        answer: "{\"ok\":true}",
        commits: false,
    },
    Step {
        call: "{\"call\":\"query\",\"filter\":[],\"columns\":null}",
        answer: "{\"cursor\":0}",
        commits: false,
    },
    Step {
        call: "{\"call\":\"remove\",\"filter\":[[\"x\",\"==\",1]]}",
        answer: "{\"done\":1}",
        commits: true,
    },
    Step {
        call: "{\"call\":\"commit\",\"job\":0}",
        answer: "{\"done\":1}",
        commits: true,
    },
    Step {
        call: "{\"call\":\"begin_rewrite\",\"numbers\":[@all]}",
        answer: "{\"job\":1}",
        commits: false,
    },
    Step {
        call: "{\"call\":\"step_rewrite\",\"job\":1}",
        answer: "{\"more\":true}",
        commits: false,
    },
    Step {
        call: "{\"call\":\"append\",\"rows\":[{\"k\":\"b\",\"x\":4}]}",
        answer: "{\"done\":1}",
        commits: true,
    },
    Step {
        call: "{\"call\":\"commit\",\"job\":1}",
        answer: "{\"done\":2}",
        commits: true,
    },
    Step {
        call: "{\"call\":\"fetch\",\"cursor\":0}",
        answer: "{\"batch\":[{\"k\":\"a\",\"x\":1}]}",
        commits: false,
    },
    Step {
        call: "{\"call\":\"fetch\",\"cursor\":0}",
        answer: "{\"batch\":[{\"k\":\"b\",\"x\":2}]}",
        commits: false,
    },
    Step {
        call: "{\"call\":\"fetch\",\"cursor\":0}",
        answer: "{\"end\":true}",
        commits: false,
    },
    Step {
        call: "{\"call\":\"close\",\"cursor\":0}",
        answer: "{\"ok\":true}",
        commits: false,
    },
];

/// The rows of the table after so many commits.
pub const TABLES: [&str; 6] = ["", "a1 b2 ", "b2 ", "a3 b2 ", "a3 b2 b4 ", "a3 b2 b4 "];

/// The table after so many commits; none where there are not so many.
pub fn table_after(commits: usize) -> Option<&'static str> {
    TABLES.get(commits).copied()
}

/// Whether these rows are those of the table after so many commits, or after one more.
pub fn is_table_after(tables: &[&str], commits: usize, rows: &str) -> bool {
    let next = commits.saturating_add(1);
    tables.get(commits).copied() == Some(rows) || tables.get(next).copied() == Some(rows)
}

/// A store on a new disk, with an empty table.
pub fn new_store(alloc: Global) -> R<Store<MemDisk>> {
    match create_on(alloc, MemDisk::new(alloc))? {
        Ok(store) => Ok(store),
        Err((_, refusal)) => Err(refusal),
    }
}

/// What making the table on a disk gives.
pub fn create_on(alloc: Global, disk: MemDisk) -> R<Result<Store<MemDisk>, (MemDisk, Refusal)>> {
    let schema = schema_from(alloc, SCHEMA)?;
    let mut names = Vec::new(alloc);
    names.push(String::from_str(alloc, "k")?)?;
    Ok(store::create(
        alloc,
        disk,
        schema,
        names.as_slice(),
        WriteOptions::standard(),
    ))
}

/// What opening a disk gives.
pub fn open(alloc: Global, disk: MemDisk) -> Result<Store<MemDisk>, (MemDisk, Refusal)> {
    store::open(alloc, disk, WriteOptions::standard())
}

/// The disk of a store that was made or opened, or of one that was refused.
pub fn disk_of(made: Result<Store<MemDisk>, (MemDisk, Refusal)>) -> MemDisk {
    match made {
        Ok(store) => store.into_disk(),
        Err((disk, _refusal)) => disk,
    }
}

/// The numbers of the groups of a table, in its order, with commas between them: of `all`, the `last` one, or the `others`.
fn numbers(alloc: Global, store: &mut Store<MemDisk>, which: &str) -> R<String> {
    let groups = store.groups(alloc)?;
    let last = groups.len().saturating_sub(1);
    let mut text = String::new(alloc);
    for (at, group) in groups.iter().enumerate() {
        let wanted = match which {
            "last" => at == last,
            "others" => at != last,
            _ => true,
        };
        if wanted {
            let number = group.number;
            let gap = if text.is_empty() { "" } else { "," };
            let more = format!(in alloc; "{gap}{number}")?;
            text.push_str(more.as_str())?;
        }
    }
    Ok(text)
}

/// A text in which `[@all]`, `[@last]` or `[@others]` stands for numbers of the groups that are there now.
pub fn numbered(alloc: Global, store: &mut Store<MemDisk>, text: &str) -> R<String> {
    let Some((before, rest)) = text.split_once('@') else {
        return Ok(String::from_str(alloc, text)?);
    };
    let (which, behind) = rest.split_once(']').unwrap_or((rest, ""));
    let numbers = numbers(alloc, store, which)?;
    Ok(format!(in alloc; "{before}{numbers}]{behind}")?)
}

/// The one call of a text without such words.
pub fn calls_of(alloc: Global, store: &Store<MemDisk>, text: &str) -> R<Vec<Call>> {
    let call = call_from(alloc, store.schema(), text)?;
    let mut calls = Vec::new(alloc);
    calls.push(call)?;
    Ok(calls)
}

/// The text of the one answer.
pub fn text_of(alloc: Global, store: &Store<MemDisk>, answers: &[Answer]) -> R<String> {
    match answers {
        [answer] => answer_to(alloc, store.schema(), answer),
        _ => Err(Refusal::Script),
    }
}

/// The text of a call's answer.
pub fn answer(alloc: Global, store: &mut Store<MemDisk>, call: &str) -> R<String> {
    let text = numbered(alloc, store, call)?;
    let calls = calls_of(alloc, store, text.as_str())?;
    let answers = store.run(alloc, calls.as_slice())?;
    text_of(alloc, store, answers.as_slice())
}

/// The rows of a table, each as its key and its number.
pub fn rows(alloc: Global, store: &mut Store<MemDisk>) -> R<String> {
    let cursor = store.query(alloc, &[], None)?;
    let mut text = String::new(alloc);
    for _ in 0..u64::MAX {
        match store.fetch(alloc, cursor)? {
            Fetched::Batch(batch) => {
                let more = answer_to(alloc, store.schema(), &Answer::Batch(batch))?;
                put_rows(&mut text, more.as_str())?;
            }
            Fetched::End => break,
        }
    }
    store.close(alloc, cursor)?;
    Ok(text)
}

/// Appends the key and the number of each row of the text of a batch.
fn put_rows(text: &mut String, batch: &str) -> R<()> {
    for row in batch.split('{') {
        if let Some(rest) = row.strip_prefix("\"k\":\"") {
            for part in rest.split(|c: char| c == '"'
                || c == '}'
                || c == ','
                || c == ':'
                || c == ']')
            {
                if part != "x" && !part.is_empty() {
                    text.push_str(part)?;
                }
            }
            text.push_str(" ")?;
        }
    }
    Ok(())
}

/// The failures of a store's disk.
pub fn failures(store: &Store<MemDisk>) -> u64 {
    store.disk().failures()
}
