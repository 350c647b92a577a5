//! Calls while one allocation of the run is refused.
//!
//! A program cannot refuse one to itself: `bench/faults/allocations.sh` runs this one with the Nth allocation refused, for each N.
//! With ample memory each call goes as ever.

use crate::changes::{CHANGED, CHANGES};
use crate::failures::{DEVICE, DOUBT, Made, comes_back, has_as_many_rows, went};
use crate::makings::is_none_or_empty;
use crate::script::{self, STEPS, Step, TABLES};
use bits::{R, Refusal};
use disk::{Disk, Fault, Kind};
use mem_disk::MemDisk;
use std::alloc::Global;
use store::Store;
use table::{Answer, Call};

const MEMORY: &str = "{\"name\":\"Memory\",\"refused\":28}";

/// How many calls were refused, by the refusal; how often memory ran out outside of the calls, as while a text was read;
/// and what was wrong.
#[derive(Drop)]
struct Seen {
    memory: u64,
    device: u64,
    doubt: u64,
    outside: u64,
    wrong: u64,
}

impl Seen {
    fn new() -> Seen {
        Seen {
            memory: 0,
            device: 0,
            doubt: 0,
            outside: 0,
            wrong: 0,
        }
    }

    /// What is printed of the counts.
    fn text(&self, alloc: Global) -> R<String> {
        let (memory, device, doubt) = (self.memory, self.device, self.doubt);
        let (outside, wrong) = (self.outside, self.wrong);
        Ok(format!(in alloc;
            "28: {memory}, 25: {device}, 26: {doubt}, outside: {outside}, not allowed: {wrong}"
        )?)
    }
}

fn count(number: &mut u64) {
    *number = number.saturating_add(1);
}

/// A text with the numbers of the groups, taken once more where memory ran out.
fn numbered(alloc: Global, store: &mut Store<MemDisk>, text: &str, seen: &mut Seen) -> R<String> {
    match script::numbered(alloc, store, text) {
        Err(Refusal::Memory) => {
            count(&mut seen.outside);
            script::numbered(alloc, store, text)
        }
        numbered => numbered,
    }
}

/// The call of a text, read once more where memory ran out.
fn calls_of(alloc: Global, store: &Store<MemDisk>, text: &str, seen: &mut Seen) -> R<Vec<Call>> {
    match script::calls_of(alloc, store, text) {
        Err(Refusal::Memory) => {
            count(&mut seen.outside);
            script::calls_of(alloc, store, text)
        }
        calls => calls,
    }
}

/// The text of an answer, printed once more where memory ran out.
fn text_of(
    alloc: Global,
    store: &Store<MemDisk>,
    answers: &[Answer],
    seen: &mut Seen,
) -> R<String> {
    match script::text_of(alloc, store, answers) {
        Err(Refusal::Memory) => {
            count(&mut seen.outside);
            script::text_of(alloc, store, answers)
        }
        text => text,
    }
}

/// The answer of a call. Where there was no memory for the answers no call was made, and it is made once more.
fn answer(alloc: Global, store: &mut Store<MemDisk>, calls: &[Call], seen: &mut Seen) -> R<String> {
    let answers = match store.run(alloc, calls) {
        Ok(answers) => answers,
        Err(_) => {
            count(&mut seen.memory);
            store.run(alloc, calls)?
        }
    };
    text_of(alloc, store, answers.as_slice(), seen)
}

/// Whether a call was refused for memory: 28, or 25 or 26 where memory ran out in a call of the disk that cannot say so.
fn is_for_memory(answer: &str, disk: &MemDisk, seen: &mut Seen) -> bool {
    match answer {
        MEMORY => {
            count(&mut seen.memory);
            true
        }
        DEVICE => {
            count(&mut seen.device);
            disk.shortages() > 0
        }
        DOUBT => {
            count(&mut seen.doubt);
            disk.shortages() > 0
        }
        _ => false,
    }
}

/// Makes a call, and once more where it was refused and nothing changed. (A refused `reopen` closes the store.)
fn make(
    alloc: Global,
    store: &mut Store<MemDisk>,
    step: &Step,
    before: &str,
    seen: &mut Seen,
) -> R<Made> {
    let wanted = numbered(alloc, store, step.answer, seen)?;
    let text = numbered(alloc, store, step.call, seen)?;
    let calls = calls_of(alloc, store, text.as_str(), seen)?;
    let first = answer(alloc, store, calls.as_slice(), seen)?;
    if first.as_str() == wanted.as_str() {
        return Ok(Made::AsEver);
    }
    if !is_for_memory(first.as_str(), store.disk(), seen) {
        return Ok(Made::Wrong);
    }
    if first.as_str() == DOUBT {
        return Ok(Made::InDoubt);
    }
    let is_open = !step.call.contains("reopen");
    if is_open && !has_as_many_rows(alloc, store, before)? {
        return Ok(Made::Wrong);
    }
    let again = answer(alloc, store, calls.as_slice(), seen)?;
    Ok(went(again.as_str() == wanted.as_str()))
}

/// How many part files a folder has.
fn part_files(alloc: Global, disk: &mut MemDisk, folder: &str) -> R<usize> {
    match disk.list(alloc, folder) {
        Ok(entries) => Ok(
            entries
                .iter()
                .filter(|entry| entry.kind == Kind::File)
                .count(),
        ),
        Err(Fault::Absent) => Ok(0),
        Err(Fault::Memory) => Err(Refusal::Memory),
        Err(_) => Err(Refusal::Device),
    }
}

/// Whether the table has these rows after openings, and its folders the files of its groups alone.
fn is_kept(alloc: Global, store: &mut Store<MemDisk>, rows: &str) -> R<bool> {
    // What the first opening cannot clean away is left for the next one.
    store.reopen(alloc)?;
    store.reopen(alloc)?;
    let found = script::rows(alloc, store)?;
    let groups = store.groups(alloc)?;
    let disk = store.disk_mut();
    let files = part_files(alloc, disk, "k=a")?.saturating_add(part_files(alloc, disk, "k=b")?);
    Ok(found.as_str() == rows && files == groups.len())
}

/// Whether the table is kept, asked once more where memory ran out.
fn ends_well(alloc: Global, store: &mut Store<MemDisk>, rows: &str, seen: &mut Seen) -> R<bool> {
    match is_kept(alloc, store, rows) {
        Err(Refusal::Memory | Refusal::Device) => {
            count(&mut seen.memory);
            is_kept(alloc, store, rows)
        }
        kept => kept,
    }
}

/// Makes all calls. Whether each went as it may, and the table is kept.
fn makes_all(
    alloc: Global,
    store: &mut Store<MemDisk>,
    steps: &[Step],
    tables: &[&str],
    seen: &mut Seen,
) -> R<bool> {
    let mut commits: usize = 0;
    for step in steps {
        let before = tables.get(commits).copied().unwrap_or("");
        match make(alloc, store, step, before, seen)? {
            Made::AsEver => {}
            Made::InDoubt => return comes_back(alloc, store, tables, commits),
            Made::Wrong => return Ok(false),
        }
        if step.commits {
            commits = commits.saturating_add(1);
        }
    }
    let rows = tables.get(commits).copied().unwrap_or("");
    ends_well(alloc, store, rows, seen)
}

/// What making the table on an empty disk gives, begun once more where memory ran out before it.
fn created(alloc: Global, seen: &mut Seen) -> R<Result<Store<MemDisk>, (MemDisk, Refusal)>> {
    match script::create_on(alloc, MemDisk::new(alloc)) {
        Err(Refusal::Memory) => {
            count(&mut seen.outside);
            script::create_on(alloc, MemDisk::new(alloc))
        }
        created => created,
    }
}

/// The table made once more, on the disk that a refused making left; none after a doubt.
fn create_again(
    alloc: Global,
    disk: MemDisk,
    refusal: Refusal,
    seen: &mut Seen,
) -> R<Option<Store<MemDisk>>> {
    match refusal {
        Refusal::Memory => {
            count(&mut seen.memory);
            made_again(alloc, disk, seen)
        }
        Refusal::Device if disk.shortages() > 0 => {
            count(&mut seen.device);
            made_again(alloc, disk, seen)
        }
        Refusal::InDoubt if disk.shortages() > 0 => {
            count(&mut seen.doubt);
            look_at(alloc, disk, seen)
        }
        _ => {
            count(&mut seen.wrong);
            Ok(None)
        }
    }
}

/// After a doubt the disk has no table, or the empty one.
fn look_at(alloc: Global, disk: MemDisk, seen: &mut Seen) -> R<Option<Store<MemDisk>>> {
    if !is_none_or_empty(alloc, disk)? {
        count(&mut seen.wrong);
    }
    Ok(None)
}

/// The table made on a disk, which must be done.
fn made_again(alloc: Global, disk: MemDisk, seen: &mut Seen) -> R<Option<Store<MemDisk>>> {
    match script::create_on(alloc, disk)? {
        Ok(store) => Ok(Some(store)),
        Err(_) => {
            count(&mut seen.wrong);
            Ok(None)
        }
    }
}

/// The store on a new disk, with an empty table; none after a doubt.
fn new_store(alloc: Global, seen: &mut Seen) -> R<Option<Store<MemDisk>>> {
    match created(alloc, seen)? {
        Ok(store) => Ok(Some(store)),
        Err((disk, refusal)) => create_again(alloc, disk, refusal, seen),
    }
}

/// `allocations SCRIPT`: the calls of `src/script.rt` (1), or those of `src/changes.rt` (2), each again where it was refused
/// for memory.
pub fn allocations(alloc: Global, script: u64) -> R<String> {
    let mut seen = Seen::new();
    if let Some(mut store) = new_store(alloc, &mut seen)? {
        let right = match script {
            1 => makes_all(alloc, &mut store, &STEPS, &TABLES, &mut seen)?,
            2 => makes_all(alloc, &mut store, &CHANGES, &CHANGED, &mut seen)?,
            _ => return Err(Refusal::Script),
        };
        if !right {
            count(&mut seen.wrong);
        }
    }
    match seen.text(alloc) {
        Err(Refusal::Memory) => {
            count(&mut seen.outside);
            seen.text(alloc)
        }
        text => text,
    }
}
