//! Events of the versions of a table that no store makes, such as a file that comes back, and the files that nothing needs
//! after each.

use crate::groups::groups_of;
use bits::{R, Refusal};
use manifest::Version;
use snapshots::{Event, Snapshots};
use std::alloc::Global;
use std::test::*;

/// An event: its name, the number of a cursor or a job, the numbers of groups, the refusal, and the numbers of the files that
/// nothing needs after it.
type Step = (
    &'static str,
    u64,
    &'static [u32],
    &'static str,
    &'static [u64],
);

/// The version of groups of these numbers.
fn version(alloc: Global, numbers: &[u32]) -> R<Version> {
    Version::of(alloc, groups_of(alloc, numbers)?.as_slice())
}

/// The group numbers of a rewrite.
fn sources(alloc: Global, numbers: &[u32]) -> R<Vec<u64>> {
    let mut all = Vec::new(alloc);
    for number in numbers {
        all.push(u64::from(*number))?;
    }
    Ok(all)
}

/// The event of a step: `commit` is one of a job, `change` one of none.
fn event_of(alloc: Global, step: &Step) -> R<Event> {
    let (name, number, numbers, _, _) = step;
    let number = *number;
    match *name {
        "open" => Ok(Event::Opened(number)),
        "close" => Ok(Event::Closed(number)),
        "begin" => Ok(Event::Began(number, None)),
        "rewrite" => Ok(Event::Began(number, Some(sources(alloc, numbers)?))),
        "end" => Ok(Event::Ended(number)),
        "commit" => Ok(Event::Committed(version(alloc, numbers)?, Some(number))),
        "change" => Ok(Event::Committed(version(alloc, numbers)?, None)),
        "gone" => Ok(Event::Gone(groups_of(alloc, numbers)?)),
        _ => {
            let mut all = groups_of(alloc, numbers)?;
            match all.pop() {
                Some(group) => Ok(Event::Staged(Some(number), group)),
                None => Err(Refusal::Script),
            }
        }
    }
}

/// Whether this is the refusal, or none where its name is empty.
fn is_refused(done: &R<()>, name: &str) -> bool {
    let found = match done {
        Ok(()) => "",
        Err(Refusal::NoCursor) => "NoCursor",
        Err(Refusal::NoJob) => "NoJob",
        Err(Refusal::NoGroup) => "NoGroup",
        Err(Refusal::Stale) => "Stale",
        Err(Refusal::Page) => "Page",
        Err(_) => "another",
    };
    found == name
}

/// Whether these are the files that nothing needs, whatever their order and how often each comes.
fn are_unneeded(alloc: Global, snapshots: &Snapshots, numbers: &[u64]) -> R<bool> {
    let found = snapshots.unpinned(alloc)?;
    let found = found.as_slice();
    Ok(
        found.iter().all(|group| numbers.contains(&group.number))
            && numbers
                .iter()
                .all(|number| found.iter().any(|group| group.number == *number)),
    )
}

/// Whether an open cursor has a version of groups of these numbers; none where it is not open.
fn has_groups(snapshots: &Snapshots, cursor: u64, numbers: &[u32]) -> bool {
    for (place, number) in numbers.iter().enumerate() {
        match snapshots.group_at(Some(cursor), place) {
            Some(group) if group.number == u64::from(*number) => {}
            _ => return false,
        }
    }
    snapshots.group_at(Some(cursor), numbers.len()).is_none()
}

/// Whether a step comes out as it says; the state is a copy of the one before, where the step was made.
fn is_made(alloc: Global, snapshots: &mut Snapshots, step: &Step) -> R<bool> {
    let (name, number, numbers, refused, unneeded) = step;
    if *name == "sees" {
        return Ok(has_groups(snapshots, *number, numbers));
    }
    let mut next = snapshots.copy()?;
    let done = next.step(alloc, event_of(alloc, step)?);
    *snapshots = next;
    Ok(is_refused(&done, refused) && are_unneeded(alloc, snapshots, unneeded)?)
}

/// A version, and the steps from then on.
type Story = (&'static [u32], &'static [Step]);

/// A file that comes back is seen by the cursors that were opened while it was there, and by none between.
const RETURNS: Story = (
    &[0],
    &[
        ("open", 0, &[], "", &[]),
        ("change", 0, &[], "", &[]),
        ("open", 1, &[], "", &[]),
        ("change", 0, &[0], "", &[]),
        ("open", 2, &[], "", &[]),
        ("change", 0, &[], "", &[]),
        ("close", 0, &[], "", &[]),
        ("sees", 0, &[], "", &[]),
        ("sees", 1, &[], "", &[]),
        ("sees", 2, &[0], "", &[]),
        ("close", 2, &[], "", &[0]),
        ("close", 1, &[], "", &[0]),
        ("gone", 0, &[0], "", &[]),
    ],
);

/// A job keeps what it wrote until it ends; a later one of its number has none of these files.
const JOBS: Story = (
    &[],
    &[
        ("begin", 0, &[], "", &[]),
        ("stage", 0, &[0], "", &[]),
        ("gone", 0, &[0], "", &[]),
        ("end", 0, &[], "", &[0]),
        ("begin", 0, &[], "", &[0]),
        ("stage", 0, &[1], "", &[0]),
        ("commit", 0, &[1], "", &[0]),
        ("change", 0, &[], "", &[0, 1]),
    ],
);

/// A rewrite keeps its sources, and is stale without them.
const SOURCES: Story = (
    &[0, 1],
    &[
        ("rewrite", 0, &[0], "", &[]),
        ("change", 0, &[1], "", &[]),
        ("commit", 0, &[1, 2], "Stale", &[]),
        ("end", 0, &[], "", &[0]),
    ],
);

/// What is refused changes nothing: what is not open, or is already; a version with a number twice or out of order.
const REFUSED: Story = (
    &[0, 1],
    &[
        ("close", 0, &[], "NoCursor", &[]),
        ("open", 0, &[], "", &[]),
        ("open", 0, &[], "NoCursor", &[]),
        ("end", 0, &[], "NoJob", &[]),
        ("stage", 0, &[7], "NoJob", &[]),
        ("commit", 0, &[0, 1], "NoJob", &[]),
        ("begin", 0, &[], "", &[]),
        ("begin", 0, &[], "NoJob", &[]),
        ("rewrite", 1, &[1, 5], "NoGroup", &[]),
        ("change", 0, &[0, 2, 0], "Page", &[]),
        ("change", 0, &[100, 1], "Page", &[]),
        ("open", 1, &[], "", &[]),
        ("sees", 1, &[0, 1], "", &[]),
    ],
);

/// Whether the steps of a story come out as they say.
fn is_told(alloc: Global, story: &Story) -> R<bool> {
    let (first, steps) = story;
    let mut snapshots = Snapshots::new(alloc, version(alloc, first)?)?;
    for step in *steps {
        if !is_made(alloc, &mut snapshots, step)? {
            return Ok(false);
        }
    }
    Ok(true)
}

#[test]
fn what_is_in_use_is_kept(rt: HostRuntime) -> Result<(), Fail> {
    for story in &[RETURNS, JOBS, SOURCES, REFUSED] {
        assert!(rt; is_told(rt.alloc(), story)?);
    }
    Ok(())
}

/// Whether a version with a number twice is refused as the first one.
fn is_no_first(alloc: Global) -> R<bool> {
    let refused = Snapshots::new(alloc, version(alloc, &[0, 0])?);
    Ok(matches!(refused, Err(Refusal::Page)))
}

#[test]
fn no_opening_has_a_number_twice(rt: HostRuntime) -> Result<(), Fail> {
    assert!(rt; is_no_first(rt.alloc())?);
    Ok(())
}
