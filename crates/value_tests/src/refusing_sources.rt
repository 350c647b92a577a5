//! Sources of entries that refuse.

ghost use Rattle.std.specs.Prelude.{option_map};
ghost use Rattle.bits.specs.Faults.{refusal_of};

use crate::schemas::{EntryRow, FieldRow, INT32, REPEATED, REQUIRED, entries_of, schema_of};
use assemble::{EntrySource, assemble_from, next_row};
use bits::{Fault, R, Refusal};
use schema::{Entry, EntryRef, Schema};
use std::alloc::Global;
use std::test::*;

/// `repeated int32 xs`
const NUMBERS: &[FieldRow] = &[
    ("root", REQUIRED, None, Some(1)),
    ("xs", REPEATED, Some(INT32), None),
];

/// Two rows of numbers: 1 and 2, and none.
const TWO_ROWS: &[EntryRow] = &[(0, 1, Some(1)), (1, 1, Some(2)), (0, 0, None)];

/// Gives some entries, and then is refused.
#[derive(Drop)]
struct Failing<'a> {
    before: &'a [Entry],
    refused: Option<Fault>,
}

impl<'a> EntrySource for Failing<'a> {
    ghost stands = { λ s es. ⊥ };

    ghost refused = { λ s. option_map refusal_of s.refused };

    // Nothing is said of the causes of this source's refusals.
    ghost cause = { λ _ _. Unit {0} };

    fn peek(&mut self) -> R<Option<(u32, u32)>> {
        if let Some(fault) = self.refused {
            return Err(Refusal::from(fault));
        }
        match self.before.first() {
            None => {
                self.refused = Some(Fault::Page);
                Err(Refusal::Page)
            }
            Some(entry) => Ok(Some((entry.repetition, entry.definition))),
        }
    }

    fn next(&mut self) -> Result<Option<EntryRef<'_>>, Fault> {
        if let Some(fault) = self.refused {
            return Err(fault);
        }
        match self.before.split_first() {
            None => {
                self.refused = Some(Fault::Page);
                Err(Fault::Page)
            }
            Some((entry, rest)) => {
                self.before = rest;
                Ok(Some(EntryRef::of(entry)))
            }
        }
    }

    fn one_list(&self) {}
}

/// A source of the first entries, which then is refused.
fn sources_of(alloc: Global, entries: &[Entry], count: usize) -> R<Vec<Failing<'_>>> {
    let mut sources = Vec::new(alloc);
    sources.push(Failing {
        before: entries.get(..count).unwrap_or(entries),
        refused: None,
    })?;
    Ok(sources)
}

/// Whether the refusal of a source is returned after so many entries, and stays.
fn is_refused_after(alloc: Global, schema: &Schema, entries: &[Entry], count: usize) -> R<bool> {
    let mut sources = sources_of(alloc, entries, count)?;
    let all = assemble_from(alloc, schema, sources.as_mut_slice());
    let next = next_row(alloc, schema, sources.as_mut_slice());
    Ok(matches!(all, Err(Refusal::Page)) && matches!(next, Err(Refusal::Page)))
}

/// Whether the refusal of a source is returned wherever it comes, and stays.
fn is_always_refused(alloc: Global) -> R<bool> {
    let schema = schema_of(alloc, NUMBERS)?;
    let entries = entries_of(alloc, TWO_ROWS)?;
    for count in 0..=3 {
        if !is_refused_after(alloc, &schema, entries.as_slice(), count)? {
            return Ok(false);
        }
    }
    Ok(true)
}

#[test]
fn a_refusal_of_a_source_is_returned_and_stays(rt: HostRuntime) -> Result<(), Fail> {
    assert!(rt; is_always_refused(rt.alloc())?);
    Ok(())
}

/// Whether the rows before a refusal are returned, and then the refusal.
fn are_returned_before(alloc: Global) -> R<bool> {
    let schema = schema_of(alloc, NUMBERS)?;
    let entries = entries_of(alloc, TWO_ROWS)?;
    let mut sources = sources_of(alloc, entries.as_slice(), 3)?;
    let first = next_row(alloc, &schema, sources.as_mut_slice())?.is_some();
    let second = next_row(alloc, &schema, sources.as_mut_slice())?.is_some();
    let third = next_row(alloc, &schema, sources.as_mut_slice());
    Ok(first && second && matches!(third, Err(Refusal::Page)))
}

#[test]
fn rows_before_a_refusal_are_returned(rt: HostRuntime) -> Result<(), Fail> {
    assert!(rt; are_returned_before(rt.alloc())?);
    Ok(())
}
