//! Values that are missing, of OPTIONAL and REPEATED fields: the columns below have an entry without a value each.

ghost use Rattle.std.specs.Prelude.{◌≡◌, ◌<◌, ◌≤◌, length, map, None, IfOk, OnOk, IfErr};
ghost use Rattle.schema.specs.Stripe.{entry};
ghost use Rattle.assemble.specs.Sources.{Precede, CausesStay};
ghost use Rattle.assemble.specs.Sinks.{Adds, tokens};
ghost use Rattle.assemble.specs.Columns.{Columns, Fronts};
ghost use Rattle.assemble.specs.Standing.{AllStand, AllSame, HaveCause, Onward, Backward, IsRefusedFor};
ghost use Rattle.assemble.specs.inner.Fronts.{nones};
ghost use Rattle.assemble.specs.inner.Steps.{missing_value, IsSourceRefusedFor, IsAbsentFaulty, IsSkipFaulty, IsMissing, NoneLeft, first_of};

use crate::place::Place;
use crate::sink::RowSink;
use crate::source::EntrySource;
use bits::{R, Refusal};
use schema::{Repetition, ValueRef};
use std::alloc::AllocError;

/// Whether the value of an OPTIONAL or REPEATED field is missing at this definition level.
#[inline(always)]
pub fn is_missing<S: EntrySource>(definition: u32, sources: &mut [S]) -> R<bool>
    requires { 0 < length sources.old }
    ensures missing { IfOk result (λ b. (cs : Columns) → AllStand S.stands sources.old cs → IsMissing definition (first_of cs) b) }
    ensures refused { IfErr result (IsRefusedFor S.stands S.refused S.cause sources.old sources.new (λ cs. NoneLeft (first_of cs))) }
    ensures kept { OnOk result (map S.refused sources.new ≡ map S.refused sources.old) }
    ensures causes_stay { CausesStay (HaveCause S.cause) sources.old sources.new }
    ensures same { AllSame S.stands sources.old sources.new }
{
    match sources[0].peek()? {
        None => Err(Refusal::Levels),
        Some((_, level)) => Ok(level <= definition),
    }
}

/// Takes an entry without a value off each of the first columns.
pub fn skip<S: EntrySource>(count: usize, place: Place, sources: &mut [S]) -> R<()>
    requires { count ≤ length sources.old }
    ensures onward { IfOk result (λ _. Onward S.stands sources.old sources.new (Fronts (nones place.repetition place.definition count))) }
    ensures backward { IfOk result (λ _. Backward S.stands sources.old sources.new (Fronts (nones place.repetition place.definition count))) }
    ensures refused { IfErr result (IsRefusedFor S.stands S.refused S.cause sources.old sources.new (IsSkipFaulty place.repetition place.definition count)) }
    ensures kept { OnOk result (map S.refused sources.new ≡ map S.refused sources.old) }
    ensures causes_stay { CausesStay (HaveCause S.cause) sources.old sources.new }
{
    for i in 0..count {
        read_absent(place, &mut sources[i])?;
    }
    Ok(())
}

/// Takes the next entry, which has these levels and no value.
fn read_absent<S: EntrySource>(place: Place, source: &mut S) -> R<()>
    ensures first { IfOk result (λ _. Precede (entry place.repetition place.definition None) (S.stands source.old) (S.stands source.new)) }
    ensures refused { IfErr result (IsSourceRefusedFor S.stands S.refused S.cause source.old source.new (IsAbsentFaulty place.repetition place.definition)) }
    ensures kept { OnOk result (S.refused source.new ≡ S.refused source.old) }
    ensures causes_stay { CausesStay S.cause source.old source.new }
{
    match source.next()? {
        Some(entry) if place.is_of(&entry) => match entry.value {
            None => Ok(()),
            Some(_) => Err(Refusal::Value),
        },
        _ => Err(Refusal::Levels),
    }
}

/// Shows the value of an OPTIONAL or REPEATED field that is missing.
pub fn show_missing<K: RowSink>(repetition: Repetition, sink: &mut K) -> Result<(), AllocError>
    ensures shown { OnOk result (Adds (K.shows sink.old) (K.shows sink.new) (tokens (missing_value repetition))) }
    ensures base_stays { K.base sink.new ≡ K.base sink.old }
{
    match repetition {
        Repetition::Repeated => {
            sink.begin_list()?;
            sink.end_list()
        }
        _ => sink.value(ValueRef::Null),
    }
}
