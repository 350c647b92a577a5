//! Filters over the values of a row's leaves, looked at one by one.

ghost use Rattle.std.specs.Prelude.{◌≡◌, map, IfOk};
ghost use Rattle.std.specs.List.{list_any, list_all};
ghost use Rattle.bits.specs.Refusals.{RefusedMemoryOnly};
ghost use Rattle.schema.specs.Borrowed.{value_ref_view};
ghost use Rattle.schema.specs.Values.{views, member_at};
ghost use Rattle.filter.specs.Deciding.{holds};
ghost use Rattle.filter.specs.Test.{test_view, ands_view};
ghost use Rattle.filter.specs.Verdicts.{verdicts_view};
ghost use Rattle.filter.specs.inner.Judging.{verdict, judged, judged_terms};

use crate::test::Test;
use bits::R;
use schema::{Value, ValueRef};
use std::alloc::Global;

/// Whether each term of a filter is true of the value that its leaf had when it was looked at last
/// ([`Filter::look`](crate::Filter::look)). One value serves for row after row.
#[derive(Debug, Drop)]
pub struct Verdicts {
    pub(crate) ands: Vec<Vec<bool>>,
}

/// Whether each of the terms is true of the values of leaves.
pub fn verdicts_at(alloc: Global, terms: &[Test], leaves: &[Value]) -> R<Vec<bool>>
    ensures stands { IfOk result (λ v. v.items ≡ map (λ t. holds t (member_at t.leaf (views leaves.now))) (map test_view terms.now)) }
    ensures which { RefusedMemoryOnly result }
{
    let mut verdicts = Vec::with_capacity(alloc, terms.len())?;
    for term in terms {
        verdicts.push(term.holds_at(leaves))?;
    }
    Ok(verdicts)
}

/// Sets the verdicts of the terms at a leaf, of which this is the value.
pub fn look_in_all(ands: &[Vec<Test>], leaf: usize, value: ValueRef<'_>, verdicts: &mut [Vec<bool>])
    ensures { verdicts_view verdicts.new ≡ judged leaf (value_ref_view value.entry) (ands_view ands.now) (verdicts_view verdicts.old) }
{
    for i in 0..ands.len() {
        if i >= verdicts.len() {
            return;
        }
        look_in_one(ands[i].as_slice(), leaf, value, &mut verdicts[i]);
    }
}

/// Sets the verdicts of those terms of one AND that are at a leaf, of which this is the value.
fn look_in_one(terms: &[Test], leaf: usize, value: ValueRef<'_>, verdicts: &mut Vec<bool>)
    ensures { verdicts.new.items ≡ judged_terms leaf (value_ref_view value.entry) (map test_view terms.now) verdicts.old.items }
{
    for i in 0..terms.len() {
        if i >= verdicts.len() {
            return;
        }
        verdicts[i] = terms[i].verdict(leaf, value, verdicts[i]);
    }
}

/// Whether one of the ANDs has all its terms true.
pub fn some_are_true(verdicts: &[Vec<bool>]) -> bool
    ensures { result ≡ list_any (λ terms. list_all (λ b. b) terms) (verdicts_view verdicts.now) }
{
    for terms in verdicts {
        if are_true(terms.as_slice()) {
            return true;
        }
    }
    false
}

/// Whether all terms are true.
fn are_true(verdicts: &[bool]) -> bool
    ensures { result ≡ list_all (λ b. b) verdicts.now }
{
    for verdict in verdicts {
        if !*verdict {
            return false;
        }
    }
    true
}

impl Test {
    /// Whether the term is true of the value of a leaf, if it is at that leaf; else what was known before.
    fn verdict(&self, leaf: usize, value: ValueRef<'_>, known: bool) -> bool
        ensures { result ≡ verdict leaf (value_ref_view value.entry) (test_view self.now) known }
    {
        if self.leaf == leaf {
            self.holds(value)
        } else {
            known
        }
    }
}
