//! What a filter says of rows.

ghost use Rattle.std.specs.Prelude.{◌≡◌, map, MatchOption};
ghost use Rattle.std.specs.List.{list_any, list_all};
ghost use Rattle.schema.specs.Borrowed.{value_ref_view};
ghost use Rattle.schema.specs.Orders.{compared};
ghost use Rattle.schema.specs.Values.{null, view, views, member, member_at};
ghost use Rattle.filter.specs.Test.{way_view, test_view, ands_view, value_at, value_of};
ghost use Rattle.filter.specs.Deciding.{passes, holds};

use crate::equality::same_as;
use crate::term::Op;
use crate::test::Test;
use schema::{Step, Value, ValueRef, compare_refs};
use std::cmp::Ordering;

/// Whether one of the ANDs has all its terms true.
pub fn some_holds(ands: &[Vec<Test>], row: &[Value]) -> bool
    ensures { result ≡ list_any (λ terms. list_all (λ t. holds t (value_of t (views row.now))) terms) (ands_view ands.now) }
{
    for terms in ands {
        if all_hold(terms.as_slice(), row) {
            return true;
        }
    }
    false
}

/// Whether all terms are true of a row.
fn all_hold(terms: &[Test], row: &[Value]) -> bool
    ensures { result ≡ list_all (λ t. holds t (value_of t (views row.now))) (map test_view terms.now) }
{
    for term in terms {
        if !term.holds_of(row) {
            return false;
        }
    }
    true
}

/// Whether one of the ANDs has all its terms true of the values of a row's leaves.
pub fn some_holds_at(ands: &[Vec<Test>], leaves: &[Value]) -> bool
    ensures { result ≡ list_any (λ terms. list_all (λ t. holds t (member_at t.leaf (views leaves.now))) terms) (ands_view ands.now) }
{
    for terms in ands {
        if all_hold_at(terms.as_slice(), leaves) {
            return true;
        }
    }
    false
}

/// Whether all terms are true of the values of a row's leaves.
fn all_hold_at(terms: &[Test], leaves: &[Value]) -> bool
    ensures { result ≡ list_all (λ t. holds t (member_at t.leaf (views leaves.now))) (map test_view terms.now) }
{
    for term in terms {
        if !term.holds_at(leaves) {
            return false;
        }
    }
    true
}

impl Test {
    /// Whether the term is true of the value of its leaf.
    pub fn holds_at(&self, leaves: &[Value]) -> bool
        ensures { result ≡ holds (test_view self.now) (member_at (test_view self.now).leaf (views leaves.now)) }
    {
        match member_at(leaves, self.leaf) {
            Some(value) => self.holds(ValueRef::of(value)),
            None => false,
        }
    }

    /// Whether the term is true of a row.
    fn holds_of(&self, row: &[Value]) -> bool
        ensures { result ≡ holds (test_view self.now) (value_of (test_view self.now) (views row.now)) }
    {
        match member_at(row, self.first.place) {
            Some(value) => match value_at(self.rest.as_slice(), value) {
                Some(value) => self.holds(ValueRef::of(value)),
                None => false,
            },
            None => false,
        }
    }

    /// Whether the term is true of a value.
    pub fn holds(&self, value: ValueRef<'_>) -> bool
        ensures { result ≡ holds (test_view self.now) (value_ref_view value.entry) }
    {
        !matches!(value, ValueRef::Null) && self.passes(value)
    }

    /// Whether the operator is true of a value that is not null.
    fn passes(&self, value: ValueRef<'_>) -> bool
        ensures { result ≡ passes (test_view self.now).order (test_view self.now).op (value_ref_view value.entry) (test_view self.now).operand }
    {
        let operand = &self.operand.value;
        match self.op {
            Op::Equal => same_as(value, operand),
            Op::NotEqual => !same_as(value, operand),
            Op::Less => self.compared(value).is_some_and(|o| o.is_lt()),
            Op::LessOrEqual => self.compared(value).is_some_and(|o| o.is_le()),
            Op::Greater => self.compared(value).is_some_and(|o| o.is_gt()),
            Op::GreaterOrEqual => self.compared(value).is_some_and(|o| o.is_ge()),
            Op::In => self.operand.lists(value),
            Op::NotIn => !self.operand.lists(value),
        }
    }

    /// How a value compares with the operand, in the leaf's order.
    fn compared(&self, value: ValueRef<'_>) -> Option<Ordering>
        ensures { result ≡ compared (test_view self.now).order (value_ref_view value.entry) (test_view self.now).operand }
    {
        compare_refs(self.order, value, ValueRef::of(&self.operand.value))
    }
}

/// The value at the end of a path, where there is one.
fn value_at<'a>(steps: &[Step], value: &'a Value) -> Option<&'a Value>
    ensures { MatchOption result (value_at (way_view steps.now) (view value.now) ≡ null)
        (λ v. view v.now ≡ value_at (way_view steps.now) (view value.now)) }
{
    let mut value = value;
    for step in steps {
        match member(value, step.place) {
            Some(inner) => value = inner,
            None => return None,
        }
    }
    Some(value)
}

/// The member of a group at a place, where there is one.
fn member(value: &Value, place: usize) -> Option<&Value>
    ensures { MatchOption result (member place (view value.now) ≡ null)
        (λ v. view v.now ≡ member place (view value.now)) }
{
    match value {
        Value::Group(values) => member_at(values.as_slice(), place),
        _ => None,
    }
}

/// The value at a place of a group, where there is one.
#[tactic(auto, using(crate::proofs::Members::member_at_none, crate::proofs::Members::member_at_some))]
fn member_at(values: &[Value], place: usize) -> Option<&Value>
    ensures { MatchOption result (member_at place (views values.now) ≡ null)
        (λ v. view v.now ≡ member_at place (views values.now)) }
{
    if place < values.len() {
        Some(&values[place])
    } else {
        None
    }
}
