//! Terms at their leaves.

ghost use Rattle.std.specs.Prelude.{◌≡◌, ◌↔◌, ◌<◌, Some, None, Ok, Err, map, length, IsTrue, IfOk, MatchOption, string_bytes, is_none};
ghost use Rattle.std.specs.List.{list_all, slice_get};
ghost use Rattle.std.specs.Rc.{rc_str_bytes};
ghost use Rattle.bits.specs.Refusals.{RefusedOnly};
ghost use Rattle.schema.specs.Values.{view, views, each};
ghost use Rattle.schema.specs.Stripe.{Leaf as LeafShown};
ghost use Rattle.schema.specs.Views.{leaf_view, leaf_type_view};
ghost use Rattle.schema.specs.Fits.{fits_leaf};
ghost use Rattle.filter.specs.Test.{test_view, ands_view, is_single, way_view};
ghost use Rattle.filter.specs.Terms.{names_of, term_view, terms_view, named_leaf, is_of_order, takes, test_at, test_of, each_of, tests_of};

use crate::operand::Operand;
use crate::term::{Op, Term};
use crate::test::Test;
use bits::{R, Refusal};
use schema::{Leaf, LeafType, Repetition, Step, Value};
use std::alloc::Global;
use std::rc::RcStr;

/// All tests of the ANDs, or the fault of the first term that has one.
pub fn all_ands(alloc: Global, leaves: &[Leaf], ands: &[Vec<Term>]) -> R<Vec<Vec<Test>>>
    ensures made { IfOk result (λ made. tests_of (map leaf_view leaves.now) (terms_view ands.now) ≡ Ok (ands_view made.items)) }
    ensures which { RefusedOnly (λ e. tests_of (map leaf_view leaves.now) (terms_view ands.now) ≡ Err e) result }
{
    let mut made = Vec::with_capacity(alloc, ands.len())?;
    for terms in ands {
        let tests = tests_of(alloc, leaves, terms.as_slice())?;
        made.push(tests)?;
    }
    Ok(made)
}

/// The tests of an AND.
fn tests_of(alloc: Global, leaves: &[Leaf], terms: &[Term]) -> R<Vec<Test>>
    ensures made { IfOk result (λ made. each_of (test_of (map leaf_view leaves.now)) (map term_view terms.now) ≡ Ok (map test_view made.items)) }
    ensures which { RefusedOnly (λ e. each_of (test_of (map leaf_view leaves.now)) (map term_view terms.now) ≡ Err e) result }
{
    let mut made = Vec::with_capacity(alloc, terms.len())?;
    for term in terms {
        let test = test_of(alloc, leaves, term)?;
        made.push(test)?;
    }
    Ok(made)
}

/// The test of a term.
fn test_of(alloc: Global, leaves: &[Leaf], term: &Term) -> R<Test>
    ensures made { IfOk result (λ t. test_of (map leaf_view leaves.now) (term_view term.now) ≡ Ok (test_view t)) }
    ensures which { RefusedOnly (λ e. test_of (map leaf_view leaves.now) (term_view term.now) ≡ Err e) result }
{
    match place_of(leaves, term.column.as_slice()) {
        Some(place) => test_at(alloc, place, &leaves[place], term),
        None => Err(Refusal::NoColumn),
    }
}

/// The test of a term at a leaf.
fn test_at(alloc: Global, place: usize, leaf: &Leaf, term: &Term) -> R<Test>
    ensures made { IfOk result (λ t. test_at (term_view term.now) place (leaf_view leaf.now) (leaf_view leaf.now).steps ≡ Ok (test_view t)) }
    ensures which { RefusedOnly (λ e. test_at (term_view term.now) place (leaf_view leaf.now) (leaf_view leaf.now).steps ≡ Err e) result }
{
    let steps = leaf.steps.as_slice();
    if steps.is_empty() {
        return Err(Refusal::NoColumn);
    }
    if !are_single(steps) {
        return Err(Refusal::NoColumn);
    }
    let order = leaf.leaf_type.order();
    if is_of_order(term.op) && order.is_none() {
        return Err(Refusal::Unordered);
    }
    if !takes(&leaf.leaf_type, term.op, &term.value) {
        return Err(Refusal::RowShape);
    }
    let first = steps[0];
    let rest = Vec::from_slice(alloc, steps.split_at(1).1)?;
    let operand = Operand::new(alloc, &term.value)?;
    Ok(Test {
        leaf: place,
        first,
        rest,
        order,
        op: term.op,
        operand,
    })
}

/// The index of the leaf with these names.
fn place_of(leaves: &[Leaf], names: &[String]) -> Option<usize>
    ensures { MatchOption result (named_leaf 0 (map leaf_view leaves.now) (names_of names.now) ≡ None)
        (λ n. (n < length leaves.now) × ((l : LeafShown) → slice_get (map leaf_view leaves.now) n ≡ Some l
        → named_leaf 0 (map leaf_view leaves.now) (names_of names.now) ≡ Some (n, l))) }
{
    for (i, leaf) in leaves.iter().enumerate() {
        if is_path(leaf.path.as_slice(), names) {
            return Some(i);
        }
    }
    None
}

/// Whether a path has these names, in order. Takes no memory; the time is linear in the names.
pub fn is_path(path: &[RcStr], names: &[String]) -> bool
    ensures { IsTrue result ↔ (map rc_str_bytes path.now ≡ names_of names.now) }
{
    if path.len() != names.len() {
        return false;
    }
    for (i, name) in names.iter().enumerate() {
        if !is_name(&path[i], name) {
            return false;
        }
    }
    true
}

/// Whether the two names are the same.
fn is_name(one: &RcStr, other: &String) -> bool
    ensures { IsTrue result ↔ (rc_str_bytes one.now ≡ string_bytes other.now) }
{
    one.as_str() == other.as_str()
}

/// Whether no field on the path is REPEATED.
fn are_single(steps: &[Step]) -> bool
    ensures { result ≡ list_all is_single (way_view steps.now) }
{
    for step in steps {
        match step.repetition {
            Repetition::Repeated => return false,
            _ => {}
        }
    }
    true
}

/// Whether the operator needs an order.
fn is_of_order(op: Op) -> bool
    ensures { result ≡ is_of_order op }
{
    match op {
        Op::Less | Op::LessOrEqual | Op::Greater | Op::GreaterOrEqual => true,
        _ => false,
    }
}

/// Whether a leaf can have such a value.
fn takes(leaf_type: &LeafType, op: Op, value: &Value) -> bool
    ensures { result ≡ takes (leaf_type_view leaf_type.now) op (view value.now) }
{
    match op {
        Op::In | Op::NotIn => match value {
            Value::List(values) => all_fit(leaf_type, values.as_slice()),
            _ => false,
        },
        _ => leaf_type.fits(value),
    }
}

/// Whether a leaf can have each of the values.
fn all_fit(leaf_type: &LeafType, values: &[Value]) -> bool
    ensures { result ≡ each (fits_leaf (leaf_type_view leaf_type.now)) (views values.now) }
{
    for value in values {
        if !leaf_type.fits(value) {
            return false;
        }
    }
    true
}
