//! Filters.

ghost use Rattle.std.specs.Prelude.{◌≡◌, ◌↔◌, [], Ok, Err, IfOk, IsTrue};
ghost use Rattle.bits.specs.Refusals.{RefusedOnly, RefusedMemoryOnly};
ghost use Rattle.schema.specs.Borrowed.{value_ref_view};
ghost use Rattle.schema.specs.Keys.{places_of, key_columns_view};
ghost use Rattle.schema.specs.Stripe.{leaves_of};
ghost use Rattle.schema.specs.Values.{ValueTrees, views};
ghost use Rattle.schema.specs.Views.{row_view, key_view};
ghost use Rattle.statistics.specs.Bounds.{known_of};
ghost use Rattle.filter.specs.RuledOut.{RuledOut};
ghost use Rattle.filter.specs.Satisfies.{Satisfies};
ghost use Rattle.filter.specs.Terms.{terms_view, tests_of};
ghost use Rattle.filter.specs.Test.{tests_in, looks_at, AreLeafValues};
ghost use Rattle.filter.specs.Verdicts.{verdicts_in, verdicts_of, IsPutAt};

use crate::holding::{some_holds, some_holds_at};
use crate::judging::{Verdicts, look_in_all, some_are_true, verdicts_at};
use crate::looking::some_looks_at;
use crate::making::all_ands;
use crate::pruning::all_out;
use crate::term::Term;
use crate::test::Test;
use bits::R;
use schema::{Key, KeyColumn, Row, Schema, Value, ValueRef};
use statistics::GroupStats;
use std::alloc::Global;

/// An OR of ANDs of terms, each at its leaf.
#[derive(Drop)]
pub struct Filter {
    ands: Vec<Vec<Test>>,
}

impl Filter {
    /// The filter of terms over the leaves of a schema: an OR of ANDs. The empty filter, and an empty AND, are
    /// satisfied by every row.
    ///
    /// Refused for the first term that has a fault: NoColumn where its column is not there, is a group, or is
    /// or lies below a REPEATED field; else Unordered for an order operator on a leaf without an order; else
    /// RowShape for a value that the leaf cannot have. For `in` and `not in` the value is a list, and the leaf
    /// can have each value in it.
    ///
    /// The terms are borrowed, and their values are copied. Takes time linear in the terms and their values
    /// and, for each term, in the names of the leaves.
    pub fn new(alloc: Global, schema: &Schema, ands: &[Vec<Term>]) -> R<Filter>
        ensures made { IfOk result (λ f. tests_of (leaves_of schema.now) (terms_view ands.now) ≡ Ok (tests_in f)) }
        ensures which { RefusedOnly (λ e. tests_of (leaves_of schema.now) (terms_view ands.now) ≡ Err e) result }
    {
        let leaves = schema.leaves();
        match all_ands(alloc, leaves, ands) {
            Ok(ands) => Ok(Filter { ands }),
            Err(refusal) => Err(refusal),
        }
    }

    /// Whether a row of the filter's schema satisfies it. Takes no memory. The time is linear in the terms and
    /// in the bytes of the values that they look at; a long list of `in` is searched by hash.
    pub fn satisfies(&self, row: &Row) -> bool
        ensures { IsTrue result ↔ Satisfies (tests_in self.now) (row_view row.now) }
    {
        self.ands.is_empty() || some_holds(self.ands.as_slice(), row.values.as_slice())
    }

    /// Whether a row satisfies the filter, by the values of its leaves: each at the leaf's index in
    /// [`leaves`](Schema::leaves), null where the row has none. Only leaves that the filter looks at
    /// ([`looks_at`](Filter::looks_at)) need their values; another one may have any. Otherwise as
    /// [`satisfies`](Filter::satisfies).
    pub fn satisfied_by(&self, leaves: &[Value]) -> bool
        ensures { (row : ValueTrees) → AreLeafValues (tests_in self.now) (views leaves.now) row → IsTrue result ↔ Satisfies (tests_in self.now) row }
    {
        self.ands.is_empty() || some_holds_at(self.ands.as_slice(), leaves)
    }

    /// Whether the filter is empty: then every row satisfies it.
    pub fn is_empty(&self) -> bool
        ensures { IsTrue result ↔ (tests_in self.now ≡ []) }
    {
        self.ands.is_empty()
    }

    /// Whether each term is true of these values of a row's leaves, as [`satisfied_by`](Filter::satisfied_by) takes
    /// them. From then on [`look`](Filter::look) takes the value of one leaf at a time.
    ///
    /// It fails only when out of memory. Time and room are linear in the terms.
    pub fn verdicts(&self, alloc: Global, leaves: &[Value]) -> R<Verdicts>
        ensures stands { IfOk result (λ v. verdicts_in v ≡ verdicts_of (tests_in self.now) (views leaves.now)) }
        ensures which { RefusedMemoryOnly result }
    {
        let mut ands = Vec::with_capacity(alloc, self.ands.len())?;
        for terms in &self.ands {
            ands.push(verdicts_at(alloc, terms.as_slice(), leaves)?)?;
        }
        Ok(Verdicts { ands })
    }

    /// Takes the value of one more leaf, the one with this index: the verdicts of the terms at it are made anew, and
    /// the others stay. The value is borrowed, and nothing is copied.
    pub fn look(&self, leaf: usize, value: ValueRef<'_>, verdicts: &mut Verdicts)
        ensures { (before after : ValueTrees) → verdicts_in verdicts.old ≡ verdicts_of (tests_in self.now) before
            → IsPutAt leaf (value_ref_view value.entry) before after → verdicts_in verdicts.new ≡ verdicts_of (tests_in self.now) after }
    {
        look_in_all(
            self.ands.as_slice(),
            leaf,
            value,
            verdicts.ands.as_mut_slice(),
        );
    }

    /// Whether a row satisfies the filter, by the verdicts of the values of its leaves: as
    /// [`satisfied_by`](Filter::satisfied_by) of these values.
    pub fn satisfied_in(&self, verdicts: &Verdicts) -> bool
        ensures { (leaves row : ValueTrees) → verdicts_in verdicts.now ≡ verdicts_of (tests_in self.now) leaves
            → AreLeafValues (tests_in self.now) leaves row → IsTrue result ↔ Satisfies (tests_in self.now) row }
    {
        self.ands.is_empty() || some_are_true(verdicts.ands.as_slice())
    }

    /// Whether a term is at the leaf with this index. Takes no memory; the time is linear in the terms.
    pub fn looks_at(&self, leaf: usize) -> bool
        ensures { result ≡ looks_at (tests_in self.now) leaf }
    {
        some_looks_at(self.ands.as_slice(), leaf)
    }

    /// Whether the key and the statistics of a group rule out that one of its rows satisfies the filter (the
    /// law is [`ruled_out_holds_no_row`]). That they are of the filter's table is the caller's duty: `keys`
    /// are the table's key columns, `key` is the group's key, and `known` has the leaves of the group's file,
    /// which has no key columns, nor those that were added to the table after it was written: of such a leaf
    /// each row has a null.
    ///
    /// Takes no memory. The time is linear in the terms and the values of their lists, and for each term in
    /// the key columns.
    pub fn ruled_out(&self, keys: &[KeyColumn], key: &Key, known: &GroupStats) -> bool
        ensures { IsTrue result ↔ RuledOut (tests_in self.now) (places_of (key_columns_view keys.now)) (key_view key.now) (known_of known.now) }
    {
        !self.ands.is_empty() && all_out(self.ands.as_slice(), keys, key.values.as_slice(), known)
    }
}
