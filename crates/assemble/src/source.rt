//! What gives the entries of a column one by one.

ghost use Rattle.std.specs.Prelude.{◌≡◌, List, Option, IsTrue, IfErr};
ghost use Rattle.std.specs.Borrow.{sem};
ghost use Rattle.bits.specs.Faults.{refusal_of};
ghost use Rattle.bits.specs.declared.refusal.Refusal.{Refusal};
ghost use Rattle.schema.specs.Annotations.{LeafType};
ghost use Rattle.schema.specs.Stripe.{Entry};
ghost use Rattle.schema.specs.Views.{leaf_type_view};
ghost use Rattle.assemble.specs.Sources.{Rests, CausesStay, Shows, Stays, Gives, Takes, Suited, GivesValue, TakesValue, SuitedValue};

use bits::{Fault, R};
use schema::{EntryRef, LeafType, ValueRef};

/// What gives the entries of one leaf's column one by one, and may read them as it goes.
///
/// After a refusal other than Memory a source returns the same refusal from then on. After Memory it
/// is unchanged.
pub trait EntrySource {
    /// The entries that it would still give: this list, and no other. Where it will be refused, there
    /// is no such list.
    ghost stands: { Self → List Entry → Type 0 };

    /// The refusal that it returns from now on.
    ghost refused: { Self → Option Refusal };

    /// What has to be so for it to be refused with this refusal. A cause after a call was one before it. A
    /// source that is refused only when out of memory has no causes.
    ghost cause: { Self → Refusal → Type 0 };

    /// Whether the values that it gives fit this leaf type.
    ghost checked: { Self → LeafType → Type 0 } = { λ _ _. ⊥ };

    /// Whether it promises that the values that it gives fit this leaf type, so that nothing is checked
    /// twice. A source that promises nothing leaves this out.
    fn has_checked(&self, leaf_type: &LeafType) -> bool
        ensures promised { IsTrue result → checked self.now (leaf_type_view leaf_type.now) }
    {
        false
    }

    /// The levels of the next entry, repetition first, or none at the end. No entry is taken.
    fn peek(&mut self) -> R<Option<(u32, u32)>>
        ensures shows { Shows (stands self.old) (refused self.old) result }
        ensures stays { Stays (stands self.old) (stands self.new) (refused self.old) (refused self.new) result }
        ensures caused { IfErr result (λ e. cause self.old e) }
        ensures causes_stay { CausesStay cause self.old self.new };

    /// The next entry, which is taken, or none at the end.
    fn next(&mut self) -> Result<Option<EntryRef<'_>>, Fault>
        ensures gives { Gives (stands self.old) (refused self.old) result }
        ensures suited { Suited (checked self.old) result }
        ensures caused { IfErr result (λ f. cause self.old (refusal_of f)) }
        ensures* takes { sem 𝓛 (Rests Self.row self.entry (λ new. Takes (stands self.old) (stands new) (refused self.old) (refused new) result × CausesStay cause self.old new)) };

    /// The value of the next entry, which is taken, where that entry has both levels 0 and its value is at
    /// hand. None says nothing of the next entry, and takes nothing. A source with no such short way leaves
    /// this out.
    fn next_value(&mut self) -> Option<ValueRef<'_>>
        ensures gives { GivesValue (refused self.old) result }
        ensures suited { SuitedValue (checked self.old) result }
        ensures* takes { sem 𝓛 (Rests Self.row self.entry (λ new. TakesValue (stands self.old) (stands new) (refused self.old) (refused new) result × CausesStay cause self.old new)) }
    {
        None
    }

    /// The law that a source stands for at most one list of entries.
    fn one_list(&self)
        ensures one { (es fs : List Entry) → stands self.now es → stands self.now fs → es ≡ fs };
}
