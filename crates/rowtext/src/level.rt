//! Where the values stand that are shown.

ghost use Rattle.std.specs.Prelude.{◌≡◌, ◌≤◌, ◌+◌, ◌∷◌, [], length, drop, Some, IfSome, IfNone, option_map};
ghost use Rattle.rowtext.specs.declared.row_plan.RowPlan.{RowPlan as CodePlan};
ghost use Rattle.rowtext.specs.inner.Slots.{leaf_slot, no_slots, slot, slot_view, slots_view, order_view};
ghost use Rattle.rowtext.specs.inner.Levels.{slots_in, order_in, slots_after, level_at, inside, seen};

use crate::key::Key;
use crate::row_plan::Slot;
use crate::scalars::Numbers;

/// Where the values stand that are shown.
#[derive(Clone, Copy)]
pub enum Level<'a> {
    /// In a row whose fields, those of the plan, stand in the order of their names: where its text begins.
    Row {
        from: usize,
    },
    /// In a row whose fields stand in another order than their names: where its text begins.
    SortedRow {
        from: usize,
    },
    /// In a group: what stands at it, where its text begins, and how many pieces begin before it.
    Group {
        slot: &'a Slot,
        from: usize,
        first: usize,
    },
    /// In a group in which no value is awaited.
    Unknown {
        from: usize,
        first: usize,
    },
    /// In a list: what its items are.
    List {
        slot: Option<&'a Slot>,
    },
}

/// A level around another, and how many of its values were shown.
#[derive(Clone, Copy)]
pub struct Outer<'a> {
    pub level: Level<'a>,
    pub shown: usize,
}

/// What stands at a leaf.
#[derive(Clone, Copy)]
pub struct Leaf<'a> {
    pub key: &'a Key,
    pub numbers: Numbers,
    pub is_text: bool,
}

/// The level inside a group, whose text begins here.
#[inline(always)]
pub fn inside(slot: Option<&Slot>, from: usize, first: usize) -> Level<'_>
    ensures { (plan : CodePlan) → level_at plan result 0 ≡ inside (option_map seen slot.entry) from first }
{
    match slot {
        Some(slot) => Level::Group { slot, from, first },
        None => Level::Unknown { from, first },
    }
}

/// What stands at the fields of a group.
#[inline(always)]
pub fn slots_in(slot: &Slot) -> &[Slot]
    ensures { slots_view result.now ≡ slots_in (slot_view slot.now) }
{
    match slot {
        Slot::Group { slots, .. } => slots.as_slice(),
        Slot::Leaf { .. } => &[],
    }
}

/// The indices of the fields of a group in the byte order of their names; none if the fields stand in that order.
#[inline(always)]
pub fn order_in(slot: &Slot) -> Option<&[usize]>
    ensures { order_view result ≡ order_in (slot_view slot.now) }
{
    match slot {
        Slot::Group { order, .. } => match order {
            None => None,
            Some(order) => Some(order.as_slice()),
        },
        Slot::Leaf { .. } => None,
    }
}

/// What stands at a field of a group, and the index after it.
#[inline(always)]
pub fn slot_in(group: &Slot, index: usize) -> Option<(&Slot, usize)>
    ensures some { IfSome result (λ r. slots_after index (slots_in (slot_view group.now))
        ≡ slot (slot_view r.0.now) (slots_after r.1 (slots_in (slot_view group.now)))) }
    ensures none { IfNone result (slots_after index (slots_in (slot_view group.now)) ≡ no_slots) }
{
    slot_at(slots_in(group), index)
}

/// The leaf with a short name at a field of a group, and the index after it.
#[inline(always)]
pub fn short_leaf_in(group: &Slot, index: usize) -> Option<(Leaf<'_>, usize)>
    ensures short { IfSome result (λ r. length r.0.key.now ≤ 16) }
    ensures some { IfSome result (λ r. slots_after index (slots_in (slot_view group.now))
        ≡ slot (leaf_slot r.0.key.now r.0.numbers r.0.is_text) (slots_after r.1 (slots_in (slot_view group.now)))) }
{
    short_leaf_at(slots_in(group), index)
}

/// The slot at an index, and the index after it.
#[inline(always)]
pub fn slot_at(slots: &[Slot], index: usize) -> Option<(&Slot, usize)>
    ensures some { IfSome result (λ r. drop index slots.now ≡ r.0.now ∷ drop (index + 1) slots.now) }
    ensures next { IfSome result (λ r. r.1 ≡ index + 1) }
    ensures none { IfNone result (drop index slots.now ≡ []) }
{
    match slots.get(index) {
        None => None,
        Some(slot) => Some((slot, index + 1)),
    }
}

/// The leaf that a slot is, if it is one.
#[inline(always)]
pub fn leaf_of(slot: Option<&Slot>) -> Option<Leaf<'_>>
    ensures { IfSome result (λ leaf. option_map seen slot.entry ≡ Some (leaf_slot leaf.key.now leaf.numbers leaf.is_text)) }
{
    match slot {
        Some(
            Slot::Leaf {
                key,
                numbers,
                is_text,
            },
        ) => Some(Leaf {
            key,
            numbers: *numbers,
            is_text: *is_text,
        }),
        _ => None,
    }
}

/// The leaf with a short name at an index, and the index after it.
#[inline(always)]
pub fn short_leaf_at(slots: &[Slot], index: usize) -> Option<(Leaf<'_>, usize)>
    ensures short { IfSome result (λ r. length r.0.key.now ≤ 16) }
    ensures some { IfSome result (λ r. slots_view (drop index slots.now)
        ≡ slot (leaf_slot r.0.key.now r.0.numbers r.0.is_text) (slots_view (drop r.1 slots.now))) }
{
    match slot_at(slots, index) {
        Some(
            (
                Slot::Leaf {
                    key,
                    numbers,
                    is_text,
                },
                next,
            ),
        ) if key.is_short() => {
            let leaf = Leaf {
                key,
                numbers: *numbers,
                is_text: *is_text,
            };
            Some((leaf, next))
        }
        _ => None,
    }
}
