//! From the bytes of a root to what it describes.

ghost use Rattle.std.specs.Prelude.{◌≡◌, suc, ◌<◌, ◌^◌, ◌↔◌, List, Some, map, replicate, option_map, IsTrue, IfOk, IfErr};
ghost use Rattle.std.specs.List.{AllByRecursion};
ghost use Rattle.std.specs.Rc.{rc_value};
ghost use Rattle.bits.specs.Refusals.{RefusedOnly, RefusedMemoryOnly};
ghost use Rattle.bits.specs.declared.refusal.Refusal.TheVariants.{Memory};
ghost use Rattle.schema.specs.Keys.{key_columns_view, without_keys, AreDistinct};
ghost use Rattle.metadata.specs.Records.{type_order};
ghost use Rattle.metadata.specs.Views.{column_order_view, group_meta_view};
ghost use Rattle.partition.specs.Order.{AreInTableOrder};
ghost use Rattle.manifest.specs.Groups.{Root, Group as GroupShown, group_view, handles_view};
ghost use Rattle.manifest.specs.Records.{AreGroupRecords};
ghost use Rattle.manifest.specs.Root.{RootMeans};
ghost use Rattle.manifest.specs.Faults.{HasRootFault};
ghost use Rattle.manifest.specs.inner.Reading.{IsGroupsFault};
ghost use Rattle.manifest.specs.inner.Heads.{root_in};

use crate::fronts::Fronts;
use crate::group::Group;
use crate::group_reading::group_in;
use crate::handles::handle_of;
use crate::laws::groups_are_one;
use crate::pairs::pairs_in;
use bits::{R, Refusal};
use footer::read_footer;
use metadata::{ColumnOrder, GroupMeta};
use partition::compare_keys;
use schema::{KeyColumn, Schema, a_list_means_one_schema};
use std::alloc::Global;
use std::cmp::Ordering;
use std::collections::HashSet;
use std::rc::Rc;

/// What a root describes.
#[derive(Drop)]
pub(crate) struct ReadRoot {
    pub(crate) schema: Schema,
    pub(crate) stored: Schema,
    pub(crate) keys: Vec<KeyColumn>,
    pub(crate) next: u64,
    pub(crate) groups: Vec<Rc<Group>>,
}

/// What the bytes of a root describe, as [`Manifest::from_bytes`](crate::Manifest::from_bytes) has it.
pub(crate) fn read_root(alloc: Global, bytes: &[u8]) -> R<ReadRoot>
    ensures stands { IfOk result (λ r. RootMeans bytes.now (root_in r)) }
    ensures besides { IfOk result (λ r. r.stored ≡ without_keys (key_columns_view r.keys.items) r.schema) }
    ensures only { IfErr result (λ e. (e ≡ Memory → ⊥) → (root : Root) → RootMeans bytes.now root → ⊥) }
    ensures which { RefusedOnly (HasRootFault bytes.now) result }
{
    a_list_means_one_schema();
    groups_are_one();
    let meta = read_footer(alloc, bytes)?;
    let stored = Schema::new(alloc, meta.schema.as_slice())?;
    let (keys, next) = pairs_in(alloc, &meta)?;
    let schema = stored.with_keys(alloc, keys.as_slice())?;
    if !are_of_type(&meta.column_orders, stored.leaves().len()) {
        return Err(Refusal::Page);
    }
    let groups = groups_in(alloc, keys.as_slice(), &stored, meta.row_groups)?;
    if !are_in_order(groups.as_slice()) || !are_below(groups.as_slice(), next) {
        return Err(Refusal::Page);
    }
    let is_own = have_own_numbers(alloc, groups.as_slice())?;
    if !is_own {
        return Err(Refusal::Page);
    }
    // For the proof: it is within the limits of a schema.
    let _ = schema.leaves();
    Ok(ReadRoot {
        schema,
        stored,
        keys,
        next,
        groups,
    })
}

/// Whether there is an order for each of so many columns, and it is that of its type.
fn are_of_type(orders: &Option<Vec<ColumnOrder>>, columns: usize) -> bool
    ensures { IsTrue result ↔ (option_map (λ os. map column_order_view os.items) orders.now ≡ Some (replicate columns type_order)) }
{
    match orders {
        Some(orders) => are_orders(orders.as_slice(), columns),
        None => false,
    }
}

fn are_orders(orders: &[ColumnOrder], columns: usize) -> bool
    ensures { IsTrue result ↔ (map column_order_view orders.now ≡ replicate columns type_order) }
{
    orders.len() == columns && are_type_orders(orders)
}

fn are_type_orders(orders: &[ColumnOrder]) -> bool
    ensures { IsTrue result ↔ AllByRecursion (λ o. column_order_view o ≡ type_order) orders.now }
{
    for order in orders {
        if !is_type_order(order) {
            return false;
        }
    }
    true
}

fn is_type_order(order: &ColumnOrder) -> bool
    ensures { IsTrue result ↔ (column_order_view order.now ≡ type_order) }
{
    match order {
        ColumnOrder::TypeOrder => true,
        ColumnOrder::Other => false,
    }
}

/// What the records of all groups say. Refused as each is.
fn groups_in(
    alloc: Global,
    keys: &[KeyColumn],
    stored: &Schema,
    metas: Vec<GroupMeta>,
) -> R<Vec<Rc<Group>>>
    ensures stand { IfOk result (λ gs. AreGroupRecords (key_columns_view keys.now) stored.now (map group_meta_view metas.items) (handles_view gs.items)) }
    ensures few { IfOk result (λ gs. AllByRecursion (λ (g : GroupShown). suc g.number < 2 ^ 64) (handles_view gs.items)) }
    ensures only { IfErr result (λ e. (e ≡ Memory → ⊥) → (gs : List GroupShown) → AllByRecursion (λ (g : GroupShown). suc g.number < 2 ^ 64) gs
        → AreGroupRecords (key_columns_view keys.now) stored.now (map group_meta_view metas.items) gs → ⊥) }
    ensures which { IfErr result (IsGroupsFault (map group_meta_view metas.items)) }
{
    let fronts = Fronts::new(alloc, stored)?;
    let leaves = stored.leaves();
    let mut groups = Vec::with_capacity(alloc, metas.len())?;
    for meta in metas {
        let group = group_in(alloc, keys, leaves, &fronts, meta)?;
        let handle = handle_of(alloc, group)?;
        groups.push(handle)?;
    }
    Ok(groups)
}

/// Whether the groups stand in table order.
fn are_in_order(groups: &[Rc<Group>]) -> bool
    ensures { IsTrue result ↔ AreInTableOrder (map (λ (g : GroupShown). g.key) (handles_view groups.now)) }
{
    for i in 1..groups.len() {
        if compare_keys(&groups[i - 1].key, &groups[i].key) == Ordering::Greater {
            return false;
        }
    }
    true
}

/// Whether each number is below the next one.
fn are_below(groups: &[Rc<Group>], next: u64) -> bool
    ensures { IsTrue result ↔ AllByRecursion (λ (g : GroupShown). g.number < next) (handles_view groups.now) }
{
    for group in groups {
        if !is_below(group, next) {
            return false;
        }
    }
    true
}

fn is_below(group: &Rc<Group>, next: u64) -> bool
    ensures { IsTrue result ↔ ((group_view (rc_value group.now)).number < next) }
{
    group.number < next
}

/// Whether no number comes twice.
fn have_own_numbers(alloc: Global, groups: &[Rc<Group>]) -> R<bool>
    ensures own { IfOk result (λ b. IsTrue b ↔ AreDistinct (map (λ (g : GroupShown). g.number) (handles_view groups.now))) }
    ensures which { RefusedMemoryOnly result }
{
    let mut numbers = HashSet::new(alloc);
    for group in groups {
        let is_new = numbers.insert(group.number)?;
        if !is_new {
            return Ok(false);
        }
    }
    Ok(true)
}
