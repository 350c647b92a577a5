//! The list of a schema's elements, read into fields.

ghost use Rattle.std.specs.Prelude.{◌≡◌, ◌+◌, ◌<◌, ◌≤◌, ◌↔◌, IfOk, IfErr, drop, length, true, false, IsTrue, MatchOption, string_bytes};
ghost use Rattle.bits.specs.Refusals.{RefusedOnly, RefusedMemoryOnly};
ghost use Rattle.schema.specs.Elements.{element_view, elements_view};
ghost use Rattle.schema.specs.Law.{AllDiffer, names, IsWithinLimits};
ghost use Rattle.schema.specs.Shape.{name_of, repetition_of};
ghost use Rattle.schema.specs.Listing.{count_typed, count_branches, IsSchemaOf};
ghost use Rattle.schema.specs.Faults.{HasFault};
ghost use Rattle.schema.specs.Reading.{tallest};
ghost use Rattle.schema.specs.inner.Reading.{children, may_have, forest, trees_from, well_formed, take_branches, drop_branches, OnFirst, IsRead, AreRead, IsFaultOf, IsFaultAmong, IsInside, IsGroupMade, AreTwins, HasTree};
ghost use Rattle.schema.specs.Views.{field_view, field_views};

use crate::annotation::GroupAnnotation;
use crate::building::{leaf, name_of, repetition_of};
use crate::element::Element;
use crate::field::Field;
use crate::value::Repetition;
use bits::{R, Refusal};
use std::alloc::Global;
use std::collections::BTreeSet;

/// A schema has at most this many leaves.
pub const MOST_LEAVES: usize = 1024;

/// At most this many fields are on the path to each leaf of a schema.
const FIELDS_ON_A_PATH: u32 = 32;

/// How many children an element says that it has. A leaf has none.
pub fn children(element: &Element) -> usize
    ensures { result ≡ children (element_view element.now) }
{
    match (element.kind, element.num_children) {
        (None, Some(count)) if count > 0 => count as usize,
        _ => 0,
    }
}

/// How many elements have a type.
pub fn count_typed(elements: &[Element]) -> usize
    ensures { result ≡ count_typed (elements_view elements.now) }
{
    let mut count = 0;
    for element in elements {
        if element.kind.is_some() {
            count += 1;
        }
    }
    count
}

/// Whether no two of the fields have one name. Each name is looked up, in order, among those after it: for n
/// names about n log n comparisons.
pub fn names_differ(alloc: Global, fields: &[Field]) -> R<bool>
    ensures names_differ { IfOk result (λ b. IsTrue b ↔ AllDiffer (names (field_views fields.now))) }
    ensures which { RefusedMemoryOnly result }
{
    let mut behind = BTreeSet::new(alloc);
    let mut at = fields.len();
    while at > 0 {
        at -= 1;
        if !behind.insert(fields[at].name())? {
            return Ok(false);
        }
    }
    Ok(true)
}

/// `count` fields that stand one after the other, the first at this place of the list, and the place
/// after them.
#[cycle(reading)]
pub fn read_fields(
    alloc: Global,
    elements: &[Element],
    at: usize,
    count: usize,
    deep: u32,
) -> R<(Vec<Field>, usize)>
    requires enough { count ≤ count_branches (trees_from at elements.now) }
    requires well_formed { well_formed (elements_view (drop at elements.now)) ≡ true }
    ensures stands { IfOk result (λ x. AreRead deep (take_branches count (trees_from at elements.now)) (field_views x.0.items)) }
    ensures remaining { IfOk result (λ x. trees_from x.1 elements.now ≡ drop_branches count (trees_from at elements.now)) }
    ensures well_formed { IfOk result (λ x. well_formed (elements_view (drop x.1 elements.now)) ≡ true) }
    ensures which { IfErr result (IsFaultAmong deep (take_branches count (trees_from at elements.now))) }
{
    let mut fields = Vec::new(alloc);
    let mut at = at;
    for _ in 0..count {
        let (field, next) = read_field(alloc, elements, at, deep)?;
        fields.push(field)?;
        at = next;
    }
    Ok((fields, at))
}

impl Field {
    /// The name of the field.
    pub fn name(&self) -> &str
        ensures { result.now ≡ name_of (field_view self.now) }
    {
        match self {
            Field::Leaf { name, .. } => name.as_str(),
            Field::Group { name, .. } => name.as_str(),
        }
    }
}

/// The field at a place of the list, with at most `deep` fields on a path, and the place after it.
#[cycle(reading)]
fn read_field(alloc: Global, elements: &[Element], at: usize, deep: u32) -> R<(Field, usize)>
    requires within { at < length elements.now }
    requires well_formed { well_formed (elements_view (drop at elements.now)) ≡ true }
    ensures stands { IfOk result (λ x. OnFirst (trees_from at elements.now) (λ b bs. IsRead deep b (field_view x.0) × (trees_from x.1 elements.now ≡ bs))) }
    ensures well_formed { IfOk result (λ x. well_formed (elements_view (drop x.1 elements.now)) ≡ true) }
    ensures which { IfErr result (λ e. OnFirst (trees_from at elements.now) (λ b bs. IsFaultOf deep b e)) }
{
    let element = &elements[at];
    if deep == 0 {
        return Err(Refusal::Limit);
    }
    let name = name_of(alloc, element)?;
    let Some(repetition) = repetition_of(element.repetition_type) else {
        return Err(Refusal::Schema);
    };
    if let Some(number) = element.kind {
        return Ok((leaf(alloc, element, name, repetition, number)?, at + 1));
    }
    let (fields, next) = match read_fields(alloc, elements, at + 1, children(element), deep - 1) {
        Ok(x) => x,
        Err(e) => return Err(inside(alloc, name.as_str(), e)),
    };
    let field = group(alloc, element, name, repetition, fields)?;
    Ok((field, next))
}

/// The refusal of something inside a group of this name, seen from outside the group: with the name before the path.
fn inside(alloc: Global, name: &str, refusal: Refusal) -> Refusal
    ensures { IsInside name.now refusal result }
{
    match refusal {
        Refusal::Float(path) => match format!(in alloc; "{name}.{path}") {
            Ok(path) => Refusal::Float(path),
            Err(_) => Refusal::Memory,
        },
        Refusal::Int96(path) => match format!(in alloc; "{name}.{path}") {
            Ok(path) => Refusal::Int96(path),
            Err(_) => Refusal::Memory,
        },
        other => other,
    }
}

/// The group of this element, with these fields.
fn group(
    alloc: Global,
    element: &Element,
    name: String,
    repetition: Repetition,
    fields: Vec<Field>,
) -> R<Field>
    ensures stands { IfOk result (λ f. IsGroupMade (element_view element.now) (string_bytes name) repetition (field_views fields.items) (field_view f)) }
    ensures which { RefusedOnly (AreTwins (field_views fields.items)) result }
{
    if !names_differ(alloc, fields.as_slice())? {
        return Err(Refusal::Schema);
    }
    Ok(Field::Group {
        name,
        repetition,
        annotation: GroupAnnotation::of_element(element.converted_type),
        fields,
    })
}

/// The fields of the root of a list of elements.
pub fn fields_of(alloc: Global, elements: &[Element]) -> R<Vec<Field>>
    ensures stands { IfOk result (λ fields. IsSchemaOf (elements_view elements.now) (field_views fields.items)) }
    ensures within { IfOk result (λ fields. IsWithinLimits (field_views fields.items)) }
    ensures shallow { IfOk result (λ fields. tallest (field_views fields.items) ≤ 32) }
    ensures which { IfErr result (HasFault (elements_view elements.now)) }
{
    if !is_tree(elements) {
        return Err(Refusal::Schema);
    }
    if count_typed(elements) > MOST_LEAVES {
        return Err(Refusal::Limit);
    }
    let root = &elements[0];
    let (fields, _) = read_fields(alloc, elements, 1, children(root), FIELDS_ON_A_PATH)?;
    if !names_differ(alloc, fields.as_slice())? {
        return Err(Refusal::Schema);
    }
    Ok(fields)
}

/// Whether the list is one tree, depth first, whose root is a group. Takes no memory.
fn is_tree(elements: &[Element]) -> bool
    ensures { IsTrue result ↔ HasTree (elements_view elements.now) }
{
    let Some((root, _)) = elements.split_first() else {
        return false;
    };
    root.kind.is_none() && count_trees(elements) == Some(1)
}

/// How many trees a list is, one after the other, where each element has the children that it says.
fn count_trees(elements: &[Element]) -> Option<usize>
    ensures counted { let seen = elements_view elements.now in
        MatchOption result (well_formed seen ≡ false) (λ n. (well_formed seen ≡ true) × (n ≡ count_branches (forest seen))) }
{
    let mut trees = 0;
    let mut at = elements.len();
    while at > 0 {
        at -= 1;
        let element = &elements[at];
        let below = children(element);
        if !may_have(element) || trees < below {
            return None;
        }
        trees = trees - below + 1;
    }
    Some(trees)
}

/// Whether an element may say that it has this many children: a leaf none, a group some.
fn may_have(element: &Element) -> bool
    ensures { result ≡ may_have element.now.kind element.now.num_children }
{
    match (element.kind, element.num_children) {
        (Some(_), None) => true,
        (Some(_), Some(count)) => count == 0,
        (None, Some(count)) => count > 0,
        (None, None) => false,
    }
}
