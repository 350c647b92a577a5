//! Schemas, their leaves, and what values fit.

use crate::elements::{elements, places, schema, shown_element};
use crate::key_cases::key_columns;
use crate::kinds::annotated;
use crate::values::{row, value};
use bits::{R, Refusal};
use case_words::{both, part, word, words_from, yes_or_no};
use schema::{
    Annotation, GroupAnnotation, Kind, Leaf, LeafType, Schema, ValueRef, compare, compare_refs,
    same,
};
use smallvec::SmallVec;
use std::alloc::Global;
use std::cmp::Ordering;

/// What a case of this subject gives; None where the operation is of another one.
pub fn outcome(alloc: Global, operation: &str, words: &[&str]) -> Option<R<String>> {
    let outcome = match operation {
        "schema" => of_elements(alloc, words),
        "leaves" => count_leaves(alloc, words),
        "cut" => cut(alloc, words),
        "with-field" => with_field(alloc, words),
        "with-keys" => with_keys(alloc, words),
        "is-front" => is_front(alloc, words),
        "has-keys" => has_keys(alloc, words),
        "fits" => fits(alloc, words),
        "fits-row" => fits_row(alloc, words),
        "compare" => compared(alloc, words),
        "is-same" => is_same(alloc, words),
        "annotation" => annotation(alloc, words),
        "group-annotation" => group_annotation(alloc, words),
        _ => return None,
    };
    Some(outcome)
}

/// A leaf: the names on the path to it, and its greatest repetition and definition level.
fn shown_leaf(alloc: Global, leaf: &Leaf) -> R<String> {
    let mut text = String::from_str(alloc, " ")?;
    for (at, name) in leaf.path.iter().enumerate() {
        if at > 0 {
            text.push('.')?;
        }
        text.push_str(name.as_str())?;
    }
    let (repetition, definition) = (leaf.greatest_repetition, leaf.greatest_definition);
    let levels = format!(in alloc; " {repetition},{definition}")?;
    text.push_str(levels.as_str())?;
    Ok(text)
}

/// The elements of a schema, and its leaves.
pub fn shown_schema(alloc: Global, schema: &Schema) -> R<String> {
    let mut text = String::new(alloc);
    for element in schema.elements() {
        text.push_str(shown_element(alloc, element)?.as_str())?;
        text.push(' ')?;
    }
    text.push_str("with")?;
    for leaf in schema.leaves() {
        text.push_str(shown_leaf(alloc, leaf)?.as_str())?;
    }
    Ok(text)
}

/// `schema ELEMENT..`: the elements of the schema, and its leaves with their levels.
fn of_elements(alloc: Global, words: &[&str]) -> R<String> {
    let schema = schema(alloc, words_from(words, 1))?;
    shown_schema(alloc, &schema)
}

/// `leaves ELEMENT..`: how many leaves and fields the schema has.
fn count_leaves(alloc: Global, words: &[&str]) -> R<String> {
    let schema = schema(alloc, words_from(words, 1))?;
    let (leaves, fields) = (schema.leaves().len(), schema.fields().len());
    Ok(format!(in alloc; "{leaves} leaves in {fields} fields")?)
}

/// `cut ELEMENT.. + LEAF..`: the schema of these leaves.
fn cut(alloc: Global, words: &[&str]) -> R<String> {
    let schema = schema(alloc, part(words, 0))?;
    let places = places(alloc, part(words, 1))?;
    let cut = schema.cut(alloc, places.as_slice())?;
    shown_schema(alloc, &cut)
}

/// `with-field ELEMENT.. + ELEMENT..`: the schema with a field more.
fn with_field(alloc: Global, words: &[&str]) -> R<String> {
    let schema = schema(alloc, part(words, 0))?;
    let field = elements(alloc, part(words, 1))?;
    let more = schema.with_field(alloc, field.as_slice())?;
    shown_schema(alloc, &more)
}

/// `with-keys ELEMENT.. + KEYCOLUMN..`: the schema with the key columns.
fn with_keys(alloc: Global, words: &[&str]) -> R<String> {
    let schema = schema(alloc, part(words, 0))?;
    let keys = key_columns(alloc, part(words, 1))?;
    let table = schema.with_keys(alloc, keys.as_slice())?;
    shown_schema(alloc, &table)
}

/// `is-front ELEMENT.. + ELEMENT..`: whether the other schema has the fields of the first one, and more or none after them.
fn is_front(alloc: Global, words: &[&str]) -> R<String> {
    let front = schema(alloc, part(words, 0))?;
    let whole = schema(alloc, part(words, 1))?;
    yes_or_no(alloc, front.is_front_of(&whole))
}

/// `has-keys ELEMENT.. + KEYCOLUMN..`: whether these are key columns of the schema.
fn has_keys(alloc: Global, words: &[&str]) -> R<String> {
    let schema = schema(alloc, part(words, 0))?;
    let keys = key_columns(alloc, part(words, 1))?;
    yes_or_no(alloc, schema.has_keys(keys.as_slice()))
}

/// A leaf of this type.
fn leaf_of(alloc: Global, kind: Kind, converted_type: Option<i32>) -> Leaf {
    Leaf {
        path: Vec::new(alloc),
        steps: SmallVec::new(alloc),
        leaf_type: LeafType {
            kind,
            annotation: Annotation::of_element(kind, converted_type, None),
            scale: None,
            precision: None,
        },
        greatest_repetition: 0,
        greatest_definition: 0,
    }
}

/// `fits TYPE VALUE`: whether the value is one of a leaf of this type.
fn fits(alloc: Global, words: &[&str]) -> R<String> {
    let (kind, converted) = annotated(word(words, 1)?)?;
    let value = value(alloc, word(words, 2)?)?;
    let leaf = leaf_of(alloc, kind, converted);
    yes_or_no(alloc, leaf.leaf_type.fits(&value))
}

/// `fits-row ELEMENT.. + ROW`: whether the row is one of the schema, and a copy of it one of its fields.
fn fits_row(alloc: Global, words: &[&str]) -> R<String> {
    let schema = schema(alloc, part(words, 0))?;
    let row = row(alloc, part(words, 1))?;
    let copy = row.copied(alloc)?;
    let one = yes_or_no(alloc, schema.fits(&row));
    both(
        alloc,
        one,
        yes_or_no(alloc, schema::fits_row(schema.fields(), &copy)),
    )
}

/// How two values compare.
pub fn shown_ordering(alloc: Global, ordering: Option<Ordering>) -> R<String> {
    let text = match ordering {
        Some(Ordering::Less) => "less",
        Some(Ordering::Equal) => "equal",
        Some(Ordering::Greater) => "greater",
        None => "no order",
    };
    Ok(String::from_str(alloc, text)?)
}

/// `compare TYPE VALUE VALUE`: how the first stands to the second in the order of the type; also as borrowed values.
fn compared(alloc: Global, words: &[&str]) -> R<String> {
    let (kind, converted) = annotated(word(words, 1)?)?;
    let a = value(alloc, word(words, 2)?)?;
    let b = value(alloc, word(words, 3)?)?;
    let leaf = leaf_of(alloc, kind, converted);
    let owned = shown_ordering(alloc, compare(&leaf, &a, &b));
    let borrowed = compare_refs(leaf.leaf_type.order(), ValueRef::of(&a), ValueRef::of(&b));
    both(alloc, owned, shown_ordering(alloc, borrowed))
}

/// `is-same VALUE VALUE`: whether they are the same, and whether each is the same as its copy.
fn is_same(alloc: Global, words: &[&str]) -> R<String> {
    let a = value(alloc, word(words, 1)?)?;
    let b = value(alloc, word(words, 2)?)?;
    let copy = a.copied(alloc)?;
    if !same(&a, &copy) {
        return Ok(String::from_str(alloc, "not its copy")?);
    }
    yes_or_no(alloc, same(&a, &b))
}

/// `annotation KIND NUMBER`: what a leaf of this type with this converted type is annotated with; `none` is no converted type.
fn annotation(alloc: Global, words: &[&str]) -> R<String> {
    let kind = crate::kinds::kind(words, 1)?;
    let converted = match word(words, 2)? {
        "none" => None,
        text => Some(crate::kinds::converted_type(text)?),
    };
    let logical = match words.get(3) {
        Some(text) => crate::elements::element(alloc, text)?.logical_type,
        None => None,
    };
    let annotation = Annotation::of_element(kind, converted, logical);
    let text = match &annotation {
        Annotation::Plain => format!(in alloc; "plain")?,
        Annotation::Known(converted) => format!(in alloc; "{converted:?}")?,
        Annotation::OtherConverted(number) => format!(in alloc; "other {number}")?,
        Annotation::OtherLogical(_) => format!(in alloc; "other struct")?,
    };
    Ok(text)
}

/// `group-annotation NUMBER`: what a group with this converted type is annotated with.
fn group_annotation(alloc: Global, words: &[&str]) -> R<String> {
    let text = match GroupAnnotation::of_element(Some(crate::kinds::converted_type(word(
        words, 1,
    )?)?)) {
        Some(GroupAnnotation::Map) => "map",
        Some(GroupAnnotation::MapKeyValue) => "map_key_value",
        Some(GroupAnnotation::List) => "list",
        None => "none",
    };
    Ok(String::from_str(alloc, text)?)
}
