//! The elements of a schema's list, as they are shown.

use crate::inspect_names::{converted_name, name_or_number, repetition_name, type_name};
use crate::inspect_report::FieldReport;
use crate::notes::member_name;
use schema::Element;
use std::alloc::{AllocError, Global};

/// Text as it is, where it is UTF-8; with U+FFFD for what is not.
pub fn shown(alloc: Global, bytes: &[u8]) -> Result<String, AllocError> {
    Ok(String::from_utf8_lossy(alloc, bytes)?)
}

/// A text, where there is one, with U+FFFD for what is not UTF-8.
pub fn shown_where_given(
    alloc: Global,
    bytes: &Option<Vec<u8>>,
) -> Result<Option<String>, AllocError> {
    match bytes {
        Some(bytes) => Ok(Some(shown(alloc, bytes.as_slice())?)),
        None => Ok(None),
    }
}

/// The elements after the root, each with how many groups are around it. The list need not be a tree: where
/// a group announces more children than there are, the list just ends.
pub fn fields_of(alloc: Global, elements: &[Element]) -> Result<Vec<FieldReport>, AllocError> {
    let mut fields = Vec::new(alloc);
    let mut open = Vec::new(alloc);
    for element in elements.iter().skip(1) {
        close_full(&mut open);
        fields.push(field_of(alloc, open.len(), element)?)?;
        if let Some(children) = element.num_children {
            open.push(children)?;
        }
    }
    Ok(fields)
}

/// The name of an element's type, where it has one.
fn kind_of(alloc: Global, element: &Element) -> Result<Option<String>, AllocError> {
    match element.kind {
        Some(number) => Ok(Some(name_or_number(alloc, type_name(number), number)?)),
        None => Ok(None),
    }
}

/// The name of an element's repetition, where it has one.
fn repetition_of(alloc: Global, element: &Element) -> Result<Option<String>, AllocError> {
    match element.repetition_type {
        Some(number) => Ok(Some(name_or_number(alloc, repetition_name(number), number)?)),
        None => Ok(None),
    }
}

/// The name of an element's converted type, where it has one.
fn annotation_of(alloc: Global, element: &Element) -> Result<Option<String>, AllocError> {
    match element.converted_type {
        Some(number) => Ok(Some(name_or_number(alloc, converted_name(number), number)?)),
        None => Ok(None),
    }
}

/// The name of an element's logical type, where it has one: that of the member that is set.
fn logical_of(alloc: Global, element: &Element) -> Result<Option<String>, AllocError> {
    match &element.logical_type {
        Some(tree) => member_name(alloc, tree),
        None => Ok(None),
    }
}

/// An element that has this many groups around it.
fn field_of(alloc: Global, depth: usize, element: &Element) -> Result<FieldReport, AllocError> {
    Ok(FieldReport {
        depth,
        name: shown(alloc, element.name.as_slice())?,
        repetition: repetition_of(alloc, element)?,
        kind: kind_of(alloc, element)?,
        length: element.type_length,
        children: element.num_children,
        annotation: annotation_of(alloc, element)?,
        precision: element.precision,
        scale: element.scale,
        logical_type: logical_of(alloc, element)?,
    })
}

/// Takes away the groups that have all of their children, and counts one child more in the group around.
fn close_full(open: &mut Vec<i32>) {
    for _ in 0..open.len() {
        match open.pop() {
            Some(lacking) if lacking > 0 => {
                // There is room: one was taken away.
                let _ = open.push(lacking - 1);
                return;
            }
            _ => {}
        }
    }
}
