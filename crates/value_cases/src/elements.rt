//! Elements of a schema, and how they are written: `?name:int32@uint_32` is an OPTIONAL leaf, `*name/2` a REPEATED group of
//! two children, a name with no mark is REQUIRED. `~` and bytes give a leaf a logicalType. `0..4:int32` stands for the leaves
//! `0` to `3`, and `3*name/1` for the same element three times.

use crate::kinds::{converted_name, converted_type};
use bits::{R, Refusal};
use case_words::{bytes_of, hexed, natural, range, repeated, small};
use schema::{Element, Schema};
use std::alloc::Global;
use thrift_compact::{Tree, read_struct, write_struct};

/// The names of the physical types (`parquet.thrift`, Type), by their numbers.
const TYPES: [&str; 8] = [
    "boolean", "int32", "int64", "int96", "float", "double", "bytes", "fixed",
];

/// The number of a physical type, by its name.
fn type_number(text: &str) -> R<i32> {
    for (number, name) in (0..8_i32).zip(TYPES.iter()) {
        if *name == text {
            return Ok(number);
        }
    }
    Err(Refusal::Script)
}

/// The name of a physical type.
fn type_name(number: i32) -> &'static str {
    for (known, name) in (0..8_i32).zip(TYPES.iter()) {
        if known == number {
            return *name;
        }
    }
    "unknown"
}

/// An element of this name and repetition, without a type and children.
fn plain_element(alloc: Global, name: &str, repetition: i32) -> R<Element> {
    Ok(Element {
        kind: None,
        type_length: None,
        repetition_type: Some(repetition),
        name: Vec::from_slice(alloc, name.as_bytes())?,
        num_children: None,
        converted_type: None,
        scale: None,
        precision: None,
        field_id: None,
        logical_type: None,
    })
}

/// The struct of these bytes.
fn tree(alloc: Global, text: &str) -> R<Tree> {
    let bytes = bytes_of(alloc, text)?;
    let (tree, _) = read_struct(alloc, &bytes)?;
    Ok(tree)
}

/// Gives a leaf its type, and what it is annotated with: `int32`, `fixed:12` or `bytes@utf8`.
fn put_type(element: &mut Element, text: &str) -> R<()> {
    let (name, annotation) = match text.split_once('@') {
        Some((name, annotation)) => (name, Some(converted_type(annotation)?)),
        None => (text, None),
    };
    element.converted_type = annotation;
    match name.strip_prefix("fixed:") {
        Some(size) => {
            element.kind = Some(7);
            element.type_length = Some(small(size)?);
        }
        None => element.kind = Some(type_number(name)?),
    }
    Ok(())
}

/// The repetition that a mark names, and what follows it.
fn marked(text: &str) -> (i32, &str) {
    if let Some(rest) = text.strip_prefix('?') {
        return (1, rest);
    }
    match text.strip_prefix('*') {
        Some(rest) => (2, rest),
        None => (0, text),
    }
}

/// An element.
pub fn element(alloc: Global, text: &str) -> R<Element> {
    let (repetition, text) = marked(text);
    let (text, logical) = match text.split_once('~') {
        Some((text, bytes)) => (text, Some(tree(alloc, bytes)?)),
        None => (text, None),
    };
    let mut made = match (text.split_once(':'), text.split_once('/')) {
        (Some((name, kind)), _) => {
            let mut leaf = plain_element(alloc, name, repetition)?;
            put_type(&mut leaf, kind)?;
            leaf
        }
        (None, Some((name, children))) => {
            let mut group = plain_element(alloc, name, repetition)?;
            group.num_children = Some(small(children)?);
            group
        }
        (None, None) => plain_element(alloc, text, repetition)?,
    };
    made.logical_type = logical;
    Ok(made)
}

/// Appends the element of a text, or the leaves that `0..4:int32` stands for.
fn push_elements(alloc: Global, text: &str, elements: &mut Vec<Element>) -> R<()> {
    let (repetition, rest) = marked(text);
    if let Some((names, kind)) = rest.split_once(':') {
        if let Some((low, high)) = range(names) {
            for number in low..high {
                let name = format!(in alloc; "{number}")?;
                let mut leaf = plain_element(alloc, name.as_str(), repetition)?;
                put_type(&mut leaf, kind)?;
                elements.push(leaf)?;
            }
            return Ok(());
        }
    }
    elements.push(element(alloc, text)?)?;
    Ok(())
}

/// The elements of the words.
pub fn elements(alloc: Global, words: &[&str]) -> R<Vec<Element>> {
    let mut elements = Vec::new(alloc);
    for word in words {
        let (times, text) = repeated(word);
        for _ in 0..times {
            push_elements(alloc, text, &mut elements)?;
        }
    }
    Ok(elements)
}

/// The schema of the words.
pub fn schema(alloc: Global, words: &[&str]) -> R<Schema> {
    let elements = elements(alloc, words)?;
    Schema::new(alloc, elements.as_slice())
}

/// The places of the words, as leaves of a schema.
pub fn places(alloc: Global, words: &[&str]) -> R<Vec<usize>> {
    let mut places = Vec::new(alloc);
    for word in words {
        places.push(natural(word)? as usize)?;
    }
    Ok(places)
}

/// Appends the logicalType of a leaf.
fn put_logical(alloc: Global, text: &mut String, tree: &Tree) -> R<()> {
    let mut bytes = Vec::new(alloc);
    write_struct(tree, &mut bytes)?;
    text.push('~')?;
    text.push_str(hexed(alloc, bytes.as_slice())?.as_str())?;
    Ok(())
}

/// Appends the type of a leaf, or the number of children of a group.
fn put_content(alloc: Global, text: &mut String, element: &Element) -> R<()> {
    if let Some(kind) = element.kind {
        text.push(':')?;
        text.push_str(type_name(kind))?;
    }
    if let Some(size) = element.type_length {
        text.push_str(format!(in alloc; ":{size}")?.as_str())?;
    }
    if let Some(children) = element.num_children {
        text.push_str(format!(in alloc; "/{children}")?.as_str())?;
    }
    if let Some(number) = element.converted_type {
        text.push('@')?;
        text.push_str(converted_name(number))?;
    }
    if let Some(tree) = &element.logical_type {
        put_logical(alloc, text, tree)?;
    }
    Ok(())
}

/// An element, as cases write it.
pub fn shown_element(alloc: Global, element: &Element) -> R<String> {
    let mut text = String::new(alloc);
    match element.repetition_type {
        Some(1) => text.push('?')?,
        Some(2) => text.push('*')?,
        _ => {}
    }
    match std::str::from_utf8(element.name.as_slice()) {
        Ok(name) => text.push_str(name)?,
        Err(_) => text.push_str("no text")?,
    }
    put_content(alloc, &mut text, element)?;
    Ok(text)
}
