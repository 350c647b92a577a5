//! Structs that no bytes have.

use crate::schemas::{FieldRow, INT32, REQUIRED, element};
use bits::{R, Refusal};
use schema::Schema;
use std::alloc::Global;
use std::test::*;
use thrift_compact::{ElementType, Field, Node, Tree, has_bytes, write_struct};

/// A struct of one field.
fn tree_of(alloc: Global, id: i16, value: Node) -> R<Tree> {
    let mut fields = Vec::new(alloc);
    fields.push(Field { id, value })?;
    Ok(Tree { fields })
}

/// Whether the struct is refused, and what was written before it stays.
fn is_not_written(alloc: Global, tree: &Tree) -> R<bool> {
    let mut out = Vec::new(alloc);
    out.push(7)?;
    let done = write_struct(tree, &mut out);
    Ok(
        matches!(done, Err(Refusal::Thrift))
            && matches!(out.as_slice(), [7])
            && !has_bytes(tree, 32),
    )
}

/// Whether a list of numbers with a boolean in it is not written.
fn is_mixed(alloc: Global) -> R<bool> {
    let mut values = Vec::new(alloc);
    values.push(Node::I32(1))?;
    values.push(Node::Bool(true))?;
    let tree = tree_of(alloc, 1, Node::List(ElementType::I32, values))?;
    is_not_written(alloc, &tree)
}

#[test]
fn a_list_of_other_values_than_it_says_is_not_written(rt: HostRuntime) -> Result<(), Fail> {
    assert!(rt; is_mixed(rt.alloc())?);
    Ok(())
}

/// The codes of types: of two by their names, of a known and of an unknown one under no name.
const CODES: &[(ElementType, u8)] = &[
    (ElementType::I32, 5),
    (ElementType::Struct, 12),
    (ElementType::Other(5), 21),
    (ElementType::Other(14), 14),
];

/// Whether types have their codes, and a list whose type is a known code under no name is not written.
fn is_no_type(alloc: Global) -> R<bool> {
    let none = Node::List(ElementType::Other(5), Vec::new(alloc));
    let is_refused = is_not_written(alloc, &tree_of(alloc, 1, none)?)?;
    Ok(is_refused && CODES.iter().all(|(kind, code)| kind.code() == *code))
}

#[test]
fn a_known_code_under_no_name_is_no_type(rt: HostRuntime) -> Result<(), Fail> {
    assert!(rt; is_no_type(rt.alloc())?);
    Ok(())
}

/// required int32 x
const ONE_NUMBER: [FieldRow; 2] = [
    ("root", REQUIRED, None, Some(1)),
    ("x", REQUIRED, Some(INT32), None),
];

/// Whether a schema whose leaf keeps a struct that no bytes have is refused.
fn is_not_kept(alloc: Global) -> R<bool> {
    let [root, number] = ONE_NUMBER;
    let mut leaf = element(alloc, number)?;
    leaf.logical_type = Some(tree_of(alloc, 99, Node::Flag(1))?);
    let mut elements = Vec::new(alloc);
    elements.push(element(alloc, root)?)?;
    elements.push(leaf)?;
    let refused = Schema::new(alloc, elements.as_slice());
    Ok(matches!(refused, Err(Refusal::Schema)))
}

#[test]
fn a_schema_keeps_no_struct_that_no_bytes_have(rt: HostRuntime) -> Result<(), Fail> {
    assert!(rt; is_not_kept(rt.alloc())?);
    Ok(())
}
