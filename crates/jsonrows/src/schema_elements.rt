//! The elements that the fields of a schema's text say.

ghost use Rattle.std.specs.Prelude.{◌≡◌, List, length, Some, None, true, IfOk};
ghost use Rattle.bits.specs.Refusals.{OnFault, RefusedOnly};
ghost use Rattle.bits.specs.declared.refusal.Refusal.TheVariants.{Script};
ghost use Rattle.thrift_compact.specs.Tree.{Fields as Struct};
ghost use Rattle.thrift_compact.specs.Compact.{IsThrift};
ghost use Rattle.thrift_compact.specs.View.{tree_view};
ghost use Rattle.schema.specs.Elements.{Element as Listed, element_view, elements_view};
ghost use Rattle.jsonrows.specs.inner.SchemaReading.{kind_of, is_unnamed, IsElementOf, AreElementsOf};
ghost use Rattle.jsonrows.specs.inner.SchemaViews.{said_view, saids};

use bits::{R, Refusal};
use schema::{Annotation, Element, Kind};
use std::alloc::Global;
use thrift_compact::{Tree, one_struct, read_struct};

/// What the object of a field says: its element, and the bytes of the struct of its logicalType.
#[derive(Drop)]
pub struct Said {
    pub element: Element,
    pub logical: Option<Vec<u8>>,
}

/// The elements of what objects say. Refused Script where one of them says no element.
pub fn elements_of(alloc: Global, all: Vec<Said>) -> R<Vec<Element>>
    ensures stands { IfOk result (λ es. AreElementsOf (saids all.items) (elements_view es.items)) }
    ensures only { OnFault result ((es : List Listed) → AreElementsOf (saids all.items) es → ⊥) }
    ensures which { RefusedOnly (λ e. e ≡ Script) result }
{
    let mut elements = Vec::with_capacity(alloc, all.len())?;
    for said in all {
        elements.push(element_of(alloc, said)?)?;
    }
    Ok(elements)
}

/// The element of what an object says. Refused Script where the bytes of its logicalType are no struct, or
/// where it has a name over the type.
fn element_of(alloc: Global, said: Said) -> R<Element>
    ensures stands { IfOk result (λ e. IsElementOf (said_view said) (element_view e)) }
    ensures only { OnFault result ((e : Listed) → IsElementOf (said_view said) e → ⊥) }
    ensures which { RefusedOnly (λ e. e ≡ Script) result }
{
    let Said { element, logical } = said;
    let kind = kind_of(element.kind, element.type_length);
    let logical_type = match logical {
        Some(bytes) => Some(unnamed_struct(alloc, kind, bytes.as_slice())?),
        None => None,
    };
    Ok(Element {
        logical_type,
        ..element
    })
}

/// The struct that bytes are, which has no name over the type of its leaf. Refused Script where they are
/// none, or where it has one.
fn unnamed_struct(alloc: Global, kind: Option<Kind>, bytes: &[u8]) -> R<Tree>
    ensures stands { IfOk result (λ t. IsThrift bytes.now (tree_view t) (length bytes.now)) }
    ensures unnamed { IfOk result (λ t. is_unnamed kind None (Some (tree_view t)) ≡ true) }
    ensures only { OnFault result ((t : Struct) → IsThrift bytes.now t (length bytes.now) → is_unnamed kind None (Some t) ≡ true → ⊥) }
    ensures which { RefusedOnly (λ e. e ≡ Script) result }
{
    one_struct();
    let tree = struct_of(alloc, bytes)?;
    let Some(kind) = kind else {
        return Ok(tree);
    };
    match Annotation::of_element(kind, None, Some(tree)) {
        Annotation::OtherLogical(tree) => Ok(tree),
        _ => Err(Refusal::Script),
    }
}

/// The struct that bytes are. Refused Script where they are none, or not all of them are one.
fn struct_of(alloc: Global, bytes: &[u8]) -> R<Tree>
    ensures stands { IfOk result (λ t. IsThrift bytes.now (tree_view t) (length bytes.now)) }
    ensures only { OnFault result ((t : Struct) → IsThrift bytes.now t (length bytes.now) → ⊥) }
    ensures which { RefusedOnly (λ e. e ≡ Script) result }
{
    one_struct();
    match read_struct(alloc, bytes) {
        Ok((tree, used)) => {
            if used == bytes.len() {
                Ok(tree)
            } else {
                Err(Refusal::Script)
            }
        }
        Err(Refusal::Memory) => Err(Refusal::Memory),
        Err(_) => Err(Refusal::Script),
    }
}

/// The physical type by the numbers of an element, where there is one of ours.
pub fn kind_of(number: Option<i32>, length: Option<i32>) -> Option<Kind>
    ensures { result ≡ kind_of number length }
{
    match number? {
        0 => Some(Kind::Boolean),
        1 => Some(Kind::Int32),
        2 => Some(Kind::Int64),
        6 => Some(Kind::ByteArray),
        7 => match length {
            Some(length) if length > 0 => Some(Kind::FixedLenByteArray(length as u32)),
            _ => None,
        },
        _ => None,
    }
}
