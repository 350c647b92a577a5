//! Structs that are written piece by piece, without a tree of the whole.

ghost use Rattle.std.specs.Prelude.{◌≡◌, ℕ, ◌<◌, ℤ, List, [], ◌++◌, map, IfOk, OnOk};
ghost use Rattle.bits.specs.Refusals.{RefusedOnly, RefusedMemoryOnly};
ghost use Rattle.thrift_compact.specs.Tree.{Node};
ghost use Rattle.thrift_compact.specs.View.{code_of, field_view, field_views, fields_of};
ghost use Rattle.thrift_compact.specs.Length.{AppendsStruct};
ghost use Rattle.thrift_compact.specs.Shapes.{fields_have_shape, IsShapeless};
ghost use Rattle.thrift_compact.specs.Piecewise.{BeginsStruct, BeginsList, AppendsRest, last_of, last_id};

use crate::heads::{put_field_head, put_list_head};
use crate::tree::{DEEPEST, ElementType, Field};
use crate::writing::put_field;
use bits::R;

/// The code of a field that is a list.
const LIST: u8 = 9;

/// Writes more fields of a struct at the end of `out`, which is begun there and whose last field has the
/// id `previous`, 0 if it has none, and returns the id of the last field then. Values nest at most 32
/// levels.
///
/// Refused as [`write_struct`](crate::write_struct) is. After a refusal `out` may have more bytes.
pub fn put_next_fields(previous: i16, fields: &[Field], out: &mut Vec<u8>) -> R<i16>
    ensures stands { OnOk result ((fs : List (ℤ × Node)) (old : List ℕ) → previous ≡ last_of fs → BeginsStruct fs old out.old.items
        → BeginsStruct (fs ++ map field_view fields.now) old out.new.items) }
    ensures last { IfOk result (λ last. last ≡ last_id (field_views fields.now) previous) }
    ensures which { RefusedOnly (IsShapeless (fields_have_shape 32 (field_views fields.now))) result }
{
    let mut last = previous;
    for field in fields {
        put_field(last, field, DEEPEST, out)?;
        last = field.id;
    }
    Ok(last)
}

/// Writes the start of a field that is a list of `size` elements at the end of `out`: its elements are to
/// follow.
pub fn put_list_start(
    previous: i16,
    id: i16,
    kind: ElementType,
    size: usize,
    out: &mut Vec<u8>,
) -> R<()>
    requires { code_of kind < 16 }
    ensures stands { OnOk result ((fs : List (ℤ × Node)) (old : List ℕ) → previous ≡ last_of fs → BeginsStruct fs old out.old.items
        → BeginsList fs id (code_of kind) size [] old out.new.items) }
    ensures which { RefusedMemoryOnly result }
{
    put_field_head(previous, id, LIST, out)?;
    put_list_head(kind.code(), size, out)
}

/// Ends a struct that is begun at the end of `out`.
pub fn put_end(out: &mut Vec<u8>) -> R<()>
    ensures stands { OnOk result ((fs : List (ℤ × Node)) (old : List ℕ) → BeginsStruct fs old out.old.items → AppendsStruct (fields_of fs) old out.new.items) }
    ensures which { RefusedMemoryOnly result }
{
    Ok(out.push(0)?)
}

/// Writes the rest of a struct at the end of `out`: these fields, as those after a field of the id `previous`, and
/// the byte that ends it. Values nest at most 32 levels. So a struct can be kept without its first field, and be
/// written again behind another one ([`structs_are_written_in_pieces`](crate::structs_are_written_in_pieces)).
///
/// Refused as [`write_struct`](crate::write_struct) is. After a refusal `out` may have more bytes.
pub fn put_rest(previous: i16, fields: &[Field], out: &mut Vec<u8>) -> R<()>
    ensures stands { OnOk result (AppendsRest (field_views fields.now) previous out.old.items out.new.items) }
    ensures which { RefusedOnly (IsShapeless (fields_have_shape 32 (field_views fields.now))) result }
{
    let mut last = previous;
    for field in fields {
        put_field(last, field, DEEPEST, out)?;
        last = field.id;
    }
    Ok(out.push(0)?)
}
