//! The description of a table with a column more.

ghost use Rattle.std.specs.Prelude.{IfOk, IfErr};
ghost use Rattle.schema.specs.Elements.{elements_view};
ghost use Rattle.schema.specs.Growing.{IsColumnFault};
ghost use Rattle.manifest.specs.Groups.{root_of};
ghost use Rattle.table_changes.specs.Widening.{IsWidened};

use bits::R;
use manifest::Manifest;
use schema::Element;
use std::alloc::Global;

/// The description of the table with one field more, at the end of its schema: the one that these elements are.
///
/// Refused as [`Schema::with_field`](schema::Schema::with_field) refuses the elements.
pub(crate) fn widened(alloc: Global, table: &Manifest, elements: &[Element]) -> R<Manifest>
    ensures made { IfOk result (λ m. IsWidened (root_of table.now) (elements_view elements.now) (root_of m)) }
    ensures which { IfErr result (IsColumnFault (root_of table.now).schema (elements_view elements.now)) }
{
    let schema = table.schema().with_field(alloc, elements)?;
    // For the proof: the keys are columns of the old schema, and so of the new one, whose table can have the groups.
    let _ = table.keys();
    let _ = table.groups();
    let manifest = table.with_schema(alloc, schema)?;
    Ok(manifest)
}
