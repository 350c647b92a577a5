//! The text of a row.

ghost use Rattle.std.specs.Prelude.{◌≡◌, ◌⊎◌, false, IfOk, IfErr, OnOk, IsTrue, string_bytes};
ghost use Rattle.bits.specs.declared.refusal.Refusal.TheVariants.{Memory, RowShape};
ghost use Rattle.schema.specs.Fits.{fits_each};
ghost use Rattle.schema.specs.Views.{row_view};
ghost use Rattle.rowtext.specs.Json.{row_text};

use crate::kept_rows::put_object;
use crate::line::Line;
use crate::row_plan::RowPlan;
use bits::{R, Refusal};
use schema::{Row, Schema};
use std::alloc::{AllocError, Global};

/// The text of a row of the schema: a compact JSON object, whose members stand in the byte order of
/// their names. Refused RowShape where the row does not fit. Time and memory are linear in the row and the
/// schema, with a look-up of each name among its siblings; for many rows keep a `RowPlan` and a `RowText`.
pub fn row_to(alloc: Global, schema: &Schema, row: &Row) -> R<String>
    ensures stands { IfOk result (λ text. string_bytes text ≡ row_text schema.now (row_view row.now)) }
    ensures fits { OnOk result (IsTrue (fits_each schema.now (row_view row.now))) }
    ensures which { IfErr result (λ e. (e ≡ Memory) ⊎ ((e ≡ RowShape) × (fits_each schema.now (row_view row.now) ≡ false))) }
{
    if !schema.fits(row) {
        return Err(Refusal::RowShape);
    }
    let plan = RowPlan::new(alloc, schema)?;
    let mut text = Line::new(alloc);
    put_object(plan.slots(), plan.order(), row.values.as_slice(), &mut text)?;
    Ok(text_from(text.into_vec())?)
}

/// The text of bytes that are UTF-8. It is tested, since no proof says so of what was printed.
fn text_from(bytes: Vec<u8>) -> Result<String, AllocError>
    ensures { IfOk result (λ text. string_bytes text ≡ bytes.items) }
{
    match String::from_utf8(bytes) {
        Ok(text) => Ok(text),
        Err(_) => Err(AllocError),
    }
}
