//! Calls from JSON text.

ghost use Rattle.std.specs.Prelude.{◌≡◌, ◌≤◌, Bool, Ok, Err, IfOk, IfErr};
ghost use Rattle.bits.specs.Refusals.{RefusedOnly};
ghost use Rattle.serde_json.specs.Data.{depth};
ghost use Rattle.serde_json.specs.View.{view};
ghost use Rattle.schema.specs.Shape.{Fields};
ghost use Rattle.table.specs.Views.{call_view};
ghost use Rattle.jsonrows.specs.declared.call_form.Form.TheVariants.{AddColumn};
ghost use Rattle.jsonrows.specs.Calls.{form_of, call_by_as, IsCallAs, IsCallText, IsCallTextAs, IsRefusedValueAs, IsRefusedCall, IsRefusedCallAs};

use crate::call_form::{Form, form_of};
use crate::call_members::{bytes_at, columns_at, filter_at, natural_at, numbers_at, rows_at};
use crate::schema_reading::elements_of_field;
use bits::{R, Refusal};
use rowtext::json_of;
use schema::Schema;
use serde_json::Value as Json;
use std::alloc::Global;
use table::Call;

/// The call that a text is: a JSON object (RFC 8259) whose member `call` names it, with exactly the members of its form.
///
/// `append` has `rows`; `stage` has `job` and `rows`; `commit`, `abort` and `step_rewrite` have `job`; `remove` and `count`
/// have `filter`; `remove_groups` and `begin_rewrite` have `numbers`; `plan_rewrite` has `min_rows`; `query` has `filter`, and
/// `columns`, names or null; `fetch` and `close` have `cursor`; `import` has `bytes`, hexadecimal digits in lower case;
/// `add_column` has `field`, as in the text of a schema; `begin_append`, `groups` and `reopen` have no other member. Rows and
/// filters are read as `row_from` and `filter_from` read them, over the schema of the table. Whether the store takes the call
/// is for it to say.
///
/// Refused for the first fault, in the order of these members: Script where the text is no JSON or not of this form;
/// RowShape for a row that is none of the schema, or a value of a filter that its leaf cannot hold. Time and memory are
/// linear in the text, with a look-up of each name, and for each term in the names of the leaves.
pub fn call_from(alloc: Global, schema: &Schema, text: &str) -> R<Call>
    ensures stands { IfOk result (λ call. IsCallText schema.now text.now (call_view call)) }
    ensures which { IfErr result (IsRefusedCall schema.now text.now) }
{
    call_from_as(alloc, schema, text, false)
}

/// The call that a text is, as [`call_from`] reads it, under the same refusals; with `texts`, dates, times, timestamps and
/// decimals over INT32 and INT64 in rows and filters are also read from their texts.
pub fn call_from_as(alloc: Global, schema: &Schema, text: &str, texts: bool) -> R<Call>
    ensures stands { IfOk result (λ call. IsCallTextAs texts schema.now text.now (call_view call)) }
    ensures which { IfErr result (IsRefusedCallAs texts schema.now text.now) }
{
    let json = json_of(alloc, text)?;
    call_in(alloc, schema, &json, texts)
}

/// The call that a JSON value is.
fn call_in(alloc: Global, schema: &Schema, json: &Json, texts: bool) -> R<Call>
    requires { depth (view json.now) ≤ 127 }
    ensures stands { IfOk result (λ call. IsCallAs texts schema.now (view json.now) (call_view call)) }
    ensures which { IfErr result (IsRefusedValueAs texts schema.now (view json.now)) }
{
    let form = form_of(json)?;
    match form {
        Form::AddColumn => new_column(alloc, json),
        _ => call_by(alloc, schema, json, form, texts),
    }
}

/// The call that adds a column.
fn new_column(alloc: Global, json: &Json) -> R<Call>
    requires nests { depth (view json.now) ≤ 127 }
    requires formed { form_of (view json.now) ≡ Ok AddColumn }
    ensures stands { IfOk result (λ call. (texts : Bool) (fs : Fields) → IsCallAs texts fs (view json.now) (call_view call)) }
    ensures which { IfErr result (λ e. (texts : Bool) (fs : Fields) → IsRefusedValueAs texts fs (view json.now) e) }
{
    let Some(field) = json.get("field") else {
        return Err(Refusal::Script);
    };
    let elements = elements_of_field(alloc, field)?;
    Ok(Call::AddColumn(elements))
}

/// The call of a form, but for that of a new column.
fn call_by(alloc: Global, schema: &Schema, json: &Json, form: Form, texts: bool) -> R<Call>
    ensures made { IfOk result (λ call. call_by_as texts schema.now (view json.now) form ≡ Ok (call_view call)) }
    ensures which { RefusedOnly (λ e. call_by_as texts schema.now (view json.now) form ≡ Err e) result }
{
    match form {
        Form::Append => Ok(Call::Append(rows_at(alloc, schema, json, texts)?)),
        Form::BeginAppend => Ok(Call::BeginAppend),
        Form::Stage => {
            let job = natural_at(json, "job")?;
            Ok(Call::Stage(job, rows_at(alloc, schema, json, texts)?))
        }
        Form::Commit => Ok(Call::Commit(natural_at(json, "job")?)),
        Form::Abort => Ok(Call::Abort(natural_at(json, "job")?)),
        Form::Remove => Ok(Call::Remove(filter_at(alloc, schema, json, texts)?)),
        Form::RemoveGroups => Ok(Call::RemoveGroups(numbers_at(alloc, json)?)),
        Form::BeginRewrite => Ok(Call::BeginRewrite(numbers_at(alloc, json)?)),
        Form::StepRewrite => Ok(Call::StepRewrite(natural_at(json, "job")?)),
        Form::PlanRewrite => Ok(Call::PlanRewrite(natural_at(json, "min_rows")?)),
        Form::Query => {
            let terms = filter_at(alloc, schema, json, texts)?;
            Ok(Call::Query(terms, columns_at(alloc, json)?))
        }
        Form::Fetch => Ok(Call::Fetch(natural_at(json, "cursor")?)),
        Form::Close => Ok(Call::Close(natural_at(json, "cursor")?)),
        Form::Groups => Ok(Call::Groups),
        Form::Count => Ok(Call::Count(filter_at(alloc, schema, json, texts)?)),
        Form::Import => Ok(Call::Import(bytes_at(alloc, json)?)),
        Form::AddColumn => Err(Refusal::Script),
        Form::Reopen => Ok(Call::Reopen),
    }
}
