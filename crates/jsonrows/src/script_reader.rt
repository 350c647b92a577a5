//! The lines of a script.

ghost use Rattle.std.specs.Prelude.{◌≡◌, IfOk, IfErr, OnErr, unwrap_or, option_map};
ghost use Rattle.bits.specs.Refusals.{RefusedMemoryOnly};
ghost use Rattle.table.specs.Views.{call_view};
ghost use Rattle.jsonrows.specs.Calls.{IsCallText, IsCallTextAs, IsRefusedCall, IsRefusedCallAs};
ghost use Rattle.jsonrows.specs.Scripts.{next_schema, IsAfter};

use crate::call_reading::call_from_as;
use bits::{R, Refusal};
use schema::Schema;
use std::alloc::Global;
use table::Call;

/// Reads the lines of a script one after another. A line is read over the schema that the table has by then: with the
/// fields of the `add_column` lines before it, except those that the schema cannot take.
#[derive(Drop)]
pub struct ScriptReader {
    schema: Schema,
}

impl ScriptReader {
    /// The table has this schema before the first line.
    pub fn new(schema: Schema) -> ScriptReader
        ensures { next_schema result ≡ schema }
    {
        ScriptReader { schema }
    }

    /// The schema over which the next line is read.
    pub fn schema(&self) -> &Schema
        ensures { result.now ≡ next_schema self.now }
    {
        &self.schema
    }

    /// The call that the next line is, as `call_from` reads it. After a refusal the schema is unchanged, and another line may
    /// be read in place of this one.
    pub fn read(&mut self, alloc: Global, line: &str) -> R<Call>
        ensures stands { IfOk result (λ call. IsCallText (next_schema self.old) line.now (call_view call)) }
        ensures after { IfOk result (λ call. IsAfter (call_view call) (next_schema self.old) (next_schema self.new)) }
        ensures which { IfErr result (IsRefusedCall (next_schema self.old) line.now) }
        ensures unchanged { OnErr result (next_schema self.new ≡ next_schema self.old) }
    {
        self.read_as(alloc, line, false)
    }

    /// The same with `texts`, as `call_from_as` reads the line.
    pub fn read_as(&mut self, alloc: Global, line: &str, texts: bool) -> R<Call>
        ensures stands { IfOk result (λ call. IsCallTextAs texts (next_schema self.old) line.now (call_view call)) }
        ensures after { IfOk result (λ call. IsAfter (call_view call) (next_schema self.old) (next_schema self.new)) }
        ensures which { IfErr result (IsRefusedCallAs texts (next_schema self.old) line.now) }
        ensures unchanged { OnErr result (next_schema self.new ≡ next_schema self.old) }
    {
        let call = call_from_as(alloc, &self.schema, line, texts)?;
        if let Some(schema) = grown(alloc, &self.schema, &call)? {
            self.schema = schema;
        }
        Ok(call)
    }
}

/// The schema after a call, where it is another one.
fn grown(alloc: Global, schema: &Schema, call: &Call) -> R<Option<Schema>>
    ensures after { IfOk result (λ grown. IsAfter (call_view call.now) schema.now (unwrap_or grown schema.now)) }
    ensures which { RefusedMemoryOnly result }
{
    let Call::AddColumn(elements) = call else {
        return Ok(None);
    };
    match schema.with_field(alloc, elements.as_slice()) {
        Ok(grown) => Ok(Some(grown)),
        Err(Refusal::Memory) => Err(Refusal::Memory),
        Err(_) => Ok(None),
    }
}
