//! What holds of the definitions.

ghost use Rattle.jsonrows.specs.SchemaPrinted.{SchemasReadBack};

/// A text that has the JSON value of a schema says that schema, in any layout.
#[tactic(auto, using(crate::proofs::SchemaTexts::schemas_read_back))]
pub fn schemas_read_back()
    ensures { SchemasReadBack }
{}
