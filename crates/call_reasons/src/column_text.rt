//! A column as text.

use bits::R;
use columns::columns_at;
use jsonrows::schema_to;
use schema::Schema;
use std::alloc::Global;

/// The column at this place of a schema, as the object that it is in the JSON of a schema; none where there is none.
pub fn column_text(alloc: Global, schema: &Schema, place: usize) -> R<Option<String>> {
    let Some(column) = columns_at(alloc, schema, &[place])? else {
        return Ok(None);
    };
    let text = schema_to(alloc, &column)?;
    let object = text.as_str().trim_start_matches('[').trim_end_matches(']');
    Ok(Some(String::from_str(alloc, object)?))
}
