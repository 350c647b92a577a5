//! The text of a schema.

ghost use Rattle.std.specs.Prelude.{◌≡◌, pos, option_map, length, IfOk, OnOk, string_bytes};
ghost use Rattle.hex.specs.Hex.{IsBytes};
ghost use Rattle.thrift_compact.specs.Compact.{IsThrift};
ghost use Rattle.thrift_compact.specs.View.{tree_view};
ghost use Rattle.thrift_compact.specs.Writable.{HasBytes};
ghost use Rattle.bits.specs.Refusals.{RefusedMemoryOnly};
ghost use Rattle.serde_json.specs.Data.{string, array, Items};
ghost use Rattle.serde_json.specs.View.{view, items_view, members_view};
ghost use Rattle.serde_json.specs.Written.{compact_text};
ghost use Rattle.schema.specs.Annotations.{converted_number};
ghost use Rattle.schema.specs.Law.{IsValid, AreValid, KeepsWritable};
ghost use Rattle.schema.specs.Views.{annotation_view, leaf_type_view, field_view, field_views};
ghost use Rattle.jsonrows.specs.SchemaJson.{IsSchemaText};
ghost use Rattle.jsonrows.specs.SchemaPrinted.{repetition_word, type_word, note_word, group_note_word, integer_json, length_json, note_json, converted_json, logical_json, leaf_json, group_json, PrintsFields, IsShort};
ghost use Rattle.jsonrows.specs.inner.SchemaPrinting.{AreStructBytes, put_each, put_maybe, IsPrintedField, ArePrintedFields, HasShortLeaf};

use bits::R;
use schema::{
    Annotation, ConvertedType, Field, GroupAnnotation, Kind, LeafType, Repetition, Schema,
};
use serde_json::{Map, Value as Json};
use std::alloc::{AllocError, Global};
use thrift_compact::{Tree, write_struct};

/// The text of a schema: a compact JSON array (RFC 8259) of its top-level fields, as `schema_from` reads it,
/// the members of each in the byte order of their names. It fails only when out of memory. Time and memory
/// are linear in the schema.
pub fn schema_to(alloc: Global, schema: &Schema) -> R<String>
    ensures stands { IfOk result (λ text. (ds : Items) × PrintsFields schema.now ds × (string_bytes text ≡ compact_text (array ds))) }
    ensures reads_back { IfOk result (λ text. IsSchemaText (string_bytes text) schema.now) }
    ensures which { RefusedMemoryOnly result }
{
    let _leaves = schema.leaves();
    let fields = fields_json(alloc, schema.fields())?;
    let text = Json::Array(fields).to_string(alloc)?;
    Ok(text)
}

/// The word of a repetition.
fn repetition_word(repetition: Repetition) -> &'static str
    ensures { result.now ≡ repetition_word repetition }
{
    match repetition {
        Repetition::Required => "required",
        Repetition::Optional => "optional",
        Repetition::Repeated => "repeated",
    }
}

/// The word of a physical type.
fn type_word(kind: Kind) -> &'static str
    ensures { result.now ≡ type_word kind }
{
    match kind {
        Kind::Boolean => "boolean",
        Kind::Int32 => "int32",
        Kind::Int64 => "int64",
        Kind::ByteArray => "bytes",
        Kind::FixedLenByteArray(_) => "fixed",
    }
}

/// The word of a converted type.
fn note_word(converted: ConvertedType) -> &'static str
    ensures { result.now ≡ note_word converted }
{
    match converted {
        ConvertedType::Utf8 => "utf8",
        ConvertedType::Enum => "enum",
        ConvertedType::Decimal => "decimal",
        ConvertedType::Date => "date",
        ConvertedType::TimeMillis => "time_millis",
        ConvertedType::TimeMicros => "time_micros",
        ConvertedType::TimestampMillis => "timestamp_millis",
        ConvertedType::TimestampMicros => "timestamp_micros",
        ConvertedType::Uint8 => "uint_8",
        ConvertedType::Uint16 => "uint_16",
        ConvertedType::Uint32 => "uint_32",
        ConvertedType::Uint64 => "uint_64",
        ConvertedType::Int8 => "int_8",
        ConvertedType::Int16 => "int_16",
        ConvertedType::Int32 => "int_32",
        ConvertedType::Int64 => "int_64",
        ConvertedType::Json => "json",
        ConvertedType::Bson => "bson",
        ConvertedType::Interval => "interval",
    }
}

/// The word of a group's annotation.
fn group_note_word(annotation: GroupAnnotation) -> &'static str
    ensures { result.now ≡ group_note_word annotation }
{
    match annotation {
        GroupAnnotation::Map => "map",
        GroupAnnotation::MapKeyValue => "map_key_value",
        GroupAnnotation::List => "list",
    }
}

/// A JSON string.
fn string_json(alloc: Global, text: &str) -> Result<Json, AllocError>
    ensures { IfOk result (λ json. view json ≡ string text.now) }
{
    Ok(Json::String(String::from_str(alloc, text)?))
}

/// A number, where there is one.
fn integer_json(number: Option<i32>) -> Option<Json>
    ensures shown { option_map view result ≡ option_map integer_json number }
    ensures short { IsShort number }
{
    match number {
        Some(number) => Some(Json::from(number)),
        None => None,
    }
}

/// The length of fixed values.
fn length_json(kind: Kind) -> Option<Json>
    ensures { option_map view result ≡ length_json kind }
{
    match kind {
        Kind::FixedLenByteArray(length) => Some(Json::from(length)),
        _ => None,
    }
}

/// The word of an annotation.
fn note_json(alloc: Global, annotation: &Annotation) -> Result<Option<Json>, AllocError>
    ensures { IfOk result (λ note. option_map view note ≡ note_json (annotation_view annotation.now)) }
{
    match annotation {
        Annotation::Plain => Ok(None),
        Annotation::Known(converted) => Ok(Some(string_json(alloc, note_word(*converted))?)),
        Annotation::OtherConverted(_) => Ok(Some(string_json(alloc, "other")?)),
        Annotation::OtherLogical(_) => Ok(Some(string_json(alloc, "other")?)),
    }
}

/// The number of a converted type that has no name over its type.
fn converted_json(annotation: &Annotation) -> Option<Json>
    ensures shown { option_map view result ≡ converted_json (annotation_view annotation.now) }
    ensures short { IsShort (converted_number (annotation_view annotation.now)) }
{
    match annotation {
        Annotation::OtherConverted(number) => integer_json(Some(*number)),
        _ => None,
    }
}

/// The digits of a struct, where the annotation is one.
fn logical_json(
    alloc: Global,
    annotation: &Annotation,
    bytes: &[u8],
) -> Result<Option<Json>, AllocError>
    ensures { IfOk result (λ digits. option_map view digits ≡ logical_json (annotation_view annotation.now) bytes.now) }
{
    match annotation {
        Annotation::OtherLogical(_) => {
            let digits = hex::encode(alloc, bytes)?;
            Ok(Some(Json::String(digits)))
        }
        _ => Ok(None),
    }
}

/// The bytes of a struct that has some.
fn written(alloc: Global, tree: &Tree) -> R<Vec<u8>>
    requires { HasBytes (tree_view tree.now) }
    ensures stands { IfOk result (λ bytes. IsThrift bytes.items (tree_view tree.now) (length bytes.items)) }
    ensures which { RefusedMemoryOnly result }
{
    let mut bytes = Vec::new(alloc);
    write_struct(tree, &mut bytes)?;
    Ok(bytes)
}

/// The bytes of the struct that an annotation keeps; none of another one.
fn struct_bytes(alloc: Global, annotation: &Annotation) -> R<Vec<u8>>
    requires { KeepsWritable (annotation_view annotation.now) }
    ensures stands { IfOk result (λ bytes. AreStructBytes (annotation_view annotation.now) bytes.items) }
    ensures which { RefusedMemoryOnly result }
{
    match annotation {
        Annotation::OtherLogical(tree) => written(alloc, tree),
        _ => Ok(Vec::new(alloc)),
    }
}

/// Puts a member at its name, where there is one.
fn put_member(
    members: &mut Map<String, Json>,
    alloc: Global,
    name: &str,
    member: Option<Json>,
) -> Result<(), AllocError>
    ensures { OnOk result (members_view members.new.entries ≡ put_maybe name.now (option_map view member) (members_view members.old.entries)) }
{
    match member {
        Some(json) => serde_json::put(members, alloc, name, json),
        None => Ok(()),
    }
}

/// The object of a leaf, the bytes of whose struct are given.
fn leaf_json(
    alloc: Global,
    name: &str,
    repetition: Repetition,
    leaf_type: &LeafType,
    bytes: &[u8],
) -> Result<Map<String, Json>, AllocError>
    ensures shown { IfOk result (λ members. members_view members.entries ≡ put_each (leaf_json name.now repetition (leaf_type_view leaf_type.now) bytes.now)) }
    ensures short { OnOk result (HasShortLeaf (leaf_type_view leaf_type.now)) }
    ensures bytes { OnOk result (IsBytes bytes.now) }
{
    let annotation = &leaf_type.annotation;
    let kind = string_json(alloc, type_word(leaf_type.kind))?;
    let repetition = string_json(alloc, repetition_word(repetition))?;
    let name = string_json(alloc, name)?;
    let note = note_json(alloc, annotation)?;
    let logical = logical_json(alloc, annotation, bytes)?;
    let mut members = Map::new(alloc);
    put_member(&mut members, alloc, "type", Some(kind))?;
    put_member(&mut members, alloc, "scale", integer_json(leaf_type.scale))?;
    put_member(&mut members, alloc, "rep", Some(repetition))?;
    put_member(
        &mut members,
        alloc,
        "precision",
        integer_json(leaf_type.precision),
    )?;
    put_member(&mut members, alloc, "note", note)?;
    put_member(&mut members, alloc, "name", Some(name))?;
    put_member(&mut members, alloc, "logical", logical)?;
    put_member(&mut members, alloc, "length", length_json(leaf_type.kind))?;
    put_member(&mut members, alloc, "converted", converted_json(annotation))?;
    Ok(members)
}

/// The object of a group, whose fields are given.
fn group_json(
    alloc: Global,
    name: &str,
    repetition: Repetition,
    annotation: Option<GroupAnnotation>,
    fields: Vec<Json>,
) -> Result<Map<String, Json>, AllocError>
    ensures { IfOk result (λ members. members_view members.entries ≡ put_each (group_json name.now repetition annotation (items_view fields.items))) }
{
    let repetition = string_json(alloc, repetition_word(repetition))?;
    let note = match annotation {
        Some(annotation) => Some(string_json(alloc, group_note_word(annotation))?),
        None => None,
    };
    let name = string_json(alloc, name)?;
    let mut members = Map::new(alloc);
    put_member(&mut members, alloc, "rep", Some(repetition))?;
    put_member(&mut members, alloc, "note", note)?;
    put_member(&mut members, alloc, "name", Some(name))?;
    put_member(&mut members, alloc, "fields", Some(Json::Array(fields)))?;
    Ok(members)
}

/// The object of a field.
#[cycle(fields)]
fn field_json(alloc: Global, field: &Field) -> R<Json>
    requires { IsValid (field_view field.now) }
    ensures printed { IfOk result (λ json. IsPrintedField (field_view field.now) (view json)) }
    ensures which { RefusedMemoryOnly result }
{
    match field {
        Field::Leaf {
            name,
            repetition,
            leaf_type,
        } => {
            let bytes = struct_bytes(alloc, &leaf_type.annotation)?;
            let members = leaf_json(
                alloc,
                name.as_str(),
                *repetition,
                leaf_type,
                bytes.as_slice(),
            )?;
            Ok(Json::Object(members))
        }
        Field::Group {
            name,
            repetition,
            annotation,
            fields,
        } => {
            let below = fields_json(alloc, fields.as_slice())?;
            let members = group_json(alloc, name.as_str(), *repetition, *annotation, below)?;
            Ok(Json::Object(members))
        }
    }
}

/// The objects of some fields, in their order.
#[cycle(fields)]
fn fields_json(alloc: Global, fields: &[Field]) -> R<Vec<Json>>
    requires { AreValid (field_views fields.now) }
    ensures printed { IfOk result (λ all. ArePrintedFields (field_views fields.now) (items_view all.items)) }
    ensures which { RefusedMemoryOnly result }
{
    let mut all = Vec::with_capacity(alloc, fields.len())?;
    for field in fields {
        all.push(field_json(alloc, field)?)?;
    }
    Ok(all)
}
