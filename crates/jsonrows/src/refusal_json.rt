//! Refusals as JSON values: their names and their numbers.

ghost use Rattle.std.specs.Prelude.{◌≡◌, IfOk};
ghost use Rattle.bits.specs.Refusals.{RefusedMemoryOnly};
ghost use Rattle.serde_json.specs.View.{view};
ghost use Rattle.jsonrows.specs.Answers.{refusal_name, refusal_number, refused_json};

use crate::value_json::{put_member, text_json};
use bits::{R, Refusal};
use serde_json::{Map, Value as Json};
use std::alloc::Global;

/// A refusal as an object of its name and its number, without the path of a field.
pub fn refused_json(alloc: Global, refusal: &Refusal) -> R<Json>
    ensures shown { IfOk result (λ shown. view shown ≡ refused_json refusal.now) }
    ensures which { RefusedMemoryOnly result }
{
    let name = text_json(alloc, refusal_name(refusal))?;
    let number = Json::from(refusal_number(refusal));
    let mut members = Map::new(alloc);
    put_member(&mut members, alloc, "refused", number)?;
    put_member(&mut members, alloc, "name", name)?;
    Ok(Json::Object(members))
}

/// The name of a refusal.
fn refusal_name(refusal: &Refusal) -> &'static str
    ensures { result.now ≡ refusal_name refusal.now }
{
    match refusal {
        Refusal::Truncated => "Truncated",
        Refusal::Magic => "Magic",
        Refusal::Thrift => "Thrift",
        Refusal::Schema => "Schema",
        Refusal::Codec => "Codec",
        Refusal::Float(_) => "Float",
        Refusal::Int96(_) => "Int96",
        Refusal::Encoding => "Encoding",
        Refusal::Page => "Page",
        Refusal::Levels => "Levels",
        Refusal::Value => "Value",
        Refusal::Utf8 => "Utf8",
        Refusal::Limit => "Limit",
        Refusal::RowShape => "RowShape",
        Refusal::NoColumn => "NoColumn",
        Refusal::Unordered => "Unordered",
        Refusal::Key => "Key",
        Refusal::NoGroup => "NoGroup",
        Refusal::Stale => "Stale",
        Refusal::NoJob => "NoJob",
        Refusal::NoCursor => "NoCursor",
        Refusal::Full => "Full",
        Refusal::NoTable => "NoTable",
        Refusal::Exists => "Exists",
        Refusal::Device => "Device",
        Refusal::InDoubt => "InDoubt",
        Refusal::Closed => "Closed",
        Refusal::Memory => "Memory",
        Refusal::Script => "Script",
    }
}

/// The number of a refusal.
fn refusal_number(refusal: &Refusal) -> u32
    ensures { result ≡ refusal_number refusal.now }
{
    match refusal {
        Refusal::Truncated => 1,
        Refusal::Magic => 2,
        Refusal::Thrift => 3,
        Refusal::Schema => 4,
        Refusal::Codec => 5,
        Refusal::Float(_) => 6,
        Refusal::Int96(_) => 7,
        Refusal::Encoding => 8,
        Refusal::Page => 9,
        Refusal::Levels => 10,
        Refusal::Value => 11,
        Refusal::Utf8 => 12,
        Refusal::Limit => 13,
        Refusal::RowShape => 14,
        Refusal::NoColumn => 15,
        Refusal::Unordered => 16,
        Refusal::Key => 17,
        Refusal::NoGroup => 18,
        Refusal::Stale => 19,
        Refusal::NoJob => 20,
        Refusal::NoCursor => 21,
        Refusal::Full => 22,
        Refusal::NoTable => 23,
        Refusal::Exists => 24,
        Refusal::Device => 25,
        Refusal::InDoubt => 26,
        Refusal::Closed => 27,
        Refusal::Memory => 28,
        Refusal::Script => 29,
    }
}
