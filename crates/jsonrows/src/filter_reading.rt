//! The terms of a filter that a text is.

ghost use Rattle.std.specs.Prelude.{◌≡◌, Ok, Err, map, option_map, IfOk, IfErr, string_bytes};
ghost use Rattle.bits.specs.Refusals.{RefusedOnly};
ghost use Rattle.bits.specs.declared.refusal.Refusal.TheVariants.{RowShape};
ghost use Rattle.serde_json.specs.View.{view};
ghost use Rattle.schema.specs.Stripe.{leaves_of};
ghost use Rattle.schema.specs.Values.{view as value_view};
ghost use Rattle.schema.specs.Views.{leaf_view, leaf_type_view};
ghost use Rattle.filter.specs.Terms.{names_of, term_view, terms_view, each_of};
ghost use Rattle.leaftext.specs.Forms.{form_if};
ghost use Rattle.rowtext.specs.Reading.{leaf_read_as};
ghost use Rattle.jsonrows.specs.Filters.{name_of, column_of, operator_named, operator_of, leaf_named, is_of_kind};
ghost use Rattle.jsonrows.specs.Filters.{is_kind_of_bytes, is_of_formed_kind, is_of_kind_as};
ghost use Rattle.jsonrows.specs.Filters.{by_kind, or_fault, single_value_as, value_of_as, term_by_as, term_in_as, term_of_as, and_of_as, are_triple, is_triple, filter_in_as, filter_of_as};
ghost use Rattle.jsonrows.specs.Filters.{IsFilterText, IsFilterTextAs, IsRefusedFilter, IsRefusedFilterAs};

use bits::{R, Refusal};
use filter::{Op, Term, is_path};
use rowtext::{form_if, json_of, leaf_from_as};
use schema::{Kind, Leaf, LeafType, Schema, Value};
use serde_json::Value as Json;
use std::alloc::Global;

/// The operators, by their words.
const OPERATORS: [(&str, Op); 9] = [
    ("==", Op::Equal),
    ("=", Op::Equal),
    ("!=", Op::NotEqual),
    ("<", Op::Less),
    ("<=", Op::LessOrEqual),
    (">", Op::Greater),
    (">=", Op::GreaterOrEqual),
    ("in", Op::In),
    ("not in", Op::NotIn),
];

/// The terms of a filter over the leaves of a schema, as `Filter::new` takes them: an OR of ANDs.
///
/// The text is a JSON array (RFC 8259) of ANDs, each an array of triples `[column, operator, value]`, or an
/// array of triples, which are one AND. A column is a top-level name, or an array of the names on the path to
/// it. The operators are `==` or `=`, `!=`, `<`, `<=`, `>`, `>=`, `in` and `not in`. A value is read as in the
/// rows of its leaf; where its JSON kind is another one, or the column is no leaf, by its kind: text as its
/// bytes, and an array as a list of values that are each read in this same way. Whether the leaf takes such a
/// value is for `Filter::new` to say.
///
/// Refused for the first fault: Script where the text is no JSON or not of this form, or has an object or a
/// number that no i64 holds as such a value; RowShape for a value of its leaf's kind that the leaf cannot hold.
/// Time and memory are linear in the text and, for each term, in the names of the leaves.
pub fn filter_from(alloc: Global, schema: &Schema, text: &str) -> R<Vec<Vec<Term>>>
    ensures stands { IfOk result (λ ands. IsFilterText (leaves_of schema.now) text.now (terms_view ands.items)) }
    ensures which { IfErr result (IsRefusedFilter (leaves_of schema.now) text.now) }
{
    filter_from_as(alloc, schema, text, false)
}

/// The terms of a filter over the leaves of a schema, as [`filter_from`] reads them, under the same refusals; with `texts`,
/// values of dates, times, timestamps and decimals over INT32 and INT64 are also read from their texts.
pub fn filter_from_as(alloc: Global, schema: &Schema, text: &str, texts: bool) -> R<Vec<Vec<Term>>>
    ensures stands { IfOk result (λ ands. IsFilterTextAs texts (leaves_of schema.now) text.now (terms_view ands.items)) }
    ensures which { IfErr result (IsRefusedFilterAs texts (leaves_of schema.now) text.now) }
{
    let json = json_of(alloc, text)?;
    filter_of(alloc, schema.leaves(), &json, texts)
}

/// The operator of a word, where it is one of these.
fn operator_named(words: &[(&str, Op)], word: &str) -> Option<Op>
    ensures { result ≡ operator_named (map (λ w. (w.0.now, w.1)) words.now) word.now }
{
    for (known, operator) in words {
        if *known == word {
            return Some(*operator);
        }
    }
    None
}

/// The operator that a JSON value is.
fn operator_of(json: &Json) -> R<Op>
    ensures made { IfOk result (λ operator. operator_of (view json.now) ≡ Ok operator) }
    ensures which { IfErr result (λ e. operator_of (view json.now) ≡ Err e) }
{
    match json {
        Json::String(word) => match operator_named(&OPERATORS, word.as_str()) {
            Some(operator) => Ok(operator),
            None => Err(Refusal::Script),
        },
        _ => Err(Refusal::Script),
    }
}

/// The name that a JSON value is.
fn name_of(alloc: Global, json: &Json) -> R<String>
    ensures made { IfOk result (λ name. name_of (view json.now) ≡ Ok (string_bytes name)) }
    ensures which { RefusedOnly (λ e. name_of (view json.now) ≡ Err e) result }
{
    match json {
        Json::String(name) => Ok(String::from_str(alloc, name.as_str())?),
        _ => Err(Refusal::Script),
    }
}

/// The names that JSON values are.
pub fn names_from(alloc: Global, items: &[Json]) -> R<Vec<String>>
    ensures made { IfOk result (λ names. each_of name_of (map view items.now) ≡ Ok (names_of names.items)) }
    ensures which { RefusedOnly (λ e. each_of name_of (map view items.now) ≡ Err e) result }
{
    let mut names = Vec::with_capacity(alloc, items.len())?;
    for item in items {
        let name = name_of(alloc, item)?;
        names.push(name)?;
    }
    Ok(names)
}

/// The column that a JSON value is: a top-level name, or the names on the path to it.
fn column_of(alloc: Global, json: &Json) -> R<Vec<String>>
    ensures made { IfOk result (λ names. column_of (view json.now) ≡ Ok (names_of names.items)) }
    ensures which { RefusedOnly (λ e. column_of (view json.now) ≡ Err e) result }
{
    match json {
        Json::String(name) => {
            let name = String::from_str(alloc, name.as_str())?;
            let names = vec![in alloc; name]?;
            Ok(names)
        }
        Json::Array(items) => names_from(alloc, items.as_slice()),
        _ => Err(Refusal::Script),
    }
}

/// The type of the leaf with these names on the path to it.
fn leaf_named<'a>(leaves: &'a [Leaf], names: &[String]) -> Option<&'a LeafType>
    ensures { option_map (λ t. leaf_type_view t.now) result ≡ leaf_named (map leaf_view leaves.now) (names_of names.now) }
{
    for leaf in leaves {
        if is_path(leaf.path.as_slice(), names) {
            return Some(&leaf.leaf_type);
        }
    }
    None
}

/// Whether a JSON value is of the kind in which rows have values of this physical type.
fn is_of_kind(kind: Kind, json: &Json) -> bool
    ensures { result ≡ is_of_kind kind (view json.now) }
{
    matches!(
        (kind, json),
        (Kind::Boolean, Json::Bool(_))
            | (Kind::Int32 | Kind::Int64, Json::Number(_))
            | (
                Kind::ByteArray | Kind::FixedLenByteArray(_),
                Json::String(_)
            )
    )
}

/// Whether values of this physical type are bytes.
fn is_kind_of_bytes(kind: Kind) -> bool
    ensures { result ≡ is_kind_of_bytes kind }
{
    matches!(kind, Kind::ByteArray | Kind::FixedLenByteArray(_))
}

/// The same where the values have texts: a string too, and an object where they are bytes.
fn is_of_formed_kind(kind: Kind, json: &Json) -> bool
    ensures { result ≡ is_of_formed_kind kind (view json.now) }
{
    match json {
        Json::String(_) => true,
        Json::Object(_) => is_kind_of_bytes(kind),
        Json::Null | Json::Bool(_) | Json::Number(_) | Json::Array(_) => is_of_kind(kind, json),
    }
}

/// The same for a leaf, with texts or without.
fn is_of_kind_as(texts: bool, leaf_type: &LeafType, json: &Json) -> bool
    ensures { result ≡ is_of_kind_as (form_if texts (leaf_type_view leaf_type.now)) leaf_type.now.kind (view json.now) }
{
    match form_if(texts, leaf_type) {
        Some(_) => is_of_formed_kind(leaf_type.kind, json),
        None => is_of_kind(leaf_type.kind, json),
    }
}

/// A value by its JSON kind: text as its bytes, a number as an integer.
fn by_kind(alloc: Global, json: &Json) -> R<Value>
    ensures made { IfOk result (λ value. by_kind (view json.now) ≡ Ok (value_view value)) }
    ensures which { RefusedOnly (λ e. by_kind (view json.now) ≡ Err e) result }
{
    match json {
        Json::Null => Ok(Value::Null),
        Json::Bool(boolean) => Ok(Value::Bool(*boolean)),
        Json::Number(number) => match number.as_i64() {
            Some(number) => Ok(Value::Int(number)),
            None => Err(Refusal::Script),
        },
        Json::String(text) => Ok(Value::Bytes(Vec::from_slice(alloc, text.as_bytes())?)),
        Json::Array(_) => Err(Refusal::Script),
        Json::Object(_) => Err(Refusal::Script),
    }
}

/// A value of a leaf. Refused RowShape where the leaf cannot have it.
fn leaf_value(alloc: Global, leaf_type: &LeafType, json: &Json, texts: bool) -> R<Value>
    ensures made { IfOk result (λ value. or_fault RowShape (leaf_read_as texts (leaf_type_view leaf_type.now) (view json.now)) ≡ Ok (value_view value)) }
    ensures which { RefusedOnly (λ e. or_fault RowShape (leaf_read_as texts (leaf_type_view leaf_type.now) (view json.now)) ≡ Err e) result }
{
    let json = json.clone()?;
    match leaf_from_as(alloc, leaf_type, json, texts)? {
        Some(value) => Ok(value),
        None => Err(Refusal::RowShape),
    }
}

/// A value that is no list: as in the rows of its leaf, or by its kind.
fn single_value(alloc: Global, leaf_type: Option<&LeafType>, json: &Json, texts: bool) -> R<Value>
    ensures made { IfOk result (λ value. single_value_as texts (option_map (λ t. leaf_type_view t.now) leaf_type.entry) (view json.now) ≡ Ok (value_view value)) }
    ensures which { RefusedOnly (λ e. single_value_as texts (option_map (λ t. leaf_type_view t.now) leaf_type.entry) (view json.now) ≡ Err e) result }
{
    match leaf_type {
        Some(leaf_type) => {
            if is_of_kind_as(texts, leaf_type, json) {
                leaf_value(alloc, leaf_type, json, texts)
            } else {
                by_kind(alloc, json)
            }
        }
        None => by_kind(alloc, json),
    }
}

/// The value of a term, at its leaf where there is one.
#[cycle(values)]
fn value_of(alloc: Global, leaf_type: Option<&LeafType>, json: &Json, texts: bool) -> R<Value>
    ensures made { IfOk result (λ value. value_of_as texts (option_map (λ t. leaf_type_view t.now) leaf_type.entry) (view json.now) ≡ Ok (value_view value)) }
    ensures which { RefusedOnly (λ e. value_of_as texts (option_map (λ t. leaf_type_view t.now) leaf_type.entry) (view json.now) ≡ Err e) result }
{
    match json {
        Json::Array(items) => {
            let values = values_of(alloc, leaf_type, items.as_slice(), texts)?;
            Ok(Value::List(values))
        }
        Json::Null | Json::Bool(_) | Json::Number(_) | Json::String(_) | Json::Object(_) => {
            single_value(alloc, leaf_type, json, texts)
        }
    }
}

/// The values of a list.
#[cycle(values)]
fn values_of(
    alloc: Global,
    leaf_type: Option<&LeafType>,
    items: &[Json],
    texts: bool,
) -> R<Vec<Value>>
    ensures made { IfOk result (λ values. each_of (value_of_as texts (option_map (λ t. leaf_type_view t.now) leaf_type.entry)) (map view items.now) ≡ Ok
        (map value_view values.items)) }
    ensures which { RefusedOnly (λ e. each_of (value_of_as texts (option_map (λ t. leaf_type_view t.now) leaf_type.entry)) (map view items.now) ≡ Err e) result }
{
    let mut values = Vec::with_capacity(alloc, items.len())?;
    for item in items {
        let value = value_of(alloc, leaf_type, item, texts)?;
        values.push(value)?;
    }
    Ok(values)
}

/// The term of a column, an operator and a value.
fn term_by(
    alloc: Global,
    leaves: &[Leaf],
    column: &Json,
    operator: &Json,
    value: &Json,
    texts: bool,
) -> R<Term>
    ensures made { IfOk result (λ term. term_by_as texts (map leaf_view leaves.now) (view column.now) (view operator.now) (view value.now) ≡ Ok (term_view term)) }
    ensures which { RefusedOnly (λ e. term_by_as texts (map leaf_view leaves.now) (view column.now) (view operator.now) (view value.now) ≡ Err e) result }
{
    let column = column_of(alloc, column)?;
    let op = operator_of(operator)?;
    let leaf_type = leaf_named(leaves, column.as_slice());
    let value = value_of(alloc, leaf_type, value, texts)?;
    Ok(Term { column, op, value })
}

/// The term of some members, of which there are to be three.
fn term_in(alloc: Global, leaves: &[Leaf], members: &[Json], texts: bool) -> R<Term>
    ensures made { IfOk result (λ term. term_in_as texts (map leaf_view leaves.now) (map view members.now) ≡ Ok (term_view term)) }
    ensures which { RefusedOnly (λ e. term_in_as texts (map leaf_view leaves.now) (map view members.now) ≡ Err e) result }
{
    match members {
        [column, operator, value] => term_by(alloc, leaves, column, operator, value, texts),
        _ => Err(Refusal::Script),
    }
}

/// The term that a JSON value is.
fn term_of(alloc: Global, leaves: &[Leaf], json: &Json, texts: bool) -> R<Term>
    ensures made { IfOk result (λ term. term_of_as texts (map leaf_view leaves.now) (view json.now) ≡ Ok (term_view term)) }
    ensures which { RefusedOnly (λ e. term_of_as texts (map leaf_view leaves.now) (view json.now) ≡ Err e) result }
{
    match json {
        Json::Array(members) => term_in(alloc, leaves, members.as_slice(), texts),
        _ => Err(Refusal::Script),
    }
}

/// The terms of an AND.
fn terms_of(alloc: Global, leaves: &[Leaf], items: &[Json], texts: bool) -> R<Vec<Term>>
    ensures made { IfOk result (λ terms. each_of (term_of_as texts (map leaf_view leaves.now)) (map view items.now) ≡ Ok (map term_view terms.items)) }
    ensures which { RefusedOnly (λ e. each_of (term_of_as texts (map leaf_view leaves.now)) (map view items.now) ≡ Err e) result }
{
    let mut terms = Vec::with_capacity(alloc, items.len())?;
    for item in items {
        let term = term_of(alloc, leaves, item, texts)?;
        terms.push(term)?;
    }
    Ok(terms)
}

/// The AND that a JSON value is.
fn and_of(alloc: Global, leaves: &[Leaf], json: &Json, texts: bool) -> R<Vec<Term>>
    ensures made { IfOk result (λ terms. and_of_as texts (map leaf_view leaves.now) (view json.now) ≡ Ok (map term_view terms.items)) }
    ensures which { RefusedOnly (λ e. and_of_as texts (map leaf_view leaves.now) (view json.now) ≡ Err e) result }
{
    match json {
        Json::Array(items) => terms_of(alloc, leaves, items.as_slice(), texts),
        _ => Err(Refusal::Script),
    }
}

/// The ANDs that JSON values are.
fn ands_of(alloc: Global, leaves: &[Leaf], items: &[Json], texts: bool) -> R<Vec<Vec<Term>>>
    ensures made { IfOk result (λ ands. each_of (and_of_as texts (map leaf_view leaves.now)) (map view items.now) ≡ Ok (terms_view ands.items)) }
    ensures which { RefusedOnly (λ e. each_of (and_of_as texts (map leaf_view leaves.now)) (map view items.now) ≡ Err e) result }
{
    let mut ands = Vec::with_capacity(alloc, items.len())?;
    for item in items {
        let terms = and_of(alloc, leaves, item, texts)?;
        ands.push(terms)?;
    }
    Ok(ands)
}

/// Whether there are three members, of which the second is a text.
fn are_triple(members: &[Json]) -> bool
    ensures { result ≡ are_triple (map view members.now) }
{
    match members {
        [_, operator, _] => matches!(operator, Json::String(_)),
        _ => false,
    }
}

/// Whether a JSON value is a triple: an array of three members, of which the second is a text.
fn is_triple(json: &Json) -> bool
    ensures { result ≡ is_triple (view json.now) }
{
    match json {
        Json::Array(members) => are_triple(members.as_slice()),
        _ => false,
    }
}

/// The ANDs that the members of an array are: triples are one AND.
fn filter_in(alloc: Global, leaves: &[Leaf], items: &[Json], texts: bool) -> R<Vec<Vec<Term>>>
    ensures made { IfOk result (λ ands. filter_in_as texts (map leaf_view leaves.now) (map view items.now) ≡ Ok (terms_view ands.items)) }
    ensures which { RefusedOnly (λ e. filter_in_as texts (map leaf_view leaves.now) (map view items.now) ≡ Err e) result }
{
    match items {
        [] => Ok(Vec::new(alloc)),
        [first, ..] => {
            if is_triple(first) {
                let terms = terms_of(alloc, leaves, items, texts)?;
                let ands = vec![in alloc; terms]?;
                Ok(ands)
            } else {
                ands_of(alloc, leaves, items, texts)
            }
        }
    }
}

/// The filter that a JSON value is.
pub fn filter_of(alloc: Global, leaves: &[Leaf], json: &Json, texts: bool) -> R<Vec<Vec<Term>>>
    ensures made { IfOk result (λ ands. filter_of_as texts (map leaf_view leaves.now) (view json.now) ≡ Ok (terms_view ands.items)) }
    ensures which { RefusedOnly (λ e. filter_of_as texts (map leaf_view leaves.now) (view json.now) ≡ Err e) result }
{
    match json {
        Json::Array(items) => filter_in(alloc, leaves, items.as_slice(), texts),
        _ => Err(Refusal::Script),
    }
}
