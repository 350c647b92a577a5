//! Random schemas and rows, by a number that is the seed.

use bits::R;
use schema::{Element, Field, Kind, LeafType, Repetition, Row, Schema, Value};
use std::alloc::Global;

/// As `parquet.thrift` numbers them: Type, and the ConvertedType of text.
const KINDS: [i32; 5] = [0, 1, 2, 6, 7];

const FIXED_LEN_BYTE_ARRAY: i32 = 7;

const BYTE_ARRAY: i32 = 6;

const UTF8: i32 = 0;

/// A linear congruential generator (Knuth's MMIX).
#[derive(Debug, Drop)]
pub struct Random {
    pub state: u64,
}

impl Random {
    /// A number below this one, or 0.
    pub fn below(&mut self, bound: u16) -> u16 {
        self.state = self
            .state
            .wrapping_mul(6364136223846793005)
            .wrapping_add(1442695040888963407);
        let bits = u16::try_from(self.state >> 48).unwrap_or(0);
        bits.checked_rem(bound).unwrap_or(0)
    }

    /// An index below this length, or 0.
    pub fn index(&mut self, length: usize) -> usize {
        usize::from(self.below(u16::try_from(length).unwrap_or(u16::MAX)))
    }
}

/// A group where it has children, and a leaf of a random type otherwise. It is called by its number.
fn element(alloc: Global, random: &mut Random, number: usize, children: i32) -> R<Element> {
    let name = format!(in alloc; "{number}")?;
    let kind = *KINDS.get(random.index(5)).unwrap_or(&1);
    let is_leaf = children == 0;
    Ok(Element {
        kind: is_leaf.then_some(kind),
        type_length: (is_leaf && kind == FIXED_LEN_BYTE_ARRAY).then_some(2),
        repetition_type: Some(i32::from(random.below(3))),
        name: Vec::from_slice(alloc, name.as_bytes())?,
        num_children: (!is_leaf).then_some(children),
        converted_type: (is_leaf && kind == BYTE_ARRAY && random.below(2) == 0).then_some(UTF8),
        scale: None,
        precision: None,
        field_id: None,
        logical_type: None,
    })
}

/// How many children the element of this number has, where so many groups lack some; a leaf has none.
fn children_of(random: &mut Random, number: usize, waiting: usize) -> i32 {
    match number {
        0 => 3,
        1..40 if waiting < 6 && random.below(3) == 0 => i32::from(random.below(3)) + 1,
        _ => 0,
    }
}

/// A random schema, nested at most six deep: `open` holds how many children each open group still lacks.
pub fn random_schema(alloc: Global, random: &mut Random) -> R<Schema> {
    let mut elements = Vec::new(alloc);
    let mut open: Vec<i32> = Vec::new(alloc);
    for number in 0..200 {
        let children = children_of(random, number, open.len());
        elements.push(element(alloc, random, number, children)?)?;
        if children > 0 {
            open.push(children)?;
        } else {
            close(&mut open)?;
        }
        if open.is_empty() {
            break;
        }
    }
    Schema::new(alloc, elements.as_slice())
}

/// A child is complete, and so is each group whose last child it is.
fn close(open: &mut Vec<i32>) -> R<()> {
    for _ in 0..8 {
        match open.pop() {
            Some(left) if left > 1 => {
                open.push(left.wrapping_sub(1))?;
                return Ok(());
            }
            Some(_) => {}
            None => return Ok(()),
        }
    }
    Ok(())
}

/// A random value of a leaf.
fn random_leaf(alloc: Global, random: &mut Random, leaf_type: &LeafType) -> R<Value> {
    let letters = [b'a', b'b', b'c'];
    Ok(match leaf_type.kind {
        Kind::Boolean => Value::Bool(random.below(2) == 0),
        Kind::Int32 | Kind::Int64 => Value::Int(i64::from(random.below(1000))),
        Kind::ByteArray => {
            let (some, _) = letters.split_at(random.index(4).min(3));
            Value::Bytes(Vec::from_slice(alloc, some)?)
        }
        Kind::FixedLenByteArray(_) => Value::Bytes(Vec::from_slice(alloc, [0, 255].as_slice())?),
    })
}

/// What a field's value is, its repetition aside.
#[cycle(values)]
fn random_inside(alloc: Global, random: &mut Random, field: &Field) -> R<Value> {
    match field {
        Field::Leaf { leaf_type, .. } => random_leaf(alloc, random, leaf_type),
        Field::Group { fields, .. } => {
            let values = random_values(alloc, random, fields.as_slice())?;
            Ok(Value::Group(values))
        }
    }
}

/// A random value of a field.
#[cycle(values)]
fn random_value(alloc: Global, random: &mut Random, field: &Field) -> R<Value> {
    match field.repetition() {
        Repetition::Required => random_inside(alloc, random, field),
        Repetition::Optional if random.below(3) == 0 => Ok(Value::Null),
        Repetition::Optional => random_inside(alloc, random, field),
        Repetition::Repeated => {
            let mut items = Vec::new(alloc);
            for _ in 0..random.below(4) {
                items.push(random_inside(alloc, random, field)?)?;
            }
            Ok(Value::List(items))
        }
    }
}

/// Random values of fields.
#[cycle(values)]
fn random_values(alloc: Global, random: &mut Random, fields: &[Field]) -> R<Vec<Value>> {
    let mut values = Vec::new(alloc);
    for field in fields {
        values.push(random_value(alloc, random, field)?)?;
    }
    Ok(values)
}

/// Fewer random rows than this.
pub fn random_rows(alloc: Global, random: &mut Random, schema: &Schema, below: u16) -> R<Vec<Row>> {
    let mut rows = Vec::new(alloc);
    for _ in 0..random.below(below) {
        let values = random_values(alloc, random, schema.fields())?;
        rows.push(Row { values })?;
    }
    Ok(rows)
}
