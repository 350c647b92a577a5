//! What a field says of the meaning of its values: `parquet.thrift`, ConvertedType and LogicalType.

ghost use Rattle.std.specs.Prelude.{◌≡◌, pos, option_map};
ghost use Rattle.thrift_compact.specs.View.{tree_view};
ghost use Rattle.schema.specs.Annotations.{number_of, converted_type, group_number_of, numbered, named, is_only_member, annotation_of, group_annotation_of, is_text, order_of};
ghost use Rattle.schema.specs.Views.{annotation_view, leaf_type_view};

use crate::order::{Order, Standing, plain_order, standing_of};
use crate::value::Kind;
use thrift_compact::{Node, Tree};

/// The member of the union LogicalType that says STRING.
const STRING: i16 = 1;

const CONVERTED_TYPES: [ConvertedType; 19] = [
    ConvertedType::Utf8,
    ConvertedType::Enum,
    ConvertedType::Decimal,
    ConvertedType::Date,
    ConvertedType::TimeMillis,
    ConvertedType::TimeMicros,
    ConvertedType::TimestampMillis,
    ConvertedType::TimestampMicros,
    ConvertedType::Uint8,
    ConvertedType::Uint16,
    ConvertedType::Uint32,
    ConvertedType::Uint64,
    ConvertedType::Int8,
    ConvertedType::Int16,
    ConvertedType::Int32,
    ConvertedType::Int64,
    ConvertedType::Json,
    ConvertedType::Bson,
    ConvertedType::Interval,
];

const GROUP_ANNOTATIONS: [GroupAnnotation; 3] = [
    GroupAnnotation::Map,
    GroupAnnotation::MapKeyValue,
    GroupAnnotation::List,
];

/// The converted types that the values of a leaf may have (`parquet.thrift`, ConvertedType).
#[derive(Debug, Clone, Copy, PartialEq, Eq)]
pub enum ConvertedType {
    Utf8,
    Enum,
    Decimal,
    Date,
    TimeMillis,
    TimeMicros,
    TimestampMillis,
    TimestampMicros,
    Uint8,
    Uint16,
    Uint32,
    Uint64,
    Int8,
    Int16,
    Int32,
    Int64,
    Json,
    Bson,
    Interval,
}

/// The converted types that a group may have.
#[derive(Debug, Clone, Copy, PartialEq, Eq)]
pub enum GroupAnnotation {
    Map,
    MapKeyValue,
    List,
}

/// What a leaf says of the meaning of its values, decided once, when its schema is read.
#[derive(Debug, Drop)]
pub enum Annotation {
    /// It says nothing.
    Plain,
    /// A converted type that is known over the leaf's physical type.
    Known(ConvertedType),
    /// A converted type that is not known over the leaf's physical type, by its number.
    OtherConverted(i32),
    /// The struct of a logicalType that has no converted type next to it.
    OtherLogical(Tree),
}

/// What the values of a leaf are.
#[derive(Debug, Drop)]
pub struct LeafType {
    pub kind: Kind,
    pub annotation: Annotation,
    /// Kept as it is next to the annotation. It means something to DECIMAL only.
    pub scale: Option<i32>,
    /// Kept as it is next to the annotation. It means something to DECIMAL only.
    pub precision: Option<i32>,
}

impl ConvertedType {
    /// Its number in `parquet.thrift`.
    pub fn number(self) -> i32
        ensures { result ≡ pos (number_of self) }
    {
        match self {
            ConvertedType::Utf8 => 0,
            ConvertedType::Enum => 4,
            ConvertedType::Decimal => 5,
            ConvertedType::Date => 6,
            ConvertedType::TimeMillis => 7,
            ConvertedType::TimeMicros => 8,
            ConvertedType::TimestampMillis => 9,
            ConvertedType::TimestampMicros => 10,
            ConvertedType::Uint8 => 11,
            ConvertedType::Uint16 => 12,
            ConvertedType::Uint32 => 13,
            ConvertedType::Uint64 => 14,
            ConvertedType::Int8 => 15,
            ConvertedType::Int16 => 16,
            ConvertedType::Int32 => 17,
            ConvertedType::Int64 => 18,
            ConvertedType::Json => 19,
            ConvertedType::Bson => 20,
            ConvertedType::Interval => 21,
        }
    }

    /// The converted type of a leaf that has this number.
    #[tactic(auto, unfolding(crate::specs::Annotations::converted_type))]
    fn of_number(number: i32) -> Option<ConvertedType>
        ensures { result ≡ converted_type number }
    {
        with_number(&CONVERTED_TYPES, number)
    }
}

/// The first of the converted types that has this number.
fn with_number(types: &[ConvertedType], number: i32) -> Option<ConvertedType>
    ensures { result ≡ numbered number_of number types.now }
{
    for converted in types {
        if converted.number() == number {
            return Some(*converted);
        }
    }
    None
}

impl GroupAnnotation {
    /// Its number in `parquet.thrift`, ConvertedType.
    pub fn number(self) -> i32
        ensures { result ≡ pos (group_number_of self) }
    {
        match self {
            GroupAnnotation::Map => 1,
            GroupAnnotation::MapKeyValue => 2,
            GroupAnnotation::List => 3,
        }
    }

    /// What a group is annotated with by this converted type: MAP, MAP_KEY_VALUE and LIST count, all
    /// else is not looked at.
    pub fn of_element(converted_type: Option<i32>) -> Option<GroupAnnotation>
        ensures { result ≡ group_annotation_of converted_type }
    {
        let number = converted_type?;
        for annotation in GROUP_ANNOTATIONS {
            if annotation.number() == number {
                return Some(annotation);
            }
        }
        None
    }
}

/// Whether the union has only the member STRING, which is a struct.
#[tactic(auto, using(crate::proofs::Members::many_members))]
fn is_string(logical_type: &Tree) -> bool
    ensures { result ≡ is_only_member 1 (tree_view logical_type.now) }
{
    match logical_type.fields.as_slice() {
        [member] => member.id == STRING && matches!(member.value, Node::Struct(_)),
        _ => false,
    }
}

impl Annotation {
    /// A converted type by its name where it is known over the physical type, and else by its number.
    fn of_number(kind: Kind, number: i32) -> Annotation
        ensures { annotation_view result ≡ named kind number (converted_type number) }
    {
        match ConvertedType::of_number(number) {
            Some(converted) => match standing_of(kind, converted) {
                Standing::Unknown => Annotation::OtherConverted(number),
                Standing::Unordered | Standing::Ordered(_) => Annotation::Known(converted),
            },
            None => Annotation::OtherConverted(number),
        }
    }

    /// What a leaf of this type is annotated with by these two fields of its element. A converted type
    /// counts before a logicalType; STRING over BYTE_ARRAY is UTF8.
    pub fn of_element(
        kind: Kind,
        converted_type: Option<i32>,
        logical_type: Option<Tree>,
    ) -> Annotation
        ensures { annotation_view result ≡ annotation_of kind converted_type (option_map tree_view logical_type) }
    {
        match (converted_type, logical_type) {
            (Some(number), _) => Annotation::of_number(kind, number),
            (None, Some(tree)) => {
                if kind == Kind::ByteArray && is_string(&tree) {
                    Annotation::Known(ConvertedType::Utf8)
                } else {
                    Annotation::OtherLogical(tree)
                }
            }
            (None, None) => Annotation::Plain,
        }
    }
}

impl LeafType {
    /// How its values are ordered, where they are. Takes no memory.
    pub fn order(&self) -> Option<Order>
        ensures { result ≡ order_of (leaf_type_view self.now) }
    {
        match &self.annotation {
            Annotation::Plain => Some(plain_order(self.kind)),
            Annotation::Known(converted) => match standing_of(self.kind, *converted) {
                Standing::Ordered(order) => Some(order),
                _ => None,
            },
            _ => None,
        }
    }

    /// Whether its values are text, which is UTF-8: UTF8, ENUM and JSON. Takes no memory.
    pub fn is_text(&self) -> bool
        ensures { result ≡ is_text self.now.kind (annotation_view self.now.annotation) }
    {
        self.kind == Kind::ByteArray
            && matches!(
                self.annotation,
                Annotation::Known(ConvertedType::Utf8 | ConvertedType::Enum | ConvertedType::Json)
            )
    }
}
