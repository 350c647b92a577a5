//! How the values of leaves are ordered: `parquet.thrift`, ColumnOrder.

ghost use Rattle.std.specs.Prelude.{◌≡◌};
ghost use Rattle.schema.specs.Values.{view};
ghost use Rattle.schema.specs.Borrowed.{value_ref_view};
ghost use Rattle.schema.specs.Annotations.{standing, plain_order};
ghost use Rattle.schema.specs.Orders.{unsigned_cmp, compared};
ghost use Rattle.schema.specs.Views.{leaf_order};

use crate::annotation::ConvertedType;
use crate::borrowed::ValueRef;
use crate::field::Leaf;
use crate::value::{Kind, Value};
use std::cmp::Ordering;

/// The length of INTERVAL's values in bytes (LogicalTypes.md).
const INTERVAL_LENGTH: u32 = 12;

/// An order of values.
#[derive(Debug, Clone, Copy, PartialEq, Eq)]
pub enum Order {
    /// As signed numbers.
    Signed,
    /// As the unsigned numbers of the same bits.
    Unsigned,
    /// False before true.
    FalseFirst,
    /// As unsigned bytes, lexicographic: a prefix comes before what it is a prefix of.
    Bytewise,
}

/// What a converted type is over a physical type.
#[derive(Debug, Clone, Copy, PartialEq, Eq)]
pub enum Standing {
    /// It is not known there.
    Unknown,
    /// It is known there, and its values have no order.
    Unordered,
    /// It is known there, and its values have this order.
    Ordered(Order),
}

/// The pairs of a physical type and a converted type that are known, and their orders.
pub fn standing_of(kind: Kind, converted: ConvertedType) -> Standing
    ensures { result ≡ standing kind converted }
{
    match kind {
        Kind::Boolean => Standing::Unknown,
        Kind::Int32 => over_int32(converted),
        Kind::Int64 => over_int64(converted),
        Kind::ByteArray => over_byte_array(converted),
        Kind::FixedLenByteArray(length) => match converted {
            ConvertedType::Decimal => Standing::Unordered,
            ConvertedType::Interval if length == INTERVAL_LENGTH => Standing::Unordered,
            _ => Standing::Unknown,
        },
    }
}

fn over_int32(converted: ConvertedType) -> Standing
    ensures { result ≡ standing Kind.Int32 converted }
{
    match converted {
        ConvertedType::Decimal
        | ConvertedType::Date
        | ConvertedType::TimeMillis
        | ConvertedType::Int8
        | ConvertedType::Int16
        | ConvertedType::Int32 => Standing::Ordered(Order::Signed),
        ConvertedType::Uint8 | ConvertedType::Uint16 | ConvertedType::Uint32 => {
            Standing::Ordered(Order::Unsigned)
        }
        _ => Standing::Unknown,
    }
}

fn over_int64(converted: ConvertedType) -> Standing
    ensures { result ≡ standing Kind.Int64 converted }
{
    match converted {
        ConvertedType::Decimal
        | ConvertedType::TimeMicros
        | ConvertedType::TimestampMillis
        | ConvertedType::TimestampMicros
        | ConvertedType::Int64 => Standing::Ordered(Order::Signed),
        ConvertedType::Uint64 => Standing::Ordered(Order::Unsigned),
        _ => Standing::Unknown,
    }
}

fn over_byte_array(converted: ConvertedType) -> Standing
    ensures { result ≡ standing Kind.ByteArray converted }
{
    match converted {
        ConvertedType::Utf8 | ConvertedType::Enum | ConvertedType::Json | ConvertedType::Bson =>
            Standing::Ordered(Order::Bytewise),
        ConvertedType::Decimal => Standing::Unordered,
        _ => Standing::Unknown,
    }
}

/// The order of values without annotation.
pub fn plain_order(kind: Kind) -> Order
    ensures { result ≡ plain_order kind }
{
    match kind {
        Kind::Boolean => Order::FalseFirst,
        Kind::Int32 | Kind::Int64 => Order::Signed,
        Kind::ByteArray | Kind::FixedLenByteArray(_) => Order::Bytewise,
    }
}

/// How two borrowed values compare in an order. There is no answer without an order, nor where a value is
/// null or of a type that the order does not compare. Takes no memory, and time linear in the bytes.
pub fn compare_refs(order: Option<Order>, a: ValueRef<'_>, b: ValueRef<'_>) -> Option<Ordering>
    ensures { result ≡ compared order (value_ref_view a.entry) (value_ref_view b.entry) }
{
    match (order?, a, b) {
        (Order::Signed, ValueRef::Int(a), ValueRef::Int(b)) => Some(a.cmp(&b)),
        (Order::Unsigned, ValueRef::Int(a), ValueRef::Int(b)) => Some(compare_unsigned(a, b)),
        (Order::FalseFirst, ValueRef::Bool(a), ValueRef::Bool(b)) => Some(a.cmp(&b)),
        (Order::Bytewise, ValueRef::Bytes(a), ValueRef::Bytes(b)) => Some(a.cmp(b)),
        _ => None,
    }
}

/// Compares as the unsigned numbers of the same bits.
fn compare_unsigned(a: i64, b: i64) -> Ordering
    ensures { result ≡ unsigned_cmp a b }
{
    match (a < 0, b < 0) {
        (false, true) => Ordering::Less,
        (true, false) => Ordering::Greater,
        _ => a.cmp(&b),
    }
}

/// How two values compare in an order, as [`compare_refs`].
pub fn compare_by(order: Option<Order>, a: &Value, b: &Value) -> Option<Ordering>
    ensures { result ≡ compared order (view a.now) (view b.now) }
{
    compare_refs(order, ValueRef::of(a), ValueRef::of(b))
}

/// How two values of a leaf compare. There is no answer where the leaf has no order, nor where a value
/// is null or of another type. Takes no memory, and time linear in the bytes.
pub fn compare(leaf: &Leaf, a: &Value, b: &Value) -> Option<Ordering>
    ensures { result ≡ compared (leaf_order leaf.now) (view a.now) (view b.now) }
{
    compare_by(leaf.leaf_type.order(), a, b)
}
