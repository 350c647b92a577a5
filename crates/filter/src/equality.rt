//! Equality of values.

ghost use Rattle.std.specs.Prelude.{◌≡◌};
ghost use Rattle.schema.specs.Borrowed.{value_ref_view};
ghost use Rattle.schema.specs.Values.{view, views};
ghost use Rattle.filter.specs.Same.{same, same_each, is_listed};

use schema::{Value, ValueRef};

/// Whether two values are equal.
pub fn same(a: &Value, b: &Value) -> bool
    ensures { result ≡ same (view a.now) (view b.now) }
{
    same_as(ValueRef::of(a), b)
}

/// Whether a borrowed value is equal to another one.
pub fn same_as(a: ValueRef<'_>, b: &Value) -> bool
    ensures { result ≡ same (value_ref_view a.entry) (view b.now) }
{
    match (a, b) {
        (ValueRef::Int(a), Value::Int(b)) => a == *b,
        (ValueRef::Bytes(a), Value::Bytes(b)) => a == b.as_slice(),
        (ValueRef::Bool(a), Value::Bool(b)) => a == *b,
        (ValueRef::Null, Value::Null) => true,
        (ValueRef::Group(a), Value::Group(b)) => are_same(a, b.as_slice()),
        (ValueRef::List(a), Value::List(b)) => are_same(a, b.as_slice()),
        _ => false,
    }
}

/// Whether there are as many values, and each is equal to the other one at its index.
fn are_same(a: &[Value], b: &[Value]) -> bool
    ensures { result ≡ same_each (views a.now) (views b.now) }
{
    if a.len() != b.len() {
        return false;
    }
    for i in 0..a.len() {
        if !schema::same(&a[i], &b[i]) {
            return false;
        }
    }
    true
}

/// Whether a value is in a list, by a look at each value of it.
pub fn is_among(value: ValueRef<'_>, list: &Value) -> bool
    ensures { result ≡ is_listed (value_ref_view value.entry) (view list.now) }
{
    match list {
        Value::List(items) => {
            for item in items {
                if same_as(value, item) {
                    return true;
                }
            }
            false
        }
        _ => false,
    }
}
