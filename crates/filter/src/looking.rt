//! Which leaves a filter looks at.

ghost use Rattle.std.specs.Prelude.{◌≡◌, map};
ghost use Rattle.std.specs.List.{list_any};
ghost use Rattle.filter.specs.Test.{test_view, ands_view, is_at, looks_at};

use crate::test::Test;

/// Whether a term of one of the ANDs is at this leaf.
pub fn some_looks_at(ands: &[Vec<Test>], leaf: usize) -> bool
    ensures { result ≡ looks_at (ands_view ands.now) leaf }
{
    for terms in ands {
        if one_is_at(terms.as_slice(), leaf) {
            return true;
        }
    }
    false
}

/// Whether one of the terms is at this leaf.
fn one_is_at(terms: &[Test], leaf: usize) -> bool
    ensures { result ≡ list_any (is_at leaf) (map test_view terms.now) }
{
    for term in terms {
        if term.leaf == leaf {
            return true;
        }
    }
    false
}
