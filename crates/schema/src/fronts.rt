//! Whether a schema has the first fields of another one.

ghost use Rattle.std.specs.Prelude.{◌≡◌, ◌↔◌, ◌++◌, List, IsTrue};
ghost use Rattle.schema.specs.Elements.{Element as ElementShown, elements_view};
ghost use Rattle.schema.specs.Growing.{IsFrontOf};

use crate::element::Element;
use crate::schema::Schema;

impl Schema {
    /// Whether the top-level fields of this schema are those of the other one, in order, or fewer of them at its end.
    /// Takes no memory, and time linear in this schema.
    pub fn is_front_of(&self, other: &Schema) -> bool
        ensures { IsTrue result ↔ IsFrontOf self.now other.now }
    {
        // For the proof: what is known of both.
        let _ = self.leaves();
        let _ = other.leaves();
        begins_with(other.listing(), self.listing())
    }
}

/// Whether some elements begin with others.
fn begins_with(elements: &[Element], first: &[Element]) -> bool
    ensures { IsTrue result ↔ (later : List ElementShown) × (elements_view elements.now ≡ elements_view first.now ++ later) }
{
    if first.len() > elements.len() {
        return false;
    }
    for (i, element) in first.iter().enumerate() {
        if !element.same(&elements[i]) {
            return false;
        }
    }
    true
}
