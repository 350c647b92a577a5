//! The tree of a schema, and its leaves.

ghost use Rattle.std.specs.Prelude.{◌≡◌};
ghost use Rattle.schema.specs.Shape.{repetition_of};
ghost use Rattle.schema.specs.Views.{field_view};

use crate::annotation::{GroupAnnotation, LeafType};
use crate::value::Repetition;
use smallvec::SmallVec;
use std::rc::RcStr;

/// A field of a schema, and what is below it.
#[derive(Debug, Drop)]
pub enum Field {
    Leaf {
        name: String,
        repetition: Repetition,
        leaf_type: LeafType,
    },
    Group {
        name: String,
        repetition: Repetition,
        annotation: Option<GroupAnnotation>,
        fields: Vec<Field>,
    },
}

impl Field {
    /// How often it stands in its group.
    pub fn repetition(&self) -> Repetition
        ensures { result ≡ repetition_of (field_view self.now) }
    {
        match self {
            Field::Leaf { repetition, .. } => *repetition,
            Field::Group { repetition, .. } => *repetition,
        }
    }
}

/// A field on the path to a leaf: its place in its group, and its repetition.
#[derive(Debug, Clone, Copy, PartialEq, Eq, Default)]
pub struct Step {
    pub place: usize,
    pub repetition: Repetition,
}

/// A leaf of a schema.
#[derive(Debug, Drop)]
pub struct Leaf {
    /// The names of the fields on the path to it, the leaf's own last; leaves below a field share its name.
    pub path: Vec<RcStr>,
    /// The places and repetitions of the same fields. Up to eight lie in the leaf itself.
    pub steps: SmallVec<Step, 8>,
    pub leaf_type: LeafType,
    /// How many of the fields on the path are REPEATED.
    pub greatest_repetition: u32,
    /// How many of the fields on the path are OPTIONAL or REPEATED.
    pub greatest_definition: u32,
}
