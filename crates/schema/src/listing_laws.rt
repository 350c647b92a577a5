//! What holds of lists of elements.

ghost use Rattle.schema.specs.Shape.{Fields};
ghost use Rattle.schema.specs.Listed.{elements_of};
ghost use Rattle.schema.specs.Law.{IsSchema, KeptStructsHaveBytes};
ghost use Rattle.schema.specs.Listing.{IsSchemaOf, ListsMeanOneSchema};

/// A list of elements stands for at most one schema.
pub fn a_list_means_one_schema()
    ensures { ListsMeanOneSchema }
{}

/// Some bytes have each logicalType struct that a leaf of a schema keeps, and in a footer it nests at
/// most 32 deep.
pub fn kept_structs_have_bytes()
    ensures { KeptStructsHaveBytes }
{}

/// The elements of a schema stand for it.
pub fn a_schema_is_its_elements()
    ensures { (fs : Fields) → IsSchema fs → IsSchemaOf (elements_of fs) fs }
{}
