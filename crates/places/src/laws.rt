//! What holds of the definitions.

ghost use Rattle.places.specs.FileEnds.{EndsHaveTheFooter};

/// A file whose footer fits into it has the footer of its ends: of its first four bytes, and of its footer with the eight
/// bytes after it. So its schema is that of these.
pub fn a_file_has_the_footer_of_its_ends()
    ensures { EndsHaveTheFooter }
{}
