//! What holds of the definitions.

ghost use Rattle.std.specs.Prelude.{ℕ};
ghost use Rattle.bits.specs.Codec.{IsFunctional};
ghost use Rattle.thrift_compact.specs.Compact.{IsThrift};
ghost use Rattle.thrift_compact.specs.Law.{StructsStay, ValuesStay, CutStructsDoNotStand, WrittenStructsStand, WrittenStructsAreNoOthers};
ghost use Rattle.thrift_compact.specs.Length.{NoSpellingIsShorter};
ghost use Rattle.thrift_compact.specs.Piecewise.{StructsBeginEmpty, ListsEnd, ListsGrow, RestsFollow};
ghost use Rattle.thrift_compact.specs.Shapes.{StructsWithBytesHaveTheShape, ShapesNest};
ghost use Rattle.thrift_compact.specs.Values.{ValueOf};

/// A prefix of the bytes stands for at most one struct.
pub fn one_struct()
    ensures { IsFunctional IsThrift }
{}

/// A prefix of the bytes stands for at most one value of a type, and that is there whatever follows.
pub fn one_value()
    ensures one { (code left : ℕ) → IsFunctional (ValueOf code left) }
    ensures stays { ValuesStay }
{}

/// A struct at the start of the bytes is there whatever follows them. So where one is cut, none is
/// there: [`read_struct`](crate::read_struct) is refused Truncated then, as `which` and
/// `whatever_follows` leave no other fault.
pub fn what_follows_changes_nothing()
    ensures stays { StructsStay }
    ensures cut { CutStructsDoNotStand }
{}

/// What was written is read again, whatever follows: the bytes that the writing of a struct added
/// stand for it, with any bytes after them. They stand for no other struct, and in no other number of
/// bytes.
///
/// The premise is `stands` of [`write_struct`](crate::write_struct). By `only` of
/// [`read_struct`](crate::read_struct) reading is not refused for a fault then; by its `stands` and
/// `alone` here it returns this struct.
pub fn what_is_written_is_read_again()
    ensures stands { WrittenStructsStand }
    ensures alone { WrittenStructsAreNoOthers }
{}

/// A struct that some bytes have has the shape of one that is written, at the depth to which it nests:
/// [`write_struct`](crate::write_struct) is refused Thrift only where that is missing.
pub fn structs_with_bytes_have_the_shape()
    ensures { StructsWithBytesHaveTheShape }
{}

/// No bytes of a struct are fewer than its shortest spelling takes. So what
/// [`write_struct`](crate::write_struct) adds, which is no longer than that, takes exactly as many:
/// each number and size in the fewest groups of seven bits, and each header in its short form where
/// there is one.
pub fn no_spelling_is_shorter()
    ensures { NoSpellingIsShorter }
{}

/// A struct without fields is begun by no bytes; a list all of whose elements are written is a field; a struct behind
/// the elements of a list is one more; a first field, and the rest of a struct behind it, are a struct.
pub fn structs_are_written_in_pieces()
    ensures begins { StructsBeginEmpty }
    ensures ends { ListsEnd }
    ensures grows { ListsGrow }
    ensures follows { RestsFollow }
{}

/// A struct of the shape of one in which at most so many levels nest nests at most so deep.
pub fn structs_of_the_shape_nest()
    ensures { ShapesNest }
{}
