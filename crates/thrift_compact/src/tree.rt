//! Structs of the compact protocol as trees.

ghost use Rattle.std.specs.Prelude.{◌≡◌, ◌<◌};
ghost use Rattle.thrift_compact.specs.Compact.{kind};
ghost use Rattle.thrift_compact.specs.View.{code_of, view};
ghost use Rattle.thrift_compact.specs.Reading.{IsNamed};

/// How many levels lists, sets, maps and structs may nest in a struct.
pub(crate) const DEEPEST: u32 = 32;

/// The type of a container's elements, by the protocol's name for it.
#[derive(Debug, Clone, Copy, PartialEq, Eq)]
pub enum ElementType {
    /// A boolean, as it is announced by the code 1.
    True,
    /// A boolean, as it is announced by the code 2.
    False,
    I8,
    I16,
    I32,
    I64,
    Double,
    Binary,
    List,
    Set,
    Map,
    Struct,
    /// A code that stands for no type: 0 or 13 to 15, which only a list or a set without elements may
    /// announce. With any other code no bytes have it: those of 1 to 12 have names of their own.
    Other(u8),
}

impl ElementType {
    /// The type with a number of four bits.
    pub(crate) fn of_code(code: u8) -> ElementType
        requires { code < 16 }
        ensures code { code_of result ≡ code }
        ensures named { IsNamed result }
    {
        match code {
            1 => ElementType::True,
            2 => ElementType::False,
            3 => ElementType::I8,
            4 => ElementType::I16,
            5 => ElementType::I32,
            6 => ElementType::I64,
            7 => ElementType::Double,
            8 => ElementType::Binary,
            9 => ElementType::List,
            10 => ElementType::Set,
            11 => ElementType::Map,
            12 => ElementType::Struct,
            other => ElementType::Other(other),
        }
    }

    /// The protocol's number of the type: 1 to 12, and for `Other` its own. Where that is 1 to 12, and
    /// so the number of a type with another name, it is 16 more: no type is announced by that.
    pub fn code(self) -> u8
        ensures { result ≡ code_of self }
    {
        match self {
            ElementType::True => 1,
            ElementType::False => 2,
            ElementType::I8 => 3,
            ElementType::I16 => 4,
            ElementType::I32 => 5,
            ElementType::I64 => 6,
            ElementType::Double => 7,
            ElementType::Binary => 8,
            ElementType::List => 9,
            ElementType::Set => 10,
            ElementType::Map => 11,
            ElementType::Struct => 12,
            ElementType::Other(code) if code >= 1 && code <= 12 => code + 16,
            ElementType::Other(code) => code,
        }
    }
}

/// A value of the compact protocol.
#[cycle(tree)]
#[derive(Debug, Drop)]
pub enum Node {
    /// A field that is true or false.
    Bool(bool),
    /// A boolean element of a container, by its byte.
    Flag(u8),
    I8(i8),
    I16(i16),
    I32(i32),
    I64(i64),
    /// A floating-point number by its eight bytes, which are only carried.
    Double([u8; 8]),
    Binary(Vec<u8>),
    List(ElementType, Vec<Node>),
    Set(ElementType, Vec<Node>),
    /// A map without pairs, which has no types.
    EmptyMap,
    /// A map with pairs: the type of the keys, the type of the values, the pairs.
    Map(ElementType, ElementType, Vec<(Node, Node)>),
    Struct(Vec<Field>),
}

/// A field of a struct.
#[cycle(tree)]
#[derive(Debug, Drop)]
pub struct Field {
    pub id: i16,
    pub value: Node,
}

/// A struct: its fields, in the order in which they stand.
#[derive(Debug, Drop)]
pub struct Tree {
    pub fields: Vec<Field>,
}

/// The code of a field's type with this value; 16 for a boolean element, which no field holds.
pub(crate) fn type_code(value: &Node) -> u8
    ensures { result ≡ kind (view value.now) }
{
    match value {
        Node::Bool(true) => 1,
        Node::Bool(false) => 2,
        Node::Flag(_) => 16,
        Node::I8(_) => 3,
        Node::I16(_) => 4,
        Node::I32(_) => 5,
        Node::I64(_) => 6,
        Node::Double(_) => 7,
        Node::Binary(_) => 8,
        Node::List(..) => 9,
        Node::Set(..) => 10,
        Node::EmptyMap | Node::Map(..) => 11,
        Node::Struct(_) => 12,
    }
}
