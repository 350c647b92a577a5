//! Encodings of values.

ghost use Rattle.std.specs.Prelude.{◌≡◌, pos};
ghost use Rattle.pages.specs.Encodings.{encoding_of};
ghost use Rattle.pages.specs.Headers.{number_of};

/// An encoding of values (`parquet.thrift`, Encoding).
#[derive(Debug, Clone, Copy, PartialEq, Eq)]
pub enum Encoding {
    Plain,
    PlainDictionary,
    Rle,
    BitPacked,
    DeltaBinaryPacked,
    DeltaLengthByteArray,
    DeltaByteArray,
    RleDictionary,
    ByteStreamSplit,
}

impl Encoding {
    /// The encoding that a number of the format names; None where it names none.
    pub fn of_number(number: i32) -> Option<Encoding>
        ensures { result ≡ encoding_of number }
    {
        match number {
            0 => Some(Encoding::Plain),
            2 => Some(Encoding::PlainDictionary),
            3 => Some(Encoding::Rle),
            4 => Some(Encoding::BitPacked),
            5 => Some(Encoding::DeltaBinaryPacked),
            6 => Some(Encoding::DeltaLengthByteArray),
            7 => Some(Encoding::DeltaByteArray),
            8 => Some(Encoding::RleDictionary),
            9 => Some(Encoding::ByteStreamSplit),
            _ => None,
        }
    }

    /// The number that the format has for the encoding.
    pub fn number(self) -> i32
        ensures { result ≡ pos (number_of self) }
    {
        match self {
            Encoding::Plain => 0,
            Encoding::PlainDictionary => 2,
            Encoding::Rle => 3,
            Encoding::BitPacked => 4,
            Encoding::DeltaBinaryPacked => 5,
            Encoding::DeltaLengthByteArray => 6,
            Encoding::DeltaByteArray => 7,
            Encoding::RleDictionary => 8,
            Encoding::ByteStreamSplit => 9,
        }
    }
}
