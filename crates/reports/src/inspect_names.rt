//! What the numbers of the format are called (`parquet.thrift`).

ghost use Rattle.std.specs.Prelude.{◌≡◌, IfOk, option_map, string_bytes};
ghost use Rattle.reports.specs.Names.{type_name, repetition_name, codec_name, encoding_name, page_name, converted_name, logical_name};
ghost use Rattle.reports.specs.Notes.{name_or_number};

use std::alloc::{AllocError, Global};

/// The name of a physical type (`parquet.thrift`, Type).
pub fn type_name(number: i32) -> Option<&'static str>
    ensures { option_map (λ name. name.now) result ≡ type_name number }
{
    match number {
        0 => Some("BOOLEAN"),
        1 => Some("INT32"),
        2 => Some("INT64"),
        3 => Some("INT96"),
        4 => Some("FLOAT"),
        5 => Some("DOUBLE"),
        6 => Some("BYTE_ARRAY"),
        7 => Some("FIXED_LEN_BYTE_ARRAY"),
        _ => None,
    }
}

/// The name of a repetition (`parquet.thrift`, FieldRepetitionType), in lower case.
pub fn repetition_name(number: i32) -> Option<&'static str>
    ensures { option_map (λ name. name.now) result ≡ repetition_name number }
{
    match number {
        0 => Some("required"),
        1 => Some("optional"),
        2 => Some("repeated"),
        _ => None,
    }
}

/// The name of a codec (`parquet.thrift`, CompressionCodec).
pub fn codec_name(number: i32) -> Option<&'static str>
    ensures { option_map (λ name. name.now) result ≡ codec_name number }
{
    match number {
        0 => Some("UNCOMPRESSED"),
        1 => Some("SNAPPY"),
        2 => Some("GZIP"),
        3 => Some("LZO"),
        4 => Some("BROTLI"),
        5 => Some("LZ4"),
        6 => Some("ZSTD"),
        7 => Some("LZ4_RAW"),
        _ => None,
    }
}

/// The name of an encoding (`parquet.thrift`, Encoding).
pub fn encoding_name(number: i32) -> Option<&'static str>
    ensures { option_map (λ name. name.now) result ≡ encoding_name number }
{
    match number {
        0 => Some("PLAIN"),
        2 => Some("PLAIN_DICTIONARY"),
        3 => Some("RLE"),
        4 => Some("BIT_PACKED"),
        5 => Some("DELTA_BINARY_PACKED"),
        6 => Some("DELTA_LENGTH_BYTE_ARRAY"),
        7 => Some("DELTA_BYTE_ARRAY"),
        8 => Some("RLE_DICTIONARY"),
        9 => Some("BYTE_STREAM_SPLIT"),
        _ => None,
    }
}

/// The name of a kind of page (`parquet.thrift`, PageType).
pub fn page_name(number: i32) -> Option<&'static str>
    ensures { option_map (λ name. name.now) result ≡ page_name number }
{
    match number {
        0 => Some("DATA_PAGE"),
        1 => Some("INDEX_PAGE"),
        2 => Some("DICTIONARY_PAGE"),
        3 => Some("DATA_PAGE_V2"),
        _ => None,
    }
}

/// The name of a converted type (`parquet.thrift`, ConvertedType).
pub fn converted_name(number: i32) -> Option<&'static str>
    ensures { option_map (λ name. name.now) result ≡ converted_name number }
{
    match number {
        0 => Some("UTF8"),
        1 => Some("MAP"),
        2 => Some("MAP_KEY_VALUE"),
        3 => Some("LIST"),
        4 => Some("ENUM"),
        5 => Some("DECIMAL"),
        6 => Some("DATE"),
        7 => Some("TIME_MILLIS"),
        8 => Some("TIME_MICROS"),
        9 => Some("TIMESTAMP_MILLIS"),
        10 => Some("TIMESTAMP_MICROS"),
        11 => Some("UINT_8"),
        12 => Some("UINT_16"),
        13 => Some("UINT_32"),
        14 => Some("UINT_64"),
        15 => Some("INT_8"),
        16 => Some("INT_16"),
        17 => Some("INT_32"),
        18 => Some("INT_64"),
        19 => Some("JSON"),
        20 => Some("BSON"),
        21 => Some("INTERVAL"),
        _ => None,
    }
}

/// The name of the member of a logical type (`parquet.thrift`, LogicalType) that has this id.
pub fn logical_name(id: i32) -> Option<&'static str>
    ensures { option_map (λ name. name.now) result ≡ logical_name id }
{
    match id {
        1 => Some("STRING"),
        2 => Some("MAP"),
        3 => Some("LIST"),
        4 => Some("ENUM"),
        5 => Some("DECIMAL"),
        6 => Some("DATE"),
        7 => Some("TIME"),
        8 => Some("TIMESTAMP"),
        10 => Some("INTEGER"),
        11 => Some("UNKNOWN"),
        12 => Some("JSON"),
        13 => Some("BSON"),
        14 => Some("UUID"),
        15 => Some("FLOAT16"),
        16 => Some("VARIANT"),
        17 => Some("GEOMETRY"),
        18 => Some("GEOGRAPHY"),
        _ => None,
    }
}

/// The name that a number has, or the number itself where it has none.
pub fn name_or_number(
    alloc: Global,
    name: Option<&'static str>,
    number: i32,
) -> Result<String, AllocError>
    ensures { IfOk result (λ said. string_bytes said ≡ name_or_number (option_map (λ n. n.now) name.entry) number) }
{
    match name {
        Some(name) => Ok(String::from_str(alloc, name)?),
        None => Ok(format!(in alloc; "{number}")?),
    }
}
