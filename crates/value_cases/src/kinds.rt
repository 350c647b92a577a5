//! Types, and how they are written.

use bits::{R, Refusal};
use case_words::word;
use schema::Kind;

/// A physical type; `fixed:3` has values of three bytes.
pub fn kind_of(text: &str) -> R<Kind> {
    if let Some(size) = text.strip_prefix("fixed:") {
        return match size.parse::<u32>() {
            Ok(size) => Ok(Kind::FixedLenByteArray(size)),
            Err(_) => Err(Refusal::Script),
        };
    }
    match text {
        "boolean" => Ok(Kind::Boolean),
        "int32" => Ok(Kind::Int32),
        "int64" => Ok(Kind::Int64),
        "bytes" => Ok(Kind::ByteArray),
        _ => Err(Refusal::Script),
    }
}

/// A word that is a physical type.
pub fn kind(words: &[&str], at: usize) -> R<Kind> {
    kind_of(word(words, at)?)
}

/// The names of ConvertedType (`parquet.thrift`), by their numbers.
const CONVERTED_TYPES: [&str; 22] = [
    "utf8",
    "map",
    "map_key_value",
    "list",
    "enum",
    "decimal",
    "date",
    "time_millis",
    "time_micros",
    "timestamp_millis",
    "timestamp_micros",
    "uint_8",
    "uint_16",
    "uint_32",
    "uint_64",
    "int_8",
    "int_16",
    "int_32",
    "int_64",
    "json",
    "bson",
    "interval",
];

/// The number of a converted type, by its name or as it is.
pub fn converted_type(text: &str) -> R<i32> {
    for (number, name) in (0..22_i32).zip(CONVERTED_TYPES.iter()) {
        if *name == text {
            return Ok(number);
        }
    }
    match text.parse::<i32>() {
        Ok(number) => Ok(number),
        Err(_) => Err(Refusal::Script),
    }
}

/// The name of a converted type; its number is printed where it has none.
pub fn converted_name(number: i32) -> &'static str {
    for (known, name) in (0..22_i32).zip(CONVERTED_TYPES.iter()) {
        if known == number {
            return *name;
        }
    }
    "unknown"
}

/// A type and what it is annotated with: `int32`, or `int32@uint_32`.
pub fn annotated(text: &str) -> R<(Kind, Option<i32>)> {
    match text.split_once('@') {
        Some((name, converted)) => Ok((kind_of(name)?, Some(converted_type(converted)?))),
        None => Ok((kind_of(text)?, None)),
    }
}
