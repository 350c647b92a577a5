//! The texts of refusals.

use bits::Refusal;
use std::test::*;

/// The texts of the refusals that have no path, in their order.
const TEXTS: [&str; 27] = [
    "1 Truncated",
    "2 Magic",
    "3 Thrift",
    "4 Schema",
    "5 Codec",
    "8 Encoding",
    "9 Page",
    "10 Levels",
    "11 Value",
    "12 Utf8",
    "13 Limit",
    "14 RowShape",
    "15 NoColumn",
    "16 Unordered",
    "17 Key",
    "18 NoGroup",
    "19 Stale",
    "20 NoJob",
    "21 NoCursor",
    "22 Full",
    "23 NoTable",
    "24 Exists",
    "25 Device",
    "26 InDoubt",
    "27 Closed",
    "28 Memory",
    "29 Script",
];

/// The refusal of the text at a place.
fn refusal_at(place: usize) -> Refusal {
    match place {
        0 => Refusal::Truncated,
        1 => Refusal::Magic,
        2 => Refusal::Thrift,
        3 => Refusal::Schema,
        4 => Refusal::Codec,
        5 => Refusal::Encoding,
        6 => Refusal::Page,
        7 => Refusal::Levels,
        8 => Refusal::Value,
        9 => Refusal::Utf8,
        10 => Refusal::Limit,
        11 => Refusal::RowShape,
        12 => Refusal::NoColumn,
        13 => Refusal::Unordered,
        14 => Refusal::Key,
        15 => Refusal::NoGroup,
        16 => Refusal::Stale,
        17 => Refusal::NoJob,
        18 => Refusal::NoCursor,
        19 => Refusal::Full,
        20 => Refusal::NoTable,
        21 => Refusal::Exists,
        22 => Refusal::Device,
        23 => Refusal::InDoubt,
        24 => Refusal::Closed,
        25 => Refusal::Memory,
        _ => Refusal::Script,
    }
}

#[test]
fn a_refusal_prints_its_number_and_name(rt: HostRuntime) -> Result<(), Fail> {
    for (place, text) in TEXTS.iter().enumerate() {
        let printed = format!(in rt.alloc(); "{}", refusal_at(place))?;
        assert!(rt; printed.as_str() == *text, "{text}");
    }
    Ok(())
}
