//! What a survey says of a large table.

use bits::R;
use std::alloc::Global;
use std::test::*;
use upkeep::{KeyReport, Survey, Totals, text_of_survey};

/// A table of 1,000 keys with 10 groups each, of which the last has most bytes, and 1,000 leftovers.
fn large(alloc: Global) -> R<Survey> {
    let mut keys = Vec::new(alloc);
    let mut leftovers = Vec::new(alloc);
    for number in 1..=1_000u64 {
        keys.push(KeyReport {
            folder: format!(in alloc; "k={number}")?,
            key: format!(in alloc; "k={number}")?,
            totals: Totals {
                rows: 100,
                groups: 10,
                bytes: number,
            },
        })?;
        leftovers.push(format!(in alloc; "k={number}/part.{number}.parquet")?)?;
    }
    Ok(Survey {
        columns: Vec::new(alloc),
        totals: Totals::NONE,
        keys,
        small: 10_000,
        least: 65_536,
        leftovers,
        missing: Vec::new(alloc),
    })
}

/// Texts that are printed of the large table.
const PRINTED: [&str; 3] = [
    "1,000             100        10  ####################  k=1000\n",
    "k=981\n  and 980 other keys\n",
    "joins: 10,000\n",
];

/// Whether all that is printed of the large table is a screenful, and has these texts.
fn is_a_screenful(alloc: Global) -> R<bool> {
    let bytes = text_of_survey(alloc, "", &large(alloc)?)?;
    let text = String::from_utf8_lossy(alloc, bytes.as_slice())?;
    let text = text.as_str();
    Ok(text.lines().count() < 56 && PRINTED.iter().all(|printed| text.contains(*printed)))
}

#[test]
fn a_large_table_is_a_screenful(rt: HostRuntime) -> Result<(), Fail> {
    assert!(rt; is_a_screenful(rt.alloc())?);
    Ok(())
}
