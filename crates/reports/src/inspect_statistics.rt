//! The statistics of a chunk, as they are shown.

use crate::inspect_report::StatisticsReport;
use metadata::{ColumnMeta, Statistics};
use schema::{LeafType, Order};
use serde_json::Value as Json;
use std::alloc::{AllocError, Global};

/// The statistics of a chunk as they are shown, where it has some.
pub fn statistics_of(
    alloc: Global,
    meta: &ColumnMeta,
    leaf_type: Option<&LeafType>,
) -> Result<Option<StatisticsReport>, AllocError> {
    match &meta.statistics {
        Some(statistics) => Ok(Some(report_of(alloc, meta.kind, leaf_type, statistics)?)),
        None => Ok(None),
    }
}

/// Whether numbers of a leaf are unsigned.
fn is_unsigned(leaf_type: Option<&LeafType>) -> bool {
    matches!(leaf_type.and_then(LeafType::order), Some(Order::Unsigned))
}

/// Whether values of a leaf are text.
fn is_text(leaf_type: Option<&LeafType>) -> bool {
    leaf_type.is_some_and(LeafType::is_text)
}

/// The number that four bytes are, the lowest first.
fn number_of_four(bytes: &[u8], leaf_type: Option<&LeafType>) -> Option<Json> {
    let bits = u32::from_le_bytes(<[u8; 4]>::try_from(bytes).ok()?);
    Some(if is_unsigned(leaf_type) {
        Json::from(bits)
    } else {
        Json::from(bits.cast_signed())
    })
}

/// The number that eight bytes are, the lowest first.
fn number_of_eight(bytes: &[u8], leaf_type: Option<&LeafType>) -> Option<Json> {
    let bits = u64::from_le_bytes(<[u8; 8]>::try_from(bytes).ok()?);
    Some(if is_unsigned(leaf_type) {
        Json::from(bits)
    } else {
        Json::from(bits.cast_signed())
    })
}

/// The boolean or the number that the PLAIN bytes of a value are, where the type has such values.
fn scalar_of(kind: i32, leaf_type: Option<&LeafType>, bytes: &[u8]) -> Option<Json> {
    match kind {
        0 => match bytes {
            [bit] => Some(Json::from(*bit != 0)),
            _ => None,
        },
        1 => number_of_four(bytes, leaf_type),
        2 => number_of_eight(bytes, leaf_type),
        _ => None,
    }
}

/// The value that the PLAIN bytes of a bound are, as `decode` prints values of the leaf; hexadecimal digits
/// where they are no such value, or the column is not read.
fn value_of(
    alloc: Global,
    kind: i32,
    leaf_type: Option<&LeafType>,
    bytes: &[u8],
) -> Result<Json, AllocError> {
    if let Some(value) = scalar_of(kind, leaf_type, bytes) {
        return Ok(value);
    }
    if is_text(leaf_type)
        && let Ok(text) = std::str::from_utf8(bytes)
    {
        return Ok(Json::String(String::from_str(alloc, text)?));
    }
    Ok(Json::String(hex::encode(alloc, bytes)?))
}

/// A bound: the value of the field of today, or else that of the deprecated one.
fn bound_of(
    alloc: Global,
    kind: i32,
    leaf_type: Option<&LeafType>,
    bound: &Option<Vec<u8>>,
    deprecated: &Option<Vec<u8>>,
) -> Result<Option<Json>, AllocError> {
    match (bound, deprecated) {
        (Some(bytes), _) | (None, Some(bytes)) => {
            Ok(Some(value_of(alloc, kind, leaf_type, bytes.as_slice())?))
        }
        (None, None) => Ok(None),
    }
}

/// What the statistics of a chunk say. Nobody checked that it is so.
fn report_of(
    alloc: Global,
    kind: i32,
    leaf_type: Option<&LeafType>,
    statistics: &Statistics,
) -> Result<StatisticsReport, AllocError> {
    let min = bound_of(
        alloc,
        kind,
        leaf_type,
        &statistics.min_value,
        &statistics.min,
    )?;
    let max = bound_of(
        alloc,
        kind,
        leaf_type,
        &statistics.max_value,
        &statistics.max,
    )?;
    Ok(StatisticsReport {
        nulls: statistics.null_count,
        distinct: statistics.distinct_count,
        min,
        max,
    })
}
