//! Values whose sum is far beyond the memory that there is.

use bits::{R, Refusal};
use delta::{Prefixed, decode_prefixes, encode_i32};
use std::alloc::Global;
use std::test::*;

/// The greatest size of a value, and how many of that size there are.
const LONGEST: usize = 16_777_216;

const COUNT: usize = 1000;

/// The bytes of a value of the greatest size, of as many more that share all of it, and of so many bytes more of the last.
fn chain(alloc: Global, more: i32) -> R<Vec<u8>> {
    let mut prefixes = vec![in alloc; LONGEST as i32; COUNT]?;
    let mut lengths = vec![in alloc; 0_i32; COUNT]?;
    prefixes[0] = 0;
    lengths[0] = LONGEST as i32;
    lengths[COUNT - 1] = more;
    let mut bytes = Vec::new(alloc);
    encode_i32(&prefixes, &mut bytes)?;
    encode_i32(&lengths, &mut bytes)?;
    bytes.resize(bytes.len().saturating_add(LONGEST), 0x2A)?;
    Ok(bytes)
}

/// Whether all values are of the greatest size, and none comes after the last.
fn are_longest(values: &mut Prefixed<'_>) -> R<bool> {
    for _ in 0..COUNT {
        if !matches!(values.next()?, Some(value) if value.len() == LONGEST) {
            return Ok(false);
        }
    }
    Ok(values.next()?.is_none())
}

/// Whether a chain of values of the greatest size is read to its end.
fn are_read(alloc: Global) -> R<bool> {
    let bytes = chain(alloc, 0)?;
    let (mut values, used) = decode_prefixes(alloc, &bytes, COUNT)?;
    Ok(used == bytes.len() && are_longest(&mut values)?)
}

#[test]
fn a_long_chain_of_long_values_is_read_in_little_memory(rt: HostRuntime) -> Result<(), Fail> {
    assert!(rt; are_read(rt.alloc())?);
    Ok(())
}

/// Whether a chain whose last value is longer is refused.
fn is_too_long(alloc: Global) -> R<bool> {
    let bytes = chain(alloc, 1)?;
    let refused = decode_prefixes(alloc, &bytes, COUNT);
    Ok(matches!(refused, Err(Refusal::Limit)))
}

#[test]
fn a_value_beyond_the_greatest_size_is_over_the_limit(rt: HostRuntime) -> Result<(), Fail> {
    assert!(rt; is_too_long(rt.alloc())?);
    Ok(())
}
