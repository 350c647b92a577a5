//! Lists of numbers: runs, deltas, and indexes into a dictionary.

use bits::{R, Refusal, ValueCodec};
use case_words::{
    begun, both, bytes, count, naturals, numbers, shown_numbers, small_naturals, small_numbers,
    width, word, words_from, written,
};
use delta::{decode_i32, decode_i64, encode_i32, encode_i64};
use dictionary::{decode_indexes, encode_indexes};
use hybrid_rle::{Hybrid, decode, encode};
use std::alloc::Global;
use std::fmt::Display;

/// What a case of this subject gives; None where the operation is of another one.
pub fn outcome(alloc: Global, operation: &str, words: &[&str]) -> Option<R<String>> {
    let outcome = match operation {
        "read-runs" => read_runs(alloc, words),
        "write-runs" => write_runs(alloc, words),
        "read-delta32" => read_delta32(alloc, words),
        "write-delta32" => write_delta32(alloc, words),
        "read-delta64" => read_delta64(alloc, words),
        "write-delta64" => write_delta64(alloc, words),
        "delta-noise" => delta_noise(alloc, words),
        "read-indexes" => read_indexes(alloc, words),
        "write-indexes" => write_indexes(alloc, words),
        _ => return None,
    };
    Some(outcome)
}

/// How many bytes the numbers take, and the numbers.
fn read<T: Display + Drop>(alloc: Global, read: R<(Vec<T>, usize)>) -> R<String> {
    let (numbers, used) = read?;
    let text = shown_numbers(alloc, numbers.as_slice())?;
    Ok(format!(in alloc; "{used} bytes:{text}")?)
}

/// `read-runs WIDTH COUNT BYTES`: how many bytes the numbers take, and the numbers; up to 32 bits also as `u32`, by the codec.
fn read_runs(alloc: Global, words: &[&str]) -> R<String> {
    let width = width(words, 1)?;
    let n = count(words, 2)?;
    let bytes = bytes(alloc, words, 3)?;
    let wide = read(alloc, decode::<u64>(alloc, width, &bytes, n));
    if width > 32 {
        return wide;
    }
    let narrow = read(alloc, Hybrid::<u32>::new(width).decode(alloc, &bytes, n));
    both(alloc, wide, narrow)
}

/// The bytes of numbers that may have 32 bits.
fn narrow_runs(alloc: Global, width: u32, words: &[&str]) -> R<String> {
    if width > 32 {
        return Err(Refusal::Script);
    }
    let numbers = small_naturals(alloc, words)?;
    let mut out = begun(alloc)?;
    let done = Hybrid::<u32>::new(width).encode(&numbers, &mut out);
    written(alloc, &out, done)
}

/// `write-runs WIDTH NUMBER..`: the bytes; up to 32 bits also of `u32`, by the codec.
fn write_runs(alloc: Global, words: &[&str]) -> R<String> {
    let width = width(words, 1)?;
    let numbers = naturals(alloc, words_from(words, 2))?;
    let mut out = begun(alloc)?;
    let done = encode::<u64>(width, &numbers, &mut out);
    let wide = written(alloc, &out, done);
    if width > 32 {
        return wide;
    }
    let narrow = narrow_runs(alloc, width, words_from(words, 2));
    both(alloc, wide, narrow)
}

/// `read-delta32 COUNT BYTES`: how many bytes the numbers take, and the numbers.
fn read_delta32(alloc: Global, words: &[&str]) -> R<String> {
    let n = count(words, 1)?;
    let bytes = bytes(alloc, words, 2)?;
    read(alloc, decode_i32(alloc, &bytes, n))
}

/// `write-delta32 NUMBER..`: the bytes.
fn write_delta32(alloc: Global, words: &[&str]) -> R<String> {
    let numbers = small_numbers(alloc, words_from(words, 1))?;
    let mut out = begun(alloc)?;
    let done = encode_i32(&numbers, &mut out);
    written(alloc, &out, done)
}

/// `read-delta64 COUNT BYTES`: how many bytes the numbers take, and the numbers.
fn read_delta64(alloc: Global, words: &[&str]) -> R<String> {
    let n = count(words, 1)?;
    let bytes = bytes(alloc, words, 2)?;
    read(alloc, decode_i64(alloc, &bytes, n))
}

/// `write-delta64 NUMBER..`: the bytes.
fn write_delta64(alloc: Global, words: &[&str]) -> R<String> {
    let numbers = numbers(alloc, words_from(words, 1))?;
    let mut out = begun(alloc)?;
    let done = encode_i64(&numbers, &mut out);
    written(alloc, &out, done)
}

/// Numbers that look like no pattern: each is 6364136223846793005 times the one before and 1442695040888963407, modulo 2^64,
/// and the one before the first is 1.
fn noise(alloc: Global, n: usize) -> R<Vec<i64>> {
    let mut values = Vec::new(alloc);
    let mut state: u64 = 1;
    for _ in 0..n {
        state = state
            .wrapping_mul(6364136223846793005)
            .wrapping_add(1442695040888963407);
        values.push(state.cast_signed())?;
    }
    Ok(values)
}

/// `delta-noise COUNT`: so many numbers that look like no pattern, written, and read again before 40 more bytes. How many bytes
/// they take, and whether they are the same.
fn delta_noise(alloc: Global, words: &[&str]) -> R<String> {
    let values = noise(alloc, count(words, 1)?)?;
    let mut out = Vec::new(alloc);
    encode_i64(&values, &mut out)?;
    let size = out.len();
    out.extend_from_slice(&[0xFF; 40])?;
    let (again, used) = decode_i64(alloc, &out, values.len())?;
    let is_same = used == size && again.as_slice() == values.as_slice();
    let says = if is_same { "the same" } else { "others" };
    Ok(format!(in alloc; "{size} bytes, {says}")?)
}

/// `read-indexes SIZE COUNT BYTES`: how many bytes the indexes into a dictionary of that size take, and the indexes.
fn read_indexes(alloc: Global, words: &[&str]) -> R<String> {
    let size = count(words, 1)?;
    let n = count(words, 2)?;
    let bytes = bytes(alloc, words, 3)?;
    read(alloc, decode_indexes(alloc, size, &bytes, n))
}

/// `write-indexes SIZE INDEX..`: the bytes.
fn write_indexes(alloc: Global, words: &[&str]) -> R<String> {
    let size = count(words, 1)?;
    let indexes = small_naturals(alloc, words_from(words, 2))?;
    let mut out = begun(alloc)?;
    let done = encode_indexes(size, &indexes, &mut out);
    written(alloc, &out, done)
}
