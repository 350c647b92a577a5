//! The words of a case, and the rules that stand for many of them.

ghost use Rattle.std.specs.Prelude.{◌≤◌, IfOk};

use bits::{R, Refusal};
use std::alloc::Global;

/// Whether a line is printed as it is: an empty one, or one that begins with `#`.
pub fn is_remark(line: &str) -> bool {
    line.is_empty() || line.starts_with('#')
}

/// What follows the first words of a line, each with the space after it; nothing if there are fewer.
pub fn text_after(line: &str, count: usize) -> &str {
    let mut rest = line;
    for _ in 0..count {
        match rest.split_once(' ') {
            Some((_, after)) => rest = after,
            None => return "",
        }
    }
    rest
}

/// The word at a place; Script where there is none.
pub fn word<'a>(words: &[&'a str], at: usize) -> R<&'a str> {
    match words.get(at) {
        Some(word) => Ok(*word),
        None => Err(Refusal::Script),
    }
}

/// The words from the one at `from` on.
pub fn words_from<'a>(words: &'a [&'a str], from: usize) -> &'a [&'a str] {
    words.get(from..).unwrap_or(&[])
}

/// The words of the part at `at`, of parts that the word `+` divides. The operation's name is not among them.
pub fn part<'a>(words: &'a [&'a str], at: usize) -> &'a [&'a str] {
    for (place, part) in words_from(words, 1).split(|word| *word == "+").enumerate() {
        if place == at {
            return part;
        }
    }
    &[]
}

/// A number from 0 on.
pub fn natural(text: &str) -> R<u64> {
    match text.parse::<u64>() {
        Ok(number) => Ok(number),
        Err(_) => Err(Refusal::Script),
    }
}

/// A number.
pub fn number(text: &str) -> R<i64> {
    match text.parse::<i64>() {
        Ok(number) => Ok(number),
        Err(_) => Err(Refusal::Script),
    }
}

/// A number of at most 32 bits.
pub fn small(text: &str) -> R<i32> {
    match text.parse::<i32>() {
        Ok(number) => Ok(number),
        Err(_) => Err(Refusal::Script),
    }
}

/// A number from 0 on, of at most 32 bits.
pub fn small_natural(text: &str) -> R<u32> {
    match text.parse::<u32>() {
        Ok(number) => Ok(number),
        Err(_) => Err(Refusal::Script),
    }
}

/// A word that is a number of values, or a size.
pub fn count(words: &[&str], at: usize) -> R<usize> {
    Ok(natural(word(words, at)?)? as usize)
}

/// A word that is a number of bits, at most 64.
pub fn width(words: &[&str], at: usize) -> R<u32>
    ensures { IfOk result (λ x. x ≤ 64) }
{
    let width = natural(word(words, at)?)?;
    if width > 64 {
        return Err(Refusal::Script);
    }
    Ok(width as u32)
}

/// How often the word stands for what is behind its `*`, and that: `100*1` is a hundred times `1`.
pub fn repeated(text: &str) -> (usize, &str) {
    if let Some((times, rest)) = text.split_once('*') {
        if let Ok(times) = times.parse::<u64>() {
            return (times as usize, rest);
        }
    }
    (1, text)
}

/// The ends of a range: `0..8` is the numbers from 0 to 7.
pub fn range(text: &str) -> Option<(i64, i64)> {
    let (low, high) = text.split_once("..")?;
    match (low.parse::<i64>(), high.parse::<i64>()) {
        (Ok(low), Ok(high)) => Some((low, high)),
        _ => None,
    }
}

/// Appends the number of a text, or the numbers of a range.
fn push_numbers(text: &str, numbers: &mut Vec<i64>) -> R<()> {
    match range(text) {
        Some((low, high)) => {
            for number in low..high {
                numbers.push(number)?;
            }
        }
        None => numbers.push(number(text)?)?,
    }
    Ok(())
}

/// The numbers of the words.
pub fn numbers(alloc: Global, words: &[&str]) -> R<Vec<i64>> {
    let mut numbers = Vec::new(alloc);
    for word in words {
        let (times, texts) = repeated(word);
        for _ in 0..times {
            for text in texts.split(',') {
                push_numbers(text, &mut numbers)?;
            }
        }
    }
    Ok(numbers)
}

/// Appends the number of a text, or the numbers of a range, from 0 on.
fn push_naturals(text: &str, naturals: &mut Vec<u64>) -> R<()> {
    match range(text) {
        Some((low, high)) => {
            for number in low..high {
                match u64::try_from(number) {
                    Ok(number) => naturals.push(number)?,
                    Err(_) => return Err(Refusal::Script),
                }
            }
        }
        None => naturals.push(natural(text)?)?,
    }
    Ok(())
}

/// The numbers of the words, from 0 on; these may have 64 bits.
pub fn naturals(alloc: Global, words: &[&str]) -> R<Vec<u64>> {
    let mut numbers = Vec::new(alloc);
    for word in words {
        let (times, texts) = repeated(word);
        for _ in 0..times {
            for text in texts.split(',') {
                push_naturals(text, &mut numbers)?;
            }
        }
    }
    Ok(numbers)
}

/// The numbers of the words; Script where one has more than 32 bits.
pub fn small_numbers(alloc: Global, words: &[&str]) -> R<Vec<i32>> {
    let mut small = Vec::new(alloc);
    for number in numbers(alloc, words)? {
        match i32::try_from(number) {
            Ok(number) => small.push(number)?,
            Err(_) => return Err(Refusal::Script),
        }
    }
    Ok(small)
}

/// The numbers of the words, from 0 on; Script where one has more than 32 bits.
pub fn small_naturals(alloc: Global, words: &[&str]) -> R<Vec<u32>> {
    let mut small = Vec::new(alloc);
    for number in numbers(alloc, words)? {
        match u32::try_from(number) {
            Ok(number) => small.push(number)?,
            Err(_) => return Err(Refusal::Script),
        }
    }
    Ok(small)
}

/// Appends the bytes of a piece: hexadecimal digits, and `*` and a number where they stand so often.
fn push_piece(alloc: Global, piece: &str, bytes: &mut Vec<u8>) -> R<()> {
    let (digits, times) = match piece.split_once('*') {
        Some((digits, times)) => (digits, natural(times)?),
        None => (piece, 1),
    };
    let Ok(part) = hex::decode(alloc, digits.as_bytes()) else {
        return Err(Refusal::Script);
    };
    for _ in 0..times {
        bytes.extend_from_slice(part.as_slice())?;
    }
    Ok(())
}

/// Bytes in hexadecimal: pieces with a `.` between them; `00*4` is four zeros, and `-` is no bytes.
pub fn bytes_of(alloc: Global, text: &str) -> R<Vec<u8>> {
    let mut bytes = Vec::new(alloc);
    if text == "-" {
        return Ok(bytes);
    }
    for piece in text.split('.') {
        push_piece(alloc, piece, &mut bytes)?;
    }
    Ok(bytes)
}

/// A word that is bytes.
pub fn bytes(alloc: Global, words: &[&str], at: usize) -> R<Vec<u8>> {
    bytes_of(alloc, word(words, at)?)
}
