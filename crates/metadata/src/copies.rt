//! Copies of what records hold.

ghost use Rattle.std.specs.Prelude.{◌≡◌, map, option_map, IfOk};
ghost use Rattle.bits.specs.Refusals.{RefusedMemoryOnly};

use bits::R;
use std::alloc::Global;

/// A copy of a text; None if it is absent. It fails only when out of memory.
pub fn copied_text(alloc: Global, text: &Option<Vec<u8>>) -> R<Option<Vec<u8>>>
    ensures copies { IfOk result (λ copy. option_map (λ s. s.items) copy ≡ option_map (λ s. s.items) text.now) }
    ensures which { RefusedMemoryOnly result }
{
    match text {
        Some(text) => Ok(Some(Vec::from_slice(alloc, text.as_slice())?)),
        None => Ok(None),
    }
}

/// A copy of a list of numbers; None if it is absent. It fails only when out of memory.
pub fn copied_numbers(alloc: Global, numbers: &Option<Vec<i32>>) -> R<Option<Vec<i32>>>
    ensures copies { IfOk result (λ copy. option_map (λ s. s.items) copy ≡ option_map (λ s. s.items) numbers.now) }
    ensures which { RefusedMemoryOnly result }
{
    match numbers {
        Some(numbers) => Ok(Some(Vec::from_slice(alloc, numbers.as_slice())?)),
        None => Ok(None),
    }
}

/// Copies of the texts, in their order. It fails only when out of memory.
pub fn copied_texts(alloc: Global, texts: &[Vec<u8>]) -> R<Vec<Vec<u8>>>
    ensures copies { IfOk result (λ copies. map (λ s. s.items) copies.items ≡ map (λ s. s.items) texts.now) }
    ensures which { RefusedMemoryOnly result }
{
    let mut copies = Vec::with_capacity(alloc, texts.len())?;
    for text in texts {
        let copy = Vec::from_slice(alloc, text.as_slice())?;
        copies.push(copy)?;
    }
    Ok(copies)
}
