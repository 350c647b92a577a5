//! `times N FIRST STEP` .. `end`: lines that are read many times.

use crate::script::Script;
use bits::{R, Refusal};
use case_words::{natural, word};
use std::alloc::Global;

/// The lines, and the block of lines that has not ended.
#[derive(Drop)]
pub struct Turns {
    script: Script,
    block: Option<Vec<String>>,
    is_in_stops: bool,
}

/// How often lines are read, and the numbers that stand in the place of `$`.
#[derive(Clone, Copy)]
struct Numbers {
    turns: u64,
    first: u64,
    step: u64,
}

/// The numbers of a line `times N FIRST STEP`; where the last two are not given they are 0 and 1. Script where N is 0.
fn numbers_of(alloc: Global, head: &str) -> R<Numbers> {
    let words: Vec<&str> = head.split_whitespace().collect(alloc)?;
    let words = words.as_slice();
    let turns = natural(word(words, 1)?)?;
    if turns == 0 {
        return Err(Refusal::Script);
    }
    Ok(Numbers {
        turns,
        first: natural(words.get(2).copied().unwrap_or("0"))?,
        step: natural(words.get(3).copied().unwrap_or("1"))?,
    })
}

/// What is printed of the lines, read once with this number.
fn turn(alloc: Global, script: &mut Script, lines: &[String], number: u64) -> R<String> {
    let number = format!(in alloc; "{number}")?;
    let mut text = String::new(alloc);
    for line in lines {
        let made = line.as_str().replace(alloc, "$", number.as_str())?;
        let printed = script.feed(alloc, made.as_str(), line.as_str())?;
        text.push_str(printed.as_str())?;
        text.push('\n')?;
    }
    Ok(text)
}

/// What is printed of a block: the first time, and then how often the same came, up to the first time at which another did.
fn all_turns(alloc: Global, script: &mut Script, lines: &[String], numbers: Numbers) -> R<String> {
    let mut first = turn(alloc, script, lines, numbers.first)?;
    let mut number = numbers.first;
    for time in 1..numbers.turns {
        number = number.saturating_add(numbers.step);
        let next = turn(alloc, script, lines, number)?;
        if next.as_str() != first.as_str() {
            let other = format!(in alloc; "{next}end = {time} times, and then another")?;
            first.push_str(other.as_str())?;
            return Ok(first);
        }
    }
    let count = numbers.turns;
    let end = format!(in alloc; "end = {count} times")?;
    first.push_str(end.as_str())?;
    Ok(first)
}

impl Turns {
    /// The lines that come begin with an empty disk.
    pub fn new(alloc: Global) -> Turns {
        Turns {
            script: Script::new(alloc),
            block: None,
            is_in_stops: false,
        }
    }

    /// What is printed when this line comes; none while a block waits for its end.
    pub fn feed(&mut self, alloc: Global, line: &str) -> R<Option<String>> {
        if self.block.is_some() {
            return self.feed_block(alloc, line);
        }
        if line.starts_with("times ") {
            let mut lines = Vec::new(alloc);
            lines.push(String::from_str(alloc, line)?)?;
            self.block = Some(lines);
            return Ok(Some(String::from_str(alloc, line)?));
        }
        Ok(Some(self.script.feed(alloc, line, line)?))
    }

    /// A line within a block, which waits for the end.
    fn feed_block(&mut self, alloc: Global, line: &str) -> R<Option<String>> {
        if line == "end" && !self.is_in_stops {
            return Ok(Some(self.run(alloc)?));
        }
        self.is_in_stops = line.starts_with("stops ") || (self.is_in_stops && line != "end");
        if let Some(lines) = &mut self.block {
            lines.push(String::from_str(alloc, line)?)?;
        }
        Ok(None)
    }

    /// Runs the block that has ended.
    fn run(&mut self, alloc: Global) -> R<String> {
        let lines = self.block.take().unwrap_or(Vec::new(alloc));
        match lines.as_slice().split_first() {
            Some((head, rest)) => match numbers_of(alloc, head.as_str()) {
                Ok(numbers) => all_turns(alloc, &mut self.script, rest, numbers),
                Err(refusal) => Ok(format!(in alloc; "end = refused {refusal}")?),
            },
            None => Ok(String::new(alloc)),
        }
    }
}
