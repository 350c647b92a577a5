//! Members that stand twice in one object of a JSON text: readers take the last.

use bits::R;
use std::alloc::Global;

/// What is read of a JSON text.
#[derive(Drop)]
struct Scan {
    alloc: Global,
    /// The names of the members of each object that is open, as they are written; none for an array.
    open: Vec<Option<Vec<String>>>,
    /// The text that is read, as it is written.
    text: String,
    is_in_string: bool,
    is_after_backslash: bool,
    /// Whether the next text is the name of a member.
    is_before_name: bool,
}

impl Scan {
    /// Takes the next character. Returns a name that its object has already.
    fn put(&mut self, character: char) -> R<Option<String>> {
        if self.is_in_string {
            return self.put_in_string(character);
        }
        match character {
            '"' => {
                self.is_in_string = true;
                self.text.clear();
            }
            '{' => {
                self.open.push(Some(Vec::new(self.alloc)))?;
                self.is_before_name = true;
            }
            '[' => {
                self.open.push(None)?;
                self.is_before_name = false;
            }
            '}' | ']' => {
                let _ = self.open.pop();
                self.is_before_name = false;
            }
            ',' => self.is_before_name = matches!(self.open.last(), Some(Some(_))),
            ':' => self.is_before_name = false,
            _ => {}
        }
        Ok(None)
    }

    /// Takes the next character of a text. Returns the text where it is a name that its object has already.
    fn put_in_string(&mut self, character: char) -> R<Option<String>> {
        if character == '"' && !self.is_after_backslash {
            self.is_in_string = false;
            return self.end_name();
        }
        self.is_after_backslash = !self.is_after_backslash && character == '\\';
        self.text.push(character)?;
        Ok(None)
    }

    /// Takes the text that was read, if it is a name. Returns it where its object has it already.
    fn end_name(&mut self) -> R<Option<String>> {
        if !self.is_before_name {
            return Ok(None);
        }
        let name = self.text.clone()?;
        let Some(Some(names)) = self.open.last_mut() else {
            return Ok(None);
        };
        if names.iter().any(|known| known.as_str() == name.as_str()) {
            return Ok(Some(name));
        }
        names.push(name)?;
        Ok(None)
    }
}

/// The first name that two members of one object of a JSON text have, as it is written, if there is one. It fails only when
/// out of memory.
pub fn doubled_name(alloc: Global, text: &str) -> R<Option<String>> {
    let mut scan = Scan {
        alloc,
        open: Vec::new(alloc),
        text: String::new(alloc),
        is_in_string: false,
        is_after_backslash: false,
        is_before_name: false,
    };
    for character in text.chars() {
        if let Some(name) = scan.put(character)? {
            return Ok(Some(name));
        }
    }
    Ok(None)
}

/// What is said of the first line in which a member stands twice, if there is one; this is the file. It fails only when out
/// of memory.
pub fn doubled_note(alloc: Global, file: &str, text: &str) -> R<Option<String>> {
    let mut number: u64 = 0;
    for line in text.lines() {
        number = number.saturating_add(1);
        if let Some(name) = doubled_name(alloc, line)? {
            return Ok(Some(format!(in alloc;
                "{file}:{number}: the member \"{name}\" stands twice, and the last one counts"
            )?));
        }
    }
    Ok(None)
}
