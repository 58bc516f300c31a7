//! The words for a line, put together.
use crate::meanings::{Place, is_cell, is_number, meaning_of};
use std::alloc::{AllocError, Global};

/// Returns what a line that the program prints means, in words. None if the program prints no such line, and for a row
/// of a grid. Out of memory is the only error.
pub fn explain(alloc: Global, line: &str) -> Result<Option<String>, AllocError> {
    let mut sentence = Sentence::new(alloc);
    for word in line.split(' ') {
        if !sentence.read(word)? {
            return Ok(None);
        }
    }
    sentence.end()
}

// What the words of a line mean that were read so far.
#[derive(Drop)]
struct Sentence {
    text: String,
    // What isn't in `text` yet of the words for the last name, with a mark for each word that is due.
    rest: &'static str,
    // What the next word may be, if none is due.
    place: Place,
}

impl Sentence {
    fn new(alloc: Global) -> Sentence {
        Sentence {
            text: String::new(alloc),
            rest: "",
            place: Place::Line,
        }
    }

    // Reads the next word. False if no line has it there.
    fn read(&mut self, word: &str) -> Result<bool, AllocError> {
        if let Some((before, after)) = self.rest.split_once('#') {
            self.fill(before, word, after)?;
            Ok(is_number(word))
        } else if let Some((before, after)) = self.rest.split_once('@') {
            self.fill(before, word, after)?;
            Ok(is_cell(word))
        } else if self.place == Place::Agents {
            self.fill(self.rest, word, " ")?;
            Ok(is_number(word))
        } else {
            self.name(word)
        }
    }

    // Writes a word in the place of its mark.
    fn fill(&mut self, before: &str, word: &str, after: &'static str) -> Result<(), AllocError> {
        self.text.push_str(before)?;
        self.text.push_str(word)?;
        self.rest = after;
        Ok(())
    }

    // Reads a word that is a name.
    fn name(&mut self, word: &str) -> Result<bool, AllocError> {
        let Some(found) = meaning_of(self.place, word) else {
            return Ok(false);
        };
        if self.place != Place::Line {
            self.text.push_str(self.rest)?;
            self.text.push_str(": ")?;
        }
        self.rest = found.words;
        self.place = found.next;
        Ok(true)
    }

    // Returns the words for the line. None if no line ends here.
    fn end(mut self) -> Result<Option<String>, AllocError> {
        let rest = self.rest;
        if rest.contains('#') || rest.contains('@') {
            return Ok(None);
        }
        match self.place {
            Place::End => self.text.push_str(rest)?,
            Place::Agents if self.text.is_empty() => self.fill(rest, "none", "")?,
            Place::Agents => {}
            _ => return Ok(None),
        }
        Ok(Some(self.text))
    }
}
