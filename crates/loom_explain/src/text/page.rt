//! A text that is written piece by piece.
use loom_objects::choice::Choice;
use std::alloc::{AllocError, Global};

/// How wide a text may be.
pub(crate) const WIDTH: usize = 100;

/// A text that is written piece by piece, most pieces with the words before them. A piece for which memory is refused is lost:
/// `finish` tells so, and no piece has to.
#[derive(Drop)]
pub(crate) struct Page {
    text: String,
    /// Whether memory was refused for a piece.
    pub(crate) is_refused: bool,
}

impl Page {
    pub(crate) fn new(alloc: Global) -> Page {
        Page {
            text: String::new(alloc),
            is_refused: false,
        }
    }

    pub(crate) fn as_str(&self) -> &str {
        self.text.as_str()
    }

    pub(crate) fn len(&self) -> usize {
        self.text.len()
    }

    pub(crate) fn is_empty(&self) -> bool {
        self.text.is_empty()
    }

    pub(crate) fn clear(&mut self) {
        self.text.clear();
    }

    /// The text; an error where memory was refused for a piece of it.
    pub(crate) fn finish(self) -> Result<String, AllocError> {
        if self.is_refused {
            Err(AllocError)
        } else {
            Ok(self.text)
        }
    }

    pub(crate) fn words(&mut self, words: &str) {
        if self.text.push_str(words).is_err() {
            self.is_refused = true;
        }
    }

    pub(crate) fn sign(&mut self, sign: char) {
        if self.text.push(sign).is_err() {
            self.is_refused = true;
        }
    }

    /// Words with a number in place of each `$`: `thread $ holds it since event $`.
    pub(crate) fn put(&mut self, words: &str, numbers: &[usize]) {
        let mut next = 0usize;
        for piece in words.split('$') {
            self.words(piece);
            if let Some(number) = numbers.get(next) {
                self.number("", *number);
            }
            next = next.saturating_add(1);
        }
    }

    /// A number between words.
    pub(crate) fn between(&mut self, words: &str, number: usize, after: &str) {
        self.number(words, number);
        self.words(after);
    }

    pub(crate) fn number(&mut self, words: &str, number: usize) {
        self.bits(words, number as u64);
    }

    pub(crate) fn bits(&mut self, words: &str, bits: u64) {
        self.words(words);
        if write!(self.text, "{bits}").is_err() {
            self.is_refused = true;
        }
    }

    pub(crate) fn hexadecimal(&mut self, number: u32) {
        if write!(self.text, "{number:x}").is_err() {
            self.is_refused = true;
        }
    }

    pub(crate) fn signed(&mut self, number: i64) {
        if write!(self.text, "{number}").is_err() {
            self.is_refused = true;
        }
    }

    /// A choice, as a replay takes it.
    pub(crate) fn choice(&mut self, words: &str, choice: Choice) {
        self.words(words);
        if write!(self.text, "{choice}").is_err() {
            self.is_refused = true;
        }
    }

    /// Another page.
    pub(crate) fn page(&mut self, page: &Page) {
        self.words(page.as_str());
        if page.is_refused {
            self.is_refused = true;
        }
    }

    /// The lines of another page, wrapped.
    pub(crate) fn wrapped(&mut self, page: &Page, indent: usize) {
        for line in page.as_str().lines() {
            self.wrapped_line(line, indent);
        }
        if page.is_refused {
            self.is_refused = true;
        }
    }

    fn spaces(&mut self, count: usize) {
        for _place in 0..count {
            self.words(" ");
        }
    }

    /// Spaces up to this width.
    pub(crate) fn pad(&mut self, width: usize) {
        self.spaces(width.saturating_sub(self.len()));
    }

    /// A line and its end, with an end of line before each word that would go past the width, and so many spaces after it.
    pub(crate) fn wrapped_line(&mut self, line: &str, indent: usize) {
        let mut width = 0usize;
        let mut is_first = true;
        for word in line.split(' ') {
            let wanted = width.saturating_add(word.len()).saturating_add(1);
            if is_first {
                width = word.len();
            } else if wanted > WIDTH {
                self.words("\n");
                self.spaces(indent);
                width = indent.saturating_add(word.len());
            } else {
                self.words(" ");
                width = wanted;
            }
            self.words(word);
            is_first = false;
        }
        self.words("\n");
    }
}
