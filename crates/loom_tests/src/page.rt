//! A text of values, as a test compares it.
ghost use Rattle.std.specs.Prelude.{◌≡◌, [], string_bytes};
ghost use Rattle.loom_tests.specs.Pages.{HasGot};

use std::alloc::Global;
use std::fmt::{Debug, Display};

/// What was found, as a text. Where memory for a piece is refused it is missing, and no test wants such a text.
#[derive(Drop)]
pub struct Page {
    /// The text.
    pub text: String,
}

impl Page {
    /// An empty page.
    pub fn new(alloc: Global) -> Page
        ensures { string_bytes result.text ≡ [] }
    {
        Page {
            text: String::new(alloc),
        }
    }

    /// A page of these parts.
    pub fn of(alloc: Global, parts: &[&str]) -> Page {
        let mut page = Page::new(alloc);
        for part in parts {
            page.add(*part);
        }
        page
    }

    /// This text, with another part in place of this one.
    pub fn changed(alloc: Global, text: &str, part: &str, other: &str) -> Page {
        let (before, behind) = text.split_once(part).unwrap_or(("", ""));
        Page::of(alloc, &[before, other, behind])
    }

    /// Puts this behind the text.
    pub fn add(&mut self, piece: &str)
        ensures { HasGot piece.now (string_bytes self.old.text) (string_bytes self.new.text) }
    {
        let _ = self.text.push_str(piece);
    }

    /// Puts this behind the text so often.
    pub fn add_often(&mut self, piece: &str, times: usize) {
        for _ in 0..times {
            self.add(piece);
        }
    }

    /// Puts a number behind the text, and this before it.
    pub fn add_number(&mut self, before: &str, number: u64) {
        let _ = write!(self.text, "{before}{number}");
    }

    /// Puts this behind the text, as it is shown. Where memory for it is refused the page is empty, so that it has no part of it.
    pub fn add_shown(&mut self, shown: &impl Display) {
        if write!(self.text, "{shown}").is_err() {
            self.text.clear();
        }
    }

    /// Puts this behind the text, as a programmer reads it.
    pub fn add_debug(&mut self, shown: &impl Debug) {
        let _ = write!(self.text, "{shown:?}");
    }

    /// Puts this behind the text as a programmer reads it, if there is one, with a semicolon before it.
    pub fn add_some<T: Debug + Drop>(&mut self, shown: Option<T>) {
        if let Some(shown) = shown {
            let _ = write!(self.text, "; {shown:?}");
        }
    }

    /// A line that begins with this word.
    pub fn put(&mut self, word: &str, shown: &impl Display) {
        let _ = write!(self.text, "{word}{shown}\n");
    }

    /// A line as a programmer reads it.
    pub fn put_debug(&mut self, shown: &impl Debug) {
        let _ = write!(self.text, "{shown:?}\n");
    }
}
