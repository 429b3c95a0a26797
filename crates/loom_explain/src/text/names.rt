//! How objects, values, threads and places are named.
use crate::text::objects::Object;
use crate::text::page::Page;
use loom_objects::label::{Label, location_in, name_in};
use loom_objects::location::Location;
use loom_objects::operation::Name;
use loom_objects::text::Text;
use loom_views::rt::num::Numbers;
use std::sync::atomic::Ordering;

/// How many characters of data are shown.
const LONGEST_DATA: usize = 24;

/// A value of an atomic, by its type.
#[derive(Clone, Copy)]
pub(crate) struct Value {
    pub(crate) numbers: Numbers,
    pub(crate) bits: u64,
}

/// An object of the run by its number, if there is one.
#[derive(Clone, Copy)]
pub(crate) struct Thing {
    pub(crate) number: usize,
    pub(crate) object: Option<Object>,
}

/// An ordering.
pub(crate) fn order_name(order: Ordering) -> &'static str {
    match order {
        Ordering::Relaxed => "Relaxed",
        Ordering::Release => "Release",
        Ordering::Acquire => "Acquire",
        Ordering::AcqRel => "AcqRel",
        Ordering::SeqCst => "SeqCst",
    }
}

/// The article of an ordering.
pub(crate) fn article_of(order: Ordering) -> &'static str {
    match order {
        Ordering::Relaxed | Ordering::Release | Ordering::SeqCst => "a ",
        Ordering::Acquire | Ordering::AcqRel => "an ",
    }
}

impl Page {
    pub(crate) fn value(&mut self, words: &str, numbers: Numbers, bits: u64) {
        let bits = numbers.fit(bits);
        self.words(words);
        match numbers {
            Numbers::Bool if bits == 0 => self.words("false"),
            Numbers::Bool => self.words("true"),
            Numbers::U8 | Numbers::U16 | Numbers::U32 | Numbers::U64 => self.bits("", bits),
            Numbers::I8 | Numbers::I16 | Numbers::I32 | Numbers::I64 => {
                self.signed(bits.cast_signed());
            }
        }
    }

    /// Data as their type writes them, at most `LONGEST_DATA` characters.
    pub(crate) fn data(&mut self, words: &str, text: &str) {
        self.words(words);
        self.cut(text, LONGEST_DATA);
    }

    /// A place in the source, between words: `spin.rs:87`.
    pub(crate) fn place(&mut self, words: &str, place: Location, after: &str) {
        self.words(words);
        self.words(place.file.as_str());
        self.bits(":", u64::from(place.line));
        self.words(after);
    }

    /// A name between words: ` "flag"`.
    pub(crate) fn named(&mut self, words: &str, name: Text, after: &str) {
        self.words(words);
        self.words(name.as_str());
        self.words(after);
    }

    /// A name and a place in parentheses after a space, as far as they are there: ` ("flag", spin.rs:87)`.
    pub(crate) fn called(&mut self, label: Option<Label>) {
        match (name_in(label), location_in(label)) {
            (Some(name), Some(place)) => {
                self.named(" (\"", name, "\", ");
                self.place("", place, ")");
            }
            (Some(name), None) => self.named(" (\"", name, "\")"),
            (None, Some(place)) => self.place(" (", place, ")"),
            (None, None) => {}
        }
    }

    /// An object by its kind, its number and what it is called: `cell #1 ("count")`.
    pub(crate) fn thing(&mut self, words: &str, thing: Thing) {
        self.words(words);
        match thing.object {
            Some(object) => {
                self.words(object.kind.name());
                self.number(" #", thing.number);
                self.called(object.label);
            }
            None => self.number("object #", thing.number),
        }
    }

    /// A thread by its number and its name: `thread 1 ("worker")`, `thread 0 (main)`.
    pub(crate) fn titled(&mut self, words: &str, thread: usize, name: Option<Name>) {
        self.words(words);
        self.number("thread ", thread);
        match name {
            Some(name) => self.named(" (\"", name.text, "\")"),
            None if thread == 0 => self.words(" (main)"),
            None => {}
        }
    }
}
