//! Short texts, which a value holds itself.
ghost use Rattle.std.specs.Prelude.{◌≡◌, ◌≤◌, length};

use std::{fmt, str};

/// How many bytes a text has at most.
pub const LONGEST: usize = 24;

/// A text of at most 24 bytes. It holds no reference, so what holds texts can be lent to a closure, and two texts are the same
/// value exactly where they are equal (own).
#[derive(Clone, Copy, PartialEq, Eq)]
pub struct Text {
    /// How many bytes it has. It is a word, so that a text is four words, and no move clears a gap.
    pub len: usize,
    /// Its bytes of UTF-8, and zeros behind them.
    pub bytes: [u8; LONGEST],
}

impl Text {
    ghost use Rattle.loom_objects.specs.Text.{text_of, first_text, last_text, shown};

    /// The text; where it has more than 24 bytes, its first characters that fit (own).
    pub fn first(text: &str) -> Text
        ensures { result ≡ first_text text.now }
    {
        Text::of(&text[..text.floor_char_boundary(LONGEST)])
    }

    /// The text; where it has more than 24 bytes, its last characters that fit (own).
    pub fn last(text: &str) -> Text
        ensures { result ≡ last_text text.now }
    {
        Text::of(&text[text.ceil_char_boundary(text.len().saturating_sub(LONGEST))..])
    }

    // The text, which fits.
    fn of(text: &str) -> Text
        requires { length text.now ≤ 24 }
        ensures { result ≡ text_of text.now }
    {
        let mut bytes = [0; LONGEST];
        bytes[..text.len()].copy_from_slice(text.as_bytes());
        Text {
            len: text.len(),
            bytes,
        }
    }

    /// The text. It is empty where the bytes are no UTF-8 or not that many, as no text that is made by `first` or `last` (own).
    pub fn as_str(&self) -> &str
        ensures { result.now ≡ shown self.now }
    {
        if self.len > LONGEST {
            return "";
        }
        match str::from_utf8(&self.bytes[..self.len]) {
            Ok(text) => text,
            Err(_) => "",
        }
    }
}

impl fmt::Debug for Text {
    fn fmt<W: fmt::Write>(&self, f: &mut fmt::Formatter<W>) -> fmt::Result {
        fmt::Debug::fmt(&self.as_str(), f)
    }
}

impl fmt::Display for Text {
    ghost use Rattle.std.specs.Prelude.{Some};
    ghost use Rattle.loom_objects.specs.Text.{shown};

    ghost output = { λ text. Some (shown text) };

    fn fmt<W: fmt::Write>(&self, f: &mut fmt::Formatter<W>) -> fmt::Result {
        f.pad(self.as_str())
    }
}

/// The text of these bytes, as in `text_literal!(b"flag")`, for constants, which can call no function. Where there are more than
/// 24 bytes it isn't compiled (own).
#[macro_export]
macro_rules! text_literal {
    ($bytes:literal) => {
        $crate::text::Text {
            len: 24 - (24 - $bytes.len()),
            bytes: [
                if 0 < $bytes.len() { $bytes[0] } else { 0 },
                if 1 < $bytes.len() { $bytes[1] } else { 0 },
                if 2 < $bytes.len() { $bytes[2] } else { 0 },
                if 3 < $bytes.len() { $bytes[3] } else { 0 },
                if 4 < $bytes.len() { $bytes[4] } else { 0 },
                if 5 < $bytes.len() { $bytes[5] } else { 0 },
                if 6 < $bytes.len() { $bytes[6] } else { 0 },
                if 7 < $bytes.len() { $bytes[7] } else { 0 },
                if 8 < $bytes.len() { $bytes[8] } else { 0 },
                if 9 < $bytes.len() { $bytes[9] } else { 0 },
                if 10 < $bytes.len() { $bytes[10] } else { 0 },
                if 11 < $bytes.len() { $bytes[11] } else { 0 },
                if 12 < $bytes.len() { $bytes[12] } else { 0 },
                if 13 < $bytes.len() { $bytes[13] } else { 0 },
                if 14 < $bytes.len() { $bytes[14] } else { 0 },
                if 15 < $bytes.len() { $bytes[15] } else { 0 },
                if 16 < $bytes.len() { $bytes[16] } else { 0 },
                if 17 < $bytes.len() { $bytes[17] } else { 0 },
                if 18 < $bytes.len() { $bytes[18] } else { 0 },
                if 19 < $bytes.len() { $bytes[19] } else { 0 },
                if 20 < $bytes.len() { $bytes[20] } else { 0 },
                if 21 < $bytes.len() { $bytes[21] } else { 0 },
                if 22 < $bytes.len() { $bytes[22] } else { 0 },
                if 23 < $bytes.len() { $bytes[23] } else { 0 },
            ],
        }
    };
}
