//! Texts within XML and within a Mermaid diagram: what would be read as something else there is written otherwise, and what can't be
//! seen as Rust writes it in a literal, `\u{1b}`.
use crate::text::page::Page;

/// How a text goes on where it was cut.
const CUT: char = '…';

impl Page {
    /// At most so many characters of a text, within XML. Where it was cut it ends with `…`.
    pub(crate) fn xml(&mut self, text: &str, most: usize) {
        let mut count = 0usize;
        for sign in text.chars() {
            count = count.saturating_add(1);
            if count > most {
                self.sign(CUT);
                return;
            }
            self.xml_sign(sign);
        }
    }

    fn xml_sign(&mut self, sign: char) {
        match sign {
            '&' => self.words("&amp;"),
            '<' => self.words("&lt;"),
            '>' => self.words("&gt;"),
            '"' => self.words("&quot;"),
            '\'' => self.words("&#39;"),
            _ if is_hidden(sign) => self.hidden("\\u{", sign, "}"),
            _ => self.sign(sign),
        }
    }

    /// At most so many characters of a text, with `…` where it was cut.
    pub(crate) fn cut(&mut self, text: &str, most: usize) {
        for (place, sign) in text.chars().enumerate() {
            if place >= most {
                self.sign(CUT);
                return;
            }
            if is_hidden(sign) {
                self.hidden("\\u{", sign, "}");
            } else {
                self.sign(sign);
            }
        }
    }

    /// A text within a Mermaid diagram.
    pub(crate) fn mermaid(&mut self, text: &str) {
        for sign in text.chars() {
            if is_hidden(sign) {
                self.hidden("#92;u#123;", sign, "#125;");
            } else if is_plain(sign) {
                self.sign(sign);
            } else {
                self.bits("#", u64::from(sign as u32));
                self.words(";");
            }
        }
    }

    /// A character by its number in hexadecimal, between words.
    fn hidden(&mut self, words: &str, sign: char, after: &str) {
        self.words(words);
        self.hexadecimal(sign as u32);
        self.words(after);
    }
}

/// Whether a character can't be seen, or changes how others are: controls, ends of lines, directions, and what is no character.
fn is_hidden(sign: char) -> bool {
    matches!(
        sign,
        '\u{0}'..='\u{1f}'
            | '\u{7f}'..='\u{9f}'
            | '\u{200b}'..='\u{200f}'
            | '\u{2028}'..='\u{202e}'
            | '\u{2060}'..='\u{2069}'
            | '\u{feff}'
            | '\u{fffe}'
            | '\u{ffff}'
    )
}

/// Whether a character stands for itself in a Mermaid diagram.
fn is_plain(sign: char) -> bool {
    matches!(
        sign,
        'a'..='z'
            | 'A'..='Z'
            | '0'..='9'
            | ' '
            | '.'
            | ','
            | '('
            | ')'
            | '_'
            | '-'
            | '='
            | '/'
            | '!'
            | '\''
            | '\u{a0}'..='\u{10ffff}'
    )
}
