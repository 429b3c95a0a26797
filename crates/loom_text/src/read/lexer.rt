//! The text as tokens: names, words, numbers and signs, without blanks and comments. C's comments stand anywhere. ML's comments stand
//! outside of threads, where `(*` may begin an expression.
use crate::error::Problem;
use crate::read::stop::Stop;
use crate::read::symbol::{Symbol, symbol_of};
use crate::read::token::{Token, TokenKind};
use crate::read::word::{Word, word_of};
use std::alloc::{AllocError, Global};

/// The largest number that a text may have: the least `int` without its sign.
pub(crate) const LARGEST_NUMBER: u32 = 2147483648;

// A text that is being read, byte by byte.
#[derive(Drop)]
struct Lexer<'a> {
    text: &'a [u8],
    tokens: Vec<Token<'a>>,
    state: State,
    // The line of the next byte, from 1.
    line: usize,
    open_braces: usize,
    // Whether the initial state has ended, so that braces hold a thread.
    in_threads: bool,
}

// What the bytes before the next one have begun.
#[derive(Clone, Copy)]
enum State {
    // Nothing.
    Between,
    // A name or a word.
    Name(usize),
    // A number, if it has a value so far.
    Number(usize, Option<u32>),
    // A number after `0x`, if it has a value so far.
    Hexadecimal(usize, Option<u32>),
    // A sign, of which a second byte may follow this one.
    Symbol(usize, u8),
    // `C`, after which the test's name follows.
    Head,
    // The test's name.
    TestName(usize),
    // A text in quotes after the test's name.
    Quote(usize),
    // A comment up to the end of the line, or what an information after the test's name says.
    LineComment,
    // A comment up to a star and a slash, and whether the last byte is a star.
    BlockComment(usize, bool),
    // A comment up to a star and a parenthesis, which has others in it. The last byte, and how many are open.
    NestedComment(usize, u8, usize),
}

/// The tokens of the text, of which the last is `End` or `Wrong`. It fails only where memory is refused.
pub fn tokens(alloc: Global, text: &[u8]) -> Result<Vec<Token<'_>>, AllocError> {
    let mut lexer = Lexer {
        text,
        tokens: Vec::new(alloc),
        state: State::Between,
        line: 1,
        open_braces: 0,
        in_threads: false,
    };
    match lexer.run() {
        Ok(()) => lexer.push(TokenKind::End, text.len(), text.len())?,
        Err(Stop::At(problem, start, end)) => lexer.push(TokenKind::Wrong(problem), start, end)?,
        Err(Stop::Memory) => return Err(AllocError),
    }
    let Lexer { tokens, .. } = lexer;
    Ok(tokens)
}

impl Lexer<'_> {
    fn run(&mut self) -> Result<(), Stop> {
        for (at, byte) in self.text.iter().enumerate() {
            self.step(at, *byte)?;
        }
        self.finish()
    }

    // Ends what is open at the end of the text.
    fn finish(&mut self) -> Result<(), Stop> {
        let end = self.text.len();
        self.step(end, b'\n')?;
        match self.state {
            State::BlockComment(start, _) | State::NestedComment(start, _, _) => {
                Err(Stop::At(Problem::OpenComment, start, start.saturating_add(2)))
            }
            State::Quote(start) => {
                Err(Stop::At(Problem::OpenQuote, start, start.saturating_add(1)))
            }
            State::Between
            | State::Name(_)
            | State::Number(_, _)
            | State::Hexadecimal(_, _)
            | State::Symbol(_, _)
            | State::Head
            | State::TestName(_)
            | State::LineComment => Ok(()),
        }
    }

    fn step(&mut self, at: usize, byte: u8) -> Result<(), Stop> {
        match self.state {
            State::Between => self.begin(at, byte)?,
            State::Name(start) => self.after_letter(start, at, byte)?,
            State::Number(start, value) => self.after_digit(start, value, at, byte)?,
            State::Hexadecimal(start, value) => {
                self.after_hexadecimal_digit(start, value, at, byte)?
            }
            State::Symbol(start, first) => self.after_sign(start, first, at, byte)?,
            State::Head => self.state = after_head(at, byte),
            State::TestName(start) if is_blank(byte) => {
                self.state = State::Between;
                self.push(TokenKind::TestName, start, at)?;
            }
            State::Quote(_) if byte == b'"' => self.state = State::Between,
            State::LineComment if byte == b'\n' => self.state = State::Between,
            State::TestName(_) | State::Quote(_) | State::LineComment => {}
            State::BlockComment(start, star) => self.state = in_block(start, star, byte),
            State::NestedComment(start, last, open) => {
                self.state = in_nested(start, last, open, byte);
            }
        }
        if byte == b'\n' {
            self.line = self.line.saturating_add(1);
        }
        Ok(())
    }

    // A byte after which something begins.
    fn begin(&mut self, at: usize, byte: u8) -> Result<(), Stop> {
        self.state = if is_blank(byte) {
            State::Between
        } else if is_letter(byte) {
            State::Name(at)
        } else if byte.is_ascii_digit() {
            State::Number(at, with_digit(0, 10, char::from(byte).to_digit(10)))
        } else if byte == b'"' && self.tokens.len() == 2 {
            State::Quote(at)
        } else if byte == b'\\' || symbol_of(&[byte]).is_some() {
            State::Symbol(at, byte)
        } else {
            return Err(Stop::At(Problem::Character, at, at.saturating_add(1)));
        };
        Ok(())
    }

    fn after_letter(&mut self, start: usize, at: usize, byte: u8) -> Result<(), Stop> {
        if is_letter(byte) || byte.is_ascii_digit() {
            return Ok(());
        }
        let spelling = self.text.get(start..at).unwrap_or(&[]);
        let kind = word_of(spelling).map_or(TokenKind::Name, TokenKind::Word);
        let is_head = self.tokens.is_empty() && kind == TokenKind::Word(Word::Language);
        self.push(kind, start, at)?;
        if is_head && is_blank(byte) {
            self.state = after_head(at, byte);
            return Ok(());
        }
        self.begin(at, byte)
    }

    fn after_digit(
        &mut self,
        start: usize,
        value: Option<u32>,
        at: usize,
        byte: u8,
    ) -> Result<(), Stop> {
        if byte.is_ascii_digit() && value != Some(0) {
            let digit = char::from(byte).to_digit(10);
            self.state = State::Number(start, value.and_then(|value| with_digit(value, 10, digit)));
            return Ok(());
        }
        if (byte == b'x' || byte == b'X') && value == Some(0) {
            self.state = State::Hexadecimal(start, Some(0));
            return Ok(());
        }
        self.end_number(start, value, at, byte)
    }

    fn after_hexadecimal_digit(
        &mut self,
        start: usize,
        value: Option<u32>,
        at: usize,
        byte: u8,
    ) -> Result<(), Stop> {
        if byte.is_ascii_hexdigit() {
            let digit = char::from(byte).to_digit(16);
            let value = value.and_then(|value| with_digit(value, 16, digit));
            self.state = State::Hexadecimal(start, value);
            return Ok(());
        }
        if at.saturating_sub(start) <= 2 {
            return Err(Stop::At(Problem::NotANumber, start, at));
        }
        self.end_number(start, value, at, byte)
    }

    // The byte after a number.
    fn end_number(
        &mut self,
        start: usize,
        value: Option<u32>,
        at: usize,
        byte: u8,
    ) -> Result<(), Stop> {
        if is_letter(byte) || byte.is_ascii_digit() {
            return Err(Stop::At(Problem::NotANumber, start, at));
        }
        let Some(value) = value else {
            return Err(Stop::At(Problem::TooLarge, start, at));
        };
        self.push(TokenKind::Number(value), start, at)?;
        self.begin(at, byte)
    }

    fn after_sign(&mut self, start: usize, first: u8, at: usize, byte: u8) -> Result<(), Stop> {
        match (first, byte) {
            (b'/', b'/') => self.state = State::LineComment,
            (b'/', b'*') => self.state = State::BlockComment(start, false),
            (b'(', b'*') if !self.in_threads || self.open_braces == 0 => {
                self.state = State::NestedComment(start, b' ', 1);
            }
            _ => {
                if let Some(symbol) = symbol_of(&[first, byte]) {
                    self.state = State::Between;
                    return self.symbol(symbol, start, at.saturating_add(1));
                }
                let Some(symbol) = symbol_of(&[first]) else {
                    return Err(Stop::At(Problem::Character, start, at));
                };
                self.state = State::Between;
                self.symbol(symbol, start, at)?;
                match self.state {
                    State::LineComment if byte == b'\n' => self.state = State::Between,
                    State::LineComment => {}
                    _ => self.begin(at, byte)?,
                }
            }
        }
        Ok(())
    }

    // A sign. After the test's name a word and `=` begin an information, which goes to the end of its line.
    fn symbol(&mut self, symbol: Symbol, start: usize, end: usize) -> Result<(), Stop> {
        match symbol {
            Symbol::OpenBrace => self.open_braces = self.open_braces.saturating_add(1),
            Symbol::CloseBrace => {
                self.open_braces = self.open_braces.saturating_sub(1);
                self.in_threads = self.in_threads || self.open_braces == 0;
            }
            Symbol::Assign if self.follows_key() => {
                let _key = self.tokens.pop();
                self.state = State::LineComment;
                return Ok(());
            }
            _ => {}
        }
        self.push(TokenKind::Symbol(symbol), start, end)?;
        Ok(())
    }

    // Whether the last token is a word between the test's name and the initial state.
    fn follows_key(&self) -> bool {
        match self.tokens.last() {
            Some(token) => self.tokens.len() == 3 && token.kind == TokenKind::Name,
            None => false,
        }
    }

    fn push(&mut self, kind: TokenKind, start: usize, end: usize) -> Result<(), AllocError> {
        let line = self.line;
        let spelling = self.text.get(start..end).unwrap_or(&[]);
        self.tokens.push(Token {
            kind,
            spelling,
            start,
            end,
            line,
        })?;
        Ok(())
    }
}

// What a byte after `C` begins: blanks may come before the test's name.
fn after_head(at: usize, byte: u8) -> State {
    if byte == b'\n' {
        State::Between
    } else if is_blank(byte) {
        State::Head
    } else {
        State::TestName(at)
    }
}

fn in_block(start: usize, star: bool, byte: u8) -> State {
    if star && byte == b'/' {
        State::Between
    } else {
        State::BlockComment(start, byte == b'*')
    }
}

fn in_nested(start: usize, last: u8, open: usize, byte: u8) -> State {
    match (last, byte) {
        (b'*', b')') if open <= 1 => State::Between,
        (b'*', b')') => State::NestedComment(start, b' ', open - 1),
        (b'(', b'*') => State::NestedComment(start, b' ', open.saturating_add(1)),
        _ => State::NestedComment(start, byte, open),
    }
}

// The number with a digit behind it, up to the largest that may follow a minus.
fn with_digit(value: u32, base: u32, digit: Option<u32>) -> Option<u32> {
    let value = value.checked_mul(base)?.checked_add(digit?)?;
    if value <= LARGEST_NUMBER {
        Some(value)
    } else {
        None
    }
}

fn is_blank(byte: u8) -> bool {
    byte == b' ' || (9 <= byte && byte <= 13)
}

fn is_letter(byte: u8) -> bool {
    byte.is_ascii_alphabetic() || byte == b'_'
}
