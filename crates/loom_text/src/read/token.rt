//! The tokens of a text.
use crate::error::Problem;
use crate::read::symbol::Symbol;
use crate::read::word::Word;

/// A token, and where it is. Own.
#[derive(Clone, Copy, Debug, PartialEq, Eq)]
pub struct Token<'a> {
    /// What it is.
    pub kind: TokenKind,
    /// How the text spells it.
    pub spelling: &'a [u8],
    /// How many bytes of the text come before it.
    pub start: usize,
    /// How many bytes of the text come before its end.
    pub end: usize,
    /// Its line, from 1.
    pub line: usize,
}

/// What a token is. Own.
#[derive(Clone, Copy, Debug, PartialEq, Eq)]
pub enum TokenKind {
    /// What comes after `C`: the test's name.
    TestName,
    /// A name that the text has chosen.
    Name,
    /// A word of the language.
    Word(Word),
    /// A number, of at most 2147483648.
    Number(u32),
    /// A sign.
    Symbol(Symbol),
    /// No token: this is wrong, and nothing is read after it.
    Wrong(Problem),
    /// The end of the text.
    End,
}
