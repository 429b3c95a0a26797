//! The signs of the language.
ghost use Rattle.std.specs.Prelude.{◌≡◌, map};
ghost use Rattle.loom_text.specs.Spelling.{listed, symbol_of};

use thiserror::Error;

/// A sign of C, or of a condition. Own.
#[derive(Clone, Copy, Debug, PartialEq, Eq, Error)]
pub enum Symbol {
    /// `(`.
    #[error("(")]
    OpenParenthesis,
    /// `)`.
    #[error(")")]
    CloseParenthesis,
    /// `{`.
    #[error("{{")]
    OpenBrace,
    /// `}`.
    #[error("}}")]
    CloseBrace,
    /// `[`.
    #[error("[")]
    OpenBracket,
    /// `]`.
    #[error("]")]
    CloseBracket,
    /// `;`.
    #[error(";")]
    Semicolon,
    /// `,`.
    #[error(",")]
    Comma,
    /// `:`.
    #[error(":")]
    Colon,
    /// `?`.
    #[error("?")]
    Question,
    /// `=`.
    #[error("=")]
    Assign,
    /// `==`.
    #[error("==")]
    Equal,
    /// `!=`.
    #[error("!=")]
    NotEqual,
    /// `<`.
    #[error("<")]
    Less,
    /// `<=`.
    #[error("<=")]
    AtMost,
    /// `>`.
    #[error(">")]
    Greater,
    /// `>=`.
    #[error(">=")]
    AtLeast,
    /// `<<`.
    #[error("<<")]
    ShiftLeft,
    /// `>>`.
    #[error(">>")]
    ShiftRight,
    /// `+`.
    #[error("+")]
    Plus,
    /// `-`.
    #[error("-")]
    Minus,
    /// `*`.
    #[error("*")]
    Star,
    /// `/`.
    #[error("/")]
    Slash,
    /// `%`.
    #[error("%")]
    Percent,
    /// `&`.
    #[error("&")]
    Ampersand,
    /// `&&`.
    #[error("&&")]
    Both,
    /// `|`.
    #[error("|")]
    Bar,
    /// `||`.
    #[error("||")]
    Either,
    /// `^`.
    #[error("^")]
    Caret,
    /// `!`.
    #[error("!")]
    Exclamation,
    /// `~`.
    #[error("~")]
    Tilde,
    /// `/\`.
    #[error("/\\")]
    Conjunction,
    /// `\/`.
    #[error("\\/")]
    Disjunction,
}

const SYMBOLS: [(&[u8], Symbol); 33] = [
    (b"(", Symbol::OpenParenthesis),
    (b")", Symbol::CloseParenthesis),
    (b"{", Symbol::OpenBrace),
    (b"}", Symbol::CloseBrace),
    (b"[", Symbol::OpenBracket),
    (b"]", Symbol::CloseBracket),
    (b";", Symbol::Semicolon),
    (b",", Symbol::Comma),
    (b":", Symbol::Colon),
    (b"?", Symbol::Question),
    (b"=", Symbol::Assign),
    (b"==", Symbol::Equal),
    (b"!=", Symbol::NotEqual),
    (b"<", Symbol::Less),
    (b"<=", Symbol::AtMost),
    (b">", Symbol::Greater),
    (b">=", Symbol::AtLeast),
    (b"<<", Symbol::ShiftLeft),
    (b">>", Symbol::ShiftRight),
    (b"+", Symbol::Plus),
    (b"-", Symbol::Minus),
    (b"*", Symbol::Star),
    (b"/", Symbol::Slash),
    (b"%", Symbol::Percent),
    (b"&", Symbol::Ampersand),
    (b"&&", Symbol::Both),
    (b"|", Symbol::Bar),
    (b"||", Symbol::Either),
    (b"^", Symbol::Caret),
    (b"!", Symbol::Exclamation),
    (b"~", Symbol::Tilde),
    (b"/\\", Symbol::Conjunction),
    (b"\\/", Symbol::Disjunction),
];

/// The sign that these bytes spell, if they spell one.
pub fn symbol_of(spelling: &[u8]) -> Option<Symbol>
    ensures { result ≡ symbol_of spelling.now }
{
    listed(&SYMBOLS, spelling)
}

// What the first row with this spelling says.
fn listed(mut table: &[(&[u8], Symbol)], spelling: &[u8]) -> Option<Symbol>
    ensures { result ≡ listed (map (λ row. (row.0.now, row.1)) table.entry.now) spelling.now }
{
    while let [row, rest @ ..] = table {
        if row.0 == spelling {
            return Some(row.1);
        }
        table = rest;
    }
    None
}
