//! A cursor over the tokens of a test.
ghost use Rattle.std.specs.Prelude.{◌≡◌, [], ◌+◌, length, IfOk, IsErr, if◌then◌else◌};
ghost use Rattle.loom_text.specs.Statements.{kind_at, unqualified};
ghost use Rattle.loom_text.specs.Tokens.{Gives, after_sign, constant_at, counted, is_next, left, name_at, next, passed, spelled, value_of};

use crate::error::{Feature, Problem, Wanted};
use crate::read::stop::Stop;
use crate::read::symbol::Symbol;
use crate::read::token::{Token, TokenKind};
use crate::read::word::Word;
use crate::test::Kind;
use std::alloc::Global;

/// How deep expressions, conditions and statements may be nested. Own.
pub const MAX_DEPTH: usize = 64;
/// How many operators an expression may have, and how many comparisons a condition. Own.
pub const MAX_OPERATORS: usize = 256;

/// A test that is being read.
#[derive(Drop)]
pub(crate) struct Parser<'a> {
    pub(crate) alloc: Global,
    // The tokens that are left to read.
    rest: &'a [Token<'a>],
    // How many bytes the text has.
    end: usize,
    // How many operators the expression, or comparisons the condition, has so far.
    operators: usize,
}

impl<'a> Parser<'a> {
    /// The tokens of a text that has so many bytes.
    pub(crate) fn new(alloc: Global, tokens: &'a [Token<'a>], end: usize) -> Parser<'a> {
        Parser {
            alloc,
            rest: tokens,
            end,
            operators: 0,
        }
    }

    /// How many tokens are left: no list in them has more parts.
    pub(crate) fn len(&self) -> usize
        ensures { result ≡ length (left self.now).0 }
    {
        self.rest.len()
    }

    /// The next token. After the last it is the end of the text.
    pub(crate) fn peek(&self) -> Token<'a>
        ensures { spelled result ≡ next (left self.now) }
    {
        match self.rest {
            [token, ..] => *token,
            [] => self.end(),
        }
    }

    /// The token after the next.
    pub(crate) fn peek_after(&self) -> Token<'a>
        ensures { spelled result ≡ next (passed (left self.now)) }
    {
        match self.rest {
            [_, token, ..] => *token,
            _ => self.end(),
        }
    }

    fn end(&self) -> Token<'a>
        ensures { spelled result ≡ (TokenKind.End, []) }
    {
        Token {
            kind: TokenKind::End,
            spelling: &[],
            start: self.end,
            end: self.end,
            line: 1,
        }
    }

    /// The next token, which is read.
    pub(crate) fn take(&mut self) -> Token<'a>
        ensures token { spelled result ≡ next (left self.old) }
        ensures left { left self.new ≡ passed (left self.old) }
    {
        let token = self.peek();
        if let [_, rest @ ..] = self.rest {
            self.rest = rest;
        }
        token
    }

    /// Whether the next token is this sign.
    pub(crate) fn sees(&self, symbol: Symbol) -> bool
        ensures { result ≡ is_next symbol (left self.now) }
    {
        self.peek().kind == TokenKind::Symbol(symbol)
    }

    /// Reads the sign, if it is the next token.
    pub(crate) fn eat(&mut self, symbol: Symbol) -> bool
        ensures found { result ≡ is_next symbol (left self.old) }
        ensures left { left self.new ≡ (if result then passed (left self.old) else left self.old) }
    {
        let found = self.sees(symbol);
        if found {
            self.take();
        }
        found
    }

    /// Reads the sign.
    pub(crate) fn expect(&mut self, symbol: Symbol) -> Result<(), Stop>
        ensures { Gives (λ x. left self.new) result (after_sign symbol (left self.old)) }
    {
        if self.eat(symbol) {
            Ok(())
        } else {
            Err(self.expected(Wanted::Symbol(symbol)))
        }
    }

    /// That something else has to be at the next token.
    pub(crate) fn expected(&self, wanted: Wanted) -> Stop {
        let token = self.peek();
        match token.kind {
            TokenKind::Wrong(problem) => Stop::at(token, problem),
            TokenKind::Symbol(Symbol::Question) => Stop::unsupported(token, Feature::Choice),
            _ => Stop::at(token, Problem::Expected(wanted)),
        }
    }

    /// Reads a name of the test's own.
    pub(crate) fn name(&mut self, wanted: Wanted) -> Result<Token<'a>, Stop>
        ensures { Gives (λ token. (token.spelling.now, left self.new)) result (name_at (left self.old)) }
    {
        if self.peek().kind == TokenKind::Name {
            Ok(self.take())
        } else {
            Err(self.expected(wanted))
        }
    }

    /// The depth inside something at this depth.
    pub(crate) fn deeper(&self, depth: usize) -> Result<usize, Stop>
        ensures ok { IfOk result (λ inside. inside + 1 ≡ depth) }
        ensures err { IsErr result → depth ≡ 0 }
    {
        if depth == 0 {
            return Err(Stop::at(self.peek(), Problem::TooDeep));
        }
        Ok(depth - 1)
    }

    /// Begins an expression or a condition, which has no operators so far.
    pub(crate) fn begin_operators(&mut self)
        ensures { left self.new ≡ ((left self.old).0, 0) }
    {
        self.operators = 0;
    }

    /// Counts one more operator.
    pub(crate) fn count_operator(&mut self) -> Result<(), Stop>
        ensures { Gives (λ x. left self.new) result (counted (left self.old)) }
    {
        if self.operators >= MAX_OPERATORS {
            return Err(Stop::at(self.peek(), Problem::TooManyOperators));
        }
        self.operators += 1;
        Ok(())
    }

    /// The kind that a type stands for, if a type is next. `volatile` and `const` may come before it, and say nothing here.
    #[tactic(auto, unfolding(crate::specs::Statements::kind_at))]
    pub(crate) fn kind(&mut self) -> Result<Option<Kind>, Stop>
        ensures { Gives (λ kind. (kind, left self.new)) result (kind_at (left self.old)) }
    {
        self.qualifiers();
        let token = self.peek();
        match token.kind {
            TokenKind::Word(Word::Type(kind)) => {
                self.take();
                Ok(Some(kind))
            }
            TokenKind::Word(Word::OtherType | Word::Void) => {
                Err(Stop::unsupported(token, Feature::Type))
            }
            _ => Ok(None),
        }
    }

    fn qualifiers(&mut self)
        ensures { left self.new ≡ (unqualified (left self.old).0, (left self.old).1) }
    {
        for _ in 0..self.len() {
            if self.peek().kind != TokenKind::Word(Word::Qualifier) {
                return;
            }
            self.take();
        }
    }

    /// A number, which may have a sign.
    #[tactic(auto, unfolding(crate::specs::Tokens::constant_at))]
    pub(crate) fn constant(&mut self) -> Result<i32, Stop>
        ensures { Gives (λ value. (value, left self.new)) result (constant_at (left self.old)) }
    {
        let negative = self.eat(Symbol::Minus);
        let token = self.peek();
        match token.kind {
            TokenKind::Number(number) => {
                self.take();
                value_of(number, negative).ok_or(Stop::at(token, Problem::TooLarge))
            }
            TokenKind::Name | TokenKind::Symbol(Symbol::Ampersand) => {
                Err(Stop::unsupported(token, Feature::Pointers))
            }
            _ => Err(self.expected(Wanted::Number)),
        }
    }
}

/// The value of a number, which may have a minus.
pub(crate) fn value_of(number: u32, negative: bool) -> Option<i32>
    ensures { result ≡ value_of number negative }
{
    let value = i64::from(number);
    i32::try_from(if negative { -value } else { value }).ok()
}
