//! Conditions on final states.
ghost use Rattle.std.specs.Prelude.{◌≡◌, length, All, IfOk, IfSome};
ghost use Rattle.loom_text.specs.Conditions.{comparison_at, condition_at, conjunction_of, disjunction_of, formula, has_value, location_term, part_at, places_of, register_term, term_at, threads_of};
ghost use Rattle.loom_text.specs.Named.{HasValue, IsConditionOf, IsTermOf};
ghost use Rattle.loom_text.specs.Printing.{FitsReader};
ghost use Rattle.loom_text.specs.Question.{listed_at, listed_term_at, terms_at};
ghost use Rattle.loom_text.specs.Tokens.{Gives, left};

use crate::error::{Feature, Problem, Wanted};
use crate::read::parser::{MAX_DEPTH, MAX_OPERATORS, Parser};
use crate::read::scope::{location_named, register_named};
use crate::read::stop::Stop;
use crate::read::symbol::Symbol;
use crate::read::token::{Token, TokenKind};
use crate::read::word::Word;
use crate::test::{Condition, Kind, Location, Term, Thread};

/// What a condition may name.
#[derive(Clone, Copy)]
pub(crate) struct Names<'a> {
    pub(crate) locations: &'a [Location],
    pub(crate) threads: &'a [Thread],
}

impl Parser<'_> {
    /// A whole condition.
    #[tactic(auto, unfolding(crate::specs::Conditions::condition_at))]
    pub(crate) fn condition(&mut self, names: Names<'_>) -> Result<Condition, Stop>
        ensures named { IfOk result (λ condition. IsConditionOf names.entry.locations.now names.entry.threads.now condition) }
        ensures read { Gives (λ condition. (formula condition, left self.new)) result (condition_at (places_of names.entry) (threads_of names.entry) (left self.old)) }
        ensures fits { IfOk result (λ condition. FitsReader (formula condition)) }
    {
        self.begin_operators();
        self.disjunction(names, MAX_DEPTH)
    }

    #[cycle(conditions)]
    #[tactic(auto, using(crate::proofs::ReadingSteps::goes_on, crate::proofs::ReadingSteps::stopped, crate::proofs::ReadingSteps::ends, crate::proofs::ReadingSteps::too_many), unfolding(crate::specs::Conditions::disjunction_of))]
    fn disjunction(&mut self, names: Names<'_>, depth: usize) -> Result<Condition, Stop>
        ensures named { IfOk result (λ condition. IsConditionOf names.entry.locations.now names.entry.threads.now condition) }
        ensures read { Gives (λ condition. (formula condition, left self.new)) result (disjunction_of (part_at (places_of names.entry) (threads_of names.entry) depth) (left self.old)) }
    {
        let mut left = self.conjunction(names, depth)?;
        for _ in 0..MAX_OPERATORS + 1 {
            if !self.eat(Symbol::Disjunction) {
                return Ok(left);
            }
            let right = self.conjunction(names, depth)?;
            let first = Box::new(self.alloc, left)?;
            let second = Box::new(self.alloc, right)?;
            left = Condition::Or(first, second);
        }
        Err(Stop::at(self.peek(), Problem::TooManyOperators))
    }

    #[cycle(conditions)]
    #[tactic(auto, using(crate::proofs::ReadingSteps::goes_on, crate::proofs::ReadingSteps::stopped, crate::proofs::ReadingSteps::ends, crate::proofs::ReadingSteps::too_many), unfolding(crate::specs::Conditions::conjunction_of))]
    fn conjunction(&mut self, names: Names<'_>, depth: usize) -> Result<Condition, Stop>
        ensures named { IfOk result (λ condition. IsConditionOf names.entry.locations.now names.entry.threads.now condition) }
        ensures read { Gives (λ condition. (formula condition, left self.new)) result (conjunction_of (part_at (places_of names.entry) (threads_of names.entry) depth) (left self.old)) }
    {
        let mut left = self.negation(names, depth)?;
        for _ in 0..MAX_OPERATORS + 1 {
            if !self.eat(Symbol::Conjunction) {
                return Ok(left);
            }
            let right = self.negation(names, depth)?;
            let first = Box::new(self.alloc, left)?;
            let second = Box::new(self.alloc, right)?;
            left = Condition::And(first, second);
        }
        Err(Stop::at(self.peek(), Problem::TooManyOperators))
    }

    #[cycle(conditions)]
    #[tactic(auto, using(crate::proofs::ReadingSteps::denied, crate::proofs::ReadingSteps::enclosed, crate::proofs::ReadingSteps::too_deep, crate::proofs::ReadingSteps::enclosed_too_deep, crate::proofs::ReadingSteps::compared))]
    fn negation(&mut self, names: Names<'_>, depth: usize) -> Result<Condition, Stop>
        ensures named { IfOk result (λ condition. IsConditionOf names.entry.locations.now names.entry.threads.now condition) }
        ensures read { Gives (λ condition. (formula condition, left self.new)) result (part_at (places_of names.entry) (threads_of names.entry) depth (left self.old)) }
    {
        if self.eat(Symbol::Tilde) {
            let inside = self.deeper(depth)?;
            let condition = self.negation(names, inside)?;
            return Ok(Condition::Not(Box::new(self.alloc, condition)?));
        }
        if self.eat(Symbol::OpenParenthesis) {
            let inside = self.deeper(depth)?;
            let condition = self.disjunction(names, inside)?;
            self.expect(Symbol::CloseParenthesis)?;
            return Ok(condition);
        }
        self.comparison(names)
    }

    // `0:r0=1` and the like.
    #[tactic(auto, unfolding(crate::specs::Conditions::comparison_at))]
    fn comparison(&mut self, names: Names<'_>) -> Result<Condition, Stop>
        ensures named { IfOk result (λ condition. IsConditionOf names.entry.locations.now names.entry.threads.now condition) }
        ensures read { Gives (λ condition. (formula condition, left self.new)) result (comparison_at (places_of names.entry) (threads_of names.entry) (left self.old)) }
    {
        self.count_operator()?;
        let term = self.term(names, Wanted::Condition)?;
        self.expect(Symbol::Assign)?;
        let value = self.constant()?;
        Ok(Condition::Equal(term, value))
    }

    // `0:r0`, `x` or `[x]`.
    #[tactic(auto, unfolding(crate::specs::Conditions::term_at))]
    fn term(&mut self, names: Names<'_>, wanted: Wanted) -> Result<Term, Stop>
        ensures named { IfOk result (IsTermOf names.entry.locations.now names.entry.threads.now) }
        ensures read { Gives (λ term. (term, left self.new)) result (term_at (places_of names.entry) (threads_of names.entry) (left self.old)) }
    {
        let token = self.peek();
        match token.kind {
            TokenKind::Number(number) => {
                self.take();
                self.expect(Symbol::Colon)?;
                let name = self.name(Wanted::Register)?;
                register_term(names, token, number, name)
            }
            TokenKind::Name => {
                self.take();
                if self.sees(Symbol::OpenBracket) {
                    return Err(Stop::unsupported(self.peek(), Feature::Arrays));
                }
                location_term(names, token)
            }
            TokenKind::Symbol(Symbol::OpenBracket) => {
                self.take();
                let name = self.name(Wanted::Term)?;
                self.expect(Symbol::CloseBracket)?;
                location_term(names, name)
            }
            _ => Err(self.expected(wanted)),
        }
    }

    /// `locations [..]`, if it follows. What it lists comes behind what is listed so far.
    #[tactic(auto, unfolding(crate::specs::Question::listed_at))]
    pub(crate) fn listed(&mut self, names: Names<'_>, listed: &mut Vec<Term>) -> Result<(), Stop>
        ensures named { All (IsTermOf names.entry.locations.now names.entry.threads.now) listed.old.items
            → All (IsTermOf names.entry.locations.now names.entry.threads.now) listed.new.items }
        ensures read { Gives (λ x. (listed.new.items, left self.new)) result (listed_at (places_of names.entry) (threads_of names.entry) listed.old.items (left self.old)) }
    {
        if self.peek().kind != TokenKind::Word(Word::Locations) {
            return Ok(());
        }
        self.take();
        self.expect(Symbol::OpenBracket)?;
        self.terms(names, listed)
    }

    // Terms up to a bracket.
    fn terms(&mut self, names: Names<'_>, listed: &mut Vec<Term>) -> Result<(), Stop>
        ensures named { All (IsTermOf names.entry.locations.now names.entry.threads.now) listed.old.items
            → All (IsTermOf names.entry.locations.now names.entry.threads.now) listed.new.items }
        ensures read { Gives (λ x. (listed.new.items, left self.new)) result (terms_at (places_of names.entry) (threads_of names.entry) (length (left self.old).0) listed.old.items (left self.old)) }
    {
        for _ in 0..self.len() {
            if self.eat(Symbol::CloseBracket) {
                return Ok(());
            }
            let term = self.listed_term(names)?;
            listed.push(term)?;
        }
        Err(self.expected(Wanted::Term))
    }

    // A term, with a semicolon behind it unless it is the last.
    #[tactic(auto, unfolding(crate::specs::Question::listed_term_at))]
    fn listed_term(&mut self, names: Names<'_>) -> Result<Term, Stop>
        ensures named { IfOk result (IsTermOf names.entry.locations.now names.entry.threads.now) }
        ensures read { Gives (λ term. (term, left self.new)) result (listed_term_at (places_of names.entry) (threads_of names.entry) (left self.old)) }
    {
        let term = self.term(names, Wanted::Term)?;
        if !self.sees(Symbol::CloseBracket) {
            self.expect(Symbol::Semicolon)?;
        }
        Ok(term)
    }
}

// The register of this name in the thread of this number.
fn register_term(
    names: Names<'_>,
    token: Token<'_>,
    number: u32,
    name: Token<'_>,
) -> Result<Term, Stop>
    ensures named { IfOk result (IsTermOf names.entry.locations.now names.entry.threads.now) }
    ensures read { Gives (λ term. term) result (register_term (threads_of names.entry) number name.entry.spelling.now) }
{
    let Ok(thread) = usize::try_from(number) else {
        return Err(Stop::at(token, Problem::NoThread));
    };
    let Some(found) = names.threads.get(thread) else {
        return Err(Stop::at(token, Problem::NoThread));
    };
    match register_named(&found.registers, name.spelling) {
        Some(register) => Ok(Term::Register { thread, register }),
        None => Err(Stop::at(name, Problem::NoRegister)),
    }
}

// The location of this name, if it has a value.
fn location_term(names: Names<'_>, name: Token<'_>) -> Result<Term, Stop>
    ensures named { IfOk result (IsTermOf names.entry.locations.now names.entry.threads.now) }
    ensures read { Gives (λ term. term) result (location_term (places_of names.entry) name.entry.spelling.now) }
{
    let Some(number) = location_named(names.locations, name.spelling) else {
        return Err(Stop::at(name, Problem::NoLocation));
    };
    let Some(found) = names.locations.get(number) else {
        return Err(Stop::at(name, Problem::NoLocation));
    };
    match value_term(found.kind, number) {
        Some(term) => Ok(term),
        None => Err(Stop::at(name, Problem::NoValue)),
    }
}

// The location of this number and kind, if it has a value.
fn value_term(kind: Kind, number: usize) -> Option<Term>
    ensures named { IfSome result (λ term. (term ≡ Term.Location number) × HasValue kind) }
    ensures read { result ≡ has_value kind number }
{
    match kind {
        Kind::Mutex | Kind::Condvar => None,
        Kind::Atomic | Kind::Plain => Some(Term::Location(number)),
    }
}
