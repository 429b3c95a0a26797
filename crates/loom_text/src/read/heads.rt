//! The parts of a test: its name, its initial state, its threads, and what follows them.
ghost use Rattle.std.specs.Prelude.{◌≡◌, ◌<◌, ◌≤◌, [], length, map, string_bytes, true, All, IfOk, IfSome, None, Some, if◌then◌else◌};
ghost use Rattle.std.specs.Option.{option_map};
ghost use Rattle.loom_text.specs.Named.{IsConditionOf, IsNamed, RegistersDiffer};
ghost use Rattle.loom_text.specs.Conditions.{formula, places_of, threads_of};
ghost use Rattle.loom_text.specs.Heads.{all_parameters_at, are_digits, first_other, head_at, initial_at, initial_name_at, initial_number_at, initial_part_at, initial_parts_at, initial_value_at, is_number, is_thread, is_thread_name, names_thread, numbered_thread_at, parameter_at, parameters_at, placed, strand, test_at, thread_at, threads_at, threads_end, whole, without_void};
ghost use Rattle.loom_text.specs.Printing.{FitsReader};
ghost use Rattle.loom_text.specs.Question.{IsQuestionOf, asked, filter_at, question_at, quantifier_at};
ghost use Rattle.loom_text.specs.Readable.{IsReadable};
ghost use Rattle.loom_text.specs.Tokens.{Gives, left, next, spelled};

use crate::error::{Feature, Problem, Wanted};
use crate::read::conditions::Names;
use crate::read::parser::{MAX_DEPTH, Parser};
use crate::read::places::Places;
use crate::read::scope::{Scope, owned};
use crate::read::stop::Stop;
use crate::read::symbol::Symbol;
use crate::read::token::{Token, TokenKind};
use crate::read::word::Word;
use crate::test::{Condition, Kind, MAX_TEST_THREADS, Quantifier, Term, Test, Thread};

// What follows the threads of a test.
#[derive(Drop)]
struct Question {
    listed: Vec<Term>,
    filter: Option<Condition>,
    quantifier: Quantifier,
    condition: Condition,
}

impl<'a> Parser<'a> {
    /// The whole test.
    #[tactic(auto, using(crate::proofs::HeadSteps::names_alike), unfolding(crate::specs::Heads::test_at))]
    pub(crate) fn test(&mut self) -> Result<Test, Stop>
        ensures named { IfOk result IsNamed }
        ensures again { IfOk result IsReadable }
        ensures read { Gives whole result (test_at (left self.old)) }
    {
        let name = self.head()?;
        let mut places = Places::new(self.alloc);
        self.initial_state(&mut places)?;
        let threads = self.all_threads(&mut places)?;
        let locations = places.into_locations();
        let question = self.question(Names {
            locations: &locations,
            threads: &threads,
        })?;
        let Question {
            listed,
            filter,
            quantifier,
            condition,
        } = question;
        Ok(Test {
            name,
            locations,
            threads,
            listed,
            filter,
            quantifier,
            condition,
        })
    }

    // What follows the threads, up to the end of the text.
    #[tactic(auto, unfolding(crate::specs::Question::question_at))]
    fn question(&mut self, names: Names<'_>) -> Result<Question, Stop>
        ensures named { IfOk result (IsQuestionOf names.entry.locations.now names.entry.threads.now) }
        ensures read { Gives asked result (question_at (places_of names.entry) (threads_of names.entry) (left self.old)) }
    {
        let mut listed = Vec::new(self.alloc);
        self.listed(names, &mut listed)?;
        let filter = self.filter(names)?;
        self.listed(names, &mut listed)?;
        let quantifier = self.quantifier()?;
        let condition = self.condition(names)?;
        if self.peek().kind != TokenKind::End {
            return Err(self.expected(Wanted::End));
        }
        Ok(Question {
            listed,
            filter,
            quantifier,
            condition,
        })
    }

    // `filter` and a condition, if it follows.
    #[tactic(auto, unfolding(crate::specs::Question::filter_at))]
    fn filter(&mut self, names: Names<'_>) -> Result<Option<Condition>, Stop>
        ensures named { IfOk result (λ filter. IfSome filter (IsConditionOf names.entry.locations.now names.entry.threads.now)) }
        ensures fits { IfOk result (λ filter. IfSome filter (λ filter. FitsReader (formula filter))) }
        ensures read { Gives (λ filter. (option_map formula filter, left self.new)) result (filter_at (places_of names.entry) (threads_of names.entry) (left self.old)) }
    {
        if self.peek().kind != TokenKind::Word(Word::Filter) {
            return Ok(None);
        }
        self.take();
        let condition = self.condition(names)?;
        Ok(Some(condition))
    }

    // `C` and the test's name.
    #[tactic(auto, unfolding(crate::specs::Heads::head_at))]
    fn head(&mut self) -> Result<String, Stop>
        ensures { Gives (λ name. (string_bytes name, left self.new)) result (head_at (left self.old)) }
    {
        if self.peek().kind != TokenKind::Word(Word::Language) {
            return Err(self.expected(Wanted::Head));
        }
        self.take();
        if self.peek().kind != TokenKind::TestName {
            return Err(self.expected(Wanted::TestName));
        }
        let name = self.take();
        owned(self.alloc, name)
    }

    // What the locations hold when the threads start.
    #[tactic(auto, unfolding(crate::specs::Heads::initial_at))]
    fn initial_state(&mut self, places: &mut Places) -> Result<(), Stop>
        ensures { Gives (λ x. (placed places.new, left self.new)) result (initial_at (placed places.old) (left self.old)) }
    {
        self.expect(Symbol::OpenBrace)?;
        self.initial_parts(places)
    }

    // Values up to a brace.
    fn initial_parts(&mut self, places: &mut Places) -> Result<(), Stop>
        ensures { Gives (λ x. (placed places.new, left self.new)) result (initial_parts_at (length (left self.old).0) (placed places.old) (left self.old)) }
    {
        for _ in 0..self.len() {
            if self.eat(Symbol::CloseBrace) {
                return Ok(());
            }
            self.initial_part(places)?;
        }
        Err(self.expected(Wanted::Initial))
    }

    // A semicolon alone, or a value with a semicolon behind it unless it is the last.
    #[tactic(auto, unfolding(crate::specs::Heads::initial_part_at))]
    fn initial_part(&mut self, places: &mut Places) -> Result<(), Stop>
        ensures { Gives (λ x. (placed places.new, left self.new)) result (initial_part_at (placed places.old) (left self.old)) }
    {
        if self.eat(Symbol::Semicolon) {
            return Ok(());
        }
        self.initial_value(places)?;
        if self.sees(Symbol::CloseBrace) {
            return Ok(());
        }
        self.expect(Symbol::Semicolon)
    }

    // `x = 1`, `[x] = 1`, `int x`, `int x = 1` or `int *x`.
    #[tactic(auto, unfolding(crate::specs::Heads::initial_value_at))]
    fn initial_value(&mut self, places: &mut Places) -> Result<(), Stop>
        ensures { Gives (λ x. (placed places.new, left self.new)) result (initial_value_at (placed places.old) (left self.old)) }
    {
        let kind = self.kind()?;
        let pointer = kind.is_some() && self.eat(Symbol::Star);
        let name = self.initial_name()?;
        if places.location_of(name).is_some() {
            return Err(Stop::at(name, Problem::DeclaredTwice));
        }
        let value = self.initial_number(kind, pointer)?;
        places.declare(name, kind, value)?;
        Ok(())
    }

    // The name of a location, which may be in brackets.
    #[tactic(auto, unfolding(crate::specs::Heads::initial_name_at))]
    fn initial_name(&mut self) -> Result<Token<'a>, Stop>
        ensures { Gives (λ token. (token.spelling.now, left self.new)) result (initial_name_at (left self.old)) }
    {
        if self.sees(Symbol::Star) {
            return Err(Stop::unsupported(self.peek(), Feature::Pointers));
        }
        if self.sees_register() {
            return Err(Stop::unsupported(self.peek(), Feature::InitialRegisters));
        }
        let brackets = self.eat(Symbol::OpenBracket);
        let name = self.name(Wanted::Initial)?;
        if brackets {
            self.expect(Symbol::CloseBracket)?;
        } else if self.sees(Symbol::OpenBracket) {
            return Err(Stop::unsupported(self.peek(), Feature::Arrays));
        }
        Ok(name)
    }

    // Whether a register such as `0:r0` is next.
    fn sees_register(&self) -> bool
        ensures { result ≡ true → is_number (next (left self.now)).0 ≡ true }
    {
        matches!(self.peek().kind, TokenKind::Number(_))
            && self.peek_after().kind == TokenKind::Symbol(Symbol::Colon)
    }

    // `= 1`, or nothing behind a name with a type.
    #[tactic(auto, unfolding(crate::specs::Heads::initial_number_at))]
    fn initial_number(&mut self, kind: Option<Kind>, pointer: bool) -> Result<i32, Stop>
        ensures { Gives (λ value. (value, left self.new)) result (initial_number_at kind pointer (left self.old)) }
    {
        let token = self.peek();
        if !self.eat(Symbol::Assign) {
            return match kind {
                Some(_) => Ok(0),
                None => Err(self.expected(Wanted::Symbol(Symbol::Assign))),
            };
        }
        if pointer {
            return Err(Stop::unsupported(token, Feature::Pointers));
        }
        if matches!(kind, Some(Kind::Mutex | Kind::Condvar)) {
            return Err(Stop::at(token, Problem::NoValue));
        }
        self.constant()
    }

    // `P0`, `P1` and so on.
    fn all_threads(&mut self, places: &mut Places) -> Result<Vec<Thread>, Stop>
        ensures count { IfOk result (λ threads. (1 ≤ length threads.items) × (length threads.items ≤ MAX_TEST_THREADS)) }
        ensures registers { IfOk result (λ threads. All RegistersDiffer threads.items) }
        ensures read { Gives (λ threads. (map strand threads.items, placed places.new, left self.new)) result
            (threads_at MAX_TEST_THREADS 0 [] (placed places.old) (left self.old)) }
    {
        let mut threads = Vec::new(self.alloc);
        for number in 0..MAX_TEST_THREADS {
            if self.threads_end(number) {
                return Ok(threads);
            }
            let thread = self.numbered_thread(number, places)?;
            threads.push(thread)?;
        }
        self.no_more_threads()?;
        Ok(threads)
    }

    // Whether there is no thread of this number, nor of a later one. The first thread has to be there.
    fn threads_end(&self, number: usize) -> bool
        ensures { result ≡ threads_end number (left self.now) }
    {
        number > 0 && !is_thread_name(self.peek())
    }

    // That no thread is left to read.
    fn no_more_threads(&self) -> Result<(), Stop>
        ensures { Gives (λ x. left self.now) result (if is_thread_name (next (left self.now)) then None else Some (left self.now)) }
    {
        let token = self.peek();
        if is_thread_name(token) {
            return Err(Stop::unsupported(token, Feature::Threads));
        }
        Ok(())
    }

    // The thread of this number, with its name.
    fn numbered_thread(&mut self, number: usize, places: &mut Places) -> Result<Thread, Stop>
        requires { number < 10 }
        ensures registers { IfOk result RegistersDiffer }
        ensures read { Gives (λ thread. (strand thread, placed places.new, left self.new)) result
            (numbered_thread_at number (placed places.old) (left self.old)) }
    {
        if !is_thread(self.peek(), number) {
            return Err(self.expected(Wanted::Thread(number)));
        }
        self.take();
        self.thread(places)
    }

    // What follows the thread's name.
    #[tactic(auto, unfolding(crate::specs::Heads::thread_at))]
    fn thread(&mut self, places: &mut Places) -> Result<Thread, Stop>
        ensures registers { IfOk result RegistersDiffer }
        ensures read { Gives (λ thread. (strand thread, placed places.new, left self.new)) result (thread_at (placed places.old) (left self.old)) }
    {
        self.expect(Symbol::OpenParenthesis)?;
        let parameters = self.all_parameters(places)?;
        let mut scope = Scope::new(self.alloc, &places.locations, &parameters);
        let body = self.block(&mut scope, MAX_DEPTH)?;
        let registers = scope.into_registers();
        Ok(Thread {
            parameters,
            registers,
            body,
        })
    }

    // The parameters, and the parenthesis behind them.
    #[tactic(auto, unfolding(crate::specs::Heads::all_parameters_at))]
    fn all_parameters(&mut self, places: &mut Places) -> Result<Vec<usize>, Stop>
        ensures { Gives (λ parameters. ((parameters.items, placed places.new), left self.new)) result (all_parameters_at (placed places.old) (left self.old)) }
    {
        self.void();
        let mut parameters = Vec::new(self.alloc);
        if !self.eat(Symbol::CloseParenthesis) {
            self.parameters(places, &mut parameters)?;
        }
        Ok(parameters)
    }

    // `void`, which may stand for no parameters.
    fn void(&mut self)
        ensures { left self.new ≡ without_void (left self.old) }
    {
        if self.peek().kind == TokenKind::Word(Word::Void)
            && self.peek_after().kind == TokenKind::Symbol(Symbol::CloseParenthesis)
        {
            self.take();
        }
    }

    // Parameters with commas between them, and the parenthesis behind the last.
    fn parameters(&mut self, places: &mut Places, parameters: &mut Vec<usize>) -> Result<(), Stop>
        ensures { Gives (λ x. ((parameters.new.items, placed places.new), left self.new)) result
            (parameters_at (length (left self.old).0) (parameters.old.items, placed places.old) (left self.old)) }
    {
        for _ in 0..self.len() {
            self.parameter(places, parameters)?;
            if !self.eat(Symbol::Comma) {
                return self.expect(Symbol::CloseParenthesis);
            }
        }
        Err(self.expected(Wanted::Parameter))
    }

    // `atomic_int* x` and the like.
    #[tactic(auto, unfolding(crate::specs::Heads::parameter_at))]
    fn parameter(&mut self, places: &mut Places, parameters: &mut Vec<usize>) -> Result<(), Stop>
        ensures { Gives (λ x. ((parameters.new.items, placed places.new), left self.new)) result
            (parameter_at (parameters.old.items, placed places.old) (left self.old)) }
    {
        let Some(kind) = self.kind()? else {
            return Err(self.expected(Wanted::Parameter));
        };
        if self.peek().kind == TokenKind::Name {
            return Err(Stop::unsupported(self.peek(), Feature::ValueParameters));
        }
        self.expect(Symbol::Star)?;
        if self.sees(Symbol::Star) {
            return Err(Stop::unsupported(self.peek(), Feature::Pointers));
        }
        let name = self.name(Wanted::Name)?;
        if self.sees(Symbol::OpenBracket) {
            return Err(Stop::unsupported(self.peek(), Feature::Arrays));
        }
        let location = places.place(name, kind)?;
        if parameters.contains(&location) {
            return Err(Stop::at(name, Problem::DeclaredTwice));
        }
        parameters.push(location)?;
        Ok(())
    }

    // Which final states the test asks for.
    #[tactic(auto, unfolding(crate::specs::Question::quantifier_at))]
    fn quantifier(&mut self) -> Result<Quantifier, Stop>
        ensures { Gives (λ quantifier. (quantifier, left self.new)) result (quantifier_at (left self.old)) }
    {
        let negated = self.sees(Symbol::Tilde) && self.peek_after().kind == exists();
        if negated {
            self.take();
        }
        let quantifier = match self.peek().kind {
            TokenKind::Word(Word::Exists) if negated => Quantifier::NotExists,
            TokenKind::Word(Word::Exists) => Quantifier::Exists,
            TokenKind::Word(Word::Forall) => Quantifier::Forall,
            _ => return Err(self.expected(Wanted::Quantifier)),
        };
        self.take();
        Ok(quantifier)
    }
}

// Whether the token is a name such as `P0`.
fn is_thread_name(token: Token<'_>) -> bool
    ensures { result ≡ is_thread_name (spelled token.entry) }
{
    token.kind == TokenKind::Name && names_thread(token.spelling)
}

// Whether it is `P` and digits.
fn names_thread(spelling: &[u8]) -> bool
    ensures { result ≡ names_thread spelling.now }
{
    match spelling {
        [first, digits @ ..] => *first == b'P' && are_digits(digits),
        [] => false,
    }
}

// Whether there are digits, and nothing else.
fn are_digits(bytes: &[u8]) -> bool
    ensures { result ≡ are_digits bytes.now }
{
    !bytes.is_empty() && first_other(bytes).is_none()
}

// The first byte that is no digit.
fn first_other(bytes: &[u8]) -> Option<usize>
    ensures { result ≡ first_other bytes.now }
{
    bytes.iter().position(|byte| !byte.is_ascii_digit())
}

// Whether the token is the name of the thread of this number, of one digit.
fn is_thread(token: Token<'_>, number: usize) -> bool
    requires { number < 10 }
    ensures { result ≡ is_thread number (spelled token.entry) }
{
    match token.spelling {
        [first, digit] => {
            token.kind == TokenKind::Name && *first == b'P' && usize::from(*digit) == 48 + number
        }
        _ => false,
    }
}

fn exists() -> TokenKind
    ensures { result ≡ TokenKind.Word (Word.Exists) }
{
    TokenKind::Word(Word::Exists)
}
