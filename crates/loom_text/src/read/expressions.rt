//! Expressions, as C has them.
ghost use Rattle.std.specs.Prelude.{◌≡◌, ◌≤◌, IfOk};
ghost use Rattle.loom_text.specs.Phrases.{PhraseCanBeRead};
ghost use Rattle.loom_text.specs.Expressions.{argument_at, arguments_at, arguments_of, begin_arguments_at, binds, call_at, comparand, compare_exchange_at, compared_at, enclosed_with, end_arguments_at, exchange_at, expression_at, fetch_at, first_location_at, inside, is_type, load_order_at, location_at, many_with, next_argument_at, one_with, operator_at, order_at, order_from, phrase, plain_at, pointed_at, primary_with, readers, register_from, signed_as};
ghost use Rattle.loom_text.specs.Known.{known};
ghost use Rattle.loom_text.specs.Tokens.{Gives, left, next, passed};
ghost use Rattle.loom_text.specs.Spelling.{operator_of, unary_of};

use crate::error::{Feature, Problem, Wanted};
use crate::read::lexer::LARGEST_NUMBER;
use crate::read::parser::{MAX_DEPTH, MAX_OPERATORS, Parser};
use crate::read::scope::Scope;
use crate::read::stop::Stop;
use crate::read::symbol::Symbol;
use crate::read::token::{Token, TokenKind};
use crate::read::word::{Function, Word};
use crate::test::{
    BinaryOperator, Expected, Expression, FetchOperator, Kind, Strength, UnaryOperator,
};
use std::sync::atomic::Ordering;

impl<'a> Parser<'a> {
    /// A whole expression.
    #[tactic(auto, unfolding(crate::specs::Expressions::expression_at))]
    pub(crate) fn expression(&mut self, scope: &Scope<'_>) -> Result<Expression, Stop>
        ensures read { Gives (λ expression. (phrase expression, left self.new)) result (expression_at (known scope.now) (left self.old)) }
        ensures fits { IfOk result (λ expression. PhraseCanBeRead (known scope.now) (phrase expression)) }
    {
        self.begin_operators();
        self.binary(scope, 1, MAX_DEPTH)
    }

    /// Operands with operators between them that bind at least so strongly.
    #[cycle(expressions)]
    pub(crate) fn binary(
        &mut self,
        scope: &Scope<'_>,
        lowest: u8,
        depth: usize,
    ) -> Result<Expression, Stop>
        ensures { Gives (λ expression. (phrase expression, left self.new)) result (many_with (known scope.now) (inside (known scope.now) depth) lowest (left self.old)) }
    {
        let mut left = self.unary(scope, depth)?;
        for _ in 0..MAX_OPERATORS + 1 {
            let Some(operator) = self.operator(lowest) else {
                return Ok(left);
            };
            self.count_operator()?;
            self.take();
            let inside = self.deeper(depth)?;
            let right = self.binary(scope, binds(operator) + 1, inside)?;
            let first = Box::new(self.alloc, left)?;
            let second = Box::new(self.alloc, right)?;
            left = Expression::Binary(operator, first, second);
        }
        Err(Stop::at(self.peek(), Problem::TooManyOperators))
    }

    // The operator that is the next token, if it binds at least so strongly.
    #[tactic(auto, unfolding(crate::specs::Expressions::operator_at))]
    fn operator(&self, lowest: u8) -> Option<BinaryOperator>
        ensures { result ≡ operator_at lowest (left self.now) }
    {
        let TokenKind::Symbol(symbol) = self.peek().kind else {
            return None;
        };
        let operator = operator_of(symbol)?;
        if binds(operator) < lowest {
            None
        } else {
            Some(operator)
        }
    }

    #[cycle(expressions)]
    #[tactic(auto, unfolding(crate::specs::Expressions::one_with))]
    fn unary(&mut self, scope: &Scope<'_>, depth: usize) -> Result<Expression, Stop>
        ensures { Gives (λ expression. (phrase expression, left self.new)) result (one_with (known scope.now) (inside (known scope.now) depth) (left self.old)) }
    {
        let token = self.peek();
        let TokenKind::Symbol(symbol) = token.kind else {
            return self.primary(scope, depth);
        };
        if symbol == Symbol::Ampersand {
            return Err(Stop::unsupported(token, Feature::Pointers));
        }
        if symbol == Symbol::Star {
            self.take();
            return Ok(Expression::Read(self.pointed(scope)?));
        }
        let Some(operator) = unary_of(symbol) else {
            return self.primary(scope, depth);
        };
        if operator == UnaryOperator::Neg
            && self.peek_after().kind == TokenKind::Number(LARGEST_NUMBER)
        {
            return Ok(Expression::Number(self.constant()?));
        }
        self.signed(scope, operator, depth)
    }

    // A sign, and what follows it.
    #[cycle(expressions)]
    #[tactic(auto, unfolding(crate::specs::Expressions::signed_as))]
    fn signed(
        &mut self,
        scope: &Scope<'_>,
        operator: UnaryOperator,
        depth: usize,
    ) -> Result<Expression, Stop>
        ensures { Gives (λ expression. (phrase expression, left self.new)) result (signed_as (inside (known scope.now) depth) operator (left self.old)) }
    {
        self.take();
        let inside = self.deeper(depth)?;
        let operand = self.unary(scope, inside)?;
        Ok(Expression::Unary(operator, Box::new(self.alloc, operand)?))
    }

    #[cycle(expressions)]
    #[tactic(auto, using(crate::proofs::ExpressionSteps::one_deeper, crate::proofs::ExpressionSteps::none_deeper), unfolding(crate::specs::Expressions::primary_with))]
    fn primary(&mut self, scope: &Scope<'_>, depth: usize) -> Result<Expression, Stop>
        ensures { Gives (λ expression. (phrase expression, left self.new)) result (primary_with (known scope.now) (inside (known scope.now) depth) (left self.old)) }
    {
        let token = self.peek();
        match token.kind {
            TokenKind::Number(_) => Ok(Expression::Number(self.constant()?)),
            TokenKind::Word(Word::Status(busy)) => {
                self.take();
                Ok(Expression::Number(i32::from(busy)))
            }
            TokenKind::Name => {
                self.take();
                Ok(Expression::Register(self.register(scope, token)?))
            }
            TokenKind::Word(Word::Function(function, explicit)) => {
                self.take();
                let inside = self.deeper(depth)?;
                self.call(scope, token, function, explicit, inside)
            }
            TokenKind::Symbol(Symbol::OpenParenthesis) => {
                self.take();
                self.enclosed(scope, depth)
            }
            _ => Err(self.expected(Wanted::Expression)),
        }
    }

    // What is in parentheses, of which the first was read. A type would be a cast.
    #[cycle(expressions)]
    #[tactic(auto, unfolding(crate::specs::Expressions::enclosed_with))]
    fn enclosed(&mut self, scope: &Scope<'_>, depth: usize) -> Result<Expression, Stop>
        ensures { Gives (λ expression. (phrase expression, left self.new)) result (enclosed_with (inside (known scope.now) depth) (left self.old)) }
    {
        if self.sees_type() {
            return Err(Stop::unsupported(self.peek(), Feature::Casts));
        }
        let inside = self.deeper(depth)?;
        let expression = self.binary(scope, 1, inside)?;
        self.expect(Symbol::CloseParenthesis)?;
        Ok(expression)
    }

    fn sees_type(&self) -> bool
        ensures { result ≡ is_type (next (left self.now)).0 }
    {
        matches!(
            self.peek().kind,
            TokenKind::Word(Word::Type(_) | Word::Qualifier | Word::OtherType | Word::Void)
        )
    }

    /// The register of the name that was read.
    pub(crate) fn register(&self, scope: &Scope<'_>, token: Token<'_>) -> Result<usize, Stop>
        ensures { Gives (λ register. register) result (register_from (known scope.now) token.entry.spelling.now (left self.now)) }
    {
        if self.sees(Symbol::OpenParenthesis) {
            return Err(Stop::unsupported(token, Feature::Function));
        }
        if let Some(register) = scope.register_of(token) {
            return Ok(register);
        }
        if scope.is_declared(token) {
            Err(Stop::unsupported(token, Feature::Pointers))
        } else {
            Err(Stop::at(token, Problem::Undeclared))
        }
    }

    // The value of a call, of which the name was read.
    #[cycle(expressions)]
    #[tactic(auto, unfolding(crate::specs::Expressions::call_at))]
    fn call(
        &mut self,
        scope: &Scope<'_>,
        token: Token<'_>,
        function: Function,
        explicit: bool,
        depth: usize,
    ) -> Result<Expression, Stop>
        ensures { Gives (λ expression. (phrase expression, left self.new)) result (call_at (known scope.now) (readers (known scope.now) depth) function explicit (left self.old)) }
    {
        let count = arguments_of(function, explicit);
        let call = self.arguments(scope, token, function, count, explicit, depth)?;
        self.end_arguments(count)?;
        Ok(call)
    }

    /// The call up to its last parenthesis.
    #[cycle(expressions)]
    pub(crate) fn arguments(
        &mut self,
        scope: &Scope<'_>,
        token: Token<'_>,
        function: Function,
        count: usize,
        explicit: bool,
        depth: usize,
    ) -> Result<Expression, Stop>
        ensures { Gives (λ expression. (phrase expression, left self.new)) result (arguments_at (known scope.now) (readers (known scope.now) depth) function count explicit (left self.old)) }
    {
        match function {
            Function::Load => {
                let location = self.first_location(scope, count, Kind::Atomic)?;
                let order = self.load_order(count, explicit)?;
                Ok(Expression::Load { location, order })
            }
            Function::Exchange => self.exchange(scope, count, explicit, depth),
            Function::Fetch(operator) => self.fetch(scope, operator, count, explicit, depth),
            Function::CompareExchange(strength) => {
                self.compare_exchange(scope, strength, count, explicit, depth)
            }
            Function::TryLock => {
                let mutex = self.first_location(scope, count, Kind::Mutex)?;
                Ok(Expression::TryLock(mutex))
            }
            Function::Store
            | Function::Fence
            | Function::Lock
            | Function::Unlock
            | Function::Wait
            | Function::Signal
            | Function::Broadcast
            | Function::Yield
            | Function::Assert => Err(Stop::at(token, Problem::NotAValue)),
        }
    }

    // The arguments of an exchange.
    #[cycle(expressions)]
    #[tactic(auto, unfolding(crate::specs::Expressions::exchange_at))]
    fn exchange(
        &mut self,
        scope: &Scope<'_>,
        count: usize,
        explicit: bool,
        depth: usize,
    ) -> Result<Expression, Stop>
        ensures { Gives (λ expression. (phrase expression, left self.new)) result (exchange_at (known scope.now) (readers (known scope.now) depth) count explicit (left self.old)) }
    {
        let location = self.first_location(scope, count, Kind::Atomic)?;
        let value = self.boxed_argument(scope, count, depth)?;
        let order = self.order(count, explicit)?.1;
        Ok(Expression::Exchange {
            location,
            value,
            order,
        })
    }

    // The arguments of a fetch with an operator.
    #[cycle(expressions)]
    #[tactic(auto, unfolding(crate::specs::Expressions::fetch_at))]
    fn fetch(
        &mut self,
        scope: &Scope<'_>,
        operator: FetchOperator,
        count: usize,
        explicit: bool,
        depth: usize,
    ) -> Result<Expression, Stop>
        ensures { Gives (λ expression. (phrase expression, left self.new)) result (fetch_at (known scope.now) (readers (known scope.now) depth) operator count explicit (left self.old)) }
    {
        let location = self.first_location(scope, count, Kind::Atomic)?;
        let value = self.boxed_argument(scope, count, depth)?;
        let order = self.order(count, explicit)?.1;
        Ok(Expression::Fetch {
            operator,
            location,
            value,
            order,
        })
    }

    // The arguments of a compare-exchange.
    #[cycle(expressions)]
    #[tactic(auto, unfolding(crate::specs::Expressions::compare_exchange_at))]
    fn compare_exchange(
        &mut self,
        scope: &Scope<'_>,
        strength: Strength,
        count: usize,
        explicit: bool,
        depth: usize,
    ) -> Result<Expression, Stop>
        ensures { Gives (λ expression. (phrase expression, left self.new)) result (compare_exchange_at (known scope.now) (readers (known scope.now) depth) strength count explicit (left self.old)) }
    {
        let location = self.first_location(scope, count, Kind::Atomic)?;
        let expected = self.compared(scope, count, depth)?;
        let value = self.boxed_argument(scope, count, depth)?;
        let success = self.order(count, explicit)?.1;
        let failure = self.load_order(count, explicit)?;
        Ok(Expression::CompareExchange {
            strength,
            location,
            expected,
            value,
            success,
            failure,
        })
    }

    // A further argument.
    #[cycle(expressions)]
    #[tactic(auto, using(crate::proofs::ExpressionSteps::many_is), unfolding(crate::specs::Expressions::argument_at))]
    fn boxed_argument(
        &mut self,
        scope: &Scope<'_>,
        count: usize,
        depth: usize,
    ) -> Result<Box<Expression>, Stop>
        ensures { Gives (λ argument. (phrase argument.value, left self.new)) result (argument_at (readers (known scope.now) depth) (left self.old)) }
    {
        self.next_argument(count)?;
        let argument = self.binary(scope, 1, depth)?;
        Ok(Box::new(self.alloc, argument)?)
    }

    // What a compare-exchange compares with: `&r`, a plain int's pointer, or a value.
    #[cycle(expressions)]
    #[tactic(auto, using(crate::proofs::ExpressionSteps::many_is), unfolding(crate::specs::Expressions::compared_at))]
    fn compared(&mut self, scope: &Scope<'_>, count: usize, depth: usize) -> Result<Expected, Stop>
        ensures { Gives (λ compared. (comparand compared, left self.new)) result (compared_at (known scope.now) (readers (known scope.now) depth) (left self.old)) }
    {
        self.next_argument(count)?;
        if self.eat(Symbol::Ampersand) {
            let name = self.name(Wanted::Register)?;
            return Ok(Expected::Register(self.register(scope, name)?));
        }
        if let Some(location) = self.plain_pointer(scope) {
            self.take();
            return Ok(Expected::Plain(location));
        }
        let value = self.binary(scope, 1, depth)?;
        Ok(Expected::Value(Box::new(self.alloc, value)?))
    }

    // The plain int to which the next token points, if it is one.
    #[tactic(auto, unfolding(crate::specs::Expressions::plain_at))]
    fn plain_pointer(&self, scope: &Scope<'_>) -> Option<usize>
        ensures { result ≡ plain_at (known scope.now) (left self.now) }
    {
        let token = self.peek();
        if token.kind != TokenKind::Name || scope.register_of(token).is_some() {
            return None;
        }
        scope.plain_of(token)
    }

    /// The plain int after a star.
    #[tactic(auto, unfolding(crate::specs::Expressions::pointed_at))]
    pub(crate) fn pointed(&mut self, scope: &Scope<'_>) -> Result<usize, Stop>
        ensures { Gives (λ location. (location, left self.new)) result (pointed_at (known scope.now) (left self.old)) }
    {
        let token = self.peek();
        if token.kind == TokenKind::Symbol(Symbol::Star) {
            return Err(Stop::unsupported(token, Feature::Pointers));
        }
        match self.location(scope, Kind::Plain) {
            Err(
                Stop::At(
                    Problem::WrongKind {
                        wanted: _,
                        found: Kind::Atomic,
                    },
                    _,
                    _,
                ),
            ) => Err(Stop::unsupported(token, Feature::AtomicAsPlain)),
            answer => answer,
        }
    }

    /// A location of this kind, one of the thread's parameters.
    #[tactic(auto, unfolding(crate::specs::Expressions::location_at))]
    pub(crate) fn location(&mut self, scope: &Scope<'_>, wanted: Kind) -> Result<usize, Stop>
        ensures { Gives (λ location. (location, left self.new)) result (location_at (known scope.now) wanted (left self.old)) }
    {
        let token = self.peek();
        if token.kind == TokenKind::Symbol(Symbol::Ampersand) {
            return Err(Stop::unsupported(token, Feature::Pointers));
        }
        let token = self.name(Wanted::Location)?;
        if scope.register_of(token).is_some() {
            return Err(Stop::at(token, Problem::Expected(Wanted::Location)));
        }
        let Some((number, found)) = scope.parameter_of(token) else {
            return Err(Stop::at(token, scope.unknown(token)));
        };
        if found == wanted {
            Ok(number)
        } else {
            Err(Stop::at(token, Problem::WrongKind { wanted, found }))
        }
    }

    /// The first argument of a call that has so many, a location of this kind.
    #[tactic(auto, unfolding(crate::specs::Expressions::first_location_at))]
    pub(crate) fn first_location(
        &mut self,
        scope: &Scope<'_>,
        count: usize,
        kind: Kind,
    ) -> Result<usize, Stop>
        ensures { Gives (λ location. (location, left self.new)) result (first_location_at (known scope.now) count kind (left self.old)) }
    {
        self.begin_arguments(count)?;
        self.location(scope, kind)
    }

    /// The parenthesis before the arguments.
    #[tactic(auto, unfolding(crate::specs::Expressions::begin_arguments_at))]
    pub(crate) fn begin_arguments(&mut self, count: usize) -> Result<(), Stop>
        ensures { Gives (λ x. left self.new) result (begin_arguments_at count (left self.old)) }
    {
        self.expect(Symbol::OpenParenthesis)?;
        if count > 0 && self.sees(Symbol::CloseParenthesis) {
            return Err(Stop::at(self.peek(), Problem::Arguments(count)));
        }
        Ok(())
    }

    /// The comma before another argument.
    #[tactic(auto, unfolding(crate::specs::Expressions::next_argument_at))]
    pub(crate) fn next_argument(&mut self, count: usize) -> Result<(), Stop>
        ensures { Gives (λ x. left self.new) result (next_argument_at (left self.old)) }
    {
        if self.sees(Symbol::CloseParenthesis) {
            return Err(Stop::at(self.peek(), Problem::Arguments(count)));
        }
        self.expect(Symbol::Comma)
    }

    /// The parenthesis after the arguments.
    #[tactic(auto, unfolding(crate::specs::Expressions::end_arguments_at))]
    pub(crate) fn end_arguments(&mut self, count: usize) -> Result<(), Stop>
        ensures { Gives (λ x. left self.new) result (end_arguments_at (left self.old)) }
    {
        if self.sees(Symbol::Comma) {
            return Err(Stop::at(self.peek(), Problem::Arguments(count)));
        }
        self.expect(Symbol::CloseParenthesis)
    }

    /// The order after the other arguments, and its token: `memory_order_seq_cst` where the call isn't written with orders.
    #[tactic(auto, unfolding(crate::specs::Expressions::order_at))]
    pub(crate) fn order(
        &mut self,
        count: usize,
        explicit: bool,
    ) -> Result<(Token<'a>, Ordering), Stop>
        ensures { Gives (λ found. (found.1, left self.new)) result (order_at explicit (left self.old)) }
    {
        if !explicit {
            return Ok((self.peek(), Ordering::SeqCst));
        }
        self.next_argument(count)?;
        self.order_word()
    }

    /// An order, and its token.
    pub(crate) fn order_word(&mut self) -> Result<(Token<'a>, Ordering), Stop>
        ensures { Gives (λ found. (found.1, left self.new)) result (order_from (next (left self.old)).0 (passed (left self.old))) }
    {
        let token = self.peek();
        match token.kind {
            TokenKind::Word(Word::Order(order)) => {
                self.take();
                Ok((token, order))
            }
            TokenKind::Word(Word::Consume) => Err(Stop::unsupported(token, Feature::Consume)),
            _ => Err(self.expected(Wanted::Order)),
        }
    }

    // The order of a load.
    #[tactic(auto, unfolding(crate::specs::Expressions::load_order_at))]
    fn load_order(&mut self, count: usize, explicit: bool) -> Result<Ordering, Stop>
        ensures { Gives (λ order. (order, left self.new)) result (load_order_at explicit (left self.old)) }
    {
        let (token, order) = self.order(count, explicit)?;
        match order {
            Ordering::Relaxed | Ordering::Acquire | Ordering::SeqCst => Ok(order),
            Ordering::Release | Ordering::AcqRel => Err(Stop::at(token, Problem::NotALoadOrder)),
        }
    }
}

/// How many arguments the call has, with its orders where it is written with them.
pub(crate) fn arguments_of(function: Function, explicit: bool) -> usize
    ensures { result ≡ arguments_of function explicit }
{
    let orders = usize::from(explicit);
    match function {
        Function::Load => 1 + orders,
        Function::Store | Function::Exchange | Function::Fetch(_) => 2 + orders,
        Function::CompareExchange(_) => 3 + 2 * orders,
        Function::Wait => 2,
        Function::Fence
        | Function::Lock
        | Function::Unlock
        | Function::TryLock
        | Function::Signal
        | Function::Broadcast
        | Function::Assert => 1,
        Function::Yield => 0,
    }
}

/// How strongly an operator binds: from 1, the weakest, to 10.
pub(crate) fn binds(operator: BinaryOperator) -> u8
    ensures most { result ≤ 10 }
    ensures value { result ≡ binds operator }
{
    match operator {
        BinaryOperator::Or => 1,
        BinaryOperator::And => 2,
        BinaryOperator::BitOr => 3,
        BinaryOperator::BitXor => 4,
        BinaryOperator::BitAnd => 5,
        BinaryOperator::Eq | BinaryOperator::Ne => 6,
        BinaryOperator::Lt | BinaryOperator::Le | BinaryOperator::Gt | BinaryOperator::Ge => 7,
        BinaryOperator::Shl | BinaryOperator::Shr => 8,
        BinaryOperator::Add | BinaryOperator::Sub => 9,
        BinaryOperator::Mul | BinaryOperator::Div | BinaryOperator::Rem => 10,
    }
}

// The operator that a sign stands for between two expressions.
fn operator_of(symbol: Symbol) -> Option<BinaryOperator>
    ensures { result ≡ operator_of symbol }
{
    match symbol {
        Symbol::Either => Some(BinaryOperator::Or),
        Symbol::Both => Some(BinaryOperator::And),
        Symbol::Bar => Some(BinaryOperator::BitOr),
        Symbol::Caret => Some(BinaryOperator::BitXor),
        Symbol::Ampersand => Some(BinaryOperator::BitAnd),
        Symbol::Equal => Some(BinaryOperator::Eq),
        Symbol::NotEqual => Some(BinaryOperator::Ne),
        Symbol::Less => Some(BinaryOperator::Lt),
        Symbol::AtMost => Some(BinaryOperator::Le),
        Symbol::Greater => Some(BinaryOperator::Gt),
        Symbol::AtLeast => Some(BinaryOperator::Ge),
        Symbol::ShiftLeft => Some(BinaryOperator::Shl),
        Symbol::ShiftRight => Some(BinaryOperator::Shr),
        Symbol::Plus => Some(BinaryOperator::Add),
        Symbol::Minus => Some(BinaryOperator::Sub),
        Symbol::Star => Some(BinaryOperator::Mul),
        Symbol::Slash => Some(BinaryOperator::Div),
        Symbol::Percent => Some(BinaryOperator::Rem),
        _ => None,
    }
}

// The operator that a sign stands for before an expression.
fn unary_of(symbol: Symbol) -> Option<UnaryOperator>
    ensures { result ≡ unary_of symbol }
{
    match symbol {
        Symbol::Minus => Some(UnaryOperator::Neg),
        Symbol::Exclamation => Some(UnaryOperator::Not),
        Symbol::Tilde => Some(UnaryOperator::BitNot),
        _ => None,
    }
}
