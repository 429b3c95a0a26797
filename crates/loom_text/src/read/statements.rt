//! Statements, as C has them.
ghost use Rattle.loom_text.specs.Deeds.{deed, deeds};
ghost use Rattle.loom_text.specs.Expressions.{phrase};
ghost use Rattle.loom_text.specs.Known.{known};
ghost use Rattle.loom_text.specs.Statements.{action_with, all_declared, assert_at, assignment_at, block_with, branch_with, call_statement_at, choice_with, declaration_at, declarations_at, effect_at, ended_at, evaluated_at, fence_at, late_repetition_with, otherwise_with, repetition_with, simple_at, standing, statement_at, statement_with, statements_at, store_at, tested_at, value_at, wait_at, within, write_at};
ghost use Rattle.loom_text.specs.Deeds.{Nothing};
ghost use Rattle.loom_text.specs.Tokens.{Gives, after_sign, left};
ghost use Rattle.std.specs.Option.{option_map};
ghost use Rattle.loom_text.specs.declared.read.symbol.Symbol.TheVariants as signs;
ghost use Rattle.std.specs.Prelude.{length};

use crate::error::{Feature, Problem, Wanted};
use crate::read::expressions::arguments_of;
use crate::read::parser::{MAX_DEPTH, Parser};
use crate::read::scope::Scope;
use crate::read::stop::Stop;
use crate::read::symbol::Symbol;
use crate::read::token::{Token, TokenKind};
use crate::read::word::{Function, Word};
use crate::test::{Action, Expression, Kind, Statement};
use std::sync::atomic::Ordering;

impl Parser<'_> {
    /// Statements in braces.
    #[cycle(statements)]
    #[tactic(auto, unfolding(crate::specs::Statements::block_with))]
    pub(crate) fn block(
        &mut self,
        scope: &mut Scope<'_>,
        depth: usize,
    ) -> Result<Vec<Statement>, Stop>
        ensures { Gives (λ body. (deeds body.items, standing self.new scope.new)) result (block_with (statement_at depth) (standing self.old scope.old)) }
    {
        let outer = scope.open.len();
        self.expect(Symbol::OpenBrace)?;
        let body = self.statements(scope, depth)?;
        scope.open.truncate(outer);
        Ok(body)
    }

    // Statements up to a brace.
    #[cycle(statements)]
    fn statements(&mut self, scope: &mut Scope<'_>, depth: usize) -> Result<Vec<Statement>, Stop>
        ensures { Gives (λ body. (deeds body.items, standing self.new scope.new)) result
            (statements_at (statement_at depth) (length (left self.old).0) Nothing (standing self.old scope.old)) }
    {
        let mut body = Vec::new(self.alloc);
        for _ in 0..self.len() {
            if self.eat(Symbol::CloseBrace) {
                return Ok(body);
            }
            self.statement(scope, &mut body, depth)?;
        }
        Err(self.expected(Wanted::Statement))
    }

    // A statement, or several declarations, behind those that were read.
    #[cycle(statements)]
    #[tactic(auto, using(crate::proofs::StatementSteps::one_behind), unfolding(crate::specs::Statements::statement_with))]
    fn statement(
        &mut self,
        scope: &mut Scope<'_>,
        body: &mut Vec<Statement>,
        depth: usize,
    ) -> Result<(), Stop>
        ensures { Gives (λ x. (deeds body.new.items, standing self.new scope.new)) result
            (statement_with (within depth) (deeds body.old.items) (standing self.old scope.old)) }
    {
        let token = self.peek();
        if matches!(token.kind, TokenKind::Word(Word::Type(_) | Word::Qualifier)) {
            return self.declarations(scope, body);
        }
        let line = token.line;
        let action = self.action(scope, depth)?;
        body.push(Statement { line, action })?;
        Ok(())
    }

    // What isn't a declaration.
    #[cycle(statements)]
    #[tactic(auto, using(crate::proofs::StatementSteps::one_deeper, crate::proofs::StatementSteps::none_deeper, crate::proofs::StatementSteps::held), unfolding(crate::specs::Statements::action_with))]
    fn action(&mut self, scope: &mut Scope<'_>, depth: usize) -> Result<Action, Stop>
        ensures { Gives (λ action. (deed action, standing self.new scope.new)) result (action_with (within depth) (standing self.old scope.old)) }
    {
        match self.peek().kind {
            TokenKind::Word(Word::If) => {
                self.take();
                let inside = self.deeper(depth)?;
                self.choice(scope, inside)
            }
            TokenKind::Word(Word::While) => {
                self.take();
                let inside = self.deeper(depth)?;
                self.repetition(scope, inside)
            }
            TokenKind::Word(Word::Do) => {
                self.take();
                let inside = self.deeper(depth)?;
                self.late_repetition(scope, inside)
            }
            TokenKind::Symbol(Symbol::OpenBrace) => {
                let inside = self.deeper(depth)?;
                Ok(Action::Block(self.block(scope, inside)?))
            }
            _ => self.ended(scope),
        }
    }

    // What follows `if`.
    #[cycle(statements)]
    #[tactic(auto, using(crate::proofs::StatementSteps::chosen), unfolding(crate::specs::Statements::choice_with))]
    fn choice(&mut self, scope: &mut Scope<'_>, depth: usize) -> Result<Action, Stop>
        ensures { Gives (λ action. (deed action, standing self.new scope.new)) result (choice_with (statement_at depth) (standing self.old scope.old)) }
    {
        let condition = self.tested(scope)?;
        let then = self.branch(scope, depth)?;
        let otherwise = self.otherwise(scope, depth)?;
        Ok(Action::If {
            condition,
            then,
            otherwise,
        })
    }

    // `else` and what follows it, if it is there.
    #[cycle(statements)]
    #[tactic(auto, unfolding(crate::specs::Statements::otherwise_with))]
    fn otherwise(&mut self, scope: &mut Scope<'_>, depth: usize) -> Result<Vec<Statement>, Stop>
        ensures { Gives (λ body. (deeds body.items, standing self.new scope.new)) result (otherwise_with (statement_at depth) (standing self.old scope.old)) }
    {
        if self.peek().kind != TokenKind::Word(Word::Else) {
            return Ok(Vec::new(self.alloc));
        }
        self.take();
        self.branch(scope, depth)
    }

    // What follows `while`.
    #[cycle(statements)]
    #[tactic(auto, using(crate::proofs::StatementSteps::repeated), unfolding(crate::specs::Statements::repetition_with))]
    fn repetition(&mut self, scope: &mut Scope<'_>, depth: usize) -> Result<Action, Stop>
        ensures { Gives (λ action. (deed action, standing self.new scope.new)) result (repetition_with (statement_at depth) (standing self.old scope.old)) }
    {
        let condition = self.tested(scope)?;
        let body = self.branch(scope, depth)?;
        Ok(Action::While { condition, body })
    }

    // What follows `do`.
    #[cycle(statements)]
    #[tactic(auto, using(crate::proofs::StatementSteps::repeated_late), unfolding(crate::specs::Statements::late_repetition_with))]
    fn late_repetition(&mut self, scope: &mut Scope<'_>, depth: usize) -> Result<Action, Stop>
        ensures { Gives (λ action. (deed action, standing self.new scope.new)) result (late_repetition_with (statement_at depth) (standing self.old scope.old)) }
    {
        let body = self.branch(scope, depth)?;
        if self.peek().kind != TokenKind::Word(Word::While) {
            return Err(self.expected(Wanted::While));
        }
        self.take();
        let condition = self.tested(scope)?;
        self.expect(Symbol::Semicolon)?;
        Ok(Action::DoWhile { body, condition })
    }

    // An expression in parentheses.
    #[tactic(auto, unfolding(crate::specs::Statements::tested_at))]
    fn tested(&mut self, scope: &Scope<'_>) -> Result<Expression, Stop>
        ensures { Gives (λ condition. (phrase condition, standing self.new scope.now)) result (tested_at (standing self.old scope.now)) }
    {
        self.expect(Symbol::OpenParenthesis)?;
        let condition = self.expression(scope)?;
        self.expect(Symbol::CloseParenthesis)?;
        Ok(condition)
    }

    // Statements in braces, or one alone.
    #[cycle(statements)]
    #[tactic(auto, using(crate::proofs::StatementSteps::statement_is), unfolding(crate::specs::Statements::branch_with))]
    fn branch(&mut self, scope: &mut Scope<'_>, depth: usize) -> Result<Vec<Statement>, Stop>
        ensures { Gives (λ body. (deeds body.items, standing self.new scope.new)) result (branch_with (statement_at depth) (standing self.old scope.old)) }
    {
        if self.sees(Symbol::OpenBrace) {
            return self.block(scope, depth);
        }
        let outer = scope.open.len();
        let mut body = Vec::new(self.alloc);
        self.statement(scope, &mut body, depth)?;
        scope.open.truncate(outer);
        Ok(body)
    }

    // `int r = e, s;`.
    #[tactic(auto, unfolding(crate::specs::Statements::declarations_at))]
    fn declarations(&mut self, scope: &mut Scope<'_>, body: &mut Vec<Statement>) -> Result<(), Stop>
        ensures { Gives (λ x. (deeds body.new.items, standing self.new scope.new)) result (declarations_at (deeds body.old.items) (standing self.old scope.old)) }
    {
        let token = self.peek();
        match self.kind()? {
            Some(Kind::Plain) => self.all_declared(scope, body),
            Some(Kind::Atomic | Kind::Mutex | Kind::Condvar) => {
                Err(Stop::unsupported(token, Feature::Type))
            }
            None => Err(self.expected(Wanted::Statement)),
        }
    }

    // Registers with commas between them, and a semicolon behind the last.
    fn all_declared(&mut self, scope: &mut Scope<'_>, body: &mut Vec<Statement>) -> Result<(), Stop>
        ensures { Gives (λ x. (deeds body.new.items, standing self.new scope.new)) result
            (all_declared (length (left self.old).0) (deeds body.old.items) (standing self.old scope.old)) }
    {
        for _ in 0..self.len() {
            let statement = self.declaration(scope)?;
            body.push(statement)?;
            if !self.eat(Symbol::Comma) {
                self.expect(Symbol::Semicolon)?;
                return Ok(());
            }
        }
        Err(self.expected(Wanted::Symbol(Symbol::Semicolon)))
    }

    // A register, with its value if the text has one. The value may not name the register.
    #[tactic(auto, unfolding(crate::specs::Statements::declaration_at))]
    fn declaration(&mut self, scope: &mut Scope<'_>) -> Result<Statement, Stop>
        ensures { Gives (λ statement. (deed statement.action, standing self.new scope.new)) result (declaration_at (standing self.old scope.old)) }
    {
        if self.sees(Symbol::Star) {
            return Err(Stop::unsupported(self.peek(), Feature::Pointers));
        }
        let name = self.name(Wanted::Name)?;
        if self.sees(Symbol::OpenBracket) {
            return Err(Stop::unsupported(self.peek(), Feature::Arrays));
        }
        let value = self.value(scope)?;
        let register = scope.declare_register(name)?;
        let line = name.line;
        let action = Action::Declare { register, value };
        Ok(Statement { line, action })
    }

    // What a register is given, if it is given something.
    #[tactic(auto, unfolding(crate::specs::Statements::value_at))]
    fn value(&mut self, scope: &Scope<'_>) -> Result<Option<Expression>, Stop>
        ensures { Gives (λ value. (option_map phrase value, left self.new)) result (value_at (known scope.now) (left self.old)) }
    {
        if !self.eat(Symbol::Assign) {
            return Ok(None);
        }
        let value = self.expression(scope)?;
        Ok(Some(value))
    }

    // A statement that ends with a semicolon, with it.
    #[tactic(auto, unfolding(crate::specs::Statements::ended_at))]
    fn ended(&mut self, scope: &Scope<'_>) -> Result<Action, Stop>
        ensures { Gives (λ action. (deed action, standing self.new scope.now)) result (ended_at (standing self.old scope.now)) }
    {
        let action = self.simple(scope)?;
        self.expect(Symbol::Semicolon)?;
        Ok(action)
    }

    // A statement that ends with a semicolon, up to it.
    #[tactic(auto, unfolding(crate::specs::Statements::simple_at))]
    fn simple(&mut self, scope: &Scope<'_>) -> Result<Action, Stop>
        ensures { Gives (λ action. (deed action, left self.new)) result (simple_at (known scope.now) (left self.old)) }
    {
        let token = self.peek();
        match token.kind {
            TokenKind::Symbol(Symbol::Semicolon) => Ok(Action::Block(Vec::new(self.alloc))),
            TokenKind::Symbol(Symbol::Star) => {
                self.take();
                self.write(scope)
            }
            TokenKind::Name => {
                self.take();
                self.assignment(scope, token)
            }
            TokenKind::Word(Word::Function(function, explicit)) => {
                self.take();
                self.call_statement(scope, token, function, explicit)
            }
            TokenKind::Word(Word::OtherType | Word::Void) => {
                Err(Stop::unsupported(token, Feature::Type))
            }
            TokenKind::Word(Word::OtherStatement) => {
                Err(Stop::unsupported(token, Feature::Statement))
            }
            _ => Err(self.expected(Wanted::Statement)),
        }
    }

    // What follows the star of a write.
    #[tactic(auto, unfolding(crate::specs::Statements::write_at))]
    fn write(&mut self, scope: &Scope<'_>) -> Result<Action, Stop>
        ensures { Gives (λ action. (deed action, left self.new)) result (write_at (known scope.now) (left self.old)) }
    {
        let location = self.pointed(scope)?;
        self.assign()?;
        let value = self.expression(scope)?;
        Ok(Action::Write { location, value })
    }

    // What follows the name of a register.
    #[tactic(auto, unfolding(crate::specs::Statements::assignment_at))]
    fn assignment(&mut self, scope: &Scope<'_>, name: Token<'_>) -> Result<Action, Stop>
        ensures { Gives (λ action. (deed action, left self.new)) result (assignment_at (known scope.now) name.entry.spelling.now (left self.old)) }
    {
        if self.peek().kind == TokenKind::Name && scope.register_of(name).is_none() {
            return Err(Stop::unsupported(name, Feature::Type));
        }
        let register = self.register(scope, name)?;
        self.assign()?;
        let value = self.expression(scope)?;
        Ok(Action::Assign { register, value })
    }

    // `=`, the one assignment that there is.
    fn assign(&mut self) -> Result<(), Stop>
        ensures { Gives (λ x. left self.new) result (after_sign signs.Assign (left self.old)) }
    {
        let token = self.peek();
        match token.kind {
            TokenKind::Symbol(Symbol::OpenBracket) => {
                Err(Stop::unsupported(token, Feature::Arrays))
            }
            TokenKind::Symbol(
                Symbol::Plus
                | Symbol::Minus
                | Symbol::Star
                | Symbol::Slash
                | Symbol::Percent
                | Symbol::Ampersand
                | Symbol::Bar
                | Symbol::Caret
                | Symbol::ShiftLeft
                | Symbol::ShiftRight
                | Symbol::AtMost
                | Symbol::AtLeast,
            ) => Err(Stop::unsupported(token, Feature::Assignment)),
            _ => self.expect(Symbol::Assign),
        }
    }

    // A call of which the name was read.
    #[tactic(auto, unfolding(crate::specs::Statements::call_statement_at))]
    fn call_statement(
        &mut self,
        scope: &Scope<'_>,
        token: Token<'_>,
        function: Function,
        explicit: bool,
    ) -> Result<Action, Stop>
        ensures { Gives (λ action. (deed action, left self.new)) result (call_statement_at (known scope.now) function explicit (left self.old)) }
    {
        let count = arguments_of(function, explicit);
        let action = self.effect(scope, token, function, count, explicit)?;
        self.end_arguments(count)?;
        Ok(action)
    }

    // The call up to its last parenthesis.
    fn effect(
        &mut self,
        scope: &Scope<'_>,
        token: Token<'_>,
        function: Function,
        count: usize,
        explicit: bool,
    ) -> Result<Action, Stop>
        ensures { Gives (λ action. (deed action, left self.new)) result (effect_at (known scope.now) function count explicit (left self.old)) }
    {
        match function {
            Function::Load
            | Function::Exchange
            | Function::Fetch(_)
            | Function::CompareExchange(_)
            | Function::TryLock => self.evaluated(scope, token, function, count, explicit),
            Function::Store => self.store(scope, count, explicit),
            Function::Fence => self.fence(count),
            Function::Lock => {
                let mutex = self.first_location(scope, count, Kind::Mutex)?;
                Ok(Action::Lock(mutex))
            }
            Function::Unlock => {
                let mutex = self.first_location(scope, count, Kind::Mutex)?;
                Ok(Action::Unlock(mutex))
            }
            Function::Wait => self.wait(scope, count),
            Function::Signal => {
                let condvar = self.first_location(scope, count, Kind::Condvar)?;
                Ok(Action::Signal(condvar))
            }
            Function::Broadcast => {
                let condvar = self.first_location(scope, count, Kind::Condvar)?;
                Ok(Action::Broadcast(condvar))
            }
            Function::Yield => {
                self.begin_arguments(count)?;
                Ok(Action::Yield)
            }
            Function::Assert => self.asserted(scope, count),
        }
    }

    // A call for what it does.
    #[tactic(auto, unfolding(crate::specs::Statements::evaluated_at))]
    fn evaluated(
        &mut self,
        scope: &Scope<'_>,
        token: Token<'_>,
        function: Function,
        count: usize,
        explicit: bool,
    ) -> Result<Action, Stop>
        ensures { Gives (λ action. (deed action, left self.new)) result (evaluated_at (known scope.now) function count explicit (left self.old)) }
    {
        self.begin_operators();
        let depth = self.deeper(MAX_DEPTH)?;
        let call = self.arguments(scope, token, function, count, explicit, depth)?;
        Ok(Action::Evaluate(call))
    }

    // The arguments of a fence.
    #[tactic(auto, unfolding(crate::specs::Statements::fence_at))]
    fn fence(&mut self, count: usize) -> Result<Action, Stop>
        ensures { Gives (λ action. (deed action, left self.new)) result (fence_at count (left self.old)) }
    {
        self.begin_arguments(count)?;
        let order = self.order_word()?.1;
        Ok(Action::Fence(order))
    }

    // The arguments of an assertion.
    #[tactic(auto, unfolding(crate::specs::Statements::assert_at))]
    fn asserted(&mut self, scope: &Scope<'_>, count: usize) -> Result<Action, Stop>
        ensures { Gives (λ action. (deed action, left self.new)) result (assert_at (known scope.now) count (left self.old)) }
    {
        self.begin_arguments(count)?;
        let asserted = self.expression(scope)?;
        Ok(Action::Assert(asserted))
    }

    // The arguments of a wait.
    #[tactic(auto, unfolding(crate::specs::Statements::wait_at))]
    fn wait(&mut self, scope: &Scope<'_>, count: usize) -> Result<Action, Stop>
        ensures { Gives (λ action. (deed action, left self.new)) result (wait_at (known scope.now) count (left self.old)) }
    {
        let condvar = self.first_location(scope, count, Kind::Condvar)?;
        self.next_argument(count)?;
        let mutex = self.location(scope, Kind::Mutex)?;
        Ok(Action::Wait { condvar, mutex })
    }

    // The arguments of a store.
    #[tactic(auto, unfolding(crate::specs::Statements::store_at))]
    fn store(&mut self, scope: &Scope<'_>, count: usize, explicit: bool) -> Result<Action, Stop>
        ensures { Gives (λ action. (deed action, left self.new)) result (store_at (known scope.now) count explicit (left self.old)) }
    {
        let location = self.first_location(scope, count, Kind::Atomic)?;
        self.next_argument(count)?;
        let value = self.expression(scope)?;
        let (token, order) = self.order(count, explicit)?;
        match order {
            Ordering::Relaxed | Ordering::Release | Ordering::SeqCst => Ok(Action::Store {
                location,
                value,
                order,
            }),
            Ordering::Acquire | Ordering::AcqRel => {
                Err(Stop::at(token, Problem::NotAStoreOrder))
            }
        }
    }
}
