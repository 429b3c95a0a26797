//! Writes a litmus test as the text that `read` reads. All names of a test that was read are found; a number that is no name's shows
//! as `?`.
ghost use Rattle.std.specs.Prelude.{◌≡◌, ◌++◌, ℕ, List, codes, map, nat_lt, slice_get, string_bytes, IfOk, OnOk, if◌then◌else◌};
ghost use Rattle.std.specs.Option.{option_map, unwrap_or};
ghost use Rattle.loom_text.specs.Conditions.{formula};
ghost use Rattle.loom_text.specs.Known.{located, spellings};
ghost use Rattle.loom_text.specs.Printing.{filter_text, listed_text, location_name, places_in, printed, printed_term, quantifier_text, question_text, terms_text, text_of, threads_in};
ghost use Rattle.loom_text.specs.Spelling.{binary_text, order_text, unary_text};

use crate::read::expressions::binds;
use crate::test::{
    Action, BinaryOperator, Condition, Expected, Expression, FetchOperator, Kind, Location,
    Quantifier, Statement, Strength, Term, Test, Thread, UnaryOperator,
};
use std::alloc::{AllocError, Global};
use std::sync::atomic::Ordering;

// How strongly an operator before an expression binds, and how strongly one binds that has no operands.
const UNARY: u8 = 11;

const WHOLE: u8 = 12;

// The names of the thread that is written.
#[derive(Clone, Copy)]
struct Names<'a> {
    locations: &'a [Location],
    registers: &'a [String],
}

/// The test as a text, with its locations and their types in the initial state. It fails only where memory is refused. Own.
pub fn write(alloc: Global, test: &Test) -> Result<String, AllocError>
    ensures { IfOk result (λ text. (before : List ℕ) × (string_bytes text ≡ before ++ question_text test.now)) }
{
    let mut text = String::new(alloc);
    let name = test.name.as_str();
    write!(text, "C {name}\n{{ ")?;
    for location in &test.locations {
        write_location(location, &mut text)?;
    }
    text.push_str("}\n")?;
    write_threads(test, &mut text)?;
    text.push('\n')?;
    write_question(test, &mut text)?;
    Ok(text)
}

fn write_threads(test: &Test, text: &mut String) -> Result<(), AllocError> {
    for (number, thread) in test.threads.iter().enumerate() {
        write!(text, "\nP{number} (")?;
        write_thread(&test.locations, thread, text)?;
    }
    Ok(())
}

// What follows the threads. No parentheses are written round the conditions, so that the deepest that is read is read again.
fn write_question(test: &Test, text: &mut String) -> Result<(), AllocError>
    ensures { OnOk result (string_bytes text.new ≡ string_bytes text.old ++ question_text test.now) }
{
    write_listed(test, text)?;
    write_filter(test, text)?;
    text.push_str(quantifier_word(test.quantifier))?;
    text.push(' ')?;
    write_condition(&test.condition, test, 1, text)?;
    text.push('\n')
}

fn write_filter(test: &Test, text: &mut String) -> Result<(), AllocError>
    ensures { OnOk result (string_bytes text.new ≡ string_bytes text.old
        ++ filter_text (places_in test.now) (threads_in test.now) (option_map formula test.now.filter)) }
{
    if let Some(filter) = &test.filter {
        text.push_str("filter ")?;
        write_condition(filter, test, 1, text)?;
        text.push('\n')?;
    }
    Ok(())
}

fn write_location(location: &Location, text: &mut String) -> Result<(), AllocError> {
    let kind = location.kind;
    let name = location.name.as_str();
    let value = location.value;
    match kind {
        Kind::Atomic | Kind::Plain => write!(text, "{kind} {name} = {value}; "),
        Kind::Mutex | Kind::Condvar => write!(text, "{kind} {name}; "),
    }
}

fn write_thread(
    locations: &[Location],
    thread: &Thread,
    text: &mut String,
) -> Result<(), AllocError> {
    let names = Names {
        locations,
        registers: &thread.registers,
    };
    write_parameters(&thread.parameters, names, text)?;
    text.push_str(") {\n")?;
    for statement in &thread.body {
        write_statement(statement, names, 1, text)?;
    }
    text.push_str("}\n")
}

fn write_parameters(
    parameters: &[usize],
    names: Names<'_>,
    text: &mut String,
) -> Result<(), AllocError> {
    for (place, parameter) in parameters.iter().enumerate() {
        if place > 0 {
            text.push_str(", ")?;
        }
        let kind = names
            .locations
            .get(*parameter)
            .map_or(Kind::Plain, |location| location.kind);
        let name = names.location(*parameter);
        write!(text, "{kind}* {name}")?;
    }
    Ok(())
}

impl<'a> Names<'a> {
    fn location(&self, number: usize) -> &'a str {
        location_name(self.locations, number)
    }

    fn register(&self, number: usize) -> &'a str {
        register_name(self.registers, number)
    }
}

#[tactic(auto, using(crate::proofs::NameLemmas::location_there))]
fn location_name(locations: &[Location], number: usize) -> &str
    ensures { result.now ≡ location_name (map located locations.now) number }
{
    match locations.get(number) {
        Some(location) => location.name.as_str(),
        None => "?",
    }
}

#[tactic(auto, using(crate::proofs::NameLemmas::register_there))]
fn register_name(registers: &[String], number: usize) -> &str
    ensures { result.now ≡ unwrap_or (slice_get (spellings registers.now) number) (codes "?") }
{
    match registers.get(number) {
        Some(register) => register.as_str(),
        None => "?",
    }
}

fn indent(level: usize, text: &mut String) -> Result<(), AllocError> {
    for _ in 0..level {
        text.push_str("  ")?;
    }
    Ok(())
}

#[cycle(write_statements)]
fn write_statement(
    statement: &Statement,
    names: Names<'_>,
    level: usize,
    text: &mut String,
) -> Result<(), AllocError> {
    indent(level, text)?;
    write_action(&statement.action, names, level, text)?;
    text.push('\n')
}

// The statements in braces, of which the last is at this level.
#[cycle(write_statements)]
fn write_block(
    body: &Vec<Statement>,
    names: Names<'_>,
    level: usize,
    text: &mut String,
) -> Result<(), AllocError> {
    text.push_str("{\n")?;
    for statement in body {
        write_statement(statement, names, level.saturating_add(1), text)?;
    }
    indent(level, text)?;
    text.push('}')
}

#[cycle(write_statements)]
fn write_action(
    action: &Action,
    names: Names<'_>,
    level: usize,
    text: &mut String,
) -> Result<(), AllocError> {
    match action {
        Action::If {
            condition,
            then,
            otherwise,
        } => {
            write_test("if", condition, names, text)?;
            text.push(' ')?;
            write_block(then, names, level, text)?;
            if !otherwise.is_empty() {
                text.push_str(" else ")?;
                write_block(otherwise, names, level, text)?;
            }
            Ok(())
        }
        Action::While { condition, body } => {
            write_test("while", condition, names, text)?;
            text.push(' ')?;
            write_block(body, names, level, text)
        }
        Action::DoWhile { body, condition } => {
            text.push_str("do ")?;
            write_block(body, names, level, text)?;
            write_test(" while", condition, names, text)?;
            text.push(';')
        }
        Action::Block(body) if body.is_empty() => text.push(';'),
        Action::Block(body) => write_block(body, names, level, text),
        simple => write_simple(simple, names, text),
    }
}

// A word, and an expression in parentheses.
fn write_test(
    word: &str,
    condition: &Expression,
    names: Names<'_>,
    text: &mut String,
) -> Result<(), AllocError> {
    write!(text, "{word} (")?;
    write_expression(condition, names, 1, text)?;
    text.push(')')
}

// A statement that ends with a semicolon.
fn write_simple(action: &Action, names: Names<'_>, text: &mut String) -> Result<(), AllocError> {
    match action {
        Action::Declare { register, value } => {
            text.push_str("int ")?;
            let name = names.register(*register);
            match value {
                Some(value) => write_assignment(name, value, names, text)?,
                None => text.push_str(name)?,
            }
        }
        Action::Assign { register, value } => {
            write_assignment(names.register(*register), value, names, text)?;
        }
        Action::Write { location, value } => {
            text.push('*')?;
            write_assignment(names.location(*location), value, names, text)?;
        }
        Action::Store {
            location,
            value,
            order,
        } => write_store(*location, value, *order, names, text)?,
        Action::Evaluate(expression) => write_expression(expression, names, 1, text)?,
        Action::Fence(order) => {
            let order = order_word(*order);
            write!(text, "atomic_thread_fence({order})")?;
        }
        Action::Assert(expression) => write_test("assert", expression, names, text)?,
        Action::Lock(mutex) => write_lock("mtx_lock", *mutex, names, text)?,
        Action::Unlock(mutex) => write_lock("mtx_unlock", *mutex, names, text)?,
        Action::Signal(condvar) => write_lock("cnd_signal", *condvar, names, text)?,
        Action::Broadcast(condvar) => write_lock("cnd_broadcast", *condvar, names, text)?,
        Action::Wait { condvar, mutex } => write_wait(*condvar, *mutex, names, text)?,
        Action::Yield => text.push_str("thrd_yield()")?,
        Action::If { .. } | Action::While { .. } | Action::DoWhile { .. } | Action::Block(_) => {}
    }
    text.push(';')
}

fn write_assignment(
    name: &str,
    value: &Expression,
    names: Names<'_>,
    text: &mut String,
) -> Result<(), AllocError> {
    write!(text, "{name} = ")?;
    write_expression(value, names, 1, text)
}

fn write_store(
    location: usize,
    value: &Expression,
    order: Ordering,
    names: Names<'_>,
    text: &mut String,
) -> Result<(), AllocError> {
    let name = names.location(location);
    write!(text, "atomic_store_explicit({name}")?;
    write_value(value, order, names, text)?;
    text.push(')')
}

// A call of a lock or of a condition variable.
fn write_lock(
    function: &str,
    location: usize,
    names: Names<'_>,
    text: &mut String,
) -> Result<(), AllocError> {
    let name = names.location(location);
    write!(text, "{function}({name})")
}

fn write_wait(
    condvar: usize,
    mutex: usize,
    names: Names<'_>,
    text: &mut String,
) -> Result<(), AllocError> {
    let condvar = names.location(condvar);
    let mutex = names.location(mutex);
    write!(text, "cnd_wait({condvar}, {mutex})")
}

// The expression, in parentheses where it binds less strongly than so.
#[cycle(write_expressions)]
fn write_expression(
    expression: &Expression,
    names: Names<'_>,
    lowest: u8,
    text: &mut String,
) -> Result<(), AllocError> {
    let parentheses = strength_of(expression) < lowest;
    if parentheses {
        text.push('(')?;
    }
    match expression {
        Expression::Number(number) => write!(text, "{number}")?,
        Expression::Register(register) => text.push_str(names.register(*register))?,
        Expression::Read(location) => {
            let name = names.location(*location);
            write!(text, "*{name}")?;
        }
        Expression::Unary(operator, operand) => {
            text.push_str(unary_sign(*operator))?;
            if begins_with_sign(operand) {
                text.push(' ')?;
            }
            write_expression(operand, names, UNARY, text)?;
        }
        Expression::Binary(operator, left, right) => {
            let sign = binary_sign(*operator);
            let level = binds(*operator);
            write_expression(left, names, level, text)?;
            write!(text, " {sign} ")?;
            write_expression(right, names, level + 1, text)?;
        }
        call => write_call(call, names, text)?,
    }
    if parentheses {
        text.push(')')?;
    }
    Ok(())
}

#[cycle(write_expressions)]
fn write_call(call: &Expression, names: Names<'_>, text: &mut String) -> Result<(), AllocError> {
    match call {
        Expression::Load { location, order } => {
            let name = names.location(*location);
            write!(text, "atomic_load_explicit({name}")?;
            write_order(*order, text)?;
        }
        Expression::Exchange {
            location,
            value,
            order,
        } => {
            let name = names.location(*location);
            write!(text, "atomic_exchange_explicit({name}")?;
            write_value(value, *order, names, text)?;
        }
        Expression::Fetch {
            operator,
            location,
            value,
            order,
        } => {
            let operator = fetch_word(*operator);
            let name = names.location(*location);
            write!(text, "atomic_fetch_{operator}_explicit({name}")?;
            write_value(value, *order, names, text)?;
        }
        Expression::TryLock(mutex) => {
            let name = names.location(*mutex);
            write!(text, "mtx_trylock({name}")?;
        }
        other => write_compare_exchange(other, names, text)?,
    }
    text.push(')')
}

// A compare-exchange up to its last parenthesis.
#[cycle(write_expressions)]
fn write_compare_exchange(
    call: &Expression,
    names: Names<'_>,
    text: &mut String,
) -> Result<(), AllocError> {
    let Expression::CompareExchange {
        strength,
        location,
        expected,
        value,
        success,
        failure,
    } = call
    else {
        return Ok(());
    };
    let strength = strength_word(*strength);
    let name = names.location(*location);
    write!(text, "atomic_compare_exchange_{strength}_explicit({name}, ")?;
    write_expected(expected, names, text)?;
    write_value(value, *success, names, text)?;
    write_order(*failure, text)
}

#[cycle(write_expressions)]
fn write_expected(
    expected: &Expected,
    names: Names<'_>,
    text: &mut String,
) -> Result<(), AllocError> {
    match expected {
        Expected::Value(value) => write_expression(value, names, 1, text),
        Expected::Register(register) => {
            let name = names.register(*register);
            write!(text, "&{name}")
        }
        Expected::Plain(location) => text.push_str(names.location(*location)),
    }
}

// A value and an order, each behind a comma.
#[cycle(write_expressions)]
fn write_value(
    value: &Expression,
    order: Ordering,
    names: Names<'_>,
    text: &mut String,
) -> Result<(), AllocError> {
    text.push_str(", ")?;
    write_expression(value, names, 1, text)?;
    write_order(order, text)
}

fn write_order(order: Ordering, text: &mut String) -> Result<(), AllocError> {
    let order = order_word(order);
    write!(text, ", {order}")
}

fn write_listed(test: &Test, text: &mut String) -> Result<(), AllocError>
    ensures { OnOk result (string_bytes text.new ≡ string_bytes text.old
        ++ listed_text (places_in test.now) (threads_in test.now) test.now.listed.items) }
{
    if test.listed.is_empty() {
        return Ok(());
    }
    write_terms(test, text)
}

fn write_terms(test: &Test, text: &mut String) -> Result<(), AllocError>
    ensures { OnOk result (string_bytes text.new ≡ string_bytes text.old
        ++ terms_text (places_in test.now) (threads_in test.now) test.now.listed.items) }
{
    text.push_str("locations [")?;
    for term in &test.listed {
        write_term(*term, test, text)?;
        text.push(';')?;
    }
    text.push_str("]\n")
}

#[tactic(auto, using(crate::proofs::NameLemmas::thread_there))]
fn write_term(term: Term, test: &Test, text: &mut String) -> Result<(), AllocError>
    ensures { OnOk result (string_bytes text.new ≡ string_bytes text.old
        ++ text_of (printed_term (places_in test.now) (threads_in test.now) term)) }
{
    match term {
        Term::Register { thread, register } => {
            let name = match test.threads.get(thread) {
                Some(found) => register_name(&found.registers, register),
                None => "?",
            };
            write!(text, "{thread}:{name}")
        }
        Term::Location(number) => {
            let name = location_name(&test.locations, number);
            write!(text, "[{name}]")
        }
    }
}

// The condition, in parentheses where it binds less strongly than so: 1 is `\/`, 2 is `/\` and 3 is `~`.
#[tactic(auto, unfolding(crate::specs::Printing::printed))]
fn write_condition(
    condition: &Condition,
    test: &Test,
    lowest: u8,
    text: &mut String,
) -> Result<(), AllocError>
    ensures { OnOk result (string_bytes text.new ≡ string_bytes text.old
        ++ text_of (printed (places_in test.now) (threads_in test.now) lowest (formula condition.now))) }
{
    match condition {
        Condition::Equal(term, value) => {
            write_term(*term, test, text)?;
            write!(text, "={value}")
        }
        Condition::Not(inner) => {
            text.push('~')?;
            write_condition(inner, test, 3, text)
        }
        Condition::And(left, right) => {
            open_parenthesis(2, lowest, text)?;
            write_condition(left, test, 2, text)?;
            text.push_str(" /\\ ")?;
            write_condition(right, test, 3, text)?;
            close_parenthesis(2, lowest, text)
        }
        Condition::Or(left, right) => {
            open_parenthesis(1, lowest, text)?;
            write_condition(left, test, 1, text)?;
            text.push_str(" \\/ ")?;
            write_condition(right, test, 2, text)?;
            close_parenthesis(1, lowest, text)
        }
    }
}

// A parenthesis, where what binds so strongly needs one.
fn open_parenthesis(level: u8, lowest: u8, text: &mut String) -> Result<(), AllocError>
    ensures { OnOk result (string_bytes text.new ≡ string_bytes text.old ++ (if nat_lt level lowest then codes "(" else codes "")) }
{
    if level < lowest {
        text.push('(')
    } else {
        Ok(())
    }
}

fn close_parenthesis(level: u8, lowest: u8, text: &mut String) -> Result<(), AllocError>
    ensures { OnOk result (string_bytes text.new ≡ string_bytes text.old ++ (if nat_lt level lowest then codes ")" else codes "")) }
{
    if level < lowest {
        text.push(')')
    } else {
        Ok(())
    }
}

fn strength_of(expression: &Expression) -> u8 {
    match expression {
        Expression::Unary(..) => UNARY,
        Expression::Binary(operator, _, _) => binds(*operator),
        Expression::Number(_)
        | Expression::Register(_)
        | Expression::Read(_)
        | Expression::Load { .. }
        | Expression::Exchange { .. }
        | Expression::Fetch { .. }
        | Expression::CompareExchange { .. }
        | Expression::TryLock(_) => WHOLE,
    }
}

// C would take two signs without a blank for another one.
fn begins_with_sign(expression: &Expression) -> bool {
    match expression {
        Expression::Number(number) => *number < 0,
        Expression::Unary(..) => true,
        Expression::Register(_)
        | Expression::Read(_)
        | Expression::Binary(..)
        | Expression::Load { .. }
        | Expression::Exchange { .. }
        | Expression::Fetch { .. }
        | Expression::CompareExchange { .. }
        | Expression::TryLock(_) => false,
    }
}

fn unary_sign(operator: UnaryOperator) -> &'static str
    ensures { result.now ≡ unary_text operator }
{
    match operator {
        UnaryOperator::Neg => "-",
        UnaryOperator::Not => "!",
        UnaryOperator::BitNot => "~",
    }
}

fn binary_sign(operator: BinaryOperator) -> &'static str
    ensures { result.now ≡ binary_text operator }
{
    match operator {
        BinaryOperator::Or => "||",
        BinaryOperator::And => "&&",
        BinaryOperator::BitOr => "|",
        BinaryOperator::BitXor => "^",
        BinaryOperator::BitAnd => "&",
        BinaryOperator::Eq => "==",
        BinaryOperator::Ne => "!=",
        BinaryOperator::Lt => "<",
        BinaryOperator::Le => "<=",
        BinaryOperator::Gt => ">",
        BinaryOperator::Ge => ">=",
        BinaryOperator::Shl => "<<",
        BinaryOperator::Shr => ">>",
        BinaryOperator::Add => "+",
        BinaryOperator::Sub => "-",
        BinaryOperator::Mul => "*",
        BinaryOperator::Div => "/",
        BinaryOperator::Rem => "%",
    }
}

fn fetch_word(operator: FetchOperator) -> &'static str {
    match operator {
        FetchOperator::Add => "add",
        FetchOperator::Sub => "sub",
        FetchOperator::Or => "or",
        FetchOperator::Xor => "xor",
        FetchOperator::And => "and",
    }
}

fn strength_word(strength: Strength) -> &'static str {
    match strength {
        Strength::Strong => "strong",
        Strength::Weak => "weak",
    }
}

fn order_word(order: Ordering) -> &'static str
    ensures { result.now ≡ order_text order }
{
    match order {
        Ordering::Relaxed => "memory_order_relaxed",
        Ordering::Acquire => "memory_order_acquire",
        Ordering::Release => "memory_order_release",
        Ordering::AcqRel => "memory_order_acq_rel",
        Ordering::SeqCst => "memory_order_seq_cst",
    }
}

fn quantifier_word(quantifier: Quantifier) -> &'static str
    ensures { result.now ≡ quantifier_text quantifier }
{
    match quantifier {
        Quantifier::Exists => "exists",
        Quantifier::NotExists => "~exists",
        Quantifier::Forall => "forall",
    }
}
