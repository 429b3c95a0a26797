//! The code of expressions.
use crate::run::assembler::Assembler;
use crate::run::code::{AtomicOperation, Operand, Operation, Update};
use crate::run::operators::Operator;
use crate::test::{BinaryOperator, Expected, Expression, FetchOperator, UnaryOperator};
use std::alloc::AllocError;
use std::sync::atomic::Ordering;

/// The code that evaluates the expression, from left to right, and where its value is then.
#[cycle(evaluate)]
pub(crate) fn evaluate(
    code: &mut Assembler,
    expression: &Expression,
) -> Result<Operand, AllocError> {
    match expression {
        Expression::Number(number) => Ok(Operand::Number(number.cast_unsigned())),
        Expression::Register(register) => Ok(Operand::Register(*register)),
        Expression::Read(cell) => answer(code, Operation::Read(*cell)),
        Expression::Unary(operator, operand) => {
            let number = evaluate(code, operand)?;
            unary(code, *operator, number)
        }
        Expression::Binary(operator, one, other) => {
            let number = evaluate(code, one)?;
            match operator {
                BinaryOperator::And => both(code, number, other),
                BinaryOperator::Or => either(code, number, other),
                _ => {
                    let number = kept_over(code, number, other)?;
                    let second = evaluate(code, other)?;
                    binary(code, *operator, number, second)
                }
            }
        }
        Expression::Load { .. }
        | Expression::Exchange { .. }
        | Expression::Fetch { .. }
        | Expression::CompareExchange { .. }
        | Expression::TryLock(_) => call(code, expression),
    }
}

// The second is evaluated only where the first is not 0.
#[cycle(evaluate)]
fn both(code: &mut Assembler, one: Operand, other: &Expression) -> Result<Operand, AllocError> {
    let holds = code.fresh(1);
    code.set(holds, Operand::Number(0))?;
    let out = code.jump_if_zero(one)?;
    let number = evaluate(code, other)?;
    code.compute_to(holds, Operator::Ne, number, Operand::Number(0))?;
    code.land(out);
    Ok(Operand::Register(holds))
}

// The second is evaluated only where the first is 0.
#[cycle(evaluate)]
fn either(code: &mut Assembler, one: Operand, other: &Expression) -> Result<Operand, AllocError> {
    let holds = code.fresh(1);
    code.set(holds, Operand::Number(1))?;
    let is_zero = code.compute(Operator::Eq, one, Operand::Number(0))?;
    let out = code.jump_if_zero(is_zero)?;
    let number = evaluate(code, other)?;
    code.compute_to(holds, Operator::Ne, number, Operand::Number(0))?;
    code.land(out);
    Ok(Operand::Register(holds))
}

// A call that has a value.
#[cycle(evaluate)]
fn call(code: &mut Assembler, expression: &Expression) -> Result<Operand, AllocError> {
    match expression {
        Expression::Load { location, order } => {
            let op = AtomicOperation::Load(*location, *order);
            answer(code, Operation::Atomic(op))
        }
        Expression::Exchange {
            location,
            value,
            order,
        } => {
            let number = evaluate(code, value)?;
            modify(code, *location, Update::Exchange, number, *order)
        }
        Expression::Fetch {
            operator,
            location,
            value,
            order,
        } => {
            let number = evaluate(code, value)?;
            modify(code, *location, fetching(*operator), number, *order)
        }
        Expression::CompareExchange { .. } => compare_exchange(code, expression),
        Expression::TryLock(mutex) => answer(code, Operation::TryLock(*mutex)),
        Expression::Number(_)
        | Expression::Register(_)
        | Expression::Read(_)
        | Expression::Unary(..)
        | Expression::Binary(..) => Ok(Operand::Number(0)),
    }
}

// A compare-exchange.
#[cycle(evaluate)]
fn compare_exchange(code: &mut Assembler, expression: &Expression) -> Result<Operand, AllocError> {
    let Expression::CompareExchange {
        strength: _,
        location,
        expected,
        value,
        success,
        failure,
    } = expression
    else {
        return Ok(Operand::Number(0));
    };
    let found = expect(code, expected, value)?;
    let new = evaluate(code, value)?;
    let op = AtomicOperation::CompareExchange(*location, found, new, *success, *failure);
    exchanged(code, op, expected)
}

// Whether a compare-exchange exchanges: 1, and else 0.
fn exchanged(
    code: &mut Assembler,
    op: AtomicOperation,
    expected: &Expected,
) -> Result<Operand, AllocError> {
    let keep = code.fresh(2);
    code.ask(keep, Operation::Atomic(op))?;
    put_found(code, expected, keep)?;
    Ok(Operand::Register(keep))
}

// What a compare-exchange expects. It stays what it is while the new value is evaluated.
#[cycle(evaluate)]
fn expect(
    code: &mut Assembler,
    expected: &Expected,
    value: &Expression,
) -> Result<Operand, AllocError> {
    match expected {
        Expected::Value(number) => {
            let number = evaluate(code, number)?;
            kept_over(code, number, value)
        }
        Expected::Register(register) => kept_over(code, Operand::Register(*register), value),
        Expected::Plain(cell) => answer(code, Operation::Read(*cell)),
    }
}

// The operation, and the register where its answer is.
fn answer(code: &mut Assembler, operation: Operation) -> Result<Operand, AllocError> {
    let keep = code.fresh(1);
    code.ask(keep, operation)?;
    Ok(Operand::Register(keep))
}

// Where a compare-exchange has failed, what it found goes where C puts it. Whether it has exchanged is in the first register, and
// what it found in the one behind it.
fn put_found(code: &mut Assembler, expected: &Expected, keep: usize) -> Result<(), AllocError> {
    let found = Operand::Register(keep.saturating_add(1));
    let has_failed = match expected {
        Expected::Value(_) => return Ok(()),
        Expected::Register(_) | Expected::Plain(_) => {
            code.compute(Operator::Eq, Operand::Register(keep), Operand::Number(0))?
        }
    };
    let out = code.jump_if_zero(has_failed)?;
    match expected {
        Expected::Value(_) => {}
        Expected::Register(register) => code.set(*register, found)?,
        Expected::Plain(cell) => code.tell(Operation::Write(*cell, found))?,
    }
    code.land(out);
    Ok(())
}

// A number that stays what it is while the other expression is evaluated, which may change a register.
fn kept_over(
    code: &mut Assembler,
    number: Operand,
    other: &Expression,
) -> Result<Operand, AllocError> {
    match (number, other) {
        (Operand::Number(_), _) | (_, Expression::Number(_) | Expression::Register(_)) => Ok(
            number,
        ),
        (Operand::Register(_), _) => code.compute(Operator::Add, number, Operand::Number(0)),
    }
}

fn modify(
    code: &mut Assembler,
    atomic: usize,
    update: Update,
    number: Operand,
    order: Ordering,
) -> Result<Operand, AllocError> {
    let op = AtomicOperation::Update(atomic, update, number, order);
    answer(code, Operation::Atomic(op))
}

fn fetching(operator: FetchOperator) -> Update {
    match operator {
        FetchOperator::Add => Update::Add,
        FetchOperator::Sub => Update::Sub,
        FetchOperator::Or => Update::Or,
        FetchOperator::Xor => Update::Xor,
        FetchOperator::And => Update::And,
    }
}

fn unary(
    code: &mut Assembler,
    operator: UnaryOperator,
    number: Operand,
) -> Result<Operand, AllocError> {
    let zero = Operand::Number(0);
    match operator {
        UnaryOperator::Neg => code.compute(Operator::Sub, zero, number),
        UnaryOperator::Not => code.compute(Operator::Eq, number, zero),
        UnaryOperator::BitNot => code.compute(Operator::BitXor, number, Operand::Number(u32::MAX)),
    }
}

// A division by 0 fails as an assertion does.
fn binary(
    code: &mut Assembler,
    operator: BinaryOperator,
    one: Operand,
    other: Operand,
) -> Result<Operand, AllocError> {
    let (operator, one, other) = match operator {
        BinaryOperator::BitOr => (Operator::BitOr, one, other),
        BinaryOperator::BitXor => (Operator::BitXor, one, other),
        BinaryOperator::BitAnd => (Operator::BitAnd, one, other),
        BinaryOperator::Eq => (Operator::Eq, one, other),
        BinaryOperator::Ne | BinaryOperator::Or | BinaryOperator::And => (Operator::Ne, one, other),
        BinaryOperator::Lt => (Operator::Lt, one, other),
        BinaryOperator::Le => (Operator::Le, one, other),
        BinaryOperator::Gt => (Operator::Lt, other, one),
        BinaryOperator::Ge => (Operator::Le, other, one),
        BinaryOperator::Shl => (Operator::Shl, one, other),
        BinaryOperator::Shr => (Operator::Shr, one, other),
        BinaryOperator::Add => (Operator::Add, one, other),
        BinaryOperator::Sub => (Operator::Sub, one, other),
        BinaryOperator::Mul => (Operator::Mul, one, other),
        BinaryOperator::Div => (Operator::Div, one, other),
        BinaryOperator::Rem => (Operator::Rem, one, other),
    };
    if matches!(operator, Operator::Div | Operator::Rem) {
        fail_if_zero(code, other)?;
    }
    code.compute(operator, one, other)
}

/// The run fails as by an assertion if the number is 0.
pub(crate) fn fail_if_zero(code: &mut Assembler, number: Operand) -> Result<(), AllocError> {
    let is_zero = code.compute(Operator::Eq, number, Operand::Number(0))?;
    let out = code.jump_if_zero(is_zero)?;
    code.tell(Operation::Fail)?;
    code.land(out);
    Ok(())
}
