//! The code of statements.
use crate::run::assembler::Assembler;
use crate::run::code::{AtomicOperation, Instruction, Operation};
use crate::run::expressions::{evaluate, fail_if_zero};
use crate::test::{Action, Expression, Statement};
use loom_objects::location::Location;
use std::alloc::AllocError;
use std::sync::atomic::Ordering;

/// The code of the statements, one after another. They are in this file.
#[cycle(put_statements)]
pub(crate) fn put_statements(
    code: &mut Assembler,
    file: &str,
    statements: &[Statement],
) -> Result<(), AllocError> {
    for statement in statements {
        code.let_go();
        code.location = Some(Location::new(file, line_of(statement)));
        put_action(code, file, &statement.action)?;
    }
    Ok(())
}

// A line has no more than 32 bits.
fn line_of(statement: &Statement) -> u32 {
    u32::try_from(statement.line).unwrap_or(u32::MAX)
}

#[cycle(put_statements)]
fn put_action(code: &mut Assembler, file: &str, action: &Action) -> Result<(), AllocError> {
    match action {
        Action::If { .. } => put_choice(code, file, action),
        Action::While { .. } => put_repetition(code, file, action),
        Action::DoWhile { .. } => put_late_repetition(code, file, action),
        Action::Block(statements) => put_statements(code, file, statements.as_slice()),
        Action::Declare { .. }
        | Action::Assign { .. }
        | Action::Write { .. }
        | Action::Store { .. }
        | Action::Evaluate(_)
        | Action::Fence(_)
        | Action::Lock(_)
        | Action::Unlock(_)
        | Action::Wait { .. }
        | Action::Signal(_)
        | Action::Broadcast(_)
        | Action::Yield
        | Action::Assert(_) => put_simple(code, action),
    }
}

// An `if`.
#[cycle(put_statements)]
fn put_choice(code: &mut Assembler, file: &str, action: &Action) -> Result<(), AllocError> {
    let Action::If {
        condition,
        then,
        otherwise,
    } = action
    else {
        return Ok(());
    };
    let number = evaluate(code, condition)?;
    let over = code.jump_if_zero(number)?;
    put_statements(code, file, then.as_slice())?;
    let out = code.jump()?;
    code.land(over);
    put_statements(code, file, otherwise.as_slice())?;
    code.land(out);
    Ok(())
}

// A `while`.
#[cycle(put_statements)]
fn put_repetition(code: &mut Assembler, file: &str, action: &Action) -> Result<(), AllocError> {
    let Action::While { condition, body } = action else {
        return Ok(());
    };
    let location = code.location;
    let again = code.here();
    let number = evaluate(code, condition)?;
    let out = code.jump_if_zero(number)?;
    put_statements(code, file, body.as_slice())?;
    code.location = location;
    code.add(Instruction::Jump(again))?;
    code.land(out);
    Ok(())
}

// A `do`.
#[cycle(put_statements)]
fn put_late_repetition(
    code: &mut Assembler,
    file: &str,
    action: &Action,
) -> Result<(), AllocError> {
    let Action::DoWhile { body, condition } = action else {
        return Ok(());
    };
    let location = code.location;
    let again = code.here();
    put_statements(code, file, body.as_slice())?;
    code.let_go();
    code.location = location;
    let number = evaluate(code, condition)?;
    let out = code.jump_if_zero(number)?;
    code.add(Instruction::Jump(again))?;
    code.land(out);
    Ok(())
}

// What holds no other statement.
fn put_simple(code: &mut Assembler, action: &Action) -> Result<(), AllocError> {
    match action {
        Action::Declare { register, value } => match value {
            Some(value) => assign(code, *register, value),
            None => Ok(()),
        },
        Action::Assign { register, value } => assign(code, *register, value),
        Action::Write { location, value } => {
            let number = evaluate(code, value)?;
            code.tell(Operation::Write(*location, number))
        }
        Action::Store {
            location,
            value,
            order,
        } => store(code, *location, value, *order),
        Action::Evaluate(value) => {
            evaluate(code, value)?;
            Ok(())
        }
        Action::Fence(order) => fence(code, *order),
        Action::Lock(mutex) => code.tell(Operation::Lock(*mutex)),
        Action::Unlock(mutex) => code.tell(Operation::Unlock(*mutex)),
        Action::Wait { condvar, mutex } => code.tell(Operation::Wait(*condvar, *mutex)),
        Action::Signal(condvar) => code.tell(Operation::Signal(*condvar)),
        Action::Broadcast(condvar) => code.tell(Operation::Broadcast(*condvar)),
        Action::Yield => code.tell(Operation::Yield),
        Action::Assert(value) => {
            let number = evaluate(code, value)?;
            fail_if_zero(code, number)
        }
        Action::If { .. } | Action::While { .. } | Action::DoWhile { .. } | Action::Block(_) => {
            Ok(())
        }
    }
}

// The register gets the expression's value.
fn assign(code: &mut Assembler, register: usize, value: &Expression) -> Result<(), AllocError> {
    let number = evaluate(code, value)?;
    code.set(register, number)
}

fn store(
    code: &mut Assembler,
    atomic: usize,
    value: &Expression,
    order: Ordering,
) -> Result<(), AllocError> {
    let number = evaluate(code, value)?;
    let op = AtomicOperation::Store(atomic, number, order);
    code.tell(Operation::Atomic(op))
}

// C has relaxed fences, which order nothing. The machine has none.
fn fence(code: &mut Assembler, order: Ordering) -> Result<(), AllocError> {
    match order {
        Ordering::Relaxed => Ok(()),
        Ordering::Acquire | Ordering::Release | Ordering::AcqRel | Ordering::SeqCst => {
            code.tell(Operation::Fence(order))
        }
    }
}
