//! Tests that are made by chance: what is written of each is read as the same test, but for the lines.
use crate::tests::reading::numbers::Numbers;
use loom_text::read::read;
use loom_text::test::{
    Action, BinaryOperator, Condition, Expected, Expression, FetchOperator, Kind, Location,
    Quantifier, Statement, Strength, Term, Test, Thread, UnaryOperator,
};
use loom_text::write::write;
use std::alloc::{AllocError, Global};
use std::sync::atomic::Ordering;

const TESTS: u32 = 200;

const UNARY: [UnaryOperator; 3] = [
    UnaryOperator::Neg,
    UnaryOperator::Not,
    UnaryOperator::BitNot,
];

const BINARY: [BinaryOperator; 18] = [
    BinaryOperator::Or,
    BinaryOperator::And,
    BinaryOperator::BitOr,
    BinaryOperator::BitXor,
    BinaryOperator::BitAnd,
    BinaryOperator::Eq,
    BinaryOperator::Ne,
    BinaryOperator::Lt,
    BinaryOperator::Le,
    BinaryOperator::Gt,
    BinaryOperator::Ge,
    BinaryOperator::Shl,
    BinaryOperator::Shr,
    BinaryOperator::Add,
    BinaryOperator::Sub,
    BinaryOperator::Mul,
    BinaryOperator::Div,
    BinaryOperator::Rem,
];

const FETCHES: [FetchOperator; 5] = [
    FetchOperator::Add,
    FetchOperator::Sub,
    FetchOperator::Or,
    FetchOperator::Xor,
    FetchOperator::And,
];

const ORDERS: [Ordering; 5] = [
    Ordering::Relaxed,
    Ordering::Acquire,
    Ordering::SeqCst,
    Ordering::Release,
    Ordering::AcqRel,
];

// The locations of each test: two atomics, a plain int, a lock and a condition variable.
const LOCATIONS: [(&str, Kind, i32); 5] = [
    ("x", Kind::Atomic, 0),
    ("y", Kind::Atomic, -3),
    ("p", Kind::Plain, 7),
    ("m", Kind::Mutex, 0),
    ("c", Kind::Condvar, 0),
];

// One of the list, or this one.
fn one_of<T: Copy>(list: &[T], other: T, numbers: &mut Numbers) -> T {
    let number = numbers.below(list.len());
    list.get(number).copied().unwrap_or(other)
}

// An order that a load has, and a store.
fn load_order(numbers: &mut Numbers) -> Ordering {
    one_of(&ORDERS[..3], Ordering::Relaxed, numbers)
}

fn store_order(numbers: &mut Numbers) -> Ordering {
    match one_of(&ORDERS[..3], Ordering::Relaxed, numbers) {
        Ordering::Acquire => Ordering::Release,
        order => order,
    }
}

fn any_order(numbers: &mut Numbers) -> Ordering {
    one_of(&ORDERS, Ordering::Relaxed, numbers)
}

// An expression without parts.
fn leaf(numbers: &mut Numbers) -> Expression {
    match numbers.below(5) {
        0 => Expression::Register(numbers.below(4)),
        1 => Expression::Read(2),
        2 => Expression::TryLock(3),
        3 => {
            let location = numbers.below(2);
            let order = load_order(numbers);
            Expression::Load { location, order }
        }
        _ => Expression::Number(if numbers.below(2) == 0 {
            2_147_483_647
        } else {
            10
        }),
    }
}

// An expression of which no part is deeper than so.
#[cycle(expressions)]
fn expression(alloc: Global, numbers: &mut Numbers, depth: u8) -> Result<Expression, AllocError> {
    if depth == 0 {
        return Ok(leaf(numbers));
    }
    let value = Box::new(alloc, expression(alloc, numbers, depth - 1)?)?;
    let location = numbers.below(2);
    let order = any_order(numbers);
    match numbers.below(6) {
        0 => Ok(Expression::Unary(one_of(&UNARY, UnaryOperator::Neg, numbers), value)),
        1 => Ok(Expression::Exchange {
            location,
            value,
            order,
        }),
        2 => Ok(Expression::Fetch {
            operator: one_of(&FETCHES, FetchOperator::Add, numbers),
            location,
            value,
            order,
        }),
        3 => compare_exchange(alloc, numbers, value, depth - 1),
        _ => {
            let second = Box::new(alloc, expression(alloc, numbers, depth - 1)?)?;
            let operator = one_of(&BINARY, BinaryOperator::Add, numbers);
            Ok(Expression::Binary(operator, value, second))
        }
    }
}

// A compare-exchange with this value.
#[cycle(expressions)]
fn compare_exchange(
    alloc: Global,
    numbers: &mut Numbers,
    value: Box<Expression>,
    depth: u8,
) -> Result<Expression, AllocError> {
    let expected = match numbers.below(3) {
        0 => Expected::Register(numbers.below(4)),
        1 => Expected::Plain(2),
        _ => Expected::Value(Box::new(alloc, expression(alloc, numbers, depth)?)?),
    };
    Ok(Expression::CompareExchange {
        strength: one_of(&[Strength::Strong, Strength::Weak], Strength::Weak, numbers),
        location: numbers.below(2),
        expected,
        value,
        success: any_order(numbers),
        failure: load_order(numbers),
    })
}

// A statement without others in it.
fn simple(alloc: Global, numbers: &mut Numbers) -> Result<Action, AllocError> {
    let value = expression(alloc, numbers, 3)?;
    Ok(match numbers.below(11) {
        0 => Action::Assign {
            register: numbers.below(4),
            value,
        },
        1 => Action::Write { location: 2, value },
        2 => Action::Store {
            location: numbers.below(2),
            value,
            order: store_order(numbers),
        },
        3 => Action::Fence(any_order(numbers)),
        4 => Action::Lock(3),
        5 => Action::Unlock(3),
        6 => Action::Wait {
            condvar: 4,
            mutex: 3,
        },
        7 => Action::Signal(4),
        8 => Action::Broadcast(4),
        9 => Action::Yield,
        _ => Action::Assert(value),
    })
}

// Some statements, of which none is deeper than so.
fn statements(
    alloc: Global,
    numbers: &mut Numbers,
    depth: u8,
) -> Result<Vec<Statement>, AllocError> {
    let mut body = Vec::new(alloc);
    for _ in 0..numbers.below(4) {
        let action = if depth == 0 {
            simple(alloc, numbers)?
        } else {
            let inside = statements(alloc, numbers, depth - 1)?;
            let condition = expression(alloc, numbers, 2)?;
            match numbers.below(5) {
                0 => Action::If {
                    condition,
                    then: inside,
                    otherwise: statements(alloc, numbers, depth - 1)?,
                },
                1 => Action::While {
                    condition,
                    body: inside,
                },
                2 => Action::DoWhile {
                    body: inside,
                    condition,
                },
                3 => Action::Block(inside),
                _ => simple(alloc, numbers)?,
            }
        };
        body.push(Statement { line: 1, action })?;
    }
    Ok(body)
}

// The names of four registers, and the statements that declare them: each but the first one has a value.
fn declared(alloc: Global) -> Result<(Vec<String>, Vec<Statement>), AllocError> {
    let mut registers = Vec::new(alloc);
    let mut body = Vec::new(alloc);
    for register in 0..4usize {
        registers.push(format!(in alloc; "r{register}")?)?;
        let value = match register {
            0 => None,
            _ => Some(Expression::Number(1)),
        };
        let action = Action::Declare { register, value };
        body.push(Statement { line: 1, action })?;
    }
    Ok((registers, body))
}

fn thread(alloc: Global, numbers: &mut Numbers) -> Result<Thread, AllocError> {
    let (registers, mut body) = declared(alloc)?;
    for statement in statements(alloc, numbers, 2)? {
        body.push(statement)?;
    }
    Ok(Thread {
        parameters: vec![in alloc; 0usize, 1, 2, 3, 4]?,
        registers,
        body,
    })
}

fn condition(alloc: Global, numbers: &mut Numbers, depth: u8) -> Result<Condition, AllocError> {
    if depth == 0 {
        let term = match numbers.below(2) {
            0 => Term::Location(numbers.below(3)),
            _ => Term::Register {
                thread: 0,
                register: numbers.below(4),
            },
        };
        let value = if numbers.below(2) == 0 { -1 } else { 12 };
        return Ok(Condition::Equal(term, value));
    }
    let first = Box::new(alloc, condition(alloc, numbers, depth - 1)?)?;
    match numbers.below(3) {
        0 => Ok(Condition::Not(first)),
        1 => {
            let second = Box::new(alloc, condition(alloc, numbers, depth - 1)?)?;
            Ok(Condition::And(first, second))
        }
        _ => {
            let second = Box::new(alloc, condition(alloc, numbers, depth - 1)?)?;
            Ok(Condition::Or(first, second))
        }
    }
}

fn all_locations(alloc: Global) -> Result<Vec<Location>, AllocError> {
    let mut locations = Vec::new(alloc);
    for (name, kind, value) in LOCATIONS {
        let name = String::from_str(alloc, name)?;
        locations.push(Location { name, kind, value })?;
    }
    Ok(locations)
}

fn made(alloc: Global, numbers: &mut Numbers) -> Result<Test, AllocError> {
    let locations = all_locations(alloc)?;
    let mut threads = Vec::new(alloc);
    for _ in 0..numbers.below(4).max(1) {
        threads.push(thread(alloc, numbers)?)?;
    }
    let filter = match numbers.below(2) {
        0 => None,
        _ => Some(condition(alloc, numbers, 1)?),
    };
    Ok(Test {
        name: String::from_str(alloc, "made")?,
        locations,
        threads,
        listed: Vec::new(alloc),
        filter,
        quantifier: one_of(
            &[
                Quantifier::Exists,
                Quantifier::NotExists,
                Quantifier::Forall,
            ],
            Quantifier::Exists,
            numbers,
        ),
        condition: condition(alloc, numbers, 3)?,
    })
}

// The test with all its parts, but for the lines.
fn without_lines(alloc: Global, test: &Test) -> Result<String, AllocError> {
    let whole = format!(in alloc; "{test:?}")?;
    let mut text = String::new(alloc);
    for part in whole.as_str().split("line: ") {
        text.push_str(part.trim_start_matches(|digit: char| digit.is_ascii_digit()))?;
    }
    Ok(text)
}

#[test]
fn tests_made_by_chance_come_again(rt: HostRuntime) -> Result<(), AllocError> {
    let alloc = rt.alloc();
    let mut numbers = Numbers(88_675_123);
    for _ in 0..TESTS {
        let test = made(alloc, &mut numbers)?;
        let text = write(alloc, &test)?;
        let wanted = without_lines(alloc, &test)?;
        let found = match read(alloc, text.as_bytes()) {
            Ok(again) => without_lines(alloc, &again)?,
            Err(error) => format!(in alloc; "{error}")?,
        };
        assert!(rt; found == wanted, "{text}: {found}");
    }
    Ok(())
}
