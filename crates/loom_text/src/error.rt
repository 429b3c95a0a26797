//! Why a text isn't read as a litmus test, where, and how that is shown.
ghost use Rattle.std.specs.Prelude.{◌≡◌};
ghost use Rattle.loom_text.specs.Place.{IsPlaceOf, column_behind, line_behind};

use crate::read::symbol::Symbol;
use crate::test::Kind;
use std::alloc::{AllocError, Global};
use thiserror::Error;

/// Why a text isn't read. Own.
#[derive(Clone, Copy, Debug, PartialEq, Eq, Error)]
pub enum ReadError {
    /// Something in the text is wrong.
    #[error("{0}")]
    Wrong(Mistake),
    /// A growth was refused.
    #[error("out of memory")]
    Memory,
}

/// What is wrong in a text, and where. Own.
#[derive(Clone, Copy, Debug, PartialEq, Eq, Error)]
#[error("{place}: {problem}")]
pub struct Mistake {
    /// Where it is.
    pub place: Place,
    /// What it is.
    pub problem: Problem,
}

/// A place of a text. Own.
#[derive(Clone, Copy, Debug, PartialEq, Eq, Error)]
#[error("{line}:{column}")]
pub struct Place {
    /// The line on which it begins, from 1.
    pub line: usize,
    /// How many bytes of that line come before it, and 1.
    pub column: usize,
    /// How many bytes of the text come before it.
    pub start: usize,
    /// How many bytes of the text come before its end.
    pub end: usize,
}

/// What is wrong at a place. Own.
#[derive(Clone, Copy, Debug, PartialEq, Eq, Error)]
pub enum Problem {
    /// Something else has to be there.
    #[error("expected {0}")]
    Expected(Wanted),
    /// No word and no sign begins with this character.
    #[error("no word or sign begins with this character")]
    Character,
    /// A number has another form than digits of which the first is not 0, or `0x` and hexadecimal digits.
    #[error("expected a decimal or hexadecimal number")]
    NotANumber,
    /// A number is above 2147483647, or 2147483648 behind a minus.
    #[error("the number does not fit an `int`")]
    TooLarge,
    /// A comment has no end.
    #[error("the comment has no end")]
    OpenComment,
    /// A text in quotes has no end.
    #[error("the quoted text has no end")]
    OpenQuote,
    /// A thread has no register of this name so far.
    #[error("not declared before")]
    Undeclared,
    /// The test has no thread of this number.
    #[error("there is no such thread")]
    NoThread,
    /// The thread has no register of this name.
    #[error("the thread has no such register")]
    NoRegister,
    /// The test has no location of this name.
    #[error("there is no such location")]
    NoLocation,
    /// The name stands for a location of the test, and not for one that this thread is passed.
    #[error("not a parameter of this thread")]
    NotAParameter,
    /// The name is declared already.
    #[error("declared twice")]
    DeclaredTwice,
    /// The location has another type.
    #[error("expected {wanted}, and this is {found}")]
    WrongKind {
        /// The type that is needed.
        wanted: Kind,
        /// The type that it has.
        found: Kind,
    },
    /// A call has another number of arguments.
    #[error("wrong number of arguments: this call has {0}")]
    Arguments(usize),
    /// A load, or a failed compare-exchange, doesn't take this order.
    #[error("a load takes memory_order_relaxed, memory_order_acquire or memory_order_seq_cst")]
    NotALoadOrder,
    /// A store doesn't take this order.
    #[error("a store takes memory_order_relaxed, memory_order_release or memory_order_seq_cst")]
    NotAStoreOrder,
    /// A lock or a condition variable has a value.
    #[error("a lock or a condition variable has no value")]
    NoValue,
    /// The call is used as a value, and is read only as a statement.
    #[error("this call is read only as a statement, and has no value here")]
    NotAValue,
    /// C has it, and this machine doesn't, or it isn't read so far.
    #[error("not supported: {0}")]
    Unsupported(Feature),
    /// Parentheses, operators, or statements in one another.
    #[error("nested more than 64 deep")]
    TooDeep,
    /// An expression, or a condition.
    #[error("more than 256 operators or comparisons in one")]
    TooManyOperators,
    /// A test has more than `MAX_LOCATIONS`.
    #[error("more than 64 locations")]
    TooManyLocations,
    /// A thread has more than `MAX_REGISTERS`.
    #[error("more than 64 registers in a thread")]
    TooManyRegisters,
    /// The text has more than `MAX_TEXT` bytes.
    #[error("a text of more than 65536 bytes")]
    TooLong,
}

/// What has to be at a place. Own.
#[derive(Clone, Copy, Debug, PartialEq, Eq, Error)]
pub enum Wanted {
    /// A sign.
    #[error("`{0}`")]
    Symbol(Symbol),
    /// The first line.
    #[error("`C` and a name, as in `C SB`")]
    Head,
    /// What comes after `C`.
    #[error("a name, as in `C SB`")]
    TestName,
    /// A part of the initial state.
    #[error("an initial value such as `x = 1` or `int x = 1`, or `}}`")]
    Initial,
    /// The head of the thread of this number.
    #[error("`P{0}`, the next thread")]
    Thread(usize),
    /// A parameter.
    #[error("a parameter such as `atomic_int* x`")]
    Parameter,
    /// A name of one's own.
    #[error("a name")]
    Name,
    /// A statement.
    #[error("a statement, or `}}`")]
    Statement,
    /// An expression.
    #[error("an expression")]
    Expression,
    /// A location that the thread is passed.
    #[error("a location, one of the thread's parameters")]
    Location,
    /// A register.
    #[error("a register")]
    Register,
    /// An order.
    #[error("an order such as memory_order_acquire")]
    Order,
    /// `while` after the body of a `do`.
    #[error("`while`")]
    While,
    /// A number.
    #[error("a number")]
    Number,
    /// A part of a condition.
    #[error("a condition such as `0:r0=1` or `[x]=1`")]
    Condition,
    /// A register with its thread, or a location.
    #[error("a register or a location, such as `0:r0` or `x`")]
    Term,
    /// What a test asks for.
    #[error("`exists`, `~exists` or `forall`")]
    Quantifier,
    /// Nothing more.
    #[error("the end of the text")]
    End,
}

/// What isn't supported. Own.
#[derive(Clone, Copy, Debug, PartialEq, Eq, Error)]
pub enum Feature {
    /// More than `MAX_TEST_THREADS`.
    #[error("more than four threads")]
    Threads,
    /// `int **p`, `int *p = x`, `&x` and the like.
    #[error("pointers as values")]
    Pointers,
    /// `int a[2]` and the like.
    #[error("arrays")]
    Arrays,
    /// `memory_order_consume`.
    #[error("memory_order_consume")]
    Consume,
    /// Another type than `int`, `atomic_int`, `mtx_t` and `cnd_t`.
    #[error("this type")]
    Type,
    /// `(int) e`.
    #[error("casts")]
    Casts,
    /// Another call.
    #[error("this function")]
    Function,
    /// `for`, `switch`, `break`, `continue`, `goto` and `return`.
    #[error("this statement")]
    Statement,
    /// `+=`, `++` and the like.
    #[error("assignments other than with `=`")]
    Assignment,
    /// `e ? e : e`.
    #[error("`? :`")]
    Choice,
    /// `*x` where `x` is an `atomic_int*`.
    #[error("`*` at an atomic_int: write atomic_load or atomic_store")]
    AtomicAsPlain,
    /// `0:r0 = 1` in the initial state.
    #[error("initial values of registers")]
    InitialRegisters,
    /// A parameter that is no pointer.
    #[error("parameters that are no pointers")]
    ValueParameters,
}

/// The place from `start` to `end`, or up to the text's end where they are beyond it.
pub fn place_of(text: &[u8], start: usize, end: usize) -> Place
    ensures { IsPlaceOf text.now result }
{
    let start = start.min(text.len());
    let end = end.max(start).min(text.len());
    let before = &text[..start];
    Place {
        line: line_behind(before),
        column: column_behind(before),
        start,
        end,
    }
}

fn line_behind(before: &[u8]) -> usize
    ensures { result ≡ line_behind before.now }
{
    before.iter().filter(|byte| **byte == b'\n').count() + 1
}

fn column_behind(before: &[u8]) -> usize
    ensures { result ≡ column_behind before.now }
{
    let mut column = 1;
    for byte in before {
        column = if *byte == b'\n' { 1 } else { column + 1 };
    }
    column
}

/// A mistake as a compiler shows it: the file, the place and the problem, the line on which it begins, and marks under the place. A
/// byte that isn't a printed character of ASCII is shown as `?`, and a tab as a space. It fails only where memory is refused.
pub fn report(
    alloc: Global,
    file: &str,
    text: &[u8],
    mistake: &Mistake,
) -> Result<String, AllocError> {
    let place = mistake.place;
    let problem = mistake.problem;
    let mut report = format!(in alloc; "{file}:{place}: {problem}\n")?;
    let before = place.column.saturating_sub(1);
    let first = place.start.saturating_sub(before);
    let width = push_line(text, first, &mut report)?;
    report.push_str(" ".repeat(alloc, before)?.as_str())?;
    let marked = place.end.saturating_sub(place.start);
    let marks = marked.min(width.saturating_sub(before)).max(1);
    report.push_str("^".repeat(alloc, marks)?.as_str())?;
    report.push('\n')?;
    Ok(report)
}

// The line whose first byte this is, as it is shown. Answers how wide it is.
fn push_line(text: &[u8], first: usize, report: &mut String) -> Result<usize, AllocError> {
    let mut width: usize = 0;
    for byte in text
        .iter()
        .skip(first)
        .take_while(|byte| !matches!(**byte, b'\n' | b'\r'))
    {
        report.push(shown(*byte))?;
        width = width.saturating_add(1);
    }
    report.push('\n')?;
    Ok(width)
}

// The byte as a character of the same width.
fn shown(byte: u8) -> char {
    match byte {
        b'\t' => ' ',
        b' '..=b'~' => char::from(byte),
        _ => '?',
    }
}
