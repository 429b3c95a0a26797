//! A litmus test as the program has it: its locations, its threads with their statements, and its condition. Names are numbers here,
//! so that a run needs no text: a location's place in the test, and a register's place in its thread.
use std::sync::atomic::Ordering;
use thiserror::Error;

/// How many threads a test may have beside the one that starts them. Own: as many as the machine has.
pub const MAX_TEST_THREADS: usize = 4;

/// A litmus test. Own, after herd's C.
#[derive(Debug, PartialEq, Eq, Drop)]
pub struct Test {
    /// The name after `C`.
    pub name: String,
    /// The locations, in the order in which the text names them first.
    pub locations: Vec<Location>,
    /// The threads, `P0` first. There are 1 to `MAX_TEST_THREADS`.
    pub threads: Vec<Thread>,
    /// What `locations [..]` lists: a state shows these too.
    pub listed: Vec<Term>,
    /// The condition after `filter`: only final states that meet it count.
    pub filter: Option<Condition>,
    /// Which final states are asked for.
    pub quantifier: Quantifier,
    /// The condition that they are asked for.
    pub condition: Condition,
}

/// An object that the threads share. Own.
#[derive(Debug, PartialEq, Eq, Drop)]
pub struct Location {
    /// Its name in the text.
    pub name: String,
    /// What kind of object it is.
    pub kind: Kind,
    /// Its value when the threads start. 0 for a lock and for a condition variable.
    pub value: i32,
}

/// What a location is, shown as C's type. Own.
#[derive(Clone, Copy, Debug, PartialEq, Eq, Error)]
pub enum Kind {
    /// `atomic_int`.
    #[error("atomic_int")]
    Atomic,
    /// `int`: its reads and writes are accesses of a cell, so they may race.
    #[error("int")]
    Plain,
    /// `mtx_t`.
    #[error("mtx_t")]
    Mutex,
    /// `cnd_t`.
    #[error("cnd_t")]
    Condvar,
}

/// A thread. Own.
#[derive(Debug, PartialEq, Eq, Drop)]
pub struct Thread {
    /// The locations that it is passed, by their numbers, in order.
    pub parameters: Vec<usize>,
    /// The names of its registers, in the order of their first declarations. A register belongs to the whole thread: a name that is
    /// declared again, in another block, is the same register. It has 0 until it is assigned.
    pub registers: Vec<String>,
    /// What it does.
    pub body: Vec<Statement>,
}

/// A statement, and where it is. Own.
#[derive(Debug, PartialEq, Eq, Drop)]
#[cycle(statements)]
pub struct Statement {
    /// The line of the text on which it begins, from 1.
    pub line: usize,
    /// What it does.
    pub action: Action,
}

/// What a statement does. `location`, `mutex` and `condvar` are numbers of locations of the kind that the statement needs, and
/// `register` is a number of a register of the thread. Own.
#[derive(Debug, PartialEq, Eq, Drop)]
#[cycle(statements)]
pub enum Action {
    /// `int r;` or `int r = e;`.
    Declare {
        register: usize,
        value: Option<Expression>,
    },
    /// `r = e;`.
    Assign {
        register: usize,
        value: Expression,
    },
    /// `*p = e;`: a write of a plain int.
    Write {
        location: usize,
        value: Expression,
    },
    /// `atomic_store_explicit(x, e, order);`. The order is relaxed, release or sequentially consistent.
    Store {
        location: usize,
        value: Expression,
        order: Ordering,
    },
    /// `e;`, for what its calls do.
    Evaluate(Expression),
    /// `atomic_thread_fence(order);`.
    Fence(Ordering),
    /// `if (e) { .. } else { .. }`. With no `else` the last is empty.
    If {
        condition: Expression,
        then: Vec<Statement>,
        otherwise: Vec<Statement>,
    },
    /// `while (e) { .. }`.
    While {
        condition: Expression,
        body: Vec<Statement>,
    },
    /// `do { .. } while (e);`.
    DoWhile {
        body: Vec<Statement>,
        condition: Expression,
    },
    /// `{ .. }`.
    Block(Vec<Statement>),
    /// `mtx_lock(m);`.
    Lock(usize),
    /// `mtx_unlock(m);`.
    Unlock(usize),
    /// `cnd_wait(c, m);`.
    Wait {
        condvar: usize,
        mutex: usize,
    },
    /// `cnd_signal(c);`.
    Signal(usize),
    /// `cnd_broadcast(c);`.
    Broadcast(usize),
    /// `thrd_yield();`.
    Yield,
    /// `assert(e);`.
    Assert(Expression),
}

/// An expression. Its value is an `int` of C. Parts are evaluated from left to right. Own.
#[derive(Debug, PartialEq, Eq, Drop)]
#[cycle(expressions)]
pub enum Expression {
    /// A number.
    Number(i32),
    /// The value of a register.
    Register(usize),
    /// `*p`: a read of a plain int.
    Read(usize),
    /// An operator before an expression.
    Unary(UnaryOperator, Box<Expression>),
    /// An operator between two expressions.
    Binary(BinaryOperator, Box<Expression>, Box<Expression>),
    /// `atomic_load_explicit(x, order)`. The order is relaxed, acquire or sequentially consistent.
    Load {
        location: usize,
        order: Ordering,
    },
    /// `atomic_exchange_explicit(x, e, order)`: the value before.
    Exchange {
        location: usize,
        value: Box<Expression>,
        order: Ordering,
    },
    /// `atomic_fetch_add_explicit(x, e, order)` and the like: the value before.
    Fetch {
        operator: FetchOperator,
        location: usize,
        value: Box<Expression>,
        order: Ordering,
    },
    /// `atomic_compare_exchange_strong_explicit(x, expected, e, success, failure)`: 1 where it exchanges, and else 0. The failure's
    /// order is relaxed, acquire or sequentially consistent.
    CompareExchange {
        strength: Strength,
        location: usize,
        expected: Expected,
        value: Box<Expression>,
        success: Ordering,
        failure: Ordering,
    },
    /// `mtx_trylock(m)`: 0 (`thrd_success`) where it locks, and else 1 (`thrd_busy`).
    TryLock(usize),
}

/// What a compare-exchange compares with. Own.
#[derive(Debug, PartialEq, Eq, Drop)]
#[cycle(expressions)]
pub enum Expected {
    /// A value, as herd's C has it: on a failure nothing is written.
    Value(Box<Expression>),
    /// `&r`, as C has it: the register's value. On a failure the register gets the value that was found.
    Register(usize),
    /// `p`, a plain int's pointer, as C has it: the value of the plain int, which is read. On a failure the value that was found is
    /// written there.
    Plain(usize),
}

/// Whether a compare-exchange may fail where the values are equal. Own.
#[derive(Clone, Copy, Debug, PartialEq, Eq)]
pub enum Strength {
    /// `atomic_compare_exchange_strong`: it fails only where the values differ.
    Strong,
    /// `atomic_compare_exchange_weak`: it may fail.
    Weak,
}

/// The operator of `atomic_fetch_..`. Own.
#[derive(Clone, Copy, Debug, PartialEq, Eq)]
pub enum FetchOperator {
    /// `add`, which wraps.
    Add,
    /// `sub`, which wraps.
    Sub,
    /// `or`.
    Or,
    /// `xor`.
    Xor,
    /// `and`.
    And,
}

/// An operator before an expression. Own.
#[derive(Clone, Copy, Debug, PartialEq, Eq)]
pub enum UnaryOperator {
    /// `-`.
    Neg,
    /// `!`: 1 for 0, and else 0.
    Not,
    /// `~`: each bit changed.
    BitNot,
}

/// An operator between two expressions. A comparison gives 1 or 0. Own.
#[derive(Clone, Copy, Debug, PartialEq, Eq)]
pub enum BinaryOperator {
    /// `||`: the second is evaluated only where the first is 0. It gives 1 or 0.
    Or,
    /// `&&`: the second is evaluated only where the first is not 0. It gives 1 or 0.
    And,
    /// `|`.
    BitOr,
    /// `^`.
    BitXor,
    /// `&`.
    BitAnd,
    /// `==`.
    Eq,
    /// `!=`.
    Ne,
    /// `<`.
    Lt,
    /// `<=`.
    Le,
    /// `>`.
    Gt,
    /// `>=`.
    Ge,
    /// `<<`.
    Shl,
    /// `>>`.
    Shr,
    /// `+`.
    Add,
    /// `-`.
    Sub,
    /// `*`.
    Mul,
    /// `/`.
    Div,
    /// `%`.
    Rem,
}

/// Which final states a test asks for. Own.
#[derive(Clone, Copy, Debug, PartialEq, Eq)]
pub enum Quantifier {
    /// `exists`: some state meets the condition.
    Exists,
    /// `~exists`: none does.
    NotExists,
    /// `forall`: each does.
    Forall,
}

/// What is asked of a final state. Own.
#[derive(Debug, PartialEq, Eq, Drop)]
pub enum Condition {
    /// `0:r0=1`, `x=1` or `[x]=1`.
    Equal(Term, i32),
    /// `~`.
    Not(Box<Condition>),
    /// `/\`.
    And(Box<Condition>, Box<Condition>),
    /// `\/`.
    Or(Box<Condition>, Box<Condition>),
}

/// What a final state has a value of. Own.
#[derive(Clone, Copy, Debug, PartialEq, Eq)]
pub enum Term {
    /// `0:r0`: a register of a thread.
    Register {
        /// The thread's number.
        thread: usize,
        /// The register's number in that thread.
        register: usize,
    },
    /// `[x]`: an `atomic_int` or an `int`.
    Location(usize),
}
