//! The code of a test's threads: instructions over registers, and operations of the machine.
ghost use Rattle.std.specs.Prelude.{◌≡◌, IfOk, IsTrue};
ghost use Rattle.loom_text.specs.Run.Code.{code_of, registers_of};

use crate::run::operators::Operator;
use loom_objects::label::Label;
use loom_objects::operation::Name;
use loom_views::is_kind;
use loom_views::same::{Same, are_same};
use loom_views::sequence::Sequence;
use std::alloc::{AllocError, Global};
use std::sync::atomic::Ordering;

/// What an instruction computes with (own).
#[derive(Clone, Copy, PartialEq, Eq)]
pub enum Operand {
    /// This number.
    Number(u32),
    /// What the register of the thread holds.
    Register(usize),
}

/// One instruction of a thread. Places are those of the thread's instructions, from 0 (own).
#[derive(Clone, Copy)]
pub enum Instruction {
    /// A register gets what the operator makes of two numbers.
    Compute {
        to: usize,
        operator: Operator,
        one: Operand,
        other: Operand,
    },
    /// Goes on at this place.
    Jump(usize),
    /// Goes on at this place if the number is 0, and else at the next one.
    JumpIfZero(Operand, usize),
    /// Hands an operation over.
    Ask(Asked),
}

/// An operation with its label, and where its answer goes (own).
#[derive(Clone, Copy)]
pub struct Asked {
    /// Its line, and the name of what it makes.
    pub label: Label,
    /// The register for the answer. A list of numbers goes into this one and those behind it, and so do the two answers of a
    /// compare-exchange: whether it has exchanged, and what it found.
    pub keep: usize,
    /// What is handed over.
    pub operation: Operation,
}

/// What a read-modify-write does with the number that it finds (own).
#[derive(Clone, Copy, PartialEq, Eq)]
pub enum Update {
    /// Puts the other number in its place.
    Exchange,
    Add,
    Sub,
    Or,
    Xor,
    And,
}

/// An operation of an atomic (own).
#[derive(Clone, Copy)]
pub enum AtomicOperation {
    /// Makes one of an `int`.
    New(u32),
    Load(usize, Ordering),
    Store(usize, Operand, Ordering),
    Update(usize, Update, Operand, Ordering),
    /// The value that is expected, the new one, and the orderings of a success and of a failure.
    CompareExchange(usize, Operand, Operand, Ordering, Ordering),
}

/// An operation of the machine. Objects are named by their numbers, in order of creation (own).
#[derive(Clone, Copy)]
pub enum Operation {
    Atomic(AtomicOperation),
    Fence(Ordering),
    /// Makes a cell.
    NewCell(u32),
    /// Reads a cell.
    Read(usize),
    /// Writes a cell.
    Write(usize, Operand),
    NewMutex,
    Lock(usize),
    TryLock(usize),
    Unlock(usize),
    NewCondvar,
    /// A condition variable, and the mutex that the thread holds.
    Wait(usize, usize),
    Signal(usize),
    Broadcast(usize),
    Yield,
    /// An assertion fails.
    Fail,
    /// Starts a thread of the test, by its place in the program.
    Spawn(usize, Name),
    /// Waits for a thread of the run, with the number of its notifier. Its numbers are the answer.
    Join(u8, usize),
    /// The thread's result: what its first registers hold, so many.
    Finish(usize),
    Exit,
    End,
}

/// A thread's code (own).
#[derive(Drop)]
pub struct Code {
    /// What it does, from the first one on. Jumps name an instruction by its place.
    pub instructions: Sequence<Instruction>,
    /// How many registers it has.
    pub registers: usize,
}

/// A test's code (own).
#[derive(Drop)]
pub struct Program {
    /// The code of main, and then of the test's threads in order.
    pub threads: Sequence<Code>,
}

impl Code {
    // A copy of it. It fails only where a growth is refused.
    fn try_clone(&self, alloc: Global) -> Result<Code, AllocError>
        ensures { IfOk result (λ copy. copy ≡ self.now) }
    {
        let instructions = self.instructions.try_clone(alloc)?;
        Ok(Code {
            instructions,
            registers: self.registers,
        })
    }
}

impl Program {
    /// A copy of it. It fails only where a growth is refused.
    pub(crate) fn try_clone(&self, alloc: Global) -> Result<Program, AllocError>
        ensures { IfOk result (λ copy. copy ≡ self.now) }
    {
        let mut threads = Sequence::new(alloc);
        for code in self.threads.as_slice() {
            threads.push(code.try_clone(alloc)?)?;
        }
        Ok(Program { threads })
    }

    /// The instructions of the thread at this place. Without such a thread there are none.
    pub(crate) fn code_of(&self, thread: usize) -> &[Instruction]
        ensures { result.now ≡ code_of self.now thread }
    {
        match self.threads.as_slice().get(thread) {
            Some(code) => code.instructions.as_slice(),
            None => &[],
        }
    }

    /// How many registers the thread at this place has.
    pub(crate) fn registers_of(&self, thread: usize) -> usize
        ensures { result ≡ registers_of self.now thread }
    {
        match self.threads.as_slice().get(thread) {
            Some(code) => code.registers,
            None => 0,
        }
    }
}

impl Same for Program {
    fn is_same(&self, other: &Program) -> bool {
        are_same(self.threads.as_slice(), other.threads.as_slice())
    }
}

impl Same for Code {
    fn is_same(&self, other: &Code) -> bool {
        self.registers == other.registers
            && are_same(self.instructions.as_slice(), other.instructions.as_slice())
    }
}

impl Same for Instruction {
    fn is_same(&self, other: &Instruction) -> bool {
        match *self {
            Instruction::Compute {
                to,
                operator,
                one,
                other: second,
            } => is_kind!(*other, Instruction::Compute { to: a, operator: b, one: x, other: y } =>
                    to == a && is_operator_same(operator, b) && is_operand_same(one, x) && is_operand_same(second, y)),
            Instruction::Jump(place) => is_kind!(*other, Instruction::Jump(a) => place == a),
            Instruction::JumpIfZero(operand, place) =>
                is_kind!(*other, Instruction::JumpIfZero(x, a) => is_operand_same(operand, x) && place == a),
            Instruction::Ask(asked) =>
                is_kind!(*other, Instruction::Ask(a) => is_asked_same(asked, a)),
        }
    }
}

fn is_operator_same(one: Operator, other: Operator) -> bool
    ensures { IsTrue result → one ≡ other }
{
    one == other
}

fn is_operand_same(one: Operand, other: Operand) -> bool
    ensures { IsTrue result → one ≡ other }
{
    one == other
}

fn is_asked_same(one: Asked, other: Asked) -> bool
    ensures { IsTrue result → one ≡ other }
{
    one.keep == other.keep
        && is_label_same(one.label, other.label)
        && is_operation_same(one.operation, other.operation)
}

fn is_label_same(one: Label, other: Label) -> bool
    ensures { IsTrue result → one ≡ other }
{
    one == other
}

fn is_operation_same(one: Operation, other: Operation) -> bool
    ensures { IsTrue result → one ≡ other }
{
    match one {
        Operation::Atomic(a) => is_kind!(other, Operation::Atomic(x) => is_atomic_same(a, x)),
        Operation::Fence(a) => is_kind!(other, Operation::Fence(x) => is_order_same(a, x)),
        Operation::NewCell(a) => is_kind!(other, Operation::NewCell(x) => a == x),
        Operation::Read(a) => is_kind!(other, Operation::Read(x) => a == x),
        Operation::Write(a, b) =>
            is_kind!(other, Operation::Write(x, y) => a == x && is_operand_same(b, y)),
        Operation::NewMutex => matches!(other, Operation::NewMutex),
        Operation::Lock(a) => is_kind!(other, Operation::Lock(x) => a == x),
        Operation::TryLock(a) => is_kind!(other, Operation::TryLock(x) => a == x),
        Operation::Unlock(a) => is_kind!(other, Operation::Unlock(x) => a == x),
        Operation::NewCondvar => matches!(other, Operation::NewCondvar),
        Operation::Wait(a, b) => is_kind!(other, Operation::Wait(x, y) => a == x && b == y),
        Operation::Signal(a) => is_kind!(other, Operation::Signal(x) => a == x),
        Operation::Broadcast(a) => is_kind!(other, Operation::Broadcast(x) => a == x),
        Operation::Yield => matches!(other, Operation::Yield),
        Operation::Fail => matches!(other, Operation::Fail),
        Operation::Spawn(a, b) =>
            is_kind!(other, Operation::Spawn(x, y) => a == x && is_name_same(b, y)),
        Operation::Join(a, b) => is_kind!(other, Operation::Join(x, y) => a == x && b == y),
        Operation::Finish(a) => is_kind!(other, Operation::Finish(x) => a == x),
        Operation::Exit => matches!(other, Operation::Exit),
        Operation::End => matches!(other, Operation::End),
    }
}

fn is_order_same(one: Ordering, other: Ordering) -> bool
    ensures { IsTrue result → one ≡ other }
{
    one == other
}

fn is_name_same(one: Name, other: Name) -> bool
    ensures { IsTrue result → one ≡ other }
{
    one == other
}

fn is_atomic_same(one: AtomicOperation, other: AtomicOperation) -> bool
    ensures { IsTrue result → one ≡ other }
{
    match one {
        AtomicOperation::New(a) => is_kind!(other, AtomicOperation::New(x) => a == x),
        AtomicOperation::Load(a, b) =>
            is_kind!(other, AtomicOperation::Load(x, y) => a == x && is_order_same(b, y)),
        AtomicOperation::Store(a, b, c) =>
            is_kind!(other, AtomicOperation::Store(x, y, z) => a == x && is_operand_same(b, y) && is_order_same(c, z)),
        AtomicOperation::Update(a, b, c, d) =>
            is_kind!(other, AtomicOperation::Update(x, y, z, w) =>
                a == x && is_update_same(b, y) && is_operand_same(c, z) && is_order_same(d, w)),
        AtomicOperation::CompareExchange(a, b, c, d, e) =>
            is_kind!(other, AtomicOperation::CompareExchange(x, y, z, w, v) =>
                a == x && is_operand_same(b, y) && is_operand_same(c, z) && is_order_same(d, w) && is_order_same(e, v)),
    }
}

fn is_update_same(one: Update, other: Update) -> bool
    ensures { IsTrue result → one ≡ other }
{
    one == other
}
