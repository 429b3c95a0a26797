//! The threads of a test as bodies: main makes the objects, starts the test's threads and joins them, and reads what is left.
ghost use Rattle.std.specs.Prelude.{◌≡◌, ◌∷◌, [], IfOk, IsTrue, take};
ghost use Rattle.loom_objects.specs.Operation.Switching.{NeverSwitches};
ghost use Rattle.loom_text.specs.Run.State.{held};
ghost use Rattle.loom_text.specs.Run.Thread.{atomic_op, change_of, next_of, request, started, word};

use crate::run::code::{AtomicOperation, Instruction, Operand, Operation, Program, Update};
use crate::run::state::State;
use crate::run::values::Values;
use loom::runner::Apart;
use loom_objects::body::Body;
use loom_objects::operation::{
    AtomicOp, CellOp, CondvarOp, Exchange, Labelled, MutexOp, Op, Reply, Request, ThreadOp,
};
use loom_views::rt::num::Numbers;
use loom_views::rt::num::change::Change;
use loom_views::same::Same;
use std::alloc::{AllocError, Global};
use std::marker::Model;
use std::sync::Arc;

// After so many instructions that are no operations a thread asks who it is, which changes nothing, so that one that never ends
// comes to `max_steps`.
const SILENT: u32 = 1000;

/// A thread of a test (own).
#[derive(Drop)]
pub struct TestThread {
    // All threads of all runs share it, but each worker has its own.
    program: Arc<Program>,
    // Its place in the program: main is 0.
    thread: usize,
    state: State,
}

impl Model for TestThread {
    ghost use Rattle.loom_text.specs.Run.Running.{Running};

    ghost Value = { Running };

    ghost view = { λ t. record { program = t.program.value; thread = t.thread; progress = t.state } };
}

impl TestThread {
    /// Main of the test with this program, before its first operation. It fails only where a growth is refused.
    pub fn main(alloc: Global, program: Program) -> Result<TestThread, AllocError>
        ensures { IfOk result (λ main. main ≡ started program 0) }
    {
        let state = State::new(alloc, program.registers_of(0))?;
        Ok(TestThread {
            program: Arc::new(alloc, program)?,
            thread: 0,
            state,
        })
    }

    // The thread at this place of the program, before its first operation.
    fn child(&self, thread: usize) -> Result<TestThread, AllocError>
        ensures { IfOk result (λ child. child ≡ started self.now.program thread) }
    {
        let registers = self.program.registers_of(thread);
        Ok(TestThread {
            program: Arc::try_clone(&self.program)?,
            thread,
            state: State::new(self.state.alloc(), registers)?,
        })
    }

    // The number that is computed with, as an atomic of an `int` holds it.
    fn word(&self, operand: Operand) -> u64
        ensures { result ≡ word self.now operand }
    {
        Numbers::I32.fit(u64::from(self.state.held(operand)))
    }

    // The operation of an atomic.
    fn atomic_op(&self, op: AtomicOperation) -> AtomicOp
        ensures { result ≡ atomic_op self.now op }
    {
        match op {
            AtomicOperation::New(number) => {
                AtomicOp::New(Numbers::I32, self.word(Operand::Number(number)))
            }
            AtomicOperation::Load(atomic, order) => AtomicOp::Load(atomic, order),
            AtomicOperation::Store(atomic, number, order) => {
                AtomicOp::Store(atomic, self.word(number), order)
            }
            AtomicOperation::Update(atomic, update, number, order) => {
                AtomicOp::Update(atomic, change_of(update, self.word(number)), order)
            }
            AtomicOperation::CompareExchange(atomic, expected, new, success, failure) => {
                AtomicOp::CompareExchange(
                    atomic,
                    Exchange {
                        expected: self.word(expected),
                        new: self.word(new),
                        success,
                        failure,
                    },
                )
            }
        }
    }

    // What a cell holds with this number in it.
    fn value(&self, operand: Operand) -> Result<Values, AllocError>
        ensures { IfOk result (λ values. values ≡ held self.now.progress.registers operand ∷ []) }
    {
        Values::one(self.state.alloc(), self.state.held(operand))
    }

    // What the first registers hold, so many.
    fn first_of(&self, count: usize) -> Result<Values, AllocError>
        ensures { IfOk result (λ values. values ≡ take count self.now.progress.registers) }
    {
        let registers = self.state.registers();
        let count = count.min(registers.len());
        Values::of(self.state.alloc(), &registers[..count])
    }

    // What the operation asks of the machine.
    fn request(&self, operation: Operation) -> Result<Request<Values, TestThread>, AllocError>
        ensures { IfOk result (λ made. made ≡ request self.now operation) }
    {
        let alloc = self.state.alloc();
        Ok(match operation {
            Operation::Atomic(op) => Request::Atomic(self.atomic_op(op)),
            Operation::Fence(order) => Request::Fence(order),
            Operation::NewCell(number) => Request::Cell(CellOp::New(Values::one(alloc, number)?)),
            Operation::Read(cell) => Request::Cell(CellOp::Get(cell)),
            Operation::Write(cell, number) => {
                Request::Cell(CellOp::Replace(cell, self.value(number)?))
            }
            Operation::NewMutex => Request::Mutex(MutexOp::New(Values::none(alloc))),
            Operation::Lock(mutex) => Request::Mutex(MutexOp::Lock(mutex)),
            Operation::TryLock(mutex) => Request::Mutex(MutexOp::TryLock(mutex)),
            Operation::Unlock(mutex) => {
                Request::Mutex(MutexOp::Release(mutex, Values::none(alloc)))
            }
            Operation::NewCondvar => Request::Condvar(CondvarOp::New),
            Operation::Wait(condvar, mutex) => {
                Request::Condvar(CondvarOp::Wait(condvar, mutex, Values::none(alloc)))
            }
            Operation::Signal(condvar) => Request::Condvar(CondvarOp::NotifyOne(condvar)),
            Operation::Broadcast(condvar) => Request::Condvar(CondvarOp::NotifyAll(condvar)),
            Operation::Fail => Request::Fail,
            Operation::Spawn(thread, name) => {
                Request::Thread(ThreadOp::Spawn(self.child(thread)?, Some(name)))
            }
            Operation::Join(thread, notifier) => Request::Thread(ThreadOp::Join(thread, notifier)),
            Operation::Yield => Request::Thread(ThreadOp::Yield),
            Operation::Finish(count) => Request::Thread(ThreadOp::Finish(self.first_of(count)?)),
            Operation::Exit => Request::Thread(ThreadOp::Exit),
            Operation::End => Request::Thread(ThreadOp::End),
        })
    }
}

// What a read-modify-write makes of what it finds, with this number.
fn change_of(update: Update, number: u64) -> Change
    ensures { result ≡ change_of update number }
{
    match update {
        Update::Exchange => Change::Swap(number),
        Update::Add => Change::Add(number),
        Update::Sub => Change::Sub(number),
        Update::Or => Change::Or(number),
        Update::Xor => Change::Xor(number),
        Update::And => Change::And(number),
    }
}

impl Same for TestThread {
    // The program, which all threads of a check share, comes last.
    fn is_same(&self, other: &TestThread) -> bool {
        self.thread == other.thread
            && self.state.is_same(&other.state)
            && self.program.as_ref().is_same(other.program.as_ref())
    }
}

impl Body for TestThread {
    type Data = Values;

    ghost next = { next_of };

    fn resume(&mut self, reply: Reply<Values>) -> Result<Op<Values, TestThread>, AllocError>
        ensures { IfOk result (λ op. (self.new, op) ≡ next_of self.old reply) }
    {
        self.state.keep_answer(&reply);
        let code = self.program.as_ref().code_of(self.thread);
        self.state.settle(code, SILENT);
        let at = self.state.at();
        if at >= code.len() {
            return Ok(Op::new(Request::Fail));
        }
        let Instruction::Ask(asked) = code[at] else {
            return Ok(Op::new(Request::Thread(ThreadOp::Current)));
        };
        let request = self.request(asked.operation)?;
        self.state.pass(asked.keep);
        Ok(Labelled {
            request,
            label: Some(asked.label),
        })
    }

    fn try_clone(&self) -> Result<TestThread, AllocError>
        ensures { IfOk result (λ copy. copy ≡ self.now) }
    {
        Ok(TestThread {
            program: Arc::try_clone(&self.program)?,
            thread: self.thread,
            state: self.state.try_clone()?,
        })
    }

    // A test has no operation for it.
    fn never_switches(&self) -> bool
        ensures { IsTrue result → NeverSwitches next_of self.now }
    {
        true
    }
}

impl Apart for TestThread {
    fn apart(&self) -> Result<TestThread, AllocError> {
        // The program too is a copy, so that workers don't meet at the count of its owners.
        let alloc = self.state.alloc();
        let program = Arc::new(alloc, self.program.try_clone(alloc)?)?;
        Ok(TestThread {
            program,
            thread: self.thread,
            state: self.state.try_clone()?,
        })
    }
}
