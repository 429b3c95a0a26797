//! How far a thread of a test is, and what its registers hold.
ghost use Rattle.std.specs.Prelude.{◌≡◌, ◌+◌, ◌-◌, ◌^◌, ◌<◌, IfOk, false};
ghost use Rattle.loom_text.specs.Run.State.{at_first, held, kept, moved, put_all, settled};

use crate::run::code::{Instruction, Operand};
use crate::run::values::Values;
use loom_objects::made;
use loom_objects::operation::Reply;
use loom_views::rt::num::Numeric;
use loom_views::same::Same;
use std::alloc::{AllocError, Global};
use std::marker::Model;

// The replies that leave nothing in a register.
macro_rules! unkept {
    () => {
        made!() | Reply::Start | Reply::Done | Reply::Reading(..) | Reply::Writing(..)
        | Reply::Shared | Reply::Waited(..) | Reply::ReadLocked(..) | Reply::WriteLocked(..)
        | Reply::Empty | Reply::RecvError | Reply::Disconnected | Reply::SendError(_)
        | Reply::Messages(_) | Reply::Waker(_) | Reply::NoWaker | Reply::Absent
        | Reply::AccessError | Reply::Stood(..) | Reply::Locals(_) | Reply::Lazies(_)
        | Reply::Thread(..)
    };
}

/// How far a thread is, and what its registers hold.
#[derive(Drop)]
pub(crate) struct State {
    // The place of the next instruction.
    at: usize,
    // The register for the answer of the last operation.
    keep: usize,
    registers: Vec<u32>,
}

impl Model for State {
    ghost use Rattle.loom_text.specs.Run.Progress.{Progress};

    ghost Value = { Progress };

    ghost view = { λ s. record { at = s.at; keep = s.keep; registers = s.registers.items } };
}

impl Same for State {
    fn is_same(&self, other: &State) -> bool {
        self.at == other.at
            && self.keep == other.keep
            && self.registers.as_slice() == other.registers.as_slice()
    }
}

impl State {
    /// At the first instruction, with 0 in each of so many registers. It fails only where a growth is refused.
    pub(crate) fn new(alloc: Global, registers: usize) -> Result<State, AllocError>
        ensures { IfOk result (λ state. state ≡ at_first registers) }
    {
        Ok(State {
            at: 0,
            keep: 0,
            registers: vec![in alloc; 0u32; registers]?,
        })
    }

    /// A copy in this state. It fails only where a growth is refused.
    pub(crate) fn try_clone(&self) -> Result<State, AllocError>
        ensures { IfOk result (λ copy. copy ≡ self.now) }
    {
        let registers = Vec::from_slice(self.alloc(), self.registers.as_slice())?;
        Ok(State {
            at: self.at,
            keep: self.keep,
            registers,
        })
    }

    /// What its memory comes from.
    pub(crate) fn alloc(&self) -> Global {
        *Vec::allocator(&self.registers)
    }

    /// The place of the next instruction.
    pub(crate) fn at(&self) -> usize
        ensures { result ≡ self.now.at }
    {
        self.at
    }

    /// What the registers hold.
    pub(crate) fn registers(&self) -> &[u32]
        ensures { result.now ≡ self.now.registers }
    {
        self.registers.as_slice()
    }

    /// The number that it computes with.
    pub(crate) fn held(&self, operand: Operand) -> u32
        ensures { result ≡ held self.now.registers operand }
    {
        match operand {
            Operand::Number(number) => number,
            Operand::Register(register) => {
                if register < self.registers.len() {
                    self.registers[register]
                } else {
                    0
                }
            }
        }
    }

    /// Keeps the answer of the last operation.
    pub(crate) fn keep_answer(&mut self, reply: &Reply<Values>)
        ensures { self.new ≡ kept self.old reply.now }
    {
        let registers = &mut self.registers;
        match reply {
            Reply::Value(number) => put_all(registers, self.keep, &[u32::from_u64(*number)]),
            Reply::Exchanged(Ok(number)) => {
                put_all(registers, self.keep, &[1, u32::from_u64(*number)])
            }
            Reply::Exchanged(Err(number)) => {
                put_all(registers, self.keep, &[0, u32::from_u64(*number)])
            }
            Reply::Data(values) => put_all(registers, self.keep, values.as_slice()),
            Reply::Locked(..) => put_all(registers, self.keep, &[0]),
            Reply::WouldBlock => put_all(registers, self.keep, &[1]),
            unkept!() => {}
        }
    }

    /// Goes on up to an operation, or past so many instructions that are none.
    #[tactic(auto, using(crate::proofs::RunLemmas::settled_still, crate::proofs::RunLemmas::settled_more, crate::proofs::RunLemmas::settled_none))]
    pub(crate) fn settle(&mut self, code: &[Instruction], most: u32)
        ensures { self.new ≡ settled most code.now self.old }
    {
        if most > 0 && self.moves(code) {
            self.settle(code, most - 1);
        }
    }

    // Goes past the next instruction, unless it is an operation or there is none. Answers whether it did.
    fn moves(&mut self, code: &[Instruction]) -> bool
        ensures moved { self.new ≡ moved code.now self.old }
        ensures stays { result ≡ false → self.new ≡ self.old }
    {
        if self.at >= code.len() {
            return false;
        }
        match code[self.at] {
            Instruction::Compute {
                to,
                operator,
                one,
                other,
            } => {
                let number = operator.apply(self.held(one), self.held(other));
                put_all(&mut self.registers, to, &[number]);
                self.at += 1;
            }
            Instruction::Jump(place) => self.at = place,
            Instruction::JumpIfZero(number, place) => {
                self.at = if self.held(number) == 0 {
                    place
                } else {
                    self.at + 1
                };
            }
            Instruction::Ask(_) => return false,
        }
        true
    }

    /// Goes past the operation at which it is. Its answer goes into this register.
    pub(crate) fn pass(&mut self, keep: usize)
        requires { self.old.at < 2 ^ 64 - 1 }
        ensures { self.new ≡ record self.old { at = self.old.at + 1; keep = keep } }
    {
        self.at += 1;
        self.keep = keep;
    }
}

// Puts the numbers into the register at this place and into those behind it, as far as there are registers.
#[tactic(auto, using(crate::proofs::RunLemmas::put_all_past))]
fn put_all(registers: &mut Vec<u32>, at: usize, numbers: &[u32])
    ensures { registers.new.items ≡ put_all at numbers.now registers.old.items }
{
    match numbers {
        [] => {}
        [first, rest @ ..] => {
            if at < registers.len() {
                registers[at] = *first;
                put_all(registers, at + 1, rest);
            }
        }
    }
}
