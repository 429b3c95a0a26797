//! Makes the code of one thread.
use crate::run::code::{Asked, Code, Instruction, Operand, Operation};
use crate::run::operators::Operator;
use loom_objects::label::Label;
use loom_objects::location::Location;
use loom_objects::text::Text;
use loom_views::sequence::Sequence;
use std::alloc::{AllocError, Global};

/// The code of a thread, as far as it is made.
#[derive(Drop)]
pub(crate) struct Assembler {
    instructions: Vec<Instruction>,
    /// Where the instructions are that come next. Main's are nowhere.
    pub(crate) location: Option<Location>,
    // How many registers the text names. Those behind them are for what is computed on the way.
    named: usize,
    // How many are in use, and how many were at most.
    used: usize,
    most: usize,
}

impl Assembler {
    /// No code, with so many registers that the text names.
    pub(crate) fn new(alloc: Global, named: usize) -> Assembler {
        Assembler {
            instructions: Vec::new(alloc),
            location: None,
            named,
            used: named,
            most: named,
        }
    }

    /// The place of the next instruction.
    pub(crate) fn here(&self) -> usize {
        self.instructions.len()
    }

    /// A register that isn't in use, and so many behind it.
    pub(crate) fn fresh(&mut self, count: usize) -> usize {
        let register = self.used;
        self.used = register.saturating_add(count);
        self.most = self.most.max(self.used);
        register
    }

    /// Only the registers that the text names are in use from here on.
    pub(crate) fn let_go(&mut self) {
        self.used = self.named;
    }

    /// Adds an instruction, and answers its place.
    pub(crate) fn add(&mut self, instruction: Instruction) -> Result<usize, AllocError> {
        let place = self.here();
        self.instructions.push(instruction)?;
        Ok(place)
    }

    /// Adds an operation, whose answer goes into this register.
    pub(crate) fn ask(&mut self, keep: usize, operation: Operation) -> Result<(), AllocError> {
        self.ask_named(keep, operation, None)
    }

    /// Adds an operation that makes what has this name. Its answer goes into this register.
    pub(crate) fn ask_named(
        &mut self,
        keep: usize,
        operation: Operation,
        name: Option<Text>,
    ) -> Result<(), AllocError> {
        let label = Label {
            name,
            location: self.location,
        };
        self.add(Instruction::Ask(Asked {
            label,
            keep,
            operation,
        }))?;
        Ok(())
    }

    /// Adds an operation without an answer that is kept.
    pub(crate) fn tell(&mut self, operation: Operation) -> Result<(), AllocError> {
        let keep = self.fresh(2);
        self.ask(keep, operation)
    }

    /// What the operator makes of two numbers.
    pub(crate) fn compute(
        &mut self,
        operator: Operator,
        one: Operand,
        other: Operand,
    ) -> Result<Operand, AllocError> {
        let to = self.fresh(1);
        self.compute_to(to, operator, one, other)?;
        Ok(Operand::Register(to))
    }

    /// The register gets what the operator makes of two numbers.
    pub(crate) fn compute_to(
        &mut self,
        to: usize,
        operator: Operator,
        one: Operand,
        other: Operand,
    ) -> Result<(), AllocError> {
        self.add(Instruction::Compute {
            to,
            operator,
            one,
            other,
        })?;
        Ok(())
    }

    /// The register gets this number.
    pub(crate) fn set(&mut self, to: usize, number: Operand) -> Result<(), AllocError> {
        self.compute_to(to, Operator::Add, number, Operand::Number(0))
    }

    /// Adds a jump whose place isn't known yet, and answers where it is.
    pub(crate) fn jump(&mut self) -> Result<usize, AllocError> {
        self.add(Instruction::Jump(0))
    }

    /// Adds a jump if the number is 0, whose place isn't known yet, and answers where it is.
    pub(crate) fn jump_if_zero(&mut self, number: Operand) -> Result<usize, AllocError> {
        self.add(Instruction::JumpIfZero(number, 0))
    }

    /// The jump at this place leads here.
    pub(crate) fn land(&mut self, jump: usize) {
        let here = self.here();
        if let Some(instruction) = self.instructions.get_mut(jump) {
            *instruction = match *instruction {
                Instruction::JumpIfZero(number, _) => Instruction::JumpIfZero(number, here),
                _ => Instruction::Jump(here),
            };
        }
    }

    /// The thread's end, with what so many of its first registers hold as its result, and then its code.
    pub(crate) fn end(mut self, count: usize) -> Result<Code, AllocError> {
        self.tell(Operation::Finish(count))?;
        self.tell(Operation::Exit)?;
        self.tell(Operation::End)?;
        Ok(Code {
            instructions: Sequence::from_vec(self.instructions),
            registers: self.most,
        })
    }
}
