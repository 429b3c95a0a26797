//! How far a thread of a script is, and what it and its registers keep.
ghost use Rattle.std.specs.Prelude.{◌≡◌, ◌==◌, option_copied, slice_get};
ghost use Rattle.std.specs.Option.{option_map};
ghost use Rattle.loom_examples.specs.Scripts.Running.{at_first, behind, child, fetched, keep_of, landing, past_label};
ghost use Rattle.loom_examples.specs.Scripts.Written.{written};
ghost use Rattle.loom_examples.specs.Scripts.Slots.{digits, handle_at, held, kept, lazy_digits, local_digits, name_number, notifier, number_of, object, put_handle, put_number, thread, told_by, with_digit};

use crate::scripts::program::Program;
use crate::scripts::step::{Step, Value};
use loom_objects::operation::{Keyed, Lazy, Name, Reply};
use std::collections::LinkedList;

// The last register.
const LAST: usize = 3;

/// What a slot keeps.
#[derive(Clone, Copy)]
pub enum Handle {
    /// Nothing yet.
    Empty,
    /// The number of an object.
    Object(usize),
    /// A thread.
    Thread(u8),
    /// A thread that was spawned, and the number of its notifier.
    Spawned(u8, usize),
}

/// What a step keeps of a reply.
#[derive(Clone, Copy)]
pub enum Told {
    /// Nothing.
    Nothing,
    /// A number, for the register that the step names.
    Number(u64),
    /// A number, for the last register: of what the operation wanted, and didn't get.
    Instead(u64),
    /// A number for the last register, of an exchange that failed, where the register that the step names is cleared.
    Found(u64),
    /// A handle, for the slot that the step names.
    Handle(Handle),
    /// A handle, and a number for the register of the same number.
    Named(Handle, u64),
}

/// How far a thread of a script is, and the numbers and handles that it was given.
#[derive(Clone, Copy)]
pub struct State {
    /// The next step's place.
    pub at: usize,
    /// The slot, or the register, in which the last step keeps its reply.
    pub keep: usize,
    /// The numbers that it got.
    pub registers: [u64; 4],
    /// The handles that it was given.
    pub slots: [Handle; 8],
}

impl State {
    /// At the first step, without handles, and with 0 in each register.
    pub(crate) fn new() -> State
        ensures { result ≡ at_first }
    {
        State {
            at: 0,
            keep: 0,
            registers: [0; 4],
            slots: [Handle::Empty; 8],
        }
    }

    /// Keeps what the reply tells where the last step says.
    pub(crate) fn keep(&mut self, reply: &Reply<u64>)
        ensures { self.new ≡ kept self.old reply.now }
    {
        match told_by(reply) {
            Told::Nothing => {}
            Told::Number(number) => self.put_number(self.keep, number),
            Told::Instead(number) => self.put_number(LAST, number),
            Told::Found(number) => {
                self.put_number(self.keep, 0);
                self.put_number(LAST, number);
            }
            Told::Handle(handle) => self.put_handle(handle),
            Told::Named(handle, number) => {
                self.put_handle(handle);
                self.put_number(self.keep, number);
            }
        }
    }

    /// The register holds the number, if there is such a register.
    fn put_number(&mut self, register: usize, number: u64)
        ensures { self.new ≡ put_number self.old register number }
    {
        if register < self.registers.len() {
            self.registers[register] = number;
        }
    }

    /// The slot that the last step names keeps the handle, if there is such a slot.
    fn put_handle(&mut self, handle: Handle)
        ensures { self.new ≡ put_handle self.old handle }
    {
        if self.keep < self.slots.len() {
            self.slots[self.keep] = handle;
        }
    }

    /// What the register holds, or 0 where there is none.
    fn held(&self, register: usize) -> u64
        ensures { result ≡ held self.now register }
    {
        if register < self.registers.len() {
            self.registers[register]
        } else {
            0
        }
    }

    /// Whether the register holds this number.
    fn has(&self, register: usize, number: u64) -> bool
        ensures { result ≡ (held self.now register == number) }
    {
        self.held(register) == number
    }

    /// The number that the value stands for.
    pub(crate) fn number_of(&self, value: Value) -> u64
        ensures { result ≡ number_of self.now value }
    {
        match value {
            Value::Plain(number) => number,
            Value::Held(register) => self.held(register),
            Value::Next(register) => self.held(register).wrapping_add(1),
            Value::Both(one, other) => self
                .held(one)
                .wrapping_mul(10)
                .wrapping_add(self.held(other)),
        }
    }

    /// What the slot keeps.
    fn handle_at(&self, slot: usize) -> Handle
        ensures { result ≡ handle_at self.now slot }
    {
        if slot < self.slots.len() {
            self.slots[slot]
        } else {
            Handle::Empty
        }
    }

    /// The number of the object in the slot.
    pub(crate) fn object(&self, slot: usize) -> Option<usize>
        ensures { result ≡ object self.now slot }
    {
        match self.handle_at(slot) {
            Handle::Object(number) => Some(number),
            Handle::Empty | Handle::Thread(_) | Handle::Spawned(..) => None,
        }
    }

    /// The thread in the slot.
    pub(crate) fn thread(&self, slot: u8) -> Option<u8>
        ensures { result ≡ thread self.now slot }
    {
        match self.handle_at(usize::from(slot)) {
            Handle::Thread(thread) => Some(thread),
            Handle::Spawned(thread, _) => Some(thread),
            Handle::Empty | Handle::Object(_) => None,
        }
    }

    /// The notifier of the thread in the slot.
    pub(crate) fn notifier(&self, slot: usize) -> Option<usize>
        ensures { result ≡ notifier self.now slot }
    {
        match self.handle_at(slot) {
            Handle::Spawned(_, notifier) => Some(notifier),
            Handle::Empty | Handle::Object(_) | Handle::Thread(_) => None,
        }
    }

    /// Where the next step is, behind a jump and a label: a jump makes no operation.
    fn landing(&self, program: &Program) -> usize
        ensures { result ≡ landing program.now self.now }
    {
        let Some(step) = program.step(self.at) else {
            return self.at;
        };
        let place = match step {
            Step::JumpTo(_) => program.named_at(self.at),
            Step::IfTo(register, number, _) => {
                if self.has(*register, *number) {
                    program.named_at(self.at)
                } else {
                    self.at + 1
                }
            }
            Step::UnlessTo(register, number, _) => {
                if self.has(*register, *number) {
                    self.at + 1
                } else {
                    program.named_at(self.at)
                }
            }
            Step::Do(..)
            | Step::Labelled(..)
            | Step::Store(..)
            | Step::Label(_)
            | Step::SpawnAt(..) => self.at,
        };
        past_label(program, place)
    }

    /// Goes behind the next step or, where that is a jump or a label, behind the one to which it leads. Answers the place of the
    /// step behind which it is now, and that step, if there is one.
    pub(crate) fn fetch(&mut self, program: &Program) -> (usize, Option<&'static Step>)
        ensures place { result.0 ≡ landing program.now self.old }
        ensures read { option_map written (option_copied result.1) ≡ slice_get program.now result.0 }
        ensures moved { self.new ≡ fetched program.now self.old }
    {
        let at = self.at;
        let Some(step) = program.step(at) else {
            return (at, None);
        };
        match step {
            Step::Do(keep, _) | Step::Labelled(keep, ..) | Step::SpawnAt(keep, _) => {
                self.at = at + 1;
                self.keep = *keep;
                (at, Some(step))
            }
            Step::Store(..) => {
                self.pass(program, at);
                (at, Some(step))
            }
            Step::Label(_) | Step::JumpTo(_) | Step::IfTo(..) | Step::UnlessTo(..) => {
                let place = self.landing(program);
                self.pass(program, place);
                (place, program.step(place))
            }
        }
    }

    /// Goes behind the step at this place, if there is one.
    fn pass(&mut self, program: &Program, place: usize)
        ensures { self.new ≡ behind self.old place (slice_get program.now place) }
    {
        if let Some(step) = program.step(place) {
            self.at = place + 1;
            self.keep = keep_of(step);
        }
    }

    /// The state of a thread that begins at this step, with the numbers and handles of this one.
    pub(crate) fn child(&self, at: usize) -> State
        ensures { result ≡ child self.now at }
    {
        State {
            at,
            keep: 0,
            ..*self
        }
    }
}

/// The next place, if a label stands at this one.
fn past_label(program: &Program, place: usize) -> usize
    ensures { result ≡ past_label program.now place }
{
    let Some(step) = program.step(place) else {
        return place;
    };
    match step {
        Step::Label(_) => place + 1,
        _ => place,
    }
}

/// The number with this one behind it, as a decimal digit.
fn with_digit(number: u64, digit: u64) -> u64
    ensures { result ≡ with_digit number digit }
{
    number.wrapping_mul(10).wrapping_add(digit)
}

/// A 1, and behind it the numbers.
fn digits(numbers: &LinkedList<u64>) -> u64
    ensures { result ≡ digits numbers.now }
{
    numbers
        .iter()
        .fold(1, |number, digit| with_digit(number, *digit))
}

/// A 1, and behind it the key and the number of each value.
fn local_digits(locals: &[Keyed<u64>]) -> u64
    ensures { result ≡ local_digits locals.now }
{
    locals.iter().fold(1, |number, local| {
        with_digit(with_digit(number, local.key as u64), local.value)
    })
}

/// A 1, and behind it the key and the number of each value that is made once a run.
fn lazy_digits(lazies: &[Lazy<u64>]) -> u64
    ensures { result ≡ lazy_digits lazies.now }
{
    lazies.iter().fold(1, |number, lazy| {
        with_digit(with_digit(number, lazy.key as u64), lazy.value)
    })
}

/// What stands for a thread's name: 0 for none, and else the bytes of a 1 and of the text.
fn name_number(name: Option<Name>) -> u64
    ensures { result ≡ name_number name }
{
    match name {
        None => 0,
        Some(name) => name
            .text
            .as_str()
            .as_bytes()
            .iter()
            .fold(1, |number: u64, byte| {
                number.wrapping_mul(256).wrapping_add(u64::from(*byte))
            }),
    }
}

/// What a step keeps of the reply.
fn told_by(reply: &Reply<u64>) -> Told
    ensures { result ≡ told_by reply.now }
{
    match reply {
        Reply::Atomic(number)
        | Reply::Cell(number)
        | Reply::Arc(number)
        | Reply::Track(number)
        | Reply::Mutex(number)
        | Reply::RwLock(number)
        | Reply::Condvar(number)
        | Reply::Notify(number)
        | Reply::Channel(number)
        | Reply::BlockOn(number)
        | Reply::Waker(number)
        | Reply::AtomicWaker(number) => Told::Handle(Handle::Object(*number)),
        Reply::Value(number) => Told::Number(*number),
        Reply::Exchanged(Ok(number)) => Told::Number(*number),
        Reply::Exchanged(Err(number)) => Told::Found(*number),
        Reply::Data(number)
        | Reply::Reading(_, number)
        | Reply::Writing(_, number)
        | Reply::Locked(_, number)
        | Reply::Waited(_, number, _)
        | Reply::ReadLocked(_, number)
        | Reply::WriteLocked(_, number) => Told::Number(*number),
        Reply::Shared | Reply::WouldBlock | Reply::Empty | Reply::NoWaker | Reply::Absent => {
            Told::Instead(1)
        }
        Reply::RecvError | Reply::Disconnected | Reply::AccessError => Told::Instead(2),
        Reply::SendError(number) => Told::Instead(*number),
        Reply::Messages(numbers) => Told::Number(digits(numbers)),
        Reply::Stood(one, other) => Told::Number(with_digit(*one, *other)),
        Reply::Locals(locals) => Told::Number(local_digits(locals.as_slice())),
        Reply::Lazies(lazies) => Told::Number(lazy_digits(lazies.as_slice())),
        Reply::Thread(thread, name) => { Told::Named(Handle::Thread(*thread), name_number(*name)) }
        Reply::Spawned(thread, _, notifier) => Told::Handle(Handle::Spawned(*thread, *notifier)),
        _ => Told::Nothing,
    }
}

/// The slot, or the register, in which the step keeps its reply.
fn keep_of(step: &Step) -> usize
    ensures { result ≡ keep_of (written step.now) }
{
    match step {
        Step::Do(keep, _) | Step::Labelled(keep, ..) | Step::SpawnAt(keep, _) => *keep,
        Step::Store(..) | Step::Label(_) | Step::JumpTo(_) | Step::IfTo(..) | Step::UnlessTo(..) =>
            0,
    }
}
