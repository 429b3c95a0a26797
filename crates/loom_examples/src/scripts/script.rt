//! Bodies that take one step of a list after another.
ghost use Rattle.std.specs.Prelude.{◌≡◌, Err, IfOk, IsTrue, None, Ok, Some, map, option_copied};
ghost use Rattle.std.specs.Option.{option_map};
ghost use Rattle.loom_objects.specs.Operation.Labelled.{bare};
ghost use Rattle.loom_objects.specs.Operation.Switching.{NeverSwitches};
ghost use Rattle.loom_examples.specs.Scripts.Running.{spawned, started};
ghost use Rattle.loom_examples.specs.Scripts.Script.{label_of, next_of, request, store};
ghost use Rattle.loom_examples.specs.Scripts.Written.{written};

use crate::scripts::program::Program;
use crate::scripts::state::State;
use crate::scripts::step::{Step, Value};
use loom::runner::Apart;
use loom_objects::body::Body;
use loom_objects::label::Label;
use loom_objects::operation::{AtomicOp, Labelled, Op, Reply, Request, ThreadOp};
use std::alloc::{AllocError, Global};
use std::marker::Model;
use std::sync::Arc;
use std::sync::atomic::Ordering;

/// A thread that runs a script.
#[derive(Drop)]
pub struct Script {
    // All threads of all runs share it, but each worker has its own.
    program: Arc<Program>,
    state: Box<State>,
}

impl Model for Script {
    ghost use Rattle.loom_examples.specs.Scripts.Running.{Running};

    ghost Value = { Running };

    ghost view = { λ script. record { steps = script.program.value; state = script.state.value } };
}

// Answers the request that is made of this one, if its slots keep such handles.
macro_rules! answer_made {
    ($made:expr, $kind:ident) => {
        if let Some(op) = $made {
            return Ok(Request::$kind(op));
        }
    };
}

impl Script {
    /// A thread at the script's first step, without handles, and with 0 in each register. It fails only where a growth is
    /// refused.
    pub fn new(alloc: Global, steps: &'static [Step]) -> Result<Script, AllocError>
        ensures { IfOk result (λ script. script ≡ started (map written steps.entry.now)) }
    {
        let program = Arc::new(alloc, Program::new(alloc, steps)?)?;
        let state = Box::new(alloc, State::new())?;
        Ok(Script { program, state })
    }

    // A thread in this state, with the same steps.
    fn beside(&self, state: State) -> Result<Script, AllocError>
        ensures { IfOk result (λ script. script ≡ record self.now { state = state }) }
    {
        let state = Box::new(*Box::allocator(&self.state), state)?;
        Ok(Script {
            program: Arc::try_clone(&self.program)?,
            state,
        })
    }

    // The state that it is in.
    pub(crate) fn state(&self) -> &State
        ensures { result.now ≡ self.now.state }
    {
        &*self.state
    }

    // Its steps.
    pub(crate) fn program(&self) -> &Program
        ensures { result.now ≡ self.now.steps }
    {
        self.program.as_ref()
    }

    // A thread that begins at this step, with the numbers and handles of this one.
    pub(crate) fn child(&self, at: usize) -> Result<Script, AllocError>
        ensures { IfOk result (λ script. script ≡ spawned self.now at) }
    {
        self.beside(self.state.child(at))
    }

    /// What the step asks for. Where a slot keeps no such handle the step fails.
    fn request(&self, asked: &Request<Value, usize>) -> Result<Request<u64, Script>, AllocError>
        ensures { IfOk result (λ made. made ≡ request self.now asked.now) }
    {
        let state = self.state();
        match asked {
            Request::Atomic(op) => answer_made!(state.atomic_op(*op), Atomic),
            Request::Fence(order) => return Ok(Request::Fence(*order)),
            Request::Cell(op) => answer_made!(state.cell_op(op), Cell),
            Request::Arc(op) => answer_made!(state.arc_op(op), Arc),
            Request::Track(op) => answer_made!(state.track_op(op), Track),
            Request::Mutex(op) => answer_made!(state.mutex_op(op), Mutex),
            Request::RwLock(op) => answer_made!(state.rwlock_op(op), RwLock),
            Request::Condvar(op) => answer_made!(state.condvar_op(op), Condvar),
            Request::Notify(op) => answer_made!(state.notify_op(*op), Notify),
            Request::Channel(op) => answer_made!(state.channel_op(op), Channel),
            Request::Waker(op) => answer_made!(state.waker_op(*op), Waker),
            Request::AtomicWaker(op) => answer_made!(state.place_op(*op), AtomicWaker),
            Request::Local(op) => return Ok(Request::Local(state.local_op(op))),
            Request::Lazy(op) => return Ok(Request::Lazy(state.lazy_op(op))),
            Request::Explore(op) => return Ok(Request::Explore(*op)),
            Request::Thread(op) => return self.thread_request(op),
            Request::Unreachable => return Ok(Request::Unreachable),
            _ => {}
        }
        Ok(Request::Fail)
    }

    /// The store of the value into the atomic in the slot.
    fn store(&self, slot: usize, value: Value, order: Ordering) -> Request<u64, Script>
        ensures { result ≡ store self.now slot value order }
    {
        match self.state.object(slot) {
            Some(number) => {
                let stored = self.state.number_of(value);
                Request::Atomic(AtomicOp::Store(number, stored, order))
            }
            None => Request::Fail,
        }
    }

    /// The start of a thread at this place.
    fn spawn(&self, place: usize) -> Result<Request<u64, Script>, AllocError>
        ensures { IfOk result (λ made. made ≡ Request.Thread (ThreadOp.Spawn (spawned self.now place) None)) }
    {
        let child = self.child(place)?;
        Ok(Request::Thread(ThreadOp::Spawn(child, None)))
    }
}

// How the script's author calls the step.
fn label_of(step: Option<&Step>) -> Option<&Label>
    ensures { option_copied result ≡ label_of (option_map written (option_copied step.entry)) }
{
    match step {
        Some(Step::Labelled(_, _, label)) => Some(label),
        _ => None,
    }
}

// The operation of a step whose author doesn't call it anything. It is a function of its own, so that the label that isn't
// there is cleared where the answer is written, and never moved.
fn bare(request: Request<u64, Script>) -> Result<Op<u64, Script>, AllocError>
    ensures { result ≡ Ok (bare request) }
{
    Ok(Labelled {
        request,
        label: None,
    })
}

// The operation of a step that its author calls by this label.
fn called(request: Request<u64, Script>, label: &Label) -> Result<Op<u64, Script>, AllocError>
    ensures { result ≡ Ok (record { request = request; label = Some label.now }) }
{
    Ok(Labelled {
        request,
        label: Some(*label),
    })
}

// The operation of a step that fails.
fn failing() -> Result<Op<u64, Script>, AllocError>
    ensures { result ≡ Ok (bare Request.Fail) }
{
    bare(Request::Fail)
}

// A growth that was refused.
fn refused(refusal: AllocError) -> Result<Op<u64, Script>, AllocError>
    ensures { result ≡ Err refusal }
{
    Err(refusal)
}

impl Body for Script {
    type Data = u64;

    ghost next = { next_of };

    fn resume(&mut self, reply: Reply<u64>) -> Result<Op<u64, Script>, AllocError>
        ensures { IfOk result (λ op. (self.new, op) ≡ next_of self.old reply) }
    {
        // The reply is let go before the operation is made, so that nothing of it is held beside that.
        {
            let reply = reply;
            self.state.keep(&reply);
        }
        let (place, step) = self.state.fetch(self.program.as_ref());
        // Each answer goes out by itself: where two meet, each of them would be moved once more. Beyond the script's end, and
        // where a jump leads to a jump or past a label to another one, the step fails.
        let asked = match step {
            Some(Step::Do(_, asked) | Step::Labelled(_, asked, _)) => asked,
            Some(Step::Store(slot, value, order)) => return bare(self.store(*slot, *value, *order)),
            Some(Step::SpawnAt(..)) => match self.spawn(self.program.named_at(place)) {
                Ok(request) => return bare(request),
                Err(refusal) => return refused(refusal),
            },
            Some(Step::Label(_) | Step::JumpTo(_) | Step::IfTo(..) | Step::UnlessTo(..)) | None =>
                return failing(),
        };
        let request = match self.request(asked) {
            Ok(request) => request,
            Err(refusal) => return refused(refusal),
        };
        if let Some(label) = label_of(step) {
            return called(request, label);
        }
        bare(request)
    }

    fn try_clone(&self) -> Result<Script, AllocError>
        ensures { IfOk result (λ copy. copy ≡ self.now) }
    {
        self.beside(*self.state)
    }

    fn restart(&mut self, start: &Script) -> Result<(), AllocError>
        ensures { IfOk result (λ _. self.new ≡ start.now) }
    {
        self.program = Arc::try_clone(&start.program)?;
        *self.state = *start.state;
        Ok(())
    }

    fn never_switches(&self) -> bool
        ensures { IsTrue result → NeverSwitches next_of self.now }
    {
        self.program().never_switches()
    }
}

impl Apart for Script {
    fn apart(&self) -> Result<Script, AllocError> {
        // The program too is a copy, so that workers don't meet at the count of its owners.
        let alloc = *Box::allocator(&self.state);
        let program = Arc::new(alloc, self.program.try_clone(alloc)?)?;
        let state = Box::new(alloc, *self.state)?;
        Ok(Script { program, state })
    }
}
