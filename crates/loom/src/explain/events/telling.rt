//! Hears a run, and tells it as events.
ghost use Rattle.std.specs.Prelude.{◌≡◌, ◌≤◌, [], IfOk};
ghost use Rattle.loom_engine.specs.Path.Route.{IsAtStart, IsSameSearch, trail};
ghost use Rattle.loom.specs.Explain.Story.{IsToldAs, story_of};

use crate::model::listener::Listener;
use crate::model::run::{Ending, Room, run};
use loom_engine::rt::execution::Limits;
use loom_engine::rt::path::Path;
use loom_explain::event::{End, Event};
use loom_explain::values::{Show, Values, text_of_reply, text_of_request};
use loom_objects::body::Body;
use loom_objects::location::Location;
use loom_objects::operation::{Op, Reply, bare_op, bare_reply};
use std::alloc::{AllocError, Global};

/// A run that was made.
#[derive(Drop)]
pub struct Told {
    /// Its events, in order.
    pub events: Vec<Event>,
    /// The data of each as texts.
    pub values: Vec<Values>,
    /// How it ended. A failure has no place yet.
    pub end: End,
}

/// Keeps the events of a run, with the data as they are shown.
#[derive(Drop)]
pub struct Teller<'a, W> {
    alloc: Global,
    show: &'a W,
    /// The events so far, in order.
    events: Vec<Event>,
    /// The last reply to a thread, until it hands over its next operation.
    reply: Option<Reply<()>>,
    /// The data of that.
    told: Option<String>,
    /// The data of the events so far.
    values: Vec<Values>,
}

impl<'a, W> Teller<'a, W> {
    /// Before any event.
    pub fn new(alloc: Global, show: &'a W) -> Teller<'a, W>
        ensures { result.events.items ≡ [] }
    {
        Teller {
            alloc,
            show,
            events: Vec::new(alloc),
            reply: None,
            told: None,
            values: Vec::new(alloc),
        }
    }
}

impl<'a, D, W: Show<D>> Listener<D> for Teller<'a, W> {
    ghost use Rattle.std.specs.Prelude.{◌≡◌, ◌++◌, ◌∷◌, [], Some, ⊤, false};
    ghost use Rattle.loom_objects.specs.declared.operation.Reply.{Reply};

    ghost takes_reply = { λ old reply new. (new.reply ≡ Some reply) × (new.events ≡ old.events) };

    ghost takes_op = { λ old thread op choices new. (told : Reply ⊤) → old.reply ≡ Some told
        → new.events.items ≡ old.events.items ++ record { thread = thread; told = told; op = op; choices_before = choices } ∷ [] };

    ghost knows_locations = { false };

    fn hear_reply(&mut self, reply: &Reply<D>) -> Result<(), AllocError> {
        self.told = text_of_reply(self.alloc, self.show, reply)?;
        self.reply = Some(bare_reply(self.alloc, reply)?);
        Ok(())
    }

    fn hear_op<S>(
        &mut self,
        thread: u8,
        op: &Op<D, S>,
        choices_before: usize,
    ) -> Result<(), AllocError> {
        let Some(told) = self.reply.take() else {
            return Ok(());
        };
        let handed_over = text_of_request(self.alloc, self.show, &op.request)?;
        self.values.push(Values {
            told: self.told.take(),
            handed_over,
        })?;
        self.events.push(Event {
            thread,
            told,
            op: bare_op(op),
            choices_before,
        })?;
        Ok(())
    }

    fn location(&self, _thread: u8) -> Option<Location> {
        None
    }
}

/// One run of the body along the path, from its start. An error only where a growth was refused, in the run or the body.
pub fn tell<B: Body, W: Show<B::Data>>(
    alloc: Global,
    show: &W,
    room: &mut Room<B>,
    limits: Limits,
    body: &B,
    path: &mut Path,
) -> Result<Told, AllocError>
    requires some { 1 ≤ limits.max_threads }
    requires few { limits.max_threads ≤ 5 }
    requires starts { IsAtStart path.old.explores path.old }
    ensures told { IfOk result (λ told. IsToldAs (story_of path.old.search B.next path.old.explores limits.max_threads limits.max_steps body.now (trail path.old)) told path.new) }
    ensures same { IsSameSearch path.old path.new }
{
    let mut teller = Teller::new(alloc, show);
    match run(room, limits, body, path, &mut teller)? {
        Ending::Ended(_) => Ok(Told {
            events: teller.events,
            values: teller.values,
            end: End::Ended,
        }),
        Ending::Failed(failure) => Ok(Told {
            events: teller.events,
            values: teller.values,
            end: End::Failed(failure),
        }),
    }
}
