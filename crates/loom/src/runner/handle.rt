//! The handle by which a thread of a run hands over its operations and waits for their replies.
ghost use Rattle.std.specs.Prelude.{◌≡◌, ◌≤◌, ◌+◌, ◌++◌, ◌∷◌, [], IfOk, IfErr, IfSome, OnOk, MatchOption, Some, Ok, Err, true, false, slice_get};
ghost use Rattle.loom_objects.specs.declared.operation.Reply.TheVariants as reply;
ghost use Rattle.loom_objects.specs.Text.{first_text};
ghost use Rattle.loom.specs.Runner.Errors.{IsRefusedByHost};
ghost use Rattle.loom.specs.Runner.Histories.{entry};
ghost use Rattle.loom.specs.Runner.Handle.{newcomer, with_open, failing, finishing, handed, is_reserved, spawning, ByStop, Closes, all_answered, is_memory, Leading};

mod arcs;
pub mod ask;
mod atomics;
pub mod calls;
mod cells;
mod channels;
mod entries;
mod locks;
mod threads;
mod tracks;
mod values;
mod waits;
mod wakers;

use crate::runner::error::RunnerError;
use crate::runner::exact::Exact;
use crate::runner::handle::calls::{is_reserved, last_of};
use crate::runner::handle::entries::{has_room, note, note_spawn, note_started, prepare};
use crate::runner::history::event::Entry;
use crate::runner::history::told::Told;
use crate::runner::job::Job;
use crate::runner::pool::Pool;
use crate::runner::shared::{self, Children, Shared};
use crate::runner::stop::Stop;
use loom_objects::label::{self, Label};
use loom_objects::location::Location;
use loom_objects::operation::{Name, Reply, Request, ThreadOp};
use loom_objects::text::Text;
use loom_ops::thread::JoinHandle;
use std::alloc::Global;
use std::marker::Model;
use std::mem;
use std::sync::{Arc, Wait};
use std::thread::Threads;

/// By what a thread of a run hands over its operations, and waits for their replies (own). Once a call was answered by a stop,
/// each later one is.
#[derive(Drop)]
pub struct Handle<D, R> {
    rt: R,
    alloc: Global,
    shared: Arc<Shared<D>, Global>,
    thread: u8,
    told: Vec<Entry<D>>,
    stop: Option<Stop>,
    children: Children,
    // of the operation that comes next
    label: Option<Label>,
    // of the thread that is spawned next
    name: Option<Name>,
}

impl<D, R> Model for Handle<D, R> {
    ghost use Rattle.loom.specs.Runner.Handle.{Teller, Remembers, is_memory};

    ghost Value = { Teller D };

    ghost view = { λ h. record { thread = h.thread; told = h.told.items; starved = is_memory h.stop; name = h.name } };

    ghost invariant = { λ h. Remembers h.told.items h.stop };
}

impl<D: Exact + 'static, R: Wait> Handle<D, R> {
    /// Hands over an operation, and waits for its reply. A spawn, and an operation of a thread's end, fails the run as an
    /// assertion: for these there are `spawn` and the closure's own end. After a stop each call answers it again (own).
    pub fn call(&mut self, request: Request<D, ()>) -> Result<Reply<D>, Stop>
        ensures own { OnOk result (is_reserved request ≡ false) }
        ensures live { OnOk result (all_answered self.old.told ≡ true) }
        ensures thread { self.new.thread ≡ self.old.thread }
        ensures answered { IfOk result (λ reply. self.new.told ≡ self.old.told ++ entry request (Some reply) ∷ []) }
        ensures stopped { IfErr result (λ stop. ByStop stop (self.new.told ≡ with_open self.old.told (handed request)) (self.new.starved ≡ true)) }
    {
        if is_reserved(&request) {
            request.let_go();
            return Err(self.fail());
        }
        self.hand_over(request)
    }

    /// Hands over `fail`, and answers the stop (own).
    pub fn fail(&mut self) -> Stop
        ensures thread { self.new.thread ≡ self.old.thread }
        ensures stopped { ByStop result (self.new.told ≡ with_open self.old.told failing) (self.new.starved ≡ true) }
    {
        if let Some(stop) = self.stop {
            return stop;
        }
        if !has_room(&mut self.told) {
            return self.give_up(Stop::Memory);
        }
        let label = self.label.take();
        let stop = shared::fail(&self.rt, &self.shared, self.thread, label);
        self.told.push_reserved(Entry {
            op: Request::Fail,
            reply: None,
        });
        self.stop = Some(stop);
        stop
    }

    /// The operation that comes next is called so where the run is explained, as is what it makes: `handle.named("count").atomic(0)`
    /// (own; in loom objects have no names). Of a name the first 24 bytes are kept, and a place that was given stays. It changes
    /// nothing that the operation does.
    pub fn named(&mut self, name: &str) -> &mut Self
        ensures lent { result.ghost_name ≡ self.entry.ghost_name }
        ensures same { result.now ≡ self.old }
    {
        self.label = label::named(self.label, Text::first(name));
        self
    }

    /// The operation that comes next is in this line of the file: `handle.at("src/queue.rs", 12).load(..)` (own; loom's
    /// `track_caller`). Of the file's path the last 24 bytes are kept, and a name that was given stays. It changes nothing that the
    /// operation does.
    pub fn at(&mut self, file: &str, line: u32) -> &mut Self
        ensures lent { result.ghost_name ≡ self.entry.ghost_name }
        ensures same { result.now ≡ self.old }
    {
        self.label = label::placed(self.label, Location::new(file, line));
        self
    }

    /// The thread that is spawned next has this name: `handle.thread("consumer").spawn(..)` (loom's `thread::Builder`). Of a name the
    /// first 24 bytes are kept.
    pub fn thread(&mut self, name: &str) -> &mut Self
        ensures lent { result.ghost_name ≡ self.entry.ghost_name }
        ensures named { result.now ≡ record self.old { name = Some (record { text = first_text name.now }) } }
    {
        self.name = Some(Name {
            text: Text::first(name),
        });
        self
    }

    fn hand_over(&mut self, op: Request<D, ()>) -> Result<Reply<D>, Stop>
        ensures live { OnOk result (all_answered self.old.told ≡ true) }
        ensures thread { self.new.thread ≡ self.old.thread }
        ensures answered { IfOk result (λ reply. self.new.told ≡ self.old.told ++ entry op (Some reply) ∷ []) }
        ensures stopped { IfErr result (λ stop. ByStop stop (self.new.told ≡ with_open self.old.told op) (self.new.starved ≡ true)) }
    {
        if let Some(stop) = self.stop {
            shared::answer_again(&self.rt, &self.shared, self.thread);
            op.let_go();
            return Err(stop);
        }
        let Some(kept) = prepare(&mut self.told, &op) else {
            op.let_go();
            return Err(self.give_up(Stop::Memory));
        };
        let label = self.label.take();
        let answer = shared::hand_over(&self.rt, &self.shared, self.thread, op, label);
        match note(self.alloc, &mut self.told, kept, answer) {
            Ok(reply) => Ok(reply),
            Err(stop) => {
                self.stop = Some(stop);
                shared::heed(&self.rt, &self.shared, stop);
                Err(stop)
            }
        }
    }

    /// Ends the run for want of memory.
    pub(crate) fn give_up(&mut self, stop: Stop) -> Stop
        requires { stop ≡ Stop.Memory }
        ensures thread { self.new.thread ≡ self.old.thread }
        ensures starved { self.new.starved ≡ true }
        ensures stop { result ≡ Stop.Memory }
    {
        self.stop = Some(stop);
        shared::give_up(&self.rt, &self.shared, stop);
        stop
    }
}

impl<D: Exact + 'static, R: Threads + Wait + Clone + Send + 'static> Handle<D, R> {
    /// The handle of a thread before its first operation.
    pub(crate) fn new(
        rt: R,
        alloc: Global,
        shared: Arc<Shared<D>, Global>,
        thread: u8,
    ) -> Handle<D, R>
        ensures { result ≡ newcomer thread }
    {
        Handle {
            rt,
            alloc,
            shared,
            thread,
            told: Vec::new(alloc),
            stop: None,
            children: Vec::new(alloc),
            label: None,
            name: None,
        }
    }

    /// Starts a thread that runs the job, once its turn comes (loom's `thread.rs`). Where the host refuses the thread, the job is
    /// dropped and the run stops.
    pub fn spawn_job<J: Job<D, R> + 'static>(&mut self, job: J) -> Result<JoinHandle, Stop>
        requires { J.ready job }
        ensures live { OnOk result (all_answered self.old.told ≡ true) }
        ensures thread { self.new.thread ≡ self.old.thread }
        ensures answered { IfOk result (λ child. self.new.told ≡ self.old.told ++ entry (spawning self.old.name) (Some (reply.Spawned child.thread child.name child.notifier)) ∷ []) }
        ensures stopped { IfErr result (λ stop. ByStop stop (self.new.told ≡ with_open self.old.told (spawning self.old.name)) (self.new.starved ≡ true)) }
    {
        if let Some(stop) = self.stop {
            return Err(stop);
        }
        if !has_room(&mut self.told) {
            return Err(self.give_up(Stop::Memory));
        }
        if !has_room(&mut self.children) {
            return Err(self.give_up(Stop::Memory));
        }
        let name = self.name;
        self.name = None;
        let spawn = shared::Spawn {
            by: self.thread,
            label: self.label.take(),
            name,
        };
        let started = shared::start(&self.rt, self.alloc, &self.shared, spawn, job);
        match note_spawn(&mut self.told, &mut self.children, name, started) {
            Ok(handle) => Ok(handle),
            Err(stop) => {
                self.stop = Some(stop);
                shared::heed(&self.rt, &self.shared, stop);
                Err(stop)
            }
        }
    }

    /// Starts a thread that runs the job, once its turn comes, on a thread of the host that the pool keeps: one that is free, or else a new
    /// one (own). To the run it is one of `spawn_job`. Each job of the type may be run. Where the host refuses the thread, the job is
    /// dropped and the run stops.
    pub fn spawn_on<J: Job<D, R> + 'static>(
        &mut self,
        pool: &mut Pool<D, J>,
        job: J,
    ) -> Result<JoinHandle, Stop>
        requires { (each : J) → J.ready each }
        ensures kept { pool.old ≤ pool.new }
        ensures one { pool.new ≤ pool.old + 1 }
        ensures live { OnOk result (all_answered self.old.told ≡ true) }
        ensures thread { self.new.thread ≡ self.old.thread }
        ensures answered { IfOk result (λ child. self.new.told ≡ self.old.told ++ entry (spawning self.old.name) (Some (reply.Spawned child.thread child.name child.notifier)) ∷ []) }
        ensures stopped { IfErr result (λ stop. ByStop stop (self.new.told ≡ with_open self.old.told (spawning self.old.name)) (self.new.starved ≡ true)) }
    {
        if let Some(stop) = self.stop {
            return Err(stop);
        }
        if !has_room(&mut self.told) {
            return Err(self.give_up(Stop::Memory));
        }
        let name = self.name;
        self.name = None;
        let spawn = shared::Spawn {
            by: self.thread,
            label: self.label.take(),
            name,
        };
        let started = shared::start_on(&self.rt, self.alloc, &self.shared, spawn, pool, job);
        match note_started(&mut self.told, name, started) {
            Ok(handle) => Ok(handle),
            Err(stop) => {
                self.stop = Some(stop);
                shared::heed(&self.rt, &self.shared, stop);
                Err(stop)
            }
        }
    }

    /// Ends the thread by its closure's answer: hands over its result, `exit` and `end`, or for a stop `fail`, unless a call was
    /// answered by a stop already. Then it leaves the run. Main answers the told lists of all threads, once they have left, its own
    /// first, and another thread its own. The threads that it started are put into `ending`, and those that were there are joined
    /// (own). `Memory` where a call was refused memory, or the closure's answer is that: then the run is given up, and nothing is
    /// handed over. `Refused` where a thread was refused.
    pub fn close(
        mut self,
        answer: Result<D, Stop>,
        ending: &mut Children,
    ) -> Result<Vec<Told<D>>, RunnerError>
        ensures told { IfOk result (λ all. Leading self.thread all.items (Closes self.told answer)) }
        ensures starved { self.starved ≡ true → result ≡ Err RunnerError.Memory }
        ensures memory { answer ≡ Err Stop.Memory → result ≡ Err RunnerError.Memory }
        ensures errors { IfErr result IsRefusedByHost }
    {
        if is_starved(self.stop, &answer) {
            let_answer_go(answer);
            self.give_up(Stop::Memory);
            return self.leave(ending);
        }
        match last_of(answer) {
            Some(last) => self.finish(last),
            None => {
                self.fail();
            }
        }
        self.leave(ending)
    }

    /// Hands over this `finish`, `exit` and `end`, up to the first that is answered by a stop.
    fn finish(&mut self, last: Request<D, ()>)
        ensures thread { self.new.thread ≡ self.old.thread }
        ensures told { (value : D) → last ≡ finishing value → self.new.starved ≡ false → Closes self.old.told (Ok value) self.new.told }
    {
        let Ok(reply) = self.hand_over(last) else {
            return;
        };
        reply.let_go();
        let Ok(reply) = self.hand_over(Request::Thread(ThreadOp::Exit)) else {
            return;
        };
        reply.let_go();
        shared::end(&self.rt, &self.shared);
    }

    /// Leaves the run, main once the others have left it. The threads that it started are put into `ending`, and those that were there
    /// are joined.
    pub(crate) fn leave(self, ending: &mut Children) -> Result<Vec<Told<D>>, RunnerError>
        ensures told { IfOk result (λ all. Leading self.thread all.items (λ es. es ≡ self.told)) }
        ensures fed { OnOk result (self.starved ≡ false) }
        ensures starved { self.starved ≡ true → result ≡ Err RunnerError.Memory }
        ensures errors { IfErr result IsRefusedByHost }
    {
        let Handle {
            rt,
            alloc,
            shared,
            thread,
            told,
            stop,
            children,
            label: _,
            name: _,
        } = self;
        shared::join_all(&rt, mem::replace(ending, children));
        let others = shared::others_of(&rt, alloc, &shared, thread);
        let_go_of(shared);
        let first = Told {
            thread,
            entries: told,
        };
        match refusal(stop) {
            Some(error) => {
                let_lists_go(first, others);
                Err(error)
            }
            None => gather(alloc, first, others),
        }
    }
}

/// Whether a call of the handle was refused memory, or its closure says so.
fn is_starved<D>(stop: Option<Stop>, answer: &Result<D, Stop>) -> bool
    ensures kept { is_memory stop ≡ true → result ≡ true }
    ensures said { answer.now ≡ Err Stop.Memory → result ≡ true }
{
    match stop {
        Some(Stop::Memory) => true,
        Some(Stop::Failure(_)) | Some(Stop::Refused) | None => match answer {
            Err(Stop::Memory) => true,
            Err(Stop::Failure(_)) | Err(Stop::Refused) | Ok(_) => false,
        },
    }
}

/// Lets a closure's answer go.
fn let_answer_go<D: Drop>(_answer: Result<D, Stop>) {}

/// Lets go of what the threads of a run share. It stands alone, since that is done in many steps.
fn let_go_of<D: Exact>(_shared: Arc<Shared<D>, Global>) {}

/// Lets the lists go.
fn let_lists_go<D: Drop>(_first: Told<D>, _others: Result<Vec<Told<D>>, RunnerError>) {}

/// The error of a thread that stopped so, unless its run went on or failed.
fn refusal(stop: Option<Stop>) -> Option<RunnerError>
    ensures memory { MatchOption result (is_memory stop ≡ false) (λ error. is_memory stop ≡ true → error ≡ RunnerError.Memory) }
    ensures host { IfSome result IsRefusedByHost }
{
    match stop {
        Some(Stop::Memory) => Some(RunnerError::Memory),
        Some(Stop::Refused) => Some(RunnerError::Refused),
        Some(Stop::Failure(_)) | None => None,
    }
}

/// The lists of the threads, this one first, unless a thread that was joined answered an error.
fn gather<D: Drop>(
    alloc: Global,
    first: Told<D>,
    others: Result<Vec<Told<D>>, RunnerError>,
) -> Result<Vec<Told<D>>, RunnerError>
    ensures first { IfOk result (λ all. slice_get all.items 0 ≡ Some first) }
    ensures errors { IfErr others IsRefusedByHost → IfErr result IsRefusedByHost }
{
    let mut all = Vec::new(alloc);
    if all.push(first).is_err() {
        return Err(RunnerError::Memory);
    }
    if all.append(&mut others?).is_err() {
        return Err(RunnerError::Memory);
    }
    Ok(all)
}
