//! What the threads of a run share: its state under a lock, and where each of them waits for its turn. By it they hand over their
//! operations, wake each other, and start and join each other.
ghost use Rattle.std.specs.Prelude.{◌≡◌, ◌≤◌, ◌+◌, IfOk, IfErr};
ghost use Rattle.loom_engine.specs.Path.Drawn.{IsDrawn};
ghost use Rattle.loom_engine.specs.Path.Route.{IsAtStart};
ghost use Rattle.loom.specs.Runner.Handle.{newcomer};
ghost use Rattle.loom.specs.Runner.Errors.{IsRefusedByHost};

pub(crate) mod looks;

use crate::runner::error::RunnerError;
use crate::runner::exact::Exact;
use crate::runner::handle::Handle;
use crate::runner::history::told::Told;
use crate::runner::job::Job;
use crate::runner::pool::Pool;
use crate::runner::pool::place::{Place, Work};
use crate::runner::shared::looks::Looks;
use crate::runner::stop::Stop;
use crate::runner::turns::Turns;
use crate::runner::turns::drawing::Drawing;
use loom_engine::rt::execution::Limits;
use loom_engine::rt::path::Path;
use loom_objects::label::Label;
use loom_objects::operation::{Name, Reply, Request, ThreadOp};
use loom_ops::thread::JoinHandle;
use loom_views::rt::MAX_THREADS;
use std::alloc::{AllocError, Global};
use std::hint::spin_loop;
use std::mem;
use std::sync::atomic::{AtomicU64, Ordering};
use std::sync::{Arc, Condvar, Mutex, MutexGuard, Wait};
use std::thread::{self, Threads};

/// What the threads of a run share that begins with the path (own). `Memory` where a growth was refused.
pub fn share<D: Exact + 'static>(
    alloc: Global,
    limits: Limits,
    path: &Path,
) -> Result<Arc<Shared<D>, Global>, RunnerError>
    requires some { 1 ≤ limits.max_threads }
    requires few { limits.max_threads ≤ 5 }
    requires starts { IsAtStart path.now.explores path.now }
    ensures { IfErr result (λ e. e ≡ RunnerError.Memory) }
{
    let Ok(turns) = Turns::new(alloc, path, limits) else {
        return Err(RunnerError::Memory);
    };
    share_turns(alloc, turns)
}

/// What runs leave for the next one (own).
#[derive(Drop)]
pub struct Room<D> {
    // the state that their threads shared
    shared: Option<Arc<Shared<D>, Global>>,
    /// The threads that main of the last run has started. They have left it, and are joined once the next one is over: to wait until a
    /// thread has ended takes longer than most of a run.
    pub(crate) ending: Children,
}

impl<D> Room<D> {
    /// Before the first run (own).
    pub fn new(alloc: Global) -> Room<D> {
        Room {
            shared: None,
            ending: Vec::new(alloc),
        }
    }
}

impl<D: Drop> Room<D> {
    /// No run comes any more (own).
    pub fn end<R: Threads>(self, rt: &R) {
        let Room { shared: _, ending } = self;
        join_all(rt, ending);
    }
}

impl<D: Exact + 'static> Room<D> {
    /// What the threads of a run share that begins with the path, as `share` makes it. `Memory` where a growth was refused.
    pub(crate) fn share<R: Wait>(
        &mut self,
        rt: &R,
        alloc: Global,
        limits: Limits,
        path: &Path,
    ) -> Result<Arc<Shared<D>, Global>, RunnerError>
        requires some { 1 ≤ limits.max_threads }
        requires few { limits.max_threads ≤ 5 }
        requires starts { IsAtStart path.now.explores path.now }
        ensures { IfErr result (λ e. e ≡ RunnerError.Memory) }
    {
        if let Some(shared) = &self.shared {
            return share_again(rt, shared, limits, path);
        }
        let Ok(shared) = share(alloc, limits, path) else {
            return Err(RunnerError::Memory);
        };
        let Ok(again) = Arc::try_clone(&shared) else {
            return Err(RunnerError::Memory);
        };
        self.shared = Some(again);
        Ok(shared)
    }
}

/// What the threads of the run before have shared, at the beginning of a run along the path. All of them have left it.
fn share_again<D: Exact + 'static, R: Wait>(
    rt: &R,
    shared: &Arc<Shared<D>, Global>,
    limits: Limits,
    path: &Path,
) -> Result<Arc<Shared<D>, Global>, RunnerError>
    requires some { 1 ≤ limits.max_threads }
    requires few { limits.max_threads ≤ 5 }
    requires starts { IsAtStart path.now.explores path.now }
    ensures { IfErr result (λ e. e ≡ RunnerError.Memory) }
{
    if shared.restart(rt, limits, path).is_err() {
        return Err(RunnerError::Memory);
    }
    match Arc::try_clone(shared) {
        Ok(mine) => Ok(mine),
        Err(_) => Err(RunnerError::Memory),
    }
}

/// What the threads of a run share whose choices are drawn. `Memory` where a growth was refused.
pub(crate) fn share_drawn<D: Exact + 'static>(
    alloc: Global,
    limits: Limits,
    path: &Path,
    drawing: Drawing,
) -> Result<Arc<Shared<D>, Global>, RunnerError>
    requires some { 1 ≤ limits.max_threads }
    requires few { limits.max_threads ≤ 5 }
    requires starts { IsAtStart path.now.explores path.now }
    requires empty { IsDrawn path.now }
    ensures { IfErr result (λ e. e ≡ RunnerError.Memory) }
{
    let Ok(turns) = Turns::drawn(alloc, path, limits, drawing) else {
        return Err(RunnerError::Memory);
    };
    share_turns(alloc, turns)
}

/// This state is shared.
fn share_turns<D: Exact + 'static>(
    alloc: Global,
    turns: Turns<D>,
) -> Result<Arc<Shared<D>, Global>, RunnerError>
    ensures { IfErr result (λ e. e ≡ RunnerError.Memory) }
{
    let shared = Shared {
        turns: Mutex::new(turns),
        shown: AtomicU64::new(0),
        looks: Looks::new(),
        places: [
            Condvar::new(),
            Condvar::new(),
            Condvar::new(),
            Condvar::new(),
            Condvar::new(),
        ],
        running: AtomicU64::new(0),
        left: Mutex::new(Left::new(alloc)),
        all_left: Condvar::new(),
    };
    match Arc::new(alloc, shared) {
        Ok(shared) => Ok(shared),
        Err(_) => Err(RunnerError::Memory),
    }
}

/// Main's handle before its first operation (own). `Memory` where a growth was refused.
pub fn main_handle<D: Exact + 'static, R: Threads + Wait + Clone + Send + 'static>(
    rt: &R,
    alloc: Global,
    shared: &Arc<Shared<D>, Global>,
) -> Result<Handle<D, R>, RunnerError>
    ensures made { IfOk result (λ handle. handle ≡ newcomer 0) }
    ensures memory { IfErr result (λ e. e ≡ RunnerError.Memory) }
{
    handle_of(rt, alloc, shared, 0)
}

/// The thread's handle before its first operation. `Memory` where a growth was refused.
fn handle_of<D: Exact + 'static, R: Threads + Wait + Clone + Send + 'static>(
    rt: &R,
    alloc: Global,
    shared: &Arc<Shared<D>, Global>,
    thread: u8,
) -> Result<Handle<D, R>, RunnerError>
    ensures made { IfOk result (λ handle. handle ≡ newcomer thread) }
    ensures memory { IfErr result (λ e. e ≡ RunnerError.Memory) }
{
    let Ok(mine) = Arc::try_clone(shared) else {
        return Err(RunnerError::Memory);
    };
    let Ok(again) = rt.clone() else {
        return Err(RunnerError::Memory);
    };
    Ok(Handle::new(again, alloc, mine, thread))
}

/// What the threads of a run share: the state of the run, and where each of them waits for its turn.
#[derive(Drop)]
pub struct Shared<D> {
    /// The state of the run.
    pub turns: Mutex<Turns<D>>,
    // whose turn it is, or `ALL`, for threads that look before they sleep. What counts is what is in `turns`.
    shown: AtomicU64,
    looks: Looks,
    // where each thread sleeps, by its number
    places: [Condvar; MAX_THREADS],
    // how many of the threads that were started haven't left the run
    running: AtomicU64,
    left: Mutex<Left<D>>,
    // where main sleeps until the others have left
    all_left: Condvar,
}

/// What is shown once the run goes no further, so that no thread waits.
const ALL: u64 = u64::MAX;

impl<D: Exact> Shared<D> {
    /// The state is that before a run along the path, within these limits, of which main has the first turn.
    fn restart<R: Wait>(&self, rt: &R, limits: Limits, path: &Path) -> Result<(), AllocError>
        requires some { 1 ≤ limits.max_threads }
        requires few { limits.max_threads ≤ 5 }
        requires starts { IsAtStart path.now.explores path.now }
    {
        self.shown.store(0, Ordering::SeqCst);
        let mut turns = self.turns.lock(rt);
        turns.restart(path, limits)
    }

    /// Gives the state back, and wakes the thread whose turn it is now, or each one where the run goes no further. They are woken once
    /// the lock is let go, so that they needn't wait for it.
    fn pass_on(&self, turns: MutexGuard<'_, Turns<D>>) {
        let next = turns.next();
        self.shown.store(shown_of(next), Ordering::SeqCst);
        drop(turns);
        match next {
            Some(thread) => self.place(thread).notify_all(),
            None => self.wake_all(),
        }
    }

    fn wake_all(&self) {
        for place in &self.places {
            place.notify_all();
        }
    }

    /// Waits until the thread is decided: it looks a while, and then it sleeps. Answers the state.
    fn wait<R: Wait>(&self, rt: &R, me: u8) -> MutexGuard<'_, Turns<D>> {
        let looks = self.looks.next();
        let is_enough = self.look(me, looks);
        self.looks.note(looks, is_enough);
        self.sleep(rt, me)
    }

    /// Waits for the thread's first turn. Answers the state. That turn may come late, so it says nothing of how long to look.
    fn wait_first<R: Wait>(&self, rt: &R, me: u8) -> MutexGuard<'_, Turns<D>> {
        self.look(me, self.looks.next());
        self.sleep(rt, me)
    }

    /// Sleeps until the thread is decided. Answers the state.
    fn sleep<R: Wait>(&self, rt: &R, me: u8) -> MutexGuard<'_, Turns<D>> {
        let turns = self.turns.lock(rt);
        self.place(me)
            .wait_while(rt, turns, |turns| !turns.is_decided(me))
    }

    /// Looks so often whether the thread is shown to be decided.
    fn look(&self, me: u8, looks: u64) -> bool {
        for _ in 0..looks {
            let shown = self.shown.load(Ordering::SeqCst);
            if shown == u64::from(me) || shown == ALL {
                return true;
            }
            spin_loop();
        }
        false
    }

    /// One thread more is started.
    fn note_start(&self) {
        self.running.fetch_add(1, Ordering::SeqCst);
    }

    /// A thread that was started leaves the run with these lists, or with why it has none. It has handed over its last operation.
    fn leave<R: Wait>(&self, rt: &R, lists: Result<Vec<Told<D>>, RunnerError>) {
        let mut left = self.left.lock(rt);
        left.add(lists);
        let before = self.running.fetch_sub(1, Ordering::SeqCst);
        drop(left);
        if before == 1 {
            self.all_left.notify_all();
        }
    }

    /// Waits until each thread that was started has left the run. Answers their told lists.
    fn wait_for_others<R: Wait>(&self, rt: &R, alloc: Global) -> Result<Vec<Told<D>>, RunnerError>
        ensures { IfErr result IsRefusedByHost }
    {
        let looks = self.looks.next();
        let is_enough = self.look_for_others(looks);
        self.looks.note(looks, is_enough);
        let running = &self.running;
        let mut left = self.all_left.wait_while(rt, self.left.lock(rt), |_left| {
            running.load(Ordering::SeqCst) != 0
        });
        let all = mem::replace(&mut *left, Left::new(alloc));
        drop(left);
        all.lists()
    }

    /// Looks so often whether the others have left the run.
    fn look_for_others(&self, looks: u64) -> bool {
        for _ in 0..looks {
            if self.running.load(Ordering::SeqCst) == 0 {
                return true;
            }
            spin_loop();
        }
        false
    }

    /// Where the thread sleeps. A run has no more threads than places.
    fn place(&self, thread: u8) -> &Condvar {
        &self.places[thread as usize % MAX_THREADS]
    }
}

/// What is shown where it is this thread's turn, or where the run goes no further.
fn shown_of(next: Option<u8>) -> u64 {
    match next {
        Some(thread) => u64::from(thread),
        None => ALL,
    }
}

/// A spawn: which thread hands it over, with which label, and the name of the thread that begins.
#[derive(Clone, Copy)]
pub(crate) struct Spawn {
    pub(crate) by: u8,
    pub(crate) label: Option<Label>,
    pub(crate) name: Option<Name>,
}

/// What the threads that have left a run leave to main.
#[derive(Drop)]
struct Left<D> {
    lists: Vec<Told<D>>,
    error: Option<RunnerError>,
}

impl<D: Drop> Left<D> {
    fn new(alloc: Global) -> Left<D> {
        Left {
            lists: Vec::new(alloc),
            error: None,
        }
    }

    /// One thread more has left, with these lists, or with why it has none.
    fn add(&mut self, lists: Result<Vec<Told<D>>, RunnerError>) {
        match lists {
            Ok(mut lists) => {
                if self.lists.append(&mut lists).is_err() {
                    self.error = Some(RunnerError::Memory);
                }
            }
            Err(error) => self.error = Some(error),
        }
    }

    /// All lists, or why there are none.
    fn lists(self) -> Result<Vec<Told<D>>, RunnerError>
        ensures { IfErr result IsRefusedByHost }
    {
        let Left { lists, error } = self;
        match error {
            Some(error) => Err(refusal_in(&error)),
            None => Ok(lists),
        }
    }
}

/// A thread that was started.
pub type Child = thread::JoinHandle<()>;

/// The threads that a handle has started.
pub type Children = Vec<Child>;

/// Hands over an operation of the thread whose turn it is, with its label, and waits for its reply.
pub(crate) fn hand_over<D: Exact, R: Wait>(
    rt: &R,
    shared: &Shared<D>,
    me: u8,
    op: Request<D, ()>,
    label: Option<Label>,
) -> Result<Reply<D>, Stop> {
    let mut turns = shared.turns.lock(rt);
    turns.submit(op, label);
    if turns.next() == Some(me) {
        return turns.reply(me);
    }
    shared.pass_on(turns);
    shared.wait(rt, me).reply(me)
}

/// Hands over the thread's last operation, and waits for nothing.
pub(crate) fn end<D: Exact, R: Wait>(rt: &R, shared: &Shared<D>) {
    let mut turns = shared.turns.lock(rt);
    turns.submit(Request::Thread(ThreadOp::End), None);
    shared.pass_on(turns);
}

/// The run goes no further.
pub(crate) fn give_up<D: Exact, R: Wait>(rt: &R, shared: &Shared<D>, stop: Stop) {
    let mut turns = shared.turns.lock(rt);
    turns.give_up(stop);
    shared.pass_on(turns);
}

/// Hands over `fail`, and answers the stop.
pub(crate) fn fail<D: Exact, R: Wait>(
    rt: &R,
    shared: &Shared<D>,
    me: u8,
    label: Option<Label>,
) -> Stop {
    match hand_over(rt, shared, me, Request::Fail, label) {
        Ok(reply) => {
            reply.let_go();
            Stop::Refused
        }
        Err(stop) => stop,
    }
}

/// A thread was answered by a stop. Where the run hasn't failed it goes no further: the turn is this thread's, which hands nothing
/// over any more.
pub(crate) fn heed<D: Exact, R: Wait>(rt: &R, shared: &Shared<D>, stop: Stop) {
    match stop {
        Stop::Failure(_) => {}
        Stop::Memory | Stop::Refused => give_up(rt, shared, stop),
    }
}

/// A call of the thread was answered by the same stop as one before it.
pub(crate) fn answer_again<D: Exact, R: Wait>(rt: &R, shared: &Shared<D>, me: u8) {
    let mut turns = shared.turns.lock(rt);
    turns.answer_again(me);
}

/// Waits until the thread may start. False if it never may.
fn is_started<D: Exact, R: Wait>(rt: &R, shared: &Shared<D>, me: u8) -> bool {
    shared.wait_first(rt, me).starts(me)
}

/// Starts a thread for the job, which waits for its turn.
pub(crate) fn start<
    D: Exact + 'static,
    R: Threads + Wait + Clone + Send + 'static,
    J: Job<D, R> + 'static,
>(
    rt: &R,
    alloc: Global,
    shared: &Arc<Shared<D>, Global>,
    spawn: Spawn,
    job: J,
) -> Result<(JoinHandle, Child), Stop>
    requires { J.ready job }
{
    let handle = begin(rt, shared, spawn)?;
    let thread = handle.thread;
    let Ok(again) = rt.clone() else {
        return Err(Stop::Memory);
    };
    let Ok(theirs) = Arc::try_clone(shared) else {
        return Err(Stop::Memory);
    };
    let body = move ||
        requires { J.ready job }
    { run_job(again, alloc, theirs, thread, job) };
    shared.note_start();
    match thread::spawn(rt, body) {
        Ok(child) => Ok((handle, child)),
        Err(_) => {
            shared.leave(rt, Err(RunnerError::Refused));
            Err(Stop::Refused)
        }
    }
}

/// A thread of the pool waits for its turn, and runs the job.
pub(crate) fn start_on<
    D: Exact + 'static,
    R: Threads + Wait + Clone + Send + 'static,
    J: Job<D, R> + 'static,
>(
    rt: &R,
    alloc: Global,
    shared: &Arc<Shared<D>, Global>,
    spawn: Spawn,
    pool: &mut Pool<D, J>,
    job: J,
) -> Result<JoinHandle, Stop>
    requires { (each : J) → J.ready each }
    ensures kept { pool.old ≤ pool.new }
    ensures one { pool.new ≤ pool.old + 1 }
{
    let handle = begin(rt, shared, spawn)?;
    let Ok(theirs) = Arc::try_clone(shared) else {
        return Err(Stop::Memory);
    };
    let work = Work {
        shared: theirs,
        thread: handle.thread,
        job,
    };
    shared.note_start();
    match pool.hand_out(rt, alloc, work) {
        Ok(()) => Ok(handle),
        Err(stop) => {
            shared.leave(rt, Err(error_of(stop)));
            Err(stop)
        }
    }
}

/// Why a thread that wasn't started has no told list.
fn error_of(stop: Stop) -> RunnerError {
    match stop {
        Stop::Memory => RunnerError::Memory,
        Stop::Refused | Stop::Failure(_) => RunnerError::Refused,
    }
}

/// Hands over a spawn, and answers the thread that begins.
fn begin<D: Exact, R: Wait>(rt: &R, shared: &Shared<D>, spawn: Spawn) -> Result<JoinHandle, Stop> {
    let request = Request::Thread(ThreadOp::Spawn((), spawn.name));
    let reply = hand_over(rt, shared, spawn.by, request, spawn.label)?;
    let handle = JoinHandle::from_reply(&reply);
    reply.let_go();
    match handle {
        Some(handle) => Ok(handle),
        None => Err(Stop::Refused),
    }
}

/// What a started thread does: it waits for its turn, runs the job, closes its handle, leaves the run, and joins the threads that it has
/// started.
fn run_job<D: Exact + 'static, R: Threads + Wait + Clone + Send + 'static, J: Job<D, R> + 'static>(
    rt: R,
    alloc: Global,
    shared: Arc<Shared<D>, Global>,
    thread: u8,
    job: J,
)
    requires { J.ready job }
{
    let mut children = Vec::new(alloc);
    let lists = told_by(&rt, alloc, &shared, thread, job, &mut children);
    shared.leave(&rt, lists);
    drop(shared);
    join_all(&rt, children);
}

/// What a kept thread does with a job, as `run_job`. It is free before it leaves the run, so that the next run finds it so. Where the job
/// has started threads it is free once they have ended, since a job that is handed to it waits until it has joined them.
pub(crate) fn run_kept<
    D: Exact + 'static,
    R: Threads + Wait + Clone + Send + 'static,
    J: Job<D, R> + 'static,
>(rt: &R, alloc: Global, work: Work<D, J>, place: &Place<D, J>)
    requires { (each : J) → J.ready each }
{
    let Work {
        shared,
        thread,
        job,
    } = work;
    let mut children = Vec::new(alloc);
    let lists = told_by(rt, alloc, &shared, thread, job, &mut children);
    if children.is_empty() {
        place.let_free(rt);
    }
    shared.leave(rt, lists);
    drop(shared);
    join_all(rt, children);
}

/// A started thread waits for its turn, runs the job, and closes its handle. Answers its told list. The threads that it has started are
/// put into `children`.
fn told_by<D: Exact + 'static, R: Threads + Wait + Clone + Send + 'static, J: Job<D, R> + 'static>(
    rt: &R,
    alloc: Global,
    shared: &Arc<Shared<D>, Global>,
    thread: u8,
    job: J,
    children: &mut Children,
) -> Result<Vec<Told<D>>, RunnerError>
    requires { J.ready job }
{
    let is_started = is_started(rt, shared, thread);
    let Ok(mut handle) = handle_of(rt, alloc, shared, thread) else {
        give_up(rt, shared, Stop::Memory);
        return Err(RunnerError::Memory);
    };
    if !is_started {
        return handle.leave(children);
    }
    let answer = job.run(&mut handle);
    handle.close(answer, children)
}

/// What the host refused where a thread that was joined answered this error. It was started, so it answers as its handle's `close`, and
/// nothing but that memory or a thread was refused.
fn refusal_in(error: &RunnerError) -> RunnerError
    ensures { IsRefusedByHost result }
{
    match error {
        RunnerError::Memory => RunnerError::Memory,
        RunnerError::Refused
        | RunnerError::NotSettled
        | RunnerError::Settings(_)
        | RunnerError::Changed(_) => RunnerError::Refused,
    }
}

/// The told lists of the other threads: for main those of all others, once they have left the run, and else none.
pub(crate) fn others_of<D: Exact, R: Wait>(
    rt: &R,
    alloc: Global,
    shared: &Shared<D>,
    thread: u8,
) -> Result<Vec<Told<D>>, RunnerError>
    ensures { IfErr result IsRefusedByHost }
{
    if thread == 0 {
        shared.wait_for_others(rt, alloc)
    } else {
        Ok(Vec::new(alloc))
    }
}

/// Joins all threads.
pub(crate) fn join_all<R: Threads>(rt: &R, children: Children) {
    for child in children {
        child.join(rt);
    }
}
