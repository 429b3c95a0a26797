//! Threads: how they begin and how they end, who they are, how they let others go first, and their own values.
ghost use Rattle.std.specs.Prelude.{◌≡◌, Some, None, codes};
ghost use Rattle.std.specs.Option.{option_map};
ghost use Rattle.loom_objects.specs.Text.{shown, first_text};
ghost use Rattle.loom_ops.specs.Thread.{access_error, join_handle, leave, thread_handle, named};
ghost use Rattle.loom_objects.specs.Operation.Labelled.{bare};
ghost use Rattle.loom_ops.specs.Answers.{joined_in, present_in, tried_local_in};

use crate::answers::answer::Answer;
use crate::fail;
use loom_objects::operation::{LocalOp, Name, Op, Reply, Request, ThreadOp};
use loom_objects::text::Text;
use std::fmt;

/// A thread that was spawned, and the notifier that it notifies when it finishes (loom's `thread.rs`).
#[derive(Clone, Copy)]
pub struct JoinHandle {
    /// The thread's place in the order in which threads were made; main is 0.
    pub thread: u8,
    /// Its name, if it was given one.
    pub name: Option<Name>,
    /// The notifier's number.
    pub notifier: usize,
}

/// A thread of the run (loom's `thread.rs`).
#[derive(Clone, Copy, Debug)]
pub struct Thread {
    /// Its place in the order in which threads were made; main is 0.
    pub id: ThreadId,
    /// Its name, if it was given one.
    pub name: Option<Name>,
}

/// A thread's place in the order in which threads were made; main is 0 (loom's `thread.rs`).
#[derive(Clone, Copy, Debug, PartialEq, Eq, Hash)]
pub struct ThreadId(pub u8);

/// What a thread is to be that is spawned (loom's `thread.rs`).
#[derive(Clone, Copy, Debug)]
pub struct Builder {
    /// Its name, if it is given one.
    pub name: Option<Name>,
}

/// Which of the three operations at its end a thread hands over next (own).
#[derive(Clone, Copy, Debug, PartialEq, Eq)]
pub enum Leaving {
    /// It finishes.
    Finish,
    /// It has finished, and exits.
    Exit,
    /// It has exited, and ends.
    End,
    /// None: it has ended.
    Gone,
}

/// A value that each thread has of its own (loom's `thread.rs`). In loom it has a function that makes it; here the body asks by
/// `with`, and gives one by `init`.
#[derive(Clone, Copy)]
pub struct LocalKey {
    /// The number that it is named by.
    pub key: usize,
}

/// The thread has given its own value back (loom's `rt/thread.rs`).
#[derive(Clone, Copy)]
pub struct AccessError;

/// The result of a thread that was joined (own).
pub struct Joined<D>(pub D);

/// A key's value, if it has one (own).
#[derive(Drop)]
pub struct Present<D>(pub Option<D>);

/// A thread's own value, if it has one, or that it was given back (own).
#[derive(Drop)]
pub struct TriedLocal<D>(pub Result<Option<D>, AccessError>);

impl fmt::Debug for LocalKey {
    ghost debug_output = { λ _. Some (codes "LocalKey { .. }") };

    fn fmt<W: fmt::Write>(&self, f: &mut fmt::Formatter<W>) -> fmt::Result {
        f.pad("LocalKey { .. }")
    }
}

impl fmt::Debug for AccessError {
    ghost debug_output = { λ _. Some (codes "AccessError") };

    fn fmt<W: fmt::Write>(&self, f: &mut fmt::Formatter<W>) -> fmt::Result {
        f.write_str("AccessError")
    }
}

impl fmt::Display for AccessError {
    ghost output = { λ _. Some (codes "already destroyed") };

    fn fmt<W: fmt::Write>(&self, f: &mut fmt::Formatter<W>) -> fmt::Result {
        f.pad("already destroyed")
    }
}

impl std::error::Error for AccessError {}

impl fmt::Debug for JoinHandle {
    ghost debug_output = { λ _. Some (codes "JoinHandle") };

    fn fmt<W: fmt::Write>(&self, f: &mut fmt::Formatter<W>) -> fmt::Result {
        f.pad("JoinHandle")
    }
}

impl JoinHandle {
    /// The thread that was spawned, if that is what the reply says (own).
    pub fn from_reply<D>(reply: &Reply<D>) -> Option<JoinHandle>
        ensures { result ≡ join_handle reply.now }
    {
        match reply {
            Reply::Spawned(thread, name, notifier) => Some(JoinHandle {
                thread: *thread,
                name: *name,
                notifier: *notifier,
            }),
            _ => None,
        }
    }

    /// Waits for the thread to finish, and takes its result. A second join is a misuse (loom's `thread.rs`).
    pub fn join<D, S>(self) -> Op<D, S>
        ensures { result ≡ bare (Request.Thread (ThreadOp.Join self.thread self.notifier)) }
    {
        Op::new(Request::Thread(ThreadOp::Join(self.thread, self.notifier)))
    }

    /// The thread itself. It is no operation (loom's `thread.rs`).
    pub fn thread(self) -> Thread
        ensures { result ≡ named self.thread self.name }
    {
        Thread {
            id: ThreadId(self.thread),
            name: self.name,
        }
    }
}

impl Thread {
    /// The thread that `current` was made by, if that is what the reply says (own).
    pub fn from_reply<D>(reply: &Reply<D>) -> Option<Thread>
        ensures { result ≡ thread_handle reply.now }
    {
        match reply {
            Reply::Thread(thread, name) => Some(Thread {
                id: ThreadId(*thread),
                name: *name,
            }),
            _ => None,
        }
    }

    /// Which thread it is. It is no operation (loom's `thread.rs`).
    pub fn id(self) -> ThreadId
        ensures { result ≡ self.id }
    {
        self.id
    }

    /// What is kept of its name, if it was given one. It is no operation (loom's `thread.rs`).
    pub fn name(&self) -> Option<&str>
        ensures { option_map (λ name. name.now) result ≡ option_map (λ name. shown name.text) self.now.name }
    {
        Some(self.name.as_ref()?.text.as_str())
    }

    /// The thread goes on if it is parked, and else has a token, by which it isn't parked the next time; it has one at most
    /// (loom's `thread.rs`).
    pub fn unpark<D, S>(self) -> Op<D, S>
        ensures { result ≡ bare (Request.Thread (ThreadOp.Unpark self.id.0)) }
    {
        Op::new(Request::Thread(ThreadOp::Unpark(self.id.0)))
    }
}

impl Builder {
    /// A thread without a name (loom's `thread.rs`).
    #[allow(clippy::new_without_default)]
    pub fn new() -> Builder
        ensures { result.name ≡ None }
    {
        Builder { name: None }
    }

    /// A thread with this name, of which 24 bytes are kept (loom's `thread.rs`).
    pub fn name(self, name: &str) -> Builder
        ensures { result.name ≡ Some (record { text = first_text name.now }) }
    {
        Builder {
            name: Some(Name {
                text: Text::first(name),
            }),
        }
    }

    /// A new thread, whose code is this body (loom's `thread.rs`).
    pub fn spawn<D, S>(self, body: S) -> Op<D, S>
        ensures { result ≡ bare (Request.Thread (ThreadOp.Spawn body self.name)) }
    {
        Op::new(Request::Thread(ThreadOp::Spawn(body, self.name)))
    }
}

impl LocalKey {
    /// The value that is named by this number. It is no operation (loom's `thread.rs`).
    pub fn new(key: usize) -> LocalKey
        ensures { result.key ≡ key }
    {
        LocalKey { key }
    }

    /// Replies a copy of the thread's own value, or `Absent`. Once `exit` has given it back that is the failure `LocalGone`
    /// (loom's `thread.rs`).
    pub fn with<D, S>(self) -> Op<D, S>
        ensures { result ≡ bare (Request.Local (LocalOp.With self.key)) }
    {
        Op::new(Request::Local(LocalOp::With(self.key)))
    }

    /// Replies a copy of the thread's own value, or `Absent`. Once `exit` has given it back the reply is `AccessError` (loom's
    /// `thread.rs`).
    pub fn try_with<D, S>(self) -> Op<D, S>
        ensures { result ≡ bare (Request.Local (LocalOp.TryWith self.key)) }
    {
        Op::new(Request::Local(LocalOp::TryWith(self.key)))
    }

    /// Gives the thread its own value, and replies a copy of it. Where it has one, or had one, that is the failure `KeyTaken`
    /// (loom's `thread.rs`).
    pub fn init<D, S>(self, value: D) -> Op<D, S>
        ensures { result ≡ bare (Request.Local (LocalOp.Init self.key value)) }
    {
        Op::new(Request::Local(LocalOp::Init(self.key, value)))
    }

    /// Another value takes the place of the thread's own, which is replied. Where it has none that is a misuse (own).
    pub fn put<D, S>(self, value: D) -> Op<D, S>
        ensures { result ≡ bare (Request.Local (LocalOp.Put self.key value)) }
    {
        Op::new(Request::Local(LocalOp::Put(self.key, value)))
    }
}

impl Leaving {
    /// The next of the three operations, where the thread finishes with this value, and which one comes after it. A thread that
    /// has ended gets no more replies, so it fails (own).
    pub fn next<D: Drop, S>(self, value: D) -> (Leaving, Op<D, S>)
        ensures { result ≡ leave value self }
    {
        match self {
            Leaving::Finish => (Leaving::Exit, finish(value)),
            Leaving::Exit => (Leaving::End, exit()),
            Leaving::End => (Leaving::Gone, end()),
            Leaving::Gone => (Leaving::Gone, fail()),
        }
    }
}

impl AccessError {
    /// That the value was given back, if that is what the reply says (own).
    pub fn from_reply<D>(reply: &Reply<D>) -> Option<AccessError>
        ensures { result ≡ access_error reply.now }
    {
        match reply {
            Reply::AccessError => Some(AccessError),
            _ => None,
        }
    }
}

/// A new thread without a name, whose code is this body (loom's `thread.rs`).
pub fn spawn<D, S>(body: S) -> Op<D, S>
    ensures { result ≡ bare (Request.Thread (ThreadOp.Spawn body None)) }
{
    Op::new(Request::Thread(ThreadOp::Spawn(body, None)))
}

/// Replies which thread makes it, and its name (loom's `thread.rs`).
pub fn current<D, S>() -> Op<D, S>
    ensures { result ≡ bare (Request.Thread ThreadOp.Current) }
{
    Op::new(Request::Thread(ThreadOp::Current))
}

/// Takes the thread's token; without one the thread waits until it is unparked (loom's `thread.rs`).
pub fn park<D, S>() -> Op<D, S>
    ensures { result ≡ bare (Request.Thread ThreadOp.Park) }
{
    Op::new(Request::Thread(ThreadOp::Park))
}

/// Lets other threads that can go on do so first (loom's `thread.rs`).
pub fn yield_now<D, S>() -> Op<D, S>
    ensures { result ≡ bare (Request.Thread ThreadOp.Yield) }
{
    Op::new(Request::Thread(ThreadOp::Yield))
}

/// The thread's work is over, with this result: the first of the three operations at a thread's end (own).
pub fn finish<D, S>(value: D) -> Op<D, S>
    ensures { result ≡ bare (Request.Thread (ThreadOp.Finish value)) }
{
    Op::new(Request::Thread(ThreadOp::Finish(value)))
}

/// The thread's locals are given back, after it finished (own).
pub fn exit<D, S>() -> Op<D, S>
    ensures { result ≡ bare (Request.Thread ThreadOp.Exit) }
{
    Op::new(Request::Thread(ThreadOp::Exit))
}

/// The thread's last operation, after it exited (own).
pub fn end<D, S>() -> Op<D, S>
    ensures { result ≡ bare (Request.Thread ThreadOp.End) }
{
    Op::new(Request::Thread(ThreadOp::End))
}

impl<D: Drop> Answer<D> for Thread {
    ghost held = { thread_handle };

    fn from_reply(reply: Reply<D>) -> Option<Thread>
        ensures { result ≡ thread_handle reply }
    {
        let thread = Thread::from_reply(&reply);
        reply.let_go();
        thread
    }
}

impl<D: Drop> Answer<D> for Joined<D> {
    ghost held = { joined_in };

    fn from_reply(reply: Reply<D>) -> Option<Joined<D>>
        ensures { result ≡ joined_in reply }
    {
        match reply {
            Reply::Data(value) => Some(Joined(value)),
            other => {
                other.let_go();
                None
            }
        }
    }
}

impl<D: Drop> Answer<D> for Present<D> {
    ghost held = { present_in };

    fn from_reply(reply: Reply<D>) -> Option<Present<D>>
        ensures { result ≡ present_in reply }
    {
        match reply {
            Reply::Data(value) => Some(Present(Some(value))),
            Reply::Absent => Some(Present(None)),
            other => {
                other.let_go();
                None
            }
        }
    }
}

impl<D: Drop> Answer<D> for TriedLocal<D> {
    ghost held = { tried_local_in };

    fn from_reply(reply: Reply<D>) -> Option<TriedLocal<D>>
        ensures { result ≡ tried_local_in reply }
    {
        match reply {
            Reply::Data(value) => Some(TriedLocal(Ok(Some(value)))),
            Reply::Absent => Some(TriedLocal(Ok(None))),
            Reply::AccessError => Some(TriedLocal(Err(AccessError))),
            other => {
                other.let_go();
                None
            }
        }
    }
}
