//! Loom's `tests/futures.rs`, `mpsc.rs`, `mutex.rs` and `thread_api.rs`.
use crate::closures::carried::children::{Child, start};
use crate::closures::carried::{self, Test, are_found, comes_to_each, is_found};
use crate::closures::finding::Wanted::{Complete, Fails};
use crate::closures::finding::{Main, passes};
use crate::closures::{ONE, TWO, ZERO};
use loom::FailureKind;
use loom::future::Waker;
use loom::model::builder::Builder;
use loom::runner::{Handle, Host, Stop};
use loom::sync::Mutex;
use loom::sync::atomic::AtomicBool;
use loom::sync::atomic::Ordering::{Acquire, Release};
use loom::sync::mpsc::{Receiver, Sender};
use loom_objects::operation::Name;
use loom_objects::text::Text;
use std::sync::Wait;
use std::test::Fail;

/// What main does.
#[derive(Clone, Copy)]
pub(crate) enum Scene {
    /// Waits for a future, and answers how often it was polled.
    Poll,
    /// Receives what two threads send, in either order.
    EitherOrder,
    /// Receives it, and asserts that the first thread's comes first.
    OneOrder,
    /// Drops a receiver that has a message.
    DropReceiver,
    /// Takes a mutex apart that two threads have locked.
    TakeApart,
    /// Starts threads without a name, and one with a name, that tell it.
    Names,
}

impl Scene {
    pub(super) fn play<R: Host>(self, handle: &mut Handle<u64, R>) -> Result<u64, Stop> {
        match self {
            Scene::Poll => count_polls(handle),
            Scene::EitherOrder => receive_both(handle, false),
            Scene::OneOrder => receive_both(handle, true),
            Scene::DropReceiver => drop_receiver(handle),
            Scene::TakeApart => take_apart(handle),
            Scene::Names => ask_names(handle),
        }
    }
}

fn count_polls<R: Host>(handle: &mut Handle<u64, R>) -> Result<u64, Stop> {
    let gate = handle.atomic(false)?;
    let mut polls = 0u64;
    let count = handle.block_on(|handle, waker| {
        polls = polls.wrapping_add(1);
        let is_open = poll(handle, gate, &waker, polls == 1)?;
        Ok(if is_open { Some(polls) } else { None })
    })?;
    handle.assert(count > 0 && count <= 3)?;
    Ok(count)
}

/// One poll. The first one starts the thread that opens the gate.
fn poll<R: Host>(
    handle: &mut Handle<u64, R>,
    gate: AtomicBool,
    waker: &Waker,
    is_first: bool,
) -> Result<bool, Stop> {
    if is_first {
        let theirs = handle.clone_waker(waker)?;
        start(handle, Child::Open(gate, theirs))?;
    }
    handle.load(&gate, Acquire)
}

/// Opens the gate, and wakes who waits for it.
pub(super) fn open<R: Wait>(
    handle: &mut Handle<u64, R>,
    gate: &AtomicBool,
    waker: Waker,
) -> Result<u64, Stop> {
    handle.store(gate, true, Release)?;
    handle.wake(waker)?;
    Ok(0)
}

/// Two threads send 5 and 6, and main receives both.
fn receive_both<R: Host>(handle: &mut Handle<u64, R>, is_first: bool) -> Result<u64, Stop> {
    let (sender, receiver) = handle.channel()?;
    let second = handle.clone_sender(&sender)?;
    start(handle, Child::Send(sender, 5))?;
    start(handle, Child::Send(second, 6))?;
    let one = receive(handle, &receiver)?;
    handle.assert(!is_first || one == 5)?;
    let other = receive(handle, &receiver)?;
    handle.drop_receiver(receiver)?;
    handle.assert(one.wrapping_add(other) == 11)?;
    Ok(one)
}

/// Sends this, and drops the sender.
pub(super) fn send_once<R: Wait>(
    handle: &mut Handle<u64, R>,
    sender: Sender,
    message: u64,
) -> Result<u64, Stop> {
    let sent = handle.send(&sender, message)?;
    handle.drop_sender(sender)?;
    Ok(sent.err().unwrap_or(0))
}

/// Receives a message, or else 0.
fn receive<R: Wait>(handle: &mut Handle<u64, R>, receiver: &Receiver) -> Result<u64, Stop> {
    Ok(handle.recv(receiver)?.unwrap_or(0))
}

fn drop_receiver<R: Wait>(handle: &mut Handle<u64, R>) -> Result<u64, Stop> {
    let (sender, receiver) = handle.channel()?;
    let first = handle.send(&sender, 1)?;
    let second = handle.send(&sender, 2)?;
    let received = receive(handle, &receiver)?;
    handle.assert(first.is_ok() && second.is_ok() && received == 1)?;
    handle.drop_receiver(receiver)?;
    handle.drop_sender(sender)?;
    Ok(received)
}

fn take_apart<R: Host>(handle: &mut Handle<u64, R>) -> Result<u64, Stop> {
    let mutex = handle.mutex(0)?;
    let first = start(handle, Child::Increment(mutex))?;
    let second = start(handle, Child::Increment(mutex))?;
    handle.join(&first)?;
    handle.join(&second)?;
    let count = handle.into_inner_mutex(mutex)?;
    handle.assert(count == 2)?;
    Ok(count)
}

pub(super) fn increment<R: Wait>(handle: &mut Handle<u64, R>, mutex: &Mutex) -> Result<u64, Stop> {
    handle.with_lock(mutex, |value| *value = value.wrapping_add(1))?;
    Ok(0)
}

fn ask_names<R: Host>(handle: &mut Handle<u64, R>) -> Result<u64, Stop> {
    ask_name(handle, 0)?;
    ask_name(handle, 0)?;
    handle.thread("foobar");
    ask_name(handle, 1)
}

/// A thread that is started now sends main what it says of its name, and main says the same of it.
fn ask_name<R: Host>(handle: &mut Handle<u64, R>, wanted: u64) -> Result<u64, Stop> {
    let (sender, receiver) = handle.channel()?;
    let child = start(handle, Child::SendName(sender))?;
    let told = receive(handle, &receiver)?;
    handle.assert(told == wanted && told_by(child.name) == wanted)?;
    handle.join(&child)?;
    handle.drop_receiver(receiver)?;
    Ok(told)
}

/// Sends what the thread says of its name.
pub(super) fn send_name<R: Wait>(handle: &mut Handle<u64, R>, sender: Sender) -> Result<u64, Stop> {
    let name = handle.current()?.name;
    send_once(handle, sender, told_by(name))
}

/// What a thread says of its name: 0 for none, 1 for `foobar`, else 2.
fn told_by(name: Option<Name>) -> u64 {
    match name {
        None => 0,
        Some(name) if name.text == Text::first("foobar") => 1,
        Some(_) => 2,
    }
}

// A test of threads, with its name and what its check finds.
macro_rules! test {
    ($name:ident, $scene:expr, $wanted:expr) => {
        Test {
            name: stringify!($name),
            scene: carried::Scene::Threads($scene),
            wanted: $wanted,
        }
    };
}

pub(super) static SENDERS: Test = test!(commutative_senders, Scene::EitherOrder, Complete(3));

pub(super) static INTO_INNER: Test = test!(mutex_into_inner, Scene::TakeApart, Complete(9));

static EACH: [Test; 2] = [
    test!(
        non_commutative_senders1,
        Scene::OneOrder,
        Fails(FailureKind::Assertion, 1, &[ONE, TWO, TWO, TWO, ZERO])
    ),
    test!(drop_receiver, Scene::DropReceiver, Complete(1)),
];

pub(super) static SPURIOUS_POLL: Test = test!(spurious_poll, Scene::Poll, Complete(35));

#[test]
fn threads(rt: HostRuntime) -> Result<(), Fail> {
    is_found(&rt, &SENDERS)?;
    is_found(&rt, &INTO_INNER)?;
    are_found(&rt, &EACH)
}

/// In some run the future is polled three times.
#[test]
fn spurious_poll(rt: HostRuntime) -> Result<(), Fail> {
    comes_to_each(&rt, &Builder::new(), &SPURIOUS_POLL, &[3])
}

/// No row has this name, so the number of runs isn't known.
#[test]
fn thread_names(rt: HostRuntime) -> Result<(), Fail> {
    passes(&rt, Main::Carried(carried::Scene::Threads(Scene::Names)), 0)
}
