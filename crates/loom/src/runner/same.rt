//! Whether two operations, or two replies, are the same.
mod lists;

ghost use Rattle.std.specs.Prelude.{◌≡◌, ◌↔◌, IsTrue, false};
ghost use Rattle.loom.specs.Runner.Kinds.{holds_result};

use crate::runner::exact::{Exact, is_same_value};
use lists::{are_same_lazies, are_same_locals, are_same_messages};
use loom_objects::operation::{AtomicOp, Reply, Request, ThreadOp};
use loom_views::is_kind;

/// Whether the two ask for the same (own).
pub fn is_same_request<D: Exact>(one: &Request<D, ()>, other: &Request<D, ()>) -> bool
    ensures { IsTrue result ↔ (one.now ≡ other.now) }
{
    match other {
        Request::Atomic(x) => is_kind!(one, Request::Atomic(a) => is_same_atomic(a, x)),
        Request::Fence(x) => is_kind!(one, Request::Fence(a) => a == x),
        Request::Cell(x) => is_kind!(one, Request::Cell(a) => a == x),
        Request::Arc(x) => is_kind!(one, Request::Arc(a) => a == x),
        Request::Track(x) => is_kind!(one, Request::Track(a) => a == x),
        Request::Mutex(x) => is_kind!(one, Request::Mutex(a) => a == x),
        Request::RwLock(x) => is_kind!(one, Request::RwLock(a) => a == x),
        Request::Condvar(x) => is_kind!(one, Request::Condvar(a) => a == x),
        Request::Notify(x) => is_kind!(one, Request::Notify(a) => a == x),
        Request::Channel(x) => is_kind!(one, Request::Channel(a) => a == x),
        Request::Waker(x) => is_kind!(one, Request::Waker(a) => a == x),
        Request::AtomicWaker(x) => is_kind!(one, Request::AtomicWaker(a) => a == x),
        Request::Local(x) => is_kind!(one, Request::Local(a) => a == x),
        Request::Lazy(x) => is_kind!(one, Request::Lazy(a) => a == x),
        Request::Explore(x) => is_kind!(one, Request::Explore(a) => a == x),
        Request::Thread(x) => is_kind!(one, Request::Thread(a) => is_same_thread(a, x)),
        Request::Fail => matches!(one, Request::Fail),
        Request::Unreachable => matches!(one, Request::Unreachable),
    }
}

/// Whether the two are the same operation of an atomic.
fn is_same_atomic(one: &AtomicOp, other: &AtomicOp) -> bool
    ensures { IsTrue result ↔ (one.now ≡ other.now) }
{
    one == other
}

/// Whether the two are the same operation of a thread.
fn is_same_thread<D: Exact>(one: &ThreadOp<D, ()>, other: &ThreadOp<D, ()>) -> bool
    ensures { IsTrue result ↔ (one.now ≡ other.now) }
{
    match other {
        ThreadOp::Spawn(_, x) => is_kind!(one, ThreadOp::Spawn(_, a) => *a == *x),
        ThreadOp::Join(x, y) => is_kind!(one, ThreadOp::Join(a, b) => *a == *x && *b == *y),
        ThreadOp::Current => matches!(one, ThreadOp::Current),
        ThreadOp::Park => matches!(one, ThreadOp::Park),
        ThreadOp::Unpark(x) => is_kind!(one, ThreadOp::Unpark(a) => *a == *x),
        ThreadOp::Yield => matches!(one, ThreadOp::Yield),
        ThreadOp::Finish(x) => is_kind!(one, ThreadOp::Finish(a) => is_same_value(a, x)),
        ThreadOp::Exit => matches!(one, ThreadOp::Exit),
        ThreadOp::End => matches!(one, ThreadOp::End),
    }
}

/// Whether the two are the same reply (own).
pub fn is_same_reply<D: Exact>(one: &Reply<D>, other: &Reply<D>) -> bool
    ensures { IsTrue result ↔ (one.now ≡ other.now) }
{
    match other {
        Reply::Value(x) => is_kind!(one, Reply::Value(a) => *a == *x),
        Reply::Exchanged(x) => is_kind!(one, Reply::Exchanged(a) => *a == *x),
        Reply::Data(x) => is_kind!(one, Reply::Data(a) => is_same_value(a, x)),
        Reply::Reading(x, y) =>
            is_kind!(one, Reply::Reading(a, b) => *a == *x && is_same_value(b, y)),
        Reply::Writing(x, y) =>
            is_kind!(one, Reply::Writing(a, b) => *a == *x && is_same_value(b, y)),
        Reply::Locked(x, y) =>
            is_kind!(one, Reply::Locked(a, b) => *a == *x && is_same_value(b, y)),
        Reply::Waited(x, y, z) =>
            is_kind!(one, Reply::Waited(a, b, c) => *a == *x && is_same_value(b, y) && *c == *z),
        Reply::ReadLocked(x, y) =>
            is_kind!(one, Reply::ReadLocked(a, b) => *a == *x && is_same_value(b, y)),
        Reply::WriteLocked(x, y) =>
            is_kind!(one, Reply::WriteLocked(a, b) => *a == *x && is_same_value(b, y)),
        Reply::SendError(x) => is_kind!(one, Reply::SendError(a) => is_same_value(a, x)),
        Reply::Messages(x) => is_kind!(one, Reply::Messages(a) => are_same_messages(a, x)),
        Reply::Stood(x, y) =>
            is_kind!(one, Reply::Stood(a, b) => is_same_value(a, x) && is_same_value(b, y)),
        Reply::Locals(x) =>
            is_kind!(one, Reply::Locals(a) => are_same_locals(a.as_slice(), x.as_slice())),
        Reply::Lazies(x) =>
            is_kind!(one, Reply::Lazies(a) => are_same_lazies(a.as_slice(), x.as_slice())),
        Reply::Thread(x, y) => is_kind!(one, Reply::Thread(a, b) => *a == *x && *b == *y),
        Reply::Spawned(x, y, z) =>
            is_kind!(one, Reply::Spawned(a, b, c) => *a == *x && *b == *y && *c == *z),
        _ => is_same_signal(one, other),
    }
}

/// Whether the two are the same reply, where the second one is the number of an object, or holds nothing.
fn is_same_signal<D: Exact>(one: &Reply<D>, other: &Reply<D>) -> bool
    requires { holds_result other.now ≡ false }
    ensures { IsTrue result ↔ (one.now ≡ other.now) }
{
    match other {
        Reply::Start => matches!(one, Reply::Start),
        Reply::Done => matches!(one, Reply::Done),
        Reply::Shared => matches!(one, Reply::Shared),
        Reply::WouldBlock => matches!(one, Reply::WouldBlock),
        Reply::Empty => matches!(one, Reply::Empty),
        Reply::RecvError => matches!(one, Reply::RecvError),
        Reply::Disconnected => matches!(one, Reply::Disconnected),
        Reply::NoWaker => matches!(one, Reply::NoWaker),
        Reply::Absent => matches!(one, Reply::Absent),
        Reply::AccessError => matches!(one, Reply::AccessError),
        Reply::Atomic(x) => is_kind!(one, Reply::Atomic(a) => *a == *x),
        Reply::Cell(x) => is_kind!(one, Reply::Cell(a) => *a == *x),
        Reply::Arc(x) => is_kind!(one, Reply::Arc(a) => *a == *x),
        Reply::Track(x) => is_kind!(one, Reply::Track(a) => *a == *x),
        Reply::Mutex(x) => is_kind!(one, Reply::Mutex(a) => *a == *x),
        Reply::RwLock(x) => is_kind!(one, Reply::RwLock(a) => *a == *x),
        Reply::Condvar(x) => is_kind!(one, Reply::Condvar(a) => *a == *x),
        Reply::Notify(x) => is_kind!(one, Reply::Notify(a) => *a == *x),
        Reply::Channel(x) => is_kind!(one, Reply::Channel(a) => *a == *x),
        Reply::BlockOn(x) => is_kind!(one, Reply::BlockOn(a) => *a == *x),
        Reply::Waker(x) => is_kind!(one, Reply::Waker(a) => *a == *x),
        Reply::AtomicWaker(x) => is_kind!(one, Reply::AtomicWaker(a) => *a == *x),
        Reply::Value(_) | Reply::Exchanged(_) | Reply::Data(_) => unreachable!(),
        Reply::Reading(..) | Reply::Writing(..) | Reply::Locked(..) => unreachable!(),
        Reply::Waited(..) | Reply::ReadLocked(..) | Reply::WriteLocked(..) => unreachable!(),
        Reply::SendError(_) | Reply::Messages(_) | Reply::Stood(..) => unreachable!(),
        Reply::Locals(_) | Reply::Lazies(_) => unreachable!(),
        Reply::Thread(..) | Reply::Spawned(..) => unreachable!(),
    }
}
