//! How a thread's told list grows: by an operation, with its reply if there is one.
ghost use Rattle.std.specs.Prelude.{◌≡◌, ◌++◌, ◌∷◌, ◌<◌, [], IfOk, IfErr, IfSome, OnSome, None, Some, true, vec_len, vec_capacity};
ghost use Rattle.loom_objects.specs.declared.operation.Reply.TheVariants as reply;
ghost use Rattle.loom.specs.Runner.Histories.{entry};
ghost use Rattle.loom.specs.Runner.Handle.{spawning};

use crate::runner::exact::Exact;
use crate::runner::handle::calls::keep;
use crate::runner::history::event::Entry;
use crate::runner::shared::{Child, Children};
use crate::runner::stop::Stop;
use loom_objects::operation::{Name, Reply, Request, ThreadOp, copy_request};
use loom_ops::thread::JoinHandle;
use std::alloc::Global;

// A list that grows begins with room for so many.
const FIRST_ROOM: usize = 16;

/// Makes room for one more. False where a growth was refused.
pub(crate) fn has_room<T>(list: &mut Vec<T>) -> bool
    ensures room { result ≡ true → vec_len list.new < vec_capacity list.new }
    ensures same { list.new.items ≡ list.old.items }
{
    let more = if list.is_empty() { FIRST_ROOM } else { 1 };
    list.reserve(more).is_ok()
}

/// Makes room for one more, and copies the operation for it. None where a growth was refused.
pub(crate) fn prepare<D: Exact>(
    told: &mut Vec<Entry<D>>,
    op: &Request<D, ()>,
) -> Option<Request<D, ()>>
    ensures kept { IfSome result (λ kept. kept ≡ op.now) }
    ensures room { OnSome result (vec_len told.new < vec_capacity told.new) }
    ensures same { told.new.items ≡ told.old.items }
{
    if !has_room(told) {
        return None;
    }
    match copy_request(op) {
        Ok(kept) => Some(kept),
        Err(_) => None,
    }
}

/// Adds the operation with its reply, or with none where it was answered by a stop. A reply that can't be copied is such a stop.
pub(crate) fn note<D: Exact>(
    alloc: Global,
    told: &mut Vec<Entry<D>>,
    op: Request<D, ()>,
    answer: Result<Reply<D>, Stop>,
) -> Result<Reply<D>, Stop>
    requires { vec_len told.old < vec_capacity told.old }
    ensures answered { IfOk result (λ reply. told.new.items ≡ told.old.items ++ entry op (Some reply) ∷ []) }
    ensures stopped { IfErr result (λ stop. told.new.items ≡ told.old.items ++ entry op None ∷ []) }
{
    let (reply, answer) = keep(alloc, answer);
    told.push_reserved(Entry { op, reply });
    answer
}

/// Adds a spawn of a thread of this name, and the thread that it has started.
pub(crate) fn note_spawn<D: Drop>(
    told: &mut Vec<Entry<D>>,
    children: &mut Children,
    name: Option<Name>,
    started: Result<(JoinHandle, Child), Stop>,
) -> Result<JoinHandle, Stop>
    requires room { vec_len told.old < vec_capacity told.old }
    requires beside { vec_len children.old < vec_capacity children.old }
    ensures answered { IfOk result (λ child. told.new.items ≡ told.old.items ++ entry (spawning name) (Some (reply.Spawned child.thread child.name child.notifier)) ∷ []) }
    ensures stopped { IfErr result (λ stop. told.new.items ≡ told.old.items ++ entry (spawning name) None ∷ []) }
{
    match started {
        Ok((handle, child)) => {
            children.push_reserved(child);
            note_started(told, name, Ok(handle))
        }
        Err(stop) => note_started(told, name, Err(stop)),
    }
}

/// Adds a spawn of a thread of this name.
pub(crate) fn note_started<D: Drop>(
    told: &mut Vec<Entry<D>>,
    name: Option<Name>,
    started: Result<JoinHandle, Stop>,
) -> Result<JoinHandle, Stop>
    requires { vec_len told.old < vec_capacity told.old }
    ensures answered { IfOk result (λ child. told.new.items ≡ told.old.items ++ entry (spawning name) (Some (reply.Spawned child.thread child.name child.notifier)) ∷ []) }
    ensures stopped { IfErr result (λ stop. told.new.items ≡ told.old.items ++ entry (spawning name) None ∷ []) }
{
    match started {
        Ok(handle) => {
            told.push_reserved(Entry {
                op: Request::Thread(ThreadOp::Spawn((), name)),
                reply: Some(Reply::Spawned(handle.thread, handle.name, handle.notifier)),
            });
            Ok(handle)
        }
        Err(stop) => {
            told.push_reserved(Entry {
                op: Request::Thread(ThreadOp::Spawn((), name)),
                reply: None,
            });
            Err(stop)
        }
    }
}
