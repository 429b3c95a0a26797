//! Parts that remembered states share: equal ones are kept once.

ghost use Rattle.std.specs.Prelude.{◌≡◌, IfOk, IfSome};

use loom_objects::body::Body;
use loom_objects::data::Data;
use loom_objects::operation::AtomicOp;
use loom_objects::rt::kept::{Kept, are_equal, copied_all};
use loom_objects::rt::object::Object;
use loom_objects::rt::thread::{Phase, State, Task, Thread};
use loom_views::rt::views::ranked::RankedViews;
use loom_views::rt::views::ranked::noted::{NotedViews, ViewShelf};
use loom_views::rt::vv::mixed;
use loom_views::same::Same;
use loom_views::sequence::Sequence;
use loom_views::shelf::{MOST_COMPARED, Shared, Shelf};
use std::alloc::{AllocError, Global};

/// Threads, objects, bodies and parts of views, each once. How far its threads are tells where a part is found again.
#[derive(Drop)]
pub(crate) struct Shelves<D, B> {
    threads: Shelf<Sequence<Thread<D>>>,
    objects: Shelf<Sequence<Object<D>>>,
    bodies: Shelf<B>,
    views: ViewShelf,
}

impl<D: Data + Same, B: Body + Same> Shelves<D, B> {
    /// Nothing yet. An error where memory is refused.
    pub(crate) fn new(alloc: Global) -> Result<Shelves<D, B>, AllocError> {
        Ok(Shelves {
            threads: Shelf::new(alloc)?,
            objects: Shelf::new(alloc)?,
            bodies: Shelf::new(alloc)?,
            views: ViewShelf::new(alloc)?,
        })
    }

    /// Nothing, and nothing is found again.
    pub(crate) fn none(alloc: Global) -> Shelves<D, B> {
        Shelves {
            threads: Shelf::none(alloc),
            objects: Shelf::none(alloc),
            bodies: Shelf::none(alloc),
            views: ViewShelf::none(alloc),
        }
    }

    /// The threads, shared. An error where memory is refused.
    pub(crate) fn threads(
        &mut self,
        alloc: Global,
        threads: &[Thread<D>],
    ) -> Result<Shared<Sequence<Thread<D>>>, AllocError>
        ensures { IfOk result (λ shared. shared ≡ threads.now) }
    {
        shared_list(
            alloc,
            &mut self.threads,
            threads,
            digest_of_threads(threads),
        )
    }

    /// The objects beside these threads, shared. An error where memory is refused.
    pub(crate) fn objects(
        &mut self,
        alloc: Global,
        objects: &[Object<D>],
        threads: &[Thread<D>],
    ) -> Result<Shared<Sequence<Object<D>>>, AllocError>
        ensures { IfOk result (λ shared. shared ≡ objects.now) }
    {
        shared_list(
            alloc,
            &mut self.objects,
            objects,
            digest_of_threads(threads),
        )
    }

    /// The views, whose parts are shared. An error where memory is refused.
    pub(crate) fn views(
        &mut self,
        alloc: Global,
        views: &RankedViews,
    ) -> Result<NotedViews, AllocError>
        ensures { IfOk result (λ noted. noted ≡ views.now) }
    {
        views.noted(alloc, &mut self.views)
    }

    /// The bodies of these threads, each shared: with those before them first. An error where memory is refused.
    pub(crate) fn bodies(
        &mut self,
        alloc: Global,
        bodies: &[B],
        threads: &[Thread<D>],
        before: &[Shared<B>],
    ) -> Result<Sequence<Shared<B>>, AllocError>
        ensures { IfOk result (λ shared. shared ≡ bodies.now) }
    {
        let mut shared = Vec::with_capacity(alloc, bodies.len())?;
        let mut rest = threads.iter();
        let mut left = before.iter();
        for body in bodies {
            let (thread, last) = (rest.next(), left.next());
            shared.push(shared_body(alloc, &mut self.bodies, body, thread, last)?)?;
        }
        Ok(Sequence::from_vec(shared))
    }
}

/// The body of a thread, shared: with the last one, or with whom was given the same one before. An error where memory is refused.
fn shared_body<D, B: Body + Same>(
    alloc: Global,
    shelf: &mut Shelf<B>,
    body: &B,
    thread: Option<&Thread<D>>,
    last: Option<&Shared<B>>,
) -> Result<Shared<B>, AllocError>
    ensures { IfOk result (λ shared. shared ≡ body.now) }
{
    if let Some(shared) = last {
        if shared.get().is_same(body) {
            return shared.try_clone();
        }
    }
    let digest = match thread {
        Some(thread) => digest_of_thread(thread),
        None => 0,
    };
    match shelf.find(body, digest) {
        Some(shared) => shared.try_clone(),
        None => shelf.put(alloc, body.try_clone()?, digest),
    }
}

/// A list of these values, shared with whom was given one of such values and this digest before. An error where memory is refused.
fn shared_list<T: Kept>(
    alloc: Global,
    shelf: &mut Shelf<Sequence<T>>,
    values: &[T],
    digest: u64,
) -> Result<Shared<Sequence<T>>, AllocError>
    ensures { IfOk result (λ shared. shared ≡ values.now) }
{
    match find_list(shelf, values, digest) {
        Some(list) => list.try_clone(),
        None => shelf.put(alloc, copied_all(alloc, values)?, digest),
    }
}

/// A list of these values and this digest, if one is found.
fn find_list<'a, T: Kept>(
    shelf: &'a Shelf<Sequence<T>>,
    values: &[T],
    digest: u64,
) -> Option<&'a Shared<Sequence<T>>>
    ensures { IfSome result (λ list. list.now ≡ values.now) }
{
    let mut next = shelf.last(digest);
    for _ in 0..MOST_COMPARED {
        let number = next?;
        let list = shelf.get(number)?;
        if are_equal(list.get().as_slice(), values) {
            return Some(list);
        }
        next = shelf.before(number, digest);
    }
    None
}

/// A number that depends on how far the threads are alone.
fn digest_of_threads<D>(threads: &[Thread<D>]) -> u64 {
    let mut digest = 0u64;
    for thread in threads {
        digest = mixed(digest, digest_of_thread(thread));
    }
    digest
}

/// A number that depends on how far the thread is alone.
fn digest_of_thread<D>(thread: &Thread<D>) -> u64 {
    let state = match thread.state {
        State::Runnable => 0,
        State::Blocked => 1,
        State::Parked => 2,
        State::Sleeping => 3,
        State::Yielding => 4,
        State::Ended => 5,
    };
    let phase = match thread.phase {
        Phase::Working => 0,
        Phase::Finished => 1,
        Phase::Exited => 2,
        Phase::Over => 3,
    };
    mixed(mixed(state, phase), digest_of_task(&thread.task))
}

/// A number for a task, which some of them share.
fn digest_of_task<D>(task: &Task<D>) -> u64 {
    match task {
        Task::Access(AtomicOp::Load(number, _)) => mixed(1, *number as u64),
        Task::Access(AtomicOp::Store(number, value, _)) => mixed(mixed(2, *number as u64), *value),
        Task::Access(_) => 3,
        Task::Lock(_, number) | Task::TryLock(number) => mixed(4, *number as u64),
        Task::Start => 5,
        Task::Body => 6,
        Task::Continue => 7,
        _ => 0,
    }
}
