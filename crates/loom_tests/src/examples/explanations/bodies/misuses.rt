//! Bodies that use an operation wrongly.
use loom::sync::atomic::Ordering::Relaxed;
use loom_examples::scripts::step::{Step, Value};
use loom_objects::label::Label;
use loom_objects::location::Location;
use loom_objects::operation::{ExploreOp, MutexOp, NotifyOp, Request, ThreadOp};
use loom_objects::text_literal;

const STATE: Label = Label {
    name: Some(text_literal!(b"state")),
    location: None,
};

const ELSE_ARM: Label = Label {
    name: Some(text_literal!(b"the state is 0 or 1")),
    location: Some(Location {
        file: text_literal!(b"states.rs"),
        line: 12,
    }),
};

const NEW_MUTEX: Step = Step::Labelled(0, Request::Mutex(MutexOp::New(Value::Plain(0))), STATE);

/// Main releases a mutex that the child holds.
pub const RELEASED_BY_MAIN: &[Step] = &[
    NEW_MUTEX,
    Step::SpawnAt(1, "child"),
    Step::Do(0, Request::Thread(ThreadOp::Yield)),
    Step::Do(0, Request::Mutex(MutexOp::Release(0, Value::Plain(0)))),
    Step::Label("child"),
    Step::Do(0, Request::Mutex(MutexOp::Lock(0))),
    Step::Do(0, Request::Thread(ThreadOp::Yield)),
];

/// Main uses a mutex that it took apart.
pub const APART: &[Step] = &[
    NEW_MUTEX,
    Step::Do(0, Request::Mutex(MutexOp::IntoInner(0))),
    Step::Do(0, Request::Mutex(MutexOp::Lock(0))),
];

/// Main ends before it finishes.
pub const ENDS_FIRST: &[Step] = &[Step::Do(0, Request::Thread(ThreadOp::End))];

/// Main comes to code that is never to be reached.
pub const UNREACHABLE: &[Step] = &[
    NEW_MUTEX,
    Step::Do(0, Request::Mutex(MutexOp::Lock(0))),
    Step::Labelled(0, Request::Unreachable, ELSE_ARM),
];

/// Main makes a relaxed fence.
pub const FENCE: &[Step] = &[Step::Do(0, Request::Fence(Relaxed))];

/// Main stops exploring twice.
pub const STOPPED_TWICE: &[Step] = &[
    Step::Do(0, Request::Explore(ExploreOp::StopExploring)),
    Step::Do(0, Request::Explore(ExploreOp::StopExploring)),
];

/// Main and the child wait on one notifier.
pub const TWO_WAIT: &[Step] = &[
    Step::Labelled(0, Request::Notify(NotifyOp::New), STATE),
    Step::SpawnAt(1, "child"),
    Step::Label("child"),
    Step::Do(0, Request::Notify(NotifyOp::Wait(0))),
];
