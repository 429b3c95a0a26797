//! The scripts of the rows about runs that explore from somewhere on, or up to somewhere.
ghost use Rattle.std.specs.Prelude.{◌≡◌, map};
ghost use Rattle.loom_examples.specs.Rows.Meanings.{named};
ghost use Rattle.loom_examples.specs.Rows.Table.{exploring_rows};

use crate::row;
use crate::rows::tables::few_threads::LOCK_BESIDE;
use crate::rows::{EXPLICIT, Row, WHOLE};
use crate::scripts::step::{END, EXIT, Step, Value};
use loom_objects::operation::{ExploreOp, MutexOp, Request, ThreadOp};

const FINISH: Step = Step::Do(0, Request::Thread(ThreadOp::Finish(Value::Plain(7))));

const CHILD_FINISH: Step = Step::Do(0, Request::Thread(ThreadOp::Finish(Value::Plain(3))));

/// Main stops exploring, and then locks a mutex beside a thread that does nothing but end.
pub const STOP_EXPLORING: &[Step] = &[
    Step::Do(0, Request::Explore(ExploreOp::StopExploring)),
    Step::Do(0, Request::Mutex(MutexOp::New(Value::Plain(0)))),
    Step::SpawnAt(1, "child"),
    Step::Do(0, Request::Mutex(MutexOp::Lock(0))),
    Step::Do(0, Request::Mutex(MutexOp::Release(0, Value::Plain(0)))),
    FINISH,
    EXIT,
    END,
    Step::Label("child"),
    CHILD_FINISH,
    EXIT,
    END,
];

/// Main stops exploring twice.
pub const STOP_EXPLORING_TWICE: &[Step] = &[
    Step::Do(0, Request::Explore(ExploreOp::StopExploring)),
    Step::Do(0, Request::Explore(ExploreOp::StopExploring)),
];

/// The first one, but main ends exploring for the run, which neither `explore` nor `stop_exploring` changes.
pub const SKIP_BRANCH: &[Step] = &[
    Step::Do(0, Request::Explore(ExploreOp::SkipBranch)),
    Step::Do(0, Request::Explore(ExploreOp::Explore)),
    Step::Do(0, Request::Explore(ExploreOp::StopExploring)),
    Step::Do(0, Request::Mutex(MutexOp::New(Value::Plain(0)))),
    Step::SpawnAt(1, "child"),
    Step::Do(0, Request::Mutex(MutexOp::Lock(0))),
    Step::Do(0, Request::Mutex(MutexOp::Release(0, Value::Plain(0)))),
    FINISH,
    EXIT,
    END,
    Step::Label("child"),
    CHILD_FINISH,
    EXIT,
    END,
];

/// The first one, but main begins to explore.
pub const EXPLORE_FIRST: &[Step] = &[
    Step::Do(0, Request::Explore(ExploreOp::Explore)),
    Step::Do(0, Request::Mutex(MutexOp::New(Value::Plain(0)))),
    Step::SpawnAt(1, "child"),
    Step::Do(0, Request::Mutex(MutexOp::Lock(0))),
    Step::Do(0, Request::Mutex(MutexOp::Release(0, Value::Plain(0)))),
    FINISH,
    EXIT,
    END,
    Step::Label("child"),
    CHILD_FINISH,
    EXIT,
    END,
];

static EXPLORING_ROWS: [Row; 5] = [
    row!("stop_exploring", STOP_EXPLORING, WHOLE),
    row!("stop_exploring_twice", STOP_EXPLORING_TWICE, WHOLE),
    row!("skip_branch", SKIP_BRANCH, WHOLE),
    row!("never_explore", LOCK_BESIDE, EXPLICIT),
    row!("explore_first", EXPLORE_FIRST, EXPLICIT),
];

/// The rows of these scripts.
pub fn rows() -> &'static [Row]
    ensures { map named result.now ≡ exploring_rows }
{
    &EXPLORING_ROWS
}
