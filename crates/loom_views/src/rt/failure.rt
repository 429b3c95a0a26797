//! Why a run failed: the kinds of failure, with the text and the number of each (loom panics instead).

ghost use Rattle.std.specs.Prelude.{◌≡◌};
ghost use Rattle.loom_views.specs.Failures.{number_of};

use thiserror::Error;

/// Why a run failed: what happened, and what to do about it. Its discriminant is its number in reports.
#[derive(Clone, Copy, Debug, PartialEq, Eq, Error)]
pub enum FailureKind {
    #[error("an assertion of the body failed: replay its choices to see how the run came there")]
    Assertion = 1,
    #[error("no thread can run, and some have not ended: see what each of these waits for, and who was to let it go on")]
    Deadlock = 2,
    #[error("an access is not ordered after one that it conflicts with: let a lock, or a release and an acquire, come between the two")]
    Race = 3,
    #[error("an access conflicts with one that is open: end that one first, or keep others away by a lock")]
    OpenAccess = 4,
    #[error("a counted reference or a waker was not dropped: drop each one before the run ends")]
    LeakArc = 5,
    #[error("a tracked value was not given back: drop it, or take it out, before the run ends")]
    LeakTrack = 6,
    #[error("a channel was left with messages: receive them, or drop the receiver")]
    LeakMessages = 7,
    #[error("more threads than `max_threads`, with main and those that have ended: raise it, to 5 at most, or spawn fewer")]
    TooManyThreads = 8,
    #[error("more branch points than `max_branches`: raise max_branches, or call yield_now in a loop that waits")]
    TooManyBranches = 9,
    #[error("a thread has made 65534 accesses and makes one more: let its loops go round less often")]
    TooManyVersions = 10,
    #[error("an atomic was stored to more than 65535 times, its first value counted: store to it less often in a run")]
    TooManyStores = 11,
    #[error("more operations than `max_steps`: raise max_steps, or find the loop that goes on for ever")]
    TooManySteps = 12,
    #[error("two stores of an atomic have equal places in its modification order: let a lock, or a release and an acquire, order them")]
    OrdersEqual = 13,
    #[error("an operation was misused: its object isn't there or was taken out, or its thread may not do this to it now")]
    Misuse = 14,
    #[error("code was reached that is never to be: the body came to `unreachable_unchecked`")]
    Unreachable = 15,
    #[error("a fence with relaxed ordering: take Acquire, Release, AcqRel or SeqCst")]
    RelaxedFence = 16,
    #[error("a lazy value was used after main had finished: let main join the threads that use it")]
    LazyShutdown = 17,
    #[error("a local was used after its thread had given it back: use it before the thread exits, or ask by try_with")]
    LocalGone = 18,
    #[error("exploring was switched to what it already is: call `explore` and `stop_exploring` by turns")]
    ExploreSwitch = 19,
    #[error("the run does not fit the choices that it was given: take those of this body and of these settings")]
    NotDeterministic = 20,
    #[error("a second thread waits on one notifier: give each thread that waits a notifier of its own")]
    SecondWaiter = 21,
    #[error("a local was made twice for one key: ask by `with` first, and make it where the reply is `Absent`")]
    KeyTaken = 22,
}

impl FailureKind {
    /// The number by which reports name the kind, from 1 to 22.
    pub fn number(self) -> u8
        ensures { result ≡ number_of self }
    {
        self as u8
    }
}
