//! The laws of locks over every history. The definitions are in `specs/Runs/Histories.antt`.
ghost use Rattle.loom_engine.specs.Runs.Histories.{LocksLaw, OneHolderLaw};

/// In each state in which a history of operations may leave the machine: a mutex that a thread holds keeps no data that
/// another could have, and a read-write lock has one writer or some readers, never both, and with a writer no data.
pub fn locks_are_exclusive<D>()
    ensures { LocksLaw D }
{}

/// At most one thread has the data of a mutex, or that of a read-write lock to write, said of replies: where two events of a
/// history give the data of one lock out (to a thread that locks it, or takes it to write, to one whose wait ends, or by `GetMut`
/// or `IntoInner`), an operation that gives it back (a `Release`, a `WriteRelease`, a `Put`, or a wait that begins) is handed over
/// after the first of them, at the latest as the second event itself.
pub fn one_thread_has_the_data<D>()
    ensures { OneHolderLaw D }
{}
