//! Calls of closures, and what follows a loop of them that has no end. What a closure is given is a type parameter here, since
//! the borrow checker doesn't cover a call of a closure that is given a type with references in it.
ghost use Rattle.std.specs.Fn.{CalledAtMut, CalledWithState};

use std::sync::Wait;

/// Calls main's closure (own).
pub fn ask_closure<H, T, F: FnMut(&mut H) -> T>(closure: &mut F, handle: &mut H) -> T
    requires { F.IsAlwaysCallable closure.old }
    ensures called { CalledAtMut F.FnMut closure.old handle.old result closure.new handle.new }
    ensures again { F.IsAlwaysCallable closure.new }
{
    closure(handle)
}

/// Calls a future's closure, and hands it this (own).
pub fn poll_closure<H, A, T, F: FnMut(&mut H, A) -> T>(
    closure: &mut F,
    handle: &mut H,
    given: A,
) -> T
    requires { F.IsAlwaysCallable closure.old }
    ensures called { CalledWithState F.FnMut closure.old handle.old given result closure.new handle.new }
    ensures again { F.IsAlwaysCallable closure.new }
{
    closure(handle, given)
}

/// Waits, and never comes back. It follows more rounds than a run can make.
pub(crate) fn wait_for_ever<R: Wait>(rt: &R) -> ! {
    for _ in rt.forever() {}
    unreachable!()
}

/// Calls a spawned thread's closure.
pub(crate) fn ask_once<H, T, F: FnOnce(&mut H) -> T>(closure: F, handle: &mut H) -> T
    requires { F.IsAlwaysCallable closure }
{
    closure(handle)
}
