//! Checks of closures on threads of the host: what they find, what each call answers, and loom's own tests.
mod ample;
mod carried;
mod changes;
mod children;
mod ends;
mod finding;
mod forms;
mod forms_in_children;
mod forms_of_values;
mod kept;
mod others;
mod recorded;
mod recording;
mod turns;

use loom::Choice;
use std::process::Abort;

const NONE: Choice = Choice::Thread(None);

const ZERO: Choice = Choice::Thread(Some(0));

const ONE: Choice = Choice::Thread(Some(1));

const TWO: Choice = Choice::Thread(Some(2));

const SLOT_0: Choice = Choice::Load(0);

const SLOT_1: Choice = Choice::Load(1);

/// Ends the test where this doesn't hold.
pub(crate) fn holds(rt: &impl Abort, fact: bool) {
    assert!(rt; fact);
}
