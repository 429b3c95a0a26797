//! Where a run failed: the place of the last operation of the thread that was active.
ghost use Rattle.std.specs.Prelude.{◌≡◌, None};
ghost use Rattle.loom.specs.Explain.Places.{active_after, active_by, active_place, place_after, placed};

use loom_explain::event::{End, Event};
use loom_objects::choice::Choice;
use loom_objects::label::location_in;
use loom_objects::location::Location;

/// The end of a run of these events and choices: a failure has the place of the last operation of the thread that was active.
pub fn placed(end: End, events: &[Event], choices: &[Choice]) -> End
    ensures { result ≡ placed events.now choices.now end }
{
    match end {
        End::Ended => End::Ended,
        End::Failed(failure) => End::Failed(failure.at(active_place(events, choices))),
    }
}

/// Where the last operation of the active thread was made, if it named a place.
fn active_place(events: &[Event], choices: &[Choice]) -> Option<Location>
    ensures { result ≡ active_place events.now choices.now }
{
    last_place(events, active_after(choices))
}

/// The thread that is active after these choices of a run: the one that was chosen last to go on, or main.
fn active_after(choices: &[Choice]) -> u8
    ensures { result ≡ active_after 0 choices.now }
{
    let mut thread = 0u8;
    let mut rest = choices;
    while let Some((first, tail)) = rest.split_first() {
        thread = active_by(thread, *first);
        rest = tail;
    }
    thread
}

/// The thread that is active once this was chosen, where this one was before.
fn active_by(thread: u8, choice: Choice) -> u8
    ensures { result ≡ active_by thread choice }
{
    match choice {
        Choice::Thread(Some(next)) => next,
        Choice::Thread(None) | Choice::Load(_) | Choice::Spurious(_) => thread,
    }
}

/// Where the thread's last operation of these was made, if it named a place.
fn last_place(events: &[Event], thread: u8) -> Option<Location>
    ensures { result ≡ place_after None thread events.now }
{
    let mut place = None;
    let mut rest = events;
    while let Some((first, tail)) = rest.split_first() {
        if first.thread == thread {
            place = location_in(first.op.label);
        }
        rest = tail;
    }
    place
}
