//! Why a run failed.
mod bodies;
pub(crate) mod deadlock;
mod leaks;
mod limits;
mod misuse;
mod race;
mod values;

use crate::event::{End, Event};
use crate::explanation::Explanation;
use crate::text::objects::{Access, At};
use crate::text::page::Page;
use crate::text::world::World;
use loom_objects::choice::Choice;
use loom_objects::label::{Label, location_in};
use loom_objects::operation::{LocalOp, Request, ThreadOp};
use loom_views::rt::failure::FailureKind;

/// A run with what is known after its last event.
#[derive(Clone, Copy)]
pub(crate) struct Scene<'a> {
    pub(crate) explanation: &'a Explanation,
    pub(crate) world: &'a World,
    /// Why it failed, if it did.
    pub(crate) kind: Option<FailureKind>,
    /// The event of the operation by which it failed.
    pub(crate) at: At,
    /// What that operation asked for.
    pub(crate) request: Option<&'a Request<(), ()>>,
    /// How it is called, if it is.
    pub(crate) label: Option<Label>,
    /// The access that a race is with.
    pub(crate) other: Option<Access>,
}

/// An earlier event that is sought.
#[derive(Clone, Copy)]
pub(crate) enum Sought {
    /// Any event of this thread.
    Any(usize),
    /// Exploring was switched.
    Explore,
    /// Main finished.
    Finish,
    /// This thread gave its own values back.
    Exit(usize),
    /// This thread made its value of this key.
    Init(usize, usize),
}

impl<'a> Scene<'a> {
    pub(crate) fn new(explanation: &'a Explanation, world: &'a World) -> Scene<'a> {
        let kind = match explanation.end {
            End::Ended => None,
            End::Failed(failure) => Some(failure.kind),
        };
        let at = failing_at(explanation, world, kind);
        let (request, label) = match explanation.event(at.event) {
            Some(event) => (Some(&event.op.request), event.op.label),
            None => (None, None),
        };
        let mut scene = Scene {
            explanation,
            world,
            kind,
            at,
            request,
            label,
            other: None,
        };
        scene.other = race::other_access(&scene);
        scene
    }

    /// Whether the run failed by the operation of this event.
    pub(crate) fn is_failing(&self, event: Option<usize>) -> bool {
        match self.kind {
            None => false,
            Some(kind) => !is_at_end(kind) && event == Some(self.at.event),
        }
    }

    /// Whether the event is marked: it failed, a race is with it, or a thread waits at it in a deadlock.
    pub(crate) fn is_marked(&self, event: Option<usize>) -> bool {
        let Some(number) = event else {
            return false;
        };
        if matches!(self.kind, Some(FailureKind::Deadlock)) {
            return self.is_waiting_at(number);
        }
        match self.other {
            Some(other) if other.at.event == number => true,
            _ => self.is_failing(event),
        }
    }

    fn is_waiting_at(&self, number: usize) -> bool {
        if let Some(event) = self.explanation.event(number) {
            if let Some(member) = self.world.threads.get(usize::from(event.thread)) {
                return member.pending == number && !is_end(&event.op.request);
            }
        }
        false
    }

    /// The number of the last event that is sought, before the one by which the run failed.
    pub(crate) fn earlier(&self, sought: Sought) -> Option<usize> {
        let mut last = None;
        for (place, event) in self.explanation.events.iter().enumerate() {
            let number = place.saturating_add(1);
            if number < self.at.event && sought.is_met_by(event) {
                last = Some(number);
            }
        }
        last
    }

    /// What follows the operation by which the run failed.
    pub(crate) fn put_end(&self, row: &mut Page) {
        if let Some(kind) = self.kind {
            row.words(": ");
            row.words(title_of(kind));
        }
        if let Some(other) = self.other {
            row.number(" with event ", other.at.event);
        }
    }
}

impl Sought {
    fn is_met_by(self, event: &Event) -> bool {
        let thread = usize::from(event.thread);
        match self {
            Sought::Any(other) => thread == other,
            Sought::Explore => matches!(event.op.request, Request::Explore(..)),
            Sought::Finish => {
                thread == 0 && matches!(event.op.request, Request::Thread(ThreadOp::Finish(_)))
            }
            Sought::Exit(other) => {
                thread == other && matches!(event.op.request, Request::Thread(ThreadOp::Exit))
            }
            Sought::Init(other, key) => thread == other && makes_local(&event.op.request, key),
        }
    }
}

/// Whether the operation makes the thread's own value of the key.
fn makes_local(request: &Request<(), ()>, key: usize) -> bool {
    if let Request::Local(LocalOp::Init(other, _)) = request {
        *other == key
    } else {
        false
    }
}

/// Whether the operation is a thread's last one.
pub(crate) fn is_end(request: &Request<(), ()>) -> bool {
    matches!(request, Request::Thread(ThreadOp::End))
}

/// The event of the operation by which the run failed: the last one of the thread that was chosen last, where it failed when
/// that took effect, and else the last event.
fn failing_at(explanation: &Explanation, world: &World, kind: Option<FailureKind>) -> At {
    let event = explanation.events.len();
    let Some(last) = explanation.events.last() else {
        return At { event, thread: 0 };
    };
    if let (Some(kind), Some(thread)) = (kind, chosen_last(explanation, last.choices_before)) {
        if let Some(member) = world.threads.get(thread) {
            if is_of_the_chosen(kind) && member.pending > 0 {
                return At {
                    event: member.pending,
                    thread,
                };
            }
        }
    }
    At {
        event,
        thread: usize::from(last.thread),
    }
}

/// The thread that was chosen last, after so many choices.
fn chosen_last(explanation: &Explanation, from: usize) -> Option<usize> {
    let mut last = None;
    for choice in explanation.choices.get(from..).unwrap_or(&[]) {
        if let Choice::Thread(thread) = choice {
            last = *thread;
        }
    }
    last.map(|thread| usize::from(thread))
}

/// Whether a run fails so where an operation takes effect.
fn is_of_the_chosen(kind: FailureKind) -> bool {
    matches!(
        kind,
        FailureKind::Race
            | FailureKind::OpenAccess
            | FailureKind::TooManyVersions
            | FailureKind::TooManyStores
            | FailureKind::OrdersEqual
            | FailureKind::Misuse
    )
}

/// Whether a run fails so where it is over, and not by an operation.
fn is_at_end(kind: FailureKind) -> bool {
    matches!(
        kind,
        FailureKind::Deadlock
            | FailureKind::LeakArc
            | FailureKind::LeakTrack
            | FailureKind::LeakMessages
            | FailureKind::NotDeterministic
    )
}

/// What a failure is called.
pub(crate) fn title_of(kind: FailureKind) -> &'static str {
    match kind {
        FailureKind::Assertion => "assertion",
        FailureKind::Deadlock => "deadlock",
        FailureKind::Race => "race",
        FailureKind::OpenAccess => "open access",
        FailureKind::LeakArc => "leaked reference",
        FailureKind::LeakTrack => "leaked value",
        FailureKind::LeakMessages => "leaked messages",
        FailureKind::TooManyThreads => "too many threads",
        FailureKind::TooManyBranches => "too many branches",
        FailureKind::TooManyVersions => "too many versions",
        FailureKind::TooManyStores => "too many stores",
        FailureKind::TooManySteps => "too many operations",
        FailureKind::OrdersEqual => "equal orders",
        FailureKind::Misuse => "misuse",
        FailureKind::Unreachable => "unreachable code",
        FailureKind::RelaxedFence => "relaxed fence",
        FailureKind::LazyShutdown => "lazy value is gone",
        FailureKind::LocalGone => "local is gone",
        FailureKind::ExploreSwitch => "idle switch",
        FailureKind::NotDeterministic => "choices that don't fit",
        FailureKind::SecondWaiter => "second waiter",
        FailureKind::KeyTaken => "key is taken",
    }
}

/// How the run ended, a line, and why, a line each.
pub(crate) fn put_reasons(out: &mut Page, scene: &Scene<'_>) {
    match scene.kind {
        None => out.between("ended, after event ", scene.at.event, "\n"),
        Some(kind) => {
            out.words("failed: ");
            out.words(title_of(kind));
            out.words(if is_at_end(kind) { ", after" } else { ", at" });
            out.number(" event ", scene.at.event);
            put_place(out, scene.label);
            put_reason(out, scene, kind);
        }
    }
}

/// The place of the operation by which the run failed, if it has one, and the line's end.
fn put_place(out: &mut Page, label: Option<Label>) {
    match location_in(label) {
        Some(place) => out.place(" (", place, ")\n"),
        None => out.words("\n"),
    }
}

/// Why, a line each.
fn put_reason(out: &mut Page, scene: &Scene<'_>, kind: FailureKind) {
    match kind {
        FailureKind::Assertion => {
            bodies::put_own(out, scene, "  an assertion of thread ", " failed");
        }
        FailureKind::Unreachable => {
            let after = " came to code that is never to be reached";
            bodies::put_own(out, scene, "  thread ", after);
        }
        FailureKind::Deadlock => deadlock::put_deadlock(out, scene),
        FailureKind::Race => race::put_race(out, scene),
        FailureKind::OpenAccess => race::put_open_access(out, scene),
        FailureKind::LeakArc => leaks::put_references(out, scene.world),
        FailureKind::LeakTrack => leaks::put_values(out, scene.world),
        FailureKind::LeakMessages => leaks::put_messages(out, scene.world),
        FailureKind::TooManyThreads => limits::put_threads(out, scene),
        FailureKind::TooManyBranches => limits::put_branches(out, scene),
        FailureKind::TooManySteps => limits::put_steps(out, scene),
        FailureKind::TooManyVersions => limits::put_versions(out, scene),
        FailureKind::TooManyStores => limits::put_stores(out, scene),
        FailureKind::OrdersEqual => race::put_equal_orders(out, scene),
        FailureKind::Misuse => misuse::put_misuse(out, scene),
        FailureKind::RelaxedFence => bodies::put_fence(out, scene),
        FailureKind::ExploreSwitch => bodies::put_switch(out, scene),
        FailureKind::NotDeterministic => bodies::put_choices(out, scene),
        FailureKind::LazyShutdown => values::put_shutdown(out, scene),
        FailureKind::LocalGone => values::put_gone(out, scene),
        FailureKind::KeyTaken => values::put_taken(out, scene),
        FailureKind::SecondWaiter => values::put_second_waiter(out, scene),
    }
}
