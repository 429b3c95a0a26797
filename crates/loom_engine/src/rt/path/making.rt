//! Making the nodes of a path: each at its default or at a choice that was given, with the options that are to be tried.
ghost use Rattle.std.specs.Prelude.{◌≡◌, ◌<◌, ◌↔◌, ◌⊎◌, ℕ, List, Option, Some, IfSome, IsSomeAnd, IsTrue, true, slice_get, map, take, length, if◌then◌else◌};
ghost use Rattle.loom_engine.specs.Trees.Meeting.{is_below};
ghost use Rattle.std.specs.List.{Contains};
ghost use Rattle.std.specs.Option.{option_map};
ghost use Rattle.loom_objects.specs.Tree.Question.{made_of};
ghost use Rattle.loom_objects.specs.Tree.Sound.{AreSoundOffers};
ghost use Rattle.loom_objects.specs.Tree.Asked.{which_thread, whether_spurious};
ghost use Rattle.loom_objects.specs.declared.rt.schedule.Ability.TheVariants.{Able};
ghost use Rattle.loom_objects.specs.Tree.Stores.{slots, which_store};
ghost use Rattle.loom_engine.specs.Walk.Path.{fresh};
ghost use Rattle.loom_engine.specs.Trees.Drive.{new_node};
ghost use Rattle.loom_engine.specs.declared.rt.path.node.Status.{Status};
ghost use Rattle.loom_engine.specs.Path.Nodes.{with_status as with_statuses, made_status, is_left, seen_schedule, seen_load, seen_spurious, IsWellSchedule, IsWellLoad};

use crate::rt::path::node::{
    Load, Schedule, Spurious, Status, Tally, count_slots, is_same_thread, with_status,
};
use loom_objects::choice::Choice;
use loom_objects::rt::schedule::{Ability, Offers};
use loom_views::rt::{MAX_ATOMIC_HISTORY, MAX_THREADS};

/// Whether so many preemptions are below the bound, if there is one.
pub fn is_below(bound: Option<u8>, preemptions: u32) -> bool
    ensures { result ≡ is_below bound preemptions }
{
    match bound {
        Some(bound) => preemptions < bound as u32,
        None => true,
    }
}

/// The status, as the node is made, of a thread that is not the choice: each option is to be tried, or none is yet.
fn made_status(ability: Ability, every: bool) -> Status
    ensures { result ≡ made_status every ability }
{
    match ability {
        Ability::Able if every => Status::Pending,
        Ability::Able => Status::Skip,
        Ability::Yielding => Status::Yield,
        Ability::Unable => Status::Disabled,
    }
}

/// The statuses, as the node is made, while no thread is the choice.
fn made_statuses(abilities: &[Ability; MAX_THREADS], every: bool) -> [Status; MAX_THREADS]
    ensures made { result ≡ map (made_status every) abilities.now }
    ensures size { length abilities.now ≡ 5 }
{
    abilities.map(|ability| made_status(ability, every))
}

/// A new schedule, where these were passed, and the run explores or doesn't: the default thread is the choice, and each other
/// thread that can go on is to be tried, or none is yet.
pub(crate) fn schedule(exploring: bool, offers: &Offers, every: bool, passed: &Tally) -> Schedule
    requires { AreSoundOffers offers.now.default offers.now.abilities }
    ensures made { (places : List (Option ℕ)) → seen_schedule result ≡ fresh every (made_of (which_thread exploring offers.now places)) }
    ensures rests { IsWellSchedule result }
    ensures noted { (result.preemptions ≡ passed.now.preemptions) × (result.switch ≡ passed.now.switch) × (result.nearest ≡ passed.now.nearest) }
{
    Schedule {
        preemptions: passed.preemptions,
        switch: passed.switch,
        nearest: passed.nearest,
        first: offers.default,
        exploring,
        statuses: with_status(
            made_statuses(&offers.abilities, every),
            offers.default,
            Status::Active,
        ),
    }
}

/// A new schedule at a choice that was given, or None where that is no option. The default, if it is passed over,
/// counts as tried.
#[inline(always)]
pub(crate) fn schedule_at(
    exploring: bool,
    offers: &Offers,
    every: bool,
    passed: &Tally,
    choice: Choice,
) -> Option<Schedule>
    requires { AreSoundOffers offers.now.default offers.now.abilities }
    ensures made { (places : List (Option ℕ)) → option_map seen_schedule result
        ≡ new_node every (made_of (which_thread exploring offers.now places)) (Some choice) }
    ensures rests { IfSome result IsWellSchedule }
    ensures noted { IfSome result (λ schedule. (schedule.preemptions ≡ passed.now.preemptions) × (schedule.switch ≡ passed.now.switch) × (schedule.nearest ≡ passed.now.nearest)) }
{
    let mut schedule = schedule(exploring, offers, every, passed);
    let Choice::Thread(thread) = choice else {
        return None;
    };
    if is_same_thread(thread, schedule.first) {
        return Some(schedule);
    }
    let thread = thread?;
    if !may_choose(&schedule, thread as usize) {
        return None;
    }
    schedule.choose(thread as usize);
    Some(schedule)
}

/// A new schedule at a thread that was drawn, and that thread; or at the default, where that one can't go on.
#[inline(always)]
pub(crate) fn schedule_drawn(
    exploring: bool,
    offers: &Offers,
    every: bool,
    passed: &Tally,
    drawn: Option<u8>,
) -> (Schedule, Option<u8>)
    requires { AreSoundOffers offers.now.default offers.now.abilities }
    ensures made { (places : List (Option ℕ)) → Some (seen_schedule result.0) ≡ new_node every (made_of (which_thread exploring offers.now places)) (Some (Choice.Thread result.1)) }
    ensures rests { IsWellSchedule result.0 }
    ensures noted { (result.0.preemptions ≡ passed.now.preemptions) × (result.0.switch ≡ passed.now.switch) × (result.0.nearest ≡ passed.now.nearest) }
    ensures within { IfSome result.1 (λ thread. thread < 5) }
{
    let chosen = able_or_default(offers, drawn);
    let made = made_statuses(&offers.abilities, every);
    let schedule = Schedule {
        preemptions: passed.preemptions,
        switch: passed.switch,
        nearest: passed.nearest,
        first: offers.default,
        exploring,
        statuses: drawn_statuses(&made, offers.default, chosen),
    };
    (schedule, chosen)
}

/// The statuses with the default visited, and then this thread as the choice.
// Each is made by itself: an array that is written at one place has to be in memory, and is waited for there.
#[inline(always)]
fn drawn_statuses(
    made: &[Status; MAX_THREADS],
    default: Option<u8>,
    chosen: Option<u8>,
) -> [Status; MAX_THREADS]
    ensures { result ≡ with_statuses chosen Status.Active (with_statuses default Status.Visited made.now) }
{
    [
        drawn_status(made[0], 0, default, chosen),
        drawn_status(made[1], 1, default, chosen),
        drawn_status(made[2], 2, default, chosen),
        drawn_status(made[3], 3, default, chosen),
        drawn_status(made[4], 4, default, chosen),
    ]
}

/// The status of a thread among them.
#[inline(always)]
fn drawn_status(status: Status, thread: u8, default: Option<u8>, chosen: Option<u8>) -> Status
    ensures { (made : List Status) → slice_get made thread ≡ Some status → slice_get (with_statuses chosen Status.Active (with_statuses default Status.Visited made)) thread ≡ Some result }
{
    let otherwise = status_if(
        is_same_thread(default, Some(thread)),
        Status::Visited,
        status,
    );
    status_if(
        is_same_thread(chosen, Some(thread)),
        Status::Active,
        otherwise,
    )
}

/// The one status, if that holds, or else the other one.
// A function of its own, so that no branch is made of it.
#[inline(always)]
fn status_if(holds: bool, one: Status, other: Status) -> Status
    ensures { result ≡ (if holds then one else other) }
{
    if holds { one } else { other }
}

/// The thread, if there is one and it can go on, or else the default.
fn able_or_default(offers: &Offers, thread: Option<u8>) -> Option<u8>
    ensures { (result ≡ offers.now.default) ⊎ IsSomeAnd result (λ thread. slice_get offers.now.abilities thread ≡ Some Able) }
{
    match thread {
        Some(place) if may_go_on(&offers.abilities, place as usize) => thread,
        _ => offers.default,
    }
}

/// Whether there is such a thread, and it can go on.
fn may_go_on(abilities: &[Ability; MAX_THREADS], thread: usize) -> bool
    ensures { IsTrue result → slice_get abilities.now thread ≡ Some Able }
{
    matches!(abilities.get(thread), Some(Ability::Able))
}

/// Whether a thread of this status can go on, and isn't the choice nor was tried.
fn is_left(status: Status) -> bool
    ensures { result ≡ is_left status }
{
    matches!(status, Status::Skip | Status::Pending)
}

/// Whether the thread is there and can go on, and isn't the choice nor was tried.
fn may_choose(schedule: &Schedule, thread: usize) -> bool
    ensures { IsTrue result ↔ IsSomeAnd (slice_get schedule.now.statuses thread) (λ status. is_left status ≡ true) }
{
    match schedule.statuses.get(thread) {
        Some(status) => is_left(*status),
        None => false,
    }
}

/// Whether the slot is there, and may be read.
fn is_readable(readable: &[bool; MAX_ATOMIC_HISTORY], slot: usize) -> bool
    ensures readable { IsTrue result ↔ (slice_get readable.now slot ≡ Some true) }
    ensures within { IsTrue result → slot < 7 }
{
    matches!(readable.get(slot), Some(true))
}

/// A new load, where the run explores or doesn't: the lowest slot is the choice, and each other one that may be read is to
/// be tried.
pub(crate) fn load(exploring: bool, readable: &[bool; MAX_ATOMIC_HISTORY]) -> Load
    requires some { Contains readable.now true }
    ensures made { seen_load result ≡ fresh true (made_of (which_store exploring readable.now)) }
    ensures well { IsWellLoad result }
{
    Load {
        exploring,
        readable: *readable,
        position: 0,
    }
}

/// A new load at a choice that was given, or None where that is no option. The slots below it count as tried.
pub(crate) fn load_at(
    exploring: bool,
    readable: &[bool; MAX_ATOMIC_HISTORY],
    choice: Choice,
) -> Option<Load>
    requires some { Contains readable.now true }
    ensures made { option_map seen_load result ≡ new_node true (made_of (which_store exploring readable.now)) (Some choice) }
    ensures well { IfSome result IsWellLoad }
{
    let Choice::Load(slot) = choice else {
        return None;
    };
    if !is_readable(readable, slot as usize) {
        return None;
    }
    Some(Load {
        exploring,
        readable: *readable,
        position: count_slots(&readable[..slot as usize]) as u8,
    })
}

/// A new load at the slot that was drawn, and that slot; or at the lowest one, where the drawn one may not be read.
#[inline(always)]
pub(crate) fn load_drawn(
    exploring: bool,
    readable: &[bool; MAX_ATOMIC_HISTORY],
    drawn: u8,
) -> (Load, u8)
    requires some { Contains readable.now true }
    ensures made { Some (seen_load result.0) ≡ new_node true (made_of (which_store exploring readable.now)) (Some (Choice.Load result.1)) }
    ensures well { IsWellLoad result.0 }
{
    if !is_readable(readable, drawn as usize) {
        let lowest = load(exploring, readable);
        return (lowest, lowest.slot());
    }
    let load = Load {
        exploring,
        readable: *readable,
        position: count_below(readable, drawn),
    };
    (load, drawn)
}

/// How many of the slots below this one may be read.
// Each slot is looked at, whatever the number: where it is drawn, the end of a shorter loop can't be foretold.
#[inline(always)]
fn count_below(readable: &[bool; MAX_ATOMIC_HISTORY], slot: u8) -> u8
    requires { slot < 7 }
    ensures { result ≡ length (slots (take slot readable.now)) }
{
    let mut count = 0;
    'slots: for place in 0..MAX_ATOMIC_HISTORY {
        count += u8::from(place < slot as usize && readable[place]);
    }
    count
}

/// A new node, where the run explores or doesn't, at which false is the choice, and true is to be tried.
pub(crate) fn spurious(exploring: bool) -> Spurious
    ensures { seen_spurious result ≡ fresh true (made_of (whether_spurious exploring)) }
{
    Spurious {
        exploring,
        answer: false,
    }
}

/// A new node at a choice that was given, or None where that is no option. False counts as tried where true was given.
pub(crate) fn spurious_at(exploring: bool, choice: Choice) -> Option<Spurious>
    ensures { option_map seen_spurious result ≡ new_node true (made_of (whether_spurious exploring)) (Some choice) }
{
    match choice {
        Choice::Spurious(answer) => Some(Spurious { exploring, answer }),
        _ => None,
    }
}
