//! The kinds of nodes of a path, and what a run notes of the schedules that it has passed (loom's `rt/path.rs`).
ghost use Rattle.std.specs.Prelude.{◌≡◌, ◌<◌, ◌≤◌, ◌+◌, ◌^◌, ◌↔◌, ◌&&◌, ℕ, List, [], ◌∷◌, ◌++◌, IfSome, IsSomeAnd, IsTrue, true, slice_get, slice_index, length};
ghost use Rattle.std.specs.List.{position_from, Contains};
ghost use Rattle.std.specs.Option.{option_map};
ghost use Rattle.loom_objects.specs.Tree.Question.{Made, made_of};
ghost use Rattle.loom_objects.specs.Tree.Stores.{slots, which_store};
ghost use Rattle.loom_objects.specs.Tree.Asked.{whether_spurious};
ghost use Rattle.loom_engine.specs.Walk.Path.{choose as chosen};
ghost use Rattle.loom_engine.specs.Trees.Drive.{pass_of};
ghost use Rattle.loom_engine.specs.Trees.Meeting.{preempts};
ghost use Rattle.loom_engine.specs.Path.Nodes.{ability_of, is_active, is_pending, is_left, with_status as with_statuses, seen, seen_schedule, seen_load, seen_spurious, Advances, IsWell, IsWellSchedule, IsWellLoad};
ghost use Rattle.loom_engine.specs.Path.Tallies.{Tallies, IsNoted, goes_over};

use loom_objects::choice::Choice;
use loom_objects::rt::schedule::{Ability, Offers};
use loom_views::rt::{MAX_ATOMIC_HISTORY, MAX_THREADS};

/// What is known of a thread at a schedule (loom's `rt/path.rs`).
#[derive(Clone, Copy, PartialEq, Eq)]
pub enum Status {
    /// It can't go on, or isn't there.
    Disabled,
    /// It can go on, and is not to be tried.
    Skip,
    /// It is in the yield state.
    Yield,
    /// It is to be tried.
    Pending,
    /// It is the present choice.
    Active,
    /// It was tried.
    Visited,
}

/// A node at which a thread is chosen.
#[derive(Clone, Copy, PartialEq, Eq)]
pub struct Schedule {
    /// How many preemptions the run counts up to here (loom's `rt/path.rs`).
    pub preemptions: u32,
    /// The place of the last schedule before this one that explores and chose another thread than the one before it; or else
    /// of the first of all, if that explores. A mark goes there too, under a bound on preemptions.
    pub switch: Option<u32>,
    /// The place of the nearest schedule before this one that explores.
    pub nearest: Option<u32>,
    /// The thread that goes on by itself, or none, where none can.
    pub first: Option<u8>,
    /// Whether the run explores here, or takes the default and no other.
    pub exploring: bool,
    /// One status for each of five threads.
    pub statuses: [Status; MAX_THREADS],
}

/// A node at which the store is chosen that a load reads.
#[derive(Clone, Copy, PartialEq, Eq)]
pub struct Load {
    /// Whether the run explores here, or takes the lowest slot and no other.
    pub exploring: bool,
    /// Which of the seven slots may be read.
    pub readable: [bool; MAX_ATOMIC_HISTORY],
    /// The place of the choice among the slots that may be read.
    pub position: u8,
}

/// A node at which it is chosen whether a thread wakes without a notification.
#[derive(Clone, Copy, PartialEq, Eq)]
pub struct Spurious {
    /// Whether the run explores here, or takes false.
    pub exploring: bool,
    /// The choice.
    pub answer: bool,
}

/// The places that a schedule notes: of its fields those beside its word (own).
#[derive(Clone, Copy)]
pub struct Places {
    /// The place of the last schedule before it that explores and chose another thread than the one before that one; or else of
    /// the first of all, if that explores.
    pub switch: Option<u32>,
    /// The place of the nearest schedule before it that explores.
    pub nearest: Option<u32>,
}

/// What a schedule that is made next notes of those that the run has passed.
#[derive(Clone, Copy)]
pub struct Tally {
    /// How many preemptions it counts.
    pub preemptions: u32,
    /// What the last schedule chose, if there is one.
    pub last: Option<Option<u8>>,
    /// The place of the last one that explores and chose another thread than the one before it; or else of the first of all, if
    /// that explores.
    pub switch: Option<u32>,
    /// The place of the last one that explores.
    pub nearest: Option<u32>,
}

/// A node of the path.
#[derive(Clone, Copy, PartialEq, Eq)]
pub enum Node {
    /// Which thread goes on.
    Schedule(Schedule),
    /// Which store a load reads.
    Load(Load),
    /// Whether a thread wakes without a notification.
    Spurious(Spurious),
}

/// Whether the two are the same thread, or both none.
#[inline(always)]
pub fn is_same_thread(one: Option<u8>, other: Option<u8>) -> bool
    ensures { IsTrue result ↔ (one ≡ other) }
{
    one == other
}

/// Whether the threads offer the same in both.
#[inline(always)]
pub fn are_same_abilities(one: &[Ability; MAX_THREADS], other: &[Ability; MAX_THREADS]) -> bool
    ensures { IsTrue result ↔ (one.now ≡ other.now) }
{
    for place in 0..MAX_THREADS {
        if one[place] != other[place] {
            return false;
        }
    }
    true
}

impl Status {
    /// What the thread offered when the node was made.
    #[inline(always)]
    pub fn ability(self) -> Ability
        ensures { result ≡ ability_of self }
    {
        match self {
            Status::Disabled => Ability::Unable,
            Status::Yield => Ability::Yielding,
            Status::Skip | Status::Pending | Status::Active | Status::Visited => Ability::Able,
        }
    }

    /// Whether the thread is the choice.
    #[inline(always)]
    pub fn is_active(self) -> bool
        ensures { result ≡ is_active self }
    {
        matches!(self, Status::Active)
    }

    /// Whether the thread is to be tried.
    #[inline(always)]
    pub fn is_pending(self) -> bool
        ensures { result ≡ is_pending self }
    {
        matches!(self, Status::Pending)
    }
}

/// The thread, if there is one, gets the status.
pub fn with_status(
    mut statuses: [Status; MAX_THREADS],
    thread: Option<u8>,
    status: Status,
) -> [Status; MAX_THREADS]
    requires { IfSome thread (λ thread. thread < 5) }
    ensures { result ≡ with_statuses thread status statuses }
{
    if let Some(thread) = thread {
        statuses[thread as usize] = status;
    }
    statuses
}

impl Schedule {
    /// The thread that is the choice.
    #[inline(always)]
    pub fn active(&self) -> Option<u8>
        ensures present { Choice.Thread result ≡ (seen_schedule self.now).present }
        ensures within { IfSome result (λ thread. thread < 5) }
    {
        let thread = self.active_place()?;
        Some(thread as u8)
    }

    /// The place of the thread that is the choice.
    #[inline(always)]
    fn active_place(&self) -> Option<usize>
        ensures lowest { result ≡ position_from is_active 0 self.now.statuses }
        ensures within { IfSome result (λ thread. thread < 5) }
    {
        self.statuses.iter().position(|status| status.is_active())
    }

    /// The place of the lowest thread that is to be tried.
    #[inline(always)]
    fn pending_place(&self) -> Option<usize>
        ensures lowest { result ≡ position_from is_pending 0 self.now.statuses }
        ensures within { IfSome result (λ thread. thread < 5) }
    {
        self.statuses.iter().position(|status| status.is_pending())
    }

    /// Another thread is the choice, and the one that was is visited.
    #[inline(always)]
    pub fn choose(&mut self, thread: usize)
        requires rests { IsWellSchedule self.old }
        requires left { IsSomeAnd (slice_get self.old.statuses thread) (λ status. is_left status ≡ true) }
        ensures chosen { seen_schedule self.new ≡ chosen (seen_schedule self.old) (Choice.Thread (Some thread)) }
        ensures rests { IsWellSchedule self.new }
        ensures noted { (self.new.preemptions ≡ self.old.preemptions) × (self.new.switch ≡ self.old.switch) × (self.new.nearest ≡ self.old.nearest) }
    {
        self.statuses = with_status(self.statuses, self.active(), Status::Visited);
        self.statuses[thread] = Status::Active;
    }

    /// Takes the lowest thread that is to be tried, if the run explores here and there is one.
    #[inline(always)]
    fn advance(&mut self) -> bool
        requires { IsWellSchedule self.old }
        ensures advances { Advances (seen_schedule self.old) result (seen_schedule self.new) }
        ensures rests { IsWellSchedule self.new }
        ensures noted { (self.new.preemptions ≡ self.old.preemptions) × (self.new.switch ≡ self.old.switch) × (self.new.nearest ≡ self.old.nearest) }
    {
        if !self.exploring {
            return false;
        }
        match self.pending_place() {
            Some(thread) => {
                self.choose(thread);
                true
            }
            None => false,
        }
    }
}

impl Tally {
    /// No schedule was passed.
    #[inline(always)]
    pub fn new() -> Tally
        ensures { Tallies 0 [] result }
    {
        Tally {
            preemptions: 0,
            last: None,
            switch: None,
            nearest: None,
        }
    }

    /// Whether the run passes over the schedule's default, which the schedule before it chose, or where it is the first.
    #[inline(always)]
    fn preempts(&self, schedule: &Schedule, chosen: Option<u8>) -> bool
        requires { Choice.Thread chosen ≡ (seen_schedule schedule.now).present }
        ensures { result ≡ preempts (option_map Choice.Thread self.now.last) (seen_schedule schedule.now).made.default (seen_schedule schedule.now).present }
    {
        let was_last = match self.last {
            Some(last) => is_same_thread(last, schedule.first),
            None => true,
        };
        was_last && !is_same_thread(chosen, schedule.first)
    }

    /// Whether the schedule explores and chose another thread than the one before it, or is the first.
    #[inline(always)]
    fn switches(&self, schedule: &Schedule, chosen: Option<u8>) -> bool
        requires { Choice.Thread chosen ≡ (seen_schedule schedule.now).present }
        ensures { result ≡ ((seen_schedule schedule.now).made.exploring && goes_over (option_map Choice.Thread self.now.last) (seen_schedule schedule.now).present) }
    {
        let goes_over = match self.last {
            Some(last) => !is_same_thread(chosen, last),
            None => true,
        };
        schedule.exploring && goes_over
    }

    /// The schedule at this place is passed, at which this was chosen.
    #[inline(always)]
    pub fn pass(&mut self, schedule: &Schedule, chosen: Option<u8>, place: u32)
        requires counted { self.old.preemptions + 1 < 2 ^ 32 }
        requires chosen { Choice.Thread chosen ≡ (seen_schedule schedule.now).present }
        ensures { (passes : List (Made × Choice)) → length passes ≡ place → Tallies place passes self.old
            → Tallies (place + 1) (passes ++ pass_of (seen_schedule schedule.now) ∷ []) self.new }
    {
        if self.preempts(schedule, chosen) {
            self.preemptions += 1;
        }
        if self.switches(schedule, chosen) {
            self.switch = Some(place);
        }
        if schedule.exploring {
            self.nearest = Some(place);
        }
        self.last = Some(chosen);
    }
}

/// How many of the slots may be read.
pub fn count_slots(readable: &[bool]) -> usize
    ensures count { result ≡ length (slots readable.now) }
    ensures within { result ≤ length readable.now }
{
    readable.iter().filter(|is_readable| **is_readable).count()
}

/// The slot at a place among those that may be read, or 0 past the last of them.
#[inline(always)]
pub fn slot_at(readable: &[bool; MAX_ATOMIC_HISTORY], place: u8) -> u8
    ensures { result ≡ slice_index (slots readable.now) place }
{
    let mut left = place;
    for (slot, is_readable) in readable.iter().enumerate() {
        if *is_readable {
            if left == 0 {
                return slot as u8;
            }
            left -= 1;
        }
    }
    0
}

/// Whether the same slots may be read in both.
fn are_same_slots(one: &[bool; MAX_ATOMIC_HISTORY], other: &[bool; MAX_ATOMIC_HISTORY]) -> bool
    ensures { IsTrue result ↔ (one.now ≡ other.now) }
{
    one == other
}

impl Load {
    /// The slot that is the choice.
    #[inline(always)]
    pub fn slot(&self) -> u8
        ensures { Choice.Load result ≡ (seen_load self.now).present }
    {
        slot_at(&self.readable, self.position)
    }

    /// Whether it is the load that would be made now, whatever was tried there.
    pub fn meets(&self, exploring: bool, readable: &[bool; MAX_ATOMIC_HISTORY]) -> bool
        requires well { IsWellLoad self.now }
        requires some { Contains readable.now true }
        ensures { IsTrue result ↔ ((seen_load self.now).made ≡ made_of (which_store exploring readable.now)) }
    {
        self.exploring == exploring && are_same_slots(&self.readable, readable)
    }

    /// Takes the next slot that may be read, if the run explores here and there is one.
    fn advance(&mut self) -> bool
        requires { IsWellLoad self.old }
        ensures advances { Advances (seen_load self.old) result (seen_load self.new) }
        ensures well { IsWellLoad self.new }
        ensures seven { length self.new.readable ≡ 7 }
    {
        if !self.exploring || self.position as usize + 1 >= count_slots(&self.readable) {
            return false;
        }
        self.position += 1;
        true
    }
}

impl Spurious {
    /// Whether it is the node that would be made now, whatever was tried there.
    pub fn meets(&self, exploring: bool) -> bool
        ensures { IsTrue result ↔ ((seen_spurious self.now).made ≡ made_of (whether_spurious exploring)) }
    {
        self.exploring == exploring
    }

    /// Takes true, if the run explores here and false is the choice.
    fn advance(&mut self) -> bool
        ensures { Advances (seen_spurious self.old) result (seen_spurious self.new) }
    {
        if !self.exploring || self.answer {
            return false;
        }
        self.answer = true;
        true
    }
}

impl Node {
    /// What was chosen there.
    pub fn choice(&self) -> Choice
        ensures { result ≡ (seen self.now).present }
    {
        match self {
            Node::Schedule(schedule) => Choice::Thread(schedule.active()),
            Node::Load(load) => Choice::Load(load.slot()),
            Node::Spurious(spurious) => Choice::Spurious(spurious.answer),
        }
    }

    /// Takes the next option that is to be tried, if the run explores there and there is one.
    pub fn advance(&mut self) -> bool
        requires { IsWell self.old }
        ensures advances { Advances (seen self.old) result (seen self.new) }
        ensures rests { IsWell self.new }
        ensures noted { (place : ℕ) (passes : List (Made × Choice)) → IsNoted place passes self.old → IsNoted place passes self.new }
    {
        match self {
            Node::Schedule(schedule) => schedule.advance(),
            Node::Load(load) => load.advance(),
            Node::Spurious(spurious) => spurious.advance(),
        }
    }
}
