//! The marks that a schedule makes at nodes before it (loom's `rt/path.rs`).
ghost use Rattle.std.specs.Prelude.{◌≡◌, true, false, length, map};
ghost use Rattle.loom_engine.specs.Trees.Drive.{passes_of};
ghost use Rattle.loom_engine.specs.Trees.Marks.{is_off_bound};
ghost use Rattle.loom_engine.specs.Path.Marks.{Adds, Marks, IsNearest, IsScheduleAt};
ghost use Rattle.loom_engine.specs.Path.Nodes.{IsWellSchedule, mark_added, marked_status, seen_schedule};
ghost use Rattle.loom_engine.specs.Path.Route.{Backtracks, trail};
ghost use Rattle.loom_engine.specs.Path.Tallies.{last_switch};

use crate::rt::path::Path;
use crate::rt::path::node::{Node, Schedule, Status};
use crate::rt::path::nodes::exploring_in;
use loom_views::rt::MAX_THREADS;

impl Path {
    /// Makes the marks of a schedule: each thread that isn't ordered after the access that was made at its place is to be tried
    /// there, or at the nearest schedule before that explores. Under a bound on preemptions also where the run last went over
    /// to another thread before that. Nothing in a search that isn't reduced. A mark that is there already changes nothing.
    #[inline(always)]
    pub fn backtrack(&mut self, places: &[Option<usize>; MAX_THREADS])
        ensures { Backtracks self.old places.now self.new }
    {
        if !self.search.reduce {
            return;
        }
        for thread in 0..MAX_THREADS {
            if let Some(place) = places[thread] {
                self.mark(place, thread);
            }
        }
    }

    /// The thread is added for the access that was made at this place.
    fn mark(&mut self, place: usize, thread: usize)
        ensures { Marks self.old place thread self.new }
    {
        let Some(nearest) = self.exploring_from(place) else {
            return;
        };
        let switch = self.add(nearest, thread);
        if self.search.bound.is_some() {
            if let Some(switch) = switch {
                self.add(switch as usize, thread);
            }
        }
    }

    /// The place of the nearest schedule that the run has passed and that explores, from this place down.
    fn exploring_from(&self, place: usize) -> Option<usize>
        ensures { IsNearest (passes_of (trail self.now)) place result }
    {
        exploring_in(&self.nodes.list, self.nodes.position, place)
    }

    /// The thread is added at the schedule of this place, unless its count is the bound. It answers where the run went over to
    /// another thread before it.
    #[inline(always)]
    fn add(&mut self, place: usize, thread: usize) -> Option<u32>
        requires { IsScheduleAt (passes_of (trail self.old)) place }
        ensures added { Adds self.old place thread self.new }
        ensures switch { result ≡ last_switch place (passes_of (trail self.old)) }
    {
        let bound = self.search.bound;
        let Node::Schedule(mut schedule) = self.nodes.list.get(place) else {
            return None;
        };
        if !add_off_bound(&mut schedule, bound, thread) {
            return schedule.switch;
        }
        are_five(&schedule.statuses);
        self.nodes.list.set(place, &Node::Schedule(schedule));
        schedule.switch
    }
}

/// Whether so many preemptions are not the bound.
fn is_off_bound(bound: Option<u8>, preemptions: u32) -> bool
    ensures { result ≡ is_off_bound bound preemptions }
{
    match bound {
        Some(bound) => preemptions != bound as u32,
        None => true,
    }
}

/// The thread is added at the schedule, unless its count is the bound. False only where nothing changes.
#[inline(always)]
fn add_off_bound(schedule: &mut Schedule, bound: Option<u8>, thread: usize) -> bool
    requires { IsWellSchedule schedule.old }
    ensures added { is_off_bound bound schedule.old.preemptions ≡ true → seen_schedule schedule.new ≡ mark_added thread (seen_schedule schedule.old) }
    ensures same { is_off_bound bound schedule.old.preemptions ≡ false → schedule.new ≡ schedule.old }
    ensures unchanged { result ≡ false → schedule.new ≡ schedule.old }
    ensures rests { IsWellSchedule schedule.new }
    ensures noted { (schedule.new.preemptions ≡ schedule.old.preemptions) × (schedule.new.switch ≡ schedule.old.switch) × (schedule.new.nearest ≡ schedule.old.nearest) }
{
    is_off_bound(bound, schedule.preemptions) && add_thread(schedule, thread)
}

/// The status of a thread that is to be tried too: what was to be skipped is pending.
fn marked_status(status: Status) -> Status
    ensures { result ≡ marked_status status }
{
    match status {
        Status::Skip => Status::Pending,
        Status::Disabled => Status::Disabled,
        Status::Yield => Status::Yield,
        Status::Pending => Status::Pending,
        Status::Active => Status::Active,
        Status::Visited => Status::Visited,
    }
}

/// A schedule has five statuses.
fn are_five(statuses: &[Status; MAX_THREADS])
    ensures { length statuses.now ≡ 5 }
{
    let _ = statuses;
}

/// The statuses when each thread is to be tried too.
fn marked_statuses(statuses: &[Status; MAX_THREADS]) -> [Status; MAX_THREADS]
    ensures { result ≡ map marked_status statuses.now }
{
    statuses.map(|status| marked_status(status))
}

/// The thread is added: it is to be tried unless it was, or, where it can't go on, each thread that can is. Nothing where
/// the run doesn't explore. False only where nothing changes.
#[inline(always)]
fn add_thread(schedule: &mut Schedule, thread: usize) -> bool
    requires { IsWellSchedule schedule.old }
    ensures added { seen_schedule schedule.new ≡ mark_added thread (seen_schedule schedule.old) }
    ensures unchanged { result ≡ false → schedule.new ≡ schedule.old }
    ensures rests { IsWellSchedule schedule.new }
    ensures noted { (schedule.new.preemptions ≡ schedule.old.preemptions) × (schedule.new.switch ≡ schedule.old.switch) × (schedule.new.nearest ≡ schedule.old.nearest) }
{
    are_five(&schedule.statuses);
    if !schedule.exploring || thread >= MAX_THREADS {
        return false;
    }
    match schedule.statuses[thread] {
        Status::Disabled => {
            schedule.statuses = marked_statuses(&schedule.statuses);
            true
        }
        Status::Skip => {
            schedule.statuses[thread] = Status::Pending;
            true
        }
        Status::Yield | Status::Pending | Status::Active | Status::Visited => false,
    }
}
