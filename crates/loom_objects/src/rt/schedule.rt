//! The choice of the default thread: the one that goes on where the search chooses none.
ghost use Rattle.std.specs.Prelude.{◌≡◌, None, Some, ◌<◌, IfSome};
ghost use Rattle.std.specs.List.{position_from};
ghost use Rattle.loom_views.specs.Versions.{zeros};
ghost use Rattle.loom_objects.specs.Schedule.Defaults as rules;

use loom_views::rt::MAX_THREADS;

/// What a thread offers to a schedule.
#[derive(Clone, Copy, Debug, PartialEq, Eq)]
pub enum Ability {
    /// It can go on.
    Able,
    /// It is in the yield state.
    Yielding,
    /// It can't go on, or isn't there.
    Unable,
}

/// How often each thread has yielded.
pub type Yields = [u64; MAX_THREADS];

/// None has.
pub fn no_yields() -> Yields
    ensures { result ≡ zeros }
{
    [0; MAX_THREADS]
}

fn is_able(standing: (Ability, u64)) -> bool
    ensures { result ≡ rules.is_able (Some standing) }
{
    matches!(standing.0, Ability::Able)
}

fn is_yielding(standing: (Ability, u64)) -> bool
    ensures { result ≡ rules.is_yielding standing }
{
    matches!(standing.0, Ability::Yielding)
}

/// The better one of the best thread so far, with its yields, and this one: a thread that can go on and has yielded less.
fn better(best: Option<(u8, u64)>, thread: u8, standing: (Ability, u64)) -> Option<(u8, u64)>
    ensures { result ≡ rules.better best thread standing }
{
    if !is_able(standing) {
        return best;
    }
    match best {
        Some((_, least)) if least <= standing.1 => best,
        _ => Some((thread, standing.1)),
    }
}

/// Of the threads that can go on, the one with the fewest yields, the first on ties.
fn fewest(standings: &[(Ability, u64); MAX_THREADS]) -> Option<u8>
    ensures { result ≡ rules.fewest None 0 standings.now }
{
    let mut best = None;
    for place in 0..MAX_THREADS {
        best = better(best, place as u8, standings[place]);
    }
    let (thread, _) = best?;
    Some(thread)
}

/// The place of the first thread that has yielded.
fn yielding_place(standings: &[(Ability, u64); MAX_THREADS]) -> Option<usize>
    ensures first { result ≡ position_from rules.is_yielding 0 standings.now }
    ensures within { IfSome result (λ thread. thread < 5) }
{
    standings.iter().position(|standing| is_yielding(*standing))
}

/// The active thread if it can go on, or else the one with the fewest yields that can, or else the first that has yielded. Each
/// thread is given by what it offers and how often it has yielded (loom's `rt/execution.rs`).
#[inline(always)]
pub fn default_thread(active: u8, standings: &[(Ability, u64); MAX_THREADS]) -> Option<u8>
    ensures { result ≡ rules.default_thread active standings.now }
{
    if (active as usize) < MAX_THREADS && is_able(standings[active as usize]) {
        return Some(active);
    }
    if let Some(thread) = fewest(standings) {
        return Some(thread);
    }
    Some(yielding_place(standings)? as u8)
}

/// What the threads of a run offer to a schedule.
#[derive(Clone, Copy)]
pub struct Offers {
    /// The thread that goes on by itself; none where no thread can go on.
    pub default: Option<u8>,
    /// What each thread offers; the default one is able.
    pub abilities: [Ability; MAX_THREADS],
}
