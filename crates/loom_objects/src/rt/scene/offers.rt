//! What the threads of a run offer to a schedule.
ghost use Rattle.std.specs.Prelude.{ℕ, ◌≡◌, ◌<◌, List, ◌∷◌, [], map};
ghost use Rattle.loom_objects.specs.Tree.Sound.{AreSoundOffers};
ghost use Rattle.loom_objects.specs.Schedule.Offers as rules;
ghost use Rattle.loom_objects.specs.Scene.Stage.{world_of};
ghost use Rattle.loom_views.specs.Views.{Points};

use crate::rt::scene::Scene;
use crate::rt::schedule::{Ability, Offers, Yields, default_thread};
use crate::rt::thread::{State, Thread};
use loom_views::rt::MAX_THREADS;
use loom_views::sequence::Sequence;

fn ability_of(state: State) -> Ability
    ensures { result ≡ rules.ability_of state }
{
    match state {
        State::Runnable => Ability::Able,
        State::Yielding => Ability::Yielding,
        State::Blocked | State::Parked | State::Sleeping | State::Ended => Ability::Unable,
    }
}

/// What the thread's state lets it do, and how often it has yielded.
fn standing_at<D>(yields: &Yields, threads: &Sequence<Thread<D>>, place: usize) -> (Ability, u64)
    requires { place < 5 }
    ensures { result ≡ rules.standing_at yields.now threads.now place }
{
    if place >= threads.len() {
        return (Ability::Unable, yields[place]);
    }
    (ability_of(threads.at(place).state), yields[place])
}

/// What the thread's state lets it do.
fn ability_at<D>(threads: &Sequence<Thread<D>>, place: usize) -> Ability
    ensures { (yields : List ℕ) → result ≡ rules.ability_in (rules.standing_at yields threads.now place) }
{
    if place >= threads.len() {
        return Ability::Unable;
    }
    ability_of(threads.at(place).state)
}

fn ability_in(standing: (Ability, u64)) -> Ability
    ensures { result ≡ rules.ability_in standing }
{
    standing.0
}

fn abilities(standings: &[(Ability, u64); MAX_THREADS]) -> [Ability; MAX_THREADS]
    ensures { result ≡ map rules.ability_in standings.now }
{
    standings.map(ability_in)
}

/// The thread, if there is one, can go on.
fn with_able(mut abilities: [Ability; MAX_THREADS], thread: Option<u8>) -> [Ability; MAX_THREADS]
    ensures { result ≡ rules.with_able thread abilities }
{
    if let Some(thread) = thread {
        if (thread as usize) < MAX_THREADS {
            abilities[thread as usize] = Ability::Able;
        }
    }
    abilities
}

impl<D: Drop> Scene<D> {
    /// The five threads, as a schedule sees them.
    fn standings(&self) -> [(Ability, u64); MAX_THREADS]
        ensures { (points : Points) → (left : ℕ) → result ≡ rules.standings (world_of points left self.now) }
    {
        [
            standing_at(&self.yields, &self.threads, 0),
            standing_at(&self.yields, &self.threads, 1),
            standing_at(&self.yields, &self.threads, 2),
            standing_at(&self.yields, &self.threads, 3),
            standing_at(&self.yields, &self.threads, 4),
        ]
    }

    /// What the five threads' states let them do.
    fn abilities(&self) -> [Ability; MAX_THREADS]
        ensures { (yields : List ℕ) → result ≡ map rules.ability_in (map (rules.standing_at yields self.now.threads) (0 ∷ 1 ∷ 2 ∷ 3 ∷ 4 ∷ [])) }
    {
        [
            ability_at(&self.threads, 0),
            ability_at(&self.threads, 1),
            ability_at(&self.threads, 2),
            ability_at(&self.threads, 3),
            ability_at(&self.threads, 4),
        ]
    }

    /// What the threads offer to a schedule, and which one goes on by itself.
    // Inlined, so that it isn't moved.
    #[inline(always)]
    pub fn offers(&self) -> Offers
        ensures offers { (points : Points) → (left : ℕ) → result ≡ rules.offers (world_of points left self.now) }
        ensures sound { AreSoundOffers result.default result.abilities }
    {
        // Where the active thread can go on, nobody's yields are asked.
        match self.active_thread().state {
            State::Runnable => Offers {
                default: Some(self.active),
                abilities: self.abilities(),
            },
            State::Yielding | State::Blocked | State::Parked | State::Sleeping | State::Ended =>
                self.offers_by_yields(),
        }
    }

    /// What the threads offer to a schedule, and which one goes on by itself, by what they can do and how often they have
    /// yielded.
    fn offers_by_yields(&self) -> Offers
        ensures offers { (points : Points) → (left : ℕ) → result ≡ rules.offers (world_of points left self.now) }
        ensures sound { AreSoundOffers result.default result.abilities }
    {
        let standings = self.standings();
        let default = default_thread(self.active(), &standings);
        Offers {
            default,
            abilities: with_able(abilities(&standings), default),
        }
    }
}
