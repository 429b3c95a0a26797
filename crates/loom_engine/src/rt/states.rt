//! States that a search remembers: copies of runs at branch points, with which later runs are compared.
pub(crate) mod shelves;
pub mod trails;
pub mod ways;

ghost use Rattle.std.specs.Prelude.{◌≡◌, [], IfOk, IfSome, IsTrue, ◌++◌, Bool, List, length, slice_get, Some};
ghost use Rattle.loom_objects.specs.declared.choice.Choice.{Choice as Chosen};
ghost use Rattle.loom_engine.specs.Covering.Kept.{FindsOrNotes, HasScene, Key, NotesAs, beside, state_in};
ghost use Rattle.loom_engine.specs.Covering.Points.{yields_seen};
ghost use Rattle.loom_engine.specs.Covering.Spread.{IsTableOf};
ghost use Rattle.loom_views.specs.declared.rt.views.Views.{Views};
ghost use Rattle.loom_views.specs.InOrder.{IsInOrder};
ghost use Rattle.loom_engine.specs.Path.Route.{chosen};
ghost use Rattle.loom_engine.specs.Walk.Path.{Stored};

use crate::rt::execution::Execution;
use crate::rt::path::Path;
use crate::rt::path::choices::ChoiceList;
use crate::rt::states::shelves::Shelves;
use crate::rt::states::trails::Trails;
use loom_objects::body::Body;
use loom_objects::choice::Choice;
use loom_objects::data::Data;
use loom_objects::operation::Lazy;
use loom_objects::rt::kept::{are_equal, copied_all};
use loom_objects::rt::object::Object;
use loom_objects::rt::scene::Scene;
use loom_objects::rt::schedule::{Yields, no_yields};
use loom_objects::rt::thread::Thread;
use loom_views::chains::Chains;
use loom_views::rt::views::ranked::RankedViews;
use loom_views::rt::views::ranked::noted::NotedViews;
use loom_views::same::{Same, are_same};
use loom_views::sequence::Sequence;
use loom_views::shelf::{Shared, are_shared};
use std::alloc::{AllocError, Global};
use std::marker::Model;

/// What is kept of a run at a branch point at which its search explores. Its parts are shared with states that have
/// the same ones (own).
#[derive(Drop)]
pub struct State<D, B> {
    threads: Shared<Sequence<Thread<D>>>,
    objects: Shared<Sequence<Object<D>>>,
    views: NotedViews,
    lazies: Sequence<Lazy<D>>,
    max_threads: usize,
    yields: Yields,
    // of how many threads there are accesses in order
    ordered: usize,
    bodies: Sequence<Shared<B>>,
}

impl<D: Data + Same, B: Body + Same> State<D, B> {
    /// What is kept of where a run stands, with these views in place of its own, its parts on the shelves, beside the last state that was
    /// noted. An error where memory is refused.
    fn of(
        alloc: Global,
        shelves: &mut Shelves<D, B>,
        last: Option<&State<D, B>>,
        execution: &Execution<D>,
        bodies: &[B],
        views: &RankedViews,
        never_switches: bool,
    ) -> Result<State<D, B>, AllocError>
        ensures { IfOk result (λ state. state ≡ state_in never_switches execution.now.run bodies.now views.now) }
    {
        let scene = execution.scene();
        let threads = scene.threads().as_slice();
        let before = match last {
            Some(state) => state.bodies.as_slice(),
            None => &[],
        };
        Ok(State {
            threads: shelves.threads(alloc, threads)?,
            objects: shelves.objects(alloc, scene.objects().as_slice(), threads)?,
            views: shelves.views(alloc, views)?,
            lazies: copied_all(alloc, scene.lazies().as_slice())?,
            max_threads: scene.max_threads(),
            yields: kept_yields(never_switches, scene.yields()),
            ordered: execution.ordered_threads(),
            bodies: shelves.bodies(alloc, bodies, threads, before)?,
        })
    }

    /// Whether it has what the scene has, but for whose turn it is, and for its views and yields.
    fn has_scene(&self, scene: &Scene<D>) -> bool
        ensures { IsTrue result → HasScene self.now scene.now }
    {
        if self.max_threads != scene.max_threads() {
            return false;
        }
        if !are_equal(self.threads.get().as_slice(), scene.threads().as_slice()) {
            return false;
        }
        if !are_equal(self.objects.get().as_slice(), scene.objects().as_slice()) {
            return false;
        }
        are_equal(self.lazies.as_slice(), scene.lazies().as_slice())
    }

    /// Whether it has the scene's yields, or nothing of them, where the body is known never to switch whether the search explores.
    fn has_yields(&self, scene: &Scene<D>, never_switches: bool) -> bool
        ensures { IsTrue result → self.now.yields ≡ yields_seen never_switches scene.now.yields }
    {
        let yields = kept_yields(never_switches, scene.yields());
        are_yields_same(&self.yields, &yields)
    }

    /// Whether the run is in this state, with these views in place of its own.
    #[tactic(auto, using(crate::proofs::Covering::Kept::is_state_in))]
    fn is_at(
        &self,
        execution: &Execution<D>,
        bodies: &[B],
        views: &RankedViews,
        never_switches: bool,
    ) -> bool
        ensures { IsTrue result → self.now ≡ state_in never_switches execution.now.run bodies.now views.now }
    {
        if !views.are_noted(&self.views) {
            return false;
        }
        if !self.has_yields(execution.scene(), never_switches) {
            return false;
        }
        if self.ordered != execution.ordered_threads() {
            return false;
        }
        if !self.has_scene(execution.scene()) {
            return false;
        }
        are_shared(self.bodies.as_slice(), bodies)
    }
}

/// What is kept of how often threads have yielded: nothing, where the body is known never to switch whether the search explores.
fn kept_yields(never_switches: bool, yields: &Yields) -> Yields
    ensures { result ≡ yields_seen never_switches yields.now }
{
    if never_switches {
        return no_yields();
    }
    *yields
}

/// Whether the threads have yielded as often.
fn are_yields_same(one: &Yields, other: &Yields) -> bool
    ensures { IsTrue result → one.now ≡ other.now }
{
    are_same(one, other)
}

/// Copies of bodies. An error where memory is refused.
pub(crate) fn copied_bodies<B: Body>(alloc: Global, bodies: &[B]) -> Result<Sequence<B>, AllocError>
    ensures { IfOk result (λ copy. copy ≡ bodies.now) }
{
    let mut copy = Vec::with_capacity(alloc, bodies.len())?;
    for body in bodies {
        copy.push(body.try_clone()?)?;
    }
    Ok(Sequence::from_vec(copy))
}

/// The states that a search has noted, at most so many of them, each with the choices that led a run to it. Where no more may be,
/// none is noted, and those that were are still found. Of a body that is known never to switch whether the search explores they are told
/// apart by less (own).
#[derive(Drop)]
pub struct States<D, B> {
    states: Sequence<State<D, B>>,
    led_by: Trails,
    // their numbers by the digests of their views
    chains: Chains,
    shelves: Shelves<D, B>,
    // views that were written for a look-up, in whose room the next one writes its own
    spare: Option<RankedViews>,
    // the choices that led a run to the last one
    made: Option<ChoiceList>,
    most: usize,
    never_switches: bool,
    alloc: Global,
}

impl<D, B> Model for States<D, B> {
    ghost use Rattle.loom_engine.specs.Covering.Kept.{Noted};

    ghost Value = { Noted D B };

    ghost view = { λ s. record { states = s.states; led_by = s.led_by; never = s.never_switches } };
}

impl<D: Data + Same, B: Body + Same> States<D, B> {
    /// None yet, and at most so many, of a body that is known never to switch whether the search explores, or of any. An error where memory is
    /// refused.
    pub fn new(alloc: Global, most: usize, never_switches: bool) -> Result<States<D, B>, AllocError>
        ensures { IfOk result (λ states. states ≡ record { states = []; led_by = []; never = never_switches }) }
    {
        Ok(States {
            states: Sequence::new(alloc),
            led_by: Trails::new(alloc),
            chains: Chains::new(alloc)?,
            shelves: Shelves::new(alloc)?,
            spare: None,
            made: None,
            most,
            never_switches,
            alloc,
        })
    }

    /// None, and no room for any, of a body that is known never to switch whether the search explores, or of any (own).
    pub fn none(alloc: Global, never_switches: bool) -> States<D, B>
        ensures { result ≡ record { states = []; led_by = []; never = never_switches } }
    {
        States {
            states: Sequence::new(alloc),
            led_by: Trails::new(alloc),
            chains: Chains::none(alloc),
            shelves: Shelves::none(alloc),
            spare: None,
            made: None,
            most: 0,
            never_switches,
            alloc,
        }
    }

    /// A table of no states beside this one, of the same body, for as many as this one may have more (own). Where there is no memory for
    /// one nothing is noted in it.
    pub fn beside(&self, alloc: Global) -> States<D, B>
        ensures { result ≡ record { states = []; led_by = []; never = self.now.never } }
    {
        let most = self.most.saturating_sub(self.states.len());
        match States::new(alloc, most, self.never_switches) {
            Ok(states) => states,
            Err(_) => States::none(alloc, self.never_switches),
        }
    }

    /// How many were noted.
    pub fn len(&self) -> usize
        ensures { result ≡ length self.now.states }
    {
        self.states.len()
    }

    /// Which choices led a run to each state that was noted.
    pub fn led_by(&self) -> &Trails
        ensures { result.now ≡ self.now.led_by }
    {
        &self.led_by
    }

    /// The number of the state that the run is in, which reached it along the path, if it was noted: in another table, or behind its states
    /// in this one. Otherwise it is noted here, if there may be one more. It is known by views by the ranks of their counts, in place of its
    /// own. An error where memory is refused.
    pub fn look_up(
        &mut self,
        known: &States<D, B>,
        execution: &Execution<D>,
        bodies: &[B],
        path: &Path,
    ) -> Result<Option<usize>, AllocError>
        ensures { IfOk result (λ found. (views : Views) × IsInOrder execution.now.run.state.scene.views views
            × FindsOrNotes (state_in self.old.never execution.now.run bodies.now views) (chosen path.now) (beside known.now self.old) found (beside known.now self.new)) }
    {
        let spare = self.take_spare();
        let views = execution.scene().views().ranked(self.alloc, spare)?;
        let found = self.find_or_note(known, execution, bodies, &views, path)?;
        self.keep_spare(views);
        Ok(found)
    }

    /// The number of the state that the run is in, with these views in place of its own, if it was noted: in another table, or behind its
    /// states in this one. Otherwise it is noted here, if there may be one more. An error where memory is refused.
    fn find_or_note(
        &mut self,
        known: &States<D, B>,
        execution: &Execution<D>,
        bodies: &[B],
        views: &RankedViews,
        path: &Path,
    ) -> Result<Option<usize>, AllocError>
        ensures { IfOk result (λ found. FindsOrNotes (state_in self.old.never execution.now.run bodies.now views.now) (chosen path.now) (beside known.now self.old) found (beside known.now self.new)) }
    {
        let digest = views.digest();
        match self.find_beside(known, execution, bodies, views, digest) {
            Some(number) => Ok(Some(number)),
            None => {
                self.note(execution, bodies, views, digest, path)?;
                Ok(None)
            }
        }
    }

    /// The number of the state that the run is in, with these views in place of its own, whose digest is this, if it was noted: in another
    /// table, or behind its states in this one.
    fn find_beside(
        &self,
        known: &States<D, B>,
        execution: &Execution<D>,
        bodies: &[B],
        views: &RankedViews,
        digest: u64,
    ) -> Option<usize>
        ensures { IfSome result (λ number. slice_get (known.now.states ++ self.now.states) number ≡ Some (state_in self.now.never execution.now.run bodies.now views.now)) }
    {
        let never = self.never_switches;
        if let Some(number) = known.find(execution, bodies, views, digest, never) {
            return Some(number);
        }
        let number = self.find(execution, bodies, views, digest, never)?;
        known.len().checked_add(number)
    }

    /// The spare views, or new ones.
    fn take_spare(&mut self) -> RankedViews
        ensures { self.new ≡ self.old }
    {
        match self.spare.take() {
            Some(views) => views,
            None => RankedViews::new(self.alloc),
        }
    }

    /// These views are the spare ones.
    fn keep_spare(&mut self, views: RankedViews)
        ensures { self.new ≡ self.old }
    {
        self.spare = Some(views);
    }

    /// The number of the state that the run is in, if it was noted, with these views in place of its own, whose digest is this, and of a body
    /// that is known never to switch whether the search explores, or of any.
    fn find(
        &self,
        execution: &Execution<D>,
        bodies: &[B],
        views: &RankedViews,
        digest: u64,
        never_switches: bool,
    ) -> Option<usize>
        ensures { IfSome result (λ number. slice_get self.now.states number ≡ Some (state_in never_switches execution.now.run bodies.now views.now)) }
    {
        let mut next = self.chains.last(digest);
        for _ in 0..self.states.len() {
            let number = next?;
            if number >= self.states.len() {
                return None;
            }
            let state = self.states.at(number);
            if state.is_at(execution, bodies, views, never_switches) {
                return Some(number);
            }
            next = self.chains.before(number, digest);
        }
        None
    }

    /// Notes the state of the run, which reached it along the path, with these views in place of its own, whose digest is this, if
    /// there may be one more. An error where memory is refused.
    fn note(
        &mut self,
        execution: &Execution<D>,
        bodies: &[B],
        views: &RankedViews,
        digest: u64,
        path: &Path,
    ) -> Result<(), AllocError>
        ensures { IfOk result (λ _. NotesAs (state_in self.old.never execution.now.run bodies.now views.now) (chosen path.now) self.old self.new) }
    {
        if self.states.len() >= self.most {
            return Ok(());
        }
        let state = self.kept(execution, bodies, views)?;
        let choices = self.choices_along(path)?;
        self.add(state, digest, choices.as_slice())?;
        self.keep_choices(choices);
        Ok(())
    }

    /// The choices that the run has made along its path. Nothing is noted. An error where memory is refused.
    fn choices_along(&mut self, path: &Path) -> Result<ChoiceList, AllocError>
        ensures choices { IfOk result (λ choices. choices ≡ chosen path.now) }
        ensures same { self.new ≡ self.old }
    {
        let before = match self.made.take() {
            Some(made) => made,
            None => ChoiceList::new(self.alloc),
        };
        path.choices_after(before)
    }

    /// These are the choices in whose room the next ones are listed.
    fn keep_choices(&mut self, made: ChoiceList)
        ensures { self.new ≡ self.old }
    {
        self.made = Some(made);
    }

    /// What is kept of the run, with these views in place of its own. Nothing is noted. An error where memory is refused.
    fn kept(
        &mut self,
        execution: &Execution<D>,
        bodies: &[B],
        views: &RankedViews,
    ) -> Result<State<D, B>, AllocError>
        ensures state { IfOk result (λ state. state ≡ state_in self.old.never execution.now.run bodies.now views.now) }
        ensures same { self.new ≡ self.old }
    {
        State::of(
            self.alloc,
            &mut self.shelves,
            self.states.as_slice().last(),
            execution,
            bodies,
            views,
            self.never_switches,
        )
    }

    /// Adds the states of another table, as far as there may be more (own). One that both tables have is here twice then. An error
    /// where memory is refused.
    pub fn join(&mut self, other: States<D, B>) -> Result<(), AllocError>
        ensures { IfOk result (λ _. (never : Bool) (key : List Chosen → Key D B) (left : List (List Stored)) → IsTableOf never key left self.old → IsTableOf never key left other → IsTableOf never key left self.new) }
    {
        let room = self.most.saturating_sub(self.states.len());
        let count = room.min(other.states.len());
        self.led_by.append(&other.led_by, count)?;
        add_digests(&mut self.chains, &other.chains, count)?;
        let mut states = other.states.into_vec();
        states.truncate(count);
        self.states.append(Sequence::from_vec(states))?;
        Ok(())
    }

    /// Adds a state to which a run came by these choices, and the digest of its views, if there may be one more.
    fn add(&mut self, state: State<D, B>, digest: u64, choices: &[Choice]) -> Result<(), AllocError>
        ensures { IfOk result (λ _. NotesAs state choices.now self.old self.new) }
    {
        if self.states.len() >= self.most {
            return Ok(());
        }
        self.led_by.push(choices)?;
        self.chains.add(digest)?;
        self.states.push(state)?;
        Ok(())
    }
}

/// Adds the first so many digests of other ones. An error where memory is refused.
fn add_digests(chains: &mut Chains, other: &Chains, count: usize) -> Result<(), AllocError> {
    for number in 0..count {
        chains.add(other.digest(number))?;
    }
    Ok(())
}
