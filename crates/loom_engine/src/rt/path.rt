//! The path of a search: the nodes at which its run has chosen, and what is left to try at each (loom's `rt/path.rs`).
pub mod backtrack;
pub mod checkpoint;
pub mod choices;
pub mod drawing;
pub mod list;
pub mod making;
pub mod node;
pub mod nodes;
pub mod opening;
pub mod part;
pub mod standing;
pub mod word;

ghost use Rattle.std.specs.Prelude.{◌≡◌, ◌≢◌, ◌≤◌, ◌<◌, ◌+◌, ◌↔◌, ℕ, List, [], ◌∷◌, ◌++◌, Option, Some, IfOk, IfErr, IfSome, IsTrue, slice_get, map, length, take, true};
ghost use Rattle.std.specs.List.{Contains};
ghost use Rattle.std.specs.Option.{option_map};
ghost use Rattle.loom_objects.specs.Tree.Question.{made_of};
ghost use Rattle.loom_objects.specs.Tree.Sound.{AreSoundOffers};
ghost use Rattle.loom_objects.specs.Tree.Asked.{which_thread, whether_spurious};
ghost use Rattle.loom_objects.specs.Tree.Stores.{which_store};
ghost use Rattle.loom_objects.specs.Exploring.{is_on};
ghost use Rattle.loom_engine.specs.Trees.Drive.{is_used_up, new_node, passes_of};
ghost use Rattle.loom_engine.specs.Trees.Meeting.{every_at, whole_search};
ghost use Rattle.loom_engine.specs.Path.Nodes.{seen, seen_schedule, seen_load, seen_spurious, AreWell, IsWell, IsWellSchedule, IsWellLoad};
ghost use Rattle.loom_engine.specs.Path.Route.{Route, settings, at_rest, chosen, stored, trail, IsSame, Decides, Pushes, IsAtLoad, PassesLoad, Steps, Switches};
ghost use Rattle.loom_engine.specs.Path.Tallies.{Notes, IsNotedAt, AreNoted, IsValueAt};
ghost use Rattle.loom_engine.specs.Path.WellFormed.{AreAlike, AreAtRest, AreWellFormed, Appends};
ghost use Rattle.loom_engine.specs.Path.Words.{word_of};

use crate::rt::path::choices::ChoiceList;
use crate::rt::path::list::NodeList;
use crate::rt::path::making::is_below;
use crate::rt::path::node::{Load, Node, Schedule, Spurious, Tally};
use crate::rt::path::nodes::{Nodes, step_nodes};
use loom_objects::choice::Choice;
use loom_objects::failure::{Stop, failed};
use loom_objects::operation::ExploreOp;
use loom_objects::rt::exploring::Exploring;
use loom_objects::rt::schedule::Offers;
use loom_views::rt::MAX_ATOMIC_HISTORY;
use loom_views::rt::failure::FailureKind;
use std::alloc::{AllocError, Global};
use std::marker::Model;

/// The most nodes that a check may allow a run (own).
pub const MAX_BRANCHES: u32 = 1_000_000;

/// What a search tries (loom's `rt/path.rs`).
#[derive(Clone, Copy, Debug, PartialEq, Eq)]
pub struct Search {
    /// Whether a schedule tries another thread only where an access calls for it.
    pub reduce: bool,
    /// How many preemptions a run may count, if that is bounded.
    pub bound: Option<u8>,
    /// How many nodes a run may have.
    pub max_branches: u32,
    /// Whether runs begin to explore, or wait for the switch `explore`.
    pub explores: bool,
}

/// The nodes at which the run has chosen, in order, with what is left to try at each (loom's `rt/path.rs`).
#[derive(Drop)]
pub struct Path {
    pub(crate) search: Search,
    pub(crate) nodes: Nodes,
    // whether the run explores at the nodes that come
    exploring: Exploring,
    // what the next schedule notes of those among them
    tally: Tally,
    // what the new nodes take in turn
    given: Vec<Choice>,
}

impl Model for Path {
    ghost use Rattle.std.specs.Prelude.{◌≤◌, length};
    ghost use Rattle.loom_engine.specs.Path.Nodes.{AreWell};
    ghost use Rattle.loom_engine.specs.Path.Route.{Route, settings};
    ghost use Rattle.loom_engine.specs.Path.Tallies.{AreNoted, IsTally};

    ghost Value = { Route };

    ghost view = { λ p. record {
      search = settings p.search;
      explores = p.search.explores;
      nodes = p.nodes.list;
      position = p.nodes.position;
      exploring = p.exploring;
      given = p.given.items;
    } };

    ghost invariant = { λ p. (p.nodes.position ≤ length p.nodes.list) × (length p.nodes.list ≤ p.search.max_branches) × AreWell p.nodes.list
        × AreNoted p.nodes.list × IsTally p.nodes.list p.nodes.position p.tally };
}

/// Two paths are equal where callers see the same. Nothing is allocated, and each node is compared once at most.
impl PartialEq for Path {
    ghost use Rattle.std.specs.Cmp.{partial_equiv_from_equiv};
    ghost use Rattle.loom_engine.specs.Path.Same.{same_routes, same_routes_equiv};

    ghost eq = { same_routes };

    ghost laws = { partial_equiv_from_equiv same_routes_equiv };

    fn eq(&self, other: &Path) -> bool
        ensures { IsTrue result ↔ (self.now ≡ other.now) }
    {
        self.search == other.search
            && self.nodes.position == other.nodes.position
            && self.exploring == other.exploring
            && self.nodes.list.has_words_of(&other.nodes.list)
            && self.given.as_slice() == other.given.as_slice()
    }
}

impl Eq for Path {
    ghost use Rattle.loom_engine.specs.Path.Same.{same_routes_equiv};

    ghost laws = { same_routes_equiv };
}

impl Path {
    /// A path without nodes, of such a search.
    pub fn new(alloc: Global, search: Search) -> Path
        ensures { result ≡ at_rest (settings search) search.explores [] }
    {
        Path {
            search,
            nodes: Nodes {
                list: NodeList::new(alloc),
                position: 0,
            },
            exploring: Exploring::new(search.explores),
            tally: Tally::new(),
            given: Vec::new(alloc),
        }
    }

    /// A path without nodes whose new nodes take these choices in turn, then defaults. Its search is whole.
    pub fn following(
        alloc: Global,
        explores: bool,
        max_branches: u32,
        choices: &[Choice],
    ) -> Result<Path, AllocError>
        ensures { IfOk result (λ path. path ≡ record (at_rest (whole_search max_branches) explores []) { given = choices.now }) }
    {
        let search = Search {
            reduce: false,
            bound: None,
            max_branches,
            explores,
        };
        let mut path = Path::new(alloc, search);
        path.given.extend_from_slice(choices)?;
        Ok(path)
    }

    /// A path at rest with these nodes, of such a search. The notes of its schedules are computed anew.
    pub fn from_nodes(alloc: Global, search: Search, nodes: &[Node]) -> Result<Path, AllocError>
        requires fits { length nodes.now ≤ search.max_branches }
        requires well_formed { AreWellFormed nodes.now }
        ensures rests { IfOk result (λ path. path ≡ at_rest (settings search) search.explores path.nodes) }
        ensures nodes { IfOk result (λ path. AreAlike path.nodes nodes.now) }
    {
        let mut path = Path::new(alloc, search);
        for node in nodes {
            path.append(*node)?;
        }
        path.nodes.position = 0;
        path.tally = Tally::new();
        Ok(path)
    }

    /// Adds the node behind those that were passed, with the notes of its place, and passes it.
    fn append(&mut self, node: Node) -> Result<(), AllocError>
        requires past { length self.old.nodes ≡ self.old.position }
        requires room { self.old.position < self.old.search.max_branches }
        requires well { IsWell node }
        ensures { IfOk result (λ _. Appends self.old node self.new) }
    {
        match node {
            Node::Schedule(schedule) => {
                let schedule = self.noted(schedule);
                self.push(Node::Schedule(schedule))?;
                self.pass(&schedule, schedule.active());
            }
            Node::Load(_) | Node::Spurious(_) => {
                self.push(node)?;
                self.pass_value();
            }
        }
        Ok(())
    }

    /// The schedule with the notes of the place that is passed next.
    fn noted(&self, schedule: Schedule) -> Schedule
        ensures same { (result.first ≡ schedule.first) × (result.exploring ≡ schedule.exploring) × (result.statuses ≡ schedule.statuses) }
        ensures noted { Notes self.now.position (passes_of (trail self.now)) result }
    {
        Schedule {
            preemptions: self.tally.preemptions,
            switch: self.tally.switch,
            nearest: self.tally.nearest,
            ..schedule
        }
    }

    /// A copy of the path.
    pub fn try_clone(&self, alloc: Global) -> Result<Path, AllocError>
        ensures { IfOk result (λ path. path ≡ self.now) }
    {
        let list = self.nodes.list.try_clone(alloc)?;
        let mut given = Vec::new(alloc);
        given.extend_from_slice(&self.given)?;
        Ok(Path {
            search: self.search,
            nodes: Nodes {
                list,
                position: self.nodes.position,
            },
            exploring: self.exploring,
            tally: self.tally,
            given,
        })
    }

    /// What the search tries.
    pub fn search(&self) -> Search
        ensures settings { settings result ≡ self.now.search }
        ensures explores { result.explores ≡ self.now.explores }
    {
        self.search
    }

    /// The nodes, in order, a word for each (own).
    pub fn words(&self) -> &[u64]
        ensures words { result.now ≡ map word_of self.now.nodes }
        ensures fits { length self.now.nodes ≤ self.now.search.max_branches }
    {
        self.nodes.list.words()
    }

    /// The nodes, in order. An error only where memory for them is refused.
    pub fn nodes(&self, alloc: Global) -> Result<Vec<Node>, AllocError>
        ensures nodes { IfOk result (λ nodes. nodes.items ≡ self.now.nodes) }
        ensures fits { length self.now.nodes ≤ self.now.search.max_branches }
    {
        self.nodes.list.nodes(alloc)
    }

    /// The node at a place, or None past the last one.
    pub fn node(&self, place: usize) -> Option<Node>
        ensures { result ≡ slice_get self.now.nodes place }
    {
        if place < self.nodes.list.len() {
            Some(self.nodes.list.get(place))
        } else {
            None
        }
    }

    /// The nodes of a path are well formed where they are at rest, as a walk sees them, and have defaults.
    pub fn well_formed_rests(&self)
        ensures { AreWellFormed self.now.nodes ↔ AreAtRest (stored self.now.nodes) }
    {
        let _ = &self.nodes.list;
    }

    /// Two paths whose nodes are the same but for their notes have the same nodes.
    pub fn notes_follow(&self, other: &Path)
        ensures { AreAlike self.now.nodes other.now.nodes → self.now.nodes ≡ other.now.nodes }
    {
        let _ = &self.nodes.list;
        let _ = &other.nodes.list;
    }

    /// The choice that was given for the node that is made next.
    fn given_here(&self) -> Option<Choice>
        ensures { result ≡ slice_get self.now.given self.now.position }
    {
        self.given.get(self.nodes.position).copied()
    }

    /// Whether the run explores at the nodes that come.
    fn is_exploring(&self) -> bool
        ensures { result ≡ is_on self.now.exploring }
    {
        self.exploring.is_on()
    }

    /// Whether the run has passed as many nodes as the path may have.
    fn is_full(&self) -> bool
        ensures { IsTrue result ↔ (self.now.search.max_branches ≤ self.now.position) }
    {
        self.nodes.position >= self.search.max_branches as usize
    }

    /// Makes a node at the end, without passing it. Without memory for it the path stays as it was.
    #[inline(always)]
    fn push(&mut self, node: Node) -> Result<(), AllocError>
        requires past { length self.old.nodes ≤ self.old.position }
        requires room { self.old.position < self.old.search.max_branches }
        requires well { IsWell node }
        requires noted { IsNotedAt self.old.nodes self.old.position node }
        ensures made { IfOk result (λ _. self.new ≡ record self.old { nodes = self.old.nodes ++ node ∷ [] }) }
        ensures same { IfErr result (λ _. self.new ≡ self.old) }
    {
        self.nodes.push(&node)?;
        Ok(())
    }

    /// Whether each option of a schedule that is made next is to be tried: in a search that isn't reduced, where the run explores,
    /// below the bound.
    fn tries_each(&self) -> bool
        ensures { (offers : Offers) (places : List (Option ℕ)) → result
            ≡ every_at self.now.search (passes_of (trail self.now)) (made_of (which_thread (is_on self.now.exploring) offers places)) }
    {
        !self.search.reduce
            && self.is_exploring()
            && is_below(self.search.bound, self.tally.preemptions)
    }

    /// A new schedule: at the choice that was given for its place, if any, or else at its default.
    #[inline(always)]
    fn new_schedule(&self, offers: &Offers) -> Option<Schedule>
        requires { AreSoundOffers offers.now.default offers.now.abilities }
        ensures made { (places : List (Option ℕ)) → let made = made_of (which_thread (is_on self.now.exploring) offers.now places) in
            option_map seen_schedule result ≡ new_node (every_at self.now.search (passes_of (trail self.now)) made) made (slice_get self.now.given self.now.position) }
        ensures rests { IfSome result IsWellSchedule }
        ensures noted { IfSome result (λ schedule. Notes self.now.position (passes_of (trail self.now)) schedule) }
    {
        let exploring = self.is_exploring();
        let every = self.tries_each();
        match self.given_here() {
            Some(choice) => making::schedule_at(exploring, offers, every, &self.tally, choice),
            None => Some(making::schedule(exploring, offers, every, &self.tally)),
        }
    }

    /// The run passes the schedule at the position, at which this was chosen.
    #[inline(always)]
    fn pass(&mut self, schedule: &Schedule, chosen: Option<u8>)
        requires stands { slice_get self.old.nodes self.old.position ≡ Some (Node.Schedule schedule.now) }
        requires chosen { Choice.Thread chosen ≡ (seen_schedule schedule.now).present }
        ensures { self.new ≡ record self.old { position = self.old.position + 1 } }
    {
        self.tally
            .pass(schedule, chosen, self.nodes.position as u32);
        self.nodes.position += 1;
    }

    /// The run passes the node at the position, which is no schedule.
    #[inline(always)]
    fn pass_value(&mut self)
        requires { IsValueAt self.old.nodes self.old.position }
        ensures { self.new ≡ record self.old { position = self.old.position + 1 } }
    {
        self.nodes.position += 1;
    }

    /// Passes a schedule: follows the stored node, or makes one. Where it fails the path stays as it was.
    #[inline(always)]
    pub fn branch_thread(&mut self, offers: &Offers) -> Result<Option<u8>, Stop>
        requires { AreSoundOffers offers.now.default offers.now.abilities }
        ensures says { (places : List (Option ℕ)) → Decides Choice.Thread self.old (which_thread (is_on self.old.exploring) offers.now places) result self.new }
        ensures within { IfOk result (λ chosen. IfSome chosen (λ thread. thread < 5)) }
        ensures same { IsSame self.old self.new }
    {
        let exploring = self.is_exploring();
        if self.nodes.position < self.nodes.list.len() {
            return match self.nodes.stored_schedule(exploring, offers) {
                // The choice is read in the node's word, so that no status is taken out of it.
                Ok(schedule) => {
                    let chosen = self.nodes.list.active(self.nodes.position);
                    self.pass(&schedule, chosen);
                    Ok(chosen)
                }
                Err(stop) => Err(stop),
            };
        }
        self.make_thread(*offers)
    }

    /// Makes a schedule at the end of the path, and passes it. Where it fails the path stays as it was.
    // Not inlined, so that what passes a stored one is small enough to be inlined; and by a copy, so that the offers needn't be in
    // memory there.
    #[inline(never)]
    fn make_thread(&mut self, offers: Offers) -> Result<Option<u8>, Stop>
        requires past { length self.old.nodes ≡ self.old.position }
        requires sound { AreSoundOffers offers.default offers.abilities }
        ensures says { (places : List (Option ℕ)) → Decides Choice.Thread self.old (which_thread (is_on self.old.exploring) offers places) result self.new }
        ensures within { IfOk result (λ chosen. IfSome chosen (λ thread. thread < 5)) }
        ensures same { IsSame self.old self.new }
    {
        if self.is_full() {
            return Err(failed(FailureKind::TooManyBranches));
        }
        let Some(schedule) = self.new_schedule(&offers) else {
            return Err(failed(FailureKind::NotDeterministic));
        };
        match self.push(Node::Schedule(schedule)) {
            Ok(()) => {
                let chosen = schedule.active();
                self.pass(&schedule, chosen);
                Ok(chosen)
            }
            Err(_) => Err(Stop::Memory),
        }
    }

    /// Makes a load's node at the end of the path, at the choice that was given for its place or else at its default, and
    /// doesn't pass it. Before the end the stored node must be the load that this set makes, else `NotDeterministic`.
    /// `TooManyBranches` where the path may have no further node, `NotDeterministic` where the given choice is no option.
    /// Where it fails the path stays as it was.
    #[inline(always)]
    pub fn push_load(&mut self, readable: &[bool; MAX_ATOMIC_HISTORY]) -> Result<(), Stop>
        requires some { Contains readable.now true }
        ensures pushes { Pushes self.old (which_store (is_on self.old.exploring) readable.now) result self.new }
        ensures readable { IfOk result (λ _. IsAtLoad readable.now self.new) }
        ensures same { IsSame self.old self.new × (self.new.position ≡ self.old.position) }
    {
        let exploring = self.is_exploring();
        if self.nodes.position < self.nodes.list.len() {
            let Node::Load(load) = self.nodes.list.get(self.nodes.position) else {
                return Err(failed(FailureKind::NotDeterministic));
            };
            if !load.meets(exploring, readable) {
                return Err(failed(FailureKind::NotDeterministic));
            }
            return Ok(());
        }
        self.make_load(*readable)
    }

    /// Makes a load's node at the end of the path. Where it fails the path stays as it was.
    // Not inlined and by a copy, as `make_thread`.
    #[inline(never)]
    fn make_load(&mut self, readable: [bool; MAX_ATOMIC_HISTORY]) -> Result<(), Stop>
        requires past { length self.old.nodes ≡ self.old.position }
        requires some { Contains readable true }
        ensures pushes { Pushes self.old (which_store (is_on self.old.exploring) readable) result self.new }
        ensures readable { IfOk result (λ _. IsAtLoad readable self.new) }
        ensures same { IsSame self.old self.new × (self.new.position ≡ self.old.position) }
    {
        if self.is_full() {
            return Err(failed(FailureKind::TooManyBranches));
        }
        let exploring = self.is_exploring();
        let Some(load) = new_load(exploring, &readable, self.given_here()) else {
            return Err(failed(FailureKind::NotDeterministic));
        };
        match self.push(Node::Load(load)) {
            Ok(()) => Ok(()),
            Err(_) => Err(Stop::Memory),
        }
    }

    /// Passes the load at the position, and answers the slot of the store that is read. `NotDeterministic`, and nothing
    /// changes, where no load is there.
    #[inline(always)]
    pub fn branch_load(&mut self) -> Result<u8, Stop>
        ensures { PassesLoad self.old result self.new }
    {
        if self.nodes.position >= self.nodes.list.len() {
            return Err(failed(FailureKind::NotDeterministic));
        }
        let Choice::Load(slot) = self.nodes.list.choice(self.nodes.position) else {
            return Err(failed(FailureKind::NotDeterministic));
        };
        self.pass_value();
        Ok(slot)
    }

    /// Passes a spurious wake-up: follows the stored node, or makes one. It answers whether the thread wakes without a
    /// notification. Where it fails the path stays as it was.
    pub fn branch_spurious(&mut self) -> Result<bool, Stop>
        ensures says { Decides Choice.Spurious self.old (whether_spurious (is_on self.old.exploring)) result self.new }
        ensures same { IsSame self.old self.new }
    {
        let exploring = self.is_exploring();
        if self.nodes.position < self.nodes.list.len() {
            let Node::Spurious(spurious) = self.nodes.list.get(self.nodes.position) else {
                return Err(failed(FailureKind::NotDeterministic));
            };
            if !spurious.meets(exploring) {
                return Err(failed(FailureKind::NotDeterministic));
            }
            self.pass_value();
            return Ok(spurious.answer);
        }
        if self.is_full() {
            return Err(failed(FailureKind::TooManyBranches));
        }
        let Some(spurious) = new_spurious(exploring, self.given_here()) else {
            return Err(failed(FailureKind::NotDeterministic));
        };
        match self.push(Node::Spurious(spurious)) {
            Ok(()) => {
                self.pass_value();
                Ok(spurious.answer)
            }
            Err(_) => Err(Stop::Memory),
        }
    }

    /// The run explores from now on: it goes on to other options at the nodes that come. `ExploreSwitch` where it does already,
    /// unless the rest of the run is skipped; then nothing changes (loom's `rt/path.rs`).
    pub fn explore_state(&mut self) -> Result<(), FailureKind>
        ensures { Switches self.old ExploreOp.Explore result self.new }
    {
        self.exploring = self.exploring.switched(ExploreOp::Explore)?;
        Ok(())
    }

    /// The run doesn't explore from now on. `ExploreSwitch` where it doesn't already, unless the rest of the run is skipped;
    /// then nothing changes (loom's `rt/path.rs`).
    pub fn critical(&mut self) -> Result<(), FailureKind>
        ensures { Switches self.old ExploreOp.StopExploring result self.new }
    {
        self.exploring = self.exploring.switched(ExploreOp::StopExploring)?;
        Ok(())
    }

    /// The run doesn't explore up to its end, whatever is switched (loom's `rt/path.rs`).
    pub fn skip_branch(&mut self)
        ensures { self.new ≡ record self.old { exploring = Exploring.Skipping } }
    {
        self.exploring = Exploring::Skipping;
    }

    /// How many nodes the run has passed: the place of the node that it passes next.
    pub fn position(&self) -> usize
        ensures { result ≡ self.now.position }
    {
        self.nodes.position
    }

    /// Whether the search is reduced. One that isn't makes no marks.
    pub fn is_reduced(&self) -> bool
        ensures { result ≡ self.now.search.reduce }
    {
        self.search.reduce
    }

    /// Whether the run explores at the nodes that come (own).
    pub fn explores_now(&self) -> bool
        ensures { result ≡ is_on self.now.exploring }
    {
        matches!(self.exploring, Exploring::On)
    }

    /// Whether the run has met all that the path holds.
    pub fn is_used_up(&self) -> bool
        ensures { result ≡ is_used_up (trail self.now) }
    {
        self.nodes.list.len() <= self.nodes.position && self.given.len() <= self.nodes.position
    }

    /// What was chosen at the node at a place, which the run has passed (own).
    #[inline(always)]
    pub fn choice(&self, place: usize) -> Choice
        requires { place < self.now.position }
        ensures { slice_get (chosen self.now) place ≡ Some result }
    {
        self.nodes.list.choice(place)
    }

    /// The choices at the nodes that the run has passed. An error only where there are some, and memory for them is refused.
    pub fn choices(&self, alloc: Global) -> Result<Vec<Choice>, AllocError>
        ensures list { IfOk result (λ list. list.items ≡ chosen self.now) }
        ensures growth { IfErr result (λ _. chosen self.now ≢ []) }
    {
        if self.nodes.position == 0 {
            return Ok(Vec::new(alloc));
        }
        choices_at(alloc, &self.nodes.list, self.nodes.position)
    }

    /// `choices`, in the room of those of a run before: what both begin with isn't made again (own). An error where memory is refused.
    pub fn choices_after(&self, before: ChoiceList) -> Result<ChoiceList, AllocError>
        ensures { IfOk result (λ choices. choices ≡ chosen self.now) }
    {
        self.nodes.list.choices(self.nodes.position, before)
    }

    /// After a run, goes on to the next one: the deepest node that has an option left takes it, and what follows it is
    /// dropped. False where no node has one.
    #[inline(always)]
    pub fn step(&mut self) -> bool
        ensures steps { Steps self.old.nodes result self.new.nodes }
        ensures rest { self.new ≡ at_rest self.old.search self.old.explores self.new.nodes }
    {
        self.nodes.position = 0;
        self.exploring = Exploring::new(self.search.explores);
        self.tally = Tally::new();
        self.given.clear();
        step_nodes(&mut self.nodes.list)
    }
}

/// What was chosen at each of the first so many nodes.
fn choices_at(alloc: Global, nodes: &NodeList, count: usize) -> Result<Vec<Choice>, AllocError>
    requires { count ≤ length nodes.now }
    ensures { IfOk result (λ list. list.items ≡ map (λ node. (seen node).present) (take count nodes.now)) }
{
    let mut choices = Vec::with_capacity(alloc, count)?;
    for place in 0..count {
        choices.push(nodes.choice(place))?;
    }
    Ok(choices)
}

/// A new load: at the choice that was given for its place, if any, or else at its default.
fn new_load(
    exploring: bool,
    readable: &[bool; MAX_ATOMIC_HISTORY],
    given: Option<Choice>,
) -> Option<Load>
    requires some { Contains readable.now true }
    ensures made { option_map seen_load result ≡ new_node true (made_of (which_store exploring readable.now)) given }
    ensures well { IfSome result IsWellLoad }
{
    match given {
        Some(choice) => making::load_at(exploring, readable, choice),
        None => Some(making::load(exploring, readable)),
    }
}

/// A new spurious wake-up: at the choice that was given for its place, if any, or else at its default.
fn new_spurious(exploring: bool, given: Option<Choice>) -> Option<Spurious>
    ensures { option_map seen_spurious result ≡ new_node true (made_of (whether_spurious exploring)) given }
{
    match given {
        Some(choice) => making::spurious_at(exploring, choice),
        None => Some(making::spurious(exploring)),
    }
}
