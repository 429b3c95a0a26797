//! A path as a part of a search: its first nodes are fixed (own).
ghost use Rattle.std.specs.Prelude.{◌≡◌, ◌≤◌, ◌++◌, ◌∷◌, [], IfErr, IfOk, IfSome, length, slice_get, take};
ghost use Rattle.loom_engine.specs.Parts.Openings.{chosen_to, key_at, Adds, AddsLow, AreLow, OpensAt, StepsAbove};
ghost use Rattle.loom_engine.specs.Walk.Machine.{is_thread};
ghost use Rattle.loom_engine.specs.Path.Nodes.{seen, AreWell, IsWell};
ghost use Rattle.loom_engine.specs.Path.Route.{at_rest, settings};
ghost use Rattle.loom_engine.specs.Checkpoint.Accepted.{DiffersIn};
ghost use Rattle.loom_engine.specs.Checkpoint.Grammar.{order_rule};
ghost use Rattle.loom_engine.specs.Parts.Keeping.{IsOtherSearch};
ghost use Rattle.loom_engine.specs.Path.Tallies.{AreNoted};

use crate::rt::path::checkpoint::error::{PathError, Setting};
use crate::rt::path::list::NodeList;
use crate::rt::path::node::{Node, Tally};
use crate::rt::path::nodes::Nodes;
use crate::rt::path::opening::{Opening, openings};
use crate::rt::path::{Path, Search, choices_at};
use loom_objects::choice::Choice;
use loom_objects::rt::exploring::Exploring;
use std::alloc::{AllocError, Global};

impl Path {
    /// After a run, goes on to the next one, as `step` does, but never below the floor: the first so many nodes stay. False where no
    /// node above it has an option left: then those below it are left (own).
    pub fn step_above(&mut self, floor: usize) -> bool
        ensures steps { StepsAbove floor self.old.nodes result self.new.nodes }
        ensures rest { self.new ≡ at_rest self.old.search self.old.explores self.new.nodes }
    {
        self.nodes.position = 0;
        self.exploring = Exploring::new(self.search.explores);
        self.tally = Tally::new();
        self.given.clear();
        step_nodes_above(&mut self.nodes.list, floor)
    }

    /// A copy of the path, as it is between two runs, for such a search. `OtherSettings` where it is of a search with other settings,
    /// the first one that differs, and `TooManyNodes` where it has more nodes than a run may have (own).
    pub fn taken_up(&self, alloc: Global, search: Search) -> Result<Path, PathError>
        ensures ok { IfOk result (λ path. path ≡ at_rest (settings search) search.explores self.now.nodes) }
        ensures err { IfErr result (IsOtherSearch (settings search) search.explores self.now) }
    {
        if let Some(setting) = other_setting(self.search, search) {
            return Err(PathError::OtherSettings(setting));
        }
        let count = self.nodes.list.len();
        if count > search.max_branches as usize {
            return Err(PathError::TooManyNodes(count));
        }
        match self.nodes.list.try_clone(alloc) {
            Ok(list) => Ok(resting(alloc, search, list)),
            Err(refused) => Err(PathError::Memory(refused)),
        }
    }

    /// The path between two runs that ends at the opening's option (own).
    pub(crate) fn branch_off(&self, alloc: Global, opening: &Opening) -> Result<Path, AllocError>
        requires { OpensAt self.now.nodes opening.now }
        ensures { IfOk result (λ path. path ≡ at_rest self.now.search self.now.explores (take opening.now.place self.now.nodes ++ opening.now.node ∷ [])) }
    {
        let mut list = self.nodes.list.try_clone(alloc)?;
        list.truncate(opening.place);
        list.push(&opening.node)?;
        Ok(resting(alloc, self.search, list))
    }

    /// The choices before the opening's option, and itself (own).
    pub(crate) fn key(&self, alloc: Global, opening: &Opening) -> Result<Vec<Choice>, AllocError>
        requires { OpensAt self.now.nodes opening.now }
        ensures { IfOk result (λ key. key.items ≡ key_at self.now.nodes opening.now) }
    {
        let mut key = choices_at(alloc, &self.nodes.list, opening.place)?;
        key.push(opening.node.choice())?;
        Ok(key)
    }

    /// How many nodes there are (own).
    pub fn len(&self) -> usize
        ensures { result ≡ length self.now.nodes }
    {
        self.nodes.list.len()
    }

    /// What was chosen at the first so many nodes (own).
    pub fn beginning(&self, alloc: Global, count: usize) -> Result<Vec<Choice>, AllocError>
        requires { count ≤ length self.now.nodes }
        ensures { IfOk result (λ list. list.items ≡ chosen_to count self.now.nodes) }
    {
        choices_at(alloc, &self.nodes.list, count)
    }

    /// The node at a place, or none past the last one (own).
    pub fn well_node(&self, place: usize) -> Option<Node>
        ensures found { result ≡ slice_get self.now.nodes place }
        ensures well { IfSome result IsWell }
    {
        let _ = &self.search;
        self.node(place)
    }

    /// What the runs of a part have noted: the threads that are to be tried at the schedules below its floor (own).
    pub fn notes(&self, alloc: Global, floor: usize) -> Result<Vec<Opening>, AllocError>
        ensures { IfOk result (λ list. AreLow floor self.now.nodes list.items) }
    {
        let mut list = Vec::new(alloc);
        for place in 0..floor {
            self.add_notes(alloc, &mut list, place)?;
        }
        Ok(list)
    }

    /// Adds the threads that are to be tried at the node of this place, if it is a schedule.
    fn add_notes(
        &self,
        alloc: Global,
        list: &mut Vec<Opening>,
        place: usize,
    ) -> Result<(), AllocError>
        ensures { IfOk result (λ _. AddsLow place self.now.nodes list.old.items list.new.items) }
    {
        match self.well_node(place) {
            Some(node) if is_schedule(&node) => add_openings(alloc, list, place, &node),
            _ => Ok(()),
        }
    }
}

/// A path between two runs with these nodes, of such a search.
fn resting(alloc: Global, search: Search, list: NodeList) -> Path
    requires fits { length list ≤ search.max_branches }
    requires well { AreWell list }
    requires noted { AreNoted list }
    ensures { result ≡ at_rest (settings search) search.explores list }
{
    Path {
        search,
        nodes: Nodes { list, position: 0 },
        exploring: Exploring::new(search.explores),
        tally: Tally::new(),
        given: Vec::new(alloc),
    }
}

/// The first setting of a search that another one has otherwise.
fn other_setting(one: Search, other: Search) -> Option<Setting>
    ensures { IfSome result (DiffersIn (settings other) other.explores one.explores order_rule one.bound one.reduce) }
{
    if one.reduce != other.reduce {
        return Some(Setting::Reduce);
    }
    if one.bound != other.bound {
        return Some(Setting::PreemptionBound);
    }
    if one.explores != other.explores {
        return Some(Setting::Exploring);
    }
    None
}

/// Whether a thread is chosen at the node.
fn is_schedule(node: &Node) -> bool
    ensures { result ≡ is_thread (seen node.now).made.default }
{
    match node {
        Node::Schedule(_) => true,
        Node::Load(_) | Node::Spurious(_) => false,
    }
}

/// Adds the options that are to be tried at the node, which is at this place (own).
pub(crate) fn add_openings(
    alloc: Global,
    list: &mut Vec<Opening>,
    place: usize,
    node: &Node,
) -> Result<(), AllocError>
    requires { IsWell node.now }
    ensures { IfOk result (λ _. Adds place node.now list.old.items list.new.items) }
{
    let found = openings(alloc, node)?;
    for next in &found {
        list.push(Opening { place, node: *next })?;
    }
    Ok(())
}

/// The deepest node above the floor that can go on does, and what follows it is dropped. False if none can: then the nodes below
/// the floor are left.
fn step_nodes_above(nodes: &mut NodeList, floor: usize) -> bool
    requires well { AreWell nodes.old }
    requires noted { AreNoted nodes.old }
    ensures steps { StepsAbove floor nodes.old result nodes.new }
    ensures well { AreWell nodes.new }
    ensures noted { AreNoted nodes.new }
    ensures fewer { length nodes.new ≤ length nodes.old }
{
    while nodes.len() > floor {
        let last = nodes.len() - 1;
        if !nodes.is_done(last) {
            let mut node = nodes.get(last);
            if node.advance() {
                nodes.set(last, &node);
                return true;
            }
        }
        nodes.truncate(last);
    }
    false
}
