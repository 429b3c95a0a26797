//! The nodes of a path in order, a word for each (own).

ghost use Rattle.std.specs.Prelude.{◌≡◌, ◌<◌, ◌≤◌, ◌==◌, ◌↔◌, ◌++◌, ◌∷◌, ℕ, List, Option, [], IfOk, IfErr, IfSome, IsSomeAnd, IsTrue, None, length, map, slice_get, slice_set, slice_index_or, take, Some};
ghost use Rattle.std.specs.Option.{option_map};
ghost use Rattle.loom_engine.specs.Walk.Path.{advance};
ghost use Rattle.loom_objects.specs.Tree.Question.{made_of};
ghost use Rattle.loom_objects.specs.Tree.Asked.{which_thread};
ghost use Rattle.loom_engine.specs.declared.rt.path.node.Schedule.{Schedule};
ghost use Rattle.loom_engine.specs.Path.Nodes.{active_thread, seen, seen_schedule, stored, AreWell};
ghost use Rattle.loom_engine.specs.Path.WellFormed.{AreAlike};
ghost use Rattle.loom_engine.specs.Path.Words.{word_of, IsFit};

use crate::rt::path::choices::ChoiceList;
use crate::rt::path::node::{Node, Places};
use crate::rt::path::word;
use loom_objects::choice::Choice;
use loom_objects::rt::schedule::Offers;
use std::alloc::{AllocError, Global};
use std::marker::Model;

/// Nodes in order: a word for each, and beside it the places that the node notes (own).
#[derive(Drop)]
pub struct NodeList {
    words: Vec<u64>,
    places: Vec<Places>,
}

impl Model for NodeList {
    ghost use Rattle.std.specs.Prelude.{List};
    ghost use Rattle.loom_engine.specs.declared.rt.path.node.Node.{Node};
    ghost use Rattle.loom_engine.specs.Path.Words.{nodes_in, AreLaidOut};

    ghost Value = { List Node };

    ghost view = { λ l. nodes_in l.words.items l.places.items };

    ghost invariant = { λ l. AreLaidOut l.words.items l.places.items };
}

impl NodeList {
    /// No nodes (own).
    pub fn new(alloc: Global) -> NodeList
        ensures { result ≡ [] }
    {
        NodeList {
            words: Vec::new(alloc),
            places: Vec::new(alloc),
        }
    }

    /// How many nodes there are (own).
    #[inline(always)]
    pub fn len(&self) -> usize
        ensures { result ≡ length self.now }
    {
        self.words.len()
    }

    /// Whether there are none (own).
    #[inline(always)]
    pub fn is_empty(&self) -> bool
        ensures { result ≡ (length self.now == 0) }
    {
        self.words.is_empty()
    }

    /// The words of the nodes (own).
    pub fn words(&self) -> &[u64]
        ensures { result.now ≡ map word_of self.now }
    {
        &self.words
    }

    /// The node at a place (own).
    #[inline(always)]
    pub fn get(&self, place: usize) -> Node
        requires { place < length self.now }
        ensures { result ≡ slice_index_or self.now place result }
    {
        word::node(self.words[place], self.places[place])
    }

    /// What was chosen at the node at a place (own).
    #[inline(always)]
    pub fn choice(&self, place: usize) -> Choice
        requires { place < length self.now }
        ensures { option_map (λ node. node.present) (slice_get (stored self.now) place) ≡ Some result }
    {
        word::choice(self.words[place])
    }

    /// What was chosen at each of the first so many nodes, in the room of these choices. An error where memory is refused (own).
    pub fn choices(&self, count: usize, before: ChoiceList) -> Result<ChoiceList, AllocError>
        requires { count ≤ length self.now }
        ensures { IfOk result (λ choices. choices ≡ map (λ node. (seen node).present) (take count self.now)) }
    {
        before.with_words(&self.words[..count])
    }

    /// The thread that is the choice at the schedule at a place (own).
    #[inline(always)]
    pub fn active(&self, place: usize) -> Option<u8>
        requires { place < length self.now }
        ensures lowest { (n : Schedule) → slice_get self.now place ≡ Some (Node.Schedule n) → result ≡ active_thread n.statuses }
        ensures within { IfSome result (λ thread. thread < 5) }
    {
        word::active(self.words[place])
    }

    /// Whether the node at a place is seen to have nothing left to try (own).
    #[inline(always)]
    pub fn is_done(&self, place: usize) -> bool
        requires within { place < length self.now }
        requires well { AreWell self.now }
        ensures { IsTrue result → IsSomeAnd (slice_get (stored self.now) place) (λ node. advance node ≡ None) }
    {
        word::is_done(self.words[place])
    }

    /// Whether the schedule at a place is the one that would be made now, whatever was tried there (own).
    #[inline(always)]
    pub fn meets(&self, place: usize, exploring: bool, offers: &Offers) -> bool
        requires { place < length self.now }
        ensures { (n : Schedule) → slice_get self.now place ≡ Some (Node.Schedule n) → (places : List (Option ℕ)) → IsTrue result ↔ ((seen_schedule n).made ≡ made_of (which_thread exploring offers.now places)) }
    {
        word::meets(self.words[place], exploring, offers)
    }

    /// Puts another node at the place (own).
    #[inline(always)]
    pub fn set(&mut self, place: usize, node: &Node)
        requires within { place < length self.old }
        requires fit { IsFit node.now }
        ensures { self.new ≡ slice_set self.old place node.now }
    {
        self.words[place] = word::of_node(node);
        self.places[place] = word::places_of(node);
    }

    /// Adds a node at the end. Without memory for it the nodes stay as they were (own).
    #[inline(always)]
    pub fn push(&mut self, node: &Node) -> Result<(), AllocError>
        requires fit { IsFit node.now }
        ensures made { IfOk result (λ _. self.new ≡ self.old ++ node.now ∷ []) }
        ensures same { IfErr result (λ _. self.new ≡ self.old) }
    {
        self.words.push(word::of_node(node))?;
        if let Err(refused) = self.places.push(word::places_of(node)) {
            self.words.pop();
            return Err(refused.into());
        }
        Ok(())
    }

    /// Keeps the first so many nodes (own).
    #[inline(always)]
    pub fn truncate(&mut self, count: usize)
        ensures { self.new ≡ take count self.old }
    {
        self.words.truncate(count);
        self.places.truncate(count);
    }

    /// Whether the words are the same. Then so are the nodes, but for what follows from those before them (own).
    pub fn has_words_of(&self, other: &NodeList) -> bool
        ensures words { IsTrue result ↔ (map word_of self.now ≡ map word_of other.now) }
        ensures alike { IsTrue result → AreAlike self.now other.now }
    {
        self.words.as_slice() == other.words.as_slice()
    }

    /// The nodes one by one (own).
    pub fn nodes(&self, alloc: Global) -> Result<Vec<Node>, AllocError>
        ensures { IfOk result (λ nodes. nodes.items ≡ self.now) }
    {
        let mut nodes = Vec::with_capacity(alloc, self.len())?;
        for place in 0..self.len() {
            nodes.push(self.get(place))?;
        }
        Ok(nodes)
    }

    /// A copy of the nodes (own).
    pub fn try_clone(&self, alloc: Global) -> Result<NodeList, AllocError>
        ensures { IfOk result (λ list. list ≡ self.now) }
    {
        let mut words = Vec::new(alloc);
        words.extend_from_slice(&self.words)?;
        let mut places = Vec::new(alloc);
        places.extend_from_slice(&self.places)?;
        Ok(NodeList { words, places })
    }
}
