//! A path as a JSON value.
ghost use Rattle.std.specs.Prelude.{◌≡◌, ◌≤◌, ◌⊎◌, List, length, Some, None, IfOk, IfErr, IfSome, map, nat_lt};
ghost use Rattle.serde_json.specs.View.{view};
ghost use Rattle.loom_engine.specs.declared.rt.path.node.Node.{Node};
ghost use Rattle.loom_engine.specs.Path.Route.{at_rest, settings};
ghost use Rattle.loom_engine.specs.Path.WellFormed.{AreWellFormed};
ghost use Rattle.loom_engine.specs.Checkpoint.Accepted.{DiffersIn, IsPathOf, IsRefused, IsMemory, ValueLaw};
ghost use Rattle.loom_engine.specs.Checkpoint.Grammar.{order_rule, path_data};
ghost use Rattle.loom_engine.specs.Checkpoint.Reader.{each, node_of};

use crate::rt::path::checkpoint::error::{PathError, Setting};
use crate::rt::path::checkpoint::read::{Parts, is_bound, read_node, read_parts, read_version};
use crate::rt::path::checkpoint::write::{write_nodes, write_shape};
use crate::rt::path::checkpoint::{ORDER, VERSION};
use crate::rt::path::node::Node;
use crate::rt::path::{Path, Search};
use serde_json::Value;
use std::alloc::{AllocError, Global};

impl Path {
    /// The JSON value of a path between two runs.
    #[tactic(auto, unfolding(crate::specs::Checkpoint::Grammar::path_data))]
    pub fn to_value(&self, alloc: Global) -> Result<Value, AllocError>
        ensures value { IfOk result (λ value. view value ≡ path_data self.now.search self.now.explores self.now.nodes) }
        ensures fits { IfOk result (λ _. length self.now.nodes ≤ self.now.search.max_branches) }
    {
        let search = self.search();
        let nodes = write_nodes(alloc, &self.nodes(alloc)?)?;
        write_shape(alloc, nodes, search)
    }

    /// The path that a JSON value is, of such a search. It is accepted exactly if it is the value of well-formed nodes that the
    /// search may have.
    pub fn from_value(alloc: Global, value: &Value, search: Search) -> Result<Path, PathError>
        ensures ok { IfOk result (λ path. (path ≡ at_rest (settings search) search.explores path.nodes)
            × IsPathOf (settings search) search.explores (view value.now) path.nodes) }
        ensures err { IfErr result (IsRefused (settings search) search.explores (view value.now)) }
        ensures exact { IfErr result (λ error. ¬ IsMemory error
            → (nodes : List Node) → ¬ IsPathOf (settings search) search.explores (view value.now) nodes) }
    {
        find_path(alloc, value, search)
    }
}

/// The value of a path tells its nodes, but for their notes, which follow from the rest.
pub fn value_tells_nodes()
    ensures { ValueLaw }
{}

/// A path between two runs is read from its value as it was written.
pub fn reread(alloc: Global, path: &Path) -> Result<Path, PathError>
    requires { AreWellFormed path.now.nodes }
    ensures same { IfOk result (λ read. read ≡ at_rest path.now.search path.now.explores path.now.nodes) }
    ensures err { IfErr result IsMemory }
{
    let value = match path.to_value(alloc) {
        Ok(value) => value,
        Err(refused) => return Err(PathError::Memory(refused)),
    };
    match Path::from_value(alloc, &value, path.search()) {
        Ok(read) => {
            read.notes_follow(path);
            Ok(read)
        }
        Err(error) => Err(error),
    }
}

fn find_path(alloc: Global, value: &Value, search: Search) -> Result<Path, PathError>
    ensures ok { IfOk result (λ path. (path ≡ at_rest (settings search) search.explores path.nodes)
        × IsPathOf (settings search) search.explores (view value.now) path.nodes) }
    ensures err { IfErr result (IsRefused (settings search) search.explores (view value.now)) }
{
    match read_version(value) {
        None => return Err(PathError::WrongShape),
        Some(version) => {
            if version != VERSION {
                return Err(PathError::WrongVersion(version));
            }
        }
    }
    let parts = match read_parts(value) {
        Some(parts) => parts,
        None => return Err(PathError::WrongShape),
    };
    match other_setting(parts, search) {
        Some(setting) => return Err(PathError::OtherSettings(setting)),
        None => {}
    }
    let count = parts.nodes.len();
    if is_too_many(count, search) {
        return Err(PathError::TooManyNodes(count));
    }
    let nodes = match read_nodes(alloc, parts.nodes) {
        Ok(nodes) => nodes,
        Err(error) => return Err(error),
    };
    match Path::from_nodes(alloc, search, &nodes) {
        Ok(path) => Ok(path),
        Err(refused) => Err(PathError::Memory(refused)),
    }
}

/// The first setting of a path's text that this search has otherwise.
fn other_setting(parts: Parts<'_>, search: Search) -> Option<Setting>
    ensures some { IfSome result (λ setting. DiffersIn (settings search) search.explores parts.entry.exploring parts.entry.order.now parts.entry.preemption_bound parts.entry.reduce setting) }
    ensures none { result ≡ None → (parts.entry.exploring ≡ search.explores)
        × (parts.entry.order.now ≡ order_rule)
        × (parts.entry.preemption_bound ≡ search.bound)
        × (parts.entry.reduce ≡ search.reduce) }
{
    if parts.order != ORDER {
        return Some(Setting::Order);
    }
    if parts.reduce != search.reduce {
        return Some(Setting::Reduce);
    }
    if !is_bound(parts.preemption_bound, search.bound) {
        return Some(Setting::PreemptionBound);
    }
    if parts.exploring != search.explores {
        return Some(Setting::Exploring);
    }
    None
}

fn read_nodes(alloc: Global, items: &Vec<Value>) -> Result<Vec<Node>, PathError>
    ensures ok { IfOk result (λ nodes. each node_of (map view items.now.items) ≡ Some nodes.items) }
    ensures err { IfErr result (λ error. IsMemory error
        ⊎ ((error ≡ PathError.BadNode) × (each node_of (map view items.now.items) ≡ None))) }
{
    let mut nodes = Vec::new(alloc);
    for item in items {
        match read_node(item) {
            Some(node) => {
                if let Err(refused) = nodes.push(node) {
                    return Err(PathError::Memory(refused.into()));
                }
            }
            None => return Err(PathError::BadNode),
        }
    }
    Ok(nodes)
}

/// Whether these are more nodes than a run of the search may have.
fn is_too_many(count: usize, search: Search) -> bool
    ensures { result ≡ nat_lt search.max_branches count }
{
    count > search.max_branches as usize
}
