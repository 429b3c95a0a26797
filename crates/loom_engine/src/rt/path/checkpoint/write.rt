//! Writing a path and its parts.
ghost use Rattle.std.specs.Prelude.{◌≡◌, IfOk, map};
ghost use Rattle.serde_json.specs.View.{view};
ghost use Rattle.loom_engine.specs.Checkpoint.Shape.{order_rule, shape_data};
ghost use Rattle.loom_objects.specs.Tree.Stores.{slots};
ghost use Rattle.loom_engine.specs.Checkpoint.Grammar.{status_text, status_data, whole, node_data, schedule_data, load_data, spurious_data};

use crate::rt::path::Search;
use crate::rt::path::checkpoint::{ORDER, VERSION};
use crate::rt::path::node::{Load, Node, Schedule, Spurious, Status};
use loom_views::rt::{MAX_ATOMIC_HISTORY, MAX_THREADS};
use serde_json::{Value, json};
use std::alloc::{AllocError, Global};

/// The value of a path of such a search, whose nodes have these values.
#[tactic(auto, unfolding(crate::specs::Checkpoint::Shape::shape_data))]
pub fn write_shape(alloc: Global, nodes: Vec<Value>, search: Search) -> Result<Value, AllocError>
    ensures { IfOk result (λ value. view value ≡ shape_data search.explores (map view nodes.items) order_rule search.bound search.reduce 2) }
{
    json!(in alloc; {
        "exploring": search.explores,
        "nodes": nodes,
        "order": ORDER,
        "preemption_bound": search.bound,
        "reduce": search.reduce,
        "version": VERSION,
    })
}

fn status_name(status: Status) -> &'static str
    ensures { result.now ≡ status_text status }
{
    match status {
        Status::Disabled => "Disabled",
        Status::Skip => "Skip",
        Status::Yield => "Yield",
        Status::Pending => "Pending",
        Status::Active => "Active",
        Status::Visited => "Visited",
    }
}

fn write_status(alloc: Global, status: Status) -> Result<Value, AllocError>
    ensures { IfOk result (λ v. view v ≡ status_data status) }
{
    Value::try_from_str(alloc, status_name(status))
}

fn write_statuses(alloc: Global, statuses: &[Status; MAX_THREADS]) -> Result<Vec<Value>, AllocError>
    ensures { IfOk result (λ v. map view v.items ≡ map status_data statuses.now) }
{
    let mut items = Vec::with_capacity(alloc, MAX_THREADS)?;
    for status in statuses {
        items.push(write_status(alloc, *status)?)?;
    }
    Ok(items)
}

fn write_slots(
    alloc: Global,
    readable: &[bool; MAX_ATOMIC_HISTORY],
) -> Result<Vec<Value>, AllocError>
    ensures { IfOk result (λ v. map view v.items ≡ map whole (slots readable.now)) }
{
    let mut items = Vec::with_capacity(alloc, MAX_ATOMIC_HISTORY)?;
    for slot in 0..MAX_ATOMIC_HISTORY {
        if readable[slot] {
            items.push(Value::from(slot))?;
        }
    }
    Ok(items)
}

#[tactic(auto, unfolding(crate::specs::Checkpoint::Grammar::schedule_data))]
fn write_schedule(alloc: Global, schedule: &Schedule) -> Result<Value, AllocError>
    ensures { IfOk result (λ v. view v ≡ schedule_data schedule.now.first schedule.now.exploring schedule.now.statuses) }
{
    let statuses = write_statuses(alloc, &schedule.statuses)?;
    json!(in alloc; {"exploring": schedule.exploring, "first": schedule.first, "schedule": statuses})
}

#[tactic(auto, unfolding(crate::specs::Checkpoint::Grammar::load_data))]
fn write_load(alloc: Global, load: &Load) -> Result<Value, AllocError>
    ensures { IfOk result (λ v. view v ≡ load_data load.now.exploring load.now.readable load.now.position) }
{
    let slots = write_slots(alloc, &load.readable)?;
    json!(in alloc; {"at": load.position, "exploring": load.exploring, "load": slots})
}

#[tactic(auto, unfolding(crate::specs::Checkpoint::Grammar::spurious_data))]
fn write_spurious(alloc: Global, spurious: &Spurious) -> Result<Value, AllocError>
    ensures { IfOk result (λ v. view v ≡ spurious_data spurious.now.exploring spurious.now.answer) }
{
    json!(in alloc; {"exploring": spurious.exploring, "spurious": spurious.answer})
}

fn write_node(alloc: Global, node: &Node) -> Result<Value, AllocError>
    ensures { IfOk result (λ v. view v ≡ node_data node.now) }
{
    match node {
        Node::Schedule(schedule) => write_schedule(alloc, schedule),
        Node::Load(load) => write_load(alloc, load),
        Node::Spurious(spurious) => write_spurious(alloc, spurious),
    }
}

pub(crate) fn write_nodes(alloc: Global, nodes: &[Node]) -> Result<Vec<Value>, AllocError>
    ensures { IfOk result (λ v. map view v.items ≡ map node_data nodes.now) }
{
    let mut items = Vec::with_capacity(alloc, nodes.len())?;
    for node in nodes {
        items.push(write_node(alloc, node)?)?;
    }
    Ok(items)
}
