//! The options of a path's nodes, as nodes at which they are the choice (own).
ghost use Rattle.std.specs.Prelude.{◌≡◌, ◌↔◌, IfOk, length};
ghost use Rattle.loom_objects.specs.declared.choice.Choice.{Choice as Chosen};
ghost use Rattle.loom_objects.specs.Tree.Question.{Among};
ghost use Rattle.loom_engine.specs.Parts.Cuts.{IsTried};
ghost use Rattle.loom_engine.specs.Parts.Openings.{AreOpenings, HasGoneOn, IsOpen, OpensAs};
ghost use Rattle.loom_engine.specs.Walk.Path.{choose as chosen};
ghost use Rattle.loom_engine.specs.Path.Nodes.{seen, seen_load, seen_schedule, seen_spurious, IsWell, IsWellLoad, IsWellSchedule};
ghost use Rattle.loom_engine.specs.Path.WellFormed.{is_tried};

use crate::rt::path::node::{Load, Node, Schedule, Spurious, Status};
use loom_objects::choice::Choice;
use loom_views::rt::MAX_THREADS;
use std::alloc::{AllocError, Global};

/// An option that is to be tried at a node of a path (own).
#[derive(Clone, Copy)]
pub struct Opening {
    /// The place of the path's node.
    pub place: usize,
    /// The node when the option is its choice.
    pub node: Node,
}

/// The options that are to be tried at the node, if the run explores there, each as the node when it is the choice (own).
pub(crate) fn openings(alloc: Global, node: &Node) -> Result<Vec<Node>, AllocError>
    requires { IsWell node.now }
    ensures { IfOk result (λ list. AreOpenings node.now list.items) }
{
    let mut list = Vec::new(alloc);
    let mut last = *node;
    'options: loop {
        if !last.advance() {
            return Ok(list);
        }
        list.push(with_choice_of(node, &last))?;
    }
}

/// The node at the choice of another one, to which it goes on after some others: of a schedule these stay to be tried.
fn with_choice_of(node: &Node, other: &Node) -> Node
    requires well { IsWell node.now }
    requires goes_on { HasGoneOn node.now other.now }
    ensures { OpensAs node.now (seen other.now).present result }
{
    match node {
        Node::Schedule(schedule) => match other.choice() {
            Choice::Thread(thread) => Node::Schedule(schedule_at(schedule, thread)),
            Choice::Load(_) | Choice::Spurious(_) => *other,
        },
        Node::Load(_) | Node::Spurious(_) => *other,
    }
}

/// The schedule at a thread that is to be tried there.
fn schedule_at(schedule: &Schedule, thread: Option<u8>) -> Schedule
    requires rests { IsWellSchedule schedule.now }
    requires open { IsOpen (Node.Schedule schedule.now) (Choice.Thread thread) }
    ensures chosen { seen_schedule result ≡ chosen (seen_schedule schedule.now) (Choice.Thread thread) }
    ensures rests { IsWellSchedule result }
    ensures five { length result.statuses ≡ 5 }
    ensures noted { (result.preemptions ≡ schedule.now.preemptions) × (result.switch ≡ schedule.now.switch) × (result.nearest ≡ schedule.now.nearest) }
{
    let mut chosen = *schedule;
    match thread {
        Some(thread) => {
            chosen.choose(thread as usize);
            chosen
        }
        None => chosen,
    }
}

/// The options of the node that were tried, and its choice (own).
pub(crate) fn tried(alloc: Global, node: &Node) -> Result<Vec<Choice>, AllocError>
    requires { IsWell node.now }
    ensures { IfOk result (λ list. (option : Chosen) → Among option list.items ↔ IsTried (seen node.now) option) }
{
    match node {
        Node::Schedule(schedule) => tried_threads(alloc, schedule),
        Node::Load(load) => tried_slots(alloc, load),
        Node::Spurious(spurious) => tried_answers(alloc, spurious),
    }
}

/// The threads of a schedule that were tried, and its choice, which is none where no thread could go on.
fn tried_threads(alloc: Global, schedule: &Schedule) -> Result<Vec<Choice>, AllocError>
    ensures { IfOk result (λ list. (option : Chosen) → Among option list.items ↔ IsTried (seen_schedule schedule.now) option) }
{
    let mut list = Vec::new(alloc);
    if schedule.first.is_none() {
        list.push(Choice::Thread(None))?;
    }
    for thread in 0..MAX_THREADS {
        if is_tried(schedule.statuses[thread]) {
            list.push(Choice::Thread(Some(thread as u8)))?;
        }
    }
    Ok(list)
}

/// Whether the thread is the choice, or was tried.
fn is_tried(status: Status) -> bool
    ensures { result ≡ is_tried status }
{
    match status {
        Status::Active | Status::Visited => true,
        Status::Disabled | Status::Skip | Status::Yield | Status::Pending => false,
    }
}

/// The slots of a load that were tried, and its choice.
fn tried_slots(alloc: Global, load: &Load) -> Result<Vec<Choice>, AllocError>
    requires { IsWellLoad load.now }
    ensures { IfOk result (λ list. (option : Chosen) → Among option list.items ↔ IsTried (seen_load load.now) option) }
{
    let mut list = Vec::new(alloc);
    for place in 0..load.position as usize + 1 {
        let at = Load {
            position: place as u8,
            ..*load
        };
        list.push(Choice::Load(at.slot()))?;
    }
    Ok(list)
}

/// The answers of a spurious wake-up that were tried, and its choice.
fn tried_answers(alloc: Global, spurious: &Spurious) -> Result<Vec<Choice>, AllocError>
    ensures { IfOk result (λ list. (option : Chosen) → Among option list.items ↔ IsTried (seen_spurious spurious.now) option) }
{
    let mut list = Vec::new(alloc);
    list.push(Choice::Spurious(false))?;
    if spurious.answer {
        list.push(Choice::Spurious(true))?;
    }
    Ok(list)
}
