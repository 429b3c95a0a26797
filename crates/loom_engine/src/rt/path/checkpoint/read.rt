//! Reading the parts of a path.
ghost use Rattle.std.specs.Prelude.{◌≡◌, ◌==◌, ◌↔◌, IsTrue, count_by, option_map, map, drop};
ghost use Rattle.loom_engine.specs.Path.Nodes.{is_active};
ghost use Rattle.loom_engine.specs.Path.WellFormed.{is_tried, is_marked, is_at, is_well_formed_schedule, is_well_formed_load, is_well_formed_spurious};
ghost use Rattle.serde_json.specs.Find.{as_bool, as_str};
ghost use Rattle.serde_json.specs.View.{view, members_view};
ghost use Rattle.loom_engine.specs.Checkpoint.Accepted.{version_of};
ghost use Rattle.loom_engine.specs.Checkpoint.Reader.{as_whole, as_list, as_whole_or_null, taken, expected, ends, status_named, status_of, statuses_of, marks_of, begins_with, schedule_of, load_of, spurious_of, node_of, shape_of};

use crate::rt::path::node::{Load, Node, Schedule, Spurious, Status, count_slots};
use loom_views::rt::{MAX_ATOMIC_HISTORY, MAX_THREADS};
use serde_json::{Map, Value};
use std::collections::btree_map::Iter;

/// How many threads are the choice.
fn count_active(statuses: &[Status; MAX_THREADS]) -> usize
    ensures { result ≡ count_by is_active statuses.now }
{
    statuses.iter().filter(|status| status.is_active()).count()
}

/// Whether one thread alone is active.
pub fn has_one_active(statuses: &[Status; MAX_THREADS]) -> bool
    ensures { result ≡ (count_by is_active statuses.now == 1) }
{
    count_active(statuses) == 1
}

/// Whether the bound that was written is that of the search.
pub fn is_bound(written: Option<u64>, bound: Option<u8>) -> bool
    ensures { IsTrue result ↔ (written ≡ bound) }
{
    match (written, bound) {
        (None, None) => true,
        (Some(written), Some(bound)) => written == bound as u64,
        _ => false,
    }
}

/// The next member's value, where its key is this one.
pub(crate) fn expect_member<'v>(
    members: &mut Iter<'v, String, Value>,
    key: &str,
) -> Option<&'v Value>
    ensures { expected key.now (members_view members.old)
        ≡ option_map (λ v. (view v.now, members_view members.new)) result }
{
    let (name, value) = members.next()?;
    if name.as_str() == key {
        Some(value)
    } else {
        None
    }
}

/// Whether no member is left.
pub(crate) fn is_end(members: &mut Iter<'_, String, Value>) -> bool
    ensures { result ≡ ends (members_view members.old) }
{
    members.next().is_none()
}

#[tactic(auto, unfolding(crate::specs::Checkpoint::Reader::taken))]
pub(crate) fn take_flag(members: &mut Iter<'_, String, Value>, key: &str) -> Option<bool>
    ensures { taken as_bool key.now (members_view members.old)
        ≡ option_map (λ b. (b, members_view members.new)) result }
{
    expect_member(members, key)?.as_bool()
}

#[tactic(auto, unfolding(crate::specs::Checkpoint::Reader::taken))]
pub(crate) fn take_number(members: &mut Iter<'_, String, Value>, key: &str) -> Option<u64>
    ensures { taken as_whole key.now (members_view members.old)
        ≡ option_map (λ n. (n, members_view members.new)) result }
{
    expect_member(members, key)?.as_u64()
}

pub(crate) fn read_list(value: &Value) -> Option<&Vec<Value>>
    ensures { as_list (view value.now) ≡ option_map (λ v. map view v.now.items) result }
{
    value.as_array()
}

fn read_bound(value: &Value) -> Option<Option<u64>>
    ensures { result ≡ as_whole_or_null (view value.now) }
{
    match value {
        Value::Null => Some(None),
        Value::Number(number) => Some(Some(number.as_u64()?)),
        _ => None,
    }
}

#[tactic(auto, unfolding(crate::specs::Checkpoint::Reader::taken))]
fn take_bound(members: &mut Iter<'_, String, Value>, key: &str) -> Option<Option<u64>>
    ensures { taken as_whole_or_null key.now (members_view members.old)
        ≡ option_map (λ n. (n, members_view members.new)) result }
{
    read_bound(expect_member(members, key)?)
}

#[tactic(auto, unfolding(crate::specs::Checkpoint::Reader::taken))]
pub(crate) fn take_list<'v>(
    members: &mut Iter<'v, String, Value>,
    key: &str,
) -> Option<&'v Vec<Value>>
    ensures { taken as_list key.now (members_view members.old)
        ≡ option_map (λ v. (map view v.now.items, members_view members.new)) result }
{
    read_list(expect_member(members, key)?)
}

#[tactic(auto, unfolding(crate::specs::Checkpoint::Reader::taken))]
pub(crate) fn take_text<'v>(members: &mut Iter<'v, String, Value>, key: &str) -> Option<&'v str>
    ensures { taken as_str key.now (members_view members.old)
        ≡ option_map (λ s. (s.now, members_view members.new)) result }
{
    expect_member(members, key)?.as_str()
}

fn status_named(text: &str) -> Option<Status>
    ensures { result ≡ status_named text.now }
{
    if text == "Disabled" {
        Some(Status::Disabled)
    } else if text == "Skip" {
        Some(Status::Skip)
    } else if text == "Yield" {
        Some(Status::Yield)
    } else if text == "Pending" {
        Some(Status::Pending)
    } else if text == "Active" {
        Some(Status::Active)
    } else if text == "Visited" {
        Some(Status::Visited)
    } else {
        None
    }
}

#[tactic(auto, unfolding(crate::specs::Checkpoint::Reader::status_of))]
fn read_status(value: &Value) -> Option<Status>
    ensures { result ≡ status_of (view value.now) }
{
    status_named(value.as_str()?)
}

#[tactic(auto, unfolding(crate::specs::Checkpoint::Reader::statuses_of))]
fn read_statuses(items: &Vec<Value>) -> Option<[Status; MAX_THREADS]>
    ensures { result ≡ statuses_of (map view items.now.items) }
{
    if items.len() != MAX_THREADS {
        return None;
    }
    let mut statuses = [Status::Disabled; MAX_THREADS];
    for thread in 0..MAX_THREADS {
        statuses[thread] = read_status(&items[thread])?;
    }
    Some(statuses)
}

/// Whether the items from this place on begin with the number of the slot.
fn has_slot(items: &Vec<Value>, place: usize, slot: usize) -> bool
    ensures { result ≡ begins_with slot (map view (drop place items.now.items)) }
{
    if place >= items.len() {
        return false;
    }
    match items[place].as_u64() {
        Some(number) => number == slot as u64,
        None => false,
    }
}

/// The marks of the slots with these rising numbers.
fn read_slots(items: &Vec<Value>) -> Option<[bool; MAX_ATOMIC_HISTORY]>
    ensures { result ≡ marks_of 7 0 (map view items.now.items) }
{
    let mut readable = [false; MAX_ATOMIC_HISTORY];
    let mut place = 0;
    for slot in 0..MAX_ATOMIC_HISTORY {
        let found = has_slot(items, place, slot);
        readable[slot] = found;
        if found {
            place += 1;
        }
    }
    if place < items.len() {
        None
    } else {
        Some(readable)
    }
}

fn is_tried(status: Status) -> bool
    ensures { result ≡ is_tried status }
{
    match status {
        Status::Active | Status::Visited => true,
        Status::Disabled | Status::Skip | Status::Yield | Status::Pending => false,
    }
}

fn is_marked(status: Status) -> bool
    ensures { result ≡ is_marked status }
{
    match status {
        Status::Pending | Status::Visited => true,
        Status::Disabled | Status::Skip | Status::Yield | Status::Active => false,
    }
}

fn count_marked(statuses: &[Status; MAX_THREADS]) -> usize
    ensures { result ≡ count_by is_marked statuses.now }
{
    statuses.iter().filter(|status| is_marked(**status)).count()
}

fn is_active_at(statuses: &[Status; MAX_THREADS], thread: u8) -> bool
    ensures { result ≡ is_at is_active thread statuses.now }
{
    match statuses.get(thread as usize) {
        Some(status) => status.is_active(),
        None => false,
    }
}

fn is_tried_at(statuses: &[Status; MAX_THREADS], thread: u8) -> bool
    ensures { result ≡ is_at is_tried thread statuses.now }
{
    match statuses.get(thread as usize) {
        Some(status) => is_tried(*status),
        None => false,
    }
}

fn is_well_formed_schedule(first: u8, exploring: bool, statuses: &[Status; MAX_THREADS]) -> bool
    ensures { result ≡ is_well_formed_schedule first exploring statuses.now }
{
    has_one_active(statuses)
        && is_tried_at(statuses, first)
        && (exploring || (is_active_at(statuses, first) && count_marked(statuses) == 0))
}

fn is_well_formed_load(exploring: bool, readable: &[bool; MAX_ATOMIC_HISTORY], position: u8) -> bool
    ensures { result ≡ is_well_formed_load exploring readable.now position }
{
    (position as usize) < count_slots(readable) && (exploring || position == 0)
}

fn is_well_formed_spurious(exploring: bool, answer: bool) -> bool
    ensures { result ≡ is_well_formed_spurious exploring answer }
{
    exploring || !answer
}

#[tactic(auto, unfolding(crate::specs::Checkpoint::Reader::schedule_of))]
fn read_schedule(object: &Map<String, Value>) -> Option<Node>
    ensures { result ≡ schedule_of (members_view object.now.entries) }
{
    let mut members = object.iter();
    let exploring = take_flag(&mut members, "exploring")?;
    let first = take_number(&mut members, "first")?;
    let statuses = read_statuses(take_list(&mut members, "schedule")?)?;
    if !is_end(&mut members) {
        return None;
    }
    if first >= MAX_THREADS as u64 {
        return None;
    }
    let first = first as u8;
    if !is_well_formed_schedule(first, exploring, &statuses) {
        return None;
    }
    Some(Node::Schedule(Schedule {
        preemptions: 0,
        switch: None,
        nearest: None,
        first: Some(first),
        exploring,
        statuses,
    }))
}

#[tactic(auto, unfolding(crate::specs::Checkpoint::Reader::load_of))]
fn read_load(object: &Map<String, Value>) -> Option<Node>
    ensures { result ≡ load_of (members_view object.now.entries) }
{
    let mut members = object.iter();
    let position = take_number(&mut members, "at")?;
    let exploring = take_flag(&mut members, "exploring")?;
    let readable = read_slots(take_list(&mut members, "load")?)?;
    if !is_end(&mut members) {
        return None;
    }
    if position >= MAX_ATOMIC_HISTORY as u64 {
        return None;
    }
    let position = position as u8;
    if !is_well_formed_load(exploring, &readable, position) {
        return None;
    }
    Some(Node::Load(Load {
        exploring,
        readable,
        position,
    }))
}

#[tactic(auto, unfolding(crate::specs::Checkpoint::Reader::spurious_of))]
fn read_spurious(object: &Map<String, Value>) -> Option<Node>
    ensures { result ≡ spurious_of (members_view object.now.entries) }
{
    let mut members = object.iter();
    let exploring = take_flag(&mut members, "exploring")?;
    let answer = take_flag(&mut members, "spurious")?;
    if !is_end(&mut members) {
        return None;
    }
    if !is_well_formed_spurious(exploring, answer) {
        return None;
    }
    Some(Node::Spurious(Spurious { exploring, answer }))
}

#[tactic(auto, unfolding(crate::specs::Checkpoint::Reader::node_of))]
pub(crate) fn read_node(value: &Value) -> Option<Node>
    ensures { result ≡ node_of (view value.now) }
{
    let object = value.as_object()?;
    if let Some(node) = read_schedule(object) {
        return Some(node);
    }
    if let Some(node) = read_load(object) {
        return Some(node);
    }
    read_spurious(object)
}

/// The parts of a path, each of its kind.
#[derive(Clone, Copy, Drop)]
pub(crate) struct Parts<'v> {
    pub(crate) exploring: bool,
    pub(crate) nodes: &'v Vec<Value>,
    pub(crate) order: &'v str,
    pub(crate) preemption_bound: Option<u64>,
    pub(crate) reduce: bool,
    pub(crate) version: u64,
}

#[tactic(auto, unfolding(crate::specs::Checkpoint::Reader::shape_of))]
pub(crate) fn read_parts(value: &Value) -> Option<Parts<'_>>
    ensures { shape_of (view value.now) ≡ option_map (λ p. record {
      exploring = p.exploring;
      nodes = map view p.nodes.now.items;
      order = p.order.now;
      preemption_bound = p.preemption_bound;
      reduce = p.reduce;
      version = p.version;
    }) result }
{
    let mut members = value.as_object()?.iter();
    let exploring = take_flag(&mut members, "exploring")?;
    let nodes = take_list(&mut members, "nodes")?;
    let order = take_text(&mut members, "order")?;
    let preemption_bound = take_bound(&mut members, "preemption_bound")?;
    let reduce = take_flag(&mut members, "reduce")?;
    let version = take_number(&mut members, "version")?;
    if !is_end(&mut members) {
        return None;
    }
    Some(Parts {
        exploring,
        nodes,
        order,
        preemption_bound,
        reduce,
        version,
    })
}

pub(crate) fn read_version(value: &Value) -> Option<u64>
    ensures { result ≡ version_of (view value.now) }
{
    value.get("version")?.as_u64()
}
