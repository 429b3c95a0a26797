//! A node of a path as a word of 64 bits, and the fields of that word (own). Only this file knows which bits a field is. Its
//! functions are inlined, so that who asks for one field of a node reads no other.

ghost use Rattle.std.specs.Prelude.{◌≡◌, ◌<◌, ◌≤◌, ◌+◌, ◌*◌, ◌^◌, ◌↔◌, ℕ, List, Option, IfSome, IsTrue, None, Some, if◌then◌else◌, map, length, slice_index};
ghost use Rattle.std.specs.List.{position_from};
ghost use Rattle.loom_engine.specs.Walk.Path.{advance};
ghost use Rattle.loom_objects.specs.Tree.Question.{made_of};
ghost use Rattle.loom_objects.specs.Tree.Asked.{which_thread};
ghost use Rattle.loom_objects.specs.Tree.Stores.{slots};
ghost use Rattle.loom_engine.specs.Path.Nodes.{ability_of, active_thread, is_active, is_pending, seen, seen_load, seen_schedule, IsWell, IsWellLoad};
ghost use Rattle.loom_engine.specs.Path.Words.{bits, bit, beside, first_number, status_number, first_of, status_of, is_one, status_in, statuses_in, may_read_in, readable_in, explores_in, schedule_in, load_in, spurious_in, node_in, word_of, places_of, IsSet, IsFit};

use crate::rt::path::node::{
    Load, Node, Places, Schedule, Spurious, Status, are_same_abilities, is_same_thread,
};
use loom_objects::choice::Choice;
use loom_objects::rt::schedule::{Ability, Offers};
use loom_views::rt::{MAX_ATOMIC_HISTORY, MAX_THREADS};

// which kind of node a word is, in its bits 0 and 1
const SCHEDULE: u64 = 0;

const LOAD: u64 = 1;

const SPURIOUS: u64 = 2;

/// So many bits of a word, from the low one on.
#[inline(always)]
fn bits(word: u64, low: u32, count: u32) -> u64
    requires low { low < 64 }
    requires few { count < 64 }
    ensures { result ≡ bits word low count }
{
    (word >> low) % (1 << count)
}

/// The word with another number in these bits.
#[inline(always)]
fn set(word: u64, low: u32, count: u32, number: u64) -> u64
    requires low { low < 64 }
    requires few { count < 64 }
    requires within { low + count ≤ 64 }
    requires fits { number < 2 ^ count }
    ensures { IsSet low count number word result }
{
    word - (bits(word, low, count) << low) + ((number % (1 << count)) << low)
}

/// Whether the run explores at the node (own).
#[inline(always)]
pub fn explores(word: u64) -> bool
    ensures { result ≡ explores_in word }
{
    bits(word, 2, 1) != 0
}

/// The word of a node at which the run explores, or doesn't (own).
#[inline(always)]
pub fn set_explores(word: u64, explores: bool) -> u64
    ensures { IsSet 2 1 (bit explores) word result }
{
    set(word, 2, 1, number(explores))
}

/// The default thread of a schedule (own).
#[inline(always)]
pub fn first(word: u64) -> Option<u8>
    ensures { result ≡ first_of (bits word 3 3) }
{
    let thread = bits(word, 3, 3);
    if thread == 7 {
        None
    } else {
        Some(thread as u8)
    }
}

/// The word of a schedule with this default thread (own).
#[inline(always)]
pub fn set_first(word: u64, first: Option<u8>) -> u64
    requires { IfSome first (λ thread. thread < 7) }
    ensures { IsSet 3 3 (first_number first) word result }
{
    let number = match first {
        Some(thread) => thread as u64,
        None => 7,
    };
    set(word, 3, 3, number)
}

/// The status of a thread at a schedule (own).
#[inline(always)]
pub fn status(word: u64, thread: usize) -> Status
    requires { thread < 5 }
    ensures { result ≡ status_in word thread }
{
    status_of(bits(word, 6 + 3 * thread as u32, 3))
}

/// What the threads offered when the schedule was made (own).
#[inline(always)]
fn abilities(word: u64) -> [Ability; MAX_THREADS]
    ensures { result ≡ map ability_of (statuses_in word) }
{
    [
        status(word, 0).ability(),
        status(word, 1).ability(),
        status(word, 2).ability(),
        status(word, 3).ability(),
        status(word, 4).ability(),
    ]
}

/// Whether the schedule that a word is is the one that would be made now, whatever was tried there (own).
#[inline(always)]
pub fn meets(word: u64, exploring: bool, offers: &Offers) -> bool
    ensures { (notes : Places) (places : List (Option ℕ)) → IsTrue result ↔ ((seen_schedule (schedule_in word notes)).made ≡ made_of (which_thread exploring offers.now places)) }
{
    explores(word) == exploring
        && is_same_thread(first(word), offers.default)
        && are_same_abilities(&abilities(word), &offers.abilities)
}

/// The thread that is the choice at a schedule (own).
#[inline(always)]
pub fn active(word: u64) -> Option<u8>
    ensures lowest { result ≡ active_thread (statuses_in word) }
    ensures within { IfSome result (λ thread. thread < 5) }
{
    if status(word, 0).is_active() {
        Some(0)
    } else if status(word, 1).is_active() {
        Some(1)
    } else if status(word, 2).is_active() {
        Some(2)
    } else if status(word, 3).is_active() {
        Some(3)
    } else if status(word, 4).is_active() {
        Some(4)
    } else {
        None
    }
}

/// The lowest thread that is to be tried at a schedule (own).
#[inline(always)]
pub fn pending(word: u64) -> Option<u8>
    ensures { result ≡ position_from is_pending 0 (statuses_in word) }
{
    if status(word, 0).is_pending() {
        Some(0)
    } else if status(word, 1).is_pending() {
        Some(1)
    } else if status(word, 2).is_pending() {
        Some(2)
    } else if status(word, 3).is_pending() {
        Some(3)
    } else if status(word, 4).is_pending() {
        Some(4)
    } else {
        None
    }
}

/// The word of a schedule at which the thread has this status (own).
#[inline(always)]
pub fn set_status(word: u64, thread: usize, status: Status) -> u64
    requires { thread < 5 }
    ensures { IsSet (6 + 3 * thread) 3 (status_number status) word result }
{
    set(word, 6 + 3 * thread as u32, 3, status_number(status))
}

/// How many preemptions the run counts up to a schedule (own).
#[inline(always)]
pub fn preemptions(word: u64) -> u32
    ensures { result ≡ bits word 32 32 }
{
    bits(word, 32, 32) as u32
}

/// The word of a schedule up to which the run counts so many preemptions (own).
#[inline(always)]
pub fn set_preemptions(word: u64, preemptions: u32) -> u64
    ensures { IsSet 32 32 preemptions word result }
{
    set(word, 32, 32, preemptions as u64)
}

/// Whether a load may read this slot (own).
#[inline(always)]
pub fn may_read(word: u64, slot: usize) -> bool
    requires { slot < 7 }
    ensures { result ≡ may_read_in word slot }
{
    bits(word, 3 + slot as u32, 1) != 0
}

/// The word of a load that may read this slot, or may not (own).
#[inline(always)]
pub fn set_may_read(word: u64, slot: usize, may_read: bool) -> u64
    requires { slot < 7 }
    ensures { IsSet (3 + slot) 1 (bit may_read) word result }
{
    set(word, 3 + slot as u32, 1, number(may_read))
}

/// The place of the choice among the slots that a load may read (own).
#[inline(always)]
pub fn position(word: u64) -> u8
    ensures { result ≡ bits word 10 3 }
{
    bits(word, 10, 3) as u8
}

/// The word of a load whose choice has this place among the slots that it may read (own).
#[inline(always)]
pub fn set_position(word: u64, position: u8) -> u64
    requires { position < 8 }
    ensures { IsSet 10 3 position word result }
{
    set(word, 10, 3, position as u64)
}

/// The choice at a spurious wake-up (own).
#[inline(always)]
pub fn answer(word: u64) -> bool
    ensures { result ≡ is_one (bits word 3 1) }
{
    bits(word, 3, 1) != 0
}

/// The word of a spurious wake-up with this choice (own).
#[inline(always)]
pub fn set_answer(word: u64, answer: bool) -> u64
    ensures { IsSet 3 1 (bit answer) word result }
{
    set(word, 3, 1, number(answer))
}

/// The node that a word is, with the places beside it (own).
#[inline(always)]
pub fn node(word: u64, places: Places) -> Node
    ensures { result ≡ node_in word places }
{
    match bits(word, 0, 2) {
        SCHEDULE => Node::Schedule(schedule(word, places)),
        LOAD => Node::Load(load(word)),
        _ => Node::Spurious(spurious(word)),
    }
}

/// How many slots a load may read (own).
#[inline(always)]
fn slot_count(word: u64) -> u64
    ensures { result ≡ length (slots (readable_in word)) }
{
    number(may_read(word, 0))
        + number(may_read(word, 1))
        + number(may_read(word, 2))
        + number(may_read(word, 3))
        + number(may_read(word, 4))
        + number(may_read(word, 5))
        + number(may_read(word, 6))
}

/// Whether the place is the last of so many, or above.
#[inline(always)]
fn is_last(place: u8, count: u64) -> bool
    ensures { IsTrue result → count ≤ place + 1 }
{
    count <= place as u64 + 1
}

/// Whether a load has nothing left to read: the run doesn't explore there, or no slot comes after its choice (own).
#[inline(always)]
fn is_read(word: u64) -> bool
    requires { IsWellLoad (load_in word) }
    ensures { IsTrue result → advance (seen_load (load_in word)) ≡ None }
{
    if !explores(word) {
        return true;
    }
    is_last(position(word), slot_count(word))
}

/// Whether the node that a word is is seen to have nothing left to try: no thread of a schedule is pending, or no slot of a
/// load comes after its choice (own).
#[inline(always)]
pub fn is_done(word: u64) -> bool
    requires { (places : Places) → IsWell (node_in word places) }
    ensures { IsTrue result → (places : Places) → advance (seen (node_in word places)) ≡ None }
{
    match bits(word, 0, 2) {
        SCHEDULE => pending(word).is_none(),
        LOAD => is_read(word),
        _ => false,
    }
}

/// What was chosen at the node that a word is, whatever is beside it (own).
#[inline(always)]
pub fn choice(word: u64) -> Choice
    ensures { (places : Places) → result ≡ (seen (node_in word places)).present }
{
    match bits(word, 0, 2) {
        SCHEDULE => Choice::Thread(drawn_thread(word)),
        LOAD => Choice::Load(drawn_slot(word)),
        _ => Choice::Spurious(answer(word)),
    }
}

/// `active`, where the thread was drawn.
// Each status is looked at, whichever thread it is, and nothing is skipped: what is drawn can't be foretold.
#[inline(always)]
fn drawn_thread(word: u64) -> Option<u8>
    ensures { result ≡ active_thread (statuses_in word) }
{
    let mut thread = 0u8;
    let mut is_found = false;
    'threads: for place in 0..MAX_THREADS {
        is_found |= status(word, place).is_active();
        thread += u8::from(!is_found);
    }
    if is_found { Some(thread) } else { None }
}

/// The slot of a load's choice, where it was drawn.
// As in `drawn_thread`.
#[inline(always)]
fn drawn_slot(word: u64) -> u8
    ensures { result ≡ slice_index (slots (readable_in word)) (bits word 10 3) }
{
    let place = u64::from(position(word));
    let mut slot = 0u8;
    let mut count = 0u64;
    'slots: for at in 0..MAX_ATOMIC_HISTORY {
        count += number(may_read(word, at));
        slot += u8::from(count <= place);
    }
    if place < count { slot } else { 0 }
}

#[inline(always)]
fn schedule(word: u64, places: Places) -> Schedule
    ensures { result ≡ schedule_in word places }
{
    Schedule {
        preemptions: preemptions(word),
        switch: places.switch,
        nearest: places.nearest,
        first: first(word),
        exploring: explores(word),
        statuses: [
            status(word, 0),
            status(word, 1),
            status(word, 2),
            status(word, 3),
            status(word, 4),
        ],
    }
}

#[inline(always)]
fn load(word: u64) -> Load
    ensures { result ≡ load_in word }
{
    Load {
        exploring: explores(word),
        readable: [
            may_read(word, 0),
            may_read(word, 1),
            may_read(word, 2),
            may_read(word, 3),
            may_read(word, 4),
            may_read(word, 5),
            may_read(word, 6),
        ],
        position: position(word),
    }
}

#[inline(always)]
fn spurious(word: u64) -> Spurious
    ensures { result ≡ spurious_in word }
{
    Spurious {
        exploring: explores(word),
        answer: answer(word),
    }
}

/// The word that a node is (own).
#[inline(always)]
pub fn of_node(node: &Node) -> u64
    requires { IsFit node.now }
    ensures laid_out { result ≡ word_of node.now }
    ensures read { node_in result (places_of node.now) ≡ node.now }
{
    match node {
        Node::Schedule(schedule) => of_schedule(schedule),
        Node::Load(load) => of_load(load),
        Node::Spurious(spurious) => of_spurious(spurious),
    }
}

#[inline(always)]
fn of_schedule(schedule: &Schedule) -> u64
    requires { IsFit (Node.Schedule schedule.now) }
    ensures laid_out { result ≡ word_of (Node.Schedule schedule.now) }
    ensures counted { schedule.now.preemptions < 2 ^ 32 }
{
    let word = set_explores(SCHEDULE, schedule.exploring);
    let word = set_first(word, schedule.first);
    let word = set_statuses(word, &schedule.statuses);
    set_preemptions(word, schedule.preemptions)
}

#[inline(always)]
fn of_load(load: &Load) -> u64
    requires { IsFit (Node.Load load.now) }
    ensures { result ≡ word_of (Node.Load load.now) }
{
    let word = set_explores(LOAD, load.exploring);
    let word = set_readable(word, &load.readable);
    set_position(word, load.position)
}

#[inline(always)]
fn of_spurious(spurious: &Spurious) -> u64
    ensures { result ≡ word_of (Node.Spurious spurious.now) }
{
    let word = set_explores(SPURIOUS, spurious.exploring);
    set_answer(word, spurious.answer)
}

/// The word with these statuses, in which nothing is there or above.
#[inline(always)]
fn set_statuses(word: u64, statuses: &[Status; MAX_THREADS]) -> u64
    requires { word < 2 ^ 6 }
    ensures { result ≡ word + 2 ^ 6 * beside 3 (map status_number statuses.now) }
{
    let word = set_status(word, 0, statuses[0]);
    let word = set_status(word, 1, statuses[1]);
    let word = set_status(word, 2, statuses[2]);
    let word = set_status(word, 3, statuses[3]);
    set_status(word, 4, statuses[4])
}

/// The word with these slots, in which nothing is there or above.
#[inline(always)]
fn set_readable(word: u64, readable: &[bool; MAX_ATOMIC_HISTORY]) -> u64
    requires { word < 2 ^ 3 }
    ensures { result ≡ word + 2 ^ 3 * beside 1 (map bit readable.now) }
{
    let word = set_may_read(word, 0, readable[0]);
    let word = set_may_read(word, 1, readable[1]);
    let word = set_may_read(word, 2, readable[2]);
    let word = set_may_read(word, 3, readable[3]);
    let word = set_may_read(word, 4, readable[4]);
    let word = set_may_read(word, 5, readable[5]);
    set_may_read(word, 6, readable[6])
}

/// The places that a node notes beside its word (own).
#[inline(always)]
pub fn places_of(node: &Node) -> Places
    ensures { result ≡ places_of node.now }
{
    match node {
        Node::Schedule(schedule) => Places {
            switch: schedule.switch,
            nearest: schedule.nearest,
        },
        Node::Load(_) | Node::Spurious(_) => Places {
            switch: None,
            nearest: None,
        },
    }
}

#[inline(always)]
fn number(holds: bool) -> u64
    ensures number { result ≡ bit holds }
    ensures small { result < 2 }
{
    if holds { 1 } else { 0 }
}

#[inline(always)]
fn status_number(status: Status) -> u64
    ensures number { result ≡ status_number status }
    ensures small { result < 8 }
{
    match status {
        Status::Disabled => 0,
        Status::Skip => 1,
        Status::Yield => 2,
        Status::Pending => 3,
        Status::Active => 4,
        Status::Visited => 5,
    }
}

#[inline(always)]
fn status_of(number: u64) -> Status
    ensures { result ≡ status_of number }
{
    match number {
        0 => Status::Disabled,
        1 => Status::Skip,
        2 => Status::Yield,
        3 => Status::Pending,
        4 => Status::Active,
        _ => Status::Visited,
    }
}
