//! What a run has made and done so far, and who has what, as far as its events tell.
use crate::text::answers::{
    Answer, answer_of, cell_touch, has_failed, is_done, order_of, outcome_of, taken_by, touch_of,
};
use crate::text::forms::{Beside, Call, Deed, Kind, call_of};
use crate::text::names::Thing;
use crate::text::objects::{Access, At, Hold, Manner, Member, Object, Reading, Store};
use loom_objects::label::Label;
use loom_objects::operation::{
    AtomicOp, AtomicWakerOp, CellOp, CondvarOp, Name, Op, Reply, Request, ThreadOp,
};
use loom_views::rt::MAX_ATOMIC_HISTORY;
use loom_views::rt::num::Numbers;
use std::alloc::Global;
use std::sync::atomic::Ordering;

/// What a run has made and done so far.
#[derive(Drop)]
pub(crate) struct World {
    /// By their numbers.
    pub(crate) objects: Vec<Object>,
    /// By their numbers.
    pub(crate) threads: Vec<Member>,
    pub(crate) stores: Vec<Store>,
    pub(crate) readings: Vec<Reading>,
    pub(crate) accesses: Vec<Access>,
    pub(crate) holds: Vec<Hold>,
    /// Whether memory was refused for something of this.
    pub(crate) is_refused: bool,
}

impl World {
    /// Main alone.
    pub(crate) fn new(alloc: Global) -> World {
        let mut world = World {
            objects: Vec::new(alloc),
            threads: Vec::new(alloc),
            stores: Vec::new(alloc),
            readings: Vec::new(alloc),
            accesses: Vec::new(alloc),
            holds: Vec::new(alloc),
            is_refused: false,
        };
        world.make_thread(None);
        world
    }

    /// The object of this number, if there is one.
    pub(crate) fn object(&self, number: usize) -> Option<Object> {
        self.objects.get(number).copied()
    }

    /// The object of this number, to be named.
    pub(crate) fn thing(&self, number: usize) -> Thing {
        Thing {
            number,
            object: self.object(number),
        }
    }

    /// Who has the object since when, of several the last one.
    pub(crate) fn holder(&self, object: usize) -> Option<At> {
        let hold = self.holds.iter().rev().find(|hold| hold.object == object)?;
        Some(hold.at)
    }

    /// The type of what the atomic holds.
    pub(crate) fn numbers(&self, atomic: usize) -> Numbers {
        match self.object(atomic) {
            Some(
                Object {
                    kind: Kind::Atomic(numbers),
                    ..
                },
            ) => numbers,
            _ => Numbers::U64,
        }
    }

    /// The type of what the operation's atomic holds.
    pub(crate) fn numbers_of(&self, op: AtomicOp) -> Numbers {
        match op.atomic() {
            Some(atomic) => self.numbers(atomic),
            None => Numbers::U64,
        }
    }

    /// The store in a slot: of the last seven of the atomic, the one whose number is the slot's modulo seven.
    pub(crate) fn store_in(&self, atomic: usize, slot: u8) -> Option<Store> {
        let mut stores = self.stores.iter().rev();
        stores
            .find(|store| {
                store.atomic == atomic && store.number % MAX_ATOMIC_HISTORY == usize::from(slot)
            })
            .copied()
    }

    /// The store in a slot of the atomic that the call is on.
    pub(crate) fn store_of(&self, call: Call, slot: u8) -> Option<Store> {
        self.store_in(call.object()?, slot)
    }

    /// The thread has this operation pending from now on, on a line; what it makes is made.
    pub(crate) fn hand_over(&mut self, at: At, line: usize, call: Call, op: &Op<(), ()>) {
        if let Some(member) = self.threads.get_mut(at.thread) {
            member.pending = at.event;
            member.line = line;
            member.stage = 0;
        }
        if let Some(kind) = call.made() {
            self.make(at, kind, op);
        }
    }

    fn make(&mut self, at: At, kind: Kind, op: &Op<(), ()>) {
        let number = self.objects.len();
        match kind.beside() {
            Beside::Nothing => {}
            Beside::Store => self.make_store(at, number, 0, None),
            Beside::Thread => self.make_thread(spawned_name(&op.request)),
            Beside::Notifier => self.make_object(at, Kind::Waking, None),
        }
        self.make_object(at, kind, op.label);
    }

    fn make_thread(&mut self, name: Option<Name>) {
        let member = Member {
            name,
            pending: 0,
            line: 0,
            stage: 0,
        };
        if self.threads.push(member).is_err() {
            self.is_refused = true;
        }
    }

    fn make_object(&mut self, at: At, kind: Kind, label: Option<Label>) {
        if kind.is_accessed() {
            let object = self.objects.len();
            self.note(object, Manner::Making, at);
        }
        let object = Object {
            kind,
            label,
            made: at,
            count: kind.first_count(),
            apart: None,
        };
        if self.objects.push(object).is_err() {
            self.is_refused = true;
        }
    }

    fn note(&mut self, object: usize, manner: Manner, at: At) {
        if self.accesses.push(Access { object, manner, at }).is_err() {
            self.is_refused = true;
        }
    }

    fn make_store(&mut self, at: At, atomic: usize, number: usize, order: Option<Ordering>) {
        let store = Store {
            atomic,
            number,
            at,
            order,
        };
        if self.stores.push(store).is_err() {
            self.is_refused = true;
        }
    }

    /// A stage of what the thread has pending has passed: which one, from 0. By that it may give a mutex free.
    pub(crate) fn pass(&mut self, thread: usize, op: &Op<(), ()>) -> u8 {
        let mut stage = 0;
        if let Some(member) = self.threads.get_mut(thread) {
            stage = member.stage;
            member.stage = stage.saturating_add(1);
        }
        if let Request::Condvar(
            CondvarOp::Wait(_, mutex, _) | CondvarOp::WaitTimeout(_, mutex, _),
        ) = &op.request
        {
            if stage == 0 {
                self.give(thread, *mutex);
            }
        }
        stage
    }

    /// What the thread had pending has taken effect, and this is its reply. The slot is that of the store that it read.
    pub(crate) fn settle(
        &mut self,
        at: At,
        op: &Op<(), ()>,
        reply: &Reply<()>,
        slot: Option<u8>,
    ) -> Answer {
        let call = call_of(&op.request, self);
        self.hold(at, call, reply);
        if is_done(call.form.deed, reply) {
            self.count(at, call.number, call.form.deed);
        }
        if let Some(member) = self.threads.get_mut(at.thread) {
            member.pending = 0;
        }
        if let Request::Atomic(op) = &op.request {
            return self.settle_atomic(at, *op, reply, slot);
        }
        if let Request::Cell(op) = &op.request {
            self.settle_cell(at, op);
        }
        if let Request::AtomicWaker(AtomicWakerOp::RegisterByRef(_, wakers)) = &op.request {
            self.count(at, *wakers, Deed::Clones);
        }
        answer_of(reply)
    }

    fn settle_cell(&mut self, at: At, op: &CellOp<()>) {
        if let Some((cell, manner)) = cell_touch(op) {
            self.note(cell, manner, at);
        }
        if let CellOp::Swap(_, other) = op {
            self.note(*other, Manner::CellWrite, at);
        }
    }

    fn settle_atomic(
        &mut self,
        at: At,
        op: AtomicOp,
        reply: &Reply<()>,
        slot: Option<u8>,
    ) -> Answer {
        let numbers = self.numbers_of(op);
        let has_failed = has_failed(op, reply, numbers);
        let Some(touch) = touch_of(op, has_failed) else {
            return Answer::Nothing;
        };
        let atomic = op.atomic().unwrap_or(0);
        let order = order_of(op, has_failed);
        self.note(atomic, touch.manner, at);
        let read = if touch.reads {
            self.read(at, atomic, slot, order, touch.noun)
        } else {
            None
        };
        let number = if touch.writes {
            self.write(at, atomic, order)
        } else {
            None
        };
        match (read, number) {
            (Some(store), _) => Answer::Read(store, outcome_of(reply, numbers)),
            (None, Some(number)) => Answer::Stored(number),
            (None, None) => answer_of(reply),
        }
    }

    /// The store in the slot is read.
    fn read(
        &mut self,
        at: At,
        atomic: usize,
        slot: Option<u8>,
        order: Ordering,
        noun: &'static str,
    ) -> Option<Store> {
        let store = self.store_in(atomic, slot?)?;
        let reading = Reading {
            at,
            store,
            order,
            noun,
        };
        if self.readings.push(reading).is_err() {
            self.is_refused = true;
        }
        Some(store)
    }

    /// A store is made: its number.
    fn write(&mut self, at: At, atomic: usize, order: Ordering) -> Option<usize> {
        let object = self.objects.get_mut(atomic)?;
        let number = object.count;
        object.count = number.saturating_add(1);
        self.make_store(at, atomic, number, Some(order));
        Some(number)
    }

    fn hold(&mut self, at: At, call: Call, reply: &Reply<()>) {
        if let Some(number) = taken_by(reply) {
            self.take(at, number);
        } else if let Deed::Gives = call.form.deed {
            self.give(at.thread, call.number);
        } else if matches!(call.form.deed, Deed::Takes) && is_done(call.form.deed, reply) {
            self.take(at, call.number);
        }
    }

    fn take(&mut self, at: At, object: usize) {
        if self.holds.push(Hold { object, at }).is_err() {
            self.is_refused = true;
        }
    }

    fn give(&mut self, thread: usize, object: usize) {
        let mut last = self.holds.len();
        for (place, hold) in self.holds.iter().enumerate() {
            if hold.object == object && hold.at.thread == thread {
                last = place;
            }
        }
        if last < self.holds.len() {
            self.holds.remove(last);
        }
    }

    fn count(&mut self, at: At, number: usize, deed: Deed) {
        let Some(object) = self.objects.get_mut(number) else {
            return;
        };
        match deed {
            Deed::Nothing | Deed::Makes | Deed::Takes | Deed::Gives => {}
            Deed::Clones | Deed::Sends => object.count = object.count.saturating_add(1),
            Deed::Drops | Deed::Receives => object.count = object.count.saturating_sub(1),
            Deed::Empties => object.count = 0,
            Deed::TakesApart => {
                object.count = 0;
                object.apart = Some(at.event);
            }
        }
    }
}

/// The name that a spawn gives its thread, if it gives one.
fn spawned_name(request: &Request<(), ()>) -> Option<Name> {
    if let Request::Thread(ThreadOp::Spawn(_, name)) = request {
        *name
    } else {
        None
    }
}
