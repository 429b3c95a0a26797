//! What comes of what: which store is read, who gave a lock free that another thread has next, and who began or woke a thread.
use crate::event::Event;
use crate::picture::{Spot, Tie};
use crate::text::answers::{Answer, is_done, locked_by};
use crate::text::forms::{Call, Ties};
use crate::text::objects::Store;
use loom_objects::operation::{CondvarOp, Op, Reply, Request};
use std::alloc::Global;

/// What comes of an earlier line. The rows of its spots are lines.
#[derive(Clone, Copy)]
pub(crate) struct Link {
    pub(crate) tie: Tie,
    pub(crate) from: Spot,
    pub(crate) to: Spot,
}

/// Who a later line finds what was left at.
#[derive(Clone, Copy, PartialEq, Eq)]
enum At {
    Object(usize),
    Thread(usize),
}

/// What a line leaves for a later one: a lock that is free, a message, a notification, a token or a thread.
#[derive(Clone, Copy)]
struct Left {
    tie: Tie,
    at: At,
    spot: Spot,
}

/// A thread that sleeps on a condvar, and who has woken it.
#[derive(Clone, Copy)]
struct Sleeper {
    condvar: usize,
    thread: usize,
    woken: Option<Spot>,
}

/// A waker that has a place.
#[derive(Clone, Copy)]
struct Registered {
    place: usize,
    wakers: usize,
}

/// Where an event's operation takes effect.
#[derive(Clone, Copy)]
pub(crate) struct Effect {
    pub(crate) event: usize,
    /// In the line that tells it, or in the next one of its thread where none does.
    pub(crate) spot: Spot,
    /// Whether a line tells it.
    pub(crate) is_told: bool,
    /// Whether the thread woke by itself.
    pub(crate) by_itself: bool,
}

/// The links of a run's lines.
#[derive(Drop)]
pub(crate) struct Links {
    pub(crate) list: Vec<Link>,
    /// Where each event took effect, or is handed over as long as it hasn't.
    spots: Vec<Spot>,
    left: Vec<Left>,
    sleepers: Vec<Sleeper>,
    registered: Vec<Registered>,
    /// Whether memory was refused for something of this.
    pub(crate) is_refused: bool,
}

impl Links {
    pub(crate) fn new(alloc: Global) -> Links {
        Links {
            list: Vec::new(alloc),
            spots: Vec::new(alloc),
            left: Vec::new(alloc),
            sleepers: Vec::new(alloc),
            registered: Vec::new(alloc),
            is_refused: false,
        }
    }

    /// The event is handed over at this spot, and spawns this thread, if it does.
    pub(crate) fn hand_over(&mut self, event: &Event, spawned: Option<usize>, spot: Spot) {
        if self.spots.push(spot).is_err() {
            self.is_refused = true;
        }
        if let Reply::Start = event.told {
            self.tie_last(Tie::Spawn, At::Thread(spot.thread), spot);
        }
        if let Some(thread) = spawned {
            self.leave(Tie::Spawn, At::Thread(thread), spot);
        }
    }

    /// A stage of the operation has passed at this spot: the thread falls asleep on a condvar, or was woken.
    pub(crate) fn pass(&mut self, op: &Op<(), ()>, stage: u8, spot: Spot) {
        if let Request::Condvar(
            CondvarOp::Wait(condvar, mutex, _) | CondvarOp::WaitTimeout(condvar, mutex, _),
        ) = &op.request
        {
            if stage == 0 {
                self.leave(Tie::Lock, At::Object(*mutex), spot);
                self.sleep(*condvar, spot.thread);
            } else {
                self.rouse(*condvar, spot);
            }
        }
    }

    /// The operation of this form, with this argument if it is an object, has taken effect, with this reply, of which this is
    /// shown. What comes of it begins in the line that tells that, or else in the operation's own.
    pub(crate) fn settle(
        &mut self,
        effect: Effect,
        call: Call,
        argument: Option<usize>,
        reply: &Reply<()>,
        answer: Answer,
    ) {
        let Effect {
            spot,
            by_itself,
            ..
        } = effect;
        let from = self.begin(effect);
        if let Answer::Read(store, _) = answer {
            self.read(store, spot);
        }
        if let Some(lock) = locked_by(reply) {
            self.tie_next(lock, spot);
        }
        let object = At::Object(call.number);
        let is_done = is_done(call.form.deed, reply);
        match call.form.ties {
            Ties::Frees => self.leave(Tie::Lock, object, from),
            Ties::Notifies => self.leave(Tie::Wake, object, from),
            Ties::IsNotified if !by_itself => self.tie_last(Tie::Wake, object, spot),
            Ties::WakesOne => self.wake(call.number, 1, from),
            Ties::WakesAll => self.wake(call.number, usize::MAX, from),
            Ties::Sends if is_done => self.leave(Tie::Message, object, from),
            Ties::Receives if is_done => self.tie_first(Tie::Message, object, spot),
            Ties::Registers => self.register(call.number, argument),
            Ties::WakesRegistered => self.wake_registered(call.number, from),
            Ties::Unparks => self.leave(Tie::Wake, At::Thread(call.number), from),
            Ties::Parks => self.tie_last(Tie::Wake, At::Thread(spot.thread), spot),
            Ties::Joins => self.join(call.number, spot),
            Ties::Nothing | Ties::IsNotified | Ties::Sends | Ties::Receives => {}
        }
    }

    /// Where what comes of the effect begins.
    fn begin(&mut self, effect: Effect) -> Spot {
        match self.spots.get_mut(effect.event.wrapping_sub(1)) {
            Some(place) => {
                if effect.is_told {
                    *place = effect.spot;
                }
                *place
            }
            None => effect.spot,
        }
    }

    /// The store is read at this spot.
    pub(crate) fn read(&mut self, store: Store, spot: Spot) {
        if let Some(from) = self.spots.get(store.at.event.wrapping_sub(1)).copied() {
            self.tie(Tie::Read, from, spot);
        }
    }

    fn tie(&mut self, tie: Tie, from: Spot, to: Spot) {
        if self.list.push(Link { tie, from, to }).is_err() {
            self.is_refused = true;
        }
    }

    fn leave(&mut self, tie: Tie, at: At, spot: Spot) {
        if self.left.push(Left { tie, at, spot }).is_err() {
            self.is_refused = true;
        }
    }

    /// What was left last goes to this spot, and isn't there any more.
    fn tie_last(&mut self, tie: Tie, at: At, to: Spot) {
        let place = self.left.iter().rposition(|left| left.is_of(tie, at));
        self.tie_from(tie, place, to);
    }

    /// What was left first goes to this spot, and isn't there any more.
    fn tie_first(&mut self, tie: Tie, at: At, to: Spot) {
        let place = self.left.iter().position(|left| left.is_of(tie, at));
        self.tie_from(tie, place, to);
    }

    fn tie_from(&mut self, tie: Tie, place: Option<usize>, to: Spot) {
        if let Some(place) = place {
            if place < self.left.len() {
                let left = self.left.remove(place);
                self.tie(tie, left.spot, to);
            }
        }
    }

    /// The thread has the lock now, which another one has given free, or itself.
    fn tie_next(&mut self, lock: usize, to: Spot) {
        let mut left = self.left.iter().rev();
        let last = left
            .find(|left| left.is_of(Tie::Lock, At::Object(lock)))
            .copied();
        if let Some(left) = last {
            if left.spot.thread != to.thread {
                self.tie(Tie::Lock, left.spot, to);
            }
        }
    }

    /// The thread has ended, by which another one goes on at this spot.
    fn join(&mut self, thread: usize, to: Spot) {
        if let Some(from) = self.last_of(thread) {
            self.tie(Tie::Join, from, to);
        }
    }

    /// The spot of the thread's last event.
    fn last_of(&self, thread: usize) -> Option<Spot> {
        let mut spots = self.spots.iter().rev();
        spots.find(|spot| spot.thread == thread).copied()
    }

    fn sleep(&mut self, condvar: usize, thread: usize) {
        let sleeper = Sleeper {
            condvar,
            thread,
            woken: None,
        };
        if self.sleepers.push(sleeper).is_err() {
            self.is_refused = true;
        }
    }

    /// The first sleepers on the condvar are woken, at most so many.
    fn wake(&mut self, condvar: usize, most: usize, spot: Spot) {
        let mut count = 0usize;
        for sleeper in self.sleepers.iter_mut() {
            if sleeper.condvar == condvar && sleeper.woken.is_none() && count < most {
                sleeper.woken = Some(spot);
                count = count.saturating_add(1);
            }
        }
    }

    /// The thread sleeps on the condvar no more.
    fn rouse(&mut self, condvar: usize, to: Spot) {
        let place = self.sleepers.iter().position(|sleeper| sleeper.condvar == condvar
            && sleeper.thread == to.thread);
        if let Some(place) = place {
            if place < self.sleepers.len() {
                let sleeper = self.sleepers.remove(place);
                if let Some(from) = sleeper.woken {
                    self.tie(Tie::Wake, from, to);
                }
            }
        }
    }

    /// A waker of these, if that is known, is put into the place.
    fn register(&mut self, place: usize, wakers: Option<usize>) {
        if let Some(wakers) = wakers {
            if self.registered.push(Registered { place, wakers }).is_err() {
                self.is_refused = true;
            }
        }
    }

    /// A notification is left by the waker that the place has, if it has one.
    fn wake_registered(&mut self, place: usize, from: Spot) {
        if let Some(wakers) = self.registered_at(place) {
            self.leave(Tie::Wake, At::Object(wakers), from);
        }
    }

    /// The wakers of which one was registered last at the place.
    fn registered_at(&self, place: usize) -> Option<usize> {
        let mut registered = self.registered.iter().rev();
        let last = registered.find(|registered| registered.place == place)?;
        Some(last.wakers)
    }
}

impl Left {
    fn is_of(&self, tie: Tie, at: At) -> bool {
        self.tie == tie && self.at == at
    }
}
