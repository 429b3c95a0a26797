//! The objects of a run, in one list. To use one that isn't there, isn't whole or is of another kind is a misuse.
use crate::dependence::Action;
use crate::halt::NextReply;
use crate::kinds::{Kind, Step};
use crate::machine::Machine;
use crate::memory::push;
use crate::state::{Object, State};
use loom_objects::operation::Reply;
use loom_views::rt::failure::FailureKind;

impl Machine {
    /// What is left of the first object that has to be given back.
    pub fn leak(&self) -> Option<FailureKind> {
        self.objects.iter().find_map(|object| object.leak())
    }

    /// The object of this number, or the one that is nothing.
    pub fn at(&mut self, number: usize) -> &mut Object {
        self.objects
            .get_mut(number)
            .unwrap_or(&mut self.rest.nothing)
    }

    /// The object of this number, or the one that is nothing, to be read.
    pub fn read(&self, number: usize) -> &Object {
        self.objects.get(number).unwrap_or(&self.rest.nothing)
    }

    /// The object of this number, which is whole and of this kind.
    pub fn object(&mut self, number: usize, kind: Kind) -> &mut Object {
        let object = self.at(number);
        let is_usable = object.is_whole && object.kind == kind;
        self.check(is_usable, FailureKind::Misuse);
        self.at(number)
    }

    /// One object more, which has the next number. Where memory is refused the run can't be made.
    pub fn makes(&mut self, kind: Kind, value: Option<u64>) -> usize {
        let number = self.objects.len();
        let object = Object::new(self.alloc, kind, value);
        push(&mut self.objects, object, &mut self.halt);
        number
    }

    /// The active thread reaches a branch point, where it is to do this to the object, which is whole and of this kind.
    pub fn comes_to(&mut self, number: usize, kind: Kind, action: Action, step: Step) -> NextReply {
        self.object(number, kind);
        self.pends(number, action, step, false)
    }

    /// The active thread acquires from the object.
    pub fn acquires_from(&mut self, number: usize) {
        let point = self.at(number).point;
        self.acquire(point);
    }

    /// The active thread releases to the object.
    pub fn releases_to(&mut self, number: usize) {
        let point = self.at(number).point;
        let point = self.released_to(point);
        self.at(number).point = point;
    }

    /// The active thread holds the object, which it acquires from, and others that are pending on it are blocked.
    pub fn holds(&mut self, number: usize) {
        let active = self.active;
        self.at(number).holder = Some(active);
        self.acquires_from(number);
        self.set_pending(number, None, State::Blocked);
    }

    /// The active thread holds the object no more, which it releases to, and others that are pending on it go on.
    pub fn frees(&mut self, number: usize) {
        self.releases_to(number);
        self.at(number).holder = None;
        self.set_pending(number, None, State::Runnable);
    }

    /// The value of an object that nobody holds goes out. Whether the object may be used afterwards.
    pub fn lends(&mut self, number: usize, kind: Kind, is_whole: bool) -> NextReply {
        let active = self.active;
        let object = self.object(number, kind);
        let is_free = object.lent.is_none() && !object.is_open(true);
        let value = object.value;
        object.value = None;
        object.lent = Some(active);
        object.is_whole = is_whole;
        self.check(is_free, FailureKind::Misuse);
        Some(Reply::Data(self.required(value)))
    }

    /// The active thread, which has the value out, puts it back.
    pub fn puts(&mut self, number: usize, kind: Kind, value: u64) -> NextReply {
        let active = self.active;
        let object = self.object(number, kind);
        let is_out = object.lent == Some(active);
        object.lent = None;
        object.value = Some(value);
        self.check(is_out, FailureKind::Misuse);
        Some(Reply::Done)
    }

    /// One reference fewer, which the active thread releases to; who drops the last one acquires. Whether it was the last.
    pub fn drops_one(&mut self, number: usize) -> bool {
        self.releases_to(number);
        let object = self.at(number);
        object.count = object.count.saturating_sub(1);
        let is_last = object.count == 0;
        if is_last {
            object.is_whole = false;
            self.acquires_from(number);
        }
        is_last
    }
}
