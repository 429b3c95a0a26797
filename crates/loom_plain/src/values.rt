//! Threads' own values, and values that are made once in a run.
use crate::halt::NextReply;
use crate::machine::Machine;
use crate::state::{Local, Phase};
use loom_objects::operation::{Keyed, Lazy, LazyOp, LocalOp, Reply};
use loom_views::rt::failure::FailureKind;
use loom_views::sequence::Sequence;
use std::mem;

impl Machine {
    // The active thread's own value of this key, or nothing in its place once it was given back. What is to be put takes its
    // place.
    fn local_value(&mut self, key: usize, put: Option<u64>) -> Option<Option<u64>> {
        for local in self.me().locals.iter_mut() {
            if local.key == key {
                let old = local.value;
                local.value = put.or(old);
                return Some(old);
            }
        }
        None
    }

    /// An operation of a thread's own values.
    pub fn local_begins(&mut self, op: LocalOp<u64>) -> NextReply {
        match op {
            LocalOp::With(key) => self.reads_local(key, true),
            LocalOp::TryWith(key) => self.reads_local(key, false),
            LocalOp::Init(key, value) => self.inits_local(key, value),
            LocalOp::Put(key, value) => {
                let old = self.local_value(key, Some(value)).flatten();
                Some(Reply::Data(self.required(old)))
            }
        }
    }

    // Replies the value of this key. Whether the run fails where it was given back.
    fn reads_local(&mut self, key: usize, is_needed: bool) -> NextReply {
        match self.local_value(key, None) {
            Some(Some(value)) => Some(Reply::Data(value)),
            Some(None) => {
                self.check(!is_needed, FailureKind::LocalGone);
                Some(Reply::AccessError)
            }
            None => Some(Reply::Absent),
        }
    }

    // The first value of the key.
    fn inits_local(&mut self, key: usize, value: u64) -> NextReply {
        let is_first = self.local_value(key, None).is_none();
        self.check(is_first, FailureKind::KeyTaken);
        let local = Local {
            key,
            value: Some(value),
        };
        let has_grown = self.me().locals.push(local).is_ok();
        self.grows(has_grown);
        Some(Reply::Data(value))
    }

    /// The active thread gives its own values back.
    pub fn takes_locals(&mut self) -> NextReply {
        let mut given = Sequence::new(self.alloc);
        let mut has_grown = true;
        for local in self.me().locals.iter_mut() {
            if let Some(value) = local.value.take() {
                let key = local.key;
                has_grown &= given.push(Keyed { key, value }).is_ok();
            }
        }
        self.grows(has_grown);
        Some(Reply::Locals(given))
    }

    // The value of this key, if it was made, once the active thread has acquired what its maker has seen.
    fn lazy(&mut self, key: usize) -> Option<u64> {
        let mut made = None;
        for lazy in self.rest.lazies.as_slice() {
            if lazy.key == key {
                made = Some((lazy.value, lazy.stamp));
            }
        }
        let (value, point) = made?;
        self.acquire(point);
        Some(value)
    }

    /// An operation of values that are made once in a run.
    pub fn lazy_begins(&mut self, op: LazyOp<u64>) -> NextReply {
        let is_open = matches!(self.thread(0).phase, Phase::Working);
        self.check(is_open, FailureKind::LazyShutdown);
        match op {
            LazyOp::Get(key) => match self.lazy(key) {
                Some(value) => Some(Reply::Data(value)),
                None => Some(Reply::Absent),
            },
            LazyOp::Init(key, value) => match self.lazy(key) {
                Some(made) => Some(Reply::Stood(made, value)),
                None => self.inits_lazy(key, value),
            },
        }
    }

    // The first value of the key.
    fn inits_lazy(&mut self, key: usize, value: u64) -> NextReply {
        let stamp = self.released_to(0);
        let has_grown = self.rest.lazies.push(Lazy { key, value, stamp }).is_ok();
        self.grows(has_grown);
        Some(Reply::Data(value))
    }

    /// The values that were made once in the run are given back.
    pub fn takes_lazies(&mut self) -> NextReply {
        let none = Sequence::new(self.alloc);
        Some(Reply::Lazies(mem::replace(&mut self.rest.lazies, none)))
    }
}
