//! A thread's own values, and values that are made once a run (loom's `thread.rs` and `lazy_static.rs`).
ghost use Rattle.std.specs.Prelude.{◌≡◌, ◌++◌, ◌∷◌, [], OnOk, Some, option_copied, option_map, slice_get};
ghost use Rattle.std.specs.List.{find, position_from};
ghost use Rattle.loom_objects.specs.Rules.Moves as moves;
ghost use Rattle.loom_objects.specs.Rules.Thread.{without_locals};
ghost use Rattle.loom_objects.specs.Rules.Locals as rules;
ghost use Rattle.loom_objects.specs.Rules.Locals.{has_key, is_of, is_taken, local_at, local_of, main_works, put_in, value_of};

use crate::operation::{Keyed, Lazy};
use crate::rt::scene::Scene;
use crate::rt::thread::{Phase, Thread};
use loom_views::sequence::Sequence;
use std::alloc::AllocError;
use std::mem;

impl<D> Thread<D> {
    /// Its value of this key, if there is one.
    pub fn local(&self, key: usize) -> Option<&Keyed<D>>
        ensures { option_copied result ≡ local_at key self.now }
    {
        self.locals.as_slice().iter().find(|local| local.key == key)
    }

    /// Whether the key has or had a value.
    pub fn has_had(&self, key: usize) -> bool
        ensures { result ≡ is_taken key self.now }
    {
        self.keys.as_slice().iter().any(|other| *other == key)
    }
}

/// The place of the value of this key, if there is one.
fn place_of<D>(locals: &Sequence<Keyed<D>>, key: usize) -> Option<usize>
    ensures { result ≡ position_from (has_key key) 0 locals.now }
{
    locals.as_slice().iter().position(|local| local.key == key)
}

/// The value takes the place of the one of this key, which is answered. None where there is none; then nothing changes.
fn put_in<D: Drop>(locals: &mut Sequence<Keyed<D>>, key: usize, value: D) -> Option<D>
    ensures old { result ≡ value_of (find (has_key key) locals.old) }
    ensures new { locals.new ≡ put_in key value locals.old }
{
    let place = place_of(locals, key)?;
    Some(mem::replace(&mut locals.at_mut(place).value, value))
}

impl<D: Drop> Scene<D> {
    /// The active thread has the first value of this key. An error where memory is refused.
    pub fn init_local(&mut self, key: usize, value: D) -> Result<(), AllocError>
        ensures { OnOk result (self.new ≡ record self.old { threads = moves.with_thread (rules.with_local key value) self.old.active self.old.threads }) }
    {
        let thread = self.threads.at_mut(self.active as usize);
        thread.locals.push(Keyed { key, value })?;
        thread.keys.push(key)
    }

    /// The value takes the place of the active thread's one of this key, which is answered. None where it has none; then nothing
    /// changes.
    pub fn put_local(&mut self, key: usize, value: D) -> Option<D>
        ensures old { result ≡ value_of (local_of key (slice_get self.old.threads self.old.active)) }
        ensures put { self.new ≡ record self.old { threads = moves.with_thread (λ thread. record thread { locals = put_in key value thread.locals }) self.old.active self.old.threads } }
    {
        let thread = self.threads.at_mut(self.active as usize);
        put_in(&mut thread.locals, key, value)
    }

    /// The active thread gives its own values back, in the order made.
    pub fn take_locals(&mut self) -> Sequence<Keyed<D>>
        ensures locals { option_map (λ thread. thread.locals) (slice_get self.old.threads self.old.active) ≡ Some result }
        ensures rest { self.new ≡ record self.old { threads = moves.with_thread without_locals self.old.active self.old.threads } }
    {
        let none = Sequence::new(self.alloc);
        let thread = self.threads.at_mut(self.active as usize);
        mem::replace(&mut thread.locals, none)
    }

    /// Whether the values that are made once may be used: main hasn't finished.
    pub fn is_open(&self) -> bool
        ensures { result ≡ main_works (slice_get self.now.threads 0) }
    {
        match self.threads.at(0).phase {
            Phase::Working => true,
            Phase::Finished | Phase::Exited | Phase::Over => false,
        }
    }

    /// The value of this key that was made once, if there is one.
    pub fn lazy(&self, key: usize) -> Option<&Lazy<D>>
        ensures { option_copied result ≡ find (is_of key) self.now.lazies }
    {
        self.lazies.as_slice().iter().find(|lazy| lazy.key == key)
    }

    /// A value more that is made once, whose maker releases to this stamp. An error where memory is refused.
    pub fn add_lazy(&mut self, key: usize, value: D, stamp: usize) -> Result<(), AllocError>
        ensures { OnOk result (self.new ≡ record self.old { lazies = self.old.lazies ++ record { key = key; value = value; stamp = stamp } ∷ [] }) }
    {
        self.lazies.push(Lazy { key, value, stamp })
    }

    /// The values that were made once are given back, in the order made.
    pub fn take_lazies(&mut self) -> Sequence<Lazy<D>>
        ensures lazies { result ≡ self.old.lazies }
        ensures rest { self.new ≡ record self.old { lazies = [] } }
    {
        let none = Sequence::new(self.alloc);
        mem::replace(&mut self.lazies, none)
    }
}
