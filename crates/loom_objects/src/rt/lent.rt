//! What a mutex, a lock, a cell or another object holds: it is in it, out with a thread, or was taken apart.
ghost use Rattle.loom_objects.specs.Lent as lending;
ghost use Rattle.loom_objects.specs.Lent.{is_number};
ghost use Rattle.std.specs.Prelude.{false, option_copied, ◌≡◌, OnSome, IfNone, true};

use crate::data::Data;
use crate::rt::kept::{Kept, copied_value};
use loom_views::same::Same;
use std::alloc::{AllocError, Global};

/// Data that an object hands out and takes back.
#[derive(Drop)]
pub struct Lent<D> {
    /// The data, while nobody has it.
    pub value: Option<D>,
    /// The thread that has the data out, without holding the object.
    pub lent: Option<u8>,
    /// Whether it was taken apart.
    pub is_taken: bool,
}

impl<D: Drop> Lent<D> {
    /// Data that nobody has.
    pub fn new(value: D) -> Lent<D>
        ensures { result ≡ lending.kept value }
    {
        Lent {
            value: Some(value),
            lent: None,
            is_taken: false,
        }
    }

    /// The data that is in. None where it is out or was taken apart.
    pub fn value(&self) -> Option<&D>
        ensures { option_copied result ≡ lending.value_in self.now }
    {
        if self.is_taken {
            return None;
        }
        self.value.as_ref()
    }

    /// The data is handed out to who holds the object. None where it is out or was taken apart: then nothing changes.
    pub fn take(&mut self) -> Option<D>
        ensures value { result ≡ lending.value_in self.old }
        ensures taken { OnSome result (self.new ≡ lending.handed_out self.old) }
        ensures none { IfNone result (self.new ≡ self.old) }
    {
        if self.is_taken {
            return None;
        }
        self.value.take()
    }

    /// The thread has the data, without holding the object. None where it is out or was taken apart: then nothing changes.
    pub fn lend(&mut self, thread: u8) -> Option<D>
        ensures value { result ≡ lending.value_in self.old }
        ensures lent { OnSome result (self.new ≡ lending.lent_to thread self.old) }
        ensures none { IfNone result (self.new ≡ self.old) }
    {
        let value = self.take()?;
        self.lent = Some(thread);
        Some(value)
    }

    /// The thread that has the data out puts some back. False where it hasn't; then nothing changes.
    pub fn put(&mut self, thread: u8, value: D) -> bool
        ensures result { result ≡ is_number self.old.lent thread }
        ensures put { result ≡ true → self.new ≡ lending.put_back value self.old }
        ensures same { result ≡ false → self.new ≡ self.old }
    {
        match self.lent {
            Some(holder) if holder == thread => {}
            _ => return false,
        }
        self.value = Some(value);
        self.lent = None;
        true
    }

    /// It is taken apart. None where the data is out or it was taken apart before: then nothing changes.
    pub fn take_apart(&mut self) -> Option<D>
        ensures value { result ≡ lending.value_in self.old }
        ensures taken { OnSome result (self.new ≡ lending.taken_apart self.old) }
        ensures none { IfNone result (self.new ≡ self.old) }
    {
        let value = self.take()?;
        self.is_taken = true;
        Some(value)
    }
}

impl<D: Data + Same> Kept for Lent<D> {
    fn copied(&self, _alloc: Global) -> Result<Lent<D>, AllocError> {
        Ok(Lent {
            value: copied_value(&self.value)?,
            lent: self.lent,
            is_taken: self.is_taken,
        })
    }

    fn is_equal(&self, other: &Lent<D>) -> bool {
        self.value.is_same(&other.value)
            && self.lent.is_same(&other.lent)
            && self.is_taken == other.is_taken
    }
}
