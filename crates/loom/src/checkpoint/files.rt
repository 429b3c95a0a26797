//! Files by name, each with a text, and those of the host.
ghost use Rattle.std.specs.Prelude.{ℕ, List, Option, Some, ◌≡◌, IfOk, OnOk, OnErr};
ghost use Rattle.loom.specs.Model.Stores.{Counts, IsCounted, KeepsFiles, KeepsOthers, Moves, text_in};

use crate::checkpoint::store::StoreError;
use std::alloc::Global;
use std::fs::{self, File, OpenFile};
use std::io::{self, ErrorKind, Read, Write};
use std::rt::Files;

/// Files by name, each with a text (own).
pub trait TextFiles {
    /// What the file of a name may hold: a text, or none where there is no such file. One of which nothing is known may hold
    /// anything.
    ghost holds: { Self → List ℕ → Option (List ℕ) → Type 0 };

    /// How many faults their calls have met, up to the highest number of 64 bits.
    ghost fault_count: { Self → ℕ };

    /// The text of the file, or none where there is no such file.
    fn read(&mut self, alloc: Global, name: &str) -> Result<Option<Vec<u8>>, StoreError>
        ensures given { IfOk result (λ text. holds self.old name.now (text_in text)) }
        ensures kept { KeepsFiles (holds self.old) (holds self.new) }
        ensures faults { Counts result (fault_count self.old) (fault_count self.new) };

    /// Gives the file this text, and makes it where there is none. The text is on the disk where the answer is `Ok`. After an
    /// error this file may hold anything.
    fn write(&mut self, name: &str, text: &str) -> Result<(), StoreError>
        ensures written { OnOk result (holds self.new name.now (Some text.now)) }
        ensures others { KeepsOthers name.now (holds self.old) (holds self.new) }
        ensures faults { Counts result (fault_count self.old) (fault_count self.new) };

    /// Gives a file another name, in place of the file that had it. After an error each file holds what it held.
    fn rename(&mut self, from: &str, to: &str) -> Result<(), StoreError>
        ensures moved { OnOk result (Moves from.now to.now (holds self.old) (holds self.new)) }
        ensures kept { OnErr result (KeepsFiles (holds self.old) (holds self.new)) }
        ensures faults { Counts result (fault_count self.old) (fault_count self.new) };

    /// Removes the file, where that can be done. What hinders it is passed over.
    fn remove(&mut self, name: &str)
        ensures others { KeepsOthers name.now (holds self.old) (holds self.new) }
        ensures faults { fault_count self.new ≡ fault_count self.old };

    /// How many faults their calls have met.
    fn faults(&self) -> u64
        ensures { result ≡ fault_count self.now };
}

/// The files of the host. Nothing is known of what they hold.
#[derive(Drop)]
pub struct HostFiles<'a, R> {
    rt: &'a R,
    faults: u64,
}

impl<'a, R: Files> HostFiles<'a, R> {
    /// The files, whose calls have met no fault yet.
    pub fn new(rt: &'a R) -> HostFiles<'a, R>
        ensures { result.faults ≡ 0 }
    {
        HostFiles { rt, faults: 0 }
    }

    /// What an error of a file means here. A fault is counted.
    fn refused(&mut self, error: io::Error) -> StoreError
        ensures { IsCounted self.old.faults self.new.faults result }
    {
        if error.kind() == ErrorKind::OutOfMemory {
            return StoreError::Memory;
        }
        self.faults = self.faults.saturating_add(1);
        StoreError::Fault
    }

    /// The bytes of the file.
    fn bytes_of(&self, alloc: Global, name: &str) -> io::Result<Vec<u8>> {
        let mut bytes = Vec::new(alloc);
        File::open(self.rt, name)?.read_to_end(&mut bytes)?;
        Ok(bytes)
    }

    /// Writes the text, and waits until it is on the disk.
    fn write_through(&self, name: &str, text: &str) -> io::Result<()> {
        let mut file = File::create(self.rt, name)?;
        file.write_all(text.as_bytes())?;
        file.sync_all()
    }
}

impl<'a, R: Files> TextFiles for HostFiles<'a, R> {
    ghost holds = { λ _ _ _. Unit {0} };

    ghost fault_count = { λ files. files.faults };

    fn read(&mut self, alloc: Global, name: &str) -> Result<Option<Vec<u8>>, StoreError> {
        match self.bytes_of(alloc, name) {
            Ok(bytes) => Ok(Some(bytes)),
            Err(error) => {
                if error.kind() == ErrorKind::NotFound {
                    return Ok(None);
                }
                Err(self.refused(error))
            }
        }
    }

    fn write(&mut self, name: &str, text: &str) -> Result<(), StoreError> {
        match self.write_through(name, text) {
            Ok(()) => Ok(()),
            Err(error) => Err(self.refused(error)),
        }
    }

    fn rename(&mut self, from: &str, to: &str) -> Result<(), StoreError> {
        match fs::rename(self.rt, from, to) {
            Ok(()) => Ok(()),
            Err(error) => Err(self.refused(error)),
        }
    }

    fn remove(&mut self, name: &str) {
        let _ = fs::remove_file(self.rt, name);
    }

    fn faults(&self) -> u64 {
        self.faults
    }
}
