//! A checkpoint's text in a file, and the file of a check.
ghost use Rattle.std.specs.Prelude.{Some, ◌≡◌, ◌↔◌, None, OnOk, OnErr, IfOk, IfSome, MatchOption, string_bytes};
ghost use Rattle.loom.specs.Model.Stores.{Counts, Keeps, KeepsFiles, KeepsOthers, KeepsThird, beside, text_in};

use crate::checkpoint::files::{HostFiles, TextFiles};
use crate::checkpoint::store::{CheckpointStore, StoreError};
use std::alloc::{AllocError, Global};
use std::rt::Files;

/// Keeps a checkpoint's text in a file, among those of the host or among others. A text is written into a file beside it, whose
/// name ends in `.new`, which then takes the file's name: wherever a save ends, by an error or with the program, the file has
/// the old text or the new one.
#[derive(Drop)]
pub struct FileStore<'a, F> {
    files: F,
    alloc: Global,
    path: &'a str,
}

impl<'a, R: Files> FileStore<'a, HostFiles<'a, R>> {
    /// The host's file of this name. A missing file gives no text.
    pub fn new(rt: &'a R, alloc: Global, path: &'a str) -> FileStore<'a, HostFiles<'a, R>>
        ensures named { result.path.now ≡ path.now }
        ensures faults { result.files.faults ≡ 0 }
    {
        FileStore::among(HostFiles::new(rt), alloc, path)
    }
}

impl<'a, F: TextFiles> FileStore<'a, F> {
    /// The file of this name among these files (own).
    pub fn among(files: F, alloc: Global, path: &'a str) -> FileStore<'a, F>
        ensures files { result.files ≡ files }
        ensures named { result.path.now ≡ path.now }
    {
        FileStore { files, alloc, path }
    }

    /// The files, of which it used this one and the one beside it.
    pub fn into_files(self) -> F
        ensures { result ≡ self.entry.files }
    {
        self.files
    }

    /// The name of the file beside it.
    fn beside(&self) -> Result<String, AllocError>
        ensures { IfOk result (λ name. string_bytes name ≡ beside self.now.path.now) }
    {
        let mut name = String::from_str(self.alloc, self.path)?;
        name.push_str(".new")?;
        Ok(name)
    }

    /// Gives the file this text, by way of another file.
    fn replace(&mut self, by: &str, text: &str) -> Result<(), StoreError>
        ensures same { self.new.path.now ≡ self.old.path.now }
        ensures held { OnOk result (F.holds self.new.files self.old.path.now (Some text.now)) }
        ensures kept { OnErr result (KeepsOthers by.now (F.holds self.old.files) (F.holds self.new.files)) }
        ensures others { KeepsThird by.now self.old.path.now (F.holds self.old.files) (F.holds self.new.files) }
        ensures faults { Counts result (F.fault_count self.old.files) (F.fault_count self.new.files) }
    {
        self.files.write(by, text)?;
        self.files.rename(by, self.path)
    }
}

impl<'a, F: TextFiles> CheckpointStore for FileStore<'a, F> {
    ghost gives = { λ store text. F.holds store.files store.path.now text };

    ghost holds = { λ store text. F.holds store.files store.path.now text };

    ghost fault_count = { λ store. F.fault_count store.files };

    fn load(&mut self, alloc: Global) -> Result<Option<Vec<u8>>, StoreError>
        ensures given { IfOk result (λ text. F.holds self.old.files self.old.path.now (text_in text)) }
        ensures held { IfOk result (λ text. F.holds self.new.files self.new.path.now (text_in text)) }
        ensures kept { Keeps (F.holds self.old.files self.old.path.now) (F.holds self.new.files self.new.path.now) }
        ensures faults { Counts result (F.fault_count self.old.files) (F.fault_count self.new.files) }
        ensures same { self.new.path.now ≡ self.old.path.now }
        ensures files { KeepsFiles (F.holds self.old.files) (F.holds self.new.files) }
    {
        self.files.read(alloc, self.path)
    }

    /// No other file is changed but the one beside it, which is removed after an error, where it can be.
    fn save(&mut self, text: &str) -> Result<(), StoreError>
        ensures held { OnOk result (F.holds self.new.files self.new.path.now (Some text.now)) }
        ensures kept { OnErr result (Keeps (F.holds self.old.files self.old.path.now) (F.holds self.new.files self.new.path.now)) }
        ensures faults { Counts result (F.fault_count self.old.files) (F.fault_count self.new.files) }
        ensures same { self.new.path.now ≡ self.old.path.now }
        ensures others { KeepsThird (beside self.old.path.now) self.old.path.now (F.holds self.old.files) (F.holds self.new.files) }
    {
        let Ok(beside) = self.beside() else {
            return Err(StoreError::Memory);
        };
        let beside = beside.as_str();
        let answer = self.replace(beside, text);
        if answer.is_err() {
            self.files.remove(beside);
        }
        answer
    }

    fn faults(&self) -> u64 {
        self.files.faults()
    }
}

/// The store of a check: the host's file of this name, or none without a name.
pub fn file_store<'a, R: Files>(
    rt: &'a R,
    alloc: Global,
    name: &'a Option<String>,
) -> Option<FileStore<'a, HostFiles<'a, R>>>
    ensures some { (result ≡ None) ↔ (name.now ≡ None) }
    ensures named { IfSome result (λ store. MatchOption name.now (Unit {0}) (λ name. store.path.now ≡ string_bytes name)) }
    ensures faults { IfSome result (λ store. store.files.faults ≡ 0) }
{
    Some(FileStore::new(rt, alloc, name.as_ref()?.as_str()))
}
