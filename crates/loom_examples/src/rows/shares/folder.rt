//! The folder of a check whose parts are files. Each file is replaced as a whole.
use loom::checkpoint::file::FileStore;
use loom::{CheckpointStore, StoreError};
use std::alloc::AllocError;
use std::fs::{self, File};
use std::io;
use std::rt::Files;

/// The folder.
#[derive(Drop)]
pub(crate) struct Folder<'a, R> {
    rt: &'a R,
    path: &'a str,
}

impl<'a, R: AllocGlobal + Files> Folder<'a, R> {
    /// The folder of this name.
    pub(crate) fn new(rt: &'a R, path: &'a str) -> Folder<'a, R> {
        Folder { rt, path }
    }

    /// Makes the folder, where there is none.
    pub(crate) fn make(&self) -> io::Result<()> {
        fs::create_dir_all(self.rt, self.path)
    }

    /// The text of the file, or none where there is no such file.
    pub(crate) fn read(&self, file: &str) -> Result<Option<Vec<u8>>, StoreError> {
        let Ok(name) = self.name(file) else {
            return Err(StoreError::Memory);
        };
        FileStore::new(self.rt, self.rt.alloc(), name.as_str()).load(self.rt.alloc())
    }

    /// Gives the file this text.
    pub(crate) fn write(&self, file: &str, text: &str) -> Result<(), StoreError> {
        let Ok(name) = self.name(file) else {
            return Err(StoreError::Memory);
        };
        FileStore::new(self.rt, self.rt.alloc(), name.as_str()).save(text)
    }

    /// Removes the file, where there is one.
    pub(crate) fn remove(&self, file: &str) {
        if let Ok(name) = self.name(file) {
            let _ = fs::remove_file(self.rt, name.as_str());
        }
    }

    fn name(&self, file: &str) -> Result<String, AllocError> {
        let path = self.path;
        format!(in self.rt.alloc(); "{path}/{file}")
    }
}

impl<'a, R: AllocGlobal + Files<File = File>> Folder<'a, R> {
    /// The file, locked, or none where another process has it so. The lock lasts as long as the answer.
    pub(crate) fn lock(&self, file: &str) -> io::Result<Option<File>> {
        let path = self.path;
        let name = format!(in self.rt.alloc(); "{path}/{file}")?;
        let file = File::create(self.rt, name.as_str())?;
        match file.try_lock() {
            Ok(()) => Ok(Some(file)),
            Err(fs::TryLockError::WouldBlock) => Ok(None),
            Err(fs::TryLockError::Error(error)) => Err(error),
        }
    }
}
