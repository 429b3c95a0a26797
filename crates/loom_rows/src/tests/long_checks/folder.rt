//! A folder in memory with a file and the one beside it. One of its calls fails, or each from one on.
use std::alloc::{Allocator, Global};
use std::cell::{Cell, RefCell};
use std::fs::{Metadata, OpenFile, OpenOptions};
use std::io::{self, ErrorKind, Read, Seek, SeekFrom, Write};
use std::rt::Files;

// The name of the file.
pub(super) const NAME: &str = "search.json";

// The name of the file beside it.
const BESIDE: &str = "search.json.new";

// How many bytes a read or a write takes at most.
const PIECE: usize = 16;

// A file's bytes, if it is there.
type Sheet = RefCell<Option<Vec<u8>>>;

// The two files, and which of their calls fail.
#[derive(Drop)]
pub(super) struct Folder {
    alloc: Global,
    named: Sheet,
    beside: Sheet,
    calls: Cell<u64>,
    fails_at: u64,
    fails_on: bool,
}

impl Folder {
    /// The file has this text, if any. The call of this number fails, and where that is said each one after it.
    pub fn new(alloc: Global, text: Option<&str>, fails_at: u64, fails_on: bool) -> Folder {
        Folder {
            alloc,
            named: RefCell::new(text.and_then(|text| Vec::from_slice(alloc, text.as_bytes()).ok())),
            beside: RefCell::new(None),
            calls: Cell::new(0),
            fails_at,
            fails_on,
        }
    }

    /// Whether the file has just this text.
    pub fn has(&self, text: Option<&str>) -> bool {
        is_text(&self.named, text)
    }

    /// Whether no file is beside it.
    pub fn is_tidy(&self) -> bool {
        is_text(&self.beside, None)
    }

    /// Whether a call has failed.
    pub fn has_failed(&self) -> bool {
        self.calls.get() >= self.fails_at
    }

    // Counts a call. The disk is full where it fails.
    fn call(&self) -> io::Result<()> {
        let calls = self.calls.get().saturating_add(1);
        self.calls.set(calls);
        if calls == self.fails_at || (self.fails_on && calls > self.fails_at) {
            return Err(io::Error::from(ErrorKind::StorageFull));
        }
        Ok(())
    }

    // The file of this name.
    fn sheet(&self, name: &str) -> io::Result<&Sheet> {
        match name {
            NAME => Ok(&self.named),
            BESIDE => Ok(&self.beside),
            _ => Err(io::Error::from(ErrorKind::NotFound)),
        }
    }
}

fn is_text(sheet: &Sheet, text: Option<&str>) -> bool {
    match (sheet.try_borrow(), text) {
        (Ok(bytes), Some(text)) => match &*bytes {
            Some(bytes) => bytes.as_slice() == text.as_bytes(),
            None => false,
        },
        (Ok(bytes), None) => bytes.is_none(),
        (Err(_), _) => false,
    }
}

fn in_use<T>(_: T) -> io::Error
where
    T: Drop,
{
    io::Error::from(ErrorKind::ResourceBusy)
}

fn unsupported<T>() -> io::Result<T> {
    Err(io::Error::from(ErrorKind::Unsupported))
}

/// An open file of the folder.
#[derive(Drop)]
pub struct Open<'a> {
    folder: &'a Folder,
    sheet: &'a Sheet,
    at: usize,
}

impl<'a> Read for Open<'a> {
    fn read(&mut self, buf: &mut [u8]) -> io::Result<usize> {
        self.folder.call()?;
        let bytes = self.sheet.try_borrow().map_err(in_use)?;
        let Some(bytes) = &*bytes else {
            return Ok(0);
        };
        let from = self.at.min(bytes.len());
        let rest = &bytes.as_slice()[from..];
        let count = rest.len().min(buf.len()).min(PIECE);
        buf[..count].copy_from_slice(&rest[..count]);
        self.at = self.at.saturating_add(count);
        Ok(count)
    }
}

impl<'a> Write for Open<'a> {
    fn write(&mut self, buf: &[u8]) -> io::Result<usize> {
        self.folder.call()?;
        let count = buf.len().min(PIECE);
        let mut bytes = self.sheet.try_borrow_mut().map_err(in_use)?;
        match &mut *bytes {
            Some(bytes) => {
                bytes.extend_from_slice(&buf[..count])?;
                Ok(count)
            }
            None => Err(io::Error::from(ErrorKind::NotFound)),
        }
    }

    fn flush(&mut self) -> io::Result<()> {
        Ok(())
    }
}

impl<'a> Seek for Open<'a> {
    fn seek(&mut self, _to: SeekFrom) -> io::Result<u64> {
        unsupported()
    }
}

impl<'a> OpenFile for Open<'a> {
    fn metadata(&self) -> io::Result<Metadata> {
        unsupported()
    }

    fn set_len(&self, _size: u64) -> io::Result<()> {
        unsupported()
    }

    fn sync_all(&self) -> io::Result<()> {
        self.folder.call()
    }

    fn sync_data(&self) -> io::Result<()> {
        self.folder.call()
    }
}

/// No names.
#[derive(Drop)]
pub struct NoNames;

impl Read for NoNames {
    fn read(&mut self, _buf: &mut [u8]) -> io::Result<usize> {
        Ok(0)
    }
}

// The folder as a runtime's files.
#[derive(Clone, Copy)]
pub(super) struct InFolder<'a>(pub &'a Folder);

impl<'a> Files for InFolder<'a> {
    type File = Open<'a>;

    type Dir = NoNames;

    fn open_file(&self, how: &OpenOptions, path: &str) -> io::Result<Open<'a>> {
        let InFolder(folder) = *self;
        folder.call()?;
        let sheet = folder.sheet(path)?;
        let mut bytes = sheet.try_borrow_mut().map_err(in_use)?;
        if how.asks_truncate() {
            *bytes = Some(Vec::new(folder.alloc));
        }
        if bytes.is_none() {
            return Err(io::Error::from(ErrorKind::NotFound));
        }
        Ok(Open {
            folder,
            sheet,
            at: 0,
        })
    }

    fn open_dir(&self, _path: &str) -> io::Result<NoNames> {
        unsupported()
    }

    fn metadata(&self, _path: &str) -> io::Result<Metadata> {
        unsupported()
    }

    fn symlink_metadata(&self, _path: &str) -> io::Result<Metadata> {
        unsupported()
    }

    fn copy(&self, _from: &str, _to: &str) -> io::Result<u64> {
        unsupported()
    }

    fn rename(&self, from: &str, to: &str) -> io::Result<()> {
        self.0.call()?;
        let bytes = self.0.sheet(from)?.try_take().map_err(in_use)?;
        if bytes.is_none() {
            return Err(io::Error::from(ErrorKind::NotFound));
        }
        self.0.sheet(to)?.try_replace(bytes).map_err(in_use)?;
        Ok(())
    }

    fn remove_file(&self, path: &str) -> io::Result<()> {
        self.0.call()?;
        self.0.sheet(path)?.try_take().map_err(in_use)?;
        Ok(())
    }

    fn create_dir(&self, _path: &str) -> io::Result<()> {
        unsupported()
    }

    fn remove_dir(&self, _path: &str) -> io::Result<()> {
        unsupported()
    }

    fn remove_dir_all<B: Allocator>(&self, _alloc: B, _path: &str) -> io::Result<()> {
        unsupported()
    }
}
