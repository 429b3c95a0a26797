//! What a program prints.
ghost use Rattle.std.specs.Prelude.{◌≡◌, [], false};

use std::alloc::Global;
use std::io::{self, ErrorKind, Write};

/// What a program writes with. A broken one takes nothing.
#[derive(Drop)]
pub struct Pen {
    /// What was written with it.
    pub text: Vec<u8>,
    /// Whether it takes nothing.
    pub is_broken: bool,
}

impl Pen {
    /// One that takes what is written.
    pub fn new(alloc: Global) -> Pen
        ensures empty { result.text.items ≡ [] }
        ensures whole { result.is_broken ≡ false }
    {
        Pen {
            text: Vec::new(alloc),
            is_broken: false,
        }
    }
}

impl Write for Pen {
    fn write(&mut self, buf: &[u8]) -> io::Result<usize> {
        if self.is_broken || self.text.extend_from_slice(buf).is_err() {
            return Err(io::Error::from(ErrorKind::BrokenPipe));
        }
        Ok(buf.len())
    }

    fn flush(&mut self) -> io::Result<()> {
        Ok(())
    }
}

/// What is printed on standard output, whether something follows there, what on standard error, and the status.
#[derive(Clone, Copy)]
pub struct Printed<'a> {
    /// What is on standard output, or its beginning.
    pub out: &'a str,
    /// Whether more is there.
    pub goes_on: bool,
    /// What is on standard error.
    pub err: &'a str,
    /// The exit status.
    pub status: u8,
}

/// Whether this was printed.
pub fn is_printed(out: &Pen, err: &Pen, status: u8, printed: &Printed) -> bool {
    let begins = out.text.as_slice().starts_with(printed.out.as_bytes());
    let goes_on = out.text.len() > printed.out.len();
    begins
        && goes_on == printed.goes_on
        && err.text.as_slice() == printed.err.as_bytes()
        && status == printed.status
}
