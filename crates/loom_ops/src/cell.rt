//! Cells: data that threads read and write, where accesses that meet fail the run.
ghost use Rattle.std.specs.Fn.{FnOnceReturnsAtMut};
ghost use Rattle.std.specs.Prelude.{◌≡◌};
ghost use Rattle.loom_ops.specs.Cell.{cell_handle, unsafe_cell_handle, reader_handle, reader_taken, writer_handle, writer_taken, written_in};
ghost use Rattle.loom_objects.specs.Operation.Labelled.{bare};
ghost use Rattle.loom_ops.specs.Answers.{given_in};

use crate::answers::answer::Answer;
use loom_objects::operation::{CellOp, Op, Reply, Request};

/// A cell of the run, whose accesses each begin and end by an operation (loom's `cell/unsafe_cell.rs`).
#[derive(Clone, Copy, Debug)]
pub struct UnsafeCell {
    /// Its place in the order in which objects were made.
    pub number: usize,
}

/// A cell that this thread reads (loom's `cell/unsafe_cell.rs`).
#[derive(Clone, Copy, Debug)]
pub struct ConstPtr {
    /// The cell's number.
    pub number: usize,
}

/// A cell that this thread writes (loom's `cell/unsafe_cell.rs`).
#[derive(Clone, Copy, Debug)]
pub struct MutPtr {
    /// The cell's number.
    pub number: usize,
}

/// A cell of the run, each of whose accesses begins and ends at once. Where an access of the same object by `UnsafeCell` is
/// open, they fail as those would (loom's `cell/cell.rs`).
#[derive(Clone, Copy, Debug)]
pub struct Cell {
    /// Its place in the order in which objects were made.
    pub number: usize,
}

/// What an object holds, or held (own).
#[derive(Drop)]
pub struct Given<D>(pub D);

impl UnsafeCell {
    /// A new cell with this data, which nobody accesses (loom's `cell/unsafe_cell.rs`).
    #[allow(clippy::new_ret_no_self)]
    pub fn new<D, S>(value: D) -> Op<D, S>
        ensures { result ≡ bare (Request.Cell (CellOp.New value)) }
    {
        Op::new(Request::Cell(CellOp::New(value)))
    }

    /// The cell that was made, if that is what the reply says (own).
    pub fn from_reply<D>(reply: &Reply<D>) -> Option<UnsafeCell>
        ensures { result ≡ unsafe_cell_handle reply.now }
    {
        match reply {
            Reply::Cell(number) => Some(UnsafeCell { number: *number }),
            _ => None,
        }
    }

    /// Begins to read, and replies a copy of the data; `ConstPtr::end` ends it. While a write is open that is the failure
    /// `OpenAccess`, and where the thread doesn't know of an earlier one, `Race` (loom's `cell/unsafe_cell.rs`).
    pub fn get<D, S>(self) -> Op<D, S>
        ensures { result ≡ bare (Request.Cell (CellOp.Read self.number)) }
    {
        Op::new(Request::Cell(CellOp::Read(self.number)))
    }

    /// A read as by `get`: in loom a closure is given what is read, and here the body goes on until `ConstPtr::end` (loom's
    /// `cell/unsafe_cell.rs`).
    pub fn with<D, S>(self) -> Op<D, S>
        ensures { result ≡ bare (Request.Cell (CellOp.Read self.number)) }
    {
        self.get()
    }

    /// Begins to write, and replies the data; `MutPtr::end` hands it back. While a read or a write is open that is the failure
    /// `OpenAccess`, and where the thread doesn't know of an earlier one, `Race` (loom's `cell/unsafe_cell.rs`).
    pub fn get_mut<D, S>(self) -> Op<D, S>
        ensures { result ≡ bare (Request.Cell (CellOp.Write self.number)) }
    {
        Op::new(Request::Cell(CellOp::Write(self.number)))
    }

    /// A write as by `get_mut`: in loom a closure is given what is written, and here the body goes on until `MutPtr::end`
    /// (loom's `cell/unsafe_cell.rs`).
    pub fn with_mut<D, S>(self) -> Op<D, S>
        ensures { result ≡ bare (Request.Cell (CellOp.Write self.number)) }
    {
        self.get_mut()
    }

    /// Replies the data, and the cell is no more: a later operation of it is a misuse. While an access is open that is the
    /// failure `OpenAccess` (loom's `cell/unsafe_cell.rs`).
    pub fn into_inner<D, S>(self) -> Op<D, S>
        ensures { result ≡ bare (Request.Cell (CellOp.IntoInner self.number)) }
    {
        Op::new(Request::Cell(CellOp::IntoInner(self.number)))
    }
}

impl ConstPtr {
    /// The cell that the thread reads from now on, if that is what the reply says (own).
    pub fn from_reply<D>(reply: &Reply<D>) -> Option<ConstPtr>
        ensures { result ≡ reader_handle reply.now }
    {
        match reply {
            Reply::Reading(number, _) => Some(ConstPtr { number: *number }),
            _ => None,
        }
    }

    /// The cell that the thread reads from now on, with a copy of its data, if that is what the reply says (own).
    pub fn take<D: Drop>(reply: Reply<D>) -> Option<(ConstPtr, D)>
        ensures { result ≡ reader_taken reply }
    {
        match reply {
            Reply::Reading(number, value) => Some((ConstPtr { number }, value)),
            _ => None,
        }
    }

    /// Replies another copy of the data. A read that isn't open is a misuse (loom's `cell/unsafe_cell.rs`).
    pub fn deref<D, S>(self) -> Op<D, S>
        ensures { result ≡ bare (Request.Cell (CellOp.Deref self.number)) }
    {
        Op::new(Request::Cell(CellOp::Deref(self.number)))
    }

    /// A copy as by `deref`: what loom's closure does with the data, the body does with the reply (loom's
    /// `cell/unsafe_cell.rs`).
    pub fn with<D, S>(self) -> Op<D, S>
        ensures { result ≡ bare (Request.Cell (CellOp.Deref self.number)) }
    {
        self.deref()
    }

    /// Ends the read: in loom the pointer's drop, or the closure's end. A read that isn't open is a misuse, and a write that
    /// the thread doesn't know of is the failure `Race` (loom's `cell/unsafe_cell.rs`).
    pub fn end<D, S>(self) -> Op<D, S>
        ensures { result ≡ bare (Request.Cell (CellOp.ReadEnd self.number)) }
    {
        Op::new(Request::Cell(CellOp::ReadEnd(self.number)))
    }
}

impl MutPtr {
    /// The cell that the thread writes from now on, if that is what the reply says (own).
    pub fn from_reply<D>(reply: &Reply<D>) -> Option<MutPtr>
        ensures { result ≡ writer_handle reply.now }
    {
        match reply {
            Reply::Writing(number, _) => Some(MutPtr { number: *number }),
            _ => None,
        }
    }

    /// The cell that the thread writes from now on, with its data, if that is what the reply says. The data is the body's until
    /// it ends the write (own).
    pub fn take<D: Drop>(reply: Reply<D>) -> Option<(MutPtr, D)>
        ensures { result ≡ writer_taken reply }
    {
        match reply {
            Reply::Writing(number, value) => Some((MutPtr { number }, value)),
            _ => None,
        }
    }

    /// The data that the thread writes from now on, if that is what the reply says, without the pointer (own).
    pub fn data<D: Drop>(reply: Reply<D>) -> Option<D>
        ensures { result ≡ written_in reply }
    {
        match reply {
            Reply::Writing(_, value) => Some(value),
            _ => None,
        }
    }

    /// The data that the write's reply gave. The body has it until it ends the write, so this is no operation (loom's
    /// `cell/unsafe_cell.rs`).
    pub fn deref<D>(self, value: &mut D) -> &mut D
        ensures same { result.ghost_name ≡ value.entry.ghost_name }
        ensures holds { result.now ≡ value.old }
    {
        value
    }

    /// What the closure answers, which is given that data and may change it. It is no operation either: the body hands the data
    /// back by `end` (loom's `cell/unsafe_cell.rs`).
    pub fn with<D, T, F: FnOnce(&mut D) -> T>(self, value: &mut D, change: F) -> T
        requires { F.IsAlwaysCallable change }
        ensures { FnOnceReturnsAtMut F.FnOnce change value.old result value.new }
    {
        change(self.deref(value))
    }

    /// Ends the write, and the cell holds this data: in loom the pointer's drop, or the closure's end. A write that isn't open
    /// is a misuse, and an access that the thread doesn't know of is the failure `Race` (loom's `cell/unsafe_cell.rs`).
    pub fn end<D, S>(self, value: D) -> Op<D, S>
        ensures { result ≡ bare (Request.Cell (CellOp.WriteEnd self.number value)) }
    {
        Op::new(Request::Cell(CellOp::WriteEnd(self.number, value)))
    }
}

impl Cell {
    /// A new cell with this data (loom's `cell/cell.rs`).
    #[allow(clippy::new_ret_no_self)]
    pub fn new<D, S>(value: D) -> Op<D, S>
        ensures { result ≡ bare (Request.Cell (CellOp.New value)) }
    {
        UnsafeCell::new(value)
    }

    /// The cell that was made, if that is what the reply says (own).
    pub fn from_reply<D>(reply: &Reply<D>) -> Option<Cell>
        ensures { result ≡ cell_handle reply.now }
    {
        match reply {
            Reply::Cell(number) => Some(Cell { number: *number }),
            _ => None,
        }
    }

    /// Writes the data, and replies what was there before; in loom that is dropped. Where the thread doesn't know of an
    /// access, that is the failure `Race` (loom's `cell/cell.rs`).
    pub fn set<D, S>(self, value: D) -> Op<D, S>
        ensures { result ≡ bare (Request.Cell (CellOp.Replace self.number value)) }
    {
        self.replace(value)
    }

    /// Writes the data, and replies what was there before. Where the thread doesn't know of an access, that is the failure
    /// `Race` (loom's `cell/cell.rs`).
    pub fn replace<D, S>(self, value: D) -> Op<D, S>
        ensures { result ≡ bare (Request.Cell (CellOp.Replace self.number value)) }
    {
        Op::new(Request::Cell(CellOp::Replace(self.number, value)))
    }

    /// Exchanges the data of the two cells, by a write of each. Where the thread doesn't know of an access to one of them, that
    /// is the failure `Race`. A cell and itself keep their data, and nothing is written (loom's `cell/cell.rs`).
    pub fn swap<D, S>(self, other: Cell) -> Op<D, S>
        ensures { result ≡ bare (Request.Cell (CellOp.Swap self.number other.number)) }
    {
        Op::new(Request::Cell(CellOp::Swap(self.number, other.number)))
    }

    /// Replies a copy of the data. Where the thread doesn't know of a write, that is the failure `Race` (loom's
    /// `cell/cell.rs`).
    pub fn get<D, S>(self) -> Op<D, S>
        ensures { result ≡ bare (Request.Cell (CellOp.Get self.number)) }
    {
        Op::new(Request::Cell(CellOp::Get(self.number)))
    }

    /// Writes as `replace` does: what stays behind is given, where loom takes the type's default (loom's `cell/cell.rs`).
    pub fn take<D, S>(self, left: D) -> Op<D, S>
        ensures { result ≡ bare (Request.Cell (CellOp.Replace self.number left)) }
    {
        self.replace(left)
    }

    /// Replies the data, and the cell is no more: a later operation of it is a misuse (loom's `cell/cell.rs`).
    pub fn into_inner<D, S>(self) -> Op<D, S>
        ensures { result ≡ bare (Request.Cell (CellOp.IntoInner self.number)) }
    {
        UnsafeCell {
            number: self.number,
        }
        .into_inner()
    }
}

impl<D: Drop> Answer<D> for UnsafeCell {
    ghost held = { unsafe_cell_handle };

    fn from_reply(reply: Reply<D>) -> Option<UnsafeCell>
        ensures { result ≡ unsafe_cell_handle reply }
    {
        let cell = UnsafeCell::from_reply(&reply);
        reply.let_go();
        cell
    }
}

impl<D: Drop> Answer<D> for (ConstPtr, D) {
    ghost held = { reader_taken };

    fn from_reply(reply: Reply<D>) -> Option<(ConstPtr, D)>
        ensures { result ≡ reader_taken reply }
    {
        ConstPtr::take(reply)
    }
}

impl<D: Drop> Answer<D> for (MutPtr, D) {
    ghost held = { writer_taken };

    fn from_reply(reply: Reply<D>) -> Option<(MutPtr, D)>
        ensures { result ≡ writer_taken reply }
    {
        MutPtr::take(reply)
    }
}

impl<D: Drop> Answer<D> for Cell {
    ghost held = { cell_handle };

    fn from_reply(reply: Reply<D>) -> Option<Cell>
        ensures { result ≡ cell_handle reply }
    {
        let cell = Cell::from_reply(&reply);
        reply.let_go();
        cell
    }
}

impl<D: Drop> Answer<D> for Given<D> {
    ghost held = { given_in };

    fn from_reply(reply: Reply<D>) -> Option<Given<D>>
        ensures { result ≡ given_in reply }
    {
        match reply {
            Reply::Data(value) => Some(Given(value)),
            other => {
                other.let_go();
                None
            }
        }
    }
}
