//! Short forms for cells: each makes an operation, or the two of an access, and takes the replies apart.
ghost use Rattle.std.specs.Prelude.{◌≡◌, IfOk, IfErr};
ghost use Rattle.std.specs.Fn.{FnOnceReturnsAt, FnOnceReturnsAtMut};
ghost use Rattle.loom.specs.Runner.Asking.{Tells, Stops, done_in, given_in};
ghost use Rattle.loom.specs.Runner.Forms.{IsGivenBack, StopsWithin, beside, reading, read_ending, writing, write_ending};
ghost use Rattle.loom_objects.specs.declared.operation.Request.TheVariants as op;
ghost use Rattle.loom_objects.specs.declared.operation.CellOp.TheVariants as cell_op;
ghost use Rattle.loom_ops.specs.Cell.{cell_handle, unsafe_cell_handle, reader_taken, writer_taken};

use crate::runner::exact::Exact;
use crate::runner::handle::Handle;
use crate::runner::stop::Stop;
use loom_ops::answers::cell::Given;
use loom_ops::cell::{Cell, ConstPtr, MutPtr, UnsafeCell};
use std::sync::Wait;

impl<D: Exact + 'static, R: Wait> Handle<D, R> {
    /// A new cell with this data, whose accesses begin and end (loom's `cell/unsafe_cell.rs`).
    pub fn unsafe_cell(&mut self, value: D) -> Result<UnsafeCell, Stop>
        ensures thread { self.new.thread ≡ self.old.thread }
        ensures tells { IfOk result (Tells unsafe_cell_handle (op.Cell (cell_op.New value)) self.old.told self.new.told) }
        ensures stopped { IfErr result (Stops unsafe_cell_handle (op.Cell (cell_op.New value)) self.old.told self.new) }
    {
        self.ask(UnsafeCell::new(value).request)
    }

    /// Reads the cell: the closure looks at the data while the read is open (loom's `cell/unsafe_cell.rs`).
    pub fn with<T: Drop, F: FnOnce(&D) -> T>(
        &mut self,
        cell: &UnsafeCell,
        look: F,
    ) -> Result<T, Stop>
        requires { F.IsAlwaysCallable look }
        ensures thread { self.new.thread ≡ self.old.thread }
        ensures within { IfOk result (IsGivenBack reader_taken beside (reading cell.now) read_ending (λ found answer left. FnOnceReturnsAt F.FnOnce look found answer) self.old.told self.new.told) }
        ensures stopped { IfErr result (StopsWithin reader_taken beside (reading cell.now) read_ending (λ found answer left. FnOnceReturnsAt F.FnOnce look found answer) self.old.told self.new) }
    {
        let (pointer, value) = self.get(cell)?;
        let answer = look(&value);
        self.end(pointer)?;
        Ok(answer)
    }

    /// Writes the cell: the closure changes the data while the write is open (loom's `cell/unsafe_cell.rs`).
    pub fn with_mut<T: Drop, F: FnOnce(&mut D) -> T>(
        &mut self,
        cell: &UnsafeCell,
        change: F,
    ) -> Result<T, Stop>
        requires { F.IsAlwaysCallable change }
        ensures thread { self.new.thread ≡ self.old.thread }
        ensures within { IfOk result (IsGivenBack writer_taken beside (writing cell.now) write_ending (FnOnceReturnsAtMut F.FnOnce change) self.old.told self.new.told) }
        ensures stopped { IfErr result (StopsWithin writer_taken beside (writing cell.now) write_ending (FnOnceReturnsAtMut F.FnOnce change) self.old.told self.new) }
    {
        let (pointer, mut value) = self.get_mut(cell)?;
        let answer = change(&mut value);
        self.end_mut(pointer, value)?;
        Ok(answer)
    }

    /// Begins to read the cell, and answers a copy of its data (loom's `cell/unsafe_cell.rs`).
    pub fn get(&mut self, cell: &UnsafeCell) -> Result<(ConstPtr, D), Stop>
        ensures thread { self.new.thread ≡ self.old.thread }
        ensures tells { IfOk result (Tells reader_taken (op.Cell (cell_op.Read cell.now.number)) self.old.told self.new.told) }
        ensures stopped { IfErr result (Stops reader_taken (op.Cell (cell_op.Read cell.now.number)) self.old.told self.new) }
    {
        self.ask(cell.get().request)
    }

    /// Ends the read: in loom the pointer's drop (loom's `cell/unsafe_cell.rs`).
    pub fn end(&mut self, pointer: ConstPtr) -> Result<(), Stop>
        ensures thread { self.new.thread ≡ self.old.thread }
        ensures tells { IfOk result (Tells done_in (op.Cell (cell_op.ReadEnd pointer.number)) self.old.told self.new.told) }
        ensures stopped { IfErr result (Stops done_in (op.Cell (cell_op.ReadEnd pointer.number)) self.old.told self.new) }
    {
        self.ask(pointer.end().request)
    }

    /// Begins to write the cell, and answers its data (loom's `cell/unsafe_cell.rs`).
    pub fn get_mut(&mut self, cell: &UnsafeCell) -> Result<(MutPtr, D), Stop>
        ensures thread { self.new.thread ≡ self.old.thread }
        ensures tells { IfOk result (Tells writer_taken (op.Cell (cell_op.Write cell.now.number)) self.old.told self.new.told) }
        ensures stopped { IfErr result (Stops writer_taken (op.Cell (cell_op.Write cell.now.number)) self.old.told self.new) }
    {
        self.ask(cell.get_mut().request)
    }

    /// Ends the write, and the cell holds this data: in loom the pointer's drop (loom's `cell/unsafe_cell.rs`).
    pub fn end_mut(&mut self, pointer: MutPtr, value: D) -> Result<(), Stop>
        ensures thread { self.new.thread ≡ self.old.thread }
        ensures tells { IfOk result (Tells done_in (op.Cell (cell_op.WriteEnd pointer.number value)) self.old.told self.new.told) }
        ensures stopped { IfErr result (Stops done_in (op.Cell (cell_op.WriteEnd pointer.number value)) self.old.told self.new) }
    {
        self.ask(pointer.end(value).request)
    }

    /// Another copy of the data, in a read that is open: in loom the pointer's `deref` (loom's `cell/unsafe_cell.rs`).
    pub fn deref_pointer(&mut self, pointer: &ConstPtr) -> Result<D, Stop>
        ensures thread { self.new.thread ≡ self.old.thread }
        ensures tells { IfOk result (λ answer. Tells given_in (op.Cell (cell_op.Deref pointer.now.number)) self.old.told self.new.told (record { 0 = answer })) }
        ensures stopped { IfErr result (Stops given_in (op.Cell (cell_op.Deref pointer.now.number)) self.old.told self.new) }
    {
        let Given(value) = self.ask(pointer.deref().request)?;
        Ok(value)
    }

    /// What the cell held, and it is no more: a later operation of it is a misuse. While an access is open that is the failure
    /// `OpenAccess` (loom's `cell/unsafe_cell.rs`).
    pub fn into_inner_unsafe_cell(&mut self, cell: UnsafeCell) -> Result<D, Stop>
        ensures thread { self.new.thread ≡ self.old.thread }
        ensures tells { IfOk result (λ answer. Tells given_in (op.Cell (cell_op.IntoInner cell.number)) self.old.told self.new.told (record { 0 = answer })) }
        ensures stopped { IfErr result (Stops given_in (op.Cell (cell_op.IntoInner cell.number)) self.old.told self.new) }
    {
        let Given(value) = self.ask(cell.into_inner().request)?;
        Ok(value)
    }

    /// A new cell with this data, whose accesses end at once (loom's `cell/cell.rs`).
    pub fn cell(&mut self, value: D) -> Result<Cell, Stop>
        ensures thread { self.new.thread ≡ self.old.thread }
        ensures tells { IfOk result (Tells cell_handle (op.Cell (cell_op.New value)) self.old.told self.new.told) }
        ensures stopped { IfErr result (Stops cell_handle (op.Cell (cell_op.New value)) self.old.told self.new) }
    {
        self.ask(Cell::new(value).request)
    }

    /// A copy of the cell's data: in loom `get` (loom's `cell/cell.rs`).
    pub fn copied(&mut self, cell: &Cell) -> Result<D, Stop>
        ensures thread { self.new.thread ≡ self.old.thread }
        ensures tells { IfOk result (λ answer. Tells given_in (op.Cell (cell_op.Get cell.now.number)) self.old.told self.new.told (record { 0 = answer })) }
        ensures stopped { IfErr result (Stops given_in (op.Cell (cell_op.Get cell.now.number)) self.old.told self.new) }
    {
        let Given(value) = self.ask(cell.get().request)?;
        Ok(value)
    }

    /// Writes the cell's data: in loom `set` (loom's `cell/cell.rs`).
    pub fn set(&mut self, cell: &Cell, value: D) -> Result<(), Stop>
        ensures thread { self.new.thread ≡ self.old.thread }
        ensures tells { IfOk result (λ done. (before : D) × Tells given_in (op.Cell (cell_op.Replace cell.now.number value)) self.old.told self.new.told (record { 0 = before })) }
        ensures stopped { IfErr result (Stops given_in (op.Cell (cell_op.Replace cell.now.number value)) self.old.told self.new) }
    {
        let Given(_) = self.ask(cell.set(value).request)?;
        Ok(())
    }
    /// Writes the cell's data, and answers what was there before (loom's `cell/cell.rs`).
    pub fn replace(&mut self, cell: &Cell, value: D) -> Result<D, Stop>
        ensures thread { self.new.thread ≡ self.old.thread }
        ensures tells { IfOk result (λ answer. Tells given_in (op.Cell (cell_op.Replace cell.now.number value)) self.old.told self.new.told (record { 0 = answer })) }
        ensures stopped { IfErr result (Stops given_in (op.Cell (cell_op.Replace cell.now.number value)) self.old.told self.new) }
    {
        let Given(before) = self.ask(cell.replace(value).request)?;
        Ok(before)
    }

    /// Takes the cell's data, and leaves this in its place, where loom leaves the type's default (loom's `cell/cell.rs`).
    pub fn take(&mut self, cell: &Cell, left: D) -> Result<D, Stop>
        ensures thread { self.new.thread ≡ self.old.thread }
        ensures tells { IfOk result (λ answer. Tells given_in (op.Cell (cell_op.Replace cell.now.number left)) self.old.told self.new.told (record { 0 = answer })) }
        ensures stopped { IfErr result (Stops given_in (op.Cell (cell_op.Replace cell.now.number left)) self.old.told self.new) }
    {
        let Given(before) = self.ask(cell.take(left).request)?;
        Ok(before)
    }

    /// Exchanges the data of the two cells: in loom `swap` (loom's `cell/cell.rs`).
    pub fn swap_cells(&mut self, one: &Cell, other: &Cell) -> Result<(), Stop>
        ensures thread { self.new.thread ≡ self.old.thread }
        ensures tells { IfOk result (Tells done_in (op.Cell (cell_op.Swap one.now.number other.now.number)) self.old.told self.new.told) }
        ensures stopped { IfErr result (Stops done_in (op.Cell (cell_op.Swap one.now.number other.now.number)) self.old.told self.new) }
    {
        self.ask(one.swap(*other).request)
    }

    /// What the cell held, and it is no more: a later operation of it is a misuse (loom's `cell/cell.rs`).
    pub fn into_inner_cell(&mut self, cell: Cell) -> Result<D, Stop>
        ensures thread { self.new.thread ≡ self.old.thread }
        ensures tells { IfOk result (λ answer. Tells given_in (op.Cell (cell_op.IntoInner cell.number)) self.old.told self.new.told (record { 0 = answer })) }
        ensures stopped { IfErr result (Stops given_in (op.Cell (cell_op.IntoInner cell.number)) self.old.told self.new) }
    {
        let Given(value) = self.ask(cell.into_inner().request)?;
        Ok(value)
    }
}
