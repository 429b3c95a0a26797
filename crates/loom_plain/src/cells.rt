//! Cells, and what they share with atomics: accesses that must not meet.
use crate::halt::NextReply;
use crate::kinds::Kind;
use crate::machine::Machine;
use crate::state::{Access, Accessed, Object};
use loom_objects::operation::{CellOp, Reply};
use loom_views::rt::MAX_THREADS;
use loom_views::rt::failure::FailureKind;

// Whether an access of this kind conflicts with an earlier one of that kind.
fn conflicts(access: Access, earlier: Access) -> bool {
    match access {
        Access::Load => matches!(earlier, Access::Mutation),
        Access::Store => matches!(earlier, Access::Mutation | Access::UnsyncLoad),
        Access::UnsyncLoad => matches!(earlier, Access::Mutation | Access::Store),
        Access::Mutation => true,
    }
}

impl Object {
    /// Whether a thread has it open, so that another one can't have it, to read or alone.
    pub fn is_open(&self, is_alone: bool) -> bool {
        self.holder.is_some() || (is_alone && self.readers != [0; MAX_THREADS])
    }

    /// The thread opens a read more.
    pub fn opens(&mut self, thread: u8) {
        if let Some(count) = self.readers.get_mut(usize::from(thread)) {
            *count = count.saturating_add(1);
        }
    }

    /// The thread closes a read. Whether it had one open.
    pub fn closes(&mut self, thread: u8) -> bool {
        match self.readers.get_mut(usize::from(thread)) {
            Some(count) => {
                let is_open = *count > 0;
                *count = count.saturating_sub(1);
                is_open
            }
            None => false,
        }
    }
}

impl Machine {
    // Whether an earlier access to the object that conflicts with this one is outside of the view of the point.
    fn is_race(&self, number: usize, access: Access, point: usize) -> bool {
        for earlier in &self.read(number).accesses {
            if conflicts(access, earlier.access) && !self.graph.is_inside(earlier.point, point) {
                return true;
            }
        }
        false
    }

    /// An access of this kind: nobody has the object open, and no earlier access that it conflicts with is outside of the
    /// active thread's view.
    pub fn meets(&mut self, number: usize, access: Access) {
        let is_alone = matches!(access, Access::Mutation);
        let present = self.me().present;
        let is_open = self.at(number).is_open(is_alone);
        let is_race = self.is_race(number, access, present);
        self.check(!is_open, FailureKind::OpenAccess);
        self.check(!is_race, FailureKind::Race);
        self.keeps_access(number, access);
    }

    /// The active thread has made an access of this kind.
    pub fn keeps_access(&mut self, number: usize, access: Access) {
        let point = self.me().present;
        let has_grown = self
            .at(number)
            .accesses
            .push(Accessed { access, point })
            .is_ok();
        self.grows(has_grown);
    }

    /// An operation of a cell.
    pub fn cell_begins(&mut self, op: CellOp<u64>) -> NextReply {
        match op {
            // That the cell was made counts as a write.
            CellOp::New(value) => {
                let number = self.makes(Kind::Cell, Some(value));
                self.keeps_access(number, Access::Mutation);
                Some(Reply::Cell(number))
            }
            CellOp::Read(number) => Some(Reply::Reading(number, self.cell_read(number))),
            CellOp::ReadEnd(number) => {
                self.cell_read_end(number);
                Some(Reply::Done)
            }
            CellOp::Deref(number) => self.cell_deref(number),
            CellOp::Write(number) => Some(Reply::Writing(number, self.cell_write(number))),
            CellOp::WriteEnd(number, value) => {
                self.cell_write_end(number, value);
                Some(Reply::Done)
            }
            CellOp::IntoInner(number) => self.cell_into_inner(number),
            CellOp::Get(number) => {
                let value = self.cell_read(number);
                self.cell_read_end(number);
                Some(Reply::Data(value))
            }
            CellOp::Replace(number, value) => {
                let old = self.cell_write(number);
                self.cell_write_end(number, value);
                Some(Reply::Data(old))
            }
            CellOp::Swap(one, other) => {
                self.cell_swap(one, other);
                Some(Reply::Done)
            }
        }
    }

    // The cell is taken apart, unless a thread has it open.
    fn cell_into_inner(&mut self, number: usize) -> NextReply {
        let cell = self.object(number, Kind::Cell);
        let (is_open, value) = (cell.is_open(true), cell.value);
        cell.is_whole = false;
        self.check(!is_open, FailureKind::OpenAccess);
        Some(Reply::Data(self.required(value)))
    }

    // Another copy of the data, in a read that the active thread has open and leaves open.
    fn cell_deref(&mut self, number: usize) -> NextReply {
        let active = self.active;
        let cell = self.object(number, Kind::Cell);
        let is_reading = cell.closes(active);
        cell.opens(active);
        let value = cell.value;
        self.check(is_reading, FailureKind::Misuse);
        Some(Reply::Data(self.required(value)))
    }

    // A read begins, and has a copy of the data.
    fn cell_read(&mut self, number: usize) -> u64 {
        let active = self.active;
        let value = self.object(number, Kind::Cell).value;
        self.raise();
        self.meets(number, Access::Load);
        self.at(number).opens(active);
        self.required(value)
    }

    // A read of the active thread ends.
    fn cell_read_end(&mut self, number: usize) {
        let active = self.active;
        let is_reading = self.object(number, Kind::Cell).closes(active);
        self.check(is_reading, FailureKind::Misuse);
        self.meets(number, Access::Load);
    }

    // A write begins, and has the data.
    fn cell_write(&mut self, number: usize) -> u64 {
        let active = self.active;
        let value = self.object(number, Kind::Cell).value;
        self.raise();
        self.meets(number, Access::Mutation);
        let cell = self.at(number);
        cell.holder = Some(active);
        cell.value = None;
        self.required(value)
    }

    // The write of the active thread ends, and leaves this data.
    fn cell_write_end(&mut self, number: usize, value: u64) {
        let active = self.active;
        let cell = self.object(number, Kind::Cell);
        let is_writing = cell.holder == Some(active);
        cell.holder = None;
        cell.value = Some(value);
        self.check(is_writing, FailureKind::Misuse);
        self.meets(number, Access::Mutation);
    }

    // The data of two cells are exchanged.
    fn cell_swap(&mut self, one: usize, other: usize) {
        self.object(one, Kind::Cell);
        self.object(other, Kind::Cell);
        if one != other {
            let value = self.cell_write(one);
            let other_value = self.cell_write(other);
            self.cell_write_end(other, value);
            self.cell_write_end(one, other_value);
        }
    }
}
