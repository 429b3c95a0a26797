//! Forms of operations of cells.
use crate::text::forms::{Form, Kind};
use loom_objects::operation::CellOp;

/// What is asked of who uses a cell.
const CELL_THERE: &str = "the cell is to be there, with its data";

/// What is asked of who reads on, or ends a read.
const READ_OPEN: &str = "the thread is to have a read open";

static CELL_NEW: Form = makes!(Kind::Cell, "UnsafeCell::new", CELL_THERE);

static CELL_SWAP: Form = on!(Kind::Cell, ".swap", Nothing, CELL_THERE);

static CELL_READ: Form = on!(Kind::Cell, ".get()", Nothing, CELL_THERE);

static CELL_READ_END: Form = on!(Kind::Cell, " ends", Gives, READ_OPEN);

static CELL_WRITE_END: Form = on!(
    Kind::Cell,
    " ends",
    Gives,
    "the thread is to have a write open"
);

static CELL_DEREF: Form = on!(Kind::Cell, ".deref()", Nothing, READ_OPEN);

static CELL_WRITE: Form = on!(Kind::Cell, ".get_mut()", Nothing, CELL_THERE);

static CELL_INTO_INNER: Form = on!(Kind::Cell, ".into_inner()", TakesApart, CELL_THERE);

static CELL_REPLACE: Form = on!(Kind::Cell, ".replace()", Nothing, CELL_THERE);

pub(crate) fn cell_form(op: &CellOp<()>) -> (usize, &'static Form) {
    match op {
        CellOp::New(_) => (0, &CELL_NEW),
        CellOp::Swap(cell, _) => (*cell, &CELL_SWAP),
        CellOp::Read(cell) => (*cell, &CELL_READ),
        CellOp::ReadEnd(cell) => (*cell, &CELL_READ_END),
        CellOp::WriteEnd(cell, _) => (*cell, &CELL_WRITE_END),
        CellOp::Deref(cell) => (*cell, &CELL_DEREF),
        CellOp::Write(cell) => (*cell, &CELL_WRITE),
        CellOp::IntoInner(cell) => (*cell, &CELL_INTO_INNER),
        CellOp::Get(cell) => (*cell, &CELL_READ),
        CellOp::Replace(cell, _) => (*cell, &CELL_REPLACE),
    }
}

/// The data that the operation hands over, if it does.
pub(crate) fn cell_data<D>(op: &CellOp<D>) -> Option<&D> {
    match op {
        CellOp::New(value) | CellOp::WriteEnd(_, value) | CellOp::Replace(_, value) => Some(value),
        CellOp::Read(_)
        | CellOp::ReadEnd(_)
        | CellOp::Deref(_)
        | CellOp::Write(_)
        | CellOp::IntoInner(_)
        | CellOp::Get(_)
        | CellOp::Swap(..) => None,
    }
}
