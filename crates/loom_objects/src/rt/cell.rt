//! Cells: which reads and writes of them are open, and what the operations of `UnsafeCell` and `Cell` do (loom's `rt/cell.rs`).
ghost use Rattle.std.specs.Borrow.{sem};
ghost use Rattle.loom_objects.specs.Scene.Lends.{lends_in_scene, lends_kind};
ghost use Rattle.loom_objects.specs.Scene.Lookup.{now_of, shown_of};
ghost use Rattle.loom_objects.specs.Scene.Lookup as lookup;
ghost use Rattle.loom_objects.specs.contracts.rt.cell.Cell as cell_row;
ghost use Rattle.std.specs.Prelude.{◌≡◌, OnOk, OnErr, slice_set, Ok, ◌≢◌, IfOk, true};
ghost use Rattle.loom_objects.specs.Rules.Cell as rules;
ghost use Rattle.loom_objects.specs.Lent.{taken_apart};
ghost use Rattle.loom_objects.specs.Rules.Moves.{is_number};
ghost use Rattle.loom_objects.specs.Rules.Cell.{with_reads};
ghost use Rattle.loom_objects.specs.Scene.Lookup.{cell_at};
ghost use Rattle.loom_objects.specs.Stages.CellSwap.{exchanges_data, writes_both};
ghost use Rattle.loom_objects.specs.Stages.Memory.{memory_outside as outside};
ghost use Rattle.loom_objects.specs.Scene.Stage.{Does, DoesIfOk};

use crate::data::Data;
use crate::operation::{CellOp, Reply};
use crate::rt::kept::Kept;
pub use crate::rt::lent::Lent;
use crate::rt::object::{Object, of_kind};
use crate::rt::readers::{copied_counts, none_reads, reads_of};
use crate::rt::run::{Entry, copied};
use crate::rt::scene::Scene;
use crate::rt::stages::memory_outside;
use loom_views::rt::MAX_THREADS;
use loom_views::rt::failure::FailureKind;
use loom_views::same::{Same, are_same};
use std::alloc::{AllocError, Global};
use std::mem;

/// A cell (loom's `rt/cell.rs`).
#[derive(Drop)]
pub struct Cell<D> {
    /// Its data, which is lent to the thread that has it open for writing.
    pub content: Lent<D>,
    /// How many reads each thread has open.
    pub readers: [u64; MAX_THREADS],
}

impl<D: Drop> Cell<D> {
    /// How many reads the thread has open.
    pub fn reads_open(&self, thread: u8) -> u64
        ensures { result ≡ rules.reads_open thread self.now }
    {
        reads_of(&self.readers, thread)
    }

    /// The thread has so many reads open now.
    pub fn set_reads(&mut self, thread: u8, count: u64)
        ensures { self.new ≡ rules.with_reads thread count self.old }
    {
        if (thread as usize) < MAX_THREADS {
            self.readers[thread as usize] = count;
        }
    }

    /// No thread has a read open.
    pub fn is_unread(&self) -> bool
        ensures { result ≡ rules.is_unread self.now }
    {
        none_reads(&self.readers)
    }

    /// No thread has it open.
    pub fn is_free(&self) -> bool
        ensures { result ≡ rules.is_free self.now }
    {
        self.content.lent.is_none() && self.is_unread()
    }

    /// The thread has it open for writing.
    pub fn is_written_by(&self, thread: u8) -> bool
        ensures { result ≡ is_number self.now.content.lent thread }
    {
        match self.content.lent {
            Some(writer) => writer == thread,
            None => false,
        }
    }

    /// It holds this now, and this thread has it open for writing. Answers what it held.
    pub fn exchange(&mut self, value: Option<D>, writer: Option<u8>) -> Option<D>
        ensures held { result ≡ self.old.content.value }
        ensures exchanged { self.new ≡ rules.holding value writer self.old }
    {
        self.content.lent = writer;
        mem::replace(&mut self.content.value, value)
    }

    /// It is taken apart, if no thread has it open. An error where one has; then nothing changes.
    pub fn take_apart(&mut self) -> Result<D, FailureKind>
        ensures result { result ≡ rules.data_left self.old }
        ensures ok { OnOk result (self.new ≡ record self.old { content = taken_apart self.old.content }) }
        ensures err { OnErr result (self.new ≡ self.old) }
    {
        if !self.is_free() {
            return Err(FailureKind::OpenAccess);
        }
        self.content.take_apart().ok_or(FailureKind::Misuse)
    }
}

impl<D> Object<D> {
    /// The cell that it is, to change, unless it was taken apart. Misuse where it is none.
    fn as_cell_mut(&mut self) -> Result<&mut Cell<D>, FailureKind>
        ensures* writes_back { sem 𝓛 (lends_kind D.row (cell_row.the_row D.row) Object.Cell self.entry result) }
        ensures value { now_of result ≡ lookup.cell_in self.old }
    {
        of_kind!(self, Cell(cell) if !cell.content.is_taken)
    }
}

impl<D: Drop> Scene<D> {
    /// The cell of this number, to read. Misuse where there is none, or it was taken apart.
    pub fn cell(&self, number: usize) -> Result<&Cell<D>, FailureKind>
        ensures { shown_of result ≡ lookup.cell_at number self.now.objects }
    {
        of_kind!(self.object(number)?, Cell(cell) if !cell.content.is_taken)
    }

    /// The cell of this number, to change. Misuse where there is none, or it was taken apart.
    #[tactic(auto, using(crate::proofs::Scene::Finding::object_kept))]
    pub fn cell_mut(&mut self, number: usize) -> Result<&mut Cell<D>, FailureKind>
        ensures* writes_back { sem 𝓛 (lends_in_scene D.row (cell_row.the_row D.row) Object.Cell self.entry number result) }
        ensures value { now_of result ≡ lookup.cell_at number self.old.objects }
    {
        self.object_mut(number)?.as_cell_mut()
    }
}

/// The thread has so many reads of the cell open from now on. An error only where there is no such cell.
pub fn keep_reads<D: Drop>(
    scene: &mut Scene<D>,
    number: usize,
    reader: u8,
    count: u64,
) -> Result<(), FailureKind>
    ensures { (cell : Cell D) → cell_at number scene.old.objects ≡ Ok cell
        → (result ≡ Ok tt) × (scene.new ≡ record scene.old { objects = slice_set scene.old.objects number (Object.Cell (with_reads reader count cell)) }) }
{
    scene.cell_mut(number)?.set_reads(reader, count);
    Ok(())
}

/// Answers that the cell is read from now on, with a copy of its data.
fn reading<D: Data>(number: usize, value: &D) -> Result<Entry<D>, AllocError>
    ensures { IfOk result (λ entry. entry ≡ Entry.Answered (Reply.Reading number value.now)) }
{
    Ok(Entry::Answered(Reply::Reading(number, value.try_clone()?)))
}

/// What an operation on a cell does, which has no branch point: `Race` where an access isn't ordered with one that it
/// conflicts with. An error only where memory is refused.
pub fn cell_begins<D: Data>(
    scene: &mut Scene<D>,
    op: CellOp<D>,
) -> Result<Result<Entry<D>, FailureKind>, AllocError>
    ensures does { IfOk result (λ answer. Does (rules.cell_begins op) scene.old answer scene.new) }
    ensures growth { OnErr result (rules.needs_memory op ≡ true) }
{
    match op {
        CellOp::New(value) => Ok(Ok(cell_new(scene, value)?)),
        CellOp::Read(number) => memory_outside(cell_read(scene, number)),
        CellOp::ReadEnd(number) => Ok(cell_read_end(scene, number)),
        CellOp::Deref(number) => memory_outside(cell_deref(scene, number)),
        CellOp::Write(number) => Ok(cell_write(scene, number)),
        CellOp::WriteEnd(number, value) => Ok(cell_write_end(scene, number, value)),
        CellOp::IntoInner(number) => Ok(cell_into_inner(scene, number)),
        CellOp::Get(number) => memory_outside(cell_get(scene, number)),
        CellOp::Replace(number, value) => Ok(cell_replace(scene, number, value)),
        CellOp::Swap(number, other) => Ok(cell_swap(scene, number, other)),
    }
}

fn cell_new<D: Drop>(scene: &mut Scene<D>, value: D) -> Result<Entry<D>, AllocError>
    ensures { DoesIfOk (rules.cell_new value) scene.old result scene.new }
{
    let cell = Cell {
        content: Lent::new(value),
        readers: [0; MAX_THREADS],
    };
    let number = scene.add_cell(cell)?;
    Ok(Entry::Answered(Reply::Cell(number)))
}

/// The thread raises its version and reads, and has one read more open.
fn cell_read<D: Data>(
    scene: &mut Scene<D>,
    number: usize,
) -> Result<Result<Entry<D>, AllocError>, FailureKind>
    ensures { IfOk (outside result) (λ answer. Does (rules.cell_read number) scene.old answer scene.new) }
{
    let reader = scene.active();
    open_read(scene, number)?;
    let cell = scene.cell_mut(number)?;
    let value = cell.content.value().ok_or(FailureKind::Misuse)?;
    let count = cell.reads_open(reader);
    if count == u64::MAX {
        return Err(FailureKind::TooManySteps);
    }
    let entry = reading(number, value);
    cell.set_reads(reader, count + 1);
    Ok(entry)
}

/// Another copy of the data, in a read of the thread.
fn cell_deref<D: Data>(
    scene: &Scene<D>,
    number: usize,
) -> Result<Result<Entry<D>, AllocError>, FailureKind>
    ensures { IfOk (outside result) (λ answer. Does (rules.cell_deref number) scene.now answer scene.now) }
{
    let cell = scene.cell(number)?;
    if cell.reads_open(scene.active()) == 0 {
        return Err(FailureKind::Misuse);
    }
    let value = cell.content.value().ok_or(FailureKind::Misuse)?;
    Ok(copied(value))
}

/// The thread raises its version and writes, and the data goes out.
fn cell_write<D: Drop>(scene: &mut Scene<D>, number: usize) -> Result<Entry<D>, FailureKind>
    ensures { Does (rules.cell_write number) scene.old result scene.new }
{
    let writer = scene.active();
    open_write(scene, number)?;
    let cell = scene.cell_mut(number)?;
    let value = cell.content.lend(writer).ok_or(FailureKind::Misuse)?;
    Ok(Entry::Answered(Reply::Writing(number, value)))
}

/// The thread that has the data out puts some back.
fn cell_write_end<D: Drop>(
    scene: &mut Scene<D>,
    number: usize,
    value: D,
) -> Result<Entry<D>, FailureKind>
    ensures { Does (rules.cell_write_end number value) scene.old result scene.new }
{
    let cell = scene.cell(number)?;
    if !cell.is_written_by(scene.active()) {
        return Err(FailureKind::Misuse);
    }
    if !cell.is_unread() {
        return Err(FailureKind::OpenAccess);
    }
    scene.write_cell(number)?;
    scene.cell_mut(number)?.exchange(Some(value), None);
    Ok(Entry::Answered(Reply::Done))
}

/// The data, after which the cell is taken apart.
fn cell_into_inner<D: Drop>(scene: &mut Scene<D>, number: usize) -> Result<Entry<D>, FailureKind>
    ensures { Does (rules.cell_into_inner number) scene.old result scene.new }
{
    let value = scene.cell_mut(number)?.take_apart()?;
    Ok(Entry::Answered(Reply::Data(value)))
}

/// A read that begins and ends.
fn cell_get<D: Data>(
    scene: &mut Scene<D>,
    number: usize,
) -> Result<Result<Entry<D>, AllocError>, FailureKind>
    ensures { IfOk (outside result) (λ answer. Does (rules.cell_get number) scene.old answer scene.new) }
{
    open_read(scene, number)?;
    let value = scene
        .cell(number)?
        .content
        .value()
        .ok_or(FailureKind::Misuse)?;
    let entry = copied(value);
    match scene.read_cell(number) {
        Ok(()) => Ok(entry),
        Err(kind) => {
            let_go(entry);
            Err(kind)
        }
    }
}

/// Drops an answer that isn't given.
fn let_go<D: Drop>(_entry: Result<Entry<D>, AllocError>) {}

/// A write that begins and ends.
fn cell_replace<D: Drop>(
    scene: &mut Scene<D>,
    number: usize,
    new: D,
) -> Result<Entry<D>, FailureKind>
    ensures { Does (rules.cell_replace number new) scene.old result scene.new }
{
    open_write(scene, number)?;
    let cell = scene.cell_mut(number)?;
    let value = cell.content.take().ok_or(FailureKind::Misuse)?;
    cell.exchange(Some(new), None);
    scene.write_cell(number)?;
    Ok(Entry::Answered(Reply::Data(value)))
}

/// A read begins: the thread raises its version and reads.
fn open_read<D: Drop>(scene: &mut Scene<D>, number: usize) -> Result<(), FailureKind>
    ensures does { Does (rules.opens_read number) scene.old result scene.new }
    ensures rest { scene.new ≡ record scene.old { views = scene.new.views } }
{
    let is_written = scene.cell(number)?.content.lent.is_some();
    scene.raise()?;
    if is_written {
        return Err(FailureKind::OpenAccess);
    }
    scene.read_cell(number)?;
    Ok(())
}

/// A write begins: the thread raises its version and writes.
fn open_write<D: Drop>(scene: &mut Scene<D>, number: usize) -> Result<(), FailureKind>
    ensures does { Does (rules.opens_write number) scene.old result scene.new }
    ensures rest { scene.new ≡ record scene.old { views = scene.new.views } }
{
    let is_free = scene.cell(number)?.is_free();
    scene.raise()?;
    if !is_free {
        return Err(FailureKind::OpenAccess);
    }
    scene.write_cell(number)?;
    Ok(())
}

/// The writes of both cells end, and each holds what the other one held.
fn exchange_cells<D: Drop>(
    scene: &mut Scene<D>,
    number: usize,
    other: usize,
) -> Result<Entry<D>, FailureKind>
    requires { number ≢ other }
    ensures { Does (rules.exchanges_cells number other) scene.old result scene.new }
{
    let one = scene.cell(number)?;
    let two = scene.cell(other)?;
    if one.content.value().is_none() || two.content.value().is_none() {
        return Err(FailureKind::Misuse);
    }
    write_both(scene, number, other)?;
    exchange_data(scene, number, other)
}

/// The active thread writes both cells, the other one first.
fn write_both<D: Drop>(scene: &mut Scene<D>, number: usize, other: usize) -> Result<(), FailureKind>
    ensures { Does (writes_both number other) scene.old result scene.new }
{
    scene.write_cell(other)?;
    scene.write_cell(number)?;
    Ok(())
}

/// Each of the two cells holds what the other one held.
fn exchange_data<D: Drop>(
    scene: &mut Scene<D>,
    number: usize,
    other: usize,
) -> Result<Entry<D>, FailureKind>
    requires { number ≢ other }
    ensures { Does (exchanges_data number other) scene.old result scene.new }
{
    let value = scene.cell_mut(number)?.exchange(None, None);
    let value = scene.cell_mut(other)?.exchange(value, None);
    scene.cell_mut(number)?.exchange(value, None);
    Ok(Entry::Answered(Reply::Done))
}

/// Two cells exchange their data, by a write of each that begins and ends.
fn cell_swap<D: Drop>(
    scene: &mut Scene<D>,
    number: usize,
    other: usize,
) -> Result<Entry<D>, FailureKind>
    ensures { Does (rules.cell_swap number other) scene.old result scene.new }
{
    scene.cell(number)?;
    scene.cell(other)?;
    if number == other {
        return Ok(Entry::Answered(Reply::Done));
    }
    open_write(scene, number)?;
    open_write(scene, other)?;
    exchange_cells(scene, number, other)
}

/// A read of the thread ends.
fn cell_read_end<D: Drop>(scene: &mut Scene<D>, number: usize) -> Result<Entry<D>, FailureKind>
    ensures { Does (rules.cell_read_end number) scene.old result scene.new }
{
    let reader = scene.active();
    let cell = scene.cell(number)?;
    let count = cell.reads_open(reader);
    if count == 0 {
        return Err(FailureKind::Misuse);
    }
    if cell.content.lent.is_some() {
        return Err(FailureKind::OpenAccess);
    }
    scene.read_cell(number)?;
    keep_reads(scene, number, reader, count - 1)?;
    Ok(Entry::Answered(Reply::Done))
}

impl<D: Data + Same> Kept for Cell<D> {
    fn copied(&self, alloc: Global) -> Result<Cell<D>, AllocError> {
        Ok(Cell {
            content: self.content.copied(alloc)?,
            readers: copied_counts(&self.readers),
        })
    }

    fn is_equal(&self, other: &Cell<D>) -> bool {
        are_same(self.readers.as_slice(), other.readers.as_slice())
            && self.content.is_equal(&other.content)
    }
}
