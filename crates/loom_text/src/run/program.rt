//! The code of a whole test.
use crate::run::assembler::Assembler;
use crate::run::code::{AtomicOperation, Code, Operand, Operation, Program};
use crate::run::layout::Layout;
use crate::run::statements::put_statements;
use crate::test::{Kind, Location, Term, Test, Thread};
use loom_objects::operation::Name;
use loom_objects::text::Text;
use loom_views::sequence::Sequence;
use std::alloc::{AllocError, Global};
use std::sync::atomic::Ordering;

/// The code of the test, which is in this file. Main results in the numbers of the layout's terms. It fails only where a
/// growth is refused (own).
pub fn assemble(
    alloc: Global,
    test: &Test,
    layout: &Layout,
    file: &str,
) -> Result<Program, AllocError> {
    let mut threads = Vec::new(alloc);
    threads.push(main_code(alloc, test, layout)?)?;
    for thread in &test.threads {
        threads.push(thread_code(alloc, thread, file)?)?;
    }
    let threads = Sequence::from_vec(threads);
    Ok(Program { threads })
}

// A thread results in what its registers hold that the text names.
fn thread_code(alloc: Global, thread: &Thread, file: &str) -> Result<Code, AllocError> {
    let named = thread.registers.len();
    let mut code = Assembler::new(alloc, named);
    put_statements(&mut code, file, thread.body.as_slice())?;
    code.location = None;
    code.end(named)
}

// Main makes an object for each location, so that both have the same number, starts the threads, joins them, and reads what is
// left.
fn main_code(alloc: Global, test: &Test, layout: &Layout) -> Result<Code, AllocError> {
    let mut code = Assembler::new(alloc, layout.terms.len());
    make_all(&mut code, &test.locations)?;
    start_all(&mut code, test.threads.len())?;
    let bases = join_all(alloc, &mut code, test)?;
    for (place, term) in layout.terms.iter().enumerate() {
        put_term(&mut code, test, bases.as_slice(), *term, place)?;
    }
    code.end(layout.terms.len())
}

// Makes the object of each location.
fn make_all(code: &mut Assembler, locations: &[Location]) -> Result<(), AllocError> {
    for location in locations {
        let keep = code.fresh(1);
        let name = Text::first(location.name.as_str());
        code.ask_named(keep, making(location), Some(name))?;
    }
    Ok(())
}

// Starts so many threads.
fn start_all(code: &mut Assembler, threads: usize) -> Result<(), AllocError> {
    for thread in 0..threads {
        code.tell(Operation::Spawn(thread + 1, thread_name(thread)))?;
    }
    Ok(())
}

// Joins each thread, and answers where the registers of each one are then. Its notifier was made behind all locations.
fn join_all(alloc: Global, code: &mut Assembler, test: &Test) -> Result<Vec<usize>, AllocError> {
    let mut bases = Vec::new(alloc);
    let mut notifier = test.locations.len();
    let mut number: u8 = 0;
    for thread in &test.threads {
        number = number.saturating_add(1);
        let base = code.fresh(thread.registers.len());
        bases.push(base)?;
        code.ask(base, Operation::Join(number, notifier))?;
        notifier = notifier.saturating_add(1);
    }
    Ok(bases)
}

// The register at this place gets the term's number at the end. All stores are ordered before a load here, so that it reads a
// last one.
fn put_term(
    code: &mut Assembler,
    test: &Test,
    bases: &[usize],
    term: Term,
    place: usize,
) -> Result<(), AllocError> {
    match term {
        Term::Register { thread, register } => {
            let base = match bases.get(thread) {
                Some(base) => *base,
                None => return Ok(()),
            };
            code.set(place, Operand::Register(base.saturating_add(register)))
        }
        Term::Location(number) => match test.locations.get(number) {
            Some(location) => code.ask(place, reading(number, location.kind)),
            None => Ok(()),
        },
    }
}

fn making(location: &Location) -> Operation {
    let number = location.value.cast_unsigned();
    match location.kind {
        Kind::Atomic => Operation::Atomic(AtomicOperation::New(number)),
        Kind::Plain => Operation::NewCell(number),
        Kind::Mutex => Operation::NewMutex,
        Kind::Condvar => Operation::NewCondvar,
    }
}

// Locks and condition variables have no value, and no layout has them.
fn reading(number: usize, kind: Kind) -> Operation {
    match kind {
        Kind::Atomic => Operation::Atomic(AtomicOperation::Load(number, Ordering::Relaxed)),
        Kind::Plain | Kind::Mutex | Kind::Condvar => Operation::Read(number),
    }
}

fn thread_name(thread: usize) -> Name {
    let name = match thread {
        0 => "P0",
        1 => "P1",
        2 => "P2",
        3 => "P3",
        _ => "P",
    };
    Name {
        text: Text::first(name),
    }
}
