//! What a test's final states are made of: the registers and locations that its conditions name.
ghost use Rattle.std.specs.Prelude.{◌≡◌};
ghost use Rattle.loom_text.specs.Run.States.{is_term, meets, number_of};

use crate::test::{Condition, Kind, Term, Test};
use std::alloc::{AllocError, Global};

/// What a test's final states are made of (own).
#[derive(Drop)]
pub struct Layout {
    /// What has a number in a final state, in this order: first what is shown, registers by threads and names and then locations
    /// by names, and behind it what the filter alone names.
    pub terms: Vec<Term>,
    /// How many of them are shown: what the condition names, and what is listed.
    pub shown: usize,
}

impl Layout {
    /// The layout of the test's final states. It fails only where a growth is refused.
    pub fn of(alloc: Global, test: &Test) -> Result<Layout, AllocError> {
        let mut terms = Vec::new(alloc);
        add_terms(&mut terms, test, true)?;
        let shown = terms.len();
        add_terms(&mut terms, test, false)?;
        Ok(Layout { terms, shown })
    }
}

// Adds what is shown, or what isn't and is named by the filter.
fn add_terms(terms: &mut Vec<Term>, test: &Test, is_shown: bool) -> Result<(), AllocError> {
    for thread in 0..test.threads.len() {
        add_registers(terms, test, thread, is_shown)?;
    }
    add_locations(terms, test, is_shown)
}

fn add_locations(terms: &mut Vec<Term>, test: &Test, is_shown: bool) -> Result<(), AllocError> {
    let from = terms.len();
    for (number, location) in test.locations.iter().enumerate() {
        let term = Term::Location(number);
        if has_value(location.kind) && test.wants(term, is_shown) {
            add_by_name(terms, from, test, term)?;
        }
    }
    Ok(())
}

fn add_registers(
    terms: &mut Vec<Term>,
    test: &Test,
    thread: usize,
    is_shown: bool,
) -> Result<(), AllocError> {
    let from = terms.len();
    for register in 0..test.registers_of(thread) {
        let term = Term::Register { thread, register };
        if test.wants(term, is_shown) {
            add_by_name(terms, from, test, term)?;
        }
    }
    Ok(())
}

// Adds the term before the first one of a later name, of those from this place on.
fn add_by_name(
    terms: &mut Vec<Term>,
    from: usize,
    test: &Test,
    term: Term,
) -> Result<(), AllocError> {
    let place = place_by_name(terms.as_slice(), from, test, test.name_of(term));
    terms.insert(place.min(terms.len()), term)?;
    Ok(())
}

// Where the first term of a later name is, of those from this place on.
fn place_by_name(terms: &[Term], from: usize, test: &Test, name: &str) -> usize {
    for (place, other) in terms.iter().enumerate() {
        if place >= from && name < test.name_of(*other) {
            return place;
        }
    }
    terms.len()
}

/// Whether a location of this kind has a value at the end.
fn has_value(kind: Kind) -> bool {
    match kind {
        Kind::Atomic | Kind::Plain => true,
        Kind::Mutex | Kind::Condvar => false,
    }
}

impl Test {
    // How many registers the thread has.
    fn registers_of(&self, thread: usize) -> usize {
        match self.threads.get(thread) {
            Some(thread) => thread.registers.len(),
            None => 0,
        }
    }

    /// The name of the register or of the location. Where there is none it is empty.
    pub(crate) fn name_of(&self, term: Term) -> &str {
        match self.found_name(term) {
            Some(name) => name.as_str(),
            None => "",
        }
    }

    fn found_name(&self, term: Term) -> Option<&String> {
        match term {
            Term::Register { thread, register } => self
                .threads
                .get(thread)?
                .registers
                .get(register),
            Term::Location(location) => Some(&self.locations.get(location)?.name),
        }
    }

    // Whether the term is shown; or whether it isn't, and the filter names it.
    fn wants(&self, term: Term, is_shown: bool) -> bool {
        let shows = self.condition.names(term) || lists(self.listed.as_slice(), term);
        if is_shown {
            return shows;
        }
        match &self.filter {
            Some(filter) => !shows && filter.names(term),
            None => false,
        }
    }
}

fn lists(terms: &[Term], term: Term) -> bool {
    terms.iter().any(|listed| is_term(*listed, term))
}

/// Whether the two are the same register, or the same location.
pub(crate) fn is_term(one: Term, other: Term) -> bool
    ensures { result ≡ is_term one other }
{
    match (one, other) {
        (
            Term::Register { thread, register },
            Term::Register {
                thread: thread_there,
                register: register_there,
            },
        ) => thread == thread_there && register == register_there,
        (Term::Location(location), Term::Location(there)) => location == there,
        (Term::Register { .. }, Term::Location(_)) | (Term::Location(_), Term::Register { .. }) =>
            false,
    }
}

/// The number that a final state has for the term, where its numbers belong to these terms. Where it has none it is 0.
pub(crate) fn number_of(terms: &[Term], term: Term, numbers: &[u32]) -> u32
    ensures { result ≡ number_of terms.now term numbers.now }
{
    match terms {
        [] => 0,
        [first, terms @ ..] => match numbers {
            [] => 0,
            [number, numbers @ ..] => {
                if is_term(*first, term) {
                    *number
                } else {
                    number_of(terms, term, numbers)
                }
            }
        },
    }
}

impl Condition {
    // Whether it names this.
    fn names(&self, term: Term) -> bool {
        match self {
            Condition::Equal(named, _) => is_term(*named, term),
            Condition::Not(condition) => condition.names(term),
            Condition::And(one, other) | Condition::Or(one, other) => {
                one.names(term) || other.names(term)
            }
        }
    }

    /// Whether a final state with these numbers of these terms meets it (own).
    pub fn is_met(&self, terms: &[Term], numbers: &[u32]) -> bool
        ensures { result ≡ meets self.now terms.now numbers.now }
    {
        match self {
            Condition::Equal(term, number) => {
                number_of(terms, *term, numbers) == number.cast_unsigned()
            }
            Condition::Not(condition) => !condition.is_met(terms, numbers),
            Condition::And(one, other) => {
                one.is_met(terms, numbers) && other.is_met(terms, numbers)
            }
            Condition::Or(one, other) => {
                one.is_met(terms, numbers) || other.is_met(terms, numbers)
            }
        }
    }
}
