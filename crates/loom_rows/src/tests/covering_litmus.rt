//! Checks that remember states find the results of main that the whole search of a litmus test finds, where that ends, and as many as
//! another program found of each.
use crate::tests::asserting::{holds, script};
use loom::model::Report;
use loom::model::cover::{Covered, MOST_STATES};
use loom::model::visitor::Visitor;
use loom::{Choice, MemoryStore, NoClock};
use loom_examples::litmus::{Litmus, TESTS};
use loom_examples::rows::WHOLE;
use loom_examples::rows::settings::{Builds, Settings};
use loom_examples::scripts::script::Script;
use std::alloc::{AllocError, Global};
use std::process::Abort;

// More runs than a whole search has that is compared.
const MOST_OF_A_TEST: usize = 50_000;

// The tests, and how many results main has in each, by a program from which no part of this one was written. A test without any fails.
static RESULTS: [(&str, usize); 29] = [
    ("2+2W", 4),
    ("2+2W+rel", 4),
    ("3.LB", 7),
    ("CAS-none-wins", 2),
    ("CoRR", 6),
    ("CoRR2", 47),
    ("CoRW2", 3),
    ("CoWW", 1),
    ("Dekker+scfences", 3),
    ("IRIW", 16),
    ("IRIW+sc", 16),
    ("ISA2+rlx", 8),
    ("LB", 3),
    ("MP+na+rlx+rlx", 0),
    ("MP+rel+rlx", 4),
    ("MP+relfence+acq", 3),
    ("MP+relfence+rlx", 4),
    ("MP+sc+sc", 3),
    ("R+scfences", 3),
    ("RMW-atomicity", 2),
    ("RMW-sum", 1),
    ("RWC", 8),
    ("S", 4),
    ("SB", 4),
    ("SB+rel+acq", 4),
    ("SB+scfence+acqrelfence", 4),
    ("WRC+rlx+rel+acq", 7),
    ("XCHG-lock", 2),
    ("store-between-rmw", 3),
];

// Tests whose whole search has more runs than are compared.
const TOO_LARGE: [&str; 3] = ["CoRR2", "IRIW", "IRIW+sc"];

// The results of main, each once, by size.
#[derive(Drop)]
struct Results {
    values: Vec<u64>,
}

impl Visitor<u64> for Results {
    ghost takes = { λ old choices value new. Unit {0} };

    fn run(&mut self, _choices: &[Choice], value: u64) -> Result<(), AllocError> {
        match self.values.as_slice().binary_search(&value) {
            Ok(_) => Ok(()),
            Err(place) => Ok(self.values.insert(place, value)?),
        }
    }
}

impl Results {
    fn new(alloc: Global) -> Results {
        Results {
            values: Vec::new(alloc),
        }
    }

    fn are(&self, other: &Results) -> bool {
        self.values.as_slice() == other.values.as_slice()
    }
}

// How a check ends.
#[derive(Clone, Copy, PartialEq, Eq)]
enum End {
    Complete,
    Failed,
    Stopped,
}

// How a check ends that makes each run.
fn whole_end(alloc: Global, body: &Script, results: &mut Results) -> End {
    let builder = Settings {
        max_permutations: Some(MOST_OF_A_TEST),
        ..WHOLE
    }
    .builder();
    let mut store = None::<MemoryStore>;
    let log = None::<HostRuntime>;
    match builder.check_with(alloc, body, results, &mut NoClock, &mut store, &log) {
        Ok(Report::Complete { .. }) => End::Complete,
        Ok(Report::Failed { .. }) => End::Failed,
        Ok(Report::Stopped { .. }) | Err(_) => End::Stopped,
    }
}

// How one ends that remembers states.
fn covering_end(alloc: Global, body: &Script, results: &mut Results) -> End {
    let mut store = None::<MemoryStore>;
    let log = None::<HostRuntime>;
    let covered = WHOLE.builder().cover_with(
        alloc,
        body,
        results,
        &mut NoClock,
        &mut store,
        MOST_STATES,
        &log,
    );
    match covered {
        Ok(Covered::Complete { .. }) => End::Complete,
        Ok(Covered::Failed { .. }) => End::Failed,
        Ok(Covered::Livelock { .. } | Covered::Stopped { .. }) | Err(_) => End::Stopped,
    }
}

// Whether a check that remembers states finds so many results, or fails where there are none, and finds what the whole search does.
fn is_found(alloc: Global, body: &Script, name: &str, count: usize) -> bool {
    let mut covered = Results::new(alloc);
    let mut found = Results::new(alloc);
    let end = covering_end(alloc, body, &mut covered);
    let wanted = if count == 0 {
        End::Failed
    } else {
        End::Complete
    };
    let whole = whole_end(alloc, body, &mut found);
    let is_whole = if TOO_LARGE.contains(&name) {
        whole == End::Stopped
    } else {
        whole == wanted && (count == 0 || covered.are(&found))
    };
    end == wanted && (count == 0 || covered.values.len() == count) && is_whole
}

fn test_of(name: &str) -> Option<&'static Litmus> {
    TESTS.iter().find(|test| test.name == name)
}

#[test]
fn litmus_tests_are_as_their_whole_searches_say(rt: HostRuntime) {
    for (name, count) in &RESULTS {
        let is_so = match test_of(*name) {
            Some(test) => is_found(rt.alloc(), &script(&rt, test.steps), *name, *count),
            None => false,
        };
        holds(&rt, is_so, *name);
    }
    holds(&rt, TESTS.len() == RESULTS.len(), "all tests");
}
