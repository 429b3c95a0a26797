//! What checks find of the program's rows and of bodies of tests, as tables say it.

// A check of the body of this name: its first runs, so many at most, and how it ended.
macro_rules! case {
    ($name:expr, $settings:expr, $first:expr, $text:expr) => {
        Case {
            name: $name,
            settings: &$settings,
            shows: Shows::First($first),
            text: $text,
        }
    };
}

// A check of the body of this name: what its runs finish with.
macro_rules! results {
    ($name:expr, $settings:expr, $text:expr) => {
        Case {
            name: $name,
            settings: &$settings,
            shows: Shows::Values,
            text: $text,
        }
    };
}

// A script with its name, which is checked with the defaults.
macro_rules! row {
    ($name:expr, $steps:expr) => {
        Row {
            name: $name,
            checked: Checked::Script($steps),
            settings: DEFAULTS,
        }
    };
}

mod asserting;
mod bodies;
mod cells;
mod channels;
mod checking;
mod covering;
mod covering_litmus;
mod covering_parts;
mod each_operation;
mod exploring;
mod finding;
mod guide;
mod late;
mod limits;
mod lists;
mod litmus;
mod locks;
mod long_checks;
mod others;
mod parts;
mod pens;
mod plain;
mod printed;
mod rows;
mod searches;
mod shared;
mod sizes;
mod tasks;
mod values;
mod wakers;
mod words;
mod workers;

use finding::find;

#[test]
fn rows_find_what_their_tables_say(rt: HostRuntime) {
    find(&rt, &cells::CASES);
    find(&rt, &channels::CASES);
    find(&rt, &exploring::CASES);
    find(&rt, &lists::CASES);
    find(&rt, &litmus::CASES);
}

#[test]
fn other_rows_find_what_their_tables_say(rt: HostRuntime) {
    find(&rt, &locks::CASES);
    find(&rt, &values::CASES);
    find(&rt, &wakers::CASES);
    find(&rt, &each_operation::CASES);
    find(&rt, &sizes::CASES);
}
