//! The rows of closures that are measured beside the bodies of the same operations: by calls alone, with threads that
//! are kept, and recorded.
use loom_examples::closures::rows::ClosureRow;
use loom_examples::rows::WHOLE;
use loom_examples::rows::settings::Settings;

/// A row of closures, and how it is measured.
#[derive(Clone, Copy)]
pub(crate) struct Closures {
    /// The name of the body with the same operations, `closures`, and `kept` or `recorded` where that is so.
    pub name: &'static str,
    /// What is checked.
    pub row: ClosureRow,
    /// How often it is checked.
    pub checks: u64,
    /// How it is checked.
    pub settings: Settings,
    /// Whether threads of the host are kept over the runs of a check.
    pub keeps: bool,
    /// Whether the threads' answers are recorded.
    pub records: bool,
    /// How many threads a call of main starts.
    pub threads: u32,
}

static ALL: [Closures; 9] = [
    Closures {
        name: "store_buffering closures",
        row: ClosureRow::StoreBuffering,
        checks: 200,
        settings: WHOLE,
        keeps: false,
        records: false,
        threads: 1,
    },
    Closures {
        name: "store_buffering closures kept",
        row: ClosureRow::StoreBuffering,
        checks: 200,
        settings: WHOLE,
        keeps: true,
        records: false,
        threads: 1,
    },
    Closures {
        name: "store_buffering closures recorded",
        row: ClosureRow::StoreBuffering,
        checks: 200,
        settings: WHOLE,
        keeps: false,
        records: true,
        threads: 1,
    },
    Closures {
        name: "locks_crosswise closures",
        row: ClosureRow::TwoMutexesDeadlock,
        checks: 200,
        settings: WHOLE,
        keeps: false,
        records: false,
        threads: 2,
    },
    Closures {
        name: "locks_crosswise closures kept",
        row: ClosureRow::TwoMutexesDeadlock,
        checks: 200,
        settings: WHOLE,
        keeps: true,
        records: false,
        threads: 2,
    },
    Closures {
        name: "locks_crosswise closures recorded",
        row: ClosureRow::TwoMutexesDeadlock,
        checks: 200,
        settings: WHOLE,
        keeps: false,
        records: true,
        threads: 2,
    },
    Closures {
        name: "three_adds closures",
        row: ClosureRow::ThreeAdds,
        checks: 2,
        settings: WHOLE,
        keeps: false,
        records: false,
        threads: 2,
    },
    Closures {
        name: "three_adds closures kept",
        row: ClosureRow::ThreeAdds,
        checks: 2,
        settings: WHOLE,
        keeps: true,
        records: false,
        threads: 2,
    },
    Closures {
        name: "three_adds closures recorded",
        row: ClosureRow::ThreeAdds,
        checks: 2,
        settings: WHOLE,
        keeps: false,
        records: true,
        threads: 2,
    },
];

/// The closures of this name.
pub(crate) fn closures_of(name: &str) -> Option<&'static Closures> {
    ALL.iter().find(|closures| closures.name == name)
}
