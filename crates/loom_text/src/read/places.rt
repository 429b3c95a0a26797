//! The locations that a test has declared so far.
ghost use Rattle.std.specs.Prelude.{◌≡◌, ◌≤◌, length};
ghost use Rattle.loom_text.specs.Named.{LocationsDiffer};

mod naming;

use crate::test::Location;
use std::alloc::Global;

/// How many locations a test may have. Own.
pub const MAX_LOCATIONS: usize = 64;

/// The locations of the test that is being read.
#[derive(Drop)]
pub(crate) struct Places {
    alloc: Global,
    pub(crate) locations: Vec<Location>,
    // For each location, whether the text has said of what kind it is.
    typed: Vec<bool>,
    ghost locations_differ: { LocationsDiffer locations.items },
    ghost as_many: { length locations.items ≤ length typed.items },
}

impl Places {
    /// The test's locations.
    pub(crate) fn into_locations(self) -> Vec<Location>
        ensures same { result.items ≡ self.locations.items }
        ensures differ { LocationsDiffer result.items }
    {
        let Places { locations, .. } = self;
        locations
    }
}
