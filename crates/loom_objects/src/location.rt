//! Places in a body's source.
ghost use Rattle.std.specs.Prelude.{◌≡◌};
ghost use Rattle.loom_objects.specs.Text.{last_text};

use crate::text::Text;

/// A place in a body's source, which its author hands in.
#[derive(Clone, Copy, Debug, PartialEq, Eq)]
pub struct Location {
    /// The file's path, of which the last characters are kept if it has more than 24 bytes.
    pub file: Text,
    /// The number of the line, from 1.
    pub line: u32,
}

impl Location {
    /// This line of the file (own).
    pub fn new(file: &str, line: u32) -> Location
        ensures { result ≡ record { file = last_text file.now; line = line } }
    {
        Location {
            file: Text::last(file),
            line,
        }
    }
}
