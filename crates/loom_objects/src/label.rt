//! The label of an operation: its name and its place in the source.
ghost use Rattle.std.specs.Prelude.{◌≡◌};
ghost use Rattle.loom_objects.specs.Label as rules;

use crate::location::Location;
use crate::text::Text;

/// How a body's author calls an operation: a name for what it makes, and its place in the source.
#[derive(Clone, Copy, Debug, PartialEq, Eq)]
pub struct Label {
    /// The name of what it makes, if it was given one.
    pub name: Option<Text>,
    /// Its place, if it was given one.
    pub location: Option<Location>,
}

/// The label with this place. A name that is there stays.
pub fn placed(label: Option<Label>, location: Location) -> Option<Label>
    ensures { result ≡ rules.placed location label }
{
    Some(Label {
        name: name_in(label),
        location: Some(location),
    })
}

/// The label with this name. A place that is there stays.
pub fn named(label: Option<Label>, name: Text) -> Option<Label>
    ensures { result ≡ rules.named name label }
{
    Some(Label {
        name: Some(name),
        location: location_in(label),
    })
}

/// The name that the label has, if any.
pub fn name_in(label: Option<Label>) -> Option<Text>
    ensures { result ≡ rules.name_in label }
{
    label?.name
}

/// The place that the label has, if any.
pub fn location_in(label: Option<Label>) -> Option<Location>
    ensures { result ≡ rules.location_in label }
{
    label?.location
}
