//! How a location is declared, and named again.
ghost use Rattle.std.specs.Prelude.{◌≡◌, ◌<◌, [], None, length, IfSome};
ghost use Rattle.loom_text.specs.Heads.{agreed, kind_said, location_declared, placed, placed_as};
ghost use Rattle.loom_text.specs.Known.{location_in};
ghost use Rattle.loom_text.specs.Tokens.{Gives};

use crate::error::Problem;
use crate::read::places::{MAX_LOCATIONS, Places};
use crate::read::scope::{location_named, owned};
use crate::read::stop::Stop;
use crate::read::token::Token;
use crate::test::{Kind, Location};
use std::alloc::Global;

impl Places {
    /// No locations.
    pub(crate) fn new(alloc: Global) -> Places
        ensures { placed result ≡ record { locations = []; typed = [] } }
    {
        Places {
            alloc,
            locations: Vec::new(alloc),
            typed: Vec::new(alloc),
        }
    }

    /// The location of this name.
    #[tactic(auto, using(crate::proofs::NameLemmas::located_alike))]
    pub(crate) fn location_of(&self, token: Token<'_>) -> Option<usize>
        ensures within { IfSome result (λ number. number < length self.now.locations.items) }
        ensures named { result ≡ location_in (placed self.now).locations token.entry.spelling.now }
    {
        location_named(&self.locations, token.spelling)
    }

    /// Declares a location of a new name, whose kind the text says or doesn't say.
    #[tactic(auto, using(crate::proofs::KnownLemmas::differ_more), unfolding(crate::specs::Heads::location_declared))]
    pub(crate) fn declare(
        &mut self,
        token: Token<'_>,
        kind: Option<Kind>,
        value: i32,
    ) -> Result<usize, Stop>
        requires { location_in (placed self.old).locations token.spelling.now ≡ None }
        ensures { Gives (λ number. (number, placed self.new)) result (location_declared token.entry.spelling.now kind value (placed self.old)) }
    {
        let number = self.locations.len();
        if number >= MAX_LOCATIONS {
            return Err(Stop::at(token, Problem::TooManyLocations));
        }
        let name = owned(self.alloc, token)?;
        let typed = kind.is_some();
        let kind = kind.unwrap_or(Kind::Plain);
        self.typed.push(typed)?;
        self.locations.push(Location { name, kind, value })?;
        Ok(number)
    }

    /// The location of this name, which has this kind. It is a new one where there is none.
    #[tactic(auto, unfolding(crate::specs::Heads::placed_as))]
    pub(crate) fn place(&mut self, name: Token<'_>, kind: Kind) -> Result<usize, Stop>
        ensures { Gives (λ number. (number, placed self.new)) result
            (placed_as name.entry.spelling.now kind (location_in (placed self.old).locations name.entry.spelling.now) (placed self.old)) }
    {
        match self.location_of(name) {
            Some(number) => {
                self.agree(name, number, kind)?;
                Ok(number)
            }
            None => self.declare(name, Some(kind), 0),
        }
    }

    // That a location which the text names again has this kind.
    #[tactic(auto, unfolding(crate::specs::Heads::agreed))]
    fn agree(&mut self, name: Token<'_>, number: usize, kind: Kind) -> Result<(), Stop>
        requires { number < length self.old.locations.items }
        ensures { Gives (λ x. placed self.new) result (agreed number kind (placed self.old)) }
    {
        let wanted = self.locations[number].kind;
        if self.typed[number] && wanted != kind {
            return Err(Stop::at(
                name,
                Problem::WrongKind {
                    wanted,
                    found: kind,
                },
            ));
        }
        if self.locations[number].value != 0 && matches!(kind, Kind::Mutex | Kind::Condvar) {
            return Err(Stop::at(name, Problem::NoValue));
        }
        self.say_kind(number, kind);
        Ok(())
    }

    // From here on the location has this kind.
    fn say_kind(&mut self, number: usize, kind: Kind)
        requires { number < length self.old.locations.items }
        ensures { placed self.new ≡ kind_said number kind (placed self.old) }
    {
        self.locations[number].kind = kind;
        self.typed[number] = true;
    }
}
