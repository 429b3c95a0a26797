//! The registers of the thread that is being read.
ghost use Rattle.std.specs.Prelude.{◌≡◌, None};
ghost use Rattle.loom_text.specs.Known.{known, named_in, spellings};
ghost use Rattle.loom_text.specs.Statements.{is_among, register_added, register_declared, register_for};
ghost use Rattle.loom_text.specs.Tokens.{Gives};

use crate::error::Problem;
use crate::read::scope::{MAX_REGISTERS, Scope, owned, register_named};
use crate::read::stop::Stop;
use crate::read::token::Token;

impl Scope<'_> {
    /// The register of this name in the thread that is being read.
    #[tactic(auto, using(crate::proofs::NameLemmas::named_alike))]
    pub(crate) fn register_of(&self, token: Token<'_>) -> Option<usize>
        ensures { result ≡ named_in (spellings self.now.registers.items) token.entry.spelling.now }
    {
        register_named(&self.registers, token.spelling)
    }

    /// Declares a register of the thread. A name that is in no open block may have been declared before, and is the same register.
    #[tactic(auto, unfolding(crate::specs::Statements::register_declared))]
    pub(crate) fn declare_register(&mut self, token: Token<'_>) -> Result<usize, Stop>
        ensures { Gives (λ register. (register, known self.new, self.new.open.items)) result
            (register_declared token.entry.spelling.now (known self.old) self.old.open.items) }
    {
        if self.parameter_of(token).is_some() || self.is_open(token) {
            return Err(Stop::at(token, Problem::DeclaredTwice));
        }
        let register = self.register_for(token)?;
        self.open.push(register)?;
        Ok(register)
    }

    // Whether the name is that of a register that is declared in a block that is open.
    fn is_open(&self, token: Token<'_>) -> bool
        ensures { result ≡ is_among self.now.open.items (named_in (spellings self.now.registers.items) token.entry.spelling.now) }
    {
        match self.register_of(token) {
            Some(register) => self.open.contains(&register),
            None => false,
        }
    }

    // The register of this name, a new one where there is none.
    fn register_for(&mut self, token: Token<'_>) -> Result<usize, Stop>
        ensures found { Gives (λ register. (register, known self.new)) result
            (register_for token.entry.spelling.now (known self.old) (named_in (known self.old).registers token.entry.spelling.now)) }
        ensures same { self.new.open ≡ self.old.open }
    {
        match self.register_of(token) {
            Some(register) => Ok(register),
            None => self.add_register(token),
        }
    }

    #[tactic(auto, using(crate::proofs::NameLemmas::no_such_name, crate::proofs::NameLemmas::named_alike), unfolding(crate::specs::Statements::register_added))]
    fn add_register(&mut self, token: Token<'_>) -> Result<usize, Stop>
        requires { named_in (spellings self.old.registers.items) token.spelling.now ≡ None }
        ensures found { Gives (λ register. (register, known self.new)) result (register_added token.entry.spelling.now (known self.old)) }
        ensures same { self.new.open ≡ self.old.open }
    {
        let number = self.registers.len();
        if number >= MAX_REGISTERS {
            return Err(Stop::at(token, Problem::TooManyRegisters));
        }
        let name = owned(self.alloc, token)?;
        self.registers.push(name)?;
        Ok(number)
    }
}
