//! Reads a litmus test.
ghost use Rattle.std.specs.Prelude.{IfOk, IfErr};
ghost use Rattle.loom_text.specs.Named.{IsNamed};
ghost use Rattle.loom_text.specs.Place.{IsPlaced};
ghost use Rattle.loom_text.specs.Readable.{IsReadable};
ghost use Rattle.loom_text.specs.Whole.{IsRead};

pub(crate) mod conditions;
pub(crate) mod expressions;
pub(crate) mod heads;
pub(crate) mod lexer;
pub(crate) mod parser;
pub(crate) mod places;
pub(crate) mod scope;
pub(crate) mod statements;
pub(crate) mod stop;
pub mod symbol;
pub(crate) mod token;
pub(crate) mod word;

use crate::error::{Mistake, Problem, ReadError, place_of};
use crate::read::lexer::tokens;
use crate::read::parser::Parser;
use crate::read::stop::Stop;
use crate::test::Test;
use std::alloc::Global;

/// How many bytes a text may have. Own.
pub const MAX_TEXT: usize = 65536;

/// The test that the text describes, in herd's C. `Wrong` where it describes none, or one that this machine doesn't have, with what
/// is wrong first and its place. `Memory` where a growth was refused. Own.
pub fn read(alloc: Global, text: &[u8]) -> Result<Test, ReadError>
    ensures place { IfErr result (IsPlaced text.now) }
    ensures named { IfOk result IsNamed }
    ensures again { IfOk result IsReadable }
    ensures read { IfOk result IsRead }
{
    match test(alloc, text) {
        Ok(test) => Ok(test),
        Err(Stop::At(problem, start, end)) => {
            let place = place_of(text, start, end);
            Err(ReadError::Wrong(Mistake { place, problem }))
        }
        Err(Stop::Memory) => Err(ReadError::Memory),
    }
}

fn test(alloc: Global, text: &[u8]) -> Result<Test, Stop>
    ensures named { IfOk result IsNamed }
    ensures again { IfOk result IsReadable }
    ensures read { IfOk result IsRead }
{
    if text.len() > MAX_TEXT {
        return Err(Stop::At(Problem::TooLong, MAX_TEXT, text.len()));
    }
    let tokens = tokens(alloc, text)?;
    let mut parser = Parser::new(alloc, &tokens, text.len());
    parser.test()
}
