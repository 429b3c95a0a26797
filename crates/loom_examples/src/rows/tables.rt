//! The rows of the program: tables that are put together.
ghost use Rattle.std.specs.Prelude.{◌≡◌, IfOk, map, flat_map};
ghost use Rattle.loom_examples.specs.Rows.Meanings.{named};
ghost use Rattle.loom_examples.specs.Rows.Table.{IsTable};

pub mod atomics;
pub mod cells;
pub mod channels;
pub mod exploring;
pub mod few_threads;
pub mod first;
pub mod limits;
pub mod locks;
pub mod values;
pub mod wakers;
pub mod walks;

use crate::rows::Row;
use std::alloc::{AllocError, Global};

/// The rows of the program.
pub fn all_rows(alloc: Global) -> Result<Vec<Row>, AllocError>
    ensures { IfOk result (λ rows. IsTable (map named rows.items)) }
{
    joined(
        alloc,
        &[
            few_threads::rows(),
            first::failing(),
            first::loads(),
            first::buffering(),
            first::orderings(),
            atomics::functions(),
            atomics::unsynchronized(),
            atomics::fences(),
            atomics::updates(),
            atomics::flags(),
            cells::causality(),
            cells::writes_at_once(),
            cells::reads_at_once(),
            cells::reads_of_threads(),
            cells::turns(),
            cells::synchronized(),
            cells::main_alone(),
            locks::mutexes(),
            locks::rwlocks(),
            locks::condvars(),
            locks::wakings(),
            locks::others(),
            channels::messages(),
            channels::ends(),
            wakers::rows(),
            values::rows(),
            exploring::rows(),
            limits::rows(),
            walks::rows(),
        ],
    )
}

/// What these tables have, one behind another.
pub(crate) fn joined<T: Copy>(alloc: Global, tables: &[&[T]]) -> Result<Vec<T>, AllocError>
    ensures { IfOk result (λ all. all.items ≡ flat_map (λ table. table.now) tables.now) }
{
    let mut all = Vec::new(alloc);
    for table in tables {
        all.extend_from_slice(table)?;
    }
    Ok(all)
}
