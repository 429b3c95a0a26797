//! The search of a check along its path.
ghost use Rattle.std.specs.Prelude.{◌≡◌, ◌≤◌, not, IfSome};
ghost use Rattle.loom_engine.specs.Path.Route.{settings};

use loom_engine::rt::path::Search;

/// The search along the path of a check, which is reduced or not, and whose runs explore only from `explore` on or at once.
pub fn path_search(
    reduce: bool,
    preemption_bound: Option<usize>,
    max_branches: usize,
    expect_explicit_explore: bool,
) -> Search
    requires branches { max_branches ≤ 1000000 }
    requires bound { IfSome preemption_bound (λ bound. bound ≤ 255) }
    ensures settings { settings result ≡ record { reduce = reduce; bound = preemption_bound; max_branches = max_branches } }
    ensures explores { result.explores ≡ not expect_explicit_explore }
{
    Search {
        reduce,
        bound: preemption_bound.map(
            |bound|
                requires { bound ≤ 255 }
            { bound as u8 },
        ),
        max_branches: max_branches as u32,
        explores: !expect_explicit_explore,
    }
}
