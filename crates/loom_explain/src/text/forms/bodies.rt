//! Forms of what a body says of itself, of fences and of switches of the search.
use crate::text::forms::Form;
use loom_objects::operation::ExploreOp;

pub(crate) static FENCE: Form = other!(Nothing, "fence", "");

static EXPLORE: Form = other!(Nothing, "explore()", "");

static STOP_EXPLORING: Form = other!(Nothing, "stop_exploring()", "");

static SKIP_BRANCH: Form = other!(Nothing, "skip_branch()", "");

pub(crate) static FAIL: Form = other!(Nothing, "fail()", "");

pub(crate) static UNREACHABLE: Form = other!(Nothing, "unreachable_unchecked()", "");

pub(crate) fn explore_form(op: ExploreOp) -> &'static Form {
    match op {
        ExploreOp::Explore => &EXPLORE,
        ExploreOp::StopExploring => &STOP_EXPLORING,
        ExploreOp::SkipBranch => &SKIP_BRANCH,
    }
}
