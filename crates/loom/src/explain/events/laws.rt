//! What a story has to do with the runs of a body.
ghost use Rattle.loom.specs.Explain.Story.{StoryLaw};

/// The story of a body's run along a path has the outcome that the body's tree of runs has along it.
pub fn story_comes_to<D, S>()
    ensures { StoryLaw D S }
{}
