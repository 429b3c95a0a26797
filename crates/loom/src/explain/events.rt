//! The events of a run: `telling` hears the run while it is made and keeps each event, without the data of operations and replies,
//! `options` reads off a path's nodes what could be chosen there, and `places` finds where a run failed.
//! `specs/Explain/Story.antt` says what the events of a run are, its story, and the law `story_comes_to` that the story ends as
//! the body's tree of runs does.
pub mod laws;
pub mod options;
pub mod places;
pub mod telling;
