//! What is written is read back.
ghost use Rattle.loom.specs.Model.ChoicesRead.{ReadsBackLaw};

/// The text of choices that a run may make is read as these choices.
pub fn reads_back()
    ensures { ReadsBackLaw }
{}
