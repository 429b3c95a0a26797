//! Laws of a search that is cut into parts: the contract of each function is one.
ghost use Rattle.loom_engine.specs.Parts.Cuts.{SearchLaw, WholeLaw, DisjointLaw};
ghost use Rattle.loom_engine.specs.Parts.Floors.{FloorLaw, PartLaw, RaiseLaw, BranchLaw, EndLaw, SameLaw};
ghost use Rattle.loom_engine.specs.Parts.Works.{WorkLaw};
ghost use Rattle.loom_engine.specs.Parts.Slices.{SliceLaw};
ghost use Rattle.loom_engine.specs.Parts.Keeping.{PartsLaw};

/// By whatever steps, no run is made twice, and when no part is left they are the least closed set.
pub fn search_in_parts()
    ensures { SearchLaw }
{}

/// What is left from the parts was not made, and no two of them share it.
pub fn disjoint_parts()
    ensures { DisjointLaw }
{}

/// In a search that isn't reduced no run notes anything.
pub fn whole_search()
    ensures { WholeLaw }
{}

/// It makes as many runs as the search that isn't cut, and the same.
pub fn same_runs()
    ensures { SameLaw }
{}

/// A part may be held as a path like any other with a number below which no node goes on.
pub fn floors()
    ensures round { FloorLaw }
    ensures part { PartLaw }
    ensures raise { RaiseLaw }
    ensures branch { BranchLaw }
    ensures end { EndLaw }
{}

/// What a program does that keeps its parts as paths with floors, and its notes as what lies below these, is such a search.
pub fn work_in_parts()
    ensures { WorkLaw }
{}

/// A part may be worked on for any number of runs by whoever has its path and its floor, and its notes read off once.
pub fn slices()
    ensures { SliceLaw }
{}

/// A program's list of parts keeps to it, by whatever takes, returns and cuts it has come about (own).
pub fn lists_of_parts()
    ensures { PartsLaw }
{}
