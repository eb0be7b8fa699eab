//! The laws of the lifting. Each function does nothing: what it ensures is the law.

ghost use Rattle.lift_core.specs.Laws.{Completeness, Decomposes, FinishedRows, FinishedRun, FirstPlace, Grows, ListsGrow, NextRows, NoneBetween, OneEnd, OneGrown, OneLeadsNegative, OneListed, OneNextNorm, OneNorm, OneRun, OneSolutionList, OneStageList, OneTerm, OneUsed, OneWaiting, OneWalk, OneWanted, OneWantedGraver, RunWalks, SmallerLast, SolutionsAreMinimal, StageDecomposes, StageStarts, SumsDescend, UnitsAreMinimal, WalkHasTheEnd};
ghost use Rattle.lift_core.specs.MachineLaws.{BookHasAllSums, EachBlockOnce, EachNumberOnce};

/// Where lifting starts: the minimal solutions of no equations are the signed unit vectors.
pub fn unit_law()
    ensures { UnitsAreMinimal }
{}

/// Two stage vectors of one norm never reduce each other, and the sum of a pair has a smaller last entry than the greater
/// of both has.
pub fn norm_law()
    ensures one_norm { OneNorm }
    ensures smaller_last { SmallerLast }
{}

/// Each solution is a sum of minimal ones below it (Graver 1975), and exactly one of them has a 1 in a column where the
/// solution has a 1.
pub fn sum_law()
    ensures decomposes { Decomposes }
    ensures stage { StageDecomposes }
    ensures one_term { OneTerm }
    ensures descends { SumsDescend }
{}

/// The completeness of lifting (Hemmecke's project-and-lift), from one norm of a stage to the next.
pub fn growth_law()
    ensures none_between { NoneBetween }
    ensures next_rows { NextRows }
    ensures complete { Completeness }
    ensures lists_grow { ListsGrow }
    ensures grows { Grows }
{}

/// From a finished stage to the next one.
pub fn stage_law()
    ensures solutions { SolutionsAreMinimal }
    ensures starts { StageStarts }
    ensures first { FirstPlace }
{}

/// At most one list, and at most one number, is the one that is defined.
pub fn list_law()
    ensures listed { OneListed }
    ensures waiting { OneWaiting }
    ensures stage { OneStageList }
    ensures solutions { OneSolutionList }
    ensures grown { OneGrown }
    ensures used { OneUsed }
    ensures next { OneNextNorm }
{}

/// The walk of the defined lists has the defined end, there is at most one end, and a finished run has the minimal
/// solutions of all equations.
pub fn end_law()
    ensures walk { WalkHasTheEnd }
    ensures one { OneEnd }
    ensures rows { FinishedRows }
    ensures one_walk { OneWalk }
    ensures run_walks { RunWalks }
    ensures one_run { OneRun }
    ensures finished_run { FinishedRun }
{}

/// At most one list is written, and of a nonzero vector and its negative exactly one leads negative.
pub fn written_law()
    ensures wanted { OneWanted }
    ensures graver { OneWantedGraver }
    ensures leads { OneLeadsNegative }
{}

/// Every complete run of the pure machine of a norm has each block in its book exactly once, whatever the order of events.
/// So the sums of the book's blocks are all irreducible sums of the norm: every schedule gives the same list.
pub fn core_law()
    ensures number { EachNumberOnce }
    ensures once { EachBlockOnce }
    ensures sums { BookHasAllSums }
{}
