// Depots worked through by hand, and two mistakes that they show, as contracts that the check asks the proof of.
ghost use Rattle.walkthroughs.specs.Mistakes.{NamesMislead, PairsMiss};
ghost use Rattle.walkthroughs.specs.Worked.{Worked, WorkedRuns};

// Lines worked by hand come out as they should, and are runs by the rules.
pub fn worked_lines_come_out()
    ensures computed { Worked }
    ensures runs { WorkedRuns }
{}

// Comparing facts by name would tell a contradiction as a disturbance.
pub fn names_mislead()
    ensures { NamesMislead }
{}

// Trying disturbance on pairs would let a disturbed step of three moves through.
pub fn pairs_miss()
    ensures { PairsMiss }
{}
