// What holds of every report, as contracts that the check asks the proof of.
ghost use Rattle.depots.specs.Kinds.{plain_meaning, sight_meaning};
ghost use Rattle.reports.specs.Laws.{AcceptancesFit, OneReport, RefusalsFit};

// Reports are shorter than the 8,192 bytes that the program gives: those of acceptances for either kind of fact, and those of
// refusals.
pub fn reports_fit()
    ensures plain { AcceptancesFit plain_meaning }
    ensures sight { AcceptancesFit sight_meaning }
    ensures refused { RefusalsFit }
{}

// Two sheets have one report at the most.
pub fn sheets_have_one_report()
    ensures { OneReport }
{}
