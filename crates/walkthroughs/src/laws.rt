// What holds of every walkthrough, as contracts that the check asks the proof of.
ghost use Rattle.walkthroughs.specs.Laws.{AcceptedUnlessFault, DisturbedStepsTurn, EffectsTakePlace, GroupsJoin, JudgedByTheRules, OneRefusal, OneRun, OrdersAndSetsAgree, RunsKeepTheLaw, SetsAreSums, StaysClosed, UnlistedStay, UnpickingsPass};

// The facts at the start are closed under carrying, and steps keep them so.
pub fn facts_stay_closed()
    ensures { StaysClosed }
{}

// Started and set facts stand, and struck facts go.
pub fn effects_take_place()
    ensures { EffectsTakePlace }
{}

// Facts that are not listed keep their standing.
pub fn unlisted_facts_stay()
    ensures { UnlistedStay }
{}

// The number of a set of places is the sum of 2^(place - 1) over its places.
pub fn sets_are_sums()
    ensures { SetsAreSums }
{}

// Groups of moves that do not disturb or contradict each other do in turn what they do together.
pub fn groups_of_moves_join()
    ensures { GroupsJoin }
{}

// Without contradiction, some order disturbs a step exactly if some set of its places does.
pub fn orders_and_sets_agree()
    ensures { OrdersAndSetsAgree }
{}

// A step is accepted exactly where nothing is wrong with it.
pub fn steps_are_accepted_unless_at_fault()
    ensures { AcceptedUnlessFault }
{}

// No step has two refusals.
pub fn steps_have_one_refusal()
    ensures { OneRefusal }
{}

// Every step is accepted or refused, as it is computed for the worked lines.
pub fn steps_are_judged_by_the_rules()
    ensures { JudgedByTheRules }
{}

// Every unpicking of accepted steps is accepted and ends with the same facts.
pub fn unpickings_pass()
    ensures { UnpickingsPass }
{}

// The set that a disturbed step names can be done move by move, and turns the part that it names.
pub fn disturbed_steps_turn()
    ensures { DisturbedStepsTurn }
{}

// Every list of calls has one run: its answers, and the facts that it leaves.
pub fn calls_have_one_run()
    ensures { OneRun }
{}

// Every run from the start keeps the law, whatever is called.
pub fn runs_keep_the_law()
    ensures { RunsKeepTheLaw }
{}
