// What holds of every formula, each as the contract of a function.
ghost use Rattle.formulas.specs.Laws.{SpellingFixes};

// Two formulas that are written alike are the same.
pub fn spelling_fixes_the_formula()
    ensures { SpellingFixes }
{}
