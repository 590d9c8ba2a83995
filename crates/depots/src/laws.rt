// What holds of every depot sheet, as a contract that the check asks the proof of.
ghost use Rattle.depots.specs.Kinds.{meaning_of};
ghost use Rattle.depots.specs.Laws.{SheetFixes};

use facts::text_kinds::TextKind;

// A sheet spells one depot at the most, has one refusal at the most, and not both, whatever the kind.
pub fn sheets_fix_the_answer<K: TextKind>()
    ensures { SheetFixes (meaning_of K.Kind K.reading_under) }
{}
