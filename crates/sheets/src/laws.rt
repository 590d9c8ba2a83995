// What holds of every sheet, as contracts that the check asks the proof of.
ghost use Rattle.sheets.specs.Laws.{LinesSplit};

// The lines of a sheet are the sheet, cut at its line ends.
pub fn lines_split_the_sheet()
    ensures { LinesSplit }
{}
