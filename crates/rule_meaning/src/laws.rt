// Rules as they are written, and the formulas put for them.
ghost use Rattle.rule_meaning.specs.Theorems.{PutSaysWritten, ReadSaysWritten, SheetSaysWritten, RulesWrittenOnce};

/// The formula that is put for a rule says what the rule says.
pub fn put_says_written()
    ensures { PutSaysWritten }
{}

/// The formula that is read from a text says what the rule says that the text begins with.
pub fn read_says_written()
    ensures { ReadSaysWritten }
{}

/// A history meets the draft of an accepted sheet exactly when every rule of the sheet, as it is written, holds at the first visit;
/// and there is no doubt which rules its lines write.
pub fn sheet_says_written()
    ensures says { SheetSaysWritten }
    ensures once { RulesWrittenOnce }
{}
