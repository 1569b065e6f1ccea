//! The laws of the table.
ghost use Rattle.wjs_forms.specs.Spells.{SpelledIsTaken, TakenIsSpelled, GoesOn};

/// The machine takes the tokens of every program that is shaped: the table refuses none too early.
pub fn spelled_is_taken()
    ensures { SpelledIsTaken }
{}

/// What the machine takes up to its end are the tokens of a program that is shaped: the table refuses none too late.
pub fn taken_is_spelled()
    ensures { TakenIsSpelled }
{}

/// From each state that is reached some tokens lead to an end of a program.
pub fn goes_on()
    ensures { GoesOn }
{}
