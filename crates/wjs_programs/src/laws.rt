//! The laws.
ghost use Rattle.wjs_programs.specs.Laws.{OneProgram, ProgramOrNone, UnitsAreTrees};

/// A loaded program is the tree of its program: its nodes are numbered as the tree's, and its names are found where the tree's are.
pub fn units_are_trees()
    ensures { UnitsAreTrees }
{}

/// Bytes spell one program at most, whatever table of texts numbers their texts.
pub fn one_program()
    ensures { OneProgram }
{}

/// Bytes that spell a program by one table of texts are refused by none.
pub fn program_or_none()
    ensures { ProgramOrNone }
{}
