//! The texts of a program.
ghost use Rattle.wjs_programs.specs.Laws.{NodesAreKnown};

/// The nodes of a program that tokens spell name no other texts than those of the table by which the bytes are the tokens.
pub fn nodes_are_known()
    ensures { NodesAreKnown }
{}
