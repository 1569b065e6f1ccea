//! What the bodies of a program declare.
ghost use Rattle.wjs_programs.specs.Laws.{AllBodiesStand, BodiesAreMeant};

/// Each body of a script whose nodes are numbered as its tree's has its elements.
pub fn all_bodies_stand()
    ensures { AllBodiesStand }
{}

/// What a table has of the bodies of such a script, by its tree, is what they declare in the meaning (ECMA-262, 3rd edition,
/// sections 10.1.3 and 12.2).
pub fn bodies_are_meant()
    ensures { BodiesAreMeant }
{}
