//! What nodes' numbers tell of the tree that they stand in.
ghost use Rattle.wjs_programs.specs.Numbers.{DepthIsEnough, LabelsAreAround, PartsAreNext};

/// In a numbered program the part of a Label, and of a Paren, is the node right before it.
pub fn parts_are_next()
    ensures { PartsAreNext }
{}

/// In a program's tree the labels of a statement are those of the Labels around it with no other statement between.
pub fn labels_are_around()
    ensures { LabelsAreAround }
{}

/// In a program's tree the depths to which a target, and the names of `var`s, are looked for cut nothing off.
pub fn depth_is_enough()
    ensures { DepthIsEnough }
{}
