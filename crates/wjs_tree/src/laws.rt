//! The law.
ghost use Rattle.wjs_tree.specs.Laws.{FormsAreKnown};

/// A node that stands for a statement has the statement's form, and its parts stand for the statement's parts.
pub fn forms_are_known()
    ensures { FormsAreKnown }
{}
