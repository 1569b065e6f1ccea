//! The laws.
ghost use Rattle.wjs_by_content.specs.Laws.{ContentsStay, ContentsTell, IndicesAreSpelled, PlansCompose, StoresCarryPlans, TablesKnow};

/// A name spells an index from 0 to 2^32 - 2 exactly where it is its decimal spelling.
pub fn indices_are_spelled()
    ensures { IndicesAreSpelled }
{}

/// A table in which no text stands twice knows the texts that are in it, the indices in range, and the texts in it that
/// spell none as names.
pub fn tables_know()
    ensures { TablesKnow }
{}

/// Known names, slots and values that are different have different contents.
pub fn contents_tell()
    ensures { ContentsTell }
{}

/// As a table grows, what it knew it knows still, with the same content: texts, names, slots, values and worlds.
pub fn contents_stay()
    ensures { ContentsStay }
{}

/// One plan and then another: the answer and the worlds are those of the second after the first, and the actions are
/// those of both.
pub fn plans_compose<A, B>()
    ensures { PlansCompose A B }
{}

/// A store's read, write and listing are those of the machine by content, under each view that is admitted afterwards.
pub fn stores_carry_plans()
    ensures { StoresCarryPlans }
{}
