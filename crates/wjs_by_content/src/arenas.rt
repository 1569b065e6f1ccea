//! The laws of arenas.
ghost use Rattle.wjs_by_content.specs.ArenaLaws.{ArenasByContent, ArenasStay, NamesByContent, WorldsByContent};

/// An arena by content has the same objects as the one by number, as deep, with the same prototypes, scopes, chains and
/// next numbers; a created object is the one created by content.
pub fn arenas_by_content()
    ensures { ArenasByContent }
{}

/// Where the arena's names and values are known, a known name has the same fixed value, the same attributes, and is
/// puttable alike.
pub fn names_by_content()
    ensures { NamesByContent }
{}

/// The object that stands for a world is the same, and there is none in the same case.
pub fn worlds_by_content()
    ensures { WorldsByContent }
{}

/// A known arena stays known, with the same contents, as the table grows.
pub fn arenas_stay()
    ensures { ArenasStay }
{}
