//! Laws of parts alone, of serial ends and of plays, each the contract of a function that does nothing.
ghost use Rattle.wjs_alone.specs.Laws.{OneEnding, OwnObjectsAreLeftOut, OrderDecides, SomeAreSerial, EndedTakeNoTurn};
ghost use Rattle.wjs_alone.specs.Named.{MarksByContent, ChecksByContent, OwnViewsByContent};

/// A part alone has one ending, one output and one final state, whatever budget it has that is enough.
pub fn one_ending()
    ensures { OneEnding }
{}

/// What a part does alone doesn't depend on objects of its owner that were there before.
pub fn own_objects_are_left_out()
    ensures { OwnObjectsAreLeftOut }
{}

/// Serial ends of the same runs, in the same order and with the same numbers of tries, are the same.
pub fn order_decides()
    ensures { OrderDecides }
{}

/// Whatever was there before the first part, some ends are in serial order.
pub fn some_are_serial()
    ensures { SomeAreSerial }
{}

/// A turn for an activity that has ended, or for a number that no activity has, changes nothing.
pub fn ended_take_no_turn()
    ensures { EndedTakeNoTurn }
{}

/// The marks that actions make by number are those that they make by content.
pub fn marks_by_content()
    ensures { MarksByContent }
{}

/// A world's check under a first world passes by number exactly where it does by content.
pub fn checks_by_content()
    ensures { ChecksByContent }
{}

/// What a world takes the first world to hold is by content what it is by number.
pub fn own_views_by_content()
    ensures { OwnViewsByContent }
{}
