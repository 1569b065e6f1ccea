//! What others do in the shared store while a session rests, and that it returns over all of it.
//!
//! Laws, each the contract of a function that does nothing. Who lets sessions take turns keeps of each that rests that it rests
//! over the shared worlds as they now stand (`Rests`): `rest` gives it, what others do leaves it so, and `resume` asks for it. What
//! the session would mean, were it resumed (`resumed`), can be spoken of without a session.
ghost use Rattle.wjs_session.specs.Others.{TurnsLeaveOthers, BeginsLeaveOthers, EndsLeaveOthers, AbandonsLeaveOthers, WritesLeaveOthers};
ghost use Rattle.wjs_session.specs.Others.{ReturnsCompose, NumbersByOwner};
ghost use Rattle.wjs_session.specs.Resumed.{RestingStandsStill, RestingIsSound};

/// What a session does between two rests, or before its end, leaves the others' worlds and what the first world holds.
pub fn turns_leave_others()
    ensures { TurnsLeaveOthers }
{}

/// So does a session that begins, and what it does until it rests or ends.
pub fn begins_leave_others()
    ensures { BeginsLeaveOthers }
{}

/// A session that is settled leaves the others' worlds.
pub fn ends_leave_others()
    ensures { EndsLeaveOthers }
{}

/// One that is given up leaves them too, and what the first world holds.
pub fn abandons_leave_others()
    ensures { AbandonsLeaveOthers }
{}

/// So does a write in the first world.
pub fn writes_leave_others()
    ensures { WritesLeaveOthers }
{}

/// A session that returns after each of two of these returns after both.
pub fn returns_compose()
    ensures { ReturnsCompose }
{}

/// A session's world is its owner's first, and is the first of the worlds that it means.
pub fn numbers_by_owner()
    ensures { NumbersByOwner }
{}

/// A session that rests stands still while its world returns.
pub fn resting_stands_still()
    ensures { RestingStandsStill }
{}

/// A session that rests would be a sound store.
pub fn resting_is_sound()
    ensures { RestingIsSound }
{}
