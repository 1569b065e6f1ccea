//! The laws, for names `J` of slots and `W` of values.
ghost use Rattle.wjs_by_content.specs.RenameLaws.{ActionsCommute, StoresCommute, FreshIsKnown, ListingsAgree, FaultsAgree, ReachedAgree, NamesGrow};

/// Each action of the machine on known slots and values does the same under the names, answers alike, and leaves known
/// slots and values. The order of a listing and the slot of a refused commit are those of the names' own order.
pub fn actions_commute<J, W>()
    ensures { ActionsCommute J W }
{}

/// Each call of a store is the machine's action under the names, under each view that is admitted afterwards.
pub fn stores_commute<J, W>()
    ensures { StoresCommute J W }
{}

/// All slots and values of the fresh state are known.
pub fn fresh_is_known<J, W>()
    ensures { FreshIsKnown J W }
{}

/// What a store lists, renamed and put in the order of the names, is the listing under the names.
pub fn listings_agree<J, W>()
    ensures { ListingsAgree J W }
{}

/// A slot fails the check of a commit exactly where its name does.
pub fn faults_agree<J, W>()
    ensures { FaultsAgree J W }
{}

/// A reached state is a reached state under the names.
pub fn reached_agree<J, W>()
    ensures { ReachedAgree J W }
{}

/// Where more becomes known, and what was known keeps its names, a known state is the same under both.
pub fn names_grow<J, W>()
    ensures { NamesGrow J W }
{}
