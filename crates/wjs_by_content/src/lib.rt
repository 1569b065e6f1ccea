//! Values, names, slots, objects, conversions and plans by content, and what a table of texts makes of those by number.
//!
//! Below, a text is known by its number. Here it is its code units, and a name is a text. Which numbers texts have does
//! not matter to a store: each action does the same under other names for the slots and values that are known, as the
//! texts of a table give them, and a table that grows changes no name that it gave. There is no code: each law is the
//! contract of a function that does nothing.
#![tactic(auto)]

mod answers;
mod arenas;
mod laws;
mod renames;

pub use answers::PutAnswer;
pub use arenas::{arenas_by_content, arenas_stay, names_by_content, worlds_by_content};
pub use laws::{
    contents_stay, contents_tell, indices_are_spelled, plans_compose, stores_carry_plans,
    tables_know,
};
pub use renames::{
    actions_commute, faults_agree, fresh_is_known, listings_agree, names_grow, reached_agree,
    stores_commute,
};
