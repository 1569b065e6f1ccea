//! The properties of objects: reading, testing, putting, deleting and listing them in a world.
#![tactic(auto)]

mod arrays;
mod cuts;
mod deeds;
mod lengths;
mod listing;
mod order;
mod reads;
mod seen;
mod visits;
mod writes;

pub use deeds::{commit, create, look, look_held, read, sprout, write, write_rows};
pub use listing::list_names;
pub use reads::{get, has, peek, peek_held};
pub use visits::{Visit, Visits};
pub use writes::{delete, put};
