//! What a body declares, and where its names are found.
#![tactic(auto)]

mod body;
mod body_rows;
mod body_table;
mod declarations;
mod laws;
mod levels;
mod marks;
mod names;
mod nesting;
mod place;
mod rows;
mod script;
mod shared;
mod table;
mod visit;
mod walk;

pub use body_rows::declared_bodies;
pub use body_table::BodyTable;
pub use declarations::Declarations;
pub use laws::{bodies_are_there, places_are_of_texts, places_stay};
pub use place::Place;
pub use script::{arguments_in, places};
pub use shared::Declared;
pub use table::Places;
