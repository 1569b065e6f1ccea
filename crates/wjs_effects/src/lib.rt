//! Expressions and statements with an effect, done at once: their steps are taken, and no frame is made for them.
//!
//! All parts are evaluated first, over a configuration that stays as it is. What is left then is at most one text that is made, and one
//! store, which is done as the frames do it. So where a part has no value at once the answer is None, and nothing has changed.
#![tactic(auto)]

mod above;
mod blocks;
mod carries;
mod declarators;
mod deletes;
mod effect;
mod elements;
mod enters;
mod entries;
mod hopes;
mod joins;
mod makes;
mod parts;
mod pieces;
mod results;
mod sequences;
mod statements;
mod stores;
mod targets;
mod typeofs;
mod updates;

pub use above::wait_below;
pub use blocks::statement_of_block;
pub use carries::store_and_end;
pub use declarators::{Initialiser, initialiser_from};
pub use deletes::delete_at;
pub use elements::{Sequence, element_at, element_of, element_of_sequence};
pub use enters::{enter_at_once, enter_last_at_once};
pub use entries::{dropped, enter_statement};
pub use parts::{expression_at_once, reference_at_once, statement_at_once};
pub use results::result_at_once;
pub use sequences::{Reached, elements_at_once, end_of, waiting_point};
pub use targets::{dot_reference, index_reference};
pub use typeofs::type_of;
pub use updates::{given, updated};
