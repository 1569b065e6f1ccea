//! Deeds on the heap of a configuration: the operations on properties, slots, objects, worlds, texts, references and output.
//!
//! Each says of which deeds of a line it is: what follows their answer in the new configuration follows them in the old one.
#![tactic(auto)]

mod errors;
mod known;
mod looks;
mod makes;
mod messages;
mod operands;
mod output;
mod peeks;
mod properties;
mod references;
mod slots;
mod texts;
mod values;
mod worlds;

pub use errors::create_error;
pub use known::{get_known, known_name, write_known};
pub use looks::{
    class_of, code_of, fixed, function_of, is_array, is_callable, is_hidden, is_past, next_number,
    primitive_of, scope_of, world_object,
};
pub use makes::{
    builtin, create, create_array, create_plain, create_scope, create_wrapper, object_of, one_fixed,
};
pub use operands::{name_completion, operand_completion, reference_completion};
pub use output::emit;
pub use peeks::{peek_member, peek_operand, peek_target, peek_value_of, peek_word};
pub use properties::{delete, get, get_value, has, put, visits};
pub use references::{reference_at, store, store_local, value_of};
pub use slots::{read, read_content, write, write_rows};
pub use texts::{extend, intern, name_of, text_of, units_of};
pub use values::member_value;
pub use wjs_texts::Known;
pub use worlds::{commit, create_world_object, sprout, world_at, world_of};
