//! Objects as they are in all worlds: what is fixed when they are made, in an arena that only grows, except that an owner's objects can
//! be taken out together.
#![tactic(auto)]

mod arena;
mod chain;
mod class;
mod entry;
mod hidden;
mod link;
mod listed;
mod native;
mod object;
mod packed;
mod rare;
mod rest;
mod rows;
mod under;
mod worlds;

pub use arena::{Arena, Owned};
pub use chain::Chain;
pub use class::Class;
pub use entry::Entry;
pub use listed::Listed;
pub use native::{
    ArrayNative, BooleanNative, ErrorNative, FunctionNative, GlobalNative, MathNative, Native,
    NumberNative, ObjectNative, StringNative, WorldNative,
};
pub use object::{Code, Flags, Object};
pub use under::Under;
