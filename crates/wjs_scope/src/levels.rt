//! The scopes of a script.
ghost use Rattle.std.specs.Prelude.{List, ◌≡◌, [], ◌∷◌, IfOk};
ghost use Rattle.wjs_scope.specs.Scopes.{Scope, resolve};
ghost use Rattle.wjs_scope.specs.Levels.{Nests, IsNest, Opens, OpensOwn, OpensCaught};

use crate::names::NameSet;
use crate::place::Place;
use std::alloc::Global;
use wjs_base::{OutOfMemory, TextId};
use wjs_tree::Handler;

/// A scope, and the number of the one around it. Scopes are counted from 1; 0 stands for none.
#[derive(Drop)]
pub struct Level {
    pub names: NameSet,
    pub outer: u64,
}

/// The place of a name among the scopes of a number.
pub fn resolve(levels: &[Level], from: u64, name: TextId) -> Place
    requires { IsNest levels.now from }
    ensures { (scopes : List Scope) → Nests levels.now from scopes → result ≡ resolve scopes name }
{
    let mut at = from;
    let mut hops = 0;
    while at > 0 {
        let level = &levels[(at - 1) as usize];
        if level.names.contains(name) {
            return Place::Local { hops };
        }
        hops += 1;
        at = level.outer;
    }
    Place::Global
}

/// Opens a scope within those of a number, and gives its own number.
pub fn open(levels: &mut Vec<Level>, names: NameSet, at: u64) -> Result<u64, OutOfMemory>
    requires { IsNest levels.old.items at }
    ensures { IfOk result (λ inner. Opens levels.old.items levels.new.items at inner names) }
{
    levels.push(Level { names, outer: at })?;
    Ok(levels.len() as u64)
}

/// Opens a scope of one name.
pub fn open_one(
    alloc: Global,
    levels: &mut Vec<Level>,
    name: TextId,
    at: u64,
) -> Result<u64, OutOfMemory>
    requires { IsNest levels.old.items at }
    ensures { IfOk result (λ inner. Opens levels.old.items levels.new.items at inner (name ∷ [])) }
{
    let mut names = NameSet::new(alloc);
    names.add(name)?;
    open(levels, names, at)
}

/// Opens the scope of a function expression's name, if it has one.
pub fn open_own(
    alloc: Global,
    levels: &mut Vec<Level>,
    name: Option<TextId>,
    at: u64,
) -> Result<u64, OutOfMemory>
    requires { IsNest levels.old.items at }
    ensures { IfOk result (λ inner. OpensOwn levels.old.items levels.new.items at inner name) }
{
    match name {
        Some(x) => open_one(alloc, levels, x, at),
        None => Ok(at),
    }
}

/// Opens the scope of the name of a `catch`, if there is one.
pub fn open_caught(
    alloc: Global,
    levels: &mut Vec<Level>,
    handler: Option<Handler>,
    at: u64,
) -> Result<u64, OutOfMemory>
    requires { IsNest levels.old.items at }
    ensures { IfOk result (λ inner. OpensCaught levels.old.items levels.new.items at inner handler) }
{
    match handler {
        Some(h) => open_one(alloc, levels, h.name, at),
        None => Ok(at),
    }
}
