//! What few objects have.
ghost use Rattle.std.specs.Prelude.{◌≡◌};
ghost use Rattle.wjs_arena.specs.Packed.{no_links, wide_of, world_in};

use crate::listed::Listed;
use crate::object::Code;
use crate::under::Under;
use wjs_base::{ObjId, Value, WorldId};

/// What scopes, plain objects and arrays' elements have not: code, what a wrapper holds, a world, fixed properties and
/// attributes.
#[derive(Drop)]
pub struct Rare {
    pub code: Code,
    pub primitive: Value,
    pub beside: Beside,
    pub fixed: Under<Value>,
    pub flags: Listed,
}

/// A world, or what else few of these have.
#[derive(Drop)]
pub enum Beside {
    Nothing,
    World(WorldId),
    Wide(Box<Wide>),
}

/// What an object has whose links or depth have no place in short: all of them, and its world.
#[derive(Clone, Copy)]
pub struct Wide {
    pub depth: u64,
    pub prototype: Option<ObjId>,
    pub scope: Option<ObjId>,
    pub world: Option<WorldId>,
}

/// A world alone, if there is one.
pub(crate) fn beside_of(world: Option<WorldId>) -> Beside
    ensures { world_in result ≡ world }
{
    match world {
        None => Beside::Nothing,
        Some(world) => Beside::World(world),
    }
}

/// The world that an object stands for.
pub(crate) fn world_in(beside: &Beside) -> Option<WorldId>
    ensures { result ≡ world_in beside.now }
{
    match beside {
        Beside::Nothing => None,
        Beside::World(world) => Some(*world),
        Beside::Wide(wide) => wide.world,
    }
}

/// Links and depth that have no place in short; none where all have.
pub(crate) fn wide_of(beside: &Beside) -> Wide
    ensures { result ≡ wide_of beside.now }
{
    match beside {
        Beside::Nothing => no_links(),
        Beside::World(_) => no_links(),
        Beside::Wide(wide) => Wide {
            depth: wide.depth,
            prototype: wide.prototype,
            scope: wide.scope,
            world: wide.world,
        },
    }
}

/// No links.
pub(crate) fn no_links() -> Wide
    ensures { result ≡ no_links }
{
    Wide {
        depth: 0,
        prototype: None,
        scope: None,
        world: None,
    }
}
