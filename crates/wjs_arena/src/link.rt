//! Links of an object and its depth, in short.
ghost use Rattle.std.specs.Prelude.{◌≡◌, IfSome, Option};
ghost use Rattle.wjs_base.specs.declared.ids.ObjId.{ObjId};
ghost use Rattle.wjs_arena.specs.Links.{AreLinks, link};

use crate::object::Object;
use wjs_base::ObjId;

/// The greatest serial and the greatest depth that are kept in short.
const GREATEST: u64 = 4_294_967_295;

/// How a link is kept.
#[derive(Clone, Copy)]
pub(crate) enum Linked {
    None,
    /// In short.
    Short,
    /// Wide, as both links and the depth are then.
    Wide,
}

/// A number taken apart, if there is one.
#[derive(Clone, Copy)]
pub(crate) struct ShortLink {
    pub linked: Linked,
    pub owner: u32,
    pub serial: u32,
}

/// The links of an object and its depth.
#[derive(Clone, Copy)]
pub(crate) struct ShortLinks {
    pub depth: u32,
    pub prototype: ShortLink,
    pub scope: ShortLink,
}

/// The links of an object and its depth in short; none where one of them is too great.
pub(crate) fn short_links(object: &Object, depth: u64) -> Option<ShortLinks>
    ensures links { IfSome result (λ links. AreLinks links object.now) }
    ensures depth { IfSome result (λ links. links.depth ≡ depth) }
{
    if depth > GREATEST {
        return None;
    }
    match short_link(object.prototype) {
        None => None,
        Some(prototype) => match short_link(object.scope) {
            None => None,
            Some(scope) => Some(ShortLinks {
                depth: depth as u32,
                prototype,
                scope,
            }),
        },
    }
}

/// A number in short, if there is one; none where it is too great.
fn short_link(id: Option<ObjId>) -> Option<ShortLink>
    ensures { IfSome result (λ l. (wide : Option ObjId) → link l.linked l.owner l.serial wide ≡ id) }
{
    match id {
        None => Some(ShortLink {
            linked: Linked::None,
            owner: 0,
            serial: 0,
        }),
        Some(id) => short_number(id),
    }
}

/// A number in short; none where it is too great.
fn short_number(id: ObjId) -> Option<ShortLink>
    ensures { IfSome result (λ l. (wide : Option ObjId) → link l.linked l.owner l.serial wide ≡ Some id) }
{
    if id.serial > GREATEST {
        return None;
    }
    Some(ShortLink {
        linked: Linked::Short,
        owner: id.owner,
        serial: id.serial as u32,
    })
}
