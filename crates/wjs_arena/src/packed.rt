//! An object as the arena keeps it: its links in short, and what few objects have in memory of its own.
ghost use Rattle.std.specs.Prelude.{◌≡◌, IfOk};
ghost use Rattle.wjs_arena.specs.AtName.{at_name};
ghost use Rattle.wjs_arena.specs.Links.{AreLinks};

use crate::class::Class;
use crate::link::{Linked, ShortLinks, short_links};
use crate::object::{Code, Flags, Object};
use crate::rare::{Beside, Wide, world_in};
use crate::rest::{Rest, rare_of, rest_of};
use std::alloc::Global;
use std::marker::Model;
use wjs_base::{Name, ObjId, OutOfMemory, Value, WorldId};

/// An object and its depth, in few bytes. Contracts see the entry.
///
/// The wide field comes where no bytes lie between, since fields lie in their order. An object whose links or depth are too great
/// for their fields has them with the rest.
#[derive(Drop)]
pub struct Packed {
    depth: u32,
    prototype_serial: u32,
    prototype_owner: u32,
    scope_serial: u32,
    scope_owner: u32,
    prototype: Linked,
    scope: Linked,
    class: Class,
    all_kept: bool,
    rest: Rest,
}

const _: () = prove!(size_of::<Packed>() == 40);

impl Model for Packed {
    ghost use Rattle.wjs_arena.specs.Entries.{Entry};
    ghost use Rattle.wjs_arena.specs.Codes.{coded_entry};
    ghost use Rattle.wjs_arena.specs.Links.{depth_in, link};
    ghost use Rattle.wjs_arena.specs.Packed.{few_in, unpacked, wide_in};

    ghost Value = { Entry };

    ghost coded = { coded_entry };

    ghost view = { λ p. unpacked (depth_in p.prototype p.depth (wide_in p.rest).depth) p.class
        (link p.prototype p.prototype_owner p.prototype_serial (wide_in p.rest).prototype) (link p.scope p.scope_owner p.scope_serial (wide_in p.rest).scope)
        (few_in p.rest) p.all_kept };
}

impl Packed {
    /// An object of a depth.
    pub fn new(alloc: Global, object: Object, depth: u64) -> Result<Packed, OutOfMemory>
        ensures { IfOk result (λ packed. packed ≡ record { object = object; depth = depth }) }
    {
        match short_links(&object, depth) {
            Some(links) => Packed::short(alloc, object, links),
            None => Packed::wide(alloc, object, depth),
        }
    }

    /// An object with its links in short.
    fn short(alloc: Global, object: Object, links: ShortLinks) -> Result<Packed, OutOfMemory>
        requires { AreLinks links object }
        ensures { IfOk result (λ packed. packed ≡ record { object = object; depth = links.depth }) }
    {
        let class = object.class;
        let all_kept = object.all_kept;
        let rest = rest_of(alloc, object)?;
        Ok(Packed {
            depth: links.depth,
            prototype_serial: links.prototype.serial,
            prototype_owner: links.prototype.owner,
            scope_serial: links.scope.serial,
            scope_owner: links.scope.owner,
            prototype: links.prototype.linked,
            scope: links.scope.linked,
            class,
            all_kept,
            rest,
        })
    }

    /// An object with its links with the rest.
    #[cold]
    fn wide(alloc: Global, object: Object, depth: u64) -> Result<Packed, OutOfMemory>
        ensures { IfOk result (λ packed. packed ≡ record { object = object; depth = depth }) }
    {
        let class = object.class;
        let all_kept = object.all_kept;
        let wide = Wide {
            depth,
            prototype: object.prototype,
            scope: object.scope,
            world: object.world,
        };
        let beside = Box::new(alloc, wide)?;
        let rest = rare_of(alloc, object, Beside::Wide(beside))?;
        Ok(Packed {
            depth: 0,
            prototype_serial: 0,
            prototype_owner: 0,
            scope_serial: 0,
            scope_owner: 0,
            prototype: Linked::Wide,
            scope: Linked::Wide,
            class,
            all_kept,
            rest,
        })
    }

    #[inline(always)]
    pub fn depth(&self) -> u64
        ensures { result ≡ self.now.depth }
    {
        match self.prototype {
            Linked::None => self.depth as u64,
            Linked::Short => self.depth as u64,
            Linked::Wide => self.rest.wide().depth,
        }
    }

    #[inline(always)]
    pub fn class(&self) -> Class
        ensures { result ≡ self.now.object.class }
    {
        self.class
    }

    #[inline(always)]
    pub fn prototype(&self) -> Option<ObjId>
        ensures { result ≡ self.now.object.prototype }
    {
        match self.prototype {
            Linked::None => None,
            Linked::Short => Some(ObjId {
                owner: self.prototype_owner,
                serial: self.prototype_serial as u64,
            }),
            Linked::Wide => self.rest.wide().prototype,
        }
    }

    #[inline(always)]
    pub fn scope(&self) -> Option<ObjId>
        ensures { result ≡ self.now.object.scope }
    {
        match self.scope {
            Linked::None => None,
            Linked::Short => Some(ObjId {
                owner: self.scope_owner,
                serial: self.scope_serial as u64,
            }),
            Linked::Wide => self.rest.wide().scope,
        }
    }

    #[inline(always)]
    pub fn all_kept(&self) -> bool
        ensures { result ≡ self.now.object.all_kept }
    {
        self.all_kept
    }

    #[inline(always)]
    pub fn code(&self) -> Code
        ensures { result ≡ self.now.object.code }
    {
        match &self.rest {
            Rest::Plain => Code::None,
            Rest::Hidden(_) => Code::None,
            Rest::Listed(_) => Code::None,
            Rest::Rare(rare) => rare.code,
        }
    }

    #[inline(always)]
    pub fn primitive(&self) -> Value
        ensures { result ≡ self.now.object.primitive }
    {
        match &self.rest {
            Rest::Plain => Value::Undefined,
            Rest::Hidden(_) => Value::Undefined,
            Rest::Listed(_) => Value::Undefined,
            Rest::Rare(rare) => rare.primitive,
        }
    }

    #[inline(always)]
    pub fn world(&self) -> Option<WorldId>
        ensures { result ≡ self.now.object.world }
    {
        match &self.rest {
            Rest::Plain => None,
            Rest::Hidden(_) => None,
            Rest::Listed(_) => None,
            Rest::Rare(rare) => world_in(&rare.beside),
        }
    }

    /// The fixed properties.
    #[inline(always)]
    pub fn fixed(&self) -> &[(Name, Value)]
        ensures { result.now ≡ self.now.object.fixed }
    {
        match &self.rest {
            Rest::Plain => &[],
            Rest::Hidden(_) => &[],
            Rest::Listed(_) => &[],
            Rest::Rare(rare) => rare.fixed.as_slice(),
        }
    }

    /// The attributes that the object lists for a name, if it does.
    pub fn flag(&self, name: Name) -> Option<Flags>
        ensures { result ≡ at_name self.now.object.flags name }
    {
        match &self.rest {
            Rest::Plain => None,
            Rest::Hidden(hidden) => hidden.get(name),
            Rest::Listed(flags) => flags.get(name),
            Rest::Rare(rare) => rare.flags.get(name),
        }
    }
}
