//! Names in two bytes.
ghost use Rattle.std.specs.Prelude.{◌≡◌, IfSome};
ghost use Rattle.std.specs.Ordering.{is_eq};
ghost use Rattle.wjs_base.specs.declared.values.Name.{Name};
ghost use Rattle.wjs_base.specs.Order.{name_cmp};
ghost use Rattle.wjs_names.specs.TinyNames.{rank_for};

use crate::short_name::ShortName;
use std::marker::Model;
use wjs_base::Name;

/// How many indices have tiny names, and how many texts.
const EACH: u32 = 32_768;

/// An index or a text with a number below 2^15, by its rank among these names. Contracts see the name.
#[derive(Clone, Copy)]
pub(crate) struct TinyName {
    rank: u16,
}

const _: () = prove!(size_of::<TinyName>() == 2);

impl Model for TinyName {
    ghost use Rattle.wjs_base.specs.declared.values.Name.{Name};
    ghost use Rattle.wjs_names.specs.Codes.{coded_name};
    ghost use Rattle.wjs_names.specs.TinyNames.{inverse_is, name_at, rank_of};

    ghost Value = { Name };

    ghost coded = { coded_name };

    ghost view = { λ t. name_at t.rank };

    ghost inverse = { λ name. record { rank = rank_of name } };

    ghost inverse_ok = { λ t h. inverse_is t };
}

/// The rank of a name; None exactly where its number is too great.
#[inline(always)]
pub(crate) fn rank_for(name: Name) -> Option<u32>
    ensures { result ≡ rank_for name }
{
    match name {
        Name::Index(index) => { if index < EACH { Some(index) } else { None } }
        Name::Text(text) => {
            if text.0 < EACH as u64 {
                Some(text.0 as u32 + EACH)
            } else {
                None
            }
        }
    }
}

impl TinyName {
    /// A name in two bytes; None where its number is too great.
    pub(crate) fn new(name: ShortName) -> Option<TinyName>
        ensures { IfSome result (λ tiny. tiny ≡ name) }
    {
        let rank = rank_for(name.name())?;
        Some(TinyName { rank: rank as u16 })
    }

    /// The name in short.
    #[inline(always)]
    pub(crate) fn short(self) -> ShortName
        ensures { result ≡ self }
    {
        let rank = self.rank as u32;
        if rank < EACH {
            ShortName::of_index(rank)
        } else {
            ShortName::of_text(rank - EACH)
        }
    }

    /// Whether this is its rank: many names are told apart by one number so.
    #[inline(always)]
    pub(crate) fn has_rank(self, rank: Option<u32>) -> bool
        ensures { (name : Name) → rank ≡ rank_for name → result ≡ is_eq (name_cmp name self) }
    {
        rank == Some(self.rank as u32)
    }
}
