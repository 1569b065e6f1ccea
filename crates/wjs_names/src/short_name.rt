//! Names in few bytes.
ghost use Rattle.std.specs.Prelude.{◌≡◌, IfSome};
ghost use Rattle.std.specs.Ordering.{is_eq, is_gt};
ghost use Rattle.wjs_base.specs.declared.values.Name.TheVariants.{Index, Text};
ghost use Rattle.wjs_base.specs.Order.{name_cmp};

use std::marker::Model;
use wjs_base::{Name, TextId};

/// The greatest number of a text whose name is kept in short.
const GREATEST_TEXT: u64 = 4_294_967_295;

/// An index, or a text with a number below 2^32, in 8 bytes. Contracts see the name.
#[derive(Clone, Copy)]
pub(crate) struct ShortName {
    number: u32,
    is_text: bool,
}

const _: () = prove!(size_of::<ShortName>() == 8);

impl Model for ShortName {
    ghost use Rattle.wjs_base.specs.declared.values.Name.{Name};
    ghost use Rattle.wjs_names.specs.Codes.{coded_name};
    ghost use Rattle.wjs_names.specs.ShortNames.{inverse_is, name_in, number_of, is_text_name};

    ghost Value = { Name };

    ghost coded = { coded_name };

    ghost view = { λ s. name_in s.is_text s.number };

    ghost inverse = { λ name. record { number = number_of name; is_text = is_text_name name } };

    ghost inverse_ok = { λ s h. inverse_is s };
}

impl ShortName {
    /// A name in short; None only where a text's number is too great.
    #[inline(always)]
    pub(crate) fn new(name: Name) -> Option<ShortName>
        ensures { IfSome result (λ short. short ≡ name) }
    {
        match name {
            Name::Index(index) => Some(ShortName {
                number: index,
                is_text: false,
            }),
            Name::Text(text) => {
                if text.0 > GREATEST_TEXT {
                    return None;
                }
                Some(ShortName {
                    number: text.0 as u32,
                    is_text: true,
                })
            }
        }
    }

    /// The name of an index.
    #[inline(always)]
    pub(crate) fn of_index(index: u32) -> ShortName
        ensures { result ≡ Index index }
    {
        ShortName {
            number: index,
            is_text: false,
        }
    }

    /// The name of a text.
    #[inline(always)]
    pub(crate) fn of_text(text: u32) -> ShortName
        ensures { result ≡ Text (record { 0 = text }) }
    {
        ShortName {
            number: text,
            is_text: true,
        }
    }

    /// The name.
    #[inline(always)]
    pub(crate) fn name(self) -> Name
        ensures { result ≡ self }
    {
        if self.is_text {
            Name::Text(TextId(self.number as u64))
        } else {
            Name::Index(self.number)
        }
    }

    /// Whether it is this name.
    #[inline(always)]
    pub(crate) fn is_named(self, name: Name) -> bool
        ensures { result ≡ is_eq (name_cmp name self) }
    {
        match name {
            Name::Index(index) => !self.is_text && self.number == index,
            Name::Text(text) => self.has(text),
        }
    }

    /// Whether it is this text.
    #[inline(always)]
    pub(crate) fn has(self, text: TextId) -> bool
        ensures { result ≡ is_eq (name_cmp (Text text) self) }
    {
        self.is_text && self.number as u64 == text.0
    }

    /// Whether a name comes after it.
    #[inline(always)]
    pub(crate) fn is_before(self, name: Name) -> bool
        ensures { result ≡ is_gt (name_cmp name self) }
    {
        match name {
            Name::Index(index) => !self.is_text && index > self.number,
            Name::Text(text) => !self.is_text || text.0 > self.number as u64,
        }
    }
}
