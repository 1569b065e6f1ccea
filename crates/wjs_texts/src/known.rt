//! The texts that the machine itself uses.
ghost use Rattle.std.specs.Prelude.{◌≡◌, ◌≤◌, length, Some, slice_get};
ghost use Rattle.wjs_base.specs.Text.{longest};
ghost use Rattle.wjs_texts.specs.Known.{known_texts, text_of};

/// How many there are.
pub(crate) const KNOWN: usize = 9;

/// A text that the machine itself uses.
#[derive(Clone, Copy)]
pub enum Known {
    Length,
    Prototype,
    Constructor,
    Arguments,
    Callee,
    Name,
    Message,
    ToString,
    ValueOf,
}

const LENGTH: [u16; 6] = [108, 101, 110, 103, 116, 104];

const PROTOTYPE: [u16; 9] = [112, 114, 111, 116, 111, 116, 121, 112, 101];

const CONSTRUCTOR: [u16; 11] = [99, 111, 110, 115, 116, 114, 117, 99, 116, 111, 114];

const ARGUMENTS: [u16; 9] = [97, 114, 103, 117, 109, 101, 110, 116, 115];

const CALLEE: [u16; 6] = [99, 97, 108, 108, 101, 101];

const NAME: [u16; 4] = [110, 97, 109, 101];

const MESSAGE: [u16; 7] = [109, 101, 115, 115, 97, 103, 101];

const TO_STRING: [u16; 8] = [116, 111, 83, 116, 114, 105, 110, 103];

const VALUE_OF: [u16; 7] = [118, 97, 108, 117, 101, 79, 102];

impl Known {
    /// Its code units.
    pub fn units(self) -> &'static [u16]
        ensures units { result.now ≡ text_of self }
        ensures short { length result.now ≤ longest }
    {
        match self {
            Known::Length => &LENGTH,
            Known::Prototype => &PROTOTYPE,
            Known::Constructor => &CONSTRUCTOR,
            Known::Arguments => &ARGUMENTS,
            Known::Callee => &CALLEE,
            Known::Name => &NAME,
            Known::Message => &MESSAGE,
            Known::ToString => &TO_STRING,
            Known::ValueOf => &VALUE_OF,
        }
    }

    /// Its place among them.
    #[inline(always)]
    pub(crate) fn place(self) -> usize
        ensures { slice_get known_texts result ≡ Some (text_of self) }
    {
        self as usize
    }
}
