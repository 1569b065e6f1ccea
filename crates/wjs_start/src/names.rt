//! Texts and names of the machine's own, put into the table.
ghost use Rattle.std.specs.Prelude.{All, IfOk, map};
ghost use Rattle.wjs_base.specs.Text.{Table, Grows, Has, IsTable};
ghost use Rattle.wjs_by_content.specs.Tables.{text_in};
ghost use Rattle.wjs_meaning.specs.Start.{library_names};
ghost use Rattle.wjs_start.specs.Names.{IsTextOf, IsNameOf, AreNamesOf, words_in};

use std::alloc::Global;
use wjs_base::{Name, OutOfMemory, TextId};
use wjs_texts::{Texts, units_of_ascii};

/// A name in ASCII.
#[derive(Clone, Copy)]
struct Word {
    ascii: &'static [u8],
}

/// The names that the library puts on Array.prototype (ECMA-262, 3rd edition, section 15.4.4).
const LIBRARY: [Word; 10] = [
    Word { ascii: b"join" },
    Word { ascii: b"toString" },
    Word { ascii: b"concat" },
    Word { ascii: b"pop" },
    Word { ascii: b"push" },
    Word { ascii: b"reverse" },
    Word { ascii: b"shift" },
    Word { ascii: b"slice" },
    Word { ascii: b"splice" },
    Word { ascii: b"unshift" },
];

/// The number of a text, which is put last where it is new.
pub(crate) fn text_number(
    alloc: Global,
    texts: &mut Texts,
    ascii: &[u8],
) -> Result<TextId, OutOfMemory>
    ensures grows { Grows texts.old texts.new }
    ensures table { IfOk result (λ _. IsTable texts.new) }
    ensures is { IfOk result (λ id. (t : Table) → Grows texts.new t → IsTextOf t id ascii.now) }
{
    let Ok(units) = units_of_ascii(alloc, ascii) else {
        return Err(OutOfMemory);
    };
    match texts.intern(units.as_slice()) {
        Ok(id) => Ok(id),
        Err(_) => Err(OutOfMemory),
    }
}

/// A name, whose text is put last where it is new.
pub(crate) fn name_number(
    alloc: Global,
    texts: &mut Texts,
    ascii: &[u8],
) -> Result<Name, OutOfMemory>
    ensures grows { Grows texts.old texts.new }
    ensures table { IfOk result (λ _. IsTable texts.new) }
    ensures is { IfOk result (λ name. (t : Table) → Grows texts.new t → IsNameOf t name ascii.now) }
{
    let id = text_number(alloc, texts, ascii)?;
    Ok(texts.name_of(id))
}

/// The names that the library puts on Array.prototype.
pub(crate) fn library(alloc: Global, texts: &mut Texts) -> Result<Vec<Name>, OutOfMemory>
    requires { IsTable texts.old }
    ensures grows { Grows texts.old texts.new }
    ensures table { IfOk result (λ _. IsTable texts.new) }
    ensures are { IfOk result (λ names. (t : Table) → Grows texts.new t → AreNamesOf t names.items library_names) }
{
    name_numbers(alloc, texts, &LIBRARY)
}

fn name_numbers(alloc: Global, texts: &mut Texts, words: &[Word]) -> Result<Vec<Name>, OutOfMemory>
    requires { IsTable texts.old }
    ensures grows { Grows texts.old texts.new }
    ensures table { IfOk result (λ _. IsTable texts.new) }
    ensures are { IfOk result (λ names. (t : Table) → Grows texts.new t → AreNamesOf t names.items (words_in words.now)) }
{
    let mut names = Vec::new(alloc);
    for word in words {
        let name = name_number(alloc, texts, word.ascii)?;
        names.push(name)?;
    }
    Ok(names)
}

/// The names of texts.
pub(crate) fn names_of(
    alloc: Global,
    texts: &Texts,
    ids: &[TextId],
) -> Result<Vec<Name>, OutOfMemory>
    requires { All (Has texts.now) ids.now }
    ensures { IfOk result (λ names. (t : Table) → Grows texts.now t → AreNamesOf t names.items (map (text_in t) ids.now)) }
{
    let mut names = Vec::new(alloc);
    for id in ids {
        let name = texts.name_of(*id);
        names.push(name)?;
    }
    Ok(names)
}
