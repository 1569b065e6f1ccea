//! Where tokens that spell no program can't go on.
ghost use Rattle.std.specs.Prelude.{◌≡◌};
ghost use Rattle.wjs_load.specs.Stops.{line_of};
ghost use Rattle.wjs_load.specs.Reading.{SpellsNone, HasFault};

use crate::tokens::{LoadFault, Refusal};
use std::alloc::Global;
use wjs_offend::{Offence, offence};
use wjs_tree::Tok;

/// Why tokens that spell no well-formed program are refused.
pub(crate) fn fault_of(alloc: Global, toks: &[Tok]) -> LoadFault
    requires { SpellsNone toks.now }
    ensures { HasFault toks.now result }
{
    let Ok(offence) = offence(alloc, toks) else {
        return LoadFault::OutOfMemory;
    };
    match line_of(toks, offence) {
        Some(line) => LoadFault::Refused(Refusal::Unexpected { line }),
        None => LoadFault::Refused(Refusal::NotAScript),
    }
}

/// The line of an offence: that of the token at fault, or of the last one where the end is.
fn line_of(toks: &[Tok], offence: Offence) -> Option<u64>
    ensures { result ≡ line_of toks.now offence }
{
    match offence {
        Offence::At(place) => toks.get(place).map(|tok| tok.line),
        Offence::End => toks.last().map(|tok| tok.line),
        Offence::NoToken => None,
    }
}
