//! The token at which a list of tokens stops being the front of a program.
ghost use Rattle.std.specs.Prelude.{IfOk};
ghost use Rattle.wjs_offend.specs.Offences.{IsOffence, OneOffence, SomeOffence};

use crate::answer::Offence;
use crate::class::class_of;
use crate::machine::Machine;
use std::alloc::Global;
use wjs_base::OutOfMemory;
use wjs_forms::{Class, goes_on, spelled_is_taken, taken_is_spelled};
use wjs_tree::Tok;

/// The offence of the tokens of a script. It takes time in proportion to the tokens, and memory in proportion to the forms that
/// are open at once.
pub fn offence(alloc: Global, toks: &[Tok]) -> Result<Offence, OutOfMemory>
    ensures { IfOk result (λ offence. IsOffence toks.now offence) }
{
    // The machine's table takes the tokens of programs, takes no others, and has no dead end.
    spelled_is_taken();
    taken_is_spelled();
    goes_on();
    let mut machine = Machine::new(alloc);
    for (place, tok) in toks.iter().enumerate() {
        if !machine.take(class_of(tok.token), !tok.after_line)? {
            return Ok(Offence::At(place));
        }
    }
    if machine.take(Class::End, true)? {
        Ok(Offence::NoToken)
    } else {
        Ok(Offence::End)
    }
}

/// Tokens have one offence, and always one.
pub fn one_offence()
    ensures most { OneOffence }
    ensures some { SomeOffence }
{
    spelled_is_taken();
    taken_is_spelled();
    goes_on();
}
