//! The tokens of bytes, and why bytes are no script.
ghost use Rattle.std.specs.Prelude.{◌≤◌, ◌^◌, length, IfOk, IfErr};
ghost use Rattle.wjs_base.specs.Text.{Grows, IsTable};
ghost use Rattle.wjs_lexer.specs.Lexing.{HasTokens};
ghost use Rattle.wjs_load.specs.Loading.{IsRefused};

use std::alloc::Global;
use wjs_lexer::{LexFault, lex};
use wjs_texts::Texts;
use wjs_tree::Tok;

/// Why bytes are no script. The first of these that holds is the one that is told.
#[derive(Clone, Copy, Debug, PartialEq, Eq)]
pub enum Refusal {
    /// They aren't UTF-8.
    NotUtf8,
    /// No piece begins at a place on this line, counted from 1.
    NotAToken { line: u64 },
    /// On this line, counted from 1, begins the first token with which the tokens begin no program, whatever may follow; or the last
    /// token of all, where they begin a program and are none. Jumps, labels, a second `default` and height aren't asked.
    Unexpected { line: u64 },
    /// No well-formed program spells the tokens, and yet no token is at fault: one stands for them whose jumps, labels, clauses or
    /// height aren't those of a program.
    NotAScript,
}

/// Why no script was loaded.
#[derive(Clone, Copy, Debug, PartialEq, Eq)]
pub enum LoadFault {
    Refused(Refusal),
    OutOfMemory,
}

/// The tokens of the bytes, whose texts are put into the table. The empty text is put there before them, so that there is a text
/// to ask for, whose answer says that the texts are a table.
pub(crate) fn tokens(alloc: Global, bytes: &[u8], texts: &mut Texts) -> Result<Vec<Tok>, LoadFault>
    requires { length bytes.now ≤ 2 ^ 24 }
    ensures ok { IfOk result (λ toks. HasTokens bytes.now texts.new toks.items) }
    ensures err { IfErr result (IsRefused bytes.now) }
    ensures grows { Grows texts.old texts.new }
    ensures table { IsTable texts.new }
{
    let Ok(empty) = texts.intern(&[]) else {
        return Err(LoadFault::OutOfMemory);
    };
    let toks = cut(alloc, bytes, texts);
    let _units = texts.units(empty);
    toks
}

/// The tokens of the bytes.
fn cut(alloc: Global, bytes: &[u8], texts: &mut Texts) -> Result<Vec<Tok>, LoadFault>
    requires { length bytes.now ≤ 2 ^ 24 }
    ensures ok { IfOk result (λ toks. HasTokens bytes.now texts.new toks.items) }
    ensures err { IfErr result (IsRefused bytes.now) }
    ensures grows { Grows texts.old texts.new }
{
    match lex(alloc, bytes, texts) {
        Ok(toks) => Ok(toks),
        Err(LexFault::NotUtf8 { byte: _ }) => Err(LoadFault::Refused(Refusal::NotUtf8)),
        Err(LexFault::NotAToken { byte: _, line }) => {
            Err(LoadFault::Refused(Refusal::NotAToken { line }))
        }
        Err(LexFault::OutOfMemory) => Err(LoadFault::OutOfMemory),
    }
}
