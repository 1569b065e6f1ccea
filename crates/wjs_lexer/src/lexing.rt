//! The tokens of a script.
ghost use Rattle.std.specs.Prelude.{◌≡◌, ℕ, List, ◌<◌, ◌≤◌, ◌^◌, Some, pos, length, IfOk, IfErr};
ghost use Rattle.wjs_base.specs.Text.{Denotes, Grows, longest};
ghost use Rattle.wjs_lexer.specs.Cursors.{IsPlaced, piece_of};
ghost use Rattle.wjs_lexer.specs.Readings.{has_line};
ghost use Rattle.wjs_lexer.specs.Lexing.{start, HasTokens, HasFault};
ghost use Rattle.wjs_lexer.specs.Steps.{IsShort, StartsAt, Fitting, MeansPiece, Goes, StepFault, Lexes, ReadFault, AreChars, CharsFault};

use crate::cursor::Cursor;
use crate::pieces::Scanned;
use std::alloc::{AllocError, Global};
use thiserror::Error;
use wjs_base::{TextId, Whole};
use wjs_texts::{TextFault, Texts};
use wjs_tree::{Tok, Token};

/// Why a script has no tokens.
#[derive(Clone, Copy, Debug, PartialEq, Eq, Error)]
pub enum LexFault {
    /// The bytes are not UTF-8: the longest front that is has this length.
    #[error("not UTF-8 at byte {byte}")]
    NotUtf8 { byte: u64 },
    /// Behind so many bytes, on this line, no piece begins.
    #[error("line {line}: not a token")]
    NotAToken { byte: u64, line: u64 },
    #[error("out of memory")]
    OutOfMemory,
}

/// What a piece gives.
#[derive(Clone, Copy)]
enum Step {
    Token(Token),
    /// No token; with whether the piece is a line terminator or holds one.
    Skip(bool),
}

/// Puts a text into the table.
fn intern(texts: &mut Texts, units: &[u16]) -> Result<TextId, LexFault>
    requires { length units.now ≤ longest }
    ensures ok { IfOk result (λ id. Denotes texts.new id units.now) }
    ensures fault { IfErr result (λ fault. fault ≡ LexFault.OutOfMemory) }
    ensures grows { Grows texts.old texts.new }
{
    match texts.intern(units) {
        Ok(id) => Ok(id),
        Err(TextFault::OutOfMemory) => Err(LexFault::OutOfMemory),
        Err(TextFault::TooLong) => unreachable!(),
    }
}

/// The number of this value.
fn whole_of(value: u64) -> Whole
    requires { value < 2 ^ 53 }
    ensures { result.number ≡ Some (pos value) }
{
    match Whole::new(value as i64) {
        Some(whole) => whole,
        None => unreachable!(),
    }
}

/// The token that a piece is, if it is one. Its text is put into the table.
fn token_of(scanned: Scanned, units: &[u16], texts: &mut Texts) -> Result<Option<Token>, LexFault>
    requires { Fitting (piece_of scanned units.now) }
    ensures ok { IfOk result (MeansPiece texts.new (piece_of scanned units.now)) }
    ensures fault { IfErr result (λ fault. fault ≡ LexFault.OutOfMemory) }
    ensures grows { Grows texts.old texts.new }
{
    match scanned {
        Scanned::Word => Ok(Some(Token::Word(intern(texts, units)?))),
        Scanned::Text => Ok(Some(Token::Text(intern(texts, units)?))),
        Scanned::Key(key) => Ok(Some(Token::Key(key))),
        Scanned::Sign(sign) => Ok(Some(Token::Sign(sign))),
        Scanned::Number(value) => Ok(Some(Token::Number(whole_of(value)))),
        Scanned::Space | Scanned::LineEnd | Scanned::LineComment | Scanned::BlockComment(_) => Ok(
            None,
        ),
    }
}

/// Whether the piece is a line terminator or a comment that holds one.
fn has_line(scanned: Scanned) -> bool
    ensures { (units : List ℕ) → result ≡ has_line (piece_of scanned units) }
{
    match scanned {
        Scanned::LineEnd => true,
        Scanned::BlockComment(holds_line) => holds_line,
        _ => false,
    }
}

/// Reads the piece that begins at the cursor.
fn take_piece(
    cursor: &mut Cursor,
    units: &mut Vec<u16>,
    texts: &mut Texts,
) -> Result<Step, LexFault>
    requires placed { IsPlaced cursor.old }
    requires short { IsShort cursor.old.chars.now }
    ensures ok { IfOk result (Goes cursor.old cursor.new texts.new) }
    ensures fault { IfErr result (StepFault cursor.old) }
    ensures grows { Grows texts.old texts.new }
{
    let byte = cursor.byte;
    let line = cursor.line;
    let scanned = match cursor.piece(units) {
        Ok(Some(scanned)) => scanned,
        Ok(None) => return Err(LexFault::NotAToken { byte, line }),
        Err(_) => return Err(LexFault::OutOfMemory),
    };
    match token_of(scanned, units, texts)? {
        Some(token) => Ok(Step::Token(token)),
        None => Ok(Step::Skip(has_line(scanned))),
    }
}

/// The cursor at the start of a text, behind one leading U+FEFF.
fn start_of(chars: &[char]) -> Cursor<'_>
    requires { length chars.now ≤ 2 ^ 24 }
    ensures { StartsAt chars.now result }
{
    let mut cursor = Cursor {
        chars,
        at: 0,
        byte: 0,
        line: 1,
    };
    if cursor.has('\u{FEFF}') {
        cursor.advance();
    }
    cursor
}

/// The tokens of a text.
fn read(alloc: Global, chars: &[char], texts: &mut Texts) -> Result<Vec<Tok>, LexFault>
    requires { IsShort chars.now }
    ensures ok { IfOk result (λ toks. Lexes chars.now (start chars.now) texts.new toks.items) }
    ensures fault { IfErr result (ReadFault chars.now (start chars.now)) }
    ensures grows { Grows texts.old texts.new }
{
    let mut cursor = start_of(chars);
    let mut units = Vec::new(alloc);
    let mut toks = Vec::new(alloc);
    let mut after_line = false;
    while cursor.at < chars.len() {
        let byte = cursor.byte;
        let line = cursor.line;
        match take_piece(&mut cursor, &mut units, texts) {
            Ok(Step::Token(token)) => {
                let tok = Tok {
                    token,
                    byte,
                    line,
                    after_line,
                };
                match toks.push(tok) {
                    Ok(()) => {}
                    Err(_) => return Err(LexFault::OutOfMemory),
                }
                after_line = false;
            }
            Ok(Step::Skip(holds_line)) => after_line |= holds_line,
            Err(fault) => return Err(fault),
        }
    }
    Ok(toks)
}

/// The characters of bytes in UTF-8.
fn characters(alloc: Global, bytes: &[u8]) -> Result<Vec<char>, LexFault>
    ensures ok { IfOk result (λ v. AreChars bytes.now v.items) }
    ensures fault { IfErr result (CharsFault bytes.now) }
{
    match std::str::from_utf8(bytes) {
        Ok(text) => {
            let chars: Result<Vec<char>, AllocError> = text.chars().collect(alloc);
            match chars {
                Ok(chars) => Ok(chars),
                Err(_) => Err(LexFault::OutOfMemory),
            }
        }
        Err(fault) => Err(LexFault::NotUtf8 {
            byte: fault.valid_up_to() as u64,
        }),
    }
}

/// The tokens of a script of at most 16,777,216 bytes (ECMA-262, 3rd edition, section 7): identifiers,
/// reserved words, signs, whole numbers up to 2^53 - 1 and string literals, each with the bytes before
/// it, its line and whether a line ended before it. Identifiers and string literals are put into the
/// table of texts, in which what was there keeps its number, also after a fault.
///
/// `NotUtf8` comes exactly where the bytes are not UTF-8, and `NotAToken` exactly where they are, and
/// pieces stand up to its byte but none begins there. One leading U+FEFF is dropped.
pub fn lex(alloc: Global, bytes: &[u8], texts: &mut Texts) -> Result<Vec<Tok>, LexFault>
    requires { length bytes.now ≤ 2 ^ 24 }
    ensures ok { IfOk result (λ toks. HasTokens bytes.now texts.new toks.items) }
    ensures fault { IfErr result (HasFault bytes.now) }
    ensures grows { Grows texts.old texts.new }
{
    let chars = characters(alloc, bytes)?;
    read(alloc, &chars, texts)
}
