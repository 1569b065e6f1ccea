//! Laws over the definitions of a script's tokens.
ghost use Rattle.wjs_lexer.specs.Laws.{OneReading, OneFault, TokensOrFault};

/// A script has one list of tokens, or one first place where no piece begins, and never both. So the
/// answers of [`lex`](crate::lex) other than `OutOfMemory` exclude each other.
pub fn one_reading()
    ensures tokens { OneReading }
    ensures fault { OneFault }
    ensures either { TokensOrFault }
{}
