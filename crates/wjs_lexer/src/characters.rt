//! The kinds of characters.
ghost use Rattle.std.specs.Prelude.{◌≡◌};
ghost use Rattle.wjs_lexer.specs.Characters.{is_blank, is_line_end, starts_name, continues_name};
ghost use Rattle.wjs_lexer.specs.KindSteps.{kind_of};

/// The kind of a character, which tells the kinds of piece that may begin with it.
#[derive(Clone, Copy)]
pub(crate) enum Kind {
    Space,
    LineEnd,
    /// The start of an identifier or a reserved word.
    Letter,
    /// From `0` to `9`.
    Digit,
    /// `/`, which begins a comment or a sign.
    Slash,
    /// `"` or `'`.
    Quote,
    /// Any other character; some of them are signs.
    Mark,
}

/// Whether a character ends a line (ECMA-262, 3rd edition, section 7.3).
pub fn is_line_end(ch: char) -> bool
    ensures { result ≡ is_line_end ch }
{
    matches!(ch, '\n' | '\r' | '\u{2028}' | '\u{2029}')
}

fn is_blank(ch: char) -> bool
    ensures { result ≡ is_blank ch }
{
    matches!(
        ch,
        '\t' | '\u{B}' | '\u{C}' | ' ' | '\u{A0}' | '\u{1680}' | '\u{2000}'..='\u{200A}'
            | '\u{202F}'
            | '\u{205F}'
            | '\u{3000}'
    )
}

#[tactic(auto, unfolding(crate::specs::Characters::starts_name))]
pub(crate) fn starts_name(ch: char) -> bool
    ensures { result ≡ starts_name ch }
{
    ch == '$' || ch == '_' || unicode_ident::is_xid_start(ch)
}

#[tactic(auto, unfolding(crate::specs::Characters::continues_name))]
pub(crate) fn continues_name(ch: char) -> bool
    ensures { result ≡ continues_name ch }
{
    ch == '$' || unicode_ident::is_xid_continue(ch)
}

pub(crate) fn kind_of(ch: char) -> Kind
    ensures { result ≡ kind_of ch }
{
    if is_blank(ch) {
        Kind::Space
    } else if is_line_end(ch) {
        Kind::LineEnd
    } else if starts_name(ch) {
        Kind::Letter
    } else if ch.is_ascii_digit() {
        Kind::Digit
    } else if ch == '/' {
        Kind::Slash
    } else if ch == '"' || ch == '\'' {
        Kind::Quote
    } else {
        Kind::Mark
    }
}
