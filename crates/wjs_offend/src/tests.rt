//! An offence of each kind.

use super::*;
use std::test::Fail;
use wjs_base::TextId;
use wjs_tree::{Key, Sign, Tok, Token};

/// The tokens, each on the line of the one before.
fn on_a_line(tokens: [Token; 4]) -> [Tok; 4] {
    tokens.map(|token| Tok {
        token,
        byte: 0,
        line: 1,
        after_line: false,
    })
}

#[test]
fn each_offence(rt: HostRuntime) -> Result<(), Fail> {
    let name = Token::Word(TextId(0));
    let open = Token::Sign(Sign::OpenParen);
    let plus = Token::Sign(Sign::Plus);
    let end = Token::Sign(Sign::Semicolon);
    let rows = [
        ([name, plus, name, end], Offence::NoToken),
        ([name, plus, open, name], Offence::End),
        ([name, Token::Sign(Sign::Assign), end, name], Offence::At(2)),
        (
            [name, plus, name, Token::Sign(Sign::Assign)],
            Offence::At(3),
        ),
        ([name, Token::Key(Key::Else), name, end], Offence::At(1)),
    ];
    for (tokens, due) in rows {
        assert_eq!(rt; offence(rt.alloc(), &on_a_line(tokens))?, due);
    }
    Ok(())
}
