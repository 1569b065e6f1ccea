//! Tokens at their bytes and lines, and the places of faults.

use std::alloc::Global;
use std::process::Abort;
use std::test::Fail;
use wjs_base::Whole;
use wjs_lexer::{LexFault, lex};
use wjs_texts::Texts;
use wjs_tree::{Sign, Tok, Token};

fn is_same(a: Token, b: Token) -> bool {
    match (a, b) {
        (Token::Word(a), Token::Word(b)) => a == b,
        (Token::Key(a), Token::Key(b)) => a == b,
        (Token::Sign(a), Token::Sign(b)) => a == b,
        (Token::Number(a), Token::Number(b)) => a == b,
        (Token::Text(a), Token::Text(b)) => a == b,
        _ => false,
    }
}

fn is_same_at(a: &Tok, b: &Tok) -> bool {
    is_same(a.token, b.token)
        && a.byte == b.byte
        && a.line == b.line
        && a.after_line == b.after_line
}

/// A name of two letters, and on the next line a sign, a blank and a number.
#[test]
fn tokens_stand_at_bytes_and_lines(rt: HostRuntime) -> Result<(), Fail> {
    let mut texts = Texts::new(rt.alloc())?;
    let name = texts.intern(&[0x61, 0x62])?;
    let due = [
        Tok {
            token: Token::Word(name),
            byte: 0,
            line: 1,
            after_line: false,
        },
        Tok {
            token: Token::Sign(Sign::Plus),
            byte: 3,
            line: 2,
            after_line: true,
        },
        Tok {
            token: Token::Number(Whole::new(1).ok_or("no number")?),
            byte: 5,
            line: 2,
            after_line: false,
        },
    ];
    let toks = lex(rt.alloc(), b"ab\n+ 1", &mut texts)?;
    assert_eq!(rt; toks.len(), due.len());
    for (tok, due) in toks.iter().zip(due.iter()) {
        assert!(rt; is_same_at(tok, due), "byte {}", due.byte);
    }
    Ok(())
}

fn fault_of(alloc: Global, script: &[u8]) -> Result<Option<LexFault>, Fail> {
    let mut texts = Texts::new(alloc)?;
    if script.len() > 16_777_216 {
        return Err("too long")?;
    }
    Ok(lex(alloc, script, &mut texts).err())
}

fn check_fault(
    rt: &impl Abort,
    alloc: Global,
    script: &[u8],
    due: Option<LexFault>,
) -> Result<(), Fail> {
    assert_eq!(rt; fault_of(alloc, script)?, due);
    Ok(())
}

/// Where no token begins, and where the bytes are no UTF-8, which is told first.
#[test]
fn faults_stand_at_bytes_and_lines(rt: HostRuntime) -> Result<(), Fail> {
    let alloc = rt.alloc();
    check_fault(&rt, alloc, b"x = 1;\r\n", None)?;
    check_fault(
        &rt,
        alloc,
        b"x = 1;\n#",
        Some(LexFault::NotAToken { byte: 7, line: 2 }),
    )?;
    check_fault(
        &rt,
        alloc,
        b"x /* y\n",
        Some(LexFault::NotAToken { byte: 2, line: 1 }),
    )?;
    check_fault(
        &rt,
        alloc,
        b"# \xE2\x82",
        Some(LexFault::NotUtf8 { byte: 2 }),
    )
}
