// Tokens of short texts, by hand.
use crate::{Symbol, Token, scan_text};
use std::test::Fail;

fn token(symbol: Symbol, from: usize, to: usize) -> Token {
    Token { symbol, from, to }
}

#[test]
fn a_text_is_cut_into_its_tokens(rt: HostRuntime) -> Result<(), Fail> {
    let scan = scan_text(rt.alloc(), b"order 1..12\n# size\n\n  S[x_1]\n", 0)?;
    assert_eq!(rt; scan.bad, None);
    assert_eq!(rt;
        scan.tokens.as_slice(),
        [
            token(Symbol::Word, 0, 5),
            token(Symbol::Number, 6, 7),
            token(Symbol::Dots, 7, 9),
            token(Symbol::Number, 9, 11),
            token(Symbol::LineEnd, 11, 12),
            token(Symbol::Word, 22, 23),
            token(Symbol::Sign(b'['), 23, 24),
            token(Symbol::Word, 24, 27),
            token(Symbol::Sign(b']'), 27, 28),
            token(Symbol::LineEnd, 28, 29),
        ]
        .as_slice()
    );
    Ok(())
}

#[test]
fn a_bad_byte_ends_the_tokens(rt: HostRuntime) -> Result<(), Fail> {
    let scan = scan_text(rt.alloc(), b"2n\x80+", 0)?;
    assert_eq!(rt; scan.bad, Some(2));
    assert_eq!(rt;
        scan.tokens.as_slice(),
        [token(Symbol::Number, 0, 1), token(Symbol::Word, 1, 2)].as_slice()
    );
    Ok(())
}
