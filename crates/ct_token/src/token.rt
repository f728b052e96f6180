// Tokens.

/// What a token is. A sign is one printable byte.
#[derive(Clone, Copy, Debug, PartialEq, Eq)]
pub enum Symbol {
    Word,
    Number,
    Sign(u8),
    Dots,
    LineEnd,
}

/// A token, and the bytes of the text that it takes.
#[derive(Clone, Copy, Debug, PartialEq, Eq)]
pub struct Token {
    pub symbol: Symbol,
    pub from: usize,
    pub to: usize,
}
