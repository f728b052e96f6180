//! The tokens of a text.
//!
//! `scan_text` cuts a text into words, numbers, signs, `..` and line ends, and says where the first byte
//! stands that can begin none of them. Blanks, blank lines and comments stand between tokens.
//!
//! Read `specs/Lexical.antt` first: `scan_of` is the lexical grammar, as one pass over the bytes. What a
//! word or a number means is left to the layers above. `specs/Lexing.antt` says what the tokens of a
//! text are, without the pass, and `specs/Cutting.antt` how they and the gaps between them make it up.
#![tactic(auto)]

mod laws;
mod lexer;
#[cfg(test)]
mod tests;
mod token;

pub use laws::{scans_are_tokens, scans_cut_the_text};
pub use lexer::{Scan, scan_text};
pub use std::alloc::AllocError as NoMemory;
pub use token::{Symbol, Token};
