// The scanner.
ghost use Rattle.std.specs.Prelude.{◌≡◌, ◌<◌, ◌≤◌, length, take_while, IfOk};
ghost use Rattle.ct_token.specs.Lexical as spec;
ghost use Rattle.ct_token.specs.Pieces.{view_of, scanned_by, IsWithin};

use crate::token::{Symbol, Token};
use std::alloc::{AllocError, Global};

/// What stands at the beginning of a text.
enum Piece {
    Gap(usize),
    Lexeme(Symbol, usize),
    Bad,
}

fn is_blank(byte: u8) -> bool
    ensures { result ≡ spec.is_blank byte }
{
    byte == b' ' || byte == b'\t'
}

fn is_letter(byte: u8) -> bool
    ensures { result ≡ spec.is_letter byte }
{
    matches!(byte, b'A'..=b'Z' | b'a'..=b'z')
}

fn is_digit(byte: u8) -> bool
    ensures { result ≡ spec.is_digit byte }
{
    matches!(byte, b'0'..=b'9')
}

fn is_printable(byte: u8) -> bool
    ensures { result ≡ spec.is_printable byte }
{
    matches!(byte, 33..=126)
}

fn word_len(text: &[u8]) -> usize
    ensures { result ≡ length (take_while spec.is_word_byte text.now) }
{
    text.iter()
        .take_while(|b| is_letter(**b) || is_digit(**b) || **b == b'_')
        .count()
}

fn number_len(text: &[u8]) -> usize
    ensures { result ≡ length (take_while spec.is_digit text.now) }
{
    text.iter().take_while(|b| is_digit(**b)).count()
}

fn is_inside_line(byte: u8) -> bool
    ensures { result ≡ spec.is_inside_line byte }
{
    !(byte == b'\n')
}

fn comment_len(text: &[u8]) -> usize
    ensures { result ≡ spec.comment_len text.now }
{
    text.iter().take_while(|b| is_inside_line(**b)).count()
}

fn line_end_len(text: &[u8]) -> usize
    ensures { result ≡ spec.line_end_len text.now }
{
    match text {
        [b'\n', ..] => 1,
        [b'\r', b'\n', ..] => 2,
        _ => 0,
    }
}

fn starts_dots(text: &[u8]) -> bool
    ensures { result ≡ spec.starts_dots text.now }
{
    matches!(text, [b'.', b'.', ..])
}

#[tactic(auto, unfolding(crate::specs::Lexical::piece_of))]
fn piece_at(is_fresh: bool, text: &[u8]) -> Piece
    ensures piece { view_of result ≡ spec.piece_of is_fresh text.now }
    ensures some { 0 < length text.now → IsWithin result (length text.now) }
{
    let [first, ..] = text else {
        return Piece::Bad;
    };
    let first = *first;
    let line_end = line_end_len(text);
    if is_blank(first) {
        Piece::Gap(1)
    } else if is_fresh && first == b'#' {
        Piece::Gap(comment_len(text))
    } else if line_end != 0 {
        if is_fresh {
            Piece::Gap(line_end)
        } else {
            Piece::Lexeme(Symbol::LineEnd, line_end)
        }
    } else if is_letter(first) {
        Piece::Lexeme(Symbol::Word, word_len(text))
    } else if is_digit(first) {
        Piece::Lexeme(Symbol::Number, number_len(text))
    } else if starts_dots(text) {
        Piece::Lexeme(Symbol::Dots, 2)
    } else if is_printable(first) {
        Piece::Lexeme(Symbol::Sign(first), 1)
    } else {
        Piece::Bad
    }
}

/// The tokens up to the first byte that can't stand where it does, and where that is.
#[derive(Debug, Drop)]
pub struct Scan {
    pub tokens: Vec<Token>,
    pub bad: Option<usize>,
}

fn is_line_end(symbol: Symbol) -> bool
    ensures { result ≡ spec.is_line_end symbol }
{
    matches!(symbol, Symbol::LineEnd)
}

/// The tokens of a text from this place on.
pub fn scan_text(alloc: Global, text: &[u8], from: usize) -> Result<Scan, AllocError>
    requires { from ≤ length text.now }
    ensures { IfOk result (λ s. scanned_by s ≡ spec.scan_of text.now from) }
{
    let mut tokens = Vec::new(alloc);
    let mut is_fresh = true;
    let mut at = from;
    while at < text.len() {
        let (_, rest) = text.split_at(at);
        match piece_at(is_fresh, rest) {
            Piece::Gap(len) => at += len,
            Piece::Lexeme(symbol, len) => {
                tokens.push(Token {
                    symbol,
                    from: at,
                    to: at + len,
                })?;
                is_fresh = is_line_end(symbol);
                at += len;
            }
            Piece::Bad => {
                return Ok(Scan {
                    tokens,
                    bad: Some(at),
                });
            }
        }
    }
    Ok(Scan { tokens, bad: None })
}
