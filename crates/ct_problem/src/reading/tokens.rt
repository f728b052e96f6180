// A cursor over the tokens of a text.
ghost use Rattle.std.specs.Prelude.{◌≡◌, length, Ok, Some};
ghost use Rattle.ct_problem.specs.Cursor.{input_at, IsCursor, IsSpelled};
ghost use Rattle.ct_problem.specs.Input as spec;
ghost use Rattle.ct_problem.specs.Input.{Reads};
ghost use Rattle.ct_problem.specs.ReadProblem.{end_in};
ghost use Rattle.ct_problem.specs.declared.fault.ReadFault.TheVariants.{Bad};

use crate::fault::{BadInput, BadKind, ReadFault};
use ct_token::{Symbol, Token};
use std::marker::Model;

/// The tokens that are left of a text, and where the first byte stands behind them that begins none.
#[derive(Drop)]
pub struct Tokens<'a> {
    text: &'a [u8],
    left: &'a [Token],
    bad: Option<usize>,
}

impl<'a> Model for Tokens<'a> {
    ghost use Rattle.ct_problem.specs.Input.{Input};
    ghost use Rattle.ct_problem.specs.Cursor.{input_of, IsReadable};

    ghost Value = { Input };

    ghost view = { input_of };

    ghost invariant = { IsReadable };
}

impl<'a> Tokens<'a> {
    pub fn new(text: &'a [u8], left: &'a [Token], bad: Option<usize>) -> Tokens<'a>
        requires { IsCursor text.now left.now }
        ensures { result ≡ input_at text.now left.now bad }
    {
        Tokens { text, left, bad }
    }

    pub fn peek(&self) -> Option<Symbol>
        ensures { result ≡ spec.symbol self.now }
    {
        match self.left {
            [first, ..] => Some(first.symbol),
            [] => None,
        }
    }

    /// How many tokens are left.
    pub fn count(&self) -> usize
        ensures { result ≡ length self.now.left }
    {
        self.left.len()
    }

    pub fn skip(&mut self)
        ensures { self.new ≡ spec.next self.old }
    {
        if let [_, rest @ ..] = self.left {
            self.left = rest;
        }
    }

    /// The bytes of the next token.
    pub fn spelling(&self) -> &'a [u8]
        ensures value { result.now ≡ spec.spelling self.now }
        ensures ascii { IsSpelled self.now result.now }
    {
        match self.left {
            [first, ..] => slice_of(self.text, first.from, first.to),
            [] => &[],
        }
    }

    /// Where the next token begins; at the end, how long the text is.
    pub fn place(&self) -> usize
        ensures { result ≡ spec.place self.now }
    {
        match self.left {
            [first, ..] => first.from,
            [] => self.text.len(),
        }
    }

    /// Where the next token ends.
    pub fn end(&self) -> usize
        ensures { result ≡ end_in self.now.left }
    {
        match self.left {
            [first, ..] => first.to,
            [] => 0,
        }
    }

    /// A fault at the next token.
    #[tactic(auto, unfolding(crate::specs::Input::fault_of))]
    pub fn fault(&self, kind: BadKind) -> ReadFault
        ensures { result ≡ Bad (spec.fault_of kind self.now) }
    {
        let kind = match self.left {
            [_, ..] => kind,
            [] => BadKind::Unfinished,
        };
        ReadFault::Bad(BadInput {
            kind,
            offset: self.place(),
        })
    }

    #[tactic(auto, unfolding(crate::specs::Input::sees))]
    pub fn sees(&self, sign: u8) -> bool
        ensures { result ≡ spec.sees sign self.now }
    {
        match self.peek() {
            Some(Symbol::Sign(found)) => found == sign,
            _ => false,
        }
    }

    #[tactic(auto, unfolding(crate::specs::Input::eat))]
    pub fn eat(&mut self, sign: u8) -> bool
        ensures { spec.eat sign self.old ≡ Ok (result, self.new) }
    {
        let found = self.sees(sign);
        if found {
            self.skip();
        }
        found
    }

    #[tactic(auto, unfolding(crate::specs::Input::expect))]
    pub fn expect(&mut self, sign: u8) -> Result<(), ReadFault>
        ensures { Reads (spec.expect sign self.old) result self.new }
    {
        if self.eat(sign) {
            Ok(())
        } else {
            Err(self.fault(BadKind::Syntax))
        }
    }

    #[tactic(auto, unfolding(crate::specs::Input::sees_word))]
    pub fn sees_word(&self, word: &[u8]) -> bool
        ensures { result ≡ spec.sees_word word.now self.now }
    {
        match self.peek() {
            Some(Symbol::Word) => self.spelling() == word,
            _ => false,
        }
    }

    #[tactic(auto, unfolding(crate::specs::Input::eat_word))]
    pub fn eat_word(&mut self, word: &[u8]) -> bool
        ensures { spec.eat_word word.now self.old ≡ Ok (result, self.new) }
    {
        let found = self.sees_word(word);
        if found {
            self.skip();
        }
        found
    }

    #[tactic(auto, unfolding(crate::specs::Input::expect_word))]
    pub fn expect_word(&mut self, word: &[u8]) -> Result<(), ReadFault>
        ensures { Reads (spec.expect_word word.now self.old) result self.new }
    {
        if self.eat_word(word) {
            Ok(())
        } else {
            Err(self.fault(BadKind::Syntax))
        }
    }

    /// The step to a line, which may have a byte that begins no token.
    #[tactic(auto, unfolding(crate::specs::Input::fresh_line))]
    pub fn fresh_line(&self) -> Result<(), ReadFault>
        ensures { Reads (spec.fresh_line self.now) result self.now }
    {
        match self.bad {
            Some(offset) if !has_line_end(self.left) => Err(ReadFault::Bad(BadInput {
                kind: BadKind::BadByte,
                offset,
            })),
            _ => Ok(()),
        }
    }

    #[tactic(auto, unfolding(crate::specs::Input::line_end))]
    pub fn line_end(&mut self) -> Result<(), ReadFault>
        ensures { Reads (spec.line_end self.old) result self.new }
    {
        match self.peek() {
            Some(Symbol::LineEnd) => {
                self.skip();
                self.fresh_line()
            }
            None => Ok(()),
            _ => Err(self.fault(BadKind::Syntax)),
        }
    }

    #[tactic(auto, unfolding(crate::specs::Input::dots))]
    pub fn dots(&mut self) -> Result<(), ReadFault>
        ensures { Reads (spec.dots self.old) result self.new }
    {
        match self.peek() {
            Some(Symbol::Dots) => {
                self.skip();
                Ok(())
            }
            _ => Err(self.fault(BadKind::Syntax)),
        }
    }
}

#[tactic(auto, unfolding(crate::specs::Input::slice_of))]
fn slice_of(text: &[u8], from: usize, to: usize) -> &[u8]
    ensures { result.now ≡ spec.slice_of from to text.now }
{
    let (_, rest) = text.split_at(from.min(text.len()));
    let (front, _) = rest.split_at(to.saturating_sub(from).min(rest.len()));
    front
}

#[tactic(auto, unfolding(crate::specs::Input::has_line_end))]
fn has_line_end(left: &[Token]) -> bool
    ensures { result ≡ spec.has_line_end left.now }
{
    left.iter()
        .any(|token| matches!(token.symbol, Symbol::LineEnd))
}
