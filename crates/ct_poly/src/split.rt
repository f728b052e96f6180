// A polynomial in parts: sign, content, common monomial and primitive part.
ghost use Rattle.std.specs.Prelude.{◌≡◌, ◌≢◌, ◌≤◌, IfOk, pos};
ghost use Rattle.ct_algebra.specs.Monomial.{unit};
ghost use Rattle.ct_algebra.specs.Polynomial.{polys};
ghost use Rattle.ct_algebra.specs.Terms.{EachTerm};
ghost use Rattle.ct_poly.specs.Content.{DividesEach, TermDivides, divided, content, common_monomial, is_negative, signed, signed_content, primitive_form, primitive_part};
ghost use Rattle.ct_checked.specs.Limits.{largest_norm};

use crate::content::{
    common_monomial_of_terms, content_of_terms, divided_terms, is_first_negative,
};
use crate::poly::Poly;
use ct_mono::{Monomial, NoMemory};
use std::alloc::Global;

/// The parts whose product is a polynomial.
#[derive(Drop)]
pub struct Split {
    pub negative: bool,
    pub content: u128,
    pub mono: Monomial,
    pub primitive: Poly,
}

impl Poly {
    /// The greatest whole number that divides every coefficient; that of 0 is 0.
    pub fn content(&self) -> u128
        ensures value { result ≡ content self.now }
        ensures within { result ≤ largest_norm }
    {
        self.within_limits();
        content_of_terms(self.terms())
    }

    /// The sign of the leading coefficient, the content, the common monomial and what is left.
    pub fn split(&self, alloc: Global) -> Result<Split, NoMemory>
        requires { self.now ≢ polys.zero }
        ensures negative { IfOk result (λ s. s.negative ≡ is_negative self.now) }
        ensures content { IfOk result (λ s. s.content ≡ content self.now) }
        ensures mono { IfOk result (λ s. s.mono ≡ common_monomial self.now) }
        ensures primitive { IfOk result (λ s. s.primitive ≡ primitive_part self.now) }
    {
        let mono = common_monomial_of_terms(self.terms());
        let primitive = self.divided(alloc, &mono, self.signed_content())?;
        Ok(Split {
            negative: is_first_negative(self.terms()),
            content: self.content(),
            mono,
            primitive,
        })
    }

    /// The polynomial over its content and the sign of its leading coefficient.
    pub fn primitive_form(&self, alloc: Global) -> Result<Poly, NoMemory>
        ensures value { IfOk result (λ p. p ≡ primitive_form self.now) }
    {
        self.divided(alloc, &Monomial::one(), self.signed_content())
    }

    /// The quotient by a whole number that divides every coefficient.
    pub fn over_whole(&self, alloc: Global, divisor: u128) -> Result<Poly, NoMemory>
        requires within { divisor ≤ largest_norm }
        requires divides { DividesEach divisor self.now }
        ensures value { IfOk result (λ p. p ≡ divided unit (pos divisor) self.now) }
    {
        self.divided(alloc, &Monomial::one(), divisor as i128)
    }

    fn divided(&self, alloc: Global, mono: &Monomial, divisor: i128) -> Result<Poly, NoMemory>
        requires { EachTerm (TermDivides mono.now divisor) self.now.terms }
        ensures { IfOk result (λ p. p ≡ divided mono.now divisor self.now) }
    {
        self.within_limits();
        let terms = divided_terms(alloc, self.terms(), mono, divisor)?;
        Ok(Poly::of_terms(terms))
    }

    fn signed_content(&self) -> i128
        ensures { result ≡ signed_content self.now }
    {
        signed_number(is_first_negative(self.terms()), self.content())
    }
}

fn signed_number(negative: bool, size: u128) -> i128
    requires { size ≤ largest_norm }
    ensures { result ≡ signed negative size }
{
    let number = size as i128;
    if negative { -number } else { number }
}
