// Polynomials: lists of terms with falling monomials and no zero coefficient.
ghost use Rattle.std.specs.Prelude.{◌≡◌, ◌+◌, ◌*◌, ◌<◌, ◌≤◌, ◌≤ℤ◌, ◌↔◌, IfOk, IsTrue, None, false, pos, neg_ℤ, unsigned_abs, length};
ghost use Rattle.ct_algebra.specs.FreeOf.{IsFreeOf};
ghost use Rattle.ct_algebra.specs.Names.{name_with};
ghost use Rattle.ct_algebra.specs.Polynomial.{polys, plus, count, norm};
ghost use Rattle.ct_algebra.specs.Substitution.{term, number, name};
ghost use Rattle.ct_checked.specs.Checked.{Answers};
ghost use Rattle.ct_checked.specs.Limits.{most_terms, largest_norm};
ghost use Rattle.ct_poly.specs.Terms.{entries, IsFalling, IsListOf, size_of};
ghost use Rattle.ct_poly.specs.Measures.{sum_overflow, product_overflow, checked_plus, checked_minus, checked_times, checked_shifted, checked_derived};

use crate::derivative::{derivative_of_terms, derivative_size_of_terms};
use crate::measures::{degree_of_terms, norm_of_terms, same_terms, some_term_has};
use crate::product::product_of_terms;
use crate::shift::{shift_length_of_terms, shift_size_of_terms, shifted_terms};
use crate::sum::{negative_of_terms, sum_of_terms};
use crate::term::{Term, list_of_term};
use ct_mono::{Fault, Kind, LARGEST_DEGREE, LARGEST_NORM, MOST_TERMS, Monomial, NoMemory};
use std::alloc::Global;
use std::marker::Model;

/// A polynomial in six names with whole coefficients.
#[derive(Drop)]
pub struct Poly {
    terms: Vec<Term>,
}

impl Model for Poly {
    ghost use Rattle.std.specs.Prelude.{◌≤◌, length};
    ghost use Rattle.ct_algebra.specs.Polynomial.{Polynomial, poly_code};
    ghost use Rattle.ct_checked.specs.Limits.{most_terms, largest_norm};
    ghost use Rattle.ct_poly.specs.Terms.{poly_of_terms, IsFalling, size_of};

    ghost Value = { Polynomial };

    ghost coded = { poly_code };

    ghost view = { λ p. poly_of_terms p.terms.items };

    ghost invariant = { λ p. IsFalling p.terms.items × (length p.terms.items ≤ most_terms) × (size_of p.terms.items ≤ largest_norm) };
}

impl Poly {
    /// The polynomial 0.
    pub fn zero(alloc: Global) -> Poly
        ensures { result ≡ polys.zero }
    {
        Poly {
            terms: Vec::new(alloc),
        }
    }

    /// The polynomial of one number.
    pub fn constant(alloc: Global, c: i128) -> Result<Poly, NoMemory>
        requires { neg_ℤ (pos largest_norm) ≤ℤ c }
        ensures value { IfOk result (λ p. p ≡ number c) }
    {
        Poly::of_term(alloc, &Monomial::one(), c)
    }

    /// A name as a polynomial.
    pub fn name(alloc: Global, i: u8) -> Result<Poly, NoMemory>
        requires { i < 6 }
        ensures value { IfOk result (λ p. p ≡ name (name_with i)) }
    {
        Poly::of_term(alloc, &Monomial::name(i), 1)
    }

    /// A monomial as a polynomial.
    pub fn monomial(alloc: Global, m: &Monomial) -> Result<Poly, NoMemory>
        ensures value { IfOk result (λ p. p ≡ term m.now (pos 1)) }
    {
        Poly::of_term(alloc, m, 1)
    }

    fn of_term(alloc: Global, mono: &Monomial, coef: i128) -> Result<Poly, NoMemory>
        requires { unsigned_abs coef ≤ largest_norm }
        ensures { IfOk result (λ p. p ≡ term mono.now coef) }
    {
        if coef == 0 {
            return Ok(Poly::zero(alloc));
        }
        let terms = list_of_term(alloc, mono, coef)?;
        Ok(Poly { terms })
    }

    /// The polynomial of terms whose monomials fall.
    pub fn of_terms(terms: Vec<Term>) -> Poly
        requires falling { IsFalling terms.items }
        requires few { length terms.items ≤ most_terms }
        requires small { size_of terms.items ≤ largest_norm }
        ensures { result.terms ≡ entries terms.items }
    {
        Poly { terms }
    }

    /// Each polynomial is within the limits. A call tests nothing: it recalls this to the proof of its caller.
    pub fn within_limits(&self)
        ensures few { count self.now ≤ most_terms }
        ensures small { norm self.now ≤ largest_norm }
    {
        // Where a field is read, the proof knows the invariant of the type.
        let _ = &self.terms;
    }

    /// The terms, monomials falling.
    pub fn terms(&self) -> &[Term]
        ensures { entries result.now ≡ self.now.terms }
    {
        self.terms.as_slice()
    }

    /// The terms, with what is known of the list that is kept.
    pub(crate) fn list(&self) -> &[Term]
        ensures { IsListOf self.now most_terms largest_norm result.now }
    {
        self.terms.as_slice()
    }

    pub fn is_zero(&self) -> bool
        ensures { IsTrue result ↔ (self.now ≡ polys.zero) }
    {
        self.terms.is_empty()
    }

    /// The sum of the absolute values of the coefficients.
    pub fn norm(&self) -> u128
        ensures value { result ≡ norm self.now }
        ensures within { result ≤ largest_norm }
    {
        norm_of_terms(self.terms.as_slice())
    }

    /// Whether some term has the name.
    pub fn contains(&self, i: u8) -> bool
        requires { i < 6 }
        ensures { (result ≡ false) ↔ IsFreeOf (name_with i) self.now }
    {
        some_term_has(self.terms.as_slice(), i)
    }

    pub fn same(&self, other: &Poly) -> bool
        ensures { IsTrue result ↔ (self.now ≡ other.now) }
    {
        same_terms(self.terms.as_slice(), other.terms.as_slice())
    }

    pub fn copy(&self, alloc: Global) -> Result<Poly, NoMemory>
        ensures value { IfOk result (λ p. p ≡ self.now) }
    {
        let terms = Vec::from_slice(alloc, self.terms.as_slice())?;
        Ok(Poly { terms })
    }

    /// The kind in which a sum or a difference overflows, or `None` where it fits.
    pub fn fits_sum(&self, other: &Poly) -> Option<Kind>
        ensures { result ≡ sum_overflow self.now other.now }
    {
        if self.terms.len() + other.terms.len() > MOST_TERMS {
            return Some(Kind::Terms);
        }
        if self.norm() + other.norm() > LARGEST_NORM {
            return Some(Kind::Number);
        }
        None
    }

    /// The kind in which a product overflows, or `None` where it fits.
    pub fn fits_product(&self, other: &Poly) -> Option<Kind>
        ensures { result ≡ product_overflow self.now other.now }
    {
        let pairs = self.terms.len() * other.terms.len();
        if pairs == 0 {
            return None;
        }
        let degree = degree_of_terms(self.terms.as_slice())
            + degree_of_terms(other.terms.as_slice());
        if degree > LARGEST_DEGREE {
            return Some(Kind::Degree);
        }
        if pairs > MOST_TERMS {
            return Some(Kind::Terms);
        }
        if self.norm().saturating_mul(other.norm()) > LARGEST_NORM {
            return Some(Kind::Number);
        }
        None
    }

    /// The sum of two polynomials that are known to leave room for it.
    pub fn plus(&self, alloc: Global, other: &Poly) -> Result<Poly, NoMemory>
        requires { sum_overflow self.now other.now ≡ None }
        ensures value { IfOk result (λ p. p ≡ plus self.now other.now) }
    {
        let terms = sum_of_terms(alloc, self.terms.as_slice(), other.terms.as_slice())?;
        Ok(Poly { terms })
    }

    pub fn add(&self, alloc: Global, other: &Poly) -> Result<Poly, Fault>
        ensures { Answers (checked_plus self.now other.now) result }
    {
        if let Some(kind) = self.fits_sum(other) {
            return Err(Fault::Overflow(kind));
        }
        Ok(self.plus(alloc, other)?)
    }

    pub fn sub(&self, alloc: Global, other: &Poly) -> Result<Poly, Fault>
        ensures { Answers (checked_minus self.now other.now) result }
    {
        if let Some(kind) = self.fits_sum(other) {
            return Err(Fault::Overflow(kind));
        }
        let negative = negative_of_terms(alloc, other.terms.as_slice())?;
        let terms = sum_of_terms(alloc, self.terms.as_slice(), negative.as_slice())?;
        Ok(Poly { terms })
    }

    pub fn mul(&self, alloc: Global, other: &Poly) -> Result<Poly, Fault>
        ensures { Answers (checked_times self.now other.now) result }
    {
        if self.is_zero() || other.is_zero() {
            return Ok(Poly::zero(alloc));
        }
        if let Some(kind) = self.fits_product(other) {
            return Err(Fault::Overflow(kind));
        }
        let terms = product_of_terms(alloc, self.terms.as_slice(), other.terms.as_slice())?;
        Ok(Poly { terms })
    }

    pub fn neg(&self, alloc: Global) -> Result<Poly, NoMemory>
        ensures value { IfOk result (λ p. p ≡ polys.neg self.now) }
    {
        let terms = negative_of_terms(alloc, self.terms.as_slice())?;
        Ok(Poly { terms })
    }

    /// The name replaced by itself plus a number.
    pub fn shift(&self, alloc: Global, i: u8, by: u16) -> Result<Poly, Fault>
        requires { i < 6 }
        ensures { Answers (checked_shifted (name_with i) by self.now) result }
    {
        let list = self.terms.as_slice();
        if by == 0 {
            return Ok(self.copy(alloc)?);
        }
        prove!(degree_of_terms(list) <= LARGEST_DEGREE);
        if shift_length_of_terms(list, i) > MOST_TERMS {
            return Err(Fault::Overflow(Kind::Terms));
        }
        if shift_size_of_terms(list, i, by) > LARGEST_NORM {
            return Err(Fault::Overflow(Kind::Number));
        }
        let terms = shifted_terms(alloc, list, i, by)?;
        Ok(Poly { terms })
    }

    /// The termwise derivative by a name.
    pub fn derive(&self, alloc: Global, i: u8) -> Result<Poly, Fault>
        requires { i < 6 }
        ensures { Answers (checked_derived (name_with i) self.now) result }
    {
        let list = self.terms.as_slice();
        prove!(degree_of_terms(list) <= LARGEST_DEGREE);
        if derivative_size_of_terms(list, i) > LARGEST_NORM {
            return Err(Fault::Overflow(Kind::Number));
        }
        let terms = derivative_of_terms(alloc, list, i)?;
        Ok(Poly { terms })
    }
}
