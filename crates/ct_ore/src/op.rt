// Operators: lists of terms with falling products of symbols and no zero coefficient.
ghost use Rattle.std.specs.Prelude.{◌≡◌, ◌<◌, ◌≤◌, ◌↔◌, IfOk, IsTrue, length};
ghost use Rattle.ct_algebra.specs.Names.{name_with, symbol};
ghost use Rattle.ct_algebra.specs.Monomial.{unit};
ghost use Rattle.ct_algebra.specs.Polynomial.{polys};
ghost use Rattle.ct_algebra.specs.Operators.{no_operator, term_of};
ghost use Rattle.ct_checked.specs.Checked.{Answers};
ghost use Rattle.ct_checked.specs.Limits.{most_terms, largest_norm};
ghost use Rattle.ct_ore.specs.AllNames.{number_of_names};
ghost use Rattle.ct_ore.specs.Terms.{op_entries, operator_of_terms, IsOperator};
ghost use Rattle.ct_ore.specs.CoefficientTerms.{sum_of_parts};
ghost use Rattle.ct_ore.specs.Lists.{Fits, IsPartsOf};
ghost use Rattle.ct_ore.specs.Naming.{actions_of};
ghost use Rattle.ct_ore.specs.Measures.{term_count, term_norm, sum_overflow, checked_sum, checked_difference, checked_product, checked_combination};

use crate::algebra::Algebra;
use crate::coefficient_term::CoefficientTerm;
use crate::coefficients::{gathered, parts_of, term_count, term_norm};
use crate::measures::product_overflow;
use crate::merging::merged_terms;
use crate::product::product_by_halves;
use crate::terms::{copied, negated, same_terms};
use ct_mono::{Fault, Kind, LARGEST_NORM, MOST_TERMS, Monomial, NoMemory};
use ct_poly::Poly;
use std::alloc::Global;
use std::marker::Model;

/// A polynomial before a product of symbols.
#[derive(Drop)]
pub struct OpTerm {
    pub mono: Monomial,
    pub coef: Poly,
}

/// An operator of an Ore algebra.
#[derive(Drop)]
pub struct Op {
    terms: Vec<OpTerm>,
}

impl Model for Op {
    ghost use Rattle.std.specs.Prelude.{◌≤◌};
    ghost use Rattle.ct_algebra.specs.Operators.{Operator, operator_code};
    ghost use Rattle.ct_checked.specs.Limits.{most_terms, largest_norm};
    ghost use Rattle.ct_ore.specs.Terms.{operator_of_terms, IsOperator};
    ghost use Rattle.ct_ore.specs.Measures.{term_count, term_norm};

    ghost Value = { Operator };

    ghost coded = { operator_code };

    ghost view = { λ p. operator_of_terms p.terms.items };

    ghost invariant = { λ p. IsOperator p.terms.items × (term_count (operator_of_terms p.terms.items) ≤ most_terms) × (term_norm (operator_of_terms p.terms.items) ≤ largest_norm) };
}

impl Op {
    /// The operator 0.
    pub fn zero(alloc: Global) -> Op
        ensures { result ≡ no_operator }
    {
        Op {
            terms: Vec::new(alloc),
        }
    }

    pub fn is_zero(&self) -> bool
        ensures { IsTrue result ↔ (self.now ≡ no_operator) }
    {
        self.terms.is_empty()
    }

    /// The terms, products of symbols falling.
    pub fn terms(&self) -> &[OpTerm]
        ensures { op_entries result.now ≡ self.now.terms }
    {
        self.terms.as_slice()
    }

    /// A polynomial as an operator.
    pub fn of_poly(alloc: Global, p: Poly) -> Result<Op, NoMemory>
        ensures value { IfOk result (λ r. r ≡ term_of unit p) }
    {
        let one = Monomial::one();
        let r = Op::of_term(alloc, p, &one)?;
        Ok(r)
    }

    /// The symbol of a name.
    pub fn symbol(alloc: Global, i: u8) -> Result<Op, NoMemory>
        requires { i < number_of_names }
        ensures value { IfOk result (λ r. r ≡ term_of (symbol (name_with i)) polys.one) }
    {
        let one = Poly::constant(alloc, 1)?;
        let name = Monomial::name(i);
        let r = Op::of_term(alloc, one, &name)?;
        Ok(r)
    }

    /// A polynomial before a product of symbols.
    pub fn of_term(alloc: Global, p: Poly, m: &Monomial) -> Result<Op, NoMemory>
        ensures value { IfOk result (λ r. r ≡ term_of m.now p) }
    {
        if p.is_zero() {
            return Ok(Op::zero(alloc));
        }
        p.within_limits();
        let mut terms = Vec::new(alloc);
        terms.push(OpTerm { mono: *m, coef: p })?;
        Ok(Op { terms })
    }

    pub fn same(&self, other: &Op) -> bool
        ensures { IsTrue result ↔ (self.now ≡ other.now) }
    {
        same_terms(self.terms(), other.terms())
    }

    pub fn copy(&self, alloc: Global) -> Result<Op, NoMemory>
        ensures value { IfOk result (λ r. r ≡ self.now) }
    {
        let terms = copied(alloc, self.terms.as_slice())?;
        Ok(Op { terms })
    }

    /// Each operator is within the limits.
    pub fn within_limits(&self)
        ensures few { term_count self.now ≤ most_terms }
        ensures small { term_norm self.now ≤ largest_norm }
    {
        let _ = &self.terms;
    }

    /// The operator of terms whose products of symbols fall.
    pub(crate) fn of_terms(terms: Vec<OpTerm>) -> Op
        requires falling { IsOperator terms.items }
        requires few { term_count (operator_of_terms terms.items) ≤ most_terms }
        requires small { term_norm (operator_of_terms terms.items) ≤ largest_norm }
        ensures { result ≡ operator_of_terms terms.items }
    {
        Op { terms }
    }

    /// The terms of all coefficients.
    pub(crate) fn parts(&self, alloc: Global) -> Result<Vec<CoefficientTerm>, NoMemory>
        ensures { IfOk result (λ v. IsPartsOf self.now v.items) }
    {
        let parts = parts_of(alloc, self.terms.as_slice())?;
        Ok(parts)
    }

    /// The operator that a list in written form adds up to.
    pub(crate) fn of_parts(alloc: Global, ts: &[CoefficientTerm]) -> Result<Op, NoMemory>
        requires { Fits ts.now }
        ensures { IfOk result (λ r. r ≡ sum_of_parts ts.now) }
    {
        let terms = gathered(alloc, ts)?;
        Ok(Op { terms })
    }

    // The kind in which a sum or a difference overflows, or `None` where it fits.
    fn fits_sum(&self, other: &Op) -> Option<Kind>
        ensures { result ≡ sum_overflow self.now other.now }
    {
        self.within_limits();
        other.within_limits();
        if term_count(self.terms()) + term_count(other.terms()) > MOST_TERMS {
            return Some(Kind::Terms);
        }
        if term_norm(self.terms()) + term_norm(other.terms()) > LARGEST_NORM {
            return Some(Kind::Number);
        }
        None
    }

    pub fn add(&self, alloc: Global, other: &Op) -> Result<Op, Fault>
        ensures { Answers (checked_sum self.now other.now) result }
    {
        self.copy(alloc)?.into_sum(alloc, other.copy(alloc)?)
    }

    pub fn sub(&self, alloc: Global, other: &Op) -> Result<Op, Fault>
        ensures { Answers (checked_difference self.now other.now) result }
    {
        self.copy(alloc)?.into_difference(alloc, other)
    }

    /// The sum, of two operators that are no longer needed.
    pub fn into_sum(self, alloc: Global, other: Op) -> Result<Op, Fault>
        ensures { Answers (checked_sum self other) result }
    {
        if let Some(kind) = self.fits_sum(&other) {
            return Err(Fault::Overflow(kind));
        }
        let terms = merged_terms(alloc, self.terms, other.terms)?;
        Ok(Op { terms })
    }

    /// The difference, from an operator that is no longer needed.
    pub fn into_difference(self, alloc: Global, other: &Op) -> Result<Op, Fault>
        ensures { Answers (checked_difference self other.now) result }
    {
        if let Some(kind) = self.fits_sum(other) {
            return Err(Fault::Overflow(kind));
        }
        let opposite = negated(alloc, other.terms())?;
        let terms = merged_terms(alloc, self.terms, opposite)?;
        Ok(Op { terms })
    }

    /// The left product: the operator that acts as `other` and then as `self`.
    pub fn mul(&self, alloc: Global, algebra: &Algebra, other: &Op) -> Result<Op, Fault>
        ensures { Answers (checked_product (actions_of algebra.now) self.now other.now) result }
    {
        if self.is_zero() {
            return Ok(Op::zero(alloc));
        }
        if other.is_zero() {
            return Ok(Op::zero(alloc));
        }
        self.within_limits();
        let its = other.parts(alloc)?;
        match product_overflow(algebra, self.terms(), other.terms(), its.as_slice()) {
            Some(kind) => Err(Fault::Overflow(kind)),
            None => {
                let parts = product_by_halves(alloc, algebra, self.terms(), its.as_slice())?;
                let r = Op::of_parts(alloc, parts.as_slice())?;
                Ok(r)
            }
        }
    }

    /// The sum of the products of cofactors and generators, in list order.
    pub fn combine(
        alloc: Global,
        algebra: &Algebra,
        cofactors: &[Op],
        generators: &[Op],
    ) -> Result<Op, Fault>
        requires { length cofactors.now ≡ length generators.now }
        ensures { Answers (checked_combination (actions_of algebra.now) no_operator cofactors.now generators.now) result }
    {
        Op::zero(alloc).with_products(alloc, algebra, cofactors, generators)
    }

    /// The operator with the products of cofactors and generators added, one after the other.
    pub fn with_products(
        self,
        alloc: Global,
        algebra: &Algebra,
        cofactors: &[Op],
        generators: &[Op],
    ) -> Result<Op, Fault>
        requires { length cofactors.now ≡ length generators.now }
        ensures { Answers (checked_combination (actions_of algebra.now) self cofactors.now generators.now) result }
    {
        let mut sum = self;
        let mut left = cofactors;
        let mut right = generators;
        'combining: while let Some((cofactor, more)) = left.split_first() {
            let Some((generator, others)) = right.split_first() else {
                return Ok(sum);
            };
            let product = cofactor.mul(alloc, algebra, generator)?;
            sum = sum.into_sum(alloc, product)?;
            left = more;
            right = others;
        }
        Ok(sum)
    }
}
