// Exact division, by leading terms: each step takes the quotient of the leading terms, and what is left has lower monomials.
ghost use Rattle.std.specs.Prelude.{◌≡◌, ◌≢◌, ◌+◌, ◌*◌, ◌≤◌, ◌++◌, [], ◌∷◌, IfOk, IfSome, OnOk, MatchOption, None, Ok, Some, length, pos, unsigned_abs};
ghost use Rattle.ct_algebra.specs.Leading.{leading};
ghost use Rattle.ct_algebra.specs.Polynomial.{Polynomial, polys, times};
ghost use Rattle.ct_algebra.specs.Substitution.{term};
ghost use Rattle.ct_checked.specs.Checked.{Answers};
ghost use Rattle.ct_checked.specs.Limits.{most_terms, largest_norm};
ghost use Rattle.ct_poly.specs.Division.{checked_quotient, quotient, leading_over, step_rules, whole_over};
ghost use Rattle.ct_poly.specs.Measures.{minus};
ghost use Rattle.ct_poly.specs.Terms.{entries, entry, size_of, IsFalling, IsListOf, poly_of_terms};

use crate::accumulation::sum_with_multiple;
use crate::cell_division::quotient_in_cells;
use crate::content::quotient_of_coefs;
use crate::gathering::gathered;
use crate::measures::norm_of_terms;
use crate::poly::Poly;
use crate::product::product_of_coefs;
use crate::sum::negative_of_coef;
use crate::term::Term;
use ct_mono::{Fault, Kind, LARGEST_DEGREE, LARGEST_NORM, MOST_TERMS, NoMemory};
use std::alloc::Global;

/// How many terms a list has, and the sum of the absolute values of its coefficients.
#[derive(Clone, Copy)]
pub(crate) struct Measure {
    pub(crate) count: usize,
    pub(crate) norm: u128,
}

impl Poly {
    /// What times a polynomial is this one, or `None` where there is no such polynomial.
    pub fn div_exact(&self, alloc: Global, by: &Poly) -> Result<Option<Poly>, Fault>
        requires { by.now ≢ polys.zero }
        ensures answers { Answers (checked_quotient self.now by.now) result }
        ensures exact { IfOk result (λ o. MatchOption o ((q : Polynomial) → times q by.now ≢ self.now) (λ q. times q by.now ≡ self.now)) }
    {
        self.divide(alloc, by)
    }

    /// The same, where a division that overflows finds nothing.
    pub fn quotient(&self, alloc: Global, by: &Poly) -> Result<Option<Poly>, NoMemory>
        requires { by.now ≢ polys.zero }
        ensures value { IfOk result (λ o. o ≡ quotient self.now by.now) }
        ensures divides { IfOk result (λ o. IfSome o (λ q. times q by.now ≡ self.now)) }
    {
        match self.divide(alloc, by) {
            Ok(found) => Ok(found),
            Err(Fault::Overflow(_)) => Ok(None),
            Err(Fault::NoMemory) => Err(NoMemory),
        }
    }

    /// In cells where that finds a quotient, and else by steps.
    fn divide(&self, alloc: Global, by: &Poly) -> Result<Option<Poly>, Fault>
        ensures { Answers (checked_quotient self.now by.now) result }
    {
        if let Some(found) = self.divide_in_cells(alloc, by)? {
            return Ok(Some(found));
        }
        self.divide_by_steps(alloc, by)
    }

    /// A quotient that is found in cells, which are not tried where the leading terms have none.
    fn divide_in_cells(&self, alloc: Global, by: &Poly) -> Result<Option<Poly>, NoMemory>
        ensures { IfOk result (λ o. IfSome o (λ q. checked_quotient self.now by.now ≡ Ok (Some q))) }
    {
        self.within_limits();
        by.within_limits();
        let dividend = self.terms();
        let divisor = by.terms();
        if next_term(dividend, divisor).is_none() {
            return Ok(None);
        }
        let Some(found) = quotient_in_cells(alloc, dividend, divisor)? else {
            return Ok(None);
        };
        let terms = gathered(alloc, found.as_slice())?;
        Ok(Some(Poly::of_terms(terms)))
    }

    fn divide_by_steps(&self, alloc: Global, by: &Poly) -> Result<Option<Poly>, Fault>
        ensures { Answers (checked_quotient self.now by.now) result }
    {
        self.within_limits();
        by.within_limits();
        let divisor = by.terms();
        let divisor_measure = measure_of_terms(divisor);
        let mut rest = Vec::from_slice(alloc, self.terms())?;
        let mut quotient = Vec::new(alloc);
        let mut quotient_norm = 0;
        'dividing: while let Some(u) = next_term(rest.as_slice(), divisor) {
            let quotient_measure = Measure {
                count: quotient.len(),
                norm: quotient_norm,
            };
            let rest_measure = measure_of_terms(rest.as_slice());
            let size = u.coef.unsigned_abs();
            if let Some(kind) = step_overflow(
                rest_measure,
                divisor_measure,
                quotient_measure,
                size,
            ) {
                return Err(Fault::Overflow(kind));
            }
            rest = rest_without(alloc, rest.as_slice(), &u, divisor)?;
            append(&mut quotient, u)?;
            quotient_norm += size;
        }
        if rest.is_empty() {
            Ok(Some(Poly::of_terms(quotient)))
        } else {
            Ok(None)
        }
    }
}

pub(crate) fn append(list: &mut Vec<Term>, t: Term) -> Result<(), NoMemory>
    ensures { OnOk result (list.new.items ≡ list.old.items ++ t ∷ []) }
{
    list.push(t)?;
    Ok(())
}

pub(crate) fn measure_of_terms(ts: &[Term]) -> Measure
    requires { size_of ts.now ≤ largest_norm }
    ensures { result ≡ record { count = length ts.now; norm = size_of ts.now } }
{
    Measure {
        count: ts.len(),
        norm: norm_of_terms(ts),
    }
}

/// The leading term of the rest over that of the divisor.
fn next_term(rest: &[Term], divisor: &[Term]) -> Option<Term>
    requires nonzero { IsFalling divisor.now }
    requires small { size_of rest.now ≤ largest_norm }
    ensures { let found = leading_over (leading (entries rest.now)) (leading (entries divisor.now)) in
        MatchOption result (found ≡ None) (λ u. found ≡ Some (entry u)) }
{
    let top = rest.first()?;
    let lead = divisor.first()?;
    let mono = top.mono.over(&lead.mono)?;
    let coef = whole_over(top.coef, lead.coef)?;
    Some(Term { mono, coef })
}

/// The quotient of whole numbers, where no remainder is left.
pub(crate) fn whole_over(c: i128, d: i128) -> Option<i128>
    requires nonzero { d ≡ pos 0 → ⊥ }
    requires small { unsigned_abs c ≤ largest_norm }
    ensures { result ≡ whole_over c d }
{
    let quotient = quotient_of_coefs(c, d);
    if product_of_coefs(quotient, d) == c {
        Some(quotient)
    } else {
        None
    }
}

/// The kind of the first rule that a step breaks.
fn step_overflow(rest: Measure, by: Measure, quotient: Measure, size: u128) -> Option<Kind>
    requires counts { rest.count + by.count ≤ most_terms + most_terms }
    requires quotient_count { quotient.count ≤ most_terms }
    requires norms { (rest.norm ≤ largest_norm) × (quotient.norm ≤ largest_norm) }
    requires size { size ≤ largest_norm + 1 }
    ensures { result ≡ step_rules rest.count rest.norm by.count by.norm quotient.count quotient.norm size }
{
    if rest.count + by.count > MOST_TERMS || quotient.count + 1 > MOST_TERMS {
        return Some(Kind::Terms);
    }
    let product = size.saturating_mul(by.norm);
    if product > LARGEST_NORM || rest.norm + product > LARGEST_NORM {
        return Some(Kind::Number);
    }
    if quotient.norm + size > LARGEST_NORM {
        return Some(Kind::Number);
    }
    None
}

/// The rest less a term times the divisor: both leading terms are the same, and go.
fn rest_without(
    alloc: Global,
    rest: &[Term],
    u: &Term,
    divisor: &[Term],
) -> Result<Vec<Term>, NoMemory>
    requires next { leading_over (leading (entries rest.now)) (leading (entries divisor.now)) ≡ Some (entry u.now) }
    requires falling { IsFalling rest.now × IsFalling divisor.now }
    requires small { size_of rest.now + unsigned_abs u.now.coef * size_of divisor.now ≤ largest_norm }
    ensures { let value = minus (poly_of_terms rest.now) (times (term u.now.mono u.now.coef) (poly_of_terms divisor.now)) in
        let size = size_of rest.now + unsigned_abs u.now.coef * size_of divisor.now in
        IfOk result (λ v. IsListOf value (length rest.now + length divisor.now) size v.items) }
{
    let Some((top, below)) = rest.split_first() else {
        unreachable!()
    };
    let Some((lead, others)) = divisor.split_first() else {
        unreachable!()
    };
    prove!(top.mono.total() <= LARGEST_DEGREE);
    let negative = Term {
        mono: u.mono,
        coef: negative_of_coef(u.coef),
    };
    sum_with_multiple(alloc, below, &negative, others)
}
