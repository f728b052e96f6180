// Contents and common monomials of lists of terms, and lists divided by them.
ghost use Rattle.std.specs.Prelude.{◌≡◌, ◌≤◌, ◌<◌, ℕ, min, map, IfOk, unsigned_abs, pos, int_div};
ghost use Rattle.ct_algebra.specs.Monomial.{exp, mono};
ghost use Rattle.ct_algebra.specs.Terms.{EachTerm};
ghost use Rattle.ct_checked.specs.Limits.{largest_norm};
ghost use Rattle.ct_poly.specs.Terms.{entries, entry, size_of, IsFalling};
ghost use Rattle.ct_poly.specs.Content.{IsContentOf, TermDivides, term_divided, leads_below_zero, least_exp};

use crate::term::Term;
use ct_int::gcd;
use ct_mono::{LARGEST_DEGREE, Monomial, NoMemory};
use std::alloc::Global;

/// The number whose divisors are the common divisors of the coefficients.
pub(crate) fn content_of_terms(ts: &[Term]) -> u128
    ensures { IsContentOf (entries ts.now) result }
{
    let mut divisor = 0;
    let mut rest = ts;
    'gathering: while let Some((t, more)) = rest.split_first() {
        divisor = gcd(t.coef.unsigned_abs(), divisor);
        if divisor == 1 {
            return 1;
        }
        rest = more;
    }
    divisor
}

/// Whether the first coefficient is negative.
pub(crate) fn is_first_negative(ts: &[Term]) -> bool
    ensures { result ≡ leads_below_zero (entries ts.now) }
{
    match ts.first() {
        None => false,
        Some(t) => t.coef < 0,
    }
}

/// The monomial of the least exponents.
pub(crate) fn common_monomial_of_terms(ts: &[Term]) -> Monomial
    ensures { result ≡ mono (λ i. least_exp i (entries ts.now)) }
{
    let Some((first, others)) = ts.split_first() else {
        return Monomial::one();
    };
    let mut common = first.mono;
    let mut rest = others;
    'lowering: while let Some((t, more)) = rest.split_first() {
        common = common_monomial_of(&common, &t.mono);
        rest = more;
    }
    common
}

fn common_monomial_of(m: &Monomial, n: &Monomial) -> Monomial
    ensures { (i : ℕ) → i < 6 → exp result i ≡ min (exp m.now i) (exp n.now i) }
{
    let mut least = *m;
    for i in 0..6 {
        prove!(least.total() <= LARGEST_DEGREE);
        least = least.with_exp(i, m.exp(i).min(n.exp(i)));
    }
    least
}

/// A list divided by a term that divides each of its terms.
pub(crate) fn divided_terms(
    alloc: Global,
    ts: &[Term],
    mono: &Monomial,
    divisor: i128,
) -> Result<Vec<Term>, NoMemory>
    requires falling { IsFalling ts.now }
    requires small { size_of ts.now ≤ largest_norm }
    requires divides { EachTerm (TermDivides mono.now divisor) (entries ts.now) }
    ensures { IfOk result (λ v. entries v.items ≡ map (term_divided mono.now divisor) (entries ts.now)) }
{
    let mut out = Vec::with_capacity(alloc, ts.len())?;
    let mut rest = ts;
    'dividing: while let Some((t, more)) = rest.split_first() {
        out.push(divided_term(t, mono, divisor))?;
        rest = more;
    }
    Ok(out)
}

fn divided_term(t: &Term, mono: &Monomial, divisor: i128) -> Term
    requires divides { TermDivides mono.now divisor t.now.mono t.now.coef }
    requires nonzero { t.now.coef ≡ pos 0 → ⊥ }
    requires small { unsigned_abs t.now.coef ≤ largest_norm }
    ensures { entry result ≡ term_divided mono.now divisor (entry t.now) }
{
    Term {
        mono: t.mono.over(mono).unwrap(),
        coef: quotient_of_coefs(t.coef, divisor),
    }
}

/// The quotient of coefficients, rounded toward zero.
pub(crate) fn quotient_of_coefs(a: i128, b: i128) -> i128
    requires nonzero { b ≡ pos 0 → ⊥ }
    requires small { unsigned_abs a ≤ largest_norm }
    ensures { result ≡ int_div a b }
{
    a / b
}
