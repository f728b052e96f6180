// What is read off a list of terms: its norm, its degree, its names.
ghost use Rattle.std.specs.Prelude.{◌≡◌, ◌≤◌, ◌<◌, ◌↔◌, false, IsTrue};
ghost use Rattle.ct_algebra.specs.Monomial.{exp};
ghost use Rattle.ct_algebra.specs.Polynomial.{degree_of};
ghost use Rattle.ct_algebra.specs.Terms.{EachTerm};
ghost use Rattle.ct_checked.specs.Limits.{largest_degree, largest_norm};
ghost use Rattle.ct_poly.specs.Terms.{entries, entry, size_of};

use crate::term::Term;

/// The sum of the absolute values of the coefficients.
pub(crate) fn norm_of_terms(ts: &[Term]) -> u128
    requires { size_of ts.now ≤ largest_norm }
    ensures { result ≡ size_of ts.now }
{
    let mut sum = 0;
    for t in ts {
        sum += t.coef.unsigned_abs();
    }
    sum
}

/// The total of the first term, or 0 where there is none.
pub(crate) fn degree_of_terms(ts: &[Term]) -> u16
    ensures value { result ≡ degree_of (entries ts.now) }
    ensures within { result ≤ largest_degree }
{
    match ts.first() {
        None => 0,
        Some(t) => t.mono.total(),
    }
}

/// Whether some term has the name.
pub(crate) fn some_term_has(ts: &[Term], i: u8) -> bool
    requires { i < 6 }
    ensures { (result ≡ false) ↔ EachTerm (λ m c. exp m i ≡ 0) (entries ts.now) }
{
    let mut rest = ts;
    'searching: while let Some((t, more)) = rest.split_first() {
        if t.mono.exp(i) > 0 {
            return true;
        }
        rest = more;
    }
    false
}

/// Whether two lists have the same monomials and coefficients.
pub(crate) fn same_terms(ps: &[Term], qs: &[Term]) -> bool
    ensures { IsTrue result ↔ (entries ps.now ≡ entries qs.now) }
{
    let mut p = ps;
    let mut q = qs;
    'comparing: while let Some((a, p_rest)) = p.split_first() {
        let Some((b, q_rest)) = q.split_first() else {
            return false;
        };
        if !same_term(a, b) {
            return false;
        }
        p = p_rest;
        q = q_rest;
    }
    q.is_empty()
}

fn same_term(a: &Term, b: &Term) -> bool
    ensures { IsTrue result ↔ (entry a.now ≡ entry b.now) }
{
    a.coef == b.coef && a.mono.cmp(&b.mono).is_eq()
}
