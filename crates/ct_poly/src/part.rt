// The coefficients of a polynomial that is seen as one in some of the names.
ghost use Rattle.std.specs.Prelude.{◌≡◌, ◌<◌, ◌↔◌, All, IfOk, IsTrue, map};
ghost use Rattle.ct_algebra.specs.Monomial.{◌·◌};
ghost use Rattle.ct_algebra.specs.Coefficients.{coefficient_in, outside};
ghost use Rattle.ct_algebra.specs.Names.{name_with};
ghost use Rattle.ct_poly.specs.Terms.{entries};
ghost use Rattle.ct_poly.specs.Parts.{terms_in};

use crate::poly::Poly;
use crate::term::Term;
use ct_mono::{LARGEST_DEGREE, Monomial, NoMemory};
use std::alloc::Global;

impl Poly {
    /// The coefficient at a monomial in the names, a polynomial in the other names.
    pub fn part(&self, alloc: Global, names: &[u8], mono: &Monomial) -> Result<Poly, NoMemory>
        requires { All (λ i. i < 6) names.now }
        ensures value { IfOk result (λ p. p ≡ coefficient_in (map name_with names.now) mono.now self.now) }
    {
        self.within_limits();
        let terms = part_of_terms(alloc, self.terms(), names, mono)?;
        Ok(Poly::of_terms(terms))
    }
}

fn part_of_terms(
    alloc: Global,
    ts: &[Term],
    names: &[u8],
    mono: &Monomial,
) -> Result<Vec<Term>, NoMemory>
    requires { All (λ i. i < 6) names.now }
    ensures { IfOk result (λ v. entries v.items ≡ terms_in (map name_with names.now) mono.now (entries ts.now)) }
{
    let mut out = Vec::new(alloc);
    let mut rest = ts;
    'choosing: while let Some((t, more)) = rest.split_first() {
        let others = without_names(names, &t.mono);
        if is_product(&t.mono, &others, mono) {
            out.push(Term {
                mono: others,
                coef: t.coef,
            })?;
        }
        rest = more;
    }
    Ok(out)
}

/// The monomial in the other names.
fn without_names(names: &[u8], mono: &Monomial) -> Monomial
    requires { All (λ i. i < 6) names.now }
    ensures { result ≡ outside (map name_with names.now) mono.now }
{
    let mut others = *mono;
    let mut rest = names;
    'clearing: while let Some((i, more)) = rest.split_first() {
        prove!(others.total() <= LARGEST_DEGREE);
        others = others.with_exp(*i, 0);
        rest = more;
    }
    others
}

fn is_product(whole: &Monomial, m: &Monomial, n: &Monomial) -> bool
    ensures { IsTrue result ↔ (n.now · m.now ≡ whole.now) }
{
    match whole.over(m) {
        None => false,
        Some(quotient) => quotient.cmp(n).is_eq(),
    }
}
