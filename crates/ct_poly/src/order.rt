// The order of polynomials.
ghost use Rattle.std.specs.Prelude.{◌≡◌};
ghost use Rattle.std.specs.Cmp.Lexicographic.{slice_cmp};
ghost use Rattle.ct_poly.specs.Order.{poly_cmp, term_cmp};
ghost use Rattle.ct_poly.specs.Terms.{entries, entry};

use crate::poly::Poly;
use crate::term::Term;
use std::cmp::Ordering;

impl Poly {
    /// The order by which polynomials are sorted: the first terms that differ decide, by the monomial and then
    /// by the coefficient, and a polynomial whose terms begin another is smaller.
    pub fn cmp(&self, other: &Poly) -> Ordering
        ensures { result ≡ poly_cmp self.now other.now }
    {
        cmp_of_terms(self.terms(), other.terms())
    }
}

fn cmp_of_terms(ps: &[Term], qs: &[Term]) -> Ordering
    ensures { result ≡ slice_cmp term_cmp (entries ps.now) (entries qs.now) }
{
    let mut p = ps;
    let mut q = qs;
    'comparing: while let Some((a, p_rest)) = p.split_first() {
        let Some((b, q_rest)) = q.split_first() else {
            return Ordering::Greater;
        };
        let order = cmp_of_term(a, b);
        if !order.is_eq() {
            return order;
        }
        p = p_rest;
        q = q_rest;
    }
    if q.is_empty() {
        Ordering::Equal
    } else {
        Ordering::Less
    }
}

fn cmp_of_term(a: &Term, b: &Term) -> Ordering
    ensures { result ≡ term_cmp (entry a.now) (entry b.now) }
{
    a.mono.cmp(&b.mono).then(a.coef.cmp(&b.coef))
}
