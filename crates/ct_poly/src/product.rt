// Products of lists of terms, in cells where that pays. Else one list is halved until it is one term, whose products with the
// other fall as it does, and the products of the halves are merged.
ghost use Rattle.std.specs.Prelude.{◌≡◌, ◌+◌, ◌*◌, ◌*ℤ◌, ◌≤◌, IfOk, length, unsigned_abs, [], ◌∷◌};
ghost use Rattle.ct_algebra.specs.Monomial.{total};
ghost use Rattle.ct_algebra.specs.Polynomial.{times};
ghost use Rattle.ct_checked.specs.Limits.{largest_degree, largest_norm};
ghost use Rattle.ct_poly.specs.Terms.{CanMultiply, IsListOf, poly_of_terms, size_of};

use crate::cell_product::product_in_cells;
use crate::sum::sum_of_terms;
use crate::term::Term;
use ct_mono::NoMemory;
use std::alloc::Global;

/// The product of two lists in falling order.
pub(crate) fn product_of_terms(
    alloc: Global,
    ps: &[Term],
    qs: &[Term],
) -> Result<Vec<Term>, NoMemory>
    requires { CanMultiply ps.now qs.now }
    ensures { let value = times (poly_of_terms ps.now) (poly_of_terms qs.now) in
        IfOk result (λ v. IsListOf value (length ps.now * length qs.now) (size_of ps.now * size_of qs.now) v.items) }
{
    if let Some(found) = product_in_cells(alloc, ps, qs)? {
        return Ok(found);
    }
    if ps.len() <= qs.len() {
        product_by_halves(alloc, ps, qs)
    } else {
        product_by_halves(alloc, qs, ps)
    }
}

fn product_by_halves(alloc: Global, ps: &[Term], qs: &[Term]) -> Result<Vec<Term>, NoMemory>
    requires { CanMultiply ps.now qs.now }
    ensures { let value = times (poly_of_terms ps.now) (poly_of_terms qs.now) in
        IfOk result (λ v. IsListOf value (length ps.now * length qs.now) (size_of ps.now * size_of qs.now) v.items) }
{
    if ps.is_empty() {
        return Ok(Vec::new(alloc));
    }
    if ps.len() == 1 {
        return multiple_of_terms(alloc, &ps[0], qs);
    }
    let (front, back) = ps.split_at(ps.len() / 2);
    let left = product_by_halves(alloc, front, qs)?;
    let right = product_by_halves(alloc, back, qs)?;
    sum_of_terms(alloc, left.as_slice(), right.as_slice())
}

/// A term times a list in falling order.
pub(crate) fn multiple_of_terms(alloc: Global, t: &Term, qs: &[Term]) -> Result<Vec<Term>, NoMemory>
    requires { CanMultiply (t.now ∷ []) qs.now }
    ensures { let value = times (poly_of_terms (t.now ∷ [])) (poly_of_terms qs.now) in
        IfOk result (λ v. IsListOf value (length qs.now) (unsigned_abs t.now.coef * size_of qs.now) v.items) }
{
    let mut out = Vec::with_capacity(alloc, qs.len())?;
    let mut rest = qs;
    'multiplying: while let Some((u, more)) = rest.split_first() {
        let mono = t.mono.product(&u.mono);
        let coef = product_of_coefs(t.coef, u.coef);
        out.push(Term { mono, coef })?;
        rest = more;
    }
    Ok(out)
}

pub(crate) fn product_of_coefs(a: i128, b: i128) -> i128
    requires { unsigned_abs a * unsigned_abs b ≤ largest_norm }
    ensures { result ≡ a *ℤ b }
{
    a * b
}
