// Products in cells: where there are enough terms for the box of their monomials, all products are added to one table, and
// what a division of it by 1 takes out is the product. `None` tells nothing.
ghost use Rattle.std.specs.Prelude.{◌≡◌, ◌*◌, ◌≤◌, IfOk, IfSome, length};
ghost use Rattle.ct_algebra.specs.Polynomial.{times};
ghost use Rattle.ct_checked.specs.Limits.{most_terms, largest_norm};
ghost use Rattle.ct_poly.specs.Terms.{CanMultiply, IsListOf, poly_of_terms, size_of};

use crate::crossing::quotient_of_products;
use crate::division::Measure;
use crate::gathering::gathered;
use crate::measures::norm_of_terms;
use crate::term::{Term, list_of_term};
use ct_mono::{MOST_TERMS, Monomial, NoMemory};
use std::alloc::Global;

/// How many terms each factor has at least: shorter ones are merged as fast.
const FEWEST_TERMS: usize = 8;

/// The product of two lists in falling order, where it is found in cells.
pub(crate) fn product_in_cells(
    alloc: Global,
    ps: &[Term],
    qs: &[Term],
) -> Result<Option<Vec<Term>>, NoMemory>
    requires { CanMultiply ps.now qs.now }
    ensures { let value = times (poly_of_terms ps.now) (poly_of_terms qs.now) in
        IfOk result (λ o. IfSome o (λ v. IsListOf value (length ps.now * length qs.now) (size_of ps.now * size_of qs.now) v.items)) }
{
    let Some(product) = measure_of_pairs(ps, qs) else {
        return Ok(None);
    };
    let none = Vec::new(alloc);
    let one = list_of_term(alloc, &Monomial::one(), 1)?;
    let Some(found) = quotient_of_products(
        alloc,
        ps,
        qs,
        none.as_slice(),
        none.as_slice(),
        product,
        one.as_slice(),
    )?
    else {
        return Ok(None);
    };
    let terms = gathered(alloc, found.as_slice())?;
    Ok(Some(terms))
}

/// The measure of all products of terms, where they are enough for cells and not too many.
fn measure_of_pairs(ps: &[Term], qs: &[Term]) -> Option<Measure>
    requires { CanMultiply ps.now qs.now }
    ensures { IfSome result (λ m. (m.count ≤ most_terms) × (m.norm ≡ size_of ps.now * size_of qs.now) × (m.norm ≤ largest_norm)) }
{
    if ps.len() < FEWEST_TERMS || qs.len() < FEWEST_TERMS {
        return None;
    }
    let count = ps.len().saturating_mul(qs.len());
    if count > MOST_TERMS {
        return None;
    }
    let norm = norm_of_terms(ps) * norm_of_terms(qs);
    Some(Measure { count, norm })
}
