// Quotients of cross differences p·x − a·y in cells: both products are added to one table, from which multiples of the divisor are
// taken. The table is trusted only when it finds a quotient, and only where the measures leave room for each step.
ghost use Rattle.std.specs.Prelude.{◌≡◌, ◌≢◌, ◌+◌, ◌*◌, ◌≤◌, ◌<◌, All, IfOk, IfSome, length, pos};
ghost use Rattle.ct_algebra.specs.Monomial.{Mono};
ghost use Rattle.ct_algebra.specs.Polynomial.{polys, plus, times};
ghost use Rattle.ct_mono.specs.Division.{Divides};
ghost use Rattle.ct_checked.specs.Limits.{most_terms, largest_norm};
ghost use Rattle.ct_poly.specs.Cells.{AreInBox, AreProductsInBox, IsDivisor, IsMultiplied, IsQuotient, cells_of, most_cells, size_of_cells, spots};
ghost use Rattle.ct_poly.specs.Crossing.{IsCrossQuotient, IsRoomForCross};
ghost use Rattle.ct_poly.specs.Terms.{poly_of_terms, size_of};

use crate::boxes::{cell_of, common_multiple, greatest_exponents, number_of_cells};
use crate::cell_division::{Divisor, divisor_of_terms, spots_of_terms, taken_out, zeros};
use crate::cells::{Spot, add_multiple};
use crate::division::{Measure, measure_of_terms};
use crate::gathering::gathered;
use crate::measures::degree_of_terms;
use crate::poly::Poly;
use crate::sum::negative_of_terms;
use crate::term::Term;
use ct_mono::{LARGEST_DEGREE, LARGEST_NORM, MOST_TERMS, Monomial, NoMemory};
use std::alloc::Global;

/// The most cells that are taken.
const MOST_CELLS: usize = 1 << 20;

/// The quotient of p·x − a·y by a polynomial, where the measures leave room for each step of the checked computation and the
/// quotient is found in cells. `None` tells nothing.
pub fn cross_quotient(
    alloc: Global,
    p: &Poly,
    a: &Poly,
    x: &Poly,
    y: &Poly,
    by: &Poly,
) -> Result<Option<Poly>, NoMemory>
    requires { by.now ≢ polys.zero }
    ensures { IfOk result (λ o. IfSome o (λ q. IsCrossQuotient p.now a.now x.now y.now by.now q)) }
{
    let p_terms = p.list();
    let a_terms = a.list();
    let x_terms = x.list();
    let y_terms = y.list();
    let by_terms = by.list();
    let Some(dividend) = room_for_cross(p_terms, a_terms, x_terms, y_terms) else {
        return Ok(None);
    };
    let negative = negative_of_terms(alloc, a_terms)?;
    let Some(found) = quotient_of_products(
        alloc,
        p_terms,
        x_terms,
        negative.as_slice(),
        y_terms,
        dividend,
        by_terms,
    )?
    else {
        return Ok(None);
    };
    let terms = gathered(alloc, found.as_slice())?;
    Ok(Some(Poly::of_terms(terms)))
}

/// The measure of both products before terms are gathered, where it is within the limits.
fn room_for_cross(p: &[Term], a: &[Term], x: &[Term], y: &[Term]) -> Option<Measure>
    requires counts { (length p.now ≤ most_terms) × (length a.now ≤ most_terms) × (length x.now ≤ most_terms) × (length y.now ≤ most_terms) }
    requires norms { (size_of p.now ≤ largest_norm) × (size_of a.now ≤ largest_norm) × (size_of x.now ≤ largest_norm) × (size_of y.now ≤ largest_norm) }
    ensures { IfSome result (λ m. IsRoomForCross p.now a.now x.now y.now m) }
{
    if degree_of_terms(p) + degree_of_terms(x) > LARGEST_DEGREE
        || degree_of_terms(a) + degree_of_terms(y) > LARGEST_DEGREE
    {
        return None;
    }
    let first = measure_of_product(p, x)?;
    let second = measure_of_product(a, y)?;
    let count = first.count + second.count;
    let norm = first.norm + second.norm;
    if count > MOST_TERMS || norm > LARGEST_NORM {
        return None;
    }
    Some(Measure { count, norm })
}

fn measure_of_product(p: &[Term], q: &[Term]) -> Option<Measure>
    requires counts { (length p.now ≤ most_terms) × (length q.now ≤ most_terms) }
    requires norms { (size_of p.now ≤ largest_norm) × (size_of q.now ≤ largest_norm) }
    ensures { IfSome result (λ m. (m.count ≡ length p.now * length q.now) × (m.norm ≡ size_of p.now * size_of q.now) × (m.count ≤ most_terms) × (m.norm ≤ largest_norm)) }
{
    let first = measure_of_terms(p);
    let second = measure_of_terms(q);
    let count = first.count * second.count;
    let norm = first.norm.saturating_mul(second.norm);
    if count > MOST_TERMS || norm > LARGEST_NORM {
        return None;
    }
    Some(Measure { count, norm })
}

/// The terms of a quotient of p·x + n·y in any order, where they are found in cells.
pub(crate) fn quotient_of_products(
    alloc: Global,
    p: &[Term],
    x: &[Term],
    n: &[Term],
    y: &[Term],
    dividend: Measure,
    by: &[Term],
) -> Result<Option<Vec<Term>>, NoMemory>
    requires count { (dividend.count ≤ most_terms) × (length by.now ≤ most_terms) }
    requires norm { (dividend.norm ≤ largest_norm) × (size_of by.now ≤ largest_norm) }
    requires small { size_of p.now * size_of x.now + size_of n.now * size_of y.now ≤ dividend.norm }
    ensures { let value = plus (times (poly_of_terms p.now) (poly_of_terms x.now)) (times (poly_of_terms n.now) (poly_of_terms y.now)) in
        IfOk result (λ o. IfSome o (λ q. IsQuotient value dividend.count dividend.norm by.now q.items)) }
{
    let (p, x) = factors(p, x);
    let (n, y) = factors(n, y);
    products_in_cells(alloc, p, x, n, y, dividend, by)
}

/// Two lists of the same product, the first the shorter one; both are empty where one is.
#[tactic(auto, using(crate::proofs::CrossCells::turned_factors, crate::proofs::CrossCells::no_first, crate::proofs::CrossCells::no_second, crate::proofs::CrossCells::turned_small, crate::proofs::CrossCells::no_first_small, crate::proofs::CrossCells::no_second_small))]
fn factors<'a>(p: &'a [Term], q: &'a [Term]) -> (&'a [Term], &'a [Term])
    ensures value { times (poly_of_terms result.0.now) (poly_of_terms result.1.now) ≡ times (poly_of_terms p.now) (poly_of_terms q.now) }
    ensures small { size_of result.0.now * size_of result.1.now ≤ size_of p.now * size_of q.now }
{
    if p.is_empty() {
        return (p, p);
    }
    if q.is_empty() {
        return (q, q);
    }
    if p.len() <= q.len() { (p, q) } else { (q, p) }
}

fn products_in_cells(
    alloc: Global,
    p: &[Term],
    x: &[Term],
    n: &[Term],
    y: &[Term],
    dividend: Measure,
    by: &[Term],
) -> Result<Option<Vec<Term>>, NoMemory>
    requires count { (dividend.count ≤ most_terms) × (length by.now ≤ most_terms) }
    requires norm { (dividend.norm ≤ largest_norm) × (size_of by.now ≤ largest_norm) }
    requires small { size_of p.now * size_of x.now + size_of n.now * size_of y.now ≤ dividend.norm }
    ensures { let value = plus (times (poly_of_terms p.now) (poly_of_terms x.now)) (times (poly_of_terms n.now) (poly_of_terms y.now)) in
        IfOk result (λ o. IfSome o (λ q. IsQuotient value dividend.count dividend.norm by.now q.items)) }
{
    let Some(tops) = box_of_products(p, x, n, y) else {
        return Ok(None);
    };
    let Some(number) = number_of_cells(&tops, most_cells_for(dividend.count)) else {
        return Ok(None);
    };
    let Some(divisor) = divisor_of_terms(alloc, &tops, by)? else {
        return Ok(None);
    };
    let x_spots = spots_of_terms(alloc, &tops, x)?;
    let y_spots = spots_of_terms(alloc, &tops, y)?;
    let mut cells = zeros(alloc, number)?;
    taken_from_products(
        alloc,
        cells.as_mut_slice(),
        &tops,
        p,
        x,
        x_spots.as_slice(),
        n,
        y,
        y_spots.as_slice(),
        &divisor,
        dividend,
        by,
    )
}

/// How many cells pay for this number of products of terms.
fn most_cells_for(pairs: usize) -> usize
    requires { pairs ≤ most_terms }
    ensures { (0 < result) × (result ≤ most_cells) }
{
    (16 * (pairs + 64)).min(MOST_CELLS)
}

/// A box that has the monomials of all four lists, and of both products.
fn box_of_products(p: &[Term], x: &[Term], n: &[Term], y: &[Term]) -> Option<Monomial>
    ensures first { IfSome result (λ w. AreInBox w p.now × AreInBox w x.now × AreProductsInBox w p.now x.now) }
    ensures second { IfSome result (λ w. AreInBox w n.now × AreInBox w y.now × AreProductsInBox w n.now y.now) }
{
    let first = box_of_product(p, x)?;
    let second = box_of_product(n, y)?;
    common_multiple(&first, &second)
}

fn box_of_product(p: &[Term], q: &[Term]) -> Option<Monomial>
    ensures { IfSome result (λ m. (w : Mono) → Divides m w → AreInBox w p.now × AreInBox w q.now × AreProductsInBox w p.now q.now) }
{
    let first = greatest_exponents(p)?;
    let second = greatest_exponents(q)?;
    first.times(&second)
}

/// Both products are added to cells of zeros, and multiples of the divisor taken from there.
fn taken_from_products(
    alloc: Global,
    cells: &mut [i128],
    tops: &Monomial,
    p: &[Term],
    x: &[Term],
    x_spots: &[Spot],
    n: &[Term],
    y: &[Term],
    y_spots: &[Spot],
    divisor: &Divisor,
    dividend: Measure,
    by: &[Term],
) -> Result<Option<Vec<Term>>, NoMemory>
    requires count { (dividend.count ≤ most_terms) × (length by.now ≤ most_terms) }
    requires norm { (dividend.norm ≤ largest_norm) × (size_of by.now ≤ largest_norm) }
    requires cells { (length cells.old ≡ cells_of tops.now) × (cells_of tops.now ≤ most_cells) }
    requires zeros { All (λ c. c ≡ pos 0) cells.old }
    requires first { AreInBox tops.now p.now × AreProductsInBox tops.now p.now x.now × (x_spots.now ≡ spots tops.now x.now) }
    requires second { AreInBox tops.now n.now × AreProductsInBox tops.now n.now y.now × (y_spots.now ≡ spots tops.now y.now) }
    requires small { size_of p.now * size_of x.now + size_of n.now * size_of y.now ≤ dividend.norm }
    requires divisor { IsDivisor tops.now by.now divisor.now.spots.items divisor.now.lead divisor.now.room }
    ensures { let value = plus (times (poly_of_terms p.now) (poly_of_terms x.now)) (times (poly_of_terms n.now) (poly_of_terms y.now)) in
        IfOk result (λ o. IfSome o (λ q. IsQuotient value dividend.count dividend.norm by.now q.items)) }
{
    add_product(cells, tops, p, x, x_spots);
    add_product(cells, tops, n, y, y_spots);
    taken_out(alloc, cells, tops, divisor, dividend, by)
}

/// Adds the product of two lists to a table; those of the second stand at their cells.
fn add_product(cells: &mut [i128], tops: &Monomial, p: &[Term], x: &[Term], x_spots: &[Spot])
    requires cells { (length cells.old ≡ cells_of tops.now) × (cells_of tops.now ≤ most_cells) }
    requires inside { AreInBox tops.now p.now × AreProductsInBox tops.now p.now x.now × (x_spots.now ≡ spots tops.now x.now) }
    requires small { size_of_cells cells.old + size_of p.now * size_of x.now ≤ largest_norm }
    ensures { IsMultiplied tops.now cells.old p.now x.now cells.new }
{
    let mut rest = p;
    'multiplying: while let Some((t, more)) = rest.split_first() {
        add_multiple(cells, cell_of(tops, &t.mono), t.coef, x_spots);
        rest = more;
    }
}
