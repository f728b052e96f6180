// Exact division in cells: multiples of the divisor are taken from the table of the dividend, from the highest cell down. Where
// nothing is left, what was taken is the quotient; where this fails or does not pay, the answer is `None`.
ghost use Rattle.std.specs.Prelude.{◌≡◌, ◌≢◌, ◌+◌, ◌≤◌, ◌<◌, All, IfOk, IfSome, IsTrue, length, pos, replicate, unsigned_abs};
ghost use Rattle.ct_mono.specs.Division.{Divides};
ghost use Rattle.ct_checked.specs.Limits.{most_terms, largest_norm};
ghost use Rattle.ct_algebra.specs.Polynomial.{Polynomial};
ghost use Rattle.ct_poly.specs.Cells.{AreInBox, AreMultiplesInBox, HasRoom, IsDivisor, IsQuotient, IsTable, IsTableOf, cell_of, cells_of, most_cells, size_of_cells, spots};
ghost use Rattle.ct_poly.specs.Terms.{poly_of_terms, size_of};

use crate::boxes::{cell_of, greatest_exponents, mono_at, number_of_cells};
use crate::cells::{Spot, add_multiple};
use crate::division::{Measure, append, measure_of_terms, whole_over};
use crate::sum::negative_of_coef;
use crate::term::Term;
use ct_mono::{LARGEST_NORM, MOST_TERMS, Monomial, NoMemory};
use std::alloc::Global;

/// The most cells that are taken.
const MOST_CELLS: usize = 1 << 20;

/// The coefficients of a polynomial by monomials, whose exponents are at most those of `tops`.
#[derive(Drop)]
struct Table {
    tops: Monomial,
    cells: Vec<i128>,
}

/// A divisor at its cells, the highest of its spots, and the greatest exponents that a quotient has.
#[derive(Drop)]
pub(crate) struct Divisor {
    spots: Vec<Spot>,
    lead: Spot,
    room: Monomial,
}

/// The terms of an exact quotient in any order, where they are found in cells.
pub(crate) fn quotient_in_cells(
    alloc: Global,
    ps: &[Term],
    by: &[Term],
) -> Result<Option<Vec<Term>>, NoMemory>
    requires counts { (length ps.now ≤ most_terms) × (length by.now ≤ most_terms) }
    requires norms { (size_of ps.now ≤ largest_norm) × (size_of by.now ≤ largest_norm) }
    ensures { IfOk result (λ o. IfSome o (λ q. IsQuotient (poly_of_terms ps.now) (length ps.now) (size_of ps.now) by.now q.items)) }
{
    let Some(mut table) = table_of_terms(alloc, ps)? else {
        return Ok(None);
    };
    let Some(divisor) = divisor_of_terms(alloc, &table.tops, by)? else {
        return Ok(None);
    };
    taken_out(
        alloc,
        table.cells.as_mut_slice(),
        &table.tops,
        &divisor,
        measure_of_terms(ps),
        by,
    )
}

/// The table of a list, where the box of its monomials is small enough.
fn table_of_terms(alloc: Global, ts: &[Term]) -> Result<Option<Table>, NoMemory>
    requires few { length ts.now ≤ most_terms }
    requires small { size_of ts.now ≤ largest_norm }
    ensures { IfOk result (λ o. IfSome o (λ t. IsTableOf ts.now t.tops t.cells.items)) }
{
    let Some(tops) = greatest_exponents(ts) else {
        return Ok(None);
    };
    let Some(number) = number_of_cells(&tops, most_cells_for(ts.len())) else {
        return Ok(None);
    };
    let spots = spots_of_terms(alloc, &tops, ts)?;
    let mut cells = zeros(alloc, number)?;
    add_multiple(cells.as_mut_slice(), 0, 1, spots.as_slice());
    Ok(Some(Table { tops, cells }))
}

/// How many cells pay for this number of terms.
pub(crate) fn most_cells_for(terms: usize) -> usize
    requires { terms ≤ most_terms }
    ensures { (0 < result) × (result ≤ most_cells) }
{
    (64 * (terms + 64)).min(MOST_CELLS)
}

pub(crate) fn zeros(alloc: Global, number: usize) -> Result<Vec<i128>, NoMemory>
    ensures { IfOk result (λ v. v.items ≡ replicate number (pos 0)) }
{
    vec![in alloc; 0i128; number]
}

/// The spots of a list whose monomials are in the box.
pub(crate) fn spots_of_terms(
    alloc: Global,
    tops: &Monomial,
    ts: &[Term],
) -> Result<Vec<Spot>, NoMemory>
    requires few { cells_of tops.now ≤ most_cells }
    requires inside { AreInBox tops.now ts.now }
    ensures { IfOk result (λ v. v.items ≡ spots tops.now ts.now) }
{
    let mut out = Vec::with_capacity(alloc, ts.len())?;
    let mut rest = ts;
    'placing: while let Some((t, more)) = rest.split_first() {
        let cell = cell_of(tops, &t.mono);
        out.push(Spot { cell, coef: t.coef })?;
        rest = more;
    }
    Ok(out)
}

pub(crate) fn divisor_of_terms(
    alloc: Global,
    tops: &Monomial,
    by: &[Term],
) -> Result<Option<Divisor>, NoMemory>
    requires { cells_of tops.now ≤ most_cells }
    ensures { IfOk result (λ o. IfSome o (λ d. IsDivisor tops.now by.now d.spots.items d.lead d.room)) }
{
    let Some(room) = room_beside(tops, by) else {
        return Ok(None);
    };
    let spots = spots_of_terms(alloc, tops, by)?;
    let Some(lead) = highest_spot(spots.as_slice()) else {
        return Ok(None);
    };
    Ok(Some(Divisor { spots, lead, room }))
}

/// A monomial whose products with those of a list are in the box.
fn room_beside(tops: &Monomial, by: &[Term]) -> Option<Monomial>
    ensures { IfSome result (λ room. Divides room tops.now × AreMultiplesInBox tops.now room by.now × AreInBox tops.now by.now) }
{
    tops.over(&greatest_exponents(by)?)
}

fn highest_spot(spots: &[Spot]) -> Option<Spot>
    ensures { IfSome result (λ s. (s.coef ≢ pos 0) × (length spots.now ≢ 0)) }
{
    let mut highest = *spots.first()?;
    for s in spots {
        if s.cell > highest.cell {
            highest = *s;
        }
    }
    if highest.coef == 0 {
        None
    } else {
        Some(highest)
    }
}

/// The terms whose multiples of the divisor are taken from the table, from the highest cell down, where nothing is left then.
/// What the table holds has at most the terms and the norm of the dividend's measure.
pub(crate) fn taken_out(
    alloc: Global,
    cells: &mut [i128],
    tops: &Monomial,
    divisor: &Divisor,
    dividend: Measure,
    by: &[Term],
) -> Result<Option<Vec<Term>>, NoMemory>
    requires counts { (dividend.count ≤ most_terms) × (length by.now ≤ most_terms) }
    requires norms { (dividend.norm ≤ largest_norm) × (size_of by.now ≤ largest_norm) }
    requires cells { (length cells.old ≡ cells_of tops.now) × (cells_of tops.now ≤ most_cells) }
    requires small { size_of_cells cells.old ≤ dividend.norm }
    requires divisor { IsDivisor tops.now by.now divisor.now.spots.items divisor.now.lead divisor.now.room }
    ensures { IfOk result (λ o. IfSome o (λ q. (n : Polynomial) → IsTable tops.now n cells.old → IsQuotient n dividend.count dividend.norm by.now q.items)) }
{
    let by_measure = measure_of_terms(by);
    let mut found = Vec::new(alloc);
    let mut norm = 0u128;
    let mut below = cells.len();
    'taking: while let Some(at) = highest_cell(cells, below) {
        let Some((u, cell)) = term_at(tops, divisor, at, cells[at]) else {
            return Ok(None);
        };
        norm += u.coef.unsigned_abs();
        let quotient = Measure {
            count: found.len() + 1,
            norm,
        };
        if !has_room(dividend, by_measure, quotient) {
            return Ok(None);
        }
        let negative = negative_of_coef(u.coef);
        add_multiple(cells, cell, negative, divisor.spots.as_slice());
        append(&mut found, u)?;
        below = at;
    }
    if are_zero(cells) {
        Ok(Some(found))
    } else {
        Ok(None)
    }
}

/// The highest cell under a bound that is not zero.
fn highest_cell(cells: &[i128], below: usize) -> Option<usize>
    requires { below ≤ length cells.now }
    ensures { IfSome result (λ at. at < below) }
{
    let mut at = below;
    'searching: while at > 0 {
        at -= 1;
        if cells[at] != 0 {
            return Some(at);
        }
    }
    None
}

/// The term whose product with the divisor's highest has the coefficient of a cell, and its own cell.
fn term_at(tops: &Monomial, divisor: &Divisor, at: usize, coef: i128) -> Option<(Term, usize)>
    requires few { cells_of tops.now ≤ most_cells }
    requires room { Divides divisor.now.room tops.now }
    requires lead { divisor.now.lead.coef ≢ pos 0 }
    requires small { unsigned_abs coef ≤ largest_norm }
    ensures { IfSome result (λ u. Divides u.0.mono divisor.now.room × (u.1 ≡ cell_of tops.now u.0.mono)) }
{
    let cell = at.checked_sub(divisor.lead.cell)?;
    let mono = mono_at(tops, &divisor.room, cell)?;
    let coef = whole_over(coef, divisor.lead.coef)?;
    Some((Term { mono, coef }, cell))
}

/// Whether a division with such a quotient stays within the limits.
fn has_room(dividend: Measure, by: Measure, quotient: Measure) -> bool
    requires counts { (dividend.count ≤ most_terms) × (by.count ≤ most_terms) × (quotient.count ≤ most_terms + 1) }
    requires norms { dividend.norm ≤ largest_norm }
    ensures { IsTrue result → HasRoom dividend.count dividend.norm by.count by.norm quotient.count quotient.norm }
{
    let product = quotient.norm.saturating_mul(by.norm);
    dividend.count + quotient.count * by.count <= MOST_TERMS
        && quotient.norm <= LARGEST_NORM
        && product <= LARGEST_NORM
        && dividend.norm + product <= LARGEST_NORM
}

fn are_zero(cells: &[i128]) -> bool
    ensures { IsTrue result → All (λ c. c ≡ pos 0) cells.now }
{
    cells.iter().all(|c| *c == 0)
}
