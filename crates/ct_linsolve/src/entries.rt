// One row: its entries, made and divided.
ghost use Rattle.std.specs.Prelude.{◌≡◌, ◌≢◌, ◌≤◌, ◌++◌, ◌∷◌, [], Ok, Err, IfOk, IfSome, MatchOption, OnOk, map, pos};
ghost use Rattle.ct_algebra.specs.Monomial.{unit};
ghost use Rattle.ct_algebra.specs.Polynomial.{polys};
ghost use Rattle.ct_checked.specs.Checked.{Answers, AnswersBy};
ghost use Rattle.ct_checked.specs.Limits.{largest_norm};
ghost use Rattle.ct_poly.specs.Content.{IsContentOf, divided};
ghost use Rattle.ct_poly.specs.Crossing.{checked_cross};
ghost use Rattle.ct_linsolve.specs.DividedRow.{IsDividedEntry, IsDividedRow};
ghost use Rattle.ct_linsolve.specs.Elimination.{crossed_entry, checked_crossed, checked_divided, checked_other};
ghost use Rattle.ct_linsolve.specs.Rows.{entry, quotients, over_divisor, row_terms, over_content};

use ct_int::gcd;
use ct_mono::{Fault, NoMemory};
use ct_poly::{Poly, cross_quotient};
use std::alloc::Global;

pub(crate) fn append(list: &mut Vec<Poly>, p: Poly) -> Result<(), NoMemory>
    ensures { OnOk result (list.new.items ≡ list.old.items ++ p ∷ []) }
{
    list.push(p)?;
    Ok(())
}

/// A row of the same entries.
pub(crate) fn copied(alloc: Global, row: &[Poly]) -> Result<Vec<Poly>, NoMemory>
    ensures { IfOk result (λ v. v.items ≡ row.now) }
{
    let mut done = Vec::with_capacity(alloc, row.len())?;
    let mut rest = row;
    'copying: while let Some((x, more)) = rest.split_first() {
        append(&mut done, x.copy(alloc)?)?;
        rest = more;
    }
    Ok(done)
}

/// The entry of a column.
pub(crate) fn entry_at(alloc: Global, row: &[Poly], column: usize) -> Result<Poly, NoMemory>
    ensures { IfOk result (λ p. p ≡ entry row.now column) }
{
    match row.get(column) {
        Some(p) => p.copy(alloc),
        None => Ok(Poly::zero(alloc)),
    }
}

pub(crate) fn one(alloc: Global) -> Result<Poly, NoMemory>
    ensures { IfOk result (λ p. p ≡ polys.one) }
{
    Poly::constant(alloc, 1)
}

/// What becomes of another row than the pivot's. The entries are first looked for in cells, where they are divided as they are made.
#[tactic(auto, unfolding(crate::specs::Elimination::checked_other))]
pub(crate) fn other(
    alloc: Global,
    column: usize,
    pivot: &[Poly],
    prev: &Poly,
    row: &[Poly],
) -> Result<Vec<Poly>, Fault>
    requires { prev.now ≢ polys.zero }
    ensures { AnswersBy (λ v. v.items) (checked_other column pivot.now prev.now row.now) result }
{
    let p = entry_at(alloc, pivot, column)?;
    let a = entry_at(alloc, row, column)?;
    let by = prev.primitive_form(alloc)?;
    let divided = crossed_and_divided(alloc, column, &p, &a, &by, pivot, row)?;
    Ok(over_content(alloc, divided)?)
}

/// The row of p·x − a·y over a polynomial, where that divides every entry.
#[tactic(auto, unfolding(crate::specs::Elimination::checked_divided))]
fn crossed_and_divided(
    alloc: Global,
    column: usize,
    p: &Poly,
    a: &Poly,
    by: &Poly,
    pivot: &[Poly],
    row: &[Poly],
) -> Result<Vec<Poly>, Fault>
    requires { by.now ≢ polys.zero }
    ensures { AnswersBy (λ v. v.items) (checked_divided column p.now a.now by.now pivot.now row.now) result }
{
    if let Some(found) = divided_row(alloc, column, p, a, by, pivot, row)? {
        return Ok(found);
    }
    let crossed = crossed(alloc, column, p, a, pivot, row)?;
    Ok(over_divisor(alloc, by, crossed)?)
}

/// The row of p·x − a·y over a polynomial, where each entry is found in cells. `None` tells nothing.
fn divided_row(
    alloc: Global,
    column: usize,
    p: &Poly,
    a: &Poly,
    by: &Poly,
    pivot: &[Poly],
    row: &[Poly],
) -> Result<Option<Vec<Poly>>, NoMemory>
    requires { by.now ≢ polys.zero }
    ensures { IfOk result (λ o. IfSome o (λ v. IsDividedRow column p.now a.now by.now pivot.now row.now v.items)) }
{
    let zero = Poly::zero(alloc);
    let mut done = Vec::with_capacity(alloc, row.len())?;
    let mut rest = row;
    'dividing: loop {
        let Some((x, more)) = rest.split_first() else {
            return Ok(Some(done));
        };
        let y = pivot.get(done.len()).unwrap_or(&zero);
        let Some(q) = divided_entry(alloc, done.len() == column, p, a, x, y, by)? else {
            return Ok(None);
        };
        append(&mut done, q)?;
        rest = more;
    }
}

/// The quotient of one entry, where it is found; the entry of the pivot column is zero.
fn divided_entry(
    alloc: Global,
    at_pivot: bool,
    p: &Poly,
    a: &Poly,
    x: &Poly,
    y: &Poly,
    by: &Poly,
) -> Result<Option<Poly>, NoMemory>
    requires { by.now ≢ polys.zero }
    ensures { IfOk result (λ o. IfSome o (λ q. IsDividedEntry at_pivot p.now a.now by.now x.now y.now q)) }
{
    if at_pivot {
        return Ok(Some(Poly::zero(alloc)));
    }
    if x.is_zero() {
        if y.is_zero() {
            return Ok(Some(Poly::zero(alloc)));
        }
    }
    cross_quotient(alloc, p, a, x, y, by)
}

/// A row of p·x − a·y, where the pivot column has zero.
fn crossed(
    alloc: Global,
    column: usize,
    p: &Poly,
    a: &Poly,
    pivot: &[Poly],
    row: &[Poly],
) -> Result<Vec<Poly>, Fault>
    ensures { AnswersBy (λ v. v.items) (checked_crossed column p.now a.now pivot.now row.now) result }
{
    let one = one(alloc)?;
    let zero = Poly::zero(alloc);
    let mut done = Vec::with_capacity(alloc, row.len())?;
    let mut rest = row;
    'crossing: loop {
        let Some((x, more)) = rest.split_first() else {
            return Ok(done);
        };
        let y = pivot.get(done.len()).unwrap_or(&zero);
        let z = if done.len() == column {
            Poly::zero(alloc)
        } else {
            cross(alloc, p, a, x, y, &one)?
        };
        append(&mut done, z)?;
        rest = more;
    }
}

/// p·x − a·y, which is its own quotient by one: in cells where that finds it, and else step by step.
fn cross(alloc: Global, p: &Poly, a: &Poly, x: &Poly, y: &Poly, one: &Poly) -> Result<Poly, Fault>
    requires { one.now ≡ polys.one }
    ensures { Answers (checked_cross p.now a.now x.now y.now) result }
{
    if cells_pay(p, x) || cells_pay(a, y) {
        if let Some(found) = cross_quotient(alloc, p, a, x, y, one)? {
            return Ok(found);
        }
    }
    cross_by_steps(alloc, p, a, x, y)
}

/// Whether a product has enough pairs of terms for a table to pay.
fn cells_pay(p: &Poly, q: &Poly) -> bool {
    p.terms().len() >= 4 && q.terms().len() >= 4
}

#[tactic(auto, unfolding(ct_poly::specs::Crossing::checked_cross))]
fn cross_by_steps(alloc: Global, p: &Poly, a: &Poly, x: &Poly, y: &Poly) -> Result<Poly, Fault>
    ensures { Answers (checked_cross p.now a.now x.now y.now) result }
{
    let first = p.mul(alloc, x)?;
    let second = a.mul(alloc, y)?;
    first.sub(alloc, &second)
}

/// The quotients of all entries, or `None` where one has none.
pub(crate) fn quotients(
    alloc: Global,
    by: &Poly,
    row: &[Poly],
) -> Result<Option<Vec<Poly>>, NoMemory>
    requires { by.now ≢ polys.zero }
    ensures { IfOk result (λ o. MatchOption o (quotients by.now row.now ≡ Err tt) (λ v. quotients by.now row.now ≡ Ok v.items)) }
{
    let mut done = Vec::with_capacity(alloc, row.len())?;
    let mut rest = row;
    'dividing: while let Some((x, more)) = rest.split_first() {
        match x.quotient(alloc, by)? {
            None => return Ok(None),
            Some(q) => {
                append(&mut done, q)?;
            }
        }
        rest = more;
    }
    Ok(Some(done))
}

/// The row over a polynomial, where that divides every entry.
#[tactic(auto, unfolding(crate::specs::Rows::over_divisor))]
fn over_divisor(alloc: Global, by: &Poly, row: Vec<Poly>) -> Result<Vec<Poly>, NoMemory>
    requires { by.now ≢ polys.zero }
    ensures { IfOk result (λ v. v.items ≡ over_divisor by.now row.items) }
{
    match quotients(alloc, by, row.as_slice())? {
        None => Ok(row),
        Some(divided) => Ok(divided),
    }
}

/// The row over the greatest whole number that divides all coefficients.
#[tactic(auto, unfolding(crate::specs::Rows::over_content))]
fn over_content(alloc: Global, row: Vec<Poly>) -> Result<Vec<Poly>, NoMemory>
    ensures { IfOk result (λ v. v.items ≡ over_content row.items) }
{
    let divisor = content_of(row.as_slice());
    if divisor <= 1 {
        return Ok(row);
    }
    over_number(alloc, divisor, row.as_slice())
}

/// The number whose divisors are the common divisors of all coefficients.
fn content_of(row: &[Poly]) -> u128
    ensures divisors { IsContentOf (row_terms row.now) result }
    ensures small { result ≤ largest_norm }
{
    let mut divisor = 0;
    let mut rest = row;
    'gathering: while let Some((x, more)) = rest.split_first() {
        divisor = gcd(x.content(), divisor);
        if divisor == 1 {
            return 1;
        }
        rest = more;
    }
    divisor
}

fn over_number(alloc: Global, divisor: u128, row: &[Poly]) -> Result<Vec<Poly>, NoMemory>
    requires small { divisor ≤ largest_norm }
    requires divides { IsContentOf (row_terms row.now) divisor }
    ensures { IfOk result (λ v. v.items ≡ map (λ x. divided unit (pos divisor) x) row.now) }
{
    let mut done = Vec::with_capacity(alloc, row.len())?;
    let mut rest = row;
    'dividing: while let Some((x, more)) = rest.split_first() {
        append(&mut done, x.over_whole(alloc, divisor)?)?;
        rest = more;
    }
    Ok(done)
}
