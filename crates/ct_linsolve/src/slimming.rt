// A row over the candidates that divide every entry.
ghost use Rattle.std.specs.Prelude.{◌≡◌, ◌<◌, IfOk, eqb};
ghost use Rattle.std.specs.List.{fold, range_with_len};
ghost use Rattle.ct_algebra.specs.Polynomial.{degree, degree_of};
ghost use Rattle.ct_poly.specs.Terms.{entries};
ghost use Rattle.ct_linsolve.specs.Slimming.{IsNonzero, divided_out, row_degree, slimmed, without, without_entry};

use crate::entries::{entry_at, quotients};
use ct_mono::NoMemory;
use ct_poly::{Poly, Term};
use std::alloc::Global;

/// The row over each polynomial of a list, and then over the primitive form of each entry, as often as these divide every entry.
#[tactic(auto, unfolding(crate::specs::Slimming::slimmed))]
pub(crate) fn slimmed(alloc: Global, extra: &[Poly], row: Vec<Poly>) -> Result<Vec<Poly>, NoMemory>
    requires { IsNonzero row.items }
    ensures { IfOk result (λ v. v.items ≡ slimmed extra.now row.items) }
{
    let width = row.len();
    let rest = without_each(alloc, extra, row)?;
    without_entries(alloc, width, rest)
}

fn without_each(alloc: Global, candidates: &[Poly], row: Vec<Poly>) -> Result<Vec<Poly>, NoMemory>
    requires { IsNonzero row.items }
    ensures value { IfOk result (λ v. v.items ≡ fold without row.items candidates.now) }
    ensures nonzero { IfOk result (λ v. IsNonzero v.items) }
{
    let mut left = row;
    let mut rest = candidates;
    'dividing: while let Some((by, more)) = rest.split_first() {
        left = without(alloc, by, left)?;
        rest = more;
    }
    Ok(left)
}

fn without_entries(alloc: Global, width: usize, row: Vec<Poly>) -> Result<Vec<Poly>, NoMemory>
    requires { IsNonzero row.items }
    ensures { IfOk result (λ v. v.items ≡ fold without_entry row.items (range_with_len 0 width)) }
{
    let mut done = row;
    let mut column = 0;
    let mut left = width;
    'dividing: while left > 0 {
        let by = entry_at(alloc, done.as_slice(), column)?.primitive_form(alloc)?;
        done = without(alloc, &by, done)?;
        left -= 1;
        column += 1;
    }
    Ok(done)
}

/// The row over a polynomial, as often as it divides every entry. Constants divide nothing here.
#[tactic(auto, unfolding(crate::specs::Slimming::without))]
fn without(alloc: Global, by: &Poly, row: Vec<Poly>) -> Result<Vec<Poly>, NoMemory>
    requires { IsNonzero row.items }
    ensures value { IfOk result (λ v. v.items ≡ without row.items by.now) }
    ensures nonzero { IfOk result (λ v. IsNonzero v.items) }
{
    if is_constant(by) {
        return Ok(row);
    }
    divide_out(alloc, by, row)
}

fn divide_out(alloc: Global, by: &Poly, row: Vec<Poly>) -> Result<Vec<Poly>, NoMemory>
    requires some { 0 < degree by.now }
    requires nonzero { IsNonzero row.items }
    ensures value { IfOk result (λ v. v.items ≡ divided_out by.now (row_degree row.items) row.items) }
    ensures nonzero { IfOk result (λ v. IsNonzero v.items) }
{
    let mut row = row;
    'dividing: loop {
        match quotients(alloc, by, row.as_slice())? {
            None => return Ok(row),
            Some(divided) => row = divided,
        }
    }
}

fn is_constant(p: &Poly) -> bool
    ensures { result ≡ eqb (degree p.now) 0 }
{
    is_first_constant(p.terms())
}

/// Whether the first monomial is 1, or there is none.
fn is_first_constant(ts: &[Term]) -> bool
    ensures { result ≡ eqb (degree_of (entries ts.now)) 0 }
{
    match ts.first() {
        None => true,
        Some(t) => t.mono.total() == 0,
    }
}
