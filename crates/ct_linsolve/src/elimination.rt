// Elimination of a matrix.
ghost use Rattle.std.specs.Prelude.{◌≡◌, ◌<◌, ◌++◌, IfOk, map, take, drop, cond, eqb};
ghost use Rattle.ct_algebra.specs.Polynomial.{polys};
ghost use Rattle.ct_checked.specs.Checked.{AnswersBy};
ghost use Rattle.ct_linsolve.specs.EchelonViews.{IsEchelonOfMatrix, eliminated_of};
ghost use Rattle.ct_linsolve.specs.Elimination.{checked_elimination, unit_row, with_unit};
ghost use Rattle.ct_linsolve.specs.Views.{rows_of};

use crate::columns::all_columns;
use crate::echelon::Echelon;
use crate::entries::{append, copied, one};
use crate::rows::append_row;
use crate::working::Working;
use ct_mono::{Fault, NoMemory};
use ct_poly::{Matrix, Poly};
use std::alloc::Global;

/// The reduced echelon form of a matrix, up to the first column past those of certificates that gets no pivot, and the rows that, times
/// the matrix, give it.
#[tactic(auto, unfolding(crate::specs::Elimination::checked_elimination))]
pub fn eliminate(alloc: Global, matrix: &Matrix) -> Result<Echelon, Fault>
    ensures steps { AnswersBy eliminated_of (checked_elimination matrix.now.certs matrix.now.width (rows_of matrix.now.rows.items)) result }
    ensures certified { IfOk result (λ e. IsEchelonOfMatrix matrix.now e) }
    ensures same { IfOk result (λ e. (e.width ≡ matrix.now.width) × (e.certs ≡ matrix.now.certs)) }
{
    let rows = with_unit(alloc, matrix.rows.as_slice())?;
    let prev = one(alloc)?;
    let start = Working {
        rows,
        pivots: Vec::new(alloc),
        prev,
        free: None,
    };
    let done = all_columns(alloc, matrix.certs, matrix.width, start)?;
    let left = fronts(alloc, matrix.width, done.rows.as_slice())?;
    let right = backs(alloc, matrix.width, done.rows.as_slice())?;
    Ok(Echelon {
        left,
        right,
        pivots: done.pivots,
        free: done.free,
        width: matrix.width,
        certs: matrix.certs,
    })
}

/// The rows of [A | I].
fn with_unit(alloc: Global, rows: &[Vec<Poly>]) -> Result<Vec<Vec<Poly>>, NoMemory>
    ensures { IfOk result (λ v. rows_of v.items ≡ with_unit (rows_of rows.now)) }
{
    let mut done = Vec::with_capacity(alloc, rows.len())?;
    let mut rest = rows;
    'joining: while let Some((r, more)) = rest.split_first() {
        let row = joined(alloc, done.len(), rows.len(), r.as_slice())?;
        append_row(&mut done, row)?;
        rest = more;
    }
    Ok(done)
}

/// A row of [A | I], A of `count` rows.
fn joined(alloc: Global, place: usize, count: usize, row: &[Poly]) -> Result<Vec<Poly>, NoMemory>
    ensures { IfOk result (λ v. v.items ≡ row.now ++ unit_row count place) }
{
    let mut done = copied(alloc, row)?;
    let mut left = count;
    let mut i = 0;
    'joining: while left > 0 {
        append(&mut done, unit_entry(alloc, i, place)?)?;
        left -= 1;
        i += 1;
    }
    Ok(done)
}

fn unit_entry(alloc: Global, i: usize, place: usize) -> Result<Poly, NoMemory>
    ensures { IfOk result (λ p. p ≡ cond (eqb i place) polys.one polys.zero) }
{
    if i == place {
        one(alloc)
    } else {
        Ok(Poly::zero(alloc))
    }
}

/// The first entries of all rows.
fn fronts(alloc: Global, width: usize, rows: &[Vec<Poly>]) -> Result<Vec<Vec<Poly>>, NoMemory>
    ensures { IfOk result (λ v. rows_of v.items ≡ map (take width) (rows_of rows.now)) }
{
    let mut done = Vec::with_capacity(alloc, rows.len())?;
    let mut rest = rows;
    'taking: while let Some((r, more)) = rest.split_first() {
        append_row(&mut done, copied(alloc, front(width, r.as_slice()))?)?;
        rest = more;
    }
    Ok(done)
}

fn front<'a>(width: usize, row: &'a [Poly]) -> &'a [Poly]
    ensures { result.now ≡ take width row.now }
{
    if width <= row.len() {
        row.split_at(width).0
    } else {
        row
    }
}

/// The later entries of all rows.
fn backs(alloc: Global, width: usize, rows: &[Vec<Poly>]) -> Result<Vec<Vec<Poly>>, NoMemory>
    ensures { IfOk result (λ v. rows_of v.items ≡ map (drop width) (rows_of rows.now)) }
{
    let mut done = Vec::with_capacity(alloc, rows.len())?;
    let mut rest = rows;
    'dropping: while let Some((r, more)) = rest.split_first() {
        append_row(&mut done, copied(alloc, back(width, r.as_slice()))?)?;
        rest = more;
    }
    Ok(done)
}

fn back<'a>(width: usize, row: &'a [Poly]) -> &'a [Poly]
    ensures { result.now ≡ drop width row.now }
{
    if width <= row.len() {
        row.split_at(width).1
    } else {
        &[]
    }
}
