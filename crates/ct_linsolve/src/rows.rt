// All rows at a pivot, and the row in which a pivot is found.
ghost use Rattle.std.specs.Prelude.{◌≡◌, ◌≢◌, ◌<◌, ◌++◌, ◌∷◌, [], IfOk, IfSome, OnOk, length, option_map};
ghost use Rattle.ct_algebra.specs.Polynomial.{polys};
ghost use Rattle.ct_checked.specs.Checked.{AnswersBy};
ghost use Rattle.ct_linsolve.specs.Elimination.{checked_rows, is_used, pivot_row};
ghost use Rattle.ct_linsolve.specs.Refuting.{pivot_of};
ghost use Rattle.ct_linsolve.specs.Rows.{entry, row_at};
ghost use Rattle.ct_linsolve.specs.Views.{pivot_view, pivots_of, rows_of};

use crate::entries::{copied, other};
use crate::pivot::Pivot;
use ct_mono::{Fault, NoMemory};
use ct_poly::Poly;
use std::alloc::Global;

pub(crate) fn append_row(list: &mut Vec<Vec<Poly>>, row: Vec<Poly>) -> Result<(), NoMemory>
    ensures { OnOk result (list.new.items ≡ list.old.items ++ row ∷ []) }
{
    list.push(row)?;
    Ok(())
}

/// All rows in order, at the pivot in this row.
pub(crate) fn rows_at_pivot(
    alloc: Global,
    column: usize,
    place: usize,
    prev: &Poly,
    old: &[Vec<Poly>],
) -> Result<Vec<Vec<Poly>>, Fault>
    requires nonzero { prev.now ≢ polys.zero }
    requires in_range { place < length old.now }
    ensures { AnswersBy (λ v. rows_of v.items) (checked_rows column place prev.now (rows_of old.now)) result }
{
    let pivot = old[place].as_slice();
    let mut done = Vec::with_capacity(alloc, old.len())?;
    let mut rest = old;
    'going: while let Some((r, more)) = rest.split_first() {
        let row = if done.len() == place {
            copied(alloc, r.as_slice())?
        } else {
            other(alloc, column, pivot, prev, r.as_slice())?
        };
        append_row(&mut done, row)?;
        rest = more;
    }
    Ok(done)
}

/// The first unused row with a nonzero entry in a column.
pub(crate) fn find_pivot(column: usize, pivots: &[Pivot], rows: &[Vec<Poly>]) -> Option<usize>
    ensures value { result ≡ pivot_row column (pivots_of pivots.now) (rows_of rows.now) }
    ensures in_range { IfSome result (λ place. place < length rows.now) }
{
    let mut place = 0;
    let mut rest = rows;
    'seeking: while let Some((r, more)) = rest.split_first() {
        if !is_used(place, pivots) && !is_zero_at(r.as_slice(), column) {
            return Some(place);
        }
        place += 1;
        rest = more;
    }
    None
}

/// The pivot of a column.
pub(crate) fn pivot_of(pivots: &[Pivot], column: usize) -> Option<Pivot>
    ensures { pivot_of column (pivots_of pivots.now) ≡ option_map pivot_view result }
{
    let mut rest = pivots;
    'seeking: while let Some((p, more)) = rest.split_first() {
        if p.column == column {
            return Some(*p);
        }
        rest = more;
    }
    None
}

pub(crate) fn row_or_none<'a>(rows: &'a [Vec<Poly>], place: usize) -> &'a [Poly]
    ensures { result.now ≡ row_at (rows_of rows.now) place }
{
    match rows.get(place) {
        Some(row) => row.as_slice(),
        None => &[],
    }
}

fn is_used(row: usize, pivots: &[Pivot]) -> bool
    ensures { result ≡ is_used row (pivots_of pivots.now) }
{
    let mut rest = pivots;
    'seeking: while let Some((p, more)) = rest.split_first() {
        if row == p.row {
            return true;
        }
        rest = more;
    }
    false
}

fn is_zero_at(row: &[Poly], column: usize) -> bool
    ensures { result ≡ polys.is_zero (entry row.now column) }
{
    match row.get(column) {
        Some(p) => p.is_zero(),
        None => true,
    }
}
