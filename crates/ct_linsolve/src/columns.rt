// The columns, one after the other.
ghost use Rattle.std.specs.Prelude.{◌≡◌, ◌≢◌, ◌<◌, ◌++◌, ◌∷◌, [], IfOk, OnOk, None, length};
ghost use Rattle.std.specs.List.{range_with_len};
ghost use Rattle.ct_algebra.specs.Polynomial.{polys};
ghost use Rattle.ct_checked.specs.Checked.{AnswersBy};
ghost use Rattle.ct_checked.specs.Traversal.{checked_fold};
ghost use Rattle.ct_linsolve.specs.EchelonViews.{working_of};
ghost use Rattle.ct_linsolve.specs.Elimination.{checked_column, checked_pivot};
ghost use Rattle.ct_linsolve.specs.Views.{pivots_of};

use crate::entries::entry_at;
use crate::pivot::Pivot;
use crate::rows::{find_pivot, rows_at_pivot};
use crate::working::Working;
use ct_mono::{Fault, NoMemory};
use std::alloc::Global;

/// All columns in order.
pub(crate) fn all_columns(
    alloc: Global,
    certs: usize,
    width: usize,
    start: Working,
) -> Result<Working, Fault>
    requires { start.prev ≢ polys.zero }
    ensures { AnswersBy working_of (checked_fold (checked_column certs) (working_of start) (range_with_len 0 width)) result }
{
    let mut s = start;
    let mut column = 0;
    let mut left = width;
    'columns: while left > 0 {
        s = one_column(alloc, certs, column, s)?;
        left -= 1;
        column += 1;
    }
    Ok(s)
}

/// One column. Behind a free column nothing is done.
#[tactic(auto, unfolding(crate::specs::Elimination::checked_column))]
fn one_column(alloc: Global, certs: usize, column: usize, s: Working) -> Result<Working, Fault>
    requires { s.prev ≢ polys.zero }
    ensures { AnswersBy working_of (checked_column certs (working_of s) column) result }
{
    if s.free.is_some() {
        return Ok(s);
    }
    match find_pivot(column, s.pivots.as_slice(), s.rows.as_slice()) {
        Some(row) => at_pivot(alloc, column, row, &s),
        None => {
            if column < certs {
                return Ok(s);
            }
            Ok(Working {
                rows: s.rows,
                pivots: s.pivots,
                prev: s.prev,
                free: Some(column),
            })
        }
    }
}

/// A column with its pivot.
#[tactic(auto, unfolding(crate::specs::Elimination::checked_pivot))]
fn at_pivot(alloc: Global, column: usize, row: usize, s: &Working) -> Result<Working, Fault>
    requires nonzero { s.now.prev ≢ polys.zero }
    requires in_range { row < length s.now.rows.items }
    ensures { AnswersBy working_of (checked_pivot column row (working_of s.now)) result }
{
    let rows = rows_at_pivot(alloc, column, row, &s.prev, s.rows.as_slice())?;
    let pivots = with_pivot(alloc, s.pivots.as_slice(), row, column)?;
    let prev = entry_at(alloc, s.rows[row].as_slice(), column)?;
    Ok(Working {
        rows,
        pivots,
        prev,
        free: None,
    })
}

fn with_pivot(
    alloc: Global,
    pivots: &[Pivot],
    row: usize,
    column: usize,
) -> Result<Vec<Pivot>, NoMemory>
    ensures { IfOk result (λ v. pivots_of v.items ≡ pivots_of pivots.now ++ record { row = row; column = column } ∷ []) }
{
    let mut all = Vec::from_slice(alloc, pivots)?;
    append_pivot(&mut all, Pivot { row, column })?;
    Ok(all)
}

fn append_pivot(list: &mut Vec<Pivot>, p: Pivot) -> Result<(), NoMemory>
    ensures { OnOk result (list.new.items ≡ list.old.items ++ p ∷ []) }
{
    list.push(p)?;
    Ok(())
}
