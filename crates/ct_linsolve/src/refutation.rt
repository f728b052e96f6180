// The rows that refute the columns past those of certificates.
ghost use Rattle.std.specs.Prelude.{◌≡◌, IfOk, None};
ghost use Rattle.ct_linsolve.specs.EchelonViews.{RefuteColumns, refuting_rows_of};
ghost use Rattle.ct_linsolve.specs.Refuting.{refuting_row};
ghost use Rattle.ct_linsolve.specs.Views.{pivots_of, rows_of};

use crate::echelon::Echelon;
use crate::entries::copied;
use crate::pivot::Pivot;
use crate::rows::{append_row, pivot_of, row_or_none};
use ct_mono::NoMemory;
use ct_poly::Poly;
use std::alloc::Global;

/// One row of multipliers for each column past those of certificates, in order: the right part of its pivot's row.
pub fn refuting_rows(alloc: Global, echelon: &Echelon) -> Result<Vec<Vec<Poly>>, NoMemory>
    requires { echelon.now.free ≡ None }
    ensures value { IfOk result (λ v. rows_of v.items ≡ refuting_rows_of echelon.now) }
    ensures refutes { IfOk result (λ v. RefuteColumns echelon.now (rows_of v.items)) }
{
    let mut done = Vec::new(alloc);
    let mut column = echelon.certs;
    let mut left = echelon.width - echelon.certs;
    'choosing: while left > 0 {
        let row = refuting_row(
            alloc,
            echelon.right.as_slice(),
            echelon.pivots.as_slice(),
            column,
        )?;
        append_row(&mut done, row)?;
        left -= 1;
        column += 1;
    }
    Ok(done)
}

fn refuting_row(
    alloc: Global,
    right: &[Vec<Poly>],
    pivots: &[Pivot],
    column: usize,
) -> Result<Vec<Poly>, NoMemory>
    ensures { IfOk result (λ v. v.items ≡ refuting_row (rows_of right.now) (pivots_of pivots.now) column) }
{
    match pivot_of(pivots, column) {
        Some(p) => copied(alloc, row_or_none(right, p.row)),
        None => Ok(Vec::new(alloc)),
    }
}
