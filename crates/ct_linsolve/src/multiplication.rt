// Rows of multipliers, multiplied out with a matrix.
ghost use Rattle.std.specs.Prelude.{◌≡◌, ◌<◌, IfOk, length};
ghost use Rattle.std.specs.List.{All};
ghost use Rattle.ct_algebra.specs.Polynomial.{polys};
ghost use Rattle.ct_checked.specs.Checked.{Answers, AnswersBy};
ghost use Rattle.ct_linsolve.specs.EchelonViews.{AreProductsOf};
ghost use Rattle.ct_linsolve.specs.Products.{checked_entry, checked_product, checked_products, plus_product, with_product};
ghost use Rattle.ct_linsolve.specs.Rows.{entry};
ghost use Rattle.ct_linsolve.specs.Views.{rows_of};

use crate::entries::append;
use crate::rows::{append_row, row_or_none};
use ct_mono::Fault;
use ct_poly::{Matrix, Poly};
use std::alloc::Global;

/// Each row times the matrix.
pub fn multiply_out(
    alloc: Global,
    rows: &[Vec<Poly>],
    matrix: &Matrix,
) -> Result<Vec<Vec<Poly>>, Fault>
    requires { All (λ row. length row.items ≡ length matrix.now.rows.items) rows.now }
    ensures steps { AnswersBy (λ v. rows_of v.items) (checked_products matrix.now.width (rows_of matrix.now.rows.items) (rows_of rows.now)) result }
    ensures value { IfOk result (λ v. AreProductsOf matrix.now (rows_of rows.now) (rows_of v.items)) }
{
    let mut done = Vec::with_capacity(alloc, rows.len())?;
    let mut rest = rows;
    'multiplying: loop {
        let Some((row, more)) = rest.split_first() else {
            return Ok(done);
        };
        let product = row_product(alloc, row.as_slice(), matrix.width, matrix.rows.as_slice())?;
        append_row(&mut done, product)?;
        rest = more;
    }
}

fn row_product(
    alloc: Global,
    row: &[Poly],
    width: usize,
    rows: &[Vec<Poly>],
) -> Result<Vec<Poly>, Fault>
    ensures { AnswersBy (λ v. v.items) (checked_product width (rows_of rows.now) row.now) result }
{
    let mut done = Vec::with_capacity(alloc, width)?;
    let mut column = 0;
    let mut left = width;
    'multiplying: while left > 0 {
        append(&mut done, entry_product(alloc, row, column, rows)?)?;
        left -= 1;
        column += 1;
    }
    Ok(done)
}

fn entry_product(
    alloc: Global,
    row: &[Poly],
    column: usize,
    rows: &[Vec<Poly>],
) -> Result<Poly, Fault>
    ensures { Answers (checked_entry (rows_of rows.now) row.now column) result }
{
    let mut sum = Poly::zero(alloc);
    let mut k = 0;
    let mut left = rows.len();
    'summing: while left > 0 {
        sum = with_product(alloc, rows, row, column, &sum, k)?;
        left -= 1;
        k += 1;
    }
    Ok(sum)
}

fn with_product(
    alloc: Global,
    rows: &[Vec<Poly>],
    row: &[Poly],
    column: usize,
    sum: &Poly,
    k: usize,
) -> Result<Poly, Fault>
    ensures { Answers (with_product (rows_of rows.now) row.now column sum.now k) result }
{
    let zero = Poly::zero(alloc);
    let x = entry_or(row, k, &zero);
    let y = entry_or(row_or_none(rows, k), column, &zero);
    plus_product(alloc, sum, x, y)
}

fn plus_product(alloc: Global, sum: &Poly, x: &Poly, y: &Poly) -> Result<Poly, Fault>
    ensures { Answers (plus_product sum.now x.now y.now) result }
{
    let product = x.mul(alloc, y)?;
    sum.add(alloc, &product)
}

fn entry_or<'a>(row: &'a [Poly], column: usize, zero: &'a Poly) -> &'a Poly
    requires { zero.now ≡ polys.zero }
    ensures { result.now ≡ entry row.now column }
{
    match row.get(column) {
        Some(p) => p,
        None => zero,
    }
}
