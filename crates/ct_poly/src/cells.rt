// Cells: the coefficients of a polynomial as a table by monomials, to which multiples of a row of terms are added in place.
ghost use Rattle.std.specs.Prelude.{◌≡◌, ◌+◌, ◌*◌, ◌<◌, ◌≤◌, All, length, unsigned_abs};
ghost use Rattle.ct_checked.specs.Limits.{largest_norm};
ghost use Rattle.ct_poly.specs.Cells.{added, size_of_cells, size_of_spots};

use crate::product::product_of_coefs;
use crate::sum::sum_of_coefs;

/// A coefficient, and the cell of its monomial.
#[derive(Clone, Copy)]
pub(crate) struct Spot {
    pub(crate) cell: usize,
    pub(crate) coef: i128,
}

/// Adds a multiple of the spots, `base` cells above their own.
pub(crate) fn add_multiple(cells: &mut [i128], base: usize, coef: i128, spots: &[Spot])
    requires inside { All (λ s. base + s.cell < length cells.old) spots.now }
    requires small { size_of_cells cells.old + unsigned_abs coef * size_of_spots spots.now ≤ largest_norm }
    ensures cells { cells.new ≡ added base coef cells.old spots.now }
    ensures small { size_of_cells cells.new ≤ size_of_cells cells.old + unsigned_abs coef * size_of_spots spots.now }
{
    let mut left = spots;
    'adding: while let Some((s, rest)) = left.split_first() {
        let product = product_of_coefs(coef, s.coef);
        let cell = &mut cells[base + s.cell];
        *cell = sum_of_coefs(*cell, product);
        left = rest;
    }
}
