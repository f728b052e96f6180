// What elimination makes of a matrix.
ghost use Rattle.std.specs.Prelude.{◌≤◌};
ghost use Rattle.ct_linsolve.specs.EchelonForm.{IsEchelonForm};
ghost use Rattle.ct_linsolve.specs.Views.{eliminated};

use crate::pivot::Pivot;
use ct_poly::Poly;

/// Both parts of the rows of [A | I] after elimination, the pivots in the order of their columns, and the free column, where there is
/// one. `width` and `certs` are those of the matrix A.
#[derive(Drop)]
pub struct Echelon {
    pub left: Vec<Vec<Poly>>,
    pub right: Vec<Vec<Poly>>,
    pub pivots: Vec<Pivot>,
    pub free: Option<usize>,
    pub width: usize,
    pub certs: usize,
    pub ghost within: { certs ≤ width },
    pub ghost formed: { ∥ IsEchelonForm certs width (eliminated left.items right.items pivots.items free) ∥₁ },
}
