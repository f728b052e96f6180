// Matrices of polynomials.
ghost use Rattle.std.specs.Prelude.{◌≡◌, ◌≤◌, length};
ghost use Rattle.std.specs.List.{All};

use crate::poly::Poly;

/// A matrix of `width` columns. The first of them, `certs` in number, are those of certificates, the others those of a telescoper.
#[derive(Drop)]
pub struct Matrix {
    pub rows: Vec<Vec<Poly>>,
    pub width: usize,
    pub certs: usize,
    pub ghost filled: { All (λ row. length row.items ≡ width) rows.items },
    pub ghost within: { certs ≤ width },
}
