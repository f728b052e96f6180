// Linear systems of supports.

use crate::key::Key;
use ct_mono::Monomial;
use ct_poly::{Matrix, Poly};

/// The system of a support. Row r of the matrix belongs to `elements[r]` and `monomials[r]`. `factors` are the factors of the common
/// denominator that have no summed name, rising.
#[derive(Drop)]
pub struct System {
    pub matrix: Matrix,
    pub columns: Vec<Key>,
    pub elements: Vec<u8>,
    pub monomials: Vec<Monomial>,
    pub factors: Vec<Poly>,
}
