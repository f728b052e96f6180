// Factors of denominators.

use ct_poly::Poly;

/// A polynomial with an exponent.
#[derive(Drop)]
pub struct Factor {
    pub poly: Poly,
    pub exp: u32,
}
