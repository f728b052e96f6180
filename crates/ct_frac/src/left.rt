// What a division by a factor leaves.

use ct_poly::Poly;

/// A numerator, and how often the factor still stands below it.
#[derive(Drop)]
pub struct Left {
    pub numerator: Poly,
    pub exponent: u32,
}
