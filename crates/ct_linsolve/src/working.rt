// What elimination works on.

use crate::pivot::Pivot;
use ct_poly::Poly;

/// The rows of [A | I], the pivots so far, the pivot entry before, and the free column once there is one.
#[derive(Drop)]
pub(crate) struct Working {
    pub rows: Vec<Vec<Poly>>,
    pub pivots: Vec<Pivot>,
    pub prev: Poly,
    pub free: Option<usize>,
}
