// What a left reduction gives.

use ct_ore::Op;
use ct_poly::Poly;

/// A nonzero scale, a cofactor for each generator, and a rest: the scale times the operator is the sum of
/// the products of cofactors and generators, plus the rest.
#[derive(Drop)]
pub struct Reduced {
    pub scale: Poly,
    pub cofactors: Vec<Op>,
    pub rest: Op,
}
