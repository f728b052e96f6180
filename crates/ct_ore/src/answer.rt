// Answers: a telescoper with what shows that it is one.

use crate::op::Op;
use ct_poly::Poly;

/// For a summed name: numerator and denominator of a certificate, and its part of the scale, the polynomial
/// that its difference is multiplied by.
#[derive(Drop)]
pub struct Part {
    pub name: u8,
    pub numerator: Op,
    pub denominator: Poly,
    pub part: Poly,
}

/// A telescoper, a part for each summed name in order, a scale, and a cofactor for each generator.
#[derive(Drop)]
pub struct Answer {
    pub telescoper: Op,
    pub parts: Vec<Part>,
    pub scale: Poly,
    pub cofactors: Vec<Op>,
}
