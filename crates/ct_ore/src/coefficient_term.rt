// A term of a coefficient, by itself.

use ct_mono::Monomial;

/// A whole number times powers of the names, before a product of symbols.
#[derive(Clone, Copy)]
pub struct CoefficientTerm {
    pub symbols: Monomial,
    pub names: Monomial,
    pub number: i128,
}
