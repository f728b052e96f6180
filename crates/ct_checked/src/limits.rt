// The limits of checked arithmetic.

/// The greatest total degree of a polynomial or an operator.
pub const LARGEST_DEGREE: u16 = 4095;

/// The most terms that a sum or a product may have before they are gathered.
pub const MOST_TERMS: usize = 1 << 20;

/// The greatest norm of a polynomial, and the greatest whole number: 2^127 - 1.
pub const LARGEST_NORM: u128 = (1 << 127) - 1;
