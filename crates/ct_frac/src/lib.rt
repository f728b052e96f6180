//! Fractions of polynomials with factored denominators, exact and with exact overflow.
//!
//! A `Frac` is seen as it is written: a numerator over a whole number and a rising list of factors with exponents,
//! with no whole number that divides both; zero is 0 over 1. Factors need not be irreducible, so one value is written
//! in several ways; `same` compares what is written and `same_value` the values.
//!
//! A call that can overflow answers the checked computation of `specs/Arithmetic.antt` or `specs/Symbols.antt`, step by
//! step; the others answer the written form of `specs/Normal.antt`. The value of each is that of the field of fractions
//! of ct_algebra, with σ for a shift and δ for a derivative.
#![tactic(auto)]

mod clear;
mod common;
mod delta;
mod den;
mod factor;
mod frac;
mod insertion;
mod laws;
mod left;
mod normal;
mod quotient;
mod same;
mod sigma;
mod sum;
#[cfg(test)]
mod tests;
mod whole;

pub use ct_poly::{Fault, Kind, NoMemory, Poly};
pub use den::Den;
pub use factor::Factor;
pub use frac::Frac;
pub use laws::{
    common_denominator_is_divided, common_denominator_is_least, factors_are_divided_out,
    written_value_is_a_quotient,
};
