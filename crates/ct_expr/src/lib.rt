//! Expressions, and their values.
//!
//! An `Expr` stands as it was written, with names and symbols as numbers of declared names. `evaluate` gives the
//! operator that it stands for, or the first overflow on the way: each step is a value, which is an operator over
//! a whole number in lowest terms. `evaluate_polynomial` is the same for an expression without symbols.
//!
//! Read `specs/ValueArithmetic.antt` for the steps, `specs/Value.antt` for the value of each kind of expression,
//! and `specs/ValueLaws.antt` for what they mean as fractions.
#![tactic(auto)]

mod evaluation;
mod expr;
mod laws;
mod polynomial;
#[cfg(test)]
mod tests;
mod value;

pub use evaluation::evaluate;
pub use expr::{Expr, Summand};
pub use laws::{
    differences_are_exact, negatives_are_exact, polynomials_lose_nothing, powers_are_exact,
    products_are_exact, quotients_are_exact, sums_are_exact, values_are_lowest,
};
pub use polynomial::evaluate_polynomial;
