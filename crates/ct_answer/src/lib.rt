//! Polynomials, operators, fractions, reductions and tested generators as text.
//!
//! The terms fall. A term is its number and its powers joined by `*`, as in `-2*n^2*S[n]`, and a coefficient of
//! several terms stands in parentheses, as in `(n + 1)*S[n]^2 - 3*n`. `specs/Text.antt` says the rest,
//! `specs/Reductions.antt` which lines show reductions, `specs/Generators.antt` what is written of generators, and
//! `specs/ReadBack.antt` how a text is read back.
#![tactic(auto)]

mod bytes;
mod factors;
mod fraction;
mod generators;
mod laws;
mod operator;
mod polynomial;
mod reductions;
#[cfg(test)]
mod tests;

pub use bytes::{push, push_name, push_number};
pub use ct_mono::NoMemory;
pub use factors::print_monomial;
pub use fraction::print_frac;
pub use generators::{print_tested, push_refusal};
pub use laws::{printed_operators_are_read, printed_polynomials_are_read};
pub use operator::print_op;
pub use polynomial::print_poly;
pub use reductions::print_reductions;
