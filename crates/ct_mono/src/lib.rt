//! Monomials in six names, over the frame of checked arithmetic.
//!
//! A `Monomial` is seen as a list of six exponents, ordered by its total and then by the first exponent
//! that differs. Its total is at most `LARGEST_DEGREE`. `up_to` lists all monomials in some names.
//!
//! What a call that can overflow answers, and the limits, are those of `ct_checked`, re-exported.
#![tactic(auto)]

mod listing;
mod monomial;
#[cfg(test)]
mod tests;

pub use ct_checked::{Fault, Kind, LARGEST_DEGREE, LARGEST_NORM, MOST_TERMS};
pub use listing::up_to;
pub use monomial::Monomial;
pub use std::alloc::AllocError as NoMemory;
