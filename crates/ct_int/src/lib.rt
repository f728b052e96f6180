//! The greatest common divisor of whole numbers, and rational numbers in lowest terms.
//!
//! A `Rat` is seen as a `Ratio`: a whole number over a positive one. It is in lowest terms, and both parts
//! are at most 2^127 - 1 in size, which `num` and `den` tell as `IsRational`.
//!
//! Each operation answers the lowest terms of its exact value, and refuses exactly where its clause says: a
//! product by its lowest terms, a sum by the size of what is added. Values are compared by cross products of
//! any size, so `cmp` is never refused. No call takes memory. `specs/Rational.antt` is the page to read
//! first, and `laws.rt` says that its words are about values and not about terms.
//!
//! ```
//! let half = Rat::new(1, 2)?;
//! let third = Rat::new(1, 3)?;
//! assert_eq!(rt; half.add(&third)?, Rat::new(5, 6)?);
//! ```
#![tactic(auto)]

mod divisors;
mod fault;
mod laws;
mod rat;
mod wholes;
mod wide;

pub use divisors::gcd;
pub use fault::IntFault;
pub use laws::{
    difference_undoes_sum, greatest_common_is_gcd, least_common_is_least, lowest_terms_are_unique,
    lowest_terms_exist, order_is_by_value, order_is_total, products_are_by_value,
    quotient_undoes_product, sums_are_by_value,
};
pub use rat::Rat;

#[cfg(test)]
mod tests;
