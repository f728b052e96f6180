//! Ore algebras of shifts and derivations, and their operators, with exact overflow.
//!
//! An `Op` is seen as a finite map from products of symbols to nonzero polynomials. An `Algebra` is seen as
//! the list of what it knows of its names; its product is the one of ct_algebra under the names' actions.
//!
//! A call that can overflow answers the checked computation of `specs/Measures.antt`, which counts and
//! weighs every pair of coefficient terms; `laws.rt` says what these measures bound. Names are given as
//! numbers below six.
#![tactic(auto)]

mod algebra;
mod answer;
mod coefficient_term;
mod coefficients;
mod degrees;
mod laws;
mod measures;
mod merging;
mod op;
mod product;
mod scaling;
mod sum;
mod terms;
#[cfg(test)]
mod tests;
mod ways;
mod wholes;

pub use algebra::{Action, Algebra, NameInfo, Role};
pub use answer::{Answer, Part};
pub use laws::{
    checked_values_are_exact, product_fits_where_measures_do, product_with_zero_fits,
    products_are_within_measures, sum_fits_where_measures_do, sums_are_within_measures,
};
pub use op::{Op, OpTerm};
