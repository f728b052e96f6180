//! Polynomials in six names with whole coefficients, exact and with exact overflow.
//!
//! A `Poly` is seen as a finite map from monomials to nonzero whole numbers. It has at most `MOST_TERMS`
//! terms, and its norm, the sum of the absolute values of its coefficients, is at most `LARGEST_NORM`.
//!
//! A call that can overflow answers the checked computation of `specs/Measures.antt` or
//! `specs/Division.antt`: the exact value, or the kind of the first limit that the measures of its operands
//! could pass. The exact values are those of ct_algebra; `laws.rt` ties shifts and derivatives to its σ and δ.
//! Contents and the order of polynomials are defined in `specs/`. Names are given as numbers below six.
#![tactic(auto)]

mod accumulation;
mod boxes;
mod cell_division;
mod cell_product;
mod cells;
mod content;
mod crossing;
mod derivative;
mod division;
#[cfg(test)]
mod division_tests;
mod gathering;
mod laws;
mod matrix;
mod measures;
mod order;
mod part;
mod poly;
mod product;
mod shift;
mod split;
mod sum;
mod term;
#[cfg(test)]
mod tests;
mod whole;

pub use crossing::cross_quotient;
pub use ct_mono::{Fault, Kind, LARGEST_DEGREE, LARGEST_NORM, MOST_TERMS, Monomial, NoMemory};
pub use laws::{
    checked_values_are_exact, common_monomial_is_greatest, content_is_greatest,
    cross_quotients_fit_where_measures_do, derivatives_are_within_measures, division_goes_by_turns,
    each_division_step_falls, order_is_total, parts_make_whole, primitive_form_is_primitive,
    primitive_part_is_primitive, product_fits_where_measures_do, product_with_zero_fits,
    products_are_within_measures, shift_is_substitution, shifts_are_within_measures,
    sum_fits_where_measures_do, sums_are_within_measures, symbols_shift_and_derive,
};
pub use matrix::Matrix;
pub use poly::Poly;
pub use split::Split;
pub use term::Term;
pub use whole::{least_common_multiple, whole_product};
