//! Elimination of matrices of polynomials with multipliers, without fractions and with exact overflow.
//!
//! `eliminate` works on [A | I], I the unit matrix, and answers an `Echelon`: the left part is A with its pivots alone in their
//! columns, and the right part times A is the left part. Read `specs/EchelonForm.antt` first, which says what an `Echelon` keeps of A;
//! which rows, pivots and free column come out, and which overflow comes first, is `specs/Elimination.antt`, the steps in their order.
//! `null_vector` gives the slimmed null vector of a free column, by the steps of `specs/NullVector.antt`; `refuting_rows` chooses the
//! multipliers that refute columns, and `multiply_out` multiplies rows out. What elimination keeps and shows is proved in
//! ct_telescoping.
#![tactic(auto)]

mod columns;
mod echelon;
mod elimination;
mod entries;
mod kernel;
mod laws;
mod multiplication;
mod pivot;
mod refutation;
mod rows;
mod slimming;
#[cfg(test)]
mod tests;
mod working;

pub use ct_poly::Matrix;
pub use echelon::Echelon;
pub use elimination::eliminate;
pub use kernel::null_vector;
pub use laws::slimming_divides_out;
pub use multiplication::multiply_out;
pub use pivot::Pivot;
pub use refutation::refuting_rows;
