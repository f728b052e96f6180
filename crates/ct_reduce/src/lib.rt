//! Left reduction of operators by generators, with exact overflow.
//!
//! `left_reduce` gives a nonzero scale, a cofactor for each generator and a rest: the scale times the
//! operator is the sum of the products of cofactors and generators, plus the rest, and no leading monomial
//! of a generator divides a monomial of the rest. `Membership` and `Leading` of `ct_algebra` say so.
//!
//! Which scale, cofactors and rest these are, and which overflow comes first, is `specs/Reduction.antt`: the
//! steps in their order, as a checked loop. `laws.rt` says what its search finds.
#![tactic(auto)]

mod laws;
mod reduced;
mod reduction;
mod search;
mod step;
#[cfg(test)]
mod tests;

pub use laws::{
    each_step_falls, each_step_is_exact, first_reducer_is_first, greatest_reducible_is_greatest,
    reduction_goes_by_turns, rest_zero_is_member,
};
pub use reduced::Reduced;
pub use reduction::left_reduce;
pub use search::{Reducer, first_reducer};
