//! The staircase of a list of operators, and the test whether the list is a Gröbner basis with a finite module.
//!
//! `staircase` lists the monomials that no leading monomial divides, rising, or says why it doesn't; `build` makes the module of the
//! list over them, and tests it. `specs/Staircase.antt` and `specs/Build.antt` have the steps in their order;
//! `specs/StaircaseMeans.antt` and `specs/BuildMeans.antt` say what an answer and a refusal mean.
#![tactic(auto)]

mod closed;
mod construction;
mod fault;
mod forms;
mod ideal;
mod killed;
mod laws;
mod leading;
mod names;
mod remaining;
mod rows;
mod search;
#[cfg(test)]
mod tests;

pub use construction::build;
pub use fault::{BuildFault, StairFault};
pub use laws::{normal_forms_go_by_steps, refusals_are_right};
pub use search::staircase;
