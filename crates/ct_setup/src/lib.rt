//! From a problem that was read to the values of its expressions, and to the tested module of its generators.
//!
//! `prepare` works the `gen`, `den` and `target` lines in the order of the text, and then tests the generators; `prepare_plain` has the
//! values alone, and refuses a generator that is zero. `specs/Setup.antt` has the steps in their order; `specs/SetupMeans.antt` says what
//! an answer and a refusal mean.
#![tactic(auto)]

mod copies;
mod denominators;
mod expressions;
mod fault;
mod lines;
mod plain;
mod preparation;
mod staircases;
mod testing;
#[cfg(test)]
mod tests;

pub use expressions::values;
pub use fault::{SetupFault, SetupPhase};
pub use lines::has_lists;
pub use plain::{PlainReady, prepare_plain};
pub use preparation::{Ready, prepare};
pub use staircases::elements;
