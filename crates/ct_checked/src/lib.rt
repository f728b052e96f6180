//! The frame of checked arithmetic: what a call that can overflow answers, and the limits.
//!
//! `Kind` and `Fault` say why such a call has no value. `specs/Checked.antt` has the words of its contract: a checked computation is a
//! value or what refused it first, and a call `Answers` it, unless memory runs out. Read that page first. `Loop` and
//! `Traversal` have the forms of longer computations: while something is found, and element by element.
#![tactic(auto)]

mod fault;
mod limits;

pub use fault::{Fault, Kind};
pub use limits::{LARGEST_DEGREE, LARGEST_NORM, MOST_TERMS};
