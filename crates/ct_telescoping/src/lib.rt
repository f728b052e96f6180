//! Vectors over a finite staircase, elimination over polynomials, and what refuting rows and null vectors
//! show of telescopers.
//!
//! There is no code and no limit: each function states a law, and its body is empty. The crates above cite
//! the words of `specs/`. Begin with `Tested` (which lists of generators have a finite module), `NoTelescoper`
//! (that a support has none) and `Task` (what is said of a task and its supports). `Echelon` is the invariant
//! of elimination, and what its answer satisfies. What refuting rows and null vectors show is `SupportLaws`.
//!
//! Which pivots, which factors and which supports are tried, how fractions are written and when arithmetic
//! overflows is left to the crates with code.
#![tactic(auto)]

mod laws;

pub use laws::{
    assembly_certifies, columns_are_of_support, constants_are_tested, elimination_decides_support,
    elimination_goes_by_columns, finished_elimination_decides, image_decides_membership,
    refuted_is_empty, rows_are_determined, rows_exist, staircase_grows, staircase_is_module,
    system_is_determined, system_is_free_of_summed, system_is_made, tested_gives_module,
    tests_suffice,
};
