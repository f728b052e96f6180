//! Whole texts and their answers, as tests: problems and reports with their values and first faults, and runs
//! with their output and status.
//!
//! They stand above all that they call, in a crate of their own: a crate with tests is proved once more with
//! them, and the crates that read and that run are the dearest.
#![tactic(auto)]

#[cfg(test)]
mod tests;
