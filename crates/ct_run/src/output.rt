// The output of a run.

use crate::status::Outcome;

/// The outcome of a run, and its whole text.
#[derive(Debug, Drop)]
pub struct Output {
    pub outcome: Outcome,
    pub text: Vec<u8>,
}
