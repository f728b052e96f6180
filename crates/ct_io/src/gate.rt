// Who hears of the work.

/// It hears of the work from any worker, in any thread. It answers nothing, so it cannot change an answer.
pub trait Gate: Sync {
    /// Called before each attempt, with its index.
    fn enter(&self, index: u64);

    /// Called each time a column was computed whose key has a place in the table, with that place.
    fn made(&self, key: u64);
}

/// The gate that does nothing.
#[derive(Clone, Copy, Debug)]
pub struct NoGate;

impl Gate for NoGate {
    fn enter(&self, _: u64) {}

    fn made(&self, _: u64) {}
}
