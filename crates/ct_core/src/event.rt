// The events, and what they do to the two words.
ghost use Rattle.std.specs.Prelude.{◌≡◌, ℕ, ◌+◌, ◌-◌, ◌<◌, ◌^◌};
ghost use Rattle.ct_core.specs.Steps.{worker_of};

/// What a worker does; its number comes first, and then the index that it refuses or hits.
#[derive(Clone, Copy, Debug, PartialEq, Eq)]
pub enum Event {
    Claim(u32),
    Look(u32),
    Refuse(u32, u64),
    Hit(u32, u64),
    Stop(u32),
}

impl Event {
    pub(crate) fn worker(&self) -> u32
        ensures { result ≡ worker_of self.now }
    {
        match self {
            Event::Claim(worker) => *worker,
            Event::Look(worker) => *worker,
            Event::Refuse(worker, _) => *worker,
            Event::Hit(worker, _) => *worker,
            Event::Stop(worker) => *worker,
        }
    }

    /// How many indices are claimed after this event.
    pub(crate) fn next_after(&self, next: u64) -> u64
        requires { next < 2 ^ 64 - 1 }
        ensures { result ≡ Rattle.ct_core.specs.Steps.next_after next self.now }
    {
        match self {
            Event::Claim(_) => next + 1,
            _ => next,
        }
    }

    /// The least hit after this event.
    pub(crate) fn least_after(&self, least: Option<u64>) -> Option<u64>
        ensures { result ≡ Rattle.ct_core.specs.Steps.least_after least self.now }
    {
        match (self, least) {
            (Event::Hit(_, index), None) => Some(*index),
            (Event::Hit(_, index), Some(least)) => Some(least.min(*index)),
            _ => least,
        }
    }
}
