// Ranges, and the supports in two of them.
ghost use Rattle.std.specs.Prelude.{◌≡◌, ◌≤◌};
ghost use Rattle.ct_support.specs.Supports.{size_of};

/// The numbers from one to another, both included.
#[derive(Clone, Copy, Debug, PartialEq, Eq)]
pub struct Range {
    pub low: u16,
    pub high: u16,
}

/// A support: its number in the list, its order and its degree.
#[derive(Clone, Copy, Debug, PartialEq, Eq)]
pub struct Support {
    pub index: u64,
    pub order: u16,
    pub degree: u16,
}

impl Range {
    /// How many numbers it has.
    pub(crate) fn len(&self) -> u64
        requires { self.now.low ≤ self.now.high }
        ensures { result ≡ size_of self.now }
    {
        u64::from(self.high - self.low) + 1
    }
}
