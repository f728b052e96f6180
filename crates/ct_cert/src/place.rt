// The places of the tests, and why a report doesn't pass.

use ct_mono::Kind;

/// Which test failed or overflowed. Names are given by their numbers.
#[derive(Clone, Copy)]
pub enum Place {
    Found,
    Telescoper,
    Scale,
    Denominator(u8),
    Part(u8),
    Identity,
}

/// Why a report doesn't pass: the first place that fails or overflows, or out of memory.
#[derive(Clone, Copy)]
pub enum Stop {
    No(Place),
    Overflow(Place, Kind),
    NoMemory,
}

/// A support: its number in the list, its order and its degree.
#[derive(Clone, Copy, Debug, PartialEq, Eq)]
pub struct Support {
    pub index: u16,
    pub order: u16,
    pub degree: u16,
}
