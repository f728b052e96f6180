// Products of two numbers of 128 bits, in two halves.
ghost use Rattle.std.specs.Prelude.{◌≡◌, ◌*◌};
ghost use Rattle.std.specs.Ordering.{nat_cmp};

use std::cmp::Ordering;
use std::marker::Model;

const HALF: u32 = 64;

/// A number of 256 bits.
#[derive(Drop)]
pub struct Wide {
    high: u128,
    low: u128,
}

impl Model for Wide {
    ghost use Rattle.std.specs.Prelude.{ℕ, ◌+◌, ◌*◌, ◌^◌, ◌<◌};

    ghost Value = { ℕ };

    ghost view = { λ w. w.high * 2 ^ 128 + w.low };

    ghost invariant = { λ w. w.low < 2 ^ 128 };
}

impl Wide {
    /// The product of two numbers, from the four products of their halves.
    pub fn product(a: u128, b: u128) -> Wide
        ensures { result ≡ a * b }
    {
        let (a_high, a_low) = (a >> HALF, a % (1 << HALF));
        let (b_high, b_low) = (b >> HALF, b % (1 << HALF));
        let lowest = a_low * b_low;
        let first = a_high * b_low + (lowest >> HALF);
        let second = a_low * b_high + first % (1 << HALF);
        Wide {
            high: a_high * b_high + (first >> HALF) + (second >> HALF),
            low: (second % (1 << HALF)) * (1 << HALF) + lowest % (1 << HALF),
        }
    }

    pub fn cmp(&self, other: &Wide) -> Ordering
        ensures { result ≡ nat_cmp self.now other.now }
    {
        match self.high.cmp(&other.high) {
            Ordering::Equal => self.low.cmp(&other.low),
            unequal => unequal,
        }
    }
}
