// Denominators: a whole number and factors that rise.
ghost use Rattle.std.specs.Prelude.{◌≡◌};
ghost use Rattle.ct_frac.specs.Written.{IsDenominator, one_den};

use crate::factor::Factor;
use std::alloc::Global;
use std::marker::Model;

/// A denominator: a whole number from 1 on, and factors with their exponents.
#[derive(Drop)]
pub struct Den {
    pub whole: u128,
    pub factors: Vec<Factor>,
}

impl Model for Den {
    ghost use Rattle.ct_frac.specs.Written.{Denominator, denominator_code, IsDenominator};

    ghost Value = { Denominator };

    ghost coded = { denominator_code };

    ghost view = { λ d. record { whole = d.whole; factors = d.factors.items } };

    ghost invariant = { λ d. IsDenominator (record { whole = d.whole; factors = d.factors.items }) };
}

impl Den {
    /// The denominator 1.
    pub fn one(alloc: Global) -> Den
        ensures { result ≡ one_den }
    {
        Den {
            whole: 1,
            factors: Vec::new(alloc),
        }
    }

    pub fn whole(&self) -> u128
        ensures { result ≡ self.now.whole }
    {
        self.whole
    }

    /// The factors, rising.
    pub fn factors(&self) -> &[Factor]
        ensures { result.now ≡ self.now.factors }
    {
        self.factors.as_slice()
    }

    /// Each denominator is in written form. A call tests nothing: it recalls this to the proof of its caller.
    pub fn in_written_form(&self)
        ensures { IsDenominator self.now }
    {
        // Where a field is read, the proof knows the invariant of the type.
        let _ = &self.whole;
    }
}
