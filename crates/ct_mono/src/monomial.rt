// Monomials: six exponents, seen as a list.
ghost use Rattle.std.specs.Prelude.{◌≡◌, ◌+◌, ◌<◌, ◌≤◌, MatchOption};
ghost use Rattle.ct_algebra.specs.Monomial.{exp, unit, total, ◌·◌, mono_cmp};
ghost use Rattle.ct_algebra.specs.Names.{name_with, symbol};
ghost use Rattle.ct_mono.specs.Division.{Divides, over};
ghost use Rattle.ct_checked.specs.Limits.{largest_degree};
ghost use Rattle.ct_mono.specs.Exponents.{with_exponent};

use ct_checked::LARGEST_DEGREE;
use std::cmp::Ordering;
use std::marker::Model;

/// A product of powers of the six names, or of their symbols.
#[derive(Clone, Copy)]
pub struct Monomial {
    exps: [u16; 6],
}

impl Model for Monomial {
    ghost use Rattle.std.specs.Prelude.{◌≡◌, ◌≤◌, sum, length};
    ghost use Rattle.ct_algebra.specs.Monomial.{Mono, mono_code, mono_of, exps-mono_of};
    ghost use Rattle.ct_checked.specs.Limits.{largest_degree};

    ghost Value = { Mono };

    ghost coded = { mono_code };

    ghost view = { λ m. mono_of m.exps };

    ghost invariant = { λ m. (length m.exps ≡ 6) × (sum m.exps ≤ largest_degree) };

    ghost inverse = { λ v. record { exps = v.exps } };

    ghost inverse_ok = { λ a h i. record { exps = exps-mono_of a.exps h.0 i } };
}

impl Monomial {
    /// The monomial 1.
    pub fn one() -> Monomial
        ensures { result ≡ unit }
    {
        Monomial { exps: [0; 6] }
    }

    /// A name, or its symbol.
    pub fn name(i: u8) -> Monomial
        requires { i < 6 }
        ensures { result ≡ symbol (name_with i) }
    {
        Monomial::one().with_exp(i, 1)
    }

    /// The exponent of a name.
    pub fn exp(&self, i: u8) -> u16
        requires { i < 6 }
        ensures { result ≡ exp self.now i }
    {
        self.exps[i as usize]
    }

    /// The sum of the exponents.
    pub fn total(&self) -> u16
        ensures value { result ≡ total self.now }
        ensures within { result ≤ largest_degree }
    {
        self.exps[0] + self.exps[1] + self.exps[2] + self.exps[3] + self.exps[4] + self.exps[5]
    }

    /// The monomial with another exponent of a name.
    pub fn with_exp(&self, i: u8, e: u16) -> Monomial
        requires known { i < 6 }
        requires within { total self.now + e ≤ largest_degree + exp self.now i }
        ensures { result ≡ with_exponent i e self.now }
    {
        let mut exps = self.exps;
        exps[i as usize] = e;
        Monomial { exps }
    }

    /// The product of two monomials whose totals are within the limit together.
    pub fn product(&self, other: &Monomial) -> Monomial
        requires { total self.now + total other.now ≤ largest_degree }
        ensures { result ≡ self.now · other.now }
    {
        let mine = self.exps;
        let its = other.exps;
        let mut exps = [0; 6];
        for i in 0..6 {
            exps[i] = mine[i] + its[i];
        }
        Monomial { exps }
    }

    /// The product, or `None` where its total passes the limit.
    pub fn times(&self, other: &Monomial) -> Option<Monomial>
        ensures { MatchOption result (largest_degree < total self.now + total other.now) (λ m. m ≡ self.now · other.now) }
    {
        if self.total() + other.total() > LARGEST_DEGREE {
            None
        } else {
            Some(self.product(other))
        }
    }

    /// What times a monomial is this one, or `None` where it does not divide.
    pub fn over(&self, by: &Monomial) -> Option<Monomial>
        ensures value { result ≡ over self.now by.now }
        ensures divides { MatchOption result (¬ Divides by.now self.now) (λ m. m · by.now ≡ self.now) }
    {
        let mine = self.exps;
        let its = by.exps;
        let mut exps = [0; 6];
        for i in 0..6 {
            if mine[i] < its[i] {
                return None;
            }
            exps[i] = mine[i] - its[i];
        }
        Some(Monomial { exps })
    }

    /// The order of monomials: by the total, then by the first exponent that differs.
    pub fn cmp(&self, other: &Monomial) -> Ordering
        ensures { result ≡ mono_cmp self.now other.now }
    {
        let mine = self.exps.as_slice();
        let its = other.exps.as_slice();
        match self.total().cmp(&other.total()) {
            Ordering::Equal => mine.cmp(its),
            unequal => unequal,
        }
    }
}

impl PartialEq for Monomial {
    ghost use Rattle.ct_mono.specs.Equal.{mono_eq, mono_eq_equiv};
    ghost use Rattle.std.specs.Cmp.{partial_equiv_from_equiv};

    ghost eq = { mono_eq };

    ghost laws = { partial_equiv_from_equiv mono_eq_equiv };

    fn eq(&self, other: &Monomial) -> bool {
        self.exps == other.exps
    }
}

impl Eq for Monomial {
    ghost use Rattle.ct_mono.specs.Equal.{mono_eq_equiv};

    ghost laws = { mono_eq_equiv };
}
