// Rational numbers in lowest terms, seen as a ratio.
ghost use Rattle.std.specs.Prelude.{◌≡◌, ◌≢◌, ◌<◌, ◌≤◌, pos, neg_ℤ, ◌≤ℤ◌, unsigned_abs, IfOk, ◌↔◌};
ghost use Rattle.ct_int.specs.Rational.{ratio, IsCancelled, IsLowestTerms, opposite_of, sum_of_ratios, difference_of_ratios, product_of_ratios, quotient_of_ratios, order_of_ratios};
ghost use Rattle.ct_int.specs.Limits.{largest_whole, IsRational, SumPasses, LowestTermsPass, RefusesWhere};

use crate::divisors::gcd;
use crate::fault::IntFault;
use crate::wholes::{exact_quotient, natural_product, weighted_sum, whole_product};
use crate::wide::Wide;
use std::cmp::Ordering;
use std::marker::Model;

/// A rational number. Its numerator is between -(2^127 - 1) and 2^127 - 1, and its denominator between 1
/// and 2^127 - 1.
#[derive(Clone, Copy, Debug, PartialEq, Eq)]
pub struct Rat {
    num: i128,
    den: u128,
}

impl Model for Rat {
    ghost use Rattle.ct_int.specs.Rational.{Ratio};
    ghost use Rattle.ct_int.specs.Limits.{IsRational};

    ghost Value = { Ratio };

    ghost view = { λ r. record { num = r.num; den = r.den } };

    ghost invariant = { λ r. IsRational (record { num = r.num; den = r.den }) };

    ghost inverse = { λ v. record { num = v.num; den = v.den } };
}

impl Rat {
    /// One whole number over another.
    pub fn new(num: i128, den: i128) -> Result<Rat, IntFault>
        requires num_within { neg_ℤ (pos largest_whole) ≤ℤ num }
        requires den_within { neg_ℤ (pos largest_whole) ≤ℤ den }
        ensures value { IfOk result (λ r. IsLowestTerms (ratio num den) r) }
        ensures refuses { RefusesWhere IntFault.ZeroDivisor (den ≡ pos 0) result }
    {
        if den == 0 {
            return Err(IntFault::ZeroDivisor);
        }
        if den < 0 {
            Ok(reduced(-num, den.unsigned_abs()))
        } else {
            Ok(reduced(num, den.unsigned_abs()))
        }
    }

    /// The numerator in lowest terms, which has the sign of the number.
    pub fn num(&self) -> i128
        ensures value { result ≡ self.now.num }
        ensures lowest { IsRational self.now }
    {
        self.num
    }

    /// The denominator in lowest terms, which is positive.
    pub fn den(&self) -> i128
        ensures value { result ≡ pos self.now.den }
        ensures lowest { IsRational self.now }
    {
        self.den as i128
    }

    /// The sum. It overflows by the size of the numerators that are added, also where they cancel.
    pub fn add(&self, other: &Rat) -> Result<Rat, IntFault>
        ensures value { IfOk result (λ r. IsLowestTerms (sum_of_ratios self.now other.now) r) }
        ensures overflows { RefusesWhere IntFault.Overflow (SumPasses self.now other.now) result }
    {
        let divisor = gcd(self.den, other.den);
        let left = self.den / divisor;
        let right = other.den / divisor;
        let num = weighted_sum(self.num, right, other.num, left)?;
        let den = natural_product(left, other.den)?;
        Ok(reduced(num, den))
    }

    /// The difference, which overflows where the sum does.
    pub fn sub(&self, other: &Rat) -> Result<Rat, IntFault>
        ensures value { IfOk result (λ r. IsLowestTerms (difference_of_ratios self.now other.now) r) }
        ensures overflows { RefusesWhere IntFault.Overflow (SumPasses self.now other.now) result }
    {
        self.add(&other.opposite())
    }

    /// The product.
    pub fn mul(&self, other: &Rat) -> Result<Rat, IntFault>
        ensures value { IfOk result (λ r. IsLowestTerms (product_of_ratios self.now other.now) r) }
        ensures overflows { RefusesWhere IntFault.Overflow (LowestTermsPass (product_of_ratios self.now other.now)) result }
    {
        // Cancelled crosswise, two numbers in lowest terms have their product in lowest terms.
        let (left, below_right) = cancelled(self.num, other.den);
        let (right, below_left) = cancelled(other.num, self.den);
        let num = whole_product(left, right)?;
        let den = natural_product(below_left, below_right)?;
        Ok(Rat { num, den })
    }

    /// The quotient. A divisor of 0 is refused first.
    pub fn div(&self, other: &Rat) -> Result<Rat, IntFault>
        ensures value { IfOk result (λ r. IsLowestTerms (quotient_of_ratios self.now other.now) r) }
        ensures divides { (result ≡ Err IntFault.ZeroDivisor) ↔ (other.now.num ≡ pos 0) }
        ensures overflows { other.now.num ≢ pos 0 → RefusesWhere IntFault.Overflow (LowestTermsPass (quotient_of_ratios self.now other.now)) result }
    {
        // Read for its proof: the denominator of `self` is positive.
        let _ = &self.den;
        if other.num == 0 {
            Err(IntFault::ZeroDivisor)
        } else {
            self.mul(&other.reciprocal())
        }
    }

    /// The order by value.
    pub fn cmp(&self, other: &Rat) -> Ordering
        ensures { result ≡ order_of_ratios self.now other.now }
    {
        let left = Wide::product(self.num.unsigned_abs(), other.den);
        let right = Wide::product(other.num.unsigned_abs(), self.den);
        if self.num < 0 {
            if other.num < 0 {
                right.cmp(&left)
            } else {
                Ordering::Less
            }
        } else if other.num < 0 {
            Ordering::Greater
        } else {
            left.cmp(&right)
        }
    }

    fn opposite(&self) -> Rat
        ensures { result ≡ opposite_of self.now }
    {
        Rat {
            num: -self.num,
            den: self.den,
        }
    }

    fn reciprocal(&self) -> Rat
        requires { self.now.num ≢ pos 0 }
        ensures { result ≡ ratio (pos self.now.den) self.now.num }
    {
        let den = self.den as i128;
        Rat {
            num: if self.num < 0 { -den } else { den },
            den: self.num.unsigned_abs(),
        }
    }
}

/// A ratio brought to lowest terms.
fn reduced(num: i128, den: u128) -> Rat
    requires positive { 0 < den }
    requires num_within { unsigned_abs num ≤ largest_whole }
    requires den_within { den ≤ largest_whole }
    ensures { IsLowestTerms (ratio num (pos den)) result }
{
    let (num, den) = cancelled(num, den);
    Rat { num, den }
}

/// Two numbers, divided by their greatest common divisor.
fn cancelled(num: i128, den: u128) -> (i128, u128)
    requires positive { 0 < den }
    requires within { unsigned_abs num ≤ largest_whole }
    ensures { IsCancelled (ratio num (pos den)) (ratio result.0 (pos result.1)) }
{
    let divisor = gcd(num.unsigned_abs(), den);
    (exact_quotient(num, divisor), den / divisor)
}
