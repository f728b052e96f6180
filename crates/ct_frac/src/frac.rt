// Written fractions.
ghost use Rattle.std.specs.Prelude.{◌≡◌, ◌≢◌, ◌↔◌, IfOk, IsTrue, true};
ghost use Rattle.ct_algebra.specs.Field.{field};
ghost use Rattle.ct_algebra.specs.FieldLaws.{embedded};
ghost use Rattle.ct_algebra.specs.Polynomial.{polys};
ghost use Rattle.ct_checked.specs.Checked.{Answers};
ghost use Rattle.ct_frac.specs.Written.{IsWritten, whole_polynomial, multiplied_out, value, value_over, one_den};
ghost use Rattle.ct_frac.specs.Normal.{normal, quotient_of};
ghost use Rattle.ct_frac.specs.Arithmetic.{negative, DividesFactors, checked_common, checked_cleared, checked_fraction_sum, checked_fraction_difference, checked_fraction_product, checked_same_value};

use crate::clear::cleared;
use crate::common::common_denominator;
use crate::den::Den;
use crate::normal::brought_to_normal;
use crate::quotient::divided_by_polynomial;
use crate::sum::{difference, is_zero_difference, product, sum};
use ct_poly::{Fault, NoMemory, Poly};
use std::alloc::Global;
use std::marker::Model;

/// A fraction as it is written: a numerator over a denominator, with no whole number that divides both.
#[derive(Drop)]
pub struct Frac {
    pub numerator: Poly,
    pub den: Den,
}

impl Model for Frac {
    ghost use Rattle.ct_frac.specs.Written.{Written, written_code, IsWritten};

    ghost Value = { Written };

    ghost coded = { written_code };

    ghost view = { λ f. record { numerator = f.numerator; den = f.den } };

    ghost invariant = { λ f. IsWritten (record { numerator = f.numerator; den = f.den }) };
}

impl Frac {
    /// The fraction 0.
    pub fn zero(alloc: Global) -> Result<Frac, NoMemory>
        ensures written { IfOk result (λ r. r ≡ whole_polynomial polys.zero) }
        ensures value { IfOk result (λ r. value r ≡ field.zero) }
    {
        Frac::of_poly(alloc, Poly::zero(alloc))
    }

    /// A polynomial as a fraction.
    pub fn of_poly(alloc: Global, p: Poly) -> Result<Frac, NoMemory>
        ensures written { IfOk result (λ r. r ≡ whole_polynomial p) }
        ensures value { IfOk result (λ r. value r ≡ embedded p) }
    {
        Ok(Frac {
            numerator: p,
            den: Den::one(alloc),
        })
    }

    /// A polynomial over a denominator, where each factor is divided out as many times as possible.
    pub fn over(alloc: Global, n: Poly, den: &Den) -> Result<Frac, NoMemory>
        ensures written { IfOk result (λ r. r ≡ normal n den.now) }
        ensures value { IfOk result (λ r. value r ≡ value_over n (multiplied_out den.now)) }
    {
        den.in_written_form();
        brought_to_normal(alloc, n, den)
    }

    /// The quotient of two polynomials.
    pub fn quotient(alloc: Global, n: &Poly, d: &Poly) -> Result<Frac, NoMemory>
        requires { d.now ≢ polys.zero }
        ensures written { IfOk result (λ r. r ≡ quotient_of n.now d.now) }
        ensures value { IfOk result (λ r. value r ≡ value_over n.now d.now) }
    {
        divided_by_polynomial(alloc, n, d)
    }

    pub fn numerator(&self) -> &Poly
        ensures { result.now ≡ self.now.numerator }
    {
        &self.numerator
    }

    pub fn den(&self) -> &Den
        ensures { result.now ≡ self.now.den }
    {
        &self.den
    }

    /// Each fraction is in written form, which a call recalls as for a denominator.
    pub fn in_written_form(&self)
        ensures { IsWritten self.now }
    {
        let _ = &self.numerator;
    }

    pub fn neg(&self, alloc: Global) -> Result<Frac, NoMemory>
        ensures written { IfOk result (λ r. r ≡ negative self.now) }
        ensures value { IfOk result (λ r. value r ≡ field.neg (value self.now)) }
    {
        self.in_written_form();
        let numerator = self.numerator().neg(alloc)?;
        let den = self.den().copy(alloc)?;
        Ok(Frac { numerator, den })
    }

    /// Whether both are written in the same way.
    pub fn same(&self, other: &Frac) -> bool
        ensures { IsTrue result ↔ (self.now ≡ other.now) }
    {
        self.numerator().same(other.numerator()) && self.den().same(other.den())
    }

    pub fn add(&self, alloc: Global, other: &Frac) -> Result<Frac, Fault>
        ensures answers { Answers (checked_fraction_sum self.now other.now) result }
        ensures value { IfOk result (λ r. value r ≡ field.◌+◌ (value self.now) (value other.now)) }
    {
        self.in_written_form();
        other.in_written_form();
        sum(alloc, self, other)
    }

    pub fn sub(&self, alloc: Global, other: &Frac) -> Result<Frac, Fault>
        ensures answers { Answers (checked_fraction_difference self.now other.now) result }
        ensures value { IfOk result (λ r. value r ≡ field.◌+◌ (value self.now) (field.neg (value other.now))) }
    {
        self.in_written_form();
        other.in_written_form();
        difference(alloc, self, other)
    }

    pub fn mul(&self, alloc: Global, other: &Frac) -> Result<Frac, Fault>
        ensures answers { Answers (checked_fraction_product self.now other.now) result }
        ensures value { IfOk result (λ r. value r ≡ field.◌*◌ (value self.now) (value other.now)) }
    {
        self.in_written_form();
        other.in_written_form();
        product(alloc, self, other)
    }

    /// Whether both have one value, however they are written.
    pub fn same_value(&self, alloc: Global, other: &Frac) -> Result<bool, Fault>
        ensures answers { Answers (checked_same_value self.now other.now) result }
        ensures value { IfOk result (λ b. (b ≡ true) ↔ (value self.now ≡ value other.now)) }
    {
        self.in_written_form();
        other.in_written_form();
        is_zero_difference(alloc, self, other)
    }

    /// The least denominator that those of all fractions divide.
    pub fn common(alloc: Global, list: &[Frac]) -> Result<Den, Fault>
        ensures { Answers (checked_common one_den list.now) result }
    {
        common_denominator(alloc, list)
    }

    /// The numerator over another denominator, which the own one divides.
    pub fn clear(&self, alloc: Global, den: &Den) -> Result<Poly, Fault>
        requires { DividesFactors self.now.den den.now }
        ensures answers { Answers (checked_cleared self.now den.now) result }
        ensures value { IfOk result (λ n. value_over n (multiplied_out den.now) ≡ value self.now) }
    {
        self.in_written_form();
        den.in_written_form();
        cleared(alloc, self, den)
    }
}
