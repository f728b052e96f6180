// Sums, differences and products of written fractions.
ghost use Rattle.std.specs.Prelude.{◌≡◌, ◌+◌, [], ◌∷◌};
ghost use Rattle.ct_algebra.specs.Polynomial.{polys};
ghost use Rattle.ct_checked.specs.Checked.{Answers, AnswersBy};
ghost use Rattle.ct_frac.specs.Arithmetic.{checked_fraction_sum, checked_fraction_difference, checked_exponent, checked_joined, checked_joined_all, checked_fraction_product, checked_full_product, checked_same_value, checked_common};
ghost use Rattle.ct_frac.specs.Written.{one_den};

use crate::clear::cleared;
use crate::common::wider;
use crate::den::Den;
use crate::factor::Factor;
use crate::frac::Frac;
use crate::insertion::{Place, found, put_before, with_exp_at};
use crate::normal::brought_to_normal;
use crate::same::copy_of_factors;
use ct_mono::LARGEST_DEGREE;
use ct_poly::{Fault, Kind, whole_product};
use std::alloc::Global;

#[tactic(auto, unfolding(crate::specs::Arithmetic::checked_fraction_sum))]
pub fn sum(alloc: Global, x: &Frac, y: &Frac) -> Result<Frac, Fault>
    ensures { Answers (checked_fraction_sum x.now y.now) result }
{
    let den = common_of_both(alloc, x, y)?;
    let mine = cleared(alloc, x, &den)?;
    let its = cleared(alloc, y, &den)?;
    let n = mine.add(alloc, &its)?;
    let r = brought_to_normal(alloc, n, &den)?;
    Ok(r)
}

#[tactic(auto, unfolding(crate::specs::Arithmetic::checked_fraction_difference))]
pub fn difference(alloc: Global, x: &Frac, y: &Frac) -> Result<Frac, Fault>
    ensures { Answers (checked_fraction_difference x.now y.now) result }
{
    let den = common_of_both(alloc, x, y)?;
    let mine = cleared(alloc, x, &den)?;
    let its = cleared(alloc, y, &den)?;
    let n = mine.sub(alloc, &its)?;
    let r = brought_to_normal(alloc, n, &den)?;
    Ok(r)
}

fn common_of_both(alloc: Global, x: &Frac, y: &Frac) -> Result<Den, Fault>
    ensures { Answers (checked_common one_den (x.now ∷ y.now ∷ [])) result }
{
    let first = wider(alloc, Den::one(alloc), x.den())?;
    wider(alloc, first, y.den())
}

// Whether the difference is zero.
#[tactic(auto, unfolding(crate::specs::Arithmetic::checked_same_value))]
pub fn is_zero_difference(alloc: Global, x: &Frac, y: &Frac) -> Result<bool, Fault>
    ensures { Answers (checked_same_value x.now y.now) result }
{
    let r = difference(alloc, x, y)?;
    Ok(has_zero_numerator(&r))
}

// The product, which is zero where one of them is.
pub fn product(alloc: Global, x: &Frac, y: &Frac) -> Result<Frac, Fault>
    ensures { Answers (checked_fraction_product x.now y.now) result }
{
    if has_zero_numerator(x) {
        let zero = Frac::zero(alloc)?;
        return Ok(zero);
    }
    if has_zero_numerator(y) {
        let zero = Frac::zero(alloc)?;
        return Ok(zero);
    }
    full_product(alloc, x, y)
}

// The product of two fractions that are not zero.
fn has_zero_numerator(f: &Frac) -> bool
    ensures { polys.is_zero f.now.numerator ≡ result }
{
    f.numerator().is_zero()
}

#[tactic(auto, unfolding(crate::specs::Arithmetic::checked_full_product))]
fn full_product(alloc: Global, x: &Frac, y: &Frac) -> Result<Frac, Fault>
    ensures { Answers (checked_full_product x.now y.now) result }
{
    x.in_written_form();
    y.in_written_form();
    let n = x.numerator().mul(alloc, y.numerator())?;
    let whole = whole_product(x.den().whole(), y.den().whole())?;
    let mine = copy_of_factors(alloc, x.den().factors())?;
    let factors = all_joined(alloc, mine, y.den().factors())?;
    let den = Den { whole, factors };
    let r = brought_to_normal(alloc, n, &den)?;
    Ok(r)
}

// Each factor of both lists, exponents added.
fn all_joined(alloc: Global, mine: Vec<Factor>, its: &[Factor]) -> Result<Vec<Factor>, Fault>
    ensures { AnswersBy (λ v. v.items) (checked_joined_all mine.items its.now) result }
{
    let mut factors = mine;
    let mut rest = its;
    'joining: while let Some((f, more)) = rest.split_first() {
        factors = joined(alloc, factors, f)?;
        rest = more;
    }
    Ok(factors)
}

// A factor joins, and two exponents are added.
fn joined(alloc: Global, factors: Vec<Factor>, f: &Factor) -> Result<Vec<Factor>, Fault>
    ensures { AnswersBy (λ v. v.items) (checked_joined f.now factors.items) result }
{
    match found(factors.as_slice(), &f.poly) {
        Place::At(place, exp) => {
            let exp = exponent_sum(exp, f.exp)?;
            Ok(with_exp_at(factors, place, exp))
        }
        Place::Before(place) => {
            let longer = put_before(alloc, factors, place, f)?;
            Ok(longer)
        }
    }
}

/// A sum of exponents, unless it passes the limit.
pub fn exponent_sum(a: u32, b: u32) -> Result<u32, Fault>
    ensures { Answers (checked_exponent (a + b)) result }
{
    let sum = a.saturating_add(b);
    if sum > u32::from(LARGEST_DEGREE) {
        Err(Fault::Overflow(Kind::Degree))
    } else {
        Ok(sum)
    }
}
