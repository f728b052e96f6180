// Common denominators.
ghost use Rattle.std.specs.Prelude.{◌≡◌, IfOk};
ghost use Rattle.ct_checked.specs.Checked.{Answers};
ghost use Rattle.ct_frac.specs.Written.{one_den};
ghost use Rattle.ct_frac.specs.Arithmetic.{joined_greatest, all_greatest, checked_wider, checked_common};

use crate::den::Den;
use crate::factor::Factor;
use crate::frac::Frac;
use crate::insertion::{Place, found, put_before, with_exp_at};
use ct_poly::{Fault, NoMemory, least_common_multiple};
use std::alloc::Global;

// The least denominator that those of all fractions divide.
pub fn common_denominator(alloc: Global, list: &[Frac]) -> Result<Den, Fault>
    ensures { Answers (checked_common one_den list.now) result }
{
    let mut den = Den::one(alloc);
    let mut rest = list;
    'widening: while let Some((f, more)) = rest.split_first() {
        den = wider(alloc, den, f.den())?;
        rest = more;
    }
    Ok(den)
}

// The least denominator that both divide.
#[tactic(auto, unfolding(crate::specs::Arithmetic::checked_wider))]
pub fn wider(alloc: Global, d: Den, e: &Den) -> Result<Den, Fault>
    ensures { Answers (checked_wider d e.now) result }
{
    d.in_written_form();
    e.in_written_form();
    let whole = least_common_multiple(d.whole(), e.whole())?;
    let factors = greatest_of_all(alloc, d.factors, e.factors())?;
    Ok(Den { whole, factors })
}

// Each factor of both lists, with the greater exponent.
fn greatest_of_all(
    alloc: Global,
    mine: Vec<Factor>,
    its: &[Factor],
) -> Result<Vec<Factor>, NoMemory>
    ensures { IfOk result (λ v. v.items ≡ all_greatest mine.items its.now) }
{
    let mut factors = mine;
    let mut rest = its;
    'joining: while let Some((f, more)) = rest.split_first() {
        factors = with_greatest(alloc, factors, f)?;
        rest = more;
    }
    Ok(factors)
}

// A factor joins, and of two exponents the greater stays.
fn with_greatest(alloc: Global, factors: Vec<Factor>, f: &Factor) -> Result<Vec<Factor>, NoMemory>
    ensures { IfOk result (λ v. v.items ≡ joined_greatest f.now factors.items) }
{
    match found(factors.as_slice(), &f.poly) {
        Place::At(place, exp) => Ok(with_exp_at(factors, place, exp.max(f.exp))),
        Place::Before(place) => put_before(alloc, factors, place, f),
    }
}
