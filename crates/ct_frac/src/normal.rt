// Fractions brought to their written form.
ghost use Rattle.std.specs.Prelude.{◌≡◌, ◌≢◌, ◌<◌, ◌≤◌, ◌++◌, IfOk, []};
ghost use Rattle.ct_algebra.specs.Polynomial.{polys};
ghost use Rattle.ct_checked.specs.Limits.{largest_norm};
ghost use Rattle.ct_frac.specs.Written.{AreFactors, IsWritten};
ghost use Rattle.ct_frac.specs.Normal.{divided_out, with_exponent, lowered, in_lowest_terms, normal};
ghost use Rattle.ct_frac.specs.Code.{lowered_of};

use crate::den::Den;
use crate::factor::Factor;
use crate::frac::Frac;
use crate::left::Left;
use crate::whole::divided_by_number;
use ct_int::gcd;
use ct_poly::{NoMemory, Poly};
use std::alloc::Global;

// A numerator and the factors that are left below it.
#[derive(Drop)]
pub struct Rest {
    pub numerator: Poly,
    pub factors: Vec<Factor>,
}

// A polynomial over a denominator.
pub fn brought_to_normal(alloc: Global, n: Poly, den: &Den) -> Result<Frac, NoMemory>
    ensures { IfOk result (λ r. r ≡ normal n den.now) }
{
    den.in_written_form();
    if n.is_zero() {
        return Frac::zero(alloc);
    }
    let rest = divide_all_out(alloc, n, den.factors())?;
    let r = cancelled(alloc, rest, den.whole())?;
    Ok(r)
}

// Numerator and whole number divided by their greatest common divisor.
fn cancelled(alloc: Global, rest: Rest, whole: u128) -> Result<Frac, NoMemory>
    requires positive { 0 < whole }
    requires within { whole ≤ largest_norm }
    requires written { IsWritten (in_lowest_terms (lowered_of rest) whole) }
    ensures { IfOk result (λ r. r ≡ in_lowest_terms (lowered_of rest) whole) }
{
    let divisor = gcd(rest.numerator.content(), whole);
    let numerator = divided_by_number(alloc, rest.numerator, divisor)?;
    let den = Den {
        whole: whole / divisor,
        factors: rest.factors,
    };
    Ok(Frac { numerator, den })
}

// Each factor in order is divided out.
fn divide_all_out(alloc: Global, n: Poly, factors: &[Factor]) -> Result<Rest, NoMemory>
    requires { AreFactors factors.now }
    ensures { IfOk result (λ r. lowered_of r ≡ lowered n [] factors.now) }
{
    let mut numerator = n;
    let mut kept = Vec::new(alloc);
    let mut rest = factors;
    'lowering: while let Some((f, more)) = rest.split_first() {
        let left = divide_out(alloc, &f.poly, numerator, f.exp)?;
        numerator = left.numerator;
        keep(alloc, &mut kept, &f.poly, left.exponent)?;
        rest = more;
    }
    Ok(Rest {
        numerator,
        factors: kept,
    })
}

// While the exponent is above 0 and the polynomial divides the numerator.
fn divide_out(alloc: Global, by: &Poly, n: Poly, exponent: u32) -> Result<Left, NoMemory>
    requires { by.now ≢ polys.zero }
    ensures { IfOk result (λ r. r ≡ divided_out by.now n exponent) }
{
    let mut numerator = n;
    let mut left = exponent;
    'dividing: loop {
        if left == 0 {
            return Ok(Left {
                numerator,
                exponent: 0,
            });
        }
        let Some(quotient) = numerator.quotient(alloc, by)? else {
            return Ok(Left {
                numerator,
                exponent: left,
            });
        };
        numerator = quotient;
        left -= 1;
    }
}

// Puts a factor at the end, unless its exponent is 0.
fn keep(alloc: Global, kept: &mut Vec<Factor>, poly: &Poly, exp: u32) -> Result<(), NoMemory>
    ensures { IfOk result (λ _. kept.new.items ≡ kept.old.items ++ with_exponent poly.now exp []) }
{
    if exp > 0 {
        let poly = poly.copy(alloc)?;
        kept.push(Factor { poly, exp })?;
    }
    Ok(())
}
