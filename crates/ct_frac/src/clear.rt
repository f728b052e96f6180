// Numerators cleared to a denominator.
ghost use Rattle.std.specs.Prelude.{◌≡◌};
ghost use Rattle.ct_checked.specs.Checked.{Answers};
ghost use Rattle.ct_frac.specs.Arithmetic.{checked_often, checked_spread, checked_cleared};

use crate::den::Den;
use crate::factor::Factor;
use crate::frac::Frac;
use crate::insertion::exponent_of;
use ct_poly::{Fault, Poly};
use std::alloc::Global;

// The numerator over a denominator that the fraction's own one divides.
#[tactic(auto, unfolding(crate::specs::Arithmetic::checked_cleared))]
pub fn cleared(alloc: Global, f: &Frac, den: &Den) -> Result<Poly, Fault>
    ensures { Answers (checked_cleared f.now den.now) result }
{
    f.in_written_form();
    den.in_written_form();
    let mine = f.den();
    mine.in_written_form();
    let quotient = den.whole() / mine.whole();
    let number = Poly::constant(alloc, quotient as i128)?;
    let n = f.numerator().mul(alloc, &number)?;
    spread(alloc, n, mine.factors(), den.factors())
}

// A polynomial times each factor of a list in order, as often as its exponent is above that in another.
fn spread(alloc: Global, n: Poly, from: &[Factor], to: &[Factor]) -> Result<Poly, Fault>
    ensures { Answers (checked_spread n from.now to.now) result }
{
    let mut product = n;
    let mut rest = to;
    'spreading: while let Some((g, more)) = rest.split_first() {
        let exponent = exponent_of(from, &g.poly);
        product = times_often(alloc, product, &g.poly, g.exp.saturating_sub(exponent))?;
        rest = more;
    }
    Ok(product)
}

// A polynomial times a power of another, one factor at a time.
fn times_often(alloc: Global, n: Poly, by: &Poly, times: u32) -> Result<Poly, Fault>
    ensures { Answers (checked_often by.now times n) result }
{
    let mut product = n;
    let mut left = times;
    'multiplying: while left > 0 {
        product = product.mul(alloc, by)?;
        left -= 1;
    }
    Ok(product)
}
