// The polynomials that are timed: powers of linear forms, so that almost every monomial below a degree is there.
ghost use Rattle.std.specs.Prelude.{◌≡◌};
ghost use Rattle.ct_checked.specs.Checked.{Answers};
ghost use Rattle.bench_division.specs.Powers.{checked_power, checked_form};

use ct_poly::{Fault, Poly};
use std::alloc::Global;

/// A power, multiplied from the left.
pub(crate) fn power(alloc: Global, base: &Poly, n: u64) -> Result<Poly, Fault>
    ensures { Answers (checked_power base.now n) result }
{
    let mut so_far = Poly::constant(alloc, 1)?;
    let mut left = n;
    while left > 0 {
        so_far = so_far.mul(alloc, base)?;
        left -= 1;
    }
    Ok(so_far)
}

/// a·x + b·y + c·z + 1 of the first three names.
#[tactic(auto, unfolding(crate::specs::Powers::checked_form))]
pub(crate) fn form(alloc: Global, a: u8, b: u8, c: u8) -> Result<Poly, Fault>
    ensures { Answers (checked_form a b c) result }
{
    let x = Poly::constant(alloc, i128::from(a))?.mul(alloc, &Poly::name(alloc, 0)?)?;
    let y = Poly::constant(alloc, i128::from(b))?.mul(alloc, &Poly::name(alloc, 1)?)?;
    let z = Poly::constant(alloc, i128::from(c))?.mul(alloc, &Poly::name(alloc, 2)?)?;
    let three = x.add(alloc, &y)?.add(alloc, &z)?;
    three.add(alloc, &Poly::constant(alloc, 1)?)
}
