// Polynomials whose terms are drawn by a linear generator, so that other programs can draw the same ones.
ghost use Rattle.std.specs.Prelude.{◌<◌};

use ct_poly::{Fault, LARGEST_DEGREE, Monomial, Poly};
use std::alloc::Global;

/// What the terms are drawn from: coefficients up to `coefs`, exponents of the first `names` names below `bound`.
#[derive(Clone, Copy)]
pub(crate) struct Shape {
    pub(crate) terms: u64,
    pub(crate) coefs: u64,
    pub(crate) names: u64,
    pub(crate) bound: u64,
}

/// The sum of the terms that are drawn from a seed on.
pub(crate) fn drawn(alloc: Global, shape: Shape, seed: u64) -> Result<Poly, Fault> {
    let mut state = seed;
    let mut sum = Poly::zero(alloc);
    for _ in 0..shape.terms {
        let mut mono = Monomial::one();
        for i in 0..3u8 {
            state = next(state);
            if u64::from(i) < shape.names {
                mono = raised(&mono, i, below(state, shape.bound));
            }
        }
        state = next(state);
        let coef = below(state, shape.coefs).saturating_add(1);
        let number = Poly::constant(alloc, i128::from(coef))?;
        let term = number.mul(alloc, &Poly::monomial(alloc, &mono)?)?;
        sum = sum.add(alloc, &term)?;
    }
    Ok(sum)
}

fn next(state: u64) -> u64 {
    state
        .wrapping_mul(6364136223846793005)
        .wrapping_add(1442695040888963407)
}

fn below(state: u64, bound: u64) -> u64 {
    if bound == 0 { 0 } else { (state >> 11) % bound }
}

/// The monomial with this exponent of a name, where its total stays within the limit.
fn raised(mono: &Monomial, i: u8, exponent: u64) -> Monomial
    requires { i < 6 }
{
    let e = u16::try_from(exponent).unwrap_or(0);
    if e > LARGEST_DEGREE - mono.total() {
        return *mono;
    }
    mono.with_exp(i, e)
}
