// Derivatives of lists of terms: each term with the name gives one, and they fall as before.
ghost use Rattle.std.specs.Prelude.{◌≡◌, ◌-◌, ◌^◌, ◌<◌, ◌≤◌, IfOk, length, min};
ghost use Rattle.ct_algebra.specs.Derivative.{derived};
ghost use Rattle.ct_algebra.specs.Names.{name_with};
ghost use Rattle.ct_checked.specs.Limits.{largest_degree, largest_norm};
ghost use Rattle.ct_poly.specs.Terms.{IsFalling, IsListOf, poly_of_terms, greatest_total, derivative_size};

use crate::product::product_of_coefs;
use crate::term::Term;
use ct_mono::NoMemory;
use std::alloc::Global;

/// The sum of coefficient times exponent, or the greatest number where it is greater.
pub(crate) fn derivative_size_of_terms(ts: &[Term], i: u8) -> u128
    requires { i < 6 }
    ensures { result ≡ min (derivative_size i ts.now) (2 ^ 128 - 1) }
{
    let mut sum: u128 = 0;
    for t in ts {
        let size = t
            .coef
            .unsigned_abs()
            .saturating_mul(u128::from(t.mono.exp(i)));
        sum = sum.saturating_add(size);
    }
    sum
}

/// The derivative of a list in falling order.
pub(crate) fn derivative_of_terms(alloc: Global, ts: &[Term], i: u8) -> Result<Vec<Term>, NoMemory>
    requires known { i < 6 }
    requires falling { IsFalling ts.now }
    requires low { greatest_total ts.now ≤ largest_degree }
    requires small { derivative_size i ts.now ≤ largest_norm }
    ensures { let value = derived (name_with i) (poly_of_terms ts.now) in
        IfOk result (λ v. IsListOf value (length ts.now) (derivative_size i ts.now) v.items) }
{
    let mut out = Vec::with_capacity(alloc, ts.len())?;
    let mut rest = ts;
    'lowering: while let Some((t, more)) = rest.split_first() {
        let e = t.mono.exp(i);
        if e > 0 {
            let mono = t.mono.with_exp(i, e - 1);
            let coef = product_of_coefs(t.coef, i128::from(e));
            out.push(Term { mono, coef })?;
        }
        rest = more;
    }
    Ok(out)
}
