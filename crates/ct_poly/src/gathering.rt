// Lists of terms in any order, gathered into one whose monomials fall.
ghost use Rattle.std.specs.Prelude.{◌≡◌, ◌≤◌, false, IfOk, IsTrue, length};
ghost use Rattle.ct_checked.specs.Limits.{largest_norm};
ghost use Rattle.ct_poly.specs.Terms.{IsFalling, IsListOf, poly_of_terms, size_of};

use crate::sum::sum_of_terms;
use crate::term::Term;
use ct_mono::NoMemory;
use std::alloc::Global;

/// The list in falling order of what the terms add up to: halves are merged, until they fall.
pub(crate) fn gathered(alloc: Global, ts: &[Term]) -> Result<Vec<Term>, NoMemory>
    requires { size_of ts.now ≤ largest_norm }
    ensures { IfOk result (λ v. IsListOf (poly_of_terms ts.now) (length ts.now) (size_of ts.now) v.items) }
{
    if is_falling(ts) {
        return Vec::from_slice(alloc, ts);
    }
    if ts.len() <= 1 {
        return Ok(Vec::new(alloc));
    }
    let (front, back) = ts.split_at(ts.len() / 2);
    let left = gathered(alloc, front)?;
    let right = gathered(alloc, back)?;
    sum_of_terms(alloc, left.as_slice(), right.as_slice())
}

/// Whether monomials fall, and no coefficient is zero.
fn is_falling(ts: &[Term]) -> bool
    ensures falls { IsTrue result → IsFalling ts.now }
    ensures single { result ≡ false → length ts.now ≤ 1 → size_of ts.now ≡ 0 }
{
    let Some((first, others)) = ts.split_first() else {
        return true;
    };
    let mut last = *first;
    let mut rest = others;
    'comparing: while let Some((t, more)) = rest.split_first() {
        if last.coef == 0 || !last.mono.cmp(&t.mono).is_gt() {
            return false;
        }
        last = *t;
        rest = more;
    }
    last.coef != 0
}
