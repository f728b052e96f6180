// Sums of lists of terms, by merging them, and negatives.
ghost use Rattle.std.specs.Prelude.{◌≡◌, ◌+◌, ◌≤◌, ◌++◌, ◌+ℤ◌, IfOk, length, neg_ℤ, unsigned_abs};
ghost use Rattle.ct_algebra.specs.Polynomial.{plus, polys};
ghost use Rattle.ct_checked.specs.Limits.{largest_norm};
ghost use Rattle.ct_poly.specs.Terms.{IsFalling, IsListOf, poly_of_terms, size_of};

use crate::term::Term;
use ct_mono::NoMemory;
use std::alloc::Global;
use std::cmp::Ordering;

/// The sum of two lists in falling order.
pub(crate) fn sum_of_terms(alloc: Global, ps: &[Term], qs: &[Term]) -> Result<Vec<Term>, NoMemory>
    requires first { IsFalling ps.now }
    requires second { IsFalling qs.now }
    requires small { size_of ps.now + size_of qs.now ≤ largest_norm }
    ensures { let value = plus (poly_of_terms ps.now) (poly_of_terms qs.now) in
        let count = length ps.now + length qs.now in
        IfOk result (λ v. IsListOf value count (size_of ps.now + size_of qs.now) v.items) }
{
    let mut out = Vec::with_capacity(alloc, ps.len() + qs.len())?;
    let mut p = ps;
    let mut q = qs;
    'merging: loop {
        let Some((a, p_rest)) = p.split_first() else {
            out.extend_from_slice(q)?;
            return Ok(out);
        };
        let Some((b, q_rest)) = q.split_first() else {
            out.extend_from_slice(p)?;
            return Ok(out);
        };
        match a.mono.cmp(&b.mono) {
            Ordering::Greater => {
                out.push(Term {
                    mono: a.mono,
                    coef: a.coef,
                })?;
                p = p_rest;
            }
            Ordering::Less => {
                out.push(Term {
                    mono: b.mono,
                    coef: b.coef,
                })?;
                q = q_rest;
            }
            Ordering::Equal => {
                let coef = sum_of_coefs(a.coef, b.coef);
                if coef != 0 {
                    out.push(Term { mono: a.mono, coef })?;
                }
                p = p_rest;
                q = q_rest;
            }
        }
    }
}

pub(crate) fn sum_of_coefs(a: i128, b: i128) -> i128
    requires { unsigned_abs a + unsigned_abs b ≤ largest_norm }
    ensures { result ≡ a +ℤ b }
{
    a + b
}

/// The negative of a list in falling order.
pub(crate) fn negative_of_terms(alloc: Global, ts: &[Term]) -> Result<Vec<Term>, NoMemory>
    requires falling { IsFalling ts.now }
    requires small { size_of ts.now ≤ largest_norm }
    ensures { IfOk result (λ v. IsListOf (polys.neg (poly_of_terms ts.now)) (length ts.now) (size_of ts.now) v.items) }
{
    let mut out = Vec::with_capacity(alloc, ts.len())?;
    let mut rest = ts;
    'negating: while let Some((t, more)) = rest.split_first() {
        let coef = negative_of_coef(t.coef);
        out.push(Term { mono: t.mono, coef })?;
        rest = more;
    }
    Ok(out)
}

pub(crate) fn negative_of_coef(c: i128) -> i128
    requires { unsigned_abs c ≤ largest_norm }
    ensures { result ≡ neg_ℤ c }
{
    -c
}
