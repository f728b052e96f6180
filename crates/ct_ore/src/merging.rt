// Sums of operators' lists of terms, by merging them: a coefficient that meets no other is moved.
ghost use Rattle.std.specs.Prelude.{◌≡◌, ◌++◌, [], None, IfOk, option_to_list};
ghost use Rattle.std.specs.Vec.Iter.{into_iter_items};
ghost use Rattle.ct_algebra.specs.Monomial.{monomials};
ghost use Rattle.ct_algebra.specs.Polynomial.{polys, plus};
ghost use Rattle.ct_algebra.specs.Terms.{keep, merged};
ghost use Rattle.ct_poly.specs.Measures.{sum_overflow};
ghost use Rattle.ct_ore.specs.Terms.{op_entries};
ghost use Rattle.ct_ore.specs.TermSums.{CanAdd};

use crate::op::OpTerm;
use ct_mono::NoMemory;
use std::alloc::Global;
use std::cmp::Ordering;
use std::vec::IntoIter;

/// The terms of the sum of two operators, which is within the limits.
pub fn merged_terms(
    alloc: Global,
    ps: Vec<OpTerm>,
    qs: Vec<OpTerm>,
) -> Result<Vec<OpTerm>, NoMemory>
    requires { CanAdd (op_entries ps.items) (op_entries qs.items) }
    ensures { IfOk result (λ v. op_entries v.items ≡ merged monomials polys.group (op_entries ps.items) (op_entries qs.items)) }
{
    let mut out = Vec::with_capacity(alloc, ps.len() + qs.len())?;
    let mut p = ps.into_iter();
    let mut q = qs.into_iter();
    let mut first = p.next();
    let mut second = q.next();
    'merging: loop {
        let Some(a) = first else {
            let all = with_rest(out, second, q)?;
            return Ok(all);
        };
        let Some(b) = second else {
            let all = with_rest(out, Some(a), p)?;
            return Ok(all);
        };
        match a.mono.cmp(&b.mono) {
            Ordering::Greater => {
                out.push(a)?;
                first = p.next();
                second = Some(b);
            }
            Ordering::Less => {
                out.push(b)?;
                first = Some(a);
                second = q.next();
            }
            Ordering::Equal => {
                push_sum(alloc, &mut out, &a, &b)?;
                first = p.next();
                second = q.next();
            }
        }
    }
}

// Puts the sum of two terms at one monomial at the end, unless it is zero.
fn push_sum(alloc: Global, out: &mut Vec<OpTerm>, a: &OpTerm, b: &OpTerm) -> Result<(), NoMemory>
    requires { sum_overflow a.now.coef b.now.coef ≡ None }
    ensures { IfOk result (λ _. op_entries out.new.items ≡ op_entries out.old.items ++ keep monomials polys.group a.now.mono (plus a.now.coef b.now.coef) []) }
{
    let coef = a.coef.plus(alloc, &b.coef)?;
    if !coef.is_zero() {
        out.push(OpTerm { mono: a.mono, coef })?;
    }
    Ok(())
}

// A list with what is left of another at its end.
fn with_rest(
    out: Vec<OpTerm>,
    first: Option<OpTerm>,
    rest: IntoIter<OpTerm>,
) -> Result<Vec<OpTerm>, NoMemory>
    ensures { IfOk result (λ v. v.items ≡ out.items ++ (option_to_list first ++ into_iter_items rest)) }
{
    let mut all = out;
    if let Some(t) = first {
        all.push(t)?;
    }
    let mut left = rest;
    'moving: while let Some(t) = left.next() {
        all.push(t)?;
    }
    Ok(all)
}
