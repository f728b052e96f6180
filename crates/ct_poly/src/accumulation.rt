// A list plus a term times another, by one merge: what stands between two products is copied at once.
ghost use Rattle.std.specs.Prelude.{◌≡◌, ◌+◌, ◌*◌, ◌*ℤ◌, ◌++◌, ◌≤◌, IfOk, IfSome, length, unsigned_abs, [], ◌∷◌};
ghost use Rattle.ct_algebra.specs.Monomial.{◌·◌, total};
ghost use Rattle.ct_algebra.specs.Polynomial.{plus, times};
ghost use Rattle.ct_checked.specs.Limits.{largest_degree, largest_norm};
ghost use Rattle.ct_poly.specs.Accumulation.{EachAbove, IsBlock, Meets, count_above};
ghost use Rattle.ct_poly.specs.Terms.{CanMultiply, IsFalling, IsListOf, entries, poly_of_terms, size_of};

use crate::product::product_of_coefs;
use crate::sum::sum_of_coefs;
use crate::term::Term;
use ct_mono::{Monomial, NoMemory};
use std::alloc::Global;

/// How many terms are passed over at once.
const BLOCK: usize = 16;

/// The sum of a list and a term times another list, both in falling order.
pub(crate) fn sum_with_multiple(
    alloc: Global,
    ps: &[Term],
    t: &Term,
    qs: &[Term],
) -> Result<Vec<Term>, NoMemory>
    requires first { IsFalling ps.now }
    requires second { CanMultiply (t.now ∷ []) qs.now }
    requires small { size_of ps.now + unsigned_abs t.now.coef * size_of qs.now ≤ largest_norm }
    ensures { let value = plus (poly_of_terms ps.now) (times (poly_of_terms (t.now ∷ [])) (poly_of_terms qs.now)) in
        let size = size_of ps.now + unsigned_abs t.now.coef * size_of qs.now in
        IfOk result (λ v. IsListOf value (length ps.now + length qs.now) size v.items) }
{
    let mut out = Vec::with_capacity(alloc, ps.len() + qs.len())?;
    let mut p = ps;
    let mut q = qs;
    'merging: while let Some((b, q_rest)) = q.split_first() {
        let product = product_of_term(t, b);
        let (above, below) = split_above(p, &product.mono);
        out.extend_from_slice(above)?;
        let (coef, rest) = met(below, &product);
        if coef != 0 {
            out.push(Term {
                mono: product.mono,
                coef,
            })?;
        }
        p = rest;
        q = q_rest;
    }
    out.extend_from_slice(p)?;
    Ok(out)
}

fn product_of_term(t: &Term, u: &Term) -> Term
    requires degrees { total t.now.mono + total u.now.mono ≤ largest_degree }
    requires sizes { unsigned_abs t.now.coef * unsigned_abs u.now.coef ≤ largest_norm }
    ensures { result ≡ record { mono = t.now.mono · u.now.mono; coef = t.now.coef *ℤ u.now.coef } }
{
    Term {
        mono: t.mono.product(&u.mono),
        coef: product_of_coefs(t.coef, u.coef),
    }
}

/// The terms above a monomial, and the others.
fn split_above<'a>(p: &'a [Term], mono: &Monomial) -> (&'a [Term], &'a [Term])
    requires { IsFalling p.now }
    ensures whole { p.now ≡ result.0.now ++ result.1.now }
    ensures above { EachAbove mono.now (entries result.0.now) }
    ensures below { count_above mono.now (entries result.1.now) ≡ 0 }
{
    p.split_at(number_above(p, mono))
}

fn number_above(p: &[Term], mono: &Monomial) -> usize
    requires { IsFalling p.now }
    ensures { result ≡ count_above mono.now (entries p.now) }
{
    let mut number = 0;
    let mut rest = p;
    'skipping: while let Some(more) = after_block(rest, mono) {
        number += BLOCK;
        rest = more;
    }
    number + number_above_singly(rest, mono)
}

/// What follows a block at the front, where it begins above the monomial, as then the block is.
fn after_block<'a>(p: &'a [Term], mono: &Monomial) -> Option<&'a [Term]>
    ensures { IfSome result (λ more. IsBlock mono.now p.now more.now) }
{
    if p.len() <= BLOCK {
        return None;
    }
    let (_, more) = p.split_at(BLOCK);
    let (a, _) = more.split_first()?;
    if a.mono.cmp(mono).is_gt() {
        Some(more)
    } else {
        None
    }
}

fn number_above_singly(p: &[Term], mono: &Monomial) -> usize
    ensures { result ≡ count_above mono.now (entries p.now) }
{
    let mut number = 0;
    let mut rest = p;
    'counting: while let Some((a, more)) = rest.split_first() {
        if !a.mono.cmp(mono).is_gt() {
            return number;
        }
        number += 1;
        rest = more;
    }
    number
}

/// The coefficient of a product where it meets the terms that are not above it, and the terms that are left.
fn met<'a>(below: &'a [Term], product: &Term) -> (i128, &'a [Term])
    requires next { count_above product.now.mono (entries below.now) ≡ 0 }
    requires small { size_of below.now + unsigned_abs product.now.coef ≤ largest_norm }
    ensures { Meets below.now product.now result.0 result.1.now }
{
    if let Some((a, rest)) = below.split_first() {
        if a.mono.cmp(&product.mono).is_eq() {
            return (sum_of_coefs(a.coef, product.coef), rest);
        }
    }
    (product.coef, below)
}
