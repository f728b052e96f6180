// A polynomial's terms times the terms of a list.
ghost use Rattle.std.specs.Prelude.{◌≡◌, ◌+◌, ◌*◌, ◌≤◌, ◌∷◌, [], ◌*ℤ◌, IfOk, nat_abs, unsigned_abs};
ghost use Rattle.ct_algebra.specs.Monomial.{total};
ghost use Rattle.ct_checked.specs.Limits.{largest_degree, largest_norm};
ghost use Rattle.ct_poly.specs.Terms.{entries};
ghost use Rattle.ct_ore.specs.PairTerms.{times_term, multiplied, multiplied_by};
ghost use Rattle.ct_ore.specs.Bounds.{CanScale};
ghost use Rattle.ct_ore.specs.Lists.{IsSum};

use crate::coefficient_term::CoefficientTerm;
use crate::sum::merge;
use ct_mono::NoMemory;
use ct_poly::Term;
use std::alloc::Global;

/// Each term of a polynomial times each term of a list, in written form. The shorter one is halved.
pub fn multiple(
    alloc: Global,
    us: &[Term],
    ts: &[CoefficientTerm],
) -> Result<Vec<CoefficientTerm>, NoMemory>
    requires { CanScale (entries us.now) ts.now }
    ensures { IfOk result (λ v. IsSum (multiplied_by (entries us.now) ts.now) v.items) }
{
    if us.len() <= ts.len() {
        left_by_halves(alloc, us, ts)
    } else {
        right_by_halves(alloc, us, ts)
    }
}

fn left_by_halves(
    alloc: Global,
    us: &[Term],
    ts: &[CoefficientTerm],
) -> Result<Vec<CoefficientTerm>, NoMemory>
    requires { CanScale (entries us.now) ts.now }
    ensures { IfOk result (λ v. IsSum (multiplied_by (entries us.now) ts.now) v.items) }
{
    if us.is_empty() {
        return Ok(Vec::new(alloc));
    }
    if us.len() == 1 {
        let row = row_of_left(alloc, &us[0], ts)?;
        return Ok(row);
    }
    let (front, back) = us.split_at(us.len() / 2);
    let left = left_by_halves(alloc, front, ts)?;
    let right = left_by_halves(alloc, back, ts)?;
    let both = merge(alloc, left.as_slice(), right.as_slice())?;
    Ok(both)
}

fn right_by_halves(
    alloc: Global,
    us: &[Term],
    ts: &[CoefficientTerm],
) -> Result<Vec<CoefficientTerm>, NoMemory>
    requires { CanScale (entries us.now) ts.now }
    ensures { IfOk result (λ v. IsSum (multiplied_by (entries us.now) ts.now) v.items) }
{
    if ts.is_empty() {
        return Ok(Vec::new(alloc));
    }
    if ts.len() == 1 {
        let row = row_of_right(alloc, us, &ts[0])?;
        return Ok(row);
    }
    let (front, back) = ts.split_at(ts.len() / 2);
    let left = right_by_halves(alloc, us, front)?;
    let right = right_by_halves(alloc, us, back)?;
    let both = merge(alloc, left.as_slice(), right.as_slice())?;
    Ok(both)
}

// A term of the polynomial times each term of a list.
fn row_of_left(
    alloc: Global,
    u: &Term,
    ts: &[CoefficientTerm],
) -> Result<Vec<CoefficientTerm>, NoMemory>
    requires { CanScale ((u.now.mono, u.now.coef) ∷ []) ts.now }
    ensures { IfOk result (λ v. v.items ≡ multiplied u.now.mono u.now.coef ts.now) }
{
    let mut out = Vec::with_capacity(alloc, ts.len())?;
    let mut rest = ts;
    'multiplying: while let Some((t, more)) = rest.split_first() {
        let product = product_of_both(u, t);
        out.push(product)?;
        rest = more;
    }
    Ok(out)
}

// Each term of the polynomial times a term.
fn row_of_right(
    alloc: Global,
    us: &[Term],
    t: &CoefficientTerm,
) -> Result<Vec<CoefficientTerm>, NoMemory>
    requires { CanScale (entries us.now) (t.now ∷ []) }
    ensures { IfOk result (λ v. v.items ≡ multiplied_by (entries us.now) (t.now ∷ [])) }
{
    let mut out = Vec::with_capacity(alloc, us.len())?;
    let mut rest = us;
    'multiplying: while let Some((u, more)) = rest.split_first() {
        let product = product_of_both(u, t);
        out.push(product)?;
        rest = more;
    }
    Ok(out)
}

fn product_of_both(u: &Term, t: &CoefficientTerm) -> CoefficientTerm
    requires low { total u.now.mono + total t.now.names ≤ largest_degree }
    requires small { nat_abs u.now.coef * nat_abs t.now.number ≤ largest_norm }
    ensures { result ≡ times_term u.now.mono u.now.coef t.now }
{
    CoefficientTerm {
        symbols: t.symbols,
        names: u.mono.product(&t.names),
        number: number_product(u.coef, t.number),
    }
}

// The product of two numbers.
fn number_product(a: i128, b: i128) -> i128
    requires { unsigned_abs a * unsigned_abs b ≤ largest_norm }
    ensures { result ≡ a *ℤ b }
{
    a * b
}
