// The coefficient terms of a product.
ghost use Rattle.std.specs.Prelude.{◌≡◌, ◌<◌, ◌≤◌, ◌*◌, ◌++◌, ◌∷◌, [], ◌*ℤ◌, pos, IfOk, unsigned_abs};
ghost use Rattle.ct_algebra.specs.Monomial.{exp};
ghost use Rattle.ct_algebra.specs.Names.{name_with};
ghost use Rattle.ct_checked.specs.Limits.{largest_norm};
ghost use Rattle.ct_ore.specs.Naming.{actions_of, action_of};
ghost use Rattle.ct_ore.specs.Terms.{op_entries};
ghost use Rattle.ct_ore.specs.PairTerms.{raised_term, raised, expanded_below, expanded, product_terms};
ghost use Rattle.ct_ore.specs.AllNames.{number_of_names};
ghost use Rattle.ct_ore.specs.Bounds.{CanRaise, CanExpandBelow, CanExpand, CanMultiply};
ghost use Rattle.ct_ore.specs.Lists.{IsSum};

use crate::algebra::{Action, Algebra, NAMES};
use crate::coefficient_term::CoefficientTerm;
use crate::degrees::small_exponent;
use crate::op::OpTerm;
use crate::scaling::multiple;
use crate::sum::{merge, sorted};
use crate::ways::{how_many, next_way, symbols_left};
use ct_mono::{Monomial, NoMemory};
use std::alloc::Global;

/// What the terms of the left factor make of the coefficient terms of the right one, in written form: the terms are halved
/// until one is left, and what the halves make is merged.
pub fn product_by_halves(
    alloc: Global,
    algebra: &Algebra,
    es: &[OpTerm],
    ts: &[CoefficientTerm],
) -> Result<Vec<CoefficientTerm>, NoMemory>
    requires { CanMultiply (actions_of algebra.now) (op_entries es.now) ts.now }
    ensures { IfOk result (λ v. IsSum (product_terms (actions_of algebra.now) (op_entries es.now) ts.now) v.items) }
{
    if es.is_empty() {
        return Ok(Vec::new(alloc));
    }
    if es.len() == 1 {
        let product = product_of_term(alloc, algebra, &es[0], ts)?;
        return Ok(product);
    }
    let (front, back) = es.split_at(es.len() / 2);
    let left = product_by_halves(alloc, algebra, front, ts)?;
    let right = product_by_halves(alloc, algebra, back, ts)?;
    let both = merge(alloc, left.as_slice(), right.as_slice())?;
    Ok(both)
}

// The same for one term of the left factor.
fn product_of_term(
    alloc: Global,
    algebra: &Algebra,
    e: &OpTerm,
    ts: &[CoefficientTerm],
) -> Result<Vec<CoefficientTerm>, NoMemory>
    requires { CanMultiply (actions_of algebra.now) ((e.now.mono, e.now.coef) ∷ []) ts.now }
    ensures { IfOk result (λ v. IsSum (product_terms (actions_of algebra.now) ((e.now.mono, e.now.coef) ∷ []) ts.now) v.items) }
{
    if e.mono.total() == 0 {
        let product = multiple(alloc, e.coef.terms(), ts)?;
        return Ok(product);
    }
    let made = expanded(alloc, algebra, &e.mono, ts)?;
    let falling = sorted(alloc, made.as_slice())?;
    let product = multiple(alloc, e.coef.terms(), falling.as_slice())?;
    Ok(product)
}

// What a product of symbols makes of the terms, name after name.
fn expanded(
    alloc: Global,
    algebra: &Algebra,
    m: &Monomial,
    ts: &[CoefficientTerm],
) -> Result<Vec<CoefficientTerm>, NoMemory>
    requires { CanExpand (actions_of algebra.now) m.now ts.now }
    ensures { IfOk result (λ v. v.items ≡ expanded (actions_of algebra.now) m.now ts.now) }
{
    let copy = Vec::from_slice(alloc, ts)?;
    let all = expanded_below(alloc, algebra, m, NAMES, copy)?;
    Ok(all)
}

// What those of the first names make of them, the last one of these first.
fn expanded_below(
    alloc: Global,
    algebra: &Algebra,
    m: &Monomial,
    count: u8,
    ts: Vec<CoefficientTerm>,
) -> Result<Vec<CoefficientTerm>, NoMemory>
    requires known { count ≤ number_of_names }
    requires can { CanExpandBelow (actions_of algebra.now) count m.now ts.items }
    ensures { IfOk result (λ v. v.items ≡ expanded_below (actions_of algebra.now) count m.now ts.items) }
{
    if count == 0 {
        return Ok(ts);
    }
    let made = raised_by(alloc, algebra, m, count - 1, ts)?;
    let all = expanded_below(alloc, algebra, m, count - 1, made)?;
    Ok(all)
}

// What the symbols of one name in a product make of the terms. Where it has none of them, the terms stay.
fn raised_by(
    alloc: Global,
    algebra: &Algebra,
    m: &Monomial,
    i: u8,
    ts: Vec<CoefficientTerm>,
) -> Result<Vec<CoefficientTerm>, NoMemory>
    requires known { i < number_of_names }
    requires can { CanRaise (actions_of algebra.now (name_with i)) i (exp m.now i) ts.items }
    ensures { IfOk result (λ v. v.items ≡ raised (actions_of algebra.now (name_with i)) i (exp m.now i) ts.items) }
{
    let action = algebra.action(i);
    let k = small_exponent(m, i);
    if k == 0 {
        return Ok(ts);
    }
    let made = raised(alloc, action, i, k, ts.as_slice())?;
    Ok(made)
}

// What k symbols of a name make of the terms.
fn raised(
    alloc: Global,
    action: Action,
    i: u8,
    k: u16,
    ts: &[CoefficientTerm],
) -> Result<Vec<CoefficientTerm>, NoMemory>
    requires known { i < number_of_names }
    requires can { CanRaise (action_of action) i k ts.now }
    ensures { IfOk result (λ v. v.items ≡ raised (action_of action) i k ts.now) }
{
    let mut out = Vec::new(alloc);
    let mut rest = ts;
    'raising: while let Some((t, more)) = rest.split_first() {
        append_raised(&mut out, action, i, k, t)?;
        rest = more;
    }
    Ok(out)
}

// What they make of one term: the power of the name is lowered by j, for each j that leaves a number.
fn append_raised(
    out: &mut Vec<CoefficientTerm>,
    action: Action,
    i: u8,
    k: u16,
    t: &CoefficientTerm,
) -> Result<(), NoMemory>
    requires known { i < number_of_names }
    requires can { CanRaise (action_of action) i k (t.now ∷ []) }
    ensures { IfOk result (λ _. out.new.items ≡ out.old.items ++ raised_term (action_of action) i k t.now) }
{
    let e = small_exponent(&t.names, i);
    let s = small_exponent(&t.symbols, i);
    let mut way = 1;
    for j in 0..how_many(action, k, e) {
        let symbols = t.symbols.with_exp(i, s + symbols_left(action, k, j));
        let names = t.names.with_exp(i, e.saturating_sub(j));
        let number = number_times(t.number, way);
        out.push(CoefficientTerm {
            symbols,
            names,
            number,
        })?;
        way = next_way(action, k, e, j, way).unwrap_or(0);
    }
    Ok(())
}

// A number, taken a number of times.
fn number_times(n: i128, way: u128) -> i128
    requires known { way ≤ largest_norm }
    requires small { unsigned_abs n * way ≤ largest_norm }
    ensures { result ≡ n *ℤ pos way }
{
    n * (way as i128)
}
