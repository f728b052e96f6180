// When a product of operators overflows.
ghost use Rattle.std.specs.Prelude.{◌≡◌, ◌*◌, ◌<◌, ◌≤◌, ℕ, length, ltb};
ghost use Rattle.ct_algebra.specs.Monomial.{exp};
ghost use Rattle.ct_algebra.specs.Names.{name_with};
ghost use Rattle.ct_algebra.specs.Operators.{Operator};
ghost use Rattle.ct_checked.specs.Limits.{most_terms, largest_norm};
ghost use Rattle.ct_ore.specs.AllNames.{number_of_names};
ghost use Rattle.ct_ore.specs.Naming.{actions_of};
ghost use Rattle.ct_ore.specs.Terms.{op_entries};
ghost use Rattle.ct_ore.specs.CoefficientTerms.{size_of, all_terms};
ghost use Rattle.ct_ore.specs.Measures.{product_overflow};
ghost use Rattle.ct_ore.specs.Bounds.{IsCapped};
ghost use Rattle.ct_ore.specs.Lists.{IsPartsOf};
ghost use Rattle.ct_ore.specs.PairMeasures.{name_measure, names_measure, term_measure, symbols_measure, coefficient_measure, measure_of_pairs};

use crate::algebra::{Algebra, NAMES};
use crate::coefficient_term::CoefficientTerm;
use crate::coefficients::term_count;
use crate::degrees::{degree_of, order_of, small_exponent};
use crate::op::OpTerm;
use crate::sum::size_of_parts;
use crate::ways::{capped_product, capped_sum, how_many, weight};
use ct_mono::{Kind, LARGEST_DEGREE, LARGEST_NORM, MOST_TERMS, Monomial};
use ct_poly::Poly;

// The measure of all pairs: their weight, or else their count. What symbols make of the right factor is measured once for
// all terms of the coefficient before them.
fn measure_of_pairs(
    algebra: &Algebra,
    weigh: bool,
    ps: &[OpTerm],
    qs: &[CoefficientTerm],
) -> Option<u128>
    requires few { length qs.now ≤ most_terms }
    requires small { size_of qs.now ≤ largest_norm }
    ensures { IsCapped (measure_of_pairs (actions_of algebra.now) weigh (all_terms (op_entries ps.now)) qs.now) result }
{
    let mut sum = Some(0);
    let mut rest = ps;
    'measuring: while let Some((p, more)) = rest.split_first() {
        let made = measure_of_symbols(algebra, weigh, &p.mono, qs);
        let row = capped_product(measure_of_coefficient(weigh, &p.coef), made);
        sum = capped_sum(sum, row);
        rest = more;
    }
    sum
}

// The norm, or else the count, of a coefficient.
fn measure_of_coefficient(weigh: bool, p: &Poly) -> Option<u128>
    ensures { IsCapped (coefficient_measure weigh p.now) result }
{
    p.within_limits();
    Some(if weigh {
        p.norm()
    } else {
        p.terms().len() as u128
    })
}

// The measure of what symbols make of all terms.
fn measure_of_symbols(
    algebra: &Algebra,
    weigh: bool,
    m: &Monomial,
    qs: &[CoefficientTerm],
) -> Option<u128>
    requires few { length qs.now ≤ most_terms }
    requires small { size_of qs.now ≤ largest_norm }
    ensures { IsCapped (symbols_measure (actions_of algebra.now) weigh m.now qs.now) result }
{
    if m.total() == 0 {
        return Some(if weigh {
            size_of_parts(qs)
        } else {
            qs.len() as u128
        });
    }
    let mut sum = Some(0);
    let mut rest = qs;
    'measuring: while let Some((t, more)) = rest.split_first() {
        sum = capped_sum(sum, measure_of_term(algebra, weigh, m, t));
        rest = more;
    }
    sum
}

// The measure of what symbols make of a term.
fn measure_of_term(
    algebra: &Algebra,
    weigh: bool,
    m: &Monomial,
    t: &CoefficientTerm,
) -> Option<u128>
    ensures { IsCapped (term_measure (actions_of algebra.now) weigh m.now t.now) result }
{
    let names = measure_of_names(algebra, weigh, m, &t.names);
    if weigh {
        capped_product(capped(t.number.unsigned_abs()), names)
    } else {
        names
    }
}

// A number, where it is within the largest norm.
fn capped(n: u128) -> Option<u128>
    ensures { IsCapped n result }
{
    if n > LARGEST_NORM { None } else { Some(n) }
}

// The product over all names.
fn measure_of_names(algebra: &Algebra, weigh: bool, m: &Monomial, n: &Monomial) -> Option<u128>
    ensures { IsCapped (names_measure (actions_of algebra.now) weigh m.now n.now) result }
{
    let mut product = Some(1);
    for i in 0..NAMES {
        product = times_name(product, algebra, weigh, i, m, n);
    }
    product
}

// A product that one name more is multiplied to.
fn times_name(
    product: Option<u128>,
    algebra: &Algebra,
    weigh: bool,
    i: u8,
    m: &Monomial,
    n: &Monomial,
) -> Option<u128>
    requires { i < number_of_names }
    ensures { (v : ℕ) → IsCapped v product → IsCapped (v * name_measure weigh (actions_of algebra.now (name_with i)) (exp m.now i) (exp n.now i)) result }
{
    if m.exp(i) == 0 {
        return product;
    }
    let name = measure_of_name(algebra, weigh, i, m, n);
    capped_product(product, name)
}

fn measure_of_name(
    algebra: &Algebra,
    weigh: bool,
    i: u8,
    m: &Monomial,
    n: &Monomial,
) -> Option<u128>
    requires { i < number_of_names }
    ensures { IsCapped (name_measure weigh (actions_of algebra.now (name_with i)) (exp m.now i) (exp n.now i)) result }
{
    let action = algebra.action(i);
    let k = small_exponent(m, i);
    let e = small_exponent(n, i);
    if !weigh {
        return Some(u128::from(how_many(action, k, e)));
    }
    weight(action, k, e)
}

/// The first rule that the product of two operators breaks; their terms and the coefficient terms of the right one are given.
pub fn product_overflow(
    algebra: &Algebra,
    ps: &[OpTerm],
    qs: &[OpTerm],
    its: &[CoefficientTerm],
) -> Option<Kind>
    requires few { length (all_terms (op_entries ps.now)) ≤ most_terms }
    requires few_too { length its.now ≤ most_terms }
    requires small { size_of its.now ≤ largest_norm }
    ensures { (p q : Operator) → op_entries ps.now ≡ p.terms → op_entries qs.now ≡ q.terms → IsPartsOf q its.now → result ≡ product_overflow (actions_of algebra.now) p q }
{
    if ps.is_empty() {
        return None;
    }
    if qs.is_empty() {
        return None;
    }
    if degree_of(ps) + degree_of(qs) > LARGEST_DEGREE {
        return Some(Kind::Degree);
    }
    if order_of(ps) + order_of(qs) > LARGEST_DEGREE {
        return Some(Kind::Degree);
    }
    if term_count(ps) * its.len() > MOST_TERMS {
        return Some(Kind::Terms);
    }
    let count = measure_of_pairs(algebra, false, ps, its);
    if passes(count, MOST_TERMS as u128) {
        return Some(Kind::Terms);
    }
    let norm = measure_of_pairs(algebra, true, ps, its);
    if passes(norm, LARGEST_NORM) {
        return Some(Kind::Number);
    }
    None
}

// Whether a number passes a limit.
fn passes(n: Option<u128>, limit: u128) -> bool
    requires { limit ≤ largest_norm }
    ensures { (v : ℕ) → IsCapped v n → result ≡ ltb limit v }
{
    match n {
        Some(n) => n > limit,
        None => true,
    }
}
