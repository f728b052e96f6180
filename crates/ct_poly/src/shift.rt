// Shifts of lists of terms: a table of the powers of the name plus the number serves all terms, and what two halves of a
// list give is merged.
ghost use Rattle.std.specs.Prelude.{◌≡◌, ◌+◌, ◌-◌, ◌^◌, ◌<◌, ◌≤◌, IfOk, [], ◌∷◌, length, min, pos, vec_len};
ghost use Rattle.ct_algebra.specs.Names.{name_with};
ghost use Rattle.ct_checked.specs.Limits.{largest_degree, largest_norm, most_terms};
ghost use Rattle.ct_poly.specs.Measures.{shifted};
ghost use Rattle.ct_poly.specs.Powers.{binomial, IsPowerTable, CanShift};
ghost use Rattle.ct_poly.specs.Terms.{IsFalling, IsListOf, poly_of_terms, greatest_total, shift_size, shift_length, greatest_exp};

use crate::product::{multiple_of_terms, product_of_terms};
use crate::sum::sum_of_terms;
use crate::term::{Term, list_of_term};
use ct_mono::{Monomial, NoMemory};
use std::alloc::Global;

/// How many terms a shift makes before they are gathered.
pub(crate) fn shift_length_of_terms(ts: &[Term], i: u8) -> usize
    requires known { i < 6 }
    requires few { length ts.now ≤ most_terms }
    ensures { result ≡ shift_length i ts.now }
{
    let mut sum: usize = 0;
    for t in ts {
        sum += usize::from(t.mono.exp(i)) + 1;
    }
    sum
}

/// The size of these terms, or the greatest number where it is greater.
pub(crate) fn shift_size_of_terms(ts: &[Term], i: u8, by: u16) -> u128
    requires { i < 6 }
    ensures { result ≡ min (shift_size i by ts.now) (2 ^ 128 - 1) }
{
    let base = 1 + u128::from(by);
    let mut sum: u128 = 0;
    for t in ts {
        let power = base.saturating_pow(u32::from(t.mono.exp(i)));
        sum = sum.saturating_add(t.coef.unsigned_abs().saturating_mul(power));
    }
    sum
}

/// The powers of a name plus a number, from 0 on, each as its terms in falling order.
#[derive(Drop)]
pub(crate) struct Powers {
    name: u8,
    by: u16,
    rows: Vec<Vec<Term>>,
}

/// The list in which a name is replaced by itself plus a positive number.
pub(crate) fn shifted_terms(
    alloc: Global,
    ts: &[Term],
    i: u8,
    by: u16,
) -> Result<Vec<Term>, NoMemory>
    requires known { i < 6 }
    requires positive { 0 < by }
    requires falling { IsFalling ts.now }
    requires low { greatest_total ts.now ≤ largest_degree }
    requires small { shift_size i by ts.now ≤ largest_norm }
    ensures { let value = shifted (name_with i) by (poly_of_terms ts.now) in
        IfOk result (λ v. IsListOf value (shift_length i ts.now) (shift_size i by ts.now) v.items) }
{
    let table = powers_up_to(alloc, i, by, greatest_exp_of_terms(ts, i))?;
    shifted_by_halves(alloc, ts, &table)
}

fn greatest_exp_of_terms(ts: &[Term], i: u8) -> u16
    requires { i < 6 }
    ensures { result ≡ greatest_exp i ts.now }
{
    let mut greatest = 0;
    let mut rest = ts;
    'climbing: while let Some((t, more)) = rest.split_first() {
        greatest = greatest.max(t.mono.exp(i));
        rest = more;
    }
    greatest
}

fn powers_up_to(alloc: Global, i: u8, by: u16, highest: u16) -> Result<Powers, NoMemory>
    requires known { i < 6 }
    requires positive { 0 < by }
    requires low { highest ≤ largest_degree }
    requires small { (1 + by) ^ highest ≤ largest_norm }
    ensures table { IfOk result (λ table. IsPowerTable table) }
    ensures same { IfOk result (λ table. (table.name ≡ i) × (table.by ≡ by)) }
    ensures rows { IfOk result (λ table. length table.rows.items ≡ highest + 1) }
{
    let binomial = binomial_terms(alloc, i, by)?;
    let mut rows = Vec::with_capacity(alloc, usize::from(highest) + 1)?;
    rows.push(list_of_term(alloc, &Monomial::one(), 1)?)?;
    for e in 0..usize::from(highest) {
        let row = product_of_terms(alloc, binomial.as_slice(), rows[e].as_slice())?;
        rows.push(row)?;
    }
    Ok(Powers { name: i, by, rows })
}

fn binomial_terms(alloc: Global, i: u8, by: u16) -> Result<Vec<Term>, NoMemory>
    requires known { i < 6 }
    requires positive { 0 < by }
    ensures list { IfOk result (λ v. IsListOf (binomial i by) 2 (1 + by) v.items) }
    ensures low { IfOk result (λ v. greatest_total v.items ≤ 1) }
{
    let mut list = Vec::with_capacity(alloc, 2)?;
    list.push(Term {
        mono: Monomial::name(i),
        coef: 1,
    })?;
    list.push(Term {
        mono: Monomial::one(),
        coef: i128::from(by),
    })?;
    Ok(list)
}

fn shifted_by_halves(alloc: Global, ts: &[Term], table: &Powers) -> Result<Vec<Term>, NoMemory>
    requires table { IsPowerTable table.now }
    requires can { CanShift table.now ts.now }
    ensures { let i = table.now.name in
        let value = shifted (name_with i) table.now.by (poly_of_terms ts.now) in
        IfOk result (λ v. IsListOf value (shift_length i ts.now) (shift_size i table.now.by ts.now) v.items) }
{
    if ts.is_empty() {
        return Ok(Vec::new(alloc));
    }
    if ts.len() == 1 {
        return shifted_term(alloc, &ts[0], table);
    }
    let (front, back) = ts.split_at(ts.len() / 2);
    let left = shifted_by_halves(alloc, front, table)?;
    let right = shifted_by_halves(alloc, back, table)?;
    sum_of_terms(alloc, left.as_slice(), right.as_slice())
}

fn shifted_term(alloc: Global, t: &Term, table: &Powers) -> Result<Vec<Term>, NoMemory>
    requires table { IsPowerTable table.now }
    requires can { CanShift table.now (t.now ∷ []) }
    ensures { let i = table.now.name in
        let one = t.now ∷ [] in
        let value = shifted (name_with i) table.now.by (poly_of_terms one) in
        IfOk result (λ v. IsListOf value (shift_length i one) (shift_size i table.now.by one) v.items) }
{
    let e = t.mono.exp(table.name);
    let rest = Term {
        mono: t.mono.with_exp(table.name, 0),
        coef: t.coef,
    };
    multiple_of_terms(alloc, &rest, table.rows[usize::from(e)].as_slice())
}
