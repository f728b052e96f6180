// Sums of lists of coefficient terms in written form.
ghost use Rattle.std.specs.Prelude.{◌≡◌, ◌+◌, ◌<◌, ◌≤◌, ◌+ℤ◌, IfOk, unsigned_abs, length, take};
ghost use Rattle.ct_checked.specs.Limits.{largest_norm};
ghost use Rattle.ct_ore.specs.CoefficientTerms.{key, pair_cmp, size_of, IsWritten};
ghost use Rattle.ct_ore.specs.PairMeasures.{HasNumbers};
ghost use Rattle.ct_ore.specs.Lists.{CanMerge, AllBefore, IsBefore, IsMerged, IsFront, IsSorted};

use crate::coefficient_term::CoefficientTerm;
use ct_mono::NoMemory;
use std::alloc::Global;
use std::cmp::Ordering;

/// The sum of the absolute values.
pub fn size_of_parts(ts: &[CoefficientTerm]) -> u128
    requires { size_of ts.now ≤ largest_norm }
    ensures { result ≡ size_of ts.now }
{
    let mut sum = 0;
    for t in ts {
        sum += t.number.unsigned_abs();
    }
    sum
}

/// Both lists as one, terms at the same key added.
pub fn merge(
    alloc: Global,
    ps: &[CoefficientTerm],
    qs: &[CoefficientTerm],
) -> Result<Vec<CoefficientTerm>, NoMemory>
    requires { CanMerge ps.now qs.now }
    ensures { IfOk result (λ v. IsMerged ps.now qs.now v.items) }
{
    let mut out = Vec::with_capacity(alloc, ps.len() + qs.len())?;
    let mut p = ps;
    let mut q = qs;
    'merging: loop {
        let Some((a, p_rest)) = p.split_first() else {
            out.extend_from_slice(q)?;
            return Ok(out);
        };
        let Some((b, q_rest)) = q.split_first() else {
            out.extend_from_slice(p)?;
            return Ok(out);
        };
        match compare(a, b) {
            Ordering::Greater => {
                if p_rest.len() / 8 > q.len() {
                    let (before, after) = p.split_at(count_before(p, b));
                    out.extend_from_slice(before)?;
                    p = after;
                } else {
                    out.push(CoefficientTerm {
                        symbols: a.symbols,
                        names: a.names,
                        number: a.number,
                    })?;
                    p = p_rest;
                }
            }
            Ordering::Less => {
                out.push(CoefficientTerm {
                    symbols: b.symbols,
                    names: b.names,
                    number: b.number,
                })?;
                q = q_rest;
            }
            Ordering::Equal => {
                let number = number_sum(a.number, b.number);
                if number != 0 {
                    out.push(CoefficientTerm {
                        symbols: a.symbols,
                        names: a.names,
                        number,
                    })?;
                }
                p = p_rest;
                q = q_rest;
            }
        }
    }
}

// How many terms of a list in written form come before a term that its first one comes before, by halving what is left.
fn count_before(ts: &[CoefficientTerm], b: &CoefficientTerm) -> usize
    requires written { IsWritten ts.now }
    requires first { AllBefore b.now (take 1 ts.now) }
    ensures { IsBefore b.now ts.now result }
{
    let mut low = 1.min(ts.len());
    let mut high = ts.len();
    'halving: while low < high {
        let middle = low + (high - low) / 2;
        match compare(b, &ts[middle]) {
            Ordering::Less => low = middle + 1,
            _ => high = middle,
        }
    }
    low
}

/// All terms in written form, terms at the same key added: what is in written form is copied, and what is not is cut in
/// two, each part by itself, and both are merged.
pub fn sorted(alloc: Global, ts: &[CoefficientTerm]) -> Result<Vec<CoefficientTerm>, NoMemory>
    requires numbers { HasNumbers ts.now }
    requires small { size_of ts.now ≤ largest_norm }
    ensures { IfOk result (λ v. IsSorted ts.now v.items) }
{
    if written_front(ts) == ts.len() {
        let copy = Vec::from_slice(alloc, ts)?;
        return Ok(copy);
    }
    let (front, back) = ts.split_at(middle(ts));
    let left = sorted(alloc, front)?;
    let right = sorted(alloc, back)?;
    let both = merge(alloc, left.as_slice(), right.as_slice())?;
    Ok(both)
}

// Where a list is cut: where the terms that are in written form from the half on end, or at the half where the list does.
fn middle(ts: &[CoefficientTerm]) -> usize
    requires numbers { HasNumbers ts.now }
    requires some { 1 < length ts.now }
    ensures low { 0 < result }
    ensures high { result < length ts.now }
{
    let half = ts.len() / 2;
    let (_, back) = ts.split_at(half);
    let cut = half + written_front(back);
    if cut < ts.len() { cut } else { half }
}

// How many of the first terms are in written form by themselves.
fn written_front(ts: &[CoefficientTerm]) -> usize
    requires { HasNumbers ts.now }
    ensures { IsFront ts.now result }
{
    let Some((first, more)) = ts.split_first() else {
        return 0;
    };
    let mut last = first;
    let mut rest = more;
    'falling: while let Some((t, later)) = rest.split_first() {
        match compare(t, last) {
            Ordering::Less => {
                last = t;
                rest = later;
            }
            _ => return ts.len() - rest.len(),
        }
    }
    ts.len()
}

// The order of terms: by the symbols, then by the names.
fn compare(a: &CoefficientTerm, b: &CoefficientTerm) -> Ordering
    ensures { result ≡ pair_cmp (key a.now) (key b.now) }
{
    match a.symbols.cmp(&b.symbols) {
        Ordering::Equal => a.names.cmp(&b.names),
        unequal => unequal,
    }
}

// The sum of two numbers.
fn number_sum(a: i128, b: i128) -> i128
    requires { unsigned_abs a + unsigned_abs b ≤ largest_norm }
    ensures { result ≡ a +ℤ b }
{
    a + b
}
