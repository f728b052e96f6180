// Operators as lists of coefficient terms, and back.
ghost use Rattle.std.specs.Prelude.{◌≡◌, ◌≤◌, ◌++◌, IfOk, length, map, take};
ghost use Rattle.ct_checked.specs.Limits.{most_terms, largest_norm};
ghost use Rattle.ct_poly.specs.Terms.{entries};
ghost use Rattle.ct_ore.specs.Terms.{op_entries};
ghost use Rattle.ct_ore.specs.CoefficientTerms.{sum_of_parts, IsWritten, row_of, all_terms};
ghost use Rattle.ct_ore.specs.TermSums.{entries_norm};
ghost use Rattle.ct_ore.specs.Lists.{Fits, AllHave, IsRun, IsRunLength, without_symbols};

use crate::coefficient_term::CoefficientTerm;
use crate::op::OpTerm;
use ct_mono::{Monomial, NoMemory};
use ct_poly::{Poly, Term};
use std::alloc::Global;
use std::cmp::Ordering;

/// How many terms all coefficients have.
pub fn term_count(ops: &[OpTerm]) -> usize
    requires { length (all_terms (op_entries ops.now)) ≤ most_terms }
    ensures { result ≡ length (all_terms (op_entries ops.now)) }
{
    let mut count = 0;
    let mut rest = ops;
    'counting: while let Some((op, more)) = rest.split_first() {
        count += op.coef.terms().len();
        rest = more;
    }
    count
}

/// The sum of the absolute values in all coefficients.
pub fn term_norm(ops: &[OpTerm]) -> u128
    requires { entries_norm (op_entries ops.now) ≤ largest_norm }
    ensures { result ≡ entries_norm (op_entries ops.now) }
{
    let mut sum = 0;
    let mut rest = ops;
    'adding: while let Some((op, more)) = rest.split_first() {
        sum += op.coef.norm();
        rest = more;
    }
    sum
}

/// The terms of all coefficients.
pub fn parts_of(alloc: Global, ops: &[OpTerm]) -> Result<Vec<CoefficientTerm>, NoMemory>
    requires { length (all_terms (op_entries ops.now)) ≤ most_terms }
    ensures { IfOk result (λ v. v.items ≡ all_terms (op_entries ops.now)) }
{
    let mut out = Vec::with_capacity(alloc, term_count(ops))?;
    let mut rest = ops;
    'listing: while let Some((op, more)) = rest.split_first() {
        append_row(&mut out, &op.mono, op.coef.terms())?;
        rest = more;
    }
    Ok(out)
}

// Puts the terms of a coefficient at the end.
fn append_row(out: &mut Vec<CoefficientTerm>, m: &Monomial, ts: &[Term]) -> Result<(), NoMemory>
    ensures { IfOk result (λ _. out.new.items ≡ out.old.items ++ row_of m.now (entries ts.now)) }
{
    let mut rest = ts;
    'appending: while let Some((t, more)) = rest.split_first() {
        out.push(CoefficientTerm {
            symbols: *m,
            names: t.mono,
            number: t.coef,
        })?;
        rest = more;
    }
    Ok(())
}

/// The terms of the operator that a list in written form adds up to.
pub fn gathered(alloc: Global, ts: &[CoefficientTerm]) -> Result<Vec<OpTerm>, NoMemory>
    requires { Fits ts.now }
    ensures { IfOk result (λ v. op_entries v.items ≡ (sum_of_parts ts.now).terms) }
{
    let mut out = Vec::new(alloc);
    let mut rest = ts;
    'gathering: while let Some((t, _)) = rest.split_first() {
        let terms = run(alloc, &t.symbols, rest)?;
        let (_, back) = rest.split_at(terms.len());
        out.push(OpTerm {
            mono: t.symbols,
            coef: Poly::of_terms(terms),
        })?;
        rest = back;
    }
    Ok(out)
}

// The terms up to the first with other symbols than the first of them.
fn run(alloc: Global, m: &Monomial, ts: &[CoefficientTerm]) -> Result<Vec<Term>, NoMemory>
    requires written { IsWritten ts.now }
    requires first { AllHave m.now (take 1 ts.now) }
    ensures { IfOk result (λ v. IsRun m.now ts.now v.items) }
{
    let (front, _) = ts.split_at(run_length(m, ts));
    let terms = without_symbols(alloc, front)?;
    Ok(terms)
}

// How many terms stand before the first with other symbols, by halving what is left.
fn run_length(m: &Monomial, ts: &[CoefficientTerm]) -> usize
    requires written { IsWritten ts.now }
    requires first { AllHave m.now (take 1 ts.now) }
    ensures { IsRunLength m.now ts.now result }
{
    let mut low = 0;
    let mut high = ts.len();
    'halving: while low < high {
        let middle = low + (high - low) / 2;
        match ts[middle].symbols.cmp(m) {
            Ordering::Equal => low = middle + 1,
            _ => high = middle,
        }
    }
    low
}

// The terms without their symbols.
fn without_symbols(alloc: Global, ts: &[CoefficientTerm]) -> Result<Vec<Term>, NoMemory>
    ensures { IfOk result (λ v. v.items ≡ map without_symbols ts.now) }
{
    let mut out = Vec::with_capacity(alloc, ts.len())?;
    for t in ts {
        out.push(Term {
            mono: t.names,
            coef: t.number,
        })?;
    }
    Ok(out)
}
