// Operators as text.
ghost use Rattle.std.specs.Prelude.{◌≡◌, ◌++◌, OnOk, IfOk};
ghost use Rattle.ct_poly.specs.Terms.{entries};
ghost use Rattle.ct_ore.specs.Terms.{op_entries};
ghost use Rattle.ct_answer.specs.Text as spec;

use crate::bytes::push;
use crate::factors::{Power, append_powers, push_later_powers, push_sign, push_signed_term};
use crate::polynomial::push_terms;
use ct_mono::NoMemory;
use ct_ore::{Algebra, Op, OpTerm};
use ct_poly::Term;
use std::alloc::Global;

/// The text of an operator. A name past those of the algebra has no letters.
pub fn print_op(alloc: Global, algebra: &Algebra, op: &Op) -> Result<Vec<u8>, NoMemory>
    ensures { IfOk result (λ text. text.items ≡ spec.operator_text algebra.now op.now) }
{
    let mut out = Vec::new(alloc);
    push_op(alloc, &mut out, algebra, op)?;
    Ok(out)
}

#[tactic(auto, unfolding(crate::specs::Text::operator_text))]
pub(crate) fn push_op(
    alloc: Global,
    out: &mut Vec<u8>,
    algebra: &Algebra,
    op: &Op,
) -> Result<(), NoMemory>
    ensures { OnOk result (out.new.items ≡ out.old.items ++ spec.operator_text algebra.now op.now) }
{
    push_op_terms(alloc, out, algebra, op.terms())
}

fn push_op_terms(
    alloc: Global,
    out: &mut Vec<u8>,
    algebra: &Algebra,
    terms: &[OpTerm],
) -> Result<(), NoMemory>
    ensures { OnOk result (out.new.items ≡ out.old.items ++ spec.operator_entries_text algebra.now (op_entries terms.now)) }
{
    let Some((first, others)) = terms.split_first() else {
        return push(out, b"0");
    };
    push_op_term(alloc, out, algebra, true, first)?;
    for term in others {
        push_op_term(alloc, out, algebra, false, term)?;
    }
    Ok(())
}

fn push_op_term(
    alloc: Global,
    out: &mut Vec<u8>,
    algebra: &Algebra,
    is_first: bool,
    term: &OpTerm,
) -> Result<(), NoMemory>
    ensures { OnOk result (out.new.items ≡ out.old.items ++ spec.operator_entry_text algebra.now is_first (term.now.mono, term.now.coef)) }
{
    let mut symbols = Vec::new(alloc);
    append_powers(&mut symbols, true, &term.mono)?;
    push_product(
        alloc,
        out,
        algebra,
        is_first,
        term.coef.terms(),
        symbols.as_slice(),
    )
}

// The terms of a coefficient before powers of symbols.
#[tactic(auto, unfolding(crate::specs::Text::product_text))]
fn push_product(
    alloc: Global,
    out: &mut Vec<u8>,
    algebra: &Algebra,
    is_first: bool,
    terms: &[Term],
    symbols: &[Power],
) -> Result<(), NoMemory>
    ensures { OnOk result (out.new.items ≡ out.old.items ++ spec.product_text algebra.now is_first (entries terms.now) symbols.now) }
{
    if symbols.is_empty() {
        return push_terms(alloc, out, algebra, is_first, terms);
    }
    if let Some((term, others)) = terms.split_first() {
        if others.is_empty() {
            return push_single(alloc, out, algebra, is_first, term, symbols);
        }
    }
    push_parenthesized(alloc, out, algebra, is_first, terms, symbols)
}

fn push_single(
    alloc: Global,
    out: &mut Vec<u8>,
    algebra: &Algebra,
    is_first: bool,
    term: &Term,
    symbols: &[Power],
) -> Result<(), NoMemory>
    ensures { OnOk result (out.new.items ≡ out.old.items ++ spec.signed_term algebra.now is_first term.now.coef (spec.names_in term.now.mono ++ symbols.now)) }
{
    let mut powers = Vec::new(alloc);
    append_powers(&mut powers, false, &term.mono)?;
    powers.extend_from_slice(symbols)?;
    push_signed_term(out, algebra, is_first, term.coef, powers.as_slice())
}

fn push_parenthesized(
    alloc: Global,
    out: &mut Vec<u8>,
    algebra: &Algebra,
    is_first: bool,
    terms: &[Term],
    symbols: &[Power],
) -> Result<(), NoMemory>
    ensures { OnOk result (out.new.items ≡ out.old.items ++ spec.parenthesized algebra.now is_first (entries terms.now) symbols.now) }
{
    push_sign(out, is_first, false)?;
    push(out, b"(")?;
    push_terms(alloc, out, algebra, true, terms)?;
    push(out, b")")?;
    push_later_powers(out, algebra, symbols)
}
