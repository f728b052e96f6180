// Polynomials as text.
ghost use Rattle.std.specs.Prelude.{◌≡◌, ◌++◌, OnOk, IfOk};
ghost use Rattle.ct_poly.specs.Terms.{entry, entries};
ghost use Rattle.ct_answer.specs.Text as spec;

use crate::bytes::push;
use crate::factors::{append_powers, push_signed_term};
use ct_mono::NoMemory;
use ct_ore::Algebra;
use ct_poly::{Poly, Term};
use std::alloc::Global;

/// The text of a polynomial. A name past those of the algebra has no letters.
pub fn print_poly(alloc: Global, algebra: &Algebra, p: &Poly) -> Result<Vec<u8>, NoMemory>
    ensures { IfOk result (λ text. text.items ≡ spec.polynomial_text algebra.now p.now) }
{
    let mut out = Vec::new(alloc);
    push_poly(alloc, &mut out, algebra, p)?;
    Ok(out)
}

#[tactic(auto, unfolding(crate::specs::Text::polynomial_text))]
pub(crate) fn push_poly(
    alloc: Global,
    out: &mut Vec<u8>,
    algebra: &Algebra,
    p: &Poly,
) -> Result<(), NoMemory>
    ensures { OnOk result (out.new.items ≡ out.old.items ++ spec.polynomial_text algebra.now p.now) }
{
    let terms = p.terms();
    if terms.is_empty() {
        return push(out, b"0");
    }
    push_terms(alloc, out, algebra, true, terms)
}

/// The terms of a sum; the first of them may be the first of the whole.
#[tactic(auto, unfolding(crate::specs::Text::entries_text))]
pub(crate) fn push_terms(
    alloc: Global,
    out: &mut Vec<u8>,
    algebra: &Algebra,
    is_first: bool,
    terms: &[Term],
) -> Result<(), NoMemory>
    ensures { OnOk result (out.new.items ≡ out.old.items ++ spec.entries_text algebra.now is_first (entries terms.now)) }
{
    let Some((first, others)) = terms.split_first() else {
        return Ok(());
    };
    push_entry(alloc, out, algebra, is_first, first)?;
    for term in others {
        push_entry(alloc, out, algebra, false, term)?;
    }
    Ok(())
}

fn push_entry(
    alloc: Global,
    out: &mut Vec<u8>,
    algebra: &Algebra,
    is_first: bool,
    term: &Term,
) -> Result<(), NoMemory>
    ensures { OnOk result (out.new.items ≡ out.old.items ++ spec.entry_text algebra.now is_first (entry term.now)) }
{
    let mut powers = Vec::new(alloc);
    append_powers(&mut powers, false, &term.mono)?;
    push_signed_term(out, algebra, is_first, term.coef, powers.as_slice())
}
