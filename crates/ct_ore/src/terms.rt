// Copies, negatives and equality of operators' lists of terms.
ghost use Rattle.std.specs.Prelude.{◌≡◌, ◌↔◌, IfOk, IsTrue};
ghost use Rattle.ct_ore.specs.Terms.{op_entries};
ghost use Rattle.ct_ore.specs.TermSums.{negatives};

use crate::op::OpTerm;
use ct_mono::NoMemory;
use std::alloc::Global;

pub fn copied(alloc: Global, ts: &[OpTerm]) -> Result<Vec<OpTerm>, NoMemory>
    ensures { IfOk result (λ v. op_entries v.items ≡ op_entries ts.now) }
{
    let mut out = Vec::with_capacity(alloc, ts.len())?;
    let mut rest = ts;
    'copying: while let Some((t, more)) = rest.split_first() {
        out.push(OpTerm {
            mono: t.mono,
            coef: t.coef.copy(alloc)?,
        })?;
        rest = more;
    }
    Ok(out)
}

pub fn negated(alloc: Global, ts: &[OpTerm]) -> Result<Vec<OpTerm>, NoMemory>
    ensures { IfOk result (λ v. op_entries v.items ≡ negatives (op_entries ts.now)) }
{
    let mut out = Vec::with_capacity(alloc, ts.len())?;
    let mut rest = ts;
    'negating: while let Some((t, more)) = rest.split_first() {
        out.push(OpTerm {
            mono: t.mono,
            coef: t.coef.neg(alloc)?,
        })?;
        rest = more;
    }
    Ok(out)
}

/// Whether both lists have the same terms.
pub fn same_terms(ps: &[OpTerm], qs: &[OpTerm]) -> bool
    ensures { IsTrue result ↔ (op_entries ps.now ≡ op_entries qs.now) }
{
    let mut left = ps;
    let mut right = qs;
    'comparing: while let Some((p, more)) = left.split_first() {
        let Some((q, others)) = right.split_first() else {
            return false;
        };
        if !same_term(p, q) {
            return false;
        }
        left = more;
        right = others;
    }
    right.is_empty()
}

fn same_term(p: &OpTerm, q: &OpTerm) -> bool
    ensures { IsTrue result ↔ ((p.now.mono ≡ q.now.mono) × (p.now.coef ≡ q.now.coef)) }
{
    p.mono == q.mono && p.coef.same(&q.coef)
}
