// Left reduction.
ghost use Rattle.std.specs.Prelude.{◌≡◌, IfOk, length};
ghost use Rattle.ct_checked.specs.Checked.{AnswersBy};
ghost use Rattle.ct_ore.specs.Naming.{actions_of};
ghost use Rattle.ct_algebra.specs.Leading.{IsReduced};
ghost use Rattle.ct_algebra.specs.Membership.{ReducesTo};
ghost use Rattle.ct_reduce.specs.Reduction.{no_cofactors, reduction_from, checked_reduction};
ghost use Rattle.ct_reduce.specs.Views.{reduction_of};

use crate::reduced::Reduced;
use crate::search::greatest_reducible;
use crate::step::{append, multiplied_unless_one, one, plan, taken};
use ct_mono::{Fault, NoMemory};
use ct_ore::{Algebra, Op};
use std::alloc::Global;

/// Reduces an operator by generators from the left: as long as a leading monomial divides a monomial of the
/// rest, the greatest such monomial is taken away by a multiple of the first such generator.
pub fn left_reduce(
    alloc: Global,
    algebra: &Algebra,
    op: &Op,
    generators: &[Op],
) -> Result<Reduced, Fault>
    ensures answers { AnswersBy reduction_of (checked_reduction (actions_of algebra.now) generators.now op.now) result }
    ensures meaning { IfOk result (λ r. ReducesTo (actions_of algebra.now) generators.now op.now (reduction_of r)) }
    ensures reduced { IfOk result (λ r. IsReduced generators.now r.rest) }
{
    let scale = one(alloc)?;
    let cofactors = no_cofactors(alloc, generators)?;
    let rest = op.copy(alloc)?;
    reduced_from(
        alloc,
        algebra,
        generators,
        Reduced {
            scale,
            cofactors,
            rest,
        },
    )
}

// A zero for each generator.
fn no_cofactors(alloc: Global, generators: &[Op]) -> Result<Vec<Op>, NoMemory>
    ensures { IfOk result (λ v. v.items ≡ no_cofactors generators.now) }
{
    let mut done = Vec::new(alloc);
    let mut rest = generators;
    'filling: while let Some((_, more)) = rest.split_first() {
        append(&mut done, Op::zero(alloc))?;
        rest = more;
    }
    Ok(done)
}

// All further steps.
fn reduced_from(
    alloc: Global,
    algebra: &Algebra,
    generators: &[Op],
    start: Reduced,
) -> Result<Reduced, Fault>
    requires { length start.cofactors.items ≡ length generators.now }
    ensures { AnswersBy reduction_of (reduction_from (actions_of algebra.now) generators.now (reduction_of start)) result }
{
    let mut state = start;
    'reducing: loop {
        let Some(reducible) = greatest_reducible(generators, &state.rest) else {
            return Ok(state);
        };
        let step = plan(alloc, algebra, &reducible)?;
        let multiplied = multiplied_unless_one(alloc, algebra, &step.factor, state)?;
        state = taken(alloc, algebra, &step, multiplied)?;
    }
}
