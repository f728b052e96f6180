// One step of a reduction.
ghost use Rattle.std.specs.Prelude.{◌≡◌, ◌≢◌, ◌<◌, ◌++◌, ◌∷◌, [], IfOk, OnOk, length};
ghost use Rattle.ct_algebra.specs.Leading.{leading};
ghost use Rattle.ct_algebra.specs.Polynomial.{polys};
ghost use Rattle.ct_checked.specs.Checked.{AnswersBy};
ghost use Rattle.ct_poly.specs.Division.{quotient};
ghost use Rattle.ct_ore.specs.Naming.{actions_of};
ghost use Rattle.ct_reduce.specs.Reduction.{leading_coefficient, factor_for, share_for, is_one, checked_plan, checked_multiples, checked_multiplied, multiplied_unless_one, checked_taken};
ghost use Rattle.ct_reduce.specs.Views.{reduction_of, reducible_of, step_of};

use crate::reduced::Reduced;
use crate::search::Reducible;
use ct_mono::{Fault, NoMemory};
use ct_ore::{Algebra, Op};
use ct_poly::Poly;
use std::alloc::Global;
use std::mem::replace;

/// What a step does: the factor of the whole reduction, and the part of a generator that is taken.
#[derive(Drop)]
pub(crate) struct Step<'a> {
    pub factor: Poly,
    pub part: Op,
    pub place: usize,
    pub generator: &'a Op,
}

/// The step for a reducible monomial.
#[tactic(auto, unfolding(crate::specs::Reduction::checked_plan))]
pub(crate) fn plan<'a>(
    alloc: Global,
    algebra: &Algebra,
    reducible: &Reducible<'a, '_>,
) -> Result<Step<'a>, Fault>
    ensures { AnswersBy step_of (checked_plan (actions_of algebra.now) (reducible_of reducible.now)) result }
{
    let reducer = &reducible.reducer;
    let symbols = Op::of_term(alloc, one(alloc)?, &reducer.symbols)?;
    let moved = symbols.mul(alloc, algebra, reducer.generator)?;
    let leading = leading_coefficient(alloc, &moved)?;
    let (factor, share) = factor_and_share(alloc, &reducible.term.coef, leading)?;
    let part = Op::of_term(alloc, share, &reducer.symbols)?;
    Ok(Step {
        factor,
        part,
        place: reducer.place,
        generator: reducer.generator,
    })
}

// What all is multiplied by, and what stands before the symbols in the part that is taken.
fn factor_and_share(alloc: Global, coef: &Poly, leading: Poly) -> Result<(Poly, Poly), NoMemory>
    requires { leading ≢ polys.zero }
    ensures { IfOk result (λ r. (r.0 ≡ factor_for leading (quotient coef.now leading)) × (r.1 ≡ share_for coef.now (quotient coef.now leading))) }
{
    let quotient = coef.quotient(alloc, &leading)?;
    match quotient {
        Some(share) => Ok((one(alloc)?, share)),
        None => Ok((leading, coef.copy(alloc)?)),
    }
}

// The leading coefficient, or 1 where there is none.
fn leading_coefficient(alloc: Global, p: &Op) -> Result<Poly, NoMemory>
    ensures { IfOk result (λ c. c ≡ leading_coefficient (leading p.now.terms)) }
{
    let Some((first, _)) = p.terms().split_first() else {
        return one(alloc);
    };
    first.coef.copy(alloc)
}

pub(crate) fn one(alloc: Global) -> Result<Poly, NoMemory>
    ensures { IfOk result (λ p. p ≡ polys.one) }
{
    Poly::constant(alloc, 1)
}

/// The rest, the scale and the cofactors, times the factor from the left, unless it is 1.
#[tactic(auto, unfolding(crate::specs::Reduction::multiplied_unless_one))]
pub(crate) fn multiplied_unless_one(
    alloc: Global,
    algebra: &Algebra,
    factor: &Poly,
    s: Reduced,
) -> Result<Reduced, Fault>
    ensures { AnswersBy reduction_of (multiplied_unless_one (actions_of algebra.now) factor.now (reduction_of s)) result }
{
    if is_one(alloc, factor)? {
        return Ok(s);
    }
    multiplied(alloc, algebra, factor, &s)
}

fn is_one(alloc: Global, p: &Poly) -> Result<bool, NoMemory>
    ensures { IfOk result (λ b. b ≡ is_one p.now) }
{
    let one = one(alloc)?;
    Ok(p.same(&one))
}

#[tactic(auto, unfolding(crate::specs::Reduction::checked_multiplied))]
fn multiplied(
    alloc: Global,
    algebra: &Algebra,
    factor: &Poly,
    s: &Reduced,
) -> Result<Reduced, Fault>
    ensures { AnswersBy reduction_of (checked_multiplied (actions_of algebra.now) factor.now (reduction_of s.now)) result }
{
    let operator = Op::of_poly(alloc, factor.copy(alloc)?)?;
    let rest = operator.mul(alloc, algebra, &s.rest)?;
    let scale = factor.mul(alloc, &s.scale)?;
    let cofactors = multiples(alloc, algebra, &operator, s.cofactors.as_slice())?;
    Ok(Reduced {
        scale,
        cofactors,
        rest,
    })
}

// Each operator times m from the left.
fn multiples(alloc: Global, algebra: &Algebra, m: &Op, cofactors: &[Op]) -> Result<Vec<Op>, Fault>
    ensures { AnswersBy (λ v. v.items) (checked_multiples (actions_of algebra.now) m.now [] cofactors.now) result }
{
    let mut done = Vec::new(alloc);
    let mut rest = cofactors;
    'multiplying: while let Some((c, more)) = rest.split_first() {
        let product = m.mul(alloc, algebra, c)?;
        append(&mut done, product)?;
        rest = more;
    }
    Ok(done)
}

pub(crate) fn append(list: &mut Vec<Op>, p: Op) -> Result<(), NoMemory>
    ensures { OnOk result (list.new.items ≡ list.old.items ++ p ∷ []) }
{
    list.push(p)?;
    Ok(())
}

/// The step's part of its generator is taken from the rest, and added to the cofactor.
#[tactic(auto, unfolding(crate::specs::Reduction::checked_taken))]
pub(crate) fn taken(
    alloc: Global,
    algebra: &Algebra,
    step: &Step,
    s: Reduced,
) -> Result<Reduced, Fault>
    requires { step.now.place < length s.cofactors.items }
    ensures { AnswersBy reduction_of (checked_taken (actions_of algebra.now) (step_of step.now) (reduction_of s)) result }
{
    let product = step.part.mul(alloc, algebra, step.generator)?;
    let rest = s.rest.into_difference(alloc, &product)?;
    let mut cofactors = s.cofactors;
    let cofactor = replace(&mut cofactors[step.place], Op::zero(alloc));
    cofactors[step.place] = cofactor.into_sum(alloc, step.part.copy(alloc)?)?;
    Ok(Reduced {
        scale: s.scale,
        cofactors,
        rest,
    })
}
