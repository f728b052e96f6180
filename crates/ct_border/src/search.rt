// The staircase of generators.
ghost use Rattle.std.specs.Prelude.{◌≡◌, ◌<◌, ◌^◌, IfOk, length};
ghost use Rattle.std.specs.List.{All};
ghost use Rattle.ct_checked.specs.Checked.{AnswersAs};
ghost use Rattle.ct_ore.specs.Naming.{actions_of};
ghost use Rattle.ct_border.specs.Staircase.{refusal_of, powers_test, checked_staircase};
ghost use Rattle.ct_border.specs.StaircaseMeans.{HasStaircase};

use crate::fault::StairFault;
use crate::leading::{has_power, leading_monomials};
use crate::names::operator_numbers;
use crate::remaining::remaining;
use ct_mono::Monomial;
use ct_ore::{Algebra, Op};
use std::alloc::Global;

/// The monomials in the names with operators that no leading monomial divides, rising. It is refused, in this
/// order: where a generator is zero or its leading monomial is 1; where a name has no pure power; where more
/// than 16 monomials remain.
#[tactic(auto, unfolding(crate::specs::Staircase::checked_staircase))]
pub fn staircase(
    alloc: Global,
    algebra: &Algebra,
    generators: &[Op],
) -> Result<Vec<Monomial>, StairFault>
    requires { length generators.now < 2 ^ 32 }
    ensures answers { AnswersAs refusal_of (λ v. v.items) (checked_staircase (actions_of algebra.now) generators.now) result }
    ensures certified { IfOk result (λ v. HasStaircase (actions_of algebra.now) generators.now v.items) }
{
    let leading = leading_monomials(alloc, generators)?;
    let names = operator_numbers(alloc, algebra)?;
    powers(names.as_slice(), leading.as_slice())?;
    remaining(alloc, names.as_slice(), leading.as_slice())
}

// Whether each name has a power among the monomials.
fn powers(names: &[u8], leading: &[Monomial]) -> Result<(), StairFault>
    requires { All (λ i. i < 6) names.now }
    ensures { AnswersAs refusal_of (λ u. u) (powers_test leading.now names.now) result }
{
    let mut rest = names;
    'testing: while let Some((name, more)) = rest.split_first() {
        if !has_power(leading, *name) {
            return Err(StairFault::NotFinite(*name));
        }
        rest = more;
    }
    Ok(())
}
