// The elements that a refusal speaks of.
ghost use Rattle.std.specs.Prelude.{◌≡◌, false, IfOk};
ghost use Rattle.ct_problem.specs.ReadProblem.{reading_of};
ghost use Rattle.ct_setup.specs.Setup as spec;

use crate::expressions::generators;
use ct_border::{StairFault, staircase};
use ct_mono::{Fault, Monomial, NoMemory};
use ct_problem::Problem;
use std::alloc::Global;

/// The staircase of the generators of a problem without `let` and `use` lines, whose elements a refusal of `prepare` numbers; nothing
/// where there is none.
#[tactic(auto, unfolding(crate::specs::Setup::elements_of))]
pub fn elements(alloc: Global, problem: &Problem) -> Result<Vec<Monomial>, NoMemory>
    requires { spec.has_lists (reading_of problem.now) ≡ false }
    ensures { IfOk result (λ v. v.items ≡ spec.elements_of (reading_of problem.now)) }
{
    let generators = match generators(alloc, problem) {
        Ok(generators) => generators,
        Err(Fault::Overflow(_)) => return Ok(Vec::new(alloc)),
        Err(Fault::NoMemory) => return Err(NoMemory),
    };
    match staircase(alloc, &problem.algebra, generators.as_slice()) {
        Ok(elements) => Ok(elements),
        Err(StairFault::Fault(Fault::NoMemory)) => Err(NoMemory),
        Err(_) => Ok(Vec::new(alloc)),
    }
}
