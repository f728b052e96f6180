// The output of `reduce`.
ghost use Rattle.std.specs.Prelude.{◌≡◌, false, IfOk};
ghost use Rattle.ct_ore.specs.Naming.{actions_of};
ghost use Rattle.ct_problem.specs.ReadProblem.{reading_of};
ghost use Rattle.ct_setup.specs.Setup.{has_lists};
ghost use Rattle.ct_run.specs.Output.{output_of};
ghost use Rattle.ct_run.specs.Reducing as spec;

use crate::lines::overflow_in_reduction;
use crate::output::Output;
use crate::reductions::{TargetFault, reductions};
use crate::refusals::refused_setup;
use crate::status::Outcome;
use ct_answer::print_reductions;
use ct_io::NoMemory;
use ct_ore::Algebra;
use ct_problem::Problem;
use ct_setup::{PlainReady, prepare_plain};
use std::alloc::Global;

/// The output for a problem without `let` and `use` lines.
#[tactic(auto, unfolding(crate::specs::Reducing::reduced))]
pub(crate) fn answer_reduce(alloc: Global, problem: &Problem) -> Result<Output, NoMemory>
    requires { has_lists (reading_of problem.now) ≡ false }
    ensures value { IfOk result (λ output. output_of output ≡ spec.reduced (reading_of problem.now)) }
{
    match prepare_plain(alloc, problem) {
        Ok(plain) => answer_plain(alloc, &problem.algebra, &plain),
        Err(fault) => refused_setup(alloc, problem, fault),
    }
}

/// The reductions of the targets as text, or the first that overflows.
fn answer_plain(alloc: Global, algebra: &Algebra, plain: &PlainReady) -> Result<Output, NoMemory>
    ensures value { IfOk result (λ output. output_of output ≡ spec.by_reductions algebra.now (spec.checked_reductions (actions_of algebra.now) plain.now.generators.items plain.now.targets.items)) }
{
    let generators = plain.generators.as_slice();
    match reductions(alloc, algebra, generators, plain.targets.as_slice()) {
        Ok(reductions) => Ok(Output {
            outcome: Outcome::Done,
            text: print_reductions(alloc, algebra, reductions.as_slice())?,
        }),
        Err(TargetFault::Overflow(place, kind)) => overflow_in_reduction(alloc, place, kind),
        Err(TargetFault::NoMemory) => Err(NoMemory),
    }
}
