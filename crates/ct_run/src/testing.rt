// The output of `test`.
ghost use Rattle.std.specs.Prelude.{◌≡◌, false, IfOk};
ghost use Rattle.ct_problem.specs.ReadProblem.{reading_of};
ghost use Rattle.ct_setup.specs.Setup.{has_lists};
ghost use Rattle.ct_run.specs.Output.{output_of};
ghost use Rattle.ct_run.specs.Ready.{IsReadyWhere};
ghost use Rattle.ct_run.specs.Testing as spec;

use crate::output::Output;
use crate::refusals::refused_setup;
use crate::status::Outcome;
use ct_answer::print_tested;
use ct_io::NoMemory;
use ct_problem::Problem;
use ct_setup::prepare;
use std::alloc::Global;

/// The output for a problem without `let` and `use` lines.
#[tactic(auto, unfolding(crate::specs::Testing::tested_problem))]
pub(crate) fn answer_test(alloc: Global, problem: &Problem) -> Result<Output, NoMemory>
    requires { has_lists (reading_of problem.now) ≡ false }
    ensures value { IfOk result (λ output. output_of output ≡ spec.tested_problem (reading_of problem.now)) }
    ensures ready { IfOk result (λ output. IsReadyWhere output.outcome (reading_of problem.now)) }
{
    match prepare(alloc, problem) {
        Ok(ready) => Ok(Output {
            outcome: Outcome::Done,
            text: print_tested(
                alloc,
                &problem.algebra,
                ready.setting.module.basis.as_slice(),
            )?,
        }),
        Err(fault) => refused_setup(alloc, problem, fault),
    }
}
