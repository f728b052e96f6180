// Problems that are prepared.
ghost use Rattle.std.specs.Prelude.{◌≡◌, false, IfErr, IfOk, IfSome};
ghost use Rattle.ct_checked.specs.Checked.{AnswersAs};
ghost use Rattle.ct_problem.specs.ReadProblem.{reading_of};
ghost use Rattle.ct_setup.specs.Setup as spec;
ghost use Rattle.ct_setup.specs.SetupMeans.{IsPrepared, IsRefusedSetup};
ghost use Rattle.ct_setup.specs.SetupViews.{setup_refusal_of, prepared_of, IsSetupFault};

use crate::copies::copy_of;
use crate::denominators::denominators;
use crate::expressions::{generators, values};
use crate::fault::SetupFault;
use crate::testing::tested;
use ct_module::Setting;
use ct_ore::Op;
use ct_problem::Problem;
use std::alloc::Global;

/// The module of tested generators with what is given for the denominators, the generators, and the targets.
#[derive(Drop)]
pub struct Ready {
    pub setting: Setting,
    pub generators: Vec<Op>,
    pub targets: Vec<Op>,
}

/// The `gen`, `den` and `target` lines of a problem without `let` and `use` lines are worked in this order. The first expression that
/// overflows, or `den` line whose value is zero, ends it. Then the generators are tested.
#[tactic(auto, unfolding(crate::specs::Setup::checked_setup))]
pub fn prepare(alloc: Global, problem: &Problem) -> Result<Ready, SetupFault>
    requires { spec.has_lists (reading_of problem.now) ≡ false }
    ensures answers { AnswersAs setup_refusal_of prepared_of (spec.checked_setup (reading_of problem.now)) result }
    ensures prepared { IfOk result (λ ready. IsPrepared (reading_of problem.now) (prepared_of ready)) }
    ensures told { IfErr result IsSetupFault }
    ensures refused { IfErr result (λ f. IfSome (setup_refusal_of f) (λ r. IsRefusedSetup (reading_of problem.now) r)) }
{
    let algebra = &problem.algebra;
    let generators = generators(alloc, problem)?;
    let dens = denominators(alloc, algebra, problem.dens.as_slice())?;
    let targets = values(alloc, algebra, problem.targets.as_slice())?;
    let module = tested(alloc, algebra, generators.as_slice())?;
    let algebra = copy_of(alloc, algebra)?;
    Ok(Ready {
        setting: Setting {
            algebra,
            module,
            dens,
        },
        generators,
        targets,
    })
}
