// The module of tested generators.
ghost use Rattle.std.specs.Prelude.{◌<◌, ◌^◌, IfErr, IfOk, IfSome, length};
ghost use Rattle.std.specs.List.{All};
ghost use Rattle.ct_algebra.specs.FreeOf.{IsOver};
ghost use Rattle.ct_checked.specs.Checked.{AnswersAs};
ghost use Rattle.ct_module.specs.Fitting.{ModuleFits};
ghost use Rattle.ct_module.specs.Modules.{dimension};
ghost use Rattle.ct_module.specs.Tested.{element_of, IsTestedModule};
ghost use Rattle.ct_module.specs.Values.{rows_by_value};
ghost use Rattle.ct_ore.specs.Naming.{actions_of};
ghost use Rattle.ct_telescoping.specs.StaircaseLaws.{GivesModule};
ghost use Rattle.ct_border.specs.Build.{checked_build};
ghost use Rattle.ct_border.specs.BuildMeans.{IsRefusedRightly};
ghost use Rattle.ct_border.specs.BuildViews.{build_refusal_of, OperatorFits};

use crate::closed::closed;
use crate::fault::BuildFault;
use crate::ideal::Ideal;
use crate::killed::killed;
use crate::rows::module_of;
use crate::search::staircase;
use ct_module::Module;
use ct_ore::{Algebra, Op};
use std::alloc::Global;

/// The module of generators: their staircase, the rows of normal forms, and the unit vector of 1. It is refused, in this order: where
/// there is no staircase; where a row overflows; where symbols don't commute on a row; where the image of a generator isn't zero. The
/// tests may overflow too, each in its turn.
#[tactic(auto, unfolding(crate::specs::Build::checked_build))]
pub fn build(alloc: Global, algebra: &Algebra, generators: &[Op]) -> Result<Module, BuildFault>
    requires count { length generators.now < 2 ^ 32 }
    requires operators { All (IsOver (actions_of algebra.now)) generators.now }
    requires names { All (OperatorFits (length algebra.now)) generators.now }
    ensures answers { AnswersAs build_refusal_of (λ m. m) (checked_build algebra.now generators.now) result }
    ensures certified { IfOk result (λ m. IsTestedModule algebra.now generators.now m) }
    ensures laws { IfOk result (λ m. GivesModule (actions_of algebra.now) generators.now (dimension m) (element_of m) (rows_by_value m)) }
    ensures fits { IfOk result (λ m. ModuleFits algebra.now m) }
    ensures refused { IfErr result (λ f. IfSome (build_refusal_of f) (λ r. IsRefusedRightly (actions_of algebra.now) generators.now r)) }
{
    let basis = staircase(alloc, algebra, generators)?;
    let ideal = Ideal {
        algebra,
        generators,
        basis: basis.as_slice(),
    };
    let module = module_of(alloc, &ideal)?;
    closed(alloc, algebra, &module)?;
    killed(alloc, algebra, generators, &module)?;
    Ok(module)
}
