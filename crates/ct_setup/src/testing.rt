// The test of a list of generators.
ghost use Rattle.std.specs.Prelude.{◌≡◌, ◌<◌, ◌^◌, IfErr, IfOk, IfSome, None, length};
ghost use Rattle.std.specs.List.{All};
ghost use Rattle.std.specs.Option.{option_map};
ghost use Rattle.ct_algebra.specs.FreeOf.{IsOver};
ghost use Rattle.ct_border.specs.Build.{checked_build};
ghost use Rattle.ct_border.specs.BuildViews.{build_refusal_of, OperatorFits};
ghost use Rattle.ct_checked.specs.Checked.{AnswersAs, refused_as};
ghost use Rattle.ct_module.specs.Fitting.{ModuleFits};
ghost use Rattle.ct_module.specs.Tested.{IsTestedModule};
ghost use Rattle.ct_ore.specs.Naming.{actions_of};
ghost use Rattle.ct_setup.specs.Setup.{refused_test};
ghost use Rattle.ct_setup.specs.SetupMeans.{IsUntested};
ghost use Rattle.ct_setup.specs.SetupViews.{of_test, setup_refusal_of, IsSetupFault};

use crate::fault::{SetupFault, SetupPhase};
use ct_border::{BuildFault, StairFault, build};
use ct_module::Module;
use ct_mono::Fault;
use ct_ore::{Algebra, Op};
use std::alloc::Global;

/// The module of generators.
pub(crate) fn tested(
    alloc: Global,
    algebra: &Algebra,
    generators: &[Op],
) -> Result<Module, SetupFault>
    requires count { length generators.now < 2 ^ 32 }
    requires operators { All (IsOver (actions_of algebra.now)) generators.now }
    requires names { All (OperatorFits (length algebra.now)) generators.now }
    ensures answers { AnswersAs setup_refusal_of (λ m. m) (refused_as (refused_test None) (checked_build algebra.now generators.now)) result }
    ensures certified { IfOk result (λ m. IsTestedModule algebra.now generators.now m) }
    ensures fits { IfOk result (λ m. ModuleFits algebra.now m) }
    ensures told { IfErr result IsSetupFault }
    ensures refused { IfErr result (λ f. IfSome (setup_refusal_of f) (λ r. IsUntested (actions_of algebra.now) generators.now r)) }
{
    match build(alloc, algebra, generators) {
        Ok(module) => Ok(module),
        Err(fault) => Err(refused(None, fault)),
    }
}

/// Why the generators, or those of the list with this number, are refused.
fn refused(named: Option<u8>, fault: BuildFault) -> SetupFault
    ensures refusal { setup_refusal_of result ≡ option_map (refused_test named) (build_refusal_of fault) }
    ensures told { IsSetupFault result }
{
    match fault {
        BuildFault::Stair(StairFault::Fault(fault)) | BuildFault::Fault(fault) => of_test(fault),
        fault => SetupFault::Build { named, fault },
    }
}

fn of_test(fault: Fault) -> SetupFault
    ensures { result ≡ of_test fault }
{
    match fault {
        Fault::Overflow(kind) => SetupFault::Overflow(SetupPhase::Test, kind),
        Fault::NoMemory => SetupFault::NoMemory,
    }
}
