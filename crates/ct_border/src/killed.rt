// Whether the images of the generators are zero.
ghost use Rattle.std.specs.Prelude.{◌≡◌, ◌<◌, ◌^◌, ◌↔◌, IfErr, IfSome, IsTrue, OnOk, length};
ghost use Rattle.std.specs.List.{All};
ghost use Rattle.ct_algebra.specs.Field.{field};
ghost use Rattle.ct_algebra.specs.FreeOf.{IsOver};
ghost use Rattle.ct_checked.specs.Checked.{AnswersAs};
ghost use Rattle.ct_frac.specs.Written.{value};
ghost use Rattle.ct_module.specs.Fitting.{HasLengths};
ghost use Rattle.ct_module.specs.Modules.{dimension};
ghost use Rattle.ct_module.specs.Values.{rows_by_value, vector_of};
ghost use Rattle.ct_ore.specs.Naming.{actions_of};
ghost use Rattle.ct_telescoping.specs.Vector.{unit_vector};
ghost use Rattle.ct_border.specs.Build.{all_zero, is_zero_fraction, killed_tests};
ghost use Rattle.ct_border.specs.BuildMeans.{IsKilled};
ghost use Rattle.ct_border.specs.BuildViews.{build_refusal_of};
ghost use Rattle.ct_border.specs.Modules.{IsUnkilled};

use crate::fault::BuildFault;
use ct_frac::Frac;
use ct_module::Module;
use ct_ore::{Algebra, Op};
use std::alloc::Global;

/// The image of each generator, in order.
pub(crate) fn killed(
    alloc: Global,
    algebra: &Algebra,
    generators: &[Op],
    space: &Module,
) -> Result<(), BuildFault>
    requires lengths { HasLengths algebra.now space.now }
    requires start { vector_of (dimension space.now) space.now.start ≡ unit_vector field (dimension space.now) 0 }
    requires count { length generators.now < 2 ^ 32 }
    requires operators { All (IsOver (actions_of algebra.now)) generators.now }
    ensures answers { AnswersAs build_refusal_of (λ u. u) (killed_tests algebra.now space.now generators.now) result }
    ensures means { OnOk result (All (IsKilled (actions_of algebra.now) (dimension space.now) (rows_by_value space.now)) generators.now) }
    ensures refused { IfErr result (λ f. IfSome (build_refusal_of f) (IsUnkilled (actions_of algebra.now) generators.now (dimension space.now) (rows_by_value space.now))) }
{
    let mut number = 0;
    let mut rest = generators;
    'going: while let Some((generator, more)) = rest.split_first() {
        number += 1;
        let image = space.image(alloc, algebra, space.start(), generator)?;
        if !all_zero(image.as_slice()) {
            return Err(BuildFault::NotKilled {
                generator: number,
                image,
            });
        }
        rest = more;
    }
    Ok(())
}

// Whether all entries are zero.
fn all_zero(v: &[Frac]) -> bool
    ensures steps { result ≡ all_zero v.now }
    ensures means { IsTrue result ↔ All (λ w. value w ≡ field.zero) v.now }
{
    let mut rest = v;
    'going: while let Some((f, more)) = rest.split_first() {
        if !is_zero(f) {
            return false;
        }
        rest = more;
    }
    true
}

fn is_zero(f: &Frac) -> bool
    ensures steps { result ≡ is_zero_fraction f.now }
    ensures means { IsTrue result ↔ (value f.now ≡ field.zero) }
{
    f.in_written_form();
    f.numerator().is_zero()
}
