// The rows of a module: normal forms of symbols times elements.
ghost use Rattle.std.specs.Prelude.{◌≡◌, ◌≢◌, ◌<◌, ◌∷◌, [], IfOk, OnOk, length};
ghost use Rattle.std.specs.List.{All};
ghost use Rattle.ct_algebra.specs.Actions.{Still};
ghost use Rattle.ct_algebra.specs.FreeOf.{IsOver};
ghost use Rattle.ct_algebra.specs.Names.{name_with};
ghost use Rattle.ct_checked.specs.Checked.{AnswersBy, Answers};
ghost use Rattle.ct_module.specs.Fitting.{HasLengths, ModuleFits};
ghost use Rattle.ct_module.specs.Values.{rows_by_value, vector_of};
ghost use Rattle.ct_module.specs.Views.{rows_in};
ghost use Rattle.ct_ore.specs.Naming.{actions_of};
ghost use Rattle.ct_border.specs.Build.{checked_module, checked_moved_elements, checked_rows_of};
ghost use Rattle.ct_border.specs.BuildMeans.{AreItsRows, element_at};
ghost use Rattle.ct_border.specs.BuildViews.{OperatorFits};
ghost use Rattle.ct_border.specs.Known.{IsKnown};
ghost use Rattle.ct_border.specs.Modules.{AreMovedElements, AreRowsOf, IsFormModule};
ghost use Rattle.ct_border.specs.StaircaseMeans.{HasStaircase};

use crate::forms::{Known, normal_form, unit_at};
use crate::ideal::Ideal;
use crate::names::has_operator;
use crate::remaining::append;
use ct_frac::{Fault, Frac};
use ct_module::Module;
use ct_mono::Monomial;
use std::alloc::Global;

/// The module of generators with a staircase. Its symbols need not commute.
#[tactic(auto, unfolding(crate::specs::Build::checked_module))]
pub(crate) fn module_of(alloc: Global, ideal: &Ideal<'_>) -> Result<Module, Fault>
    requires staircase { HasStaircase (actions_of ideal.now.algebra.now) ideal.now.generators.now ideal.now.basis.now }
    requires over { All (IsOver (actions_of ideal.now.algebra.now)) ideal.now.generators.now }
    requires names { All (OperatorFits (length ideal.now.algebra.now)) ideal.now.generators.now }
    ensures steps { Answers (checked_module ideal.now.algebra.now ideal.now.generators.now ideal.now.basis.now) result }
    ensures means { IfOk result (λ m. IsFormModule ideal.now.algebra.now ideal.now.generators.now ideal.now.basis.now m) }
    ensures fits { IfOk result (λ m. ModuleFits ideal.now.algebra.now m) }
{
    let mut known = Vec::new(alloc);
    let mut rows = Vec::with_capacity(alloc, ideal.algebra.infos().len())?;
    'going: for i in 0..ideal.algebra.count() {
        append(&mut rows, rows_of(alloc, ideal, &mut known, i)?)?;
    }
    let start = unit_at(alloc, ideal.basis, &Monomial::one())?;
    let basis = Vec::from_slice(alloc, ideal.basis)?;
    Ok(Module { basis, rows, start })
}

// The rows of a name, which are none where it has no operator.
fn rows_of(
    alloc: Global,
    ideal: &Ideal<'_>,
    known: &mut Vec<Known>,
    i: u8,
) -> Result<Vec<Vec<Frac>>, Fault>
    requires name { i < 6 }
    requires staircase { HasStaircase (actions_of ideal.now.algebra.now) ideal.now.generators.now ideal.now.basis.now }
    requires over { All (IsOver (actions_of ideal.now.algebra.now)) ideal.now.generators.now }
    requires known { All (IsKnown (actions_of ideal.now.algebra.now) ideal.now.generators.now ideal.now.basis.now) known.old.items }
    ensures steps { AnswersBy (λ rows. rows_in rows.items) (checked_rows_of (actions_of ideal.now.algebra.now) ideal.now.generators.now ideal.now.basis.now (name_with i)) result }
    ensures means { IfOk result (λ rows. AreRowsOf (actions_of ideal.now.algebra.now) ideal.now.generators.now ideal.now.basis.now (name_with i) (rows_in rows.items)) }
    ensures known { OnOk result (All (IsKnown (actions_of ideal.now.algebra.now) ideal.now.generators.now ideal.now.basis.now) known.new.items) }
{
    if !has_operator(ideal.algebra, i) {
        return Ok(Vec::new(alloc));
    }
    moved_elements(alloc, ideal, known, i)
}

// The normal forms of a symbol times the elements.
fn moved_elements(
    alloc: Global,
    ideal: &Ideal<'_>,
    known: &mut Vec<Known>,
    i: u8,
) -> Result<Vec<Vec<Frac>>, Fault>
    requires name { i < 6 }
    requires acts { actions_of ideal.now.algebra.now (name_with i) ≢ Still }
    requires staircase { HasStaircase (actions_of ideal.now.algebra.now) ideal.now.generators.now ideal.now.basis.now }
    requires over { All (IsOver (actions_of ideal.now.algebra.now)) ideal.now.generators.now }
    requires known { All (IsKnown (actions_of ideal.now.algebra.now) ideal.now.generators.now ideal.now.basis.now) known.old.items }
    ensures steps { AnswersBy (λ rows. rows_in rows.items) (checked_moved_elements (actions_of ideal.now.algebra.now) ideal.now.generators.now ideal.now.basis.now (name_with i)) result }
    ensures means { IfOk result (λ rows. AreMovedElements (actions_of ideal.now.algebra.now) ideal.now.generators.now ideal.now.basis.now (name_with i) (length ideal.now.basis.now) (rows_in rows.items)) }
    ensures known { OnOk result (All (IsKnown (actions_of ideal.now.algebra.now) ideal.now.generators.now ideal.now.basis.now) known.new.items) }
{
    let mut rows = Vec::with_capacity(alloc, ideal.basis.len())?;
    let symbol = Monomial::name(i);
    'going: for b in 0..ideal.basis.len() {
        let moved = symbol.product(&ideal.basis[b]);
        append(&mut rows, normal_form(alloc, ideal, known, &moved)?)?;
    }
    Ok(rows)
}
