// What the kinds of operators make of fractions and vectors. Nothing else in this crate asks which kind an operator is.
ghost use Rattle.std.specs.Prelude.{◌≡◌, ◌<◌, IfOk, map};
ghost use Rattle.ct_algebra.specs.Actions as actions;
ghost use Rattle.ct_algebra.specs.Actions.{by_action};
ghost use Rattle.ct_algebra.specs.Field.{coefficients};
ghost use Rattle.ct_algebra.specs.Names.{Name, name_with};
ghost use Rattle.ct_checked.specs.Checked.{Answers, AnswersBy};
ghost use Rattle.ct_frac.specs.Written.{value};
ghost use Rattle.ct_module.specs.Action.{checked_moved_product, checked_delta_by};
ghost use Rattle.ct_module.specs.Columns.{checked_negative_difference};
ghost use Rattle.ct_module.specs.Values.{differences_of, moved_product, negatives_of};
ghost use Rattle.ct_ore.specs.Naming.{action_of};

use crate::certificates::{differences, negatives};
use ct_frac::Frac;
use ct_mono::Fault;
use ct_ore::Action;
use std::alloc::Global;

/// σ(x)·y.
pub(crate) fn moved_product(
    alloc: Global,
    action: Action,
    i: u8,
    x: &Frac,
    y: &Frac,
) -> Result<Frac, Fault>
    requires { i < 6 }
    ensures steps { Answers (checked_moved_product (action_of action) (name_with i) x.now y.now) result }
    ensures value { IfOk result (λ r. (a : Name → actions.Action) → a (name_with i) ≡ action_of action → value r ≡ moved_product a (name_with i) x.now y.now) }
{
    match action {
        Action::Shift => x.sigma(alloc, i)?.mul(alloc, y),
        Action::Derive => x.mul(alloc, y),
        Action::Still => x.mul(alloc, y),
    }
}

/// δ(x).
pub(crate) fn delta(alloc: Global, action: Action, i: u8, x: &Frac) -> Result<Frac, Fault>
    requires { i < 6 }
    ensures steps { Answers (checked_delta_by (action_of action) (name_with i) x.now) result }
    ensures value { IfOk result (λ r. (a : Name → actions.Action) → a (name_with i) ≡ action_of action → value r ≡ (coefficients a).δ (name_with i) (value x.now)) }
{
    match action {
        Action::Shift => Ok(Frac::zero(alloc)?),
        Action::Derive => x.delta(alloc, i),
        Action::Still => Ok(Frac::zero(alloc)?),
    }
}

/// v − w for a shift, and −w for a derivation.
pub(crate) fn negative_difference(
    alloc: Global,
    action: Action,
    v: &[Frac],
    w: &[Frac],
) -> Result<Vec<Frac>, Fault>
    ensures steps { AnswersBy (λ u. u.items) (checked_negative_difference (action_of action) v.now w.now) result }
    ensures values { IfOk result (λ u. map value u.items ≡ by_action (action_of action) (differences_of v.now w.now) (negatives_of w.now) (negatives_of w.now)) }
{
    match action {
        Action::Shift => differences(alloc, v, w),
        Action::Derive => Ok(negatives(alloc, w)?),
        Action::Still => Ok(negatives(alloc, w)?),
    }
}
