// Whether the symbols commute on the rows.
ghost use Rattle.std.specs.Prelude.{◌≡◌, ◌≢◌, ℕ, ◌<◌, IfErr, IfOk, IfSome, OnOk, length, map};
ghost use Rattle.std.specs.List.{All};
ghost use Rattle.ct_algebra.specs.Actions.{Still};
ghost use Rattle.ct_algebra.specs.Field.{field, coefficients};
ghost use Rattle.ct_algebra.specs.Names.{name_with};
ghost use Rattle.ct_checked.specs.Checked.{AnswersAs, AnswersBy};
ghost use Rattle.ct_module.specs.Action.{checked_act};
ghost use Rattle.ct_module.specs.Fitting.{HasLengths};
ghost use Rattle.ct_module.specs.Modules.{dimension, row_of};
ghost use Rattle.ct_module.specs.Values.{rows_by_value, values};
ghost use Rattle.ct_ore.specs.Naming.{actions_of};
ghost use Rattle.ct_telescoping.specs.RowAction.{action};
ghost use Rattle.ct_telescoping.specs.Tested.{PassesTests};
ghost use Rattle.ct_border.specs.Build.{on_elements, on_pairs, commutes_test, commute_tests, closed_test};
ghost use Rattle.ct_border.specs.BuildViews.{build_refusal_of};
ghost use Rattle.ct_border.specs.Modules.{AreInOrder, CommuteAt, CommuteOnRows, IsUnclosed};

use crate::fault::BuildFault;
use crate::names::operator_numbers;
use ct_frac::Frac;
use ct_module::{Module, copy_of};
use ct_mono::Fault;
use ct_ore::Algebra;
use std::alloc::Global;

/// Each two symbols of names with operators, on each row: names in order, elements rising.
pub(crate) fn closed(alloc: Global, algebra: &Algebra, space: &Module) -> Result<(), BuildFault>
    requires { HasLengths algebra.now space.now }
    ensures answers { AnswersAs build_refusal_of (λ u. u) (closed_test algebra.now space.now) result }
    ensures means { OnOk result (PassesTests (actions_of algebra.now) (dimension space.now) (rows_by_value space.now)) }
    ensures refused { IfErr result (λ f. IfSome (build_refusal_of f) (IsUnclosed (actions_of algebra.now) (dimension space.now) (rows_by_value space.now))) }
{
    let names = operator_numbers(alloc, algebra)?;
    let mut rest = names.as_slice();
    'going: while let Some((first, others)) = rest.split_first() {
        commutes_with_each(alloc, algebra, space, *first, others)?;
        rest = others;
    }
    Ok(())
}

// A name against each of the others.
fn commutes_with_each(
    alloc: Global,
    algebra: &Algebra,
    space: &Module,
    first: u8,
    others: &[u8],
) -> Result<(), BuildFault>
    requires lengths { HasLengths algebra.now space.now }
    requires names { All (AreInOrder (actions_of algebra.now) first) others.now }
    ensures answers { AnswersAs build_refusal_of (λ u. u) (commute_tests algebra.now space.now (on_pairs (dimension space.now) (map (λ j. (first, j)) others.now))) result }
    ensures means { OnOk result (All (CommuteOnRows (actions_of algebra.now) (dimension space.now) (rows_by_value space.now) first) others.now) }
    ensures refused { IfErr result (λ f. IfSome (build_refusal_of f) (IsUnclosed (actions_of algebra.now) (dimension space.now) (rows_by_value space.now))) }
{
    let mut rest = others;
    'going: while let Some((second, more)) = rest.split_first() {
        commutes_on_rows(alloc, algebra, space, first, *second)?;
        rest = more;
    }
    Ok(())
}

// Two symbols on each row.
fn commutes_on_rows(
    alloc: Global,
    algebra: &Algebra,
    space: &Module,
    first: u8,
    second: u8,
) -> Result<(), BuildFault>
    requires lengths { HasLengths algebra.now space.now }
    requires names { AreInOrder (actions_of algebra.now) first second }
    ensures answers { AnswersAs build_refusal_of (λ u. u) (commute_tests algebra.now space.now (on_elements (dimension space.now) (first, second))) result }
    ensures means { OnOk result (CommuteOnRows (actions_of algebra.now) (dimension space.now) (rows_by_value space.now) first second) }
    ensures refused { IfErr result (λ f. IfSome (build_refusal_of f) (IsUnclosed (actions_of algebra.now) (dimension space.now) (rows_by_value space.now))) }
{
    'going: for element in 0..space.basis().len() {
        commutes(alloc, algebra, space, first, second, element)?;
    }
    Ok(())
}

// Two symbols on the row of an element, entry by entry.
#[tactic(auto, unfolding(crate::specs::Build::commutes_test))]
fn commutes(
    alloc: Global,
    algebra: &Algebra,
    space: &Module,
    first: u8,
    second: u8,
    element: usize,
) -> Result<(), BuildFault>
    requires lengths { HasLengths algebra.now space.now }
    requires names { AreInOrder (actions_of algebra.now) first second }
    requires in_range { element < dimension space.now }
    ensures answers { AnswersAs build_refusal_of (λ u. u) (commutes_test algebra.now space.now ((first, second), element)) result }
    ensures means { OnOk result ((c : ℕ) → c < dimension space.now → CommuteAt (actions_of algebra.now) (dimension space.now) (rows_by_value space.now) first second element c) }
    ensures refused { IfErr result (λ f. IfSome (build_refusal_of f) (IsUnclosed (actions_of algebra.now) (dimension space.now) (rows_by_value space.now))) }
{
    let one = acted_row(alloc, algebra, space, first, second, element)?;
    let other = acted_row(alloc, algebra, space, second, first, element)?;
    let mut place = 0;
    let mut left = one.as_slice();
    let mut right = other.as_slice();
    'comparing: while let Some((x, more)) = left.split_first() {
        let Some((y, others)) = right.split_first() else {
            return Ok(());
        };
        if !x.same_value(alloc, y)? {
            return Err(BuildFault::NotClosed {
                first,
                second,
                element: element as u8,
                place,
                one: copy_of(alloc, x)?,
                other: copy_of(alloc, y)?,
            });
        }
        place += 1;
        left = more;
        right = others;
    }
    Ok(())
}

// What the symbol of the name j makes of the row of the name i.
fn acted_row(
    alloc: Global,
    algebra: &Algebra,
    space: &Module,
    i: u8,
    j: u8,
    element: usize,
) -> Result<Vec<Frac>, Fault>
    requires lengths { HasLengths algebra.now space.now }
    requires row { i < 6 }
    requires has_rows { actions_of algebra.now (name_with i) ≢ Still }
    requires symbol { j < length algebra.now }
    requires in_range { element < dimension space.now }
    ensures steps { AnswersBy (λ w. w.items) (checked_act algebra.now space.now (name_with j) (row_of space.now (name_with i) element)) result }
    ensures size { IfOk result (λ w. length w.items ≡ dimension space.now) }
    ensures means { IfOk result (λ w. (c : ℕ) → c < dimension space.now → values w.items c ≡ action field (coefficients (actions_of algebra.now)) (dimension space.now) (rows_by_value space.now) (name_with j) (rows_by_value space.now (name_with i) element) c) }
{
    let row = &space.rows(i)[element];
    space.act(alloc, algebra, j, row.as_slice())
}
