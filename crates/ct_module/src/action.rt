// What the symbol of a name makes of a vector.
ghost use Rattle.std.specs.Prelude.{◌≡◌, ℕ, ◌<◌, IfOk, length};
ghost use Rattle.std.specs.List.{All, zip};
ghost use Rattle.ct_algebra.specs.Actions as actions;
ghost use Rattle.ct_algebra.specs.Field.{field};
ghost use Rattle.ct_algebra.specs.Names.{Name, name_with};
ghost use Rattle.ct_checked.specs.Checked.{Answers, AnswersBy};
ghost use Rattle.ct_checked.specs.Traversal.{checked_fold};
ghost use Rattle.ct_frac.specs.Written.{value};
ghost use Rattle.ct_module.specs.Action.{checked_share, entries_at, checked_entry, checked_action, checked_act};
ghost use Rattle.ct_module.specs.Fitting.{HasLengths};
ghost use Rattle.ct_module.specs.Modules.{dimension, entry, written_zero};
ghost use Rattle.ct_module.specs.Values.{values, vector_of, rows_by_value, moved_product, moved_sum, acted_entry};
ghost use Rattle.ct_module.specs.Views.{rows_in};
ghost use Rattle.ct_ore.specs.Naming.{action_of, actions_of};
ghost use Rattle.ct_telescoping.specs.Tested.{acted};

use crate::copies::append;
use crate::kinds::{delta, moved_product};
use crate::module::Module;
use ct_frac::Frac;
use ct_mono::Fault;
use ct_ore::{Action, Algebra};
use std::alloc::Global;

impl Module {
    /// What the symbol of a name makes of a vector.
    pub fn act(
        &self,
        alloc: Global,
        algebra: &Algebra,
        i: u8,
        v: &[Frac],
    ) -> Result<Vec<Frac>, Fault>
        requires lengths { HasLengths algebra.now self.now }
        requires name { i < length algebra.now }
        requires vector { length v.now ≡ dimension self.now }
        ensures steps { AnswersBy (λ w. w.items) (checked_act algebra.now self.now (name_with i) v.now) result }
        ensures size { IfOk result (λ w. length w.items ≡ dimension self.now) }
        ensures means { IfOk result (λ w. vector_of (dimension self.now) w.items ≡ acted (actions_of algebra.now) (dimension self.now) (rows_by_value self.now) (name_with i) (vector_of (dimension self.now) v.now)) }
    {
        let info = &algebra.infos()[i as usize];
        entries(alloc, info.action, i, self.rows(i), v)
    }
}

// All entries, elements rising.
fn entries(
    alloc: Global,
    action: Action,
    i: u8,
    rows: &[Vec<Frac>],
    v: &[Frac],
) -> Result<Vec<Frac>, Fault>
    requires name { i < 6 }
    requires filled { All (λ row. length row.items ≡ length v.now) rows.now }
    ensures steps { AnswersBy (λ w. w.items) (checked_action (action_of action) (name_with i) (rows_in rows.now) v.now) result }
    ensures value { IfOk result (λ w. (a : Name → actions.Action) → a (name_with i) ≡ action_of action → (c : ℕ) → c < length v.now → values w.items c ≡ acted_entry a (name_with i) v.now (rows_in rows.now) c) }
{
    let mut made = Vec::with_capacity(alloc, v.len())?;
    'going: for element in 0..v.len() {
        append(&mut made, entry(alloc, action, i, rows, v, element)?)?;
    }
    Ok(made)
}

// The entry at an element.
#[tactic(auto, unfolding(crate::specs::Action::checked_entry))]
fn entry(
    alloc: Global,
    action: Action,
    i: u8,
    rows: &[Vec<Frac>],
    v: &[Frac],
    element: usize,
) -> Result<Frac, Fault>
    requires name { i < 6 }
    requires filled { All (λ row. length row.items ≡ length v.now) rows.now }
    requires in_range { element < length v.now }
    ensures steps { Answers (checked_entry (action_of action) (name_with i) (rows_in rows.now) v.now element) result }
    ensures value { IfOk result (λ r. (a : Name → actions.Action) → a (name_with i) ≡ action_of action → value r ≡ acted_entry a (name_with i) v.now (rows_in rows.now) element) }
{
    let sum = shares(alloc, action, i, rows, v, element)?;
    let derivative = delta(alloc, action, i, &v[element])?;
    sum.add(alloc, &derivative)
}

// The sum of what the elements' rows give at an element.
fn shares(
    alloc: Global,
    action: Action,
    i: u8,
    rows: &[Vec<Frac>],
    v: &[Frac],
    element: usize,
) -> Result<Frac, Fault>
    requires name { i < 6 }
    requires filled { All (λ row. element < length row.items) rows.now }
    ensures steps { Answers (checked_fold (checked_share (action_of action) (name_with i)) written_zero (zip v.now (entries_at element (rows_in rows.now)))) result }
    ensures value { IfOk result (λ r. (a : Name → actions.Action) → a (name_with i) ≡ action_of action → value r ≡ moved_sum a (name_with i) v.now (rows_in rows.now) element) }
{
    let mut sum = Frac::zero(alloc)?;
    let mut left = v;
    let mut rest = rows;
    'adding: while let Some((x, more)) = left.split_first() {
        let Some((row, others)) = rest.split_first() else {
            return Ok(sum);
        };
        sum = with_share(alloc, action, i, &sum, x, row.as_slice(), element)?;
        left = more;
        rest = others;
    }
    Ok(sum)
}

// A sum, and what one element's row gives.
fn with_share(
    alloc: Global,
    action: Action,
    i: u8,
    sum: &Frac,
    x: &Frac,
    row: &[Frac],
    element: usize,
) -> Result<Frac, Fault>
    requires name { i < 6 }
    requires in_range { element < length row.now }
    ensures steps { Answers (checked_share (action_of action) (name_with i) sum.now (x.now, entry row.now element)) result }
    ensures value { IfOk result (λ r. (a : Name → actions.Action) → a (name_with i) ≡ action_of action → value r ≡ field.◌+◌ (value sum.now) (moved_product a (name_with i) x.now (entry row.now element))) }
{
    let product = moved_product(alloc, action, i, x, &row[element])?;
    sum.add(alloc, &product)
}
