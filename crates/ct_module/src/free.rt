// What the symbols of a monomial make of a vector.
ghost use Rattle.std.specs.Prelude.{◌≡◌, ◌<◌, IfOk, length, replicate};
ghost use Rattle.ct_algebra.specs.Names.{name_with};
ghost use Rattle.ct_checked.specs.Checked.{AnswersBy};
ghost use Rattle.ct_checked.specs.Traversal.{checked_fold};
ghost use Rattle.ct_module.specs.Action.{checked_act};
ghost use Rattle.ct_module.specs.Columns.{symbols_of, checked_free_column};
ghost use Rattle.ct_module.specs.Fitting.{HasLengths};
ghost use Rattle.ct_module.specs.Modules.{dimension};
ghost use Rattle.ct_module.specs.Values.{vector_of, rows_by_value, made_by};
ghost use Rattle.ct_ore.specs.Naming.{actions_of};
ghost use Rattle.ct_telescoping.specs.Staircase.{HasOperators};

use crate::copies::copied;
use crate::module::Module;
use ct_frac::Frac;
use ct_mono::{Fault, Monomial};
use ct_ore::Algebra;
use std::alloc::Global;

impl Module {
    /// What the symbols of a monomial make of a vector, those of the last name last: the column of a free monomial, with the vector for
    /// the start.
    #[tactic(auto, unfolding(crate::specs::Columns::checked_free_column))]
    pub fn free_column(
        &self,
        alloc: Global,
        algebra: &Algebra,
        start: &[Frac],
        m: &Monomial,
    ) -> Result<Vec<Frac>, Fault>
        requires lengths { HasLengths algebra.now self.now }
        requires vector { length start.now ≡ dimension self.now }
        requires operators { HasOperators (actions_of algebra.now) m.now }
        ensures steps { AnswersBy (λ w. w.items) (checked_free_column algebra.now self.now start.now m.now) result }
        ensures size { IfOk result (λ w. length w.items ≡ dimension self.now) }
        ensures means { IfOk result (λ w. vector_of (dimension self.now) w.items ≡ made_by (actions_of algebra.now) (dimension self.now) (rows_by_value self.now) (symbols_of m.now) (vector_of (dimension self.now) start.now)) }
    {
        let mut v = copied(alloc, start)?;
        'acting: for i in 0..algebra.infos().len() as u8 {
            v = self.acted_often(alloc, algebra, i, m.exp(i), v)?;
        }
        Ok(v)
    }

    // What a symbol makes of a vector, this often.
    fn acted_often(
        &self,
        alloc: Global,
        algebra: &Algebra,
        i: u8,
        times: u16,
        start: Vec<Frac>,
    ) -> Result<Vec<Frac>, Fault>
        requires lengths { HasLengths algebra.now self.now }
        requires name { i < length algebra.now }
        requires vector { length start.items ≡ dimension self.now }
        ensures steps { AnswersBy (λ w. w.items) (checked_fold (λ w j. checked_act algebra.now self.now j w) start.items (replicate times (name_with i))) result }
        ensures size { IfOk result (λ w. length w.items ≡ dimension self.now) }
        ensures means { IfOk result (λ w. vector_of (dimension self.now) w.items ≡ made_by (actions_of algebra.now) (dimension self.now) (rows_by_value self.now) (replicate times (name_with i)) (vector_of (dimension self.now) start.items)) }
    {
        let mut v = start;
        let mut left = times;
        'acting: while left > 0 {
            v = self.act(alloc, algebra, i, v.as_slice())?;
            left -= 1;
        }
        Ok(v)
    }
}
