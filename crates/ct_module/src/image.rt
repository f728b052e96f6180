// What operators make of vectors, and sums of vectors with coefficients.
ghost use Rattle.std.specs.Prelude.{◌≡◌, ℕ, ◌<◌, IfOk, length, replicate};
ghost use Rattle.ct_algebra.specs.Field.{field};
ghost use Rattle.ct_algebra.specs.FieldLaws.{embedded};
ghost use Rattle.ct_algebra.specs.FreeOf.{IsOver};
ghost use Rattle.ct_checked.specs.Checked.{Answers, AnswersBy};
ghost use Rattle.ct_frac.specs.Written.{value, whole_polynomial};
ghost use Rattle.ct_module.specs.Columns.{symbols_of, checked_free_column};
ghost use Rattle.ct_module.specs.Combination.{checked_with_entry, checked_with, checked_term, checked_image};
ghost use Rattle.ct_module.specs.Fitting.{HasLengths};
ghost use Rattle.ct_module.specs.Modules.{dimension, written_zero};
ghost use Rattle.ct_module.specs.Values.{values, vector_of, rows_by_value, made_by};
ghost use Rattle.ct_ore.specs.Naming.{actions_of};
ghost use Rattle.ct_telescoping.specs.Staircase.{HasOperators};
ghost use Rattle.ct_telescoping.specs.Tested.{combined};
ghost use Rattle.ct_telescoping.specs.Vector.{plus_vector};
ghost use Rattle.ct_telescoping.specs.VectorModule.{scale_vector};

use crate::copies::append;
use crate::module::Module;
use ct_frac::Frac;
use ct_mono::{Fault, NoMemory};
use ct_ore::{Algebra, Op, OpTerm};
use std::alloc::Global;

impl Module {
    /// What an operator makes of a vector: over its terms, falling, the sum of the coefficient times what the symbols make of it.
    #[tactic(auto, unfolding(crate::specs::Combination::checked_image))]
    pub fn image(
        &self,
        alloc: Global,
        algebra: &Algebra,
        start: &[Frac],
        op: &Op,
    ) -> Result<Vec<Frac>, Fault>
        requires lengths { HasLengths algebra.now self.now }
        requires vector { length start.now ≡ dimension self.now }
        requires operators { IsOver (actions_of algebra.now) op.now }
        ensures steps { AnswersBy (λ w. w.items) (checked_image algebra.now self.now start.now op.now) result }
        ensures size { IfOk result (λ w. length w.items ≡ dimension self.now) }
        ensures means { IfOk result (λ w. vector_of (dimension self.now) w.items ≡ combined (λ m. made_by (actions_of algebra.now) (dimension self.now) (rows_by_value self.now) (symbols_of m) (vector_of (dimension self.now) start.now)) op.now) }
    {
        let mut sum = zeros(alloc, self.basis().len())?;
        let mut rest = op.terms();
        'adding: while let Some((t, more)) = rest.split_first() {
            sum = self.with_term(alloc, algebra, start, sum.as_slice(), t)?;
            rest = more;
        }
        Ok(sum)
    }

    // A sum, and what one term makes of a vector.
    fn with_term(
        &self,
        alloc: Global,
        algebra: &Algebra,
        start: &[Frac],
        sum: &[Frac],
        t: &OpTerm,
    ) -> Result<Vec<Frac>, Fault>
        requires lengths { HasLengths algebra.now self.now }
        requires vector { length start.now ≡ dimension self.now }
        requires operators { HasOperators (actions_of algebra.now) t.now.mono }
        requires sum { length sum.now ≡ dimension self.now }
        ensures steps { AnswersBy (λ w. w.items) (checked_term (checked_free_column algebra.now self.now start.now) sum.now (t.now.mono, whole_polynomial t.now.coef)) result }
        ensures size { IfOk result (λ w. length w.items ≡ dimension self.now) }
        ensures means { IfOk result (λ w. vector_of (dimension self.now) w.items ≡ plus_vector field.group (dimension self.now) (vector_of (dimension self.now) sum.now) (scale_vector field (dimension self.now) (embedded t.now.coef) (made_by (actions_of algebra.now) (dimension self.now) (rows_by_value self.now) (symbols_of t.now.mono) (vector_of (dimension self.now) start.now)))) }
    {
        let v = self.free_column(alloc, algebra, start, &t.mono)?;
        let q = Frac::of_poly(alloc, t.coef.copy(alloc)?)?;
        added(alloc, sum, &q, v.as_slice())
    }
}

/// A vector of zeros.
pub fn zeros(alloc: Global, dimension: usize) -> Result<Vec<Frac>, NoMemory>
    ensures { IfOk result (λ v. v.items ≡ replicate dimension written_zero) }
{
    let mut v = Vec::with_capacity(alloc, dimension)?;
    let mut left = dimension;
    'filling: while left > 0 {
        append(&mut v, Frac::zero(alloc)?)?;
        left -= 1;
    }
    Ok(v)
}

/// A sum, with a fraction times a vector added entry by entry.
pub fn added(alloc: Global, sum: &[Frac], q: &Frac, v: &[Frac]) -> Result<Vec<Frac>, Fault>
    requires { length sum.now ≡ length v.now }
    ensures steps { AnswersBy (λ w. w.items) (checked_with q.now sum.now v.now) result }
    ensures size { IfOk result (λ w. length w.items ≡ length v.now) }
    ensures value { IfOk result (λ w. (k : ℕ) → k < length v.now → values w.items k ≡ field.◌+◌ (values sum.now k) (field.◌*◌ (value q.now) (values v.now k))) }
{
    let mut made = Vec::with_capacity(alloc, sum.len())?;
    let mut left = sum;
    let mut right = v;
    'adding: while let Some((x, more)) = left.split_first() {
        let Some((y, others)) = right.split_first() else {
            return Ok(made);
        };
        append(&mut made, with_product(alloc, x, q, y)?)?;
        left = more;
        right = others;
    }
    Ok(made)
}

// x + q·y.
fn with_product(alloc: Global, x: &Frac, q: &Frac, y: &Frac) -> Result<Frac, Fault>
    ensures steps { Answers (checked_with_entry q.now (x.now, y.now)) result }
    ensures value { IfOk result (λ r. value r ≡ field.◌+◌ (value x.now) (field.◌*◌ (value q.now) (value y.now))) }
{
    let product = q.mul(alloc, y)?;
    x.add(alloc, &product)
}
