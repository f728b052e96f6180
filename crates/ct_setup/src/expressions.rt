// The values of expressions, in the order of the text.
ghost use Rattle.std.specs.Prelude.{◌≡◌, ◌<◌, ◌++◌, ◌^◌, [], ◌∷◌, IfOk, OnOk, length};
ghost use Rattle.std.specs.List.{All};
ghost use Rattle.ct_algebra.specs.FreeOf.{IsOver};
ghost use Rattle.ct_border.specs.BuildViews.{OperatorFits};
ghost use Rattle.ct_checked.specs.Checked.{AnswersBy};
ghost use Rattle.ct_ore.specs.Naming.{actions_of};
ghost use Rattle.ct_problem.specs.WellFormed.{Each, IsOperator};
ghost use Rattle.ct_setup.specs.Setup as spec;

use crate::lines::listed;
use ct_mono::Fault;
use ct_ore::{Algebra, Op};
use ct_problem::{Expr, Problem, evaluate};
use std::alloc::{AllocError, Global};

/// The values of expressions, in order.
pub fn values(alloc: Global, algebra: &Algebra, exprs: &[Expr]) -> Result<Vec<Op>, Fault>
    requires { Each (IsOperator algebra.now) exprs.now }
    ensures { AnswersBy (λ v. v.items) (spec.checked_values (actions_of algebra.now) exprs.now) result }
{
    let mut done = Vec::new(alloc);
    let mut rest = exprs;
    'valuing: loop {
        let Some((expr, more)) = rest.split_first() else {
            return Ok(done);
        };
        let value = evaluate(alloc, algebra, expr)?;
        append(&mut done, value)?;
        rest = more;
    }
}

/// The values of `gen` lines.
pub(crate) fn generators(alloc: Global, problem: &Problem) -> Result<Vec<Op>, Fault>
    ensures answers { AnswersBy (λ v. v.items) (spec.checked_values (actions_of problem.now.algebra) (spec.listed problem.now.gens)) result }
    ensures count { IfOk result (λ v. length v.items < 2 ^ 32) }
    ensures operators { IfOk result (λ v. All (IsOver (actions_of problem.now.algebra)) v.items) }
    ensures names { IfOk result (λ v. All (OperatorFits (length problem.now.algebra)) v.items) }
{
    values(alloc, &problem.algebra, listed(&problem.gens))
}

pub(crate) fn append<T: Drop>(values: &mut Vec<T>, value: T) -> Result<(), AllocError>
    ensures { OnOk result (values.new.items ≡ values.old.items ++ value ∷ []) }
{
    values.push(value)?;
    Ok(())
}
