// The values of expressions without symbols, as polynomials.
ghost use Rattle.std.specs.Prelude.{◌≡◌, IfOk, IsTrue};
ghost use Rattle.ct_algebra.specs.Monomial.{unit};
ghost use Rattle.ct_algebra.specs.Operators.{polynomial_at};
ghost use Rattle.ct_checked.specs.Checked.{Answers};
ghost use Rattle.ct_ore.specs.Naming.{actions_of};
ghost use Rattle.ct_expr.specs.Value as spec;

use crate::evaluation::evaluate;
use crate::expr::Expr;
use ct_mono::{Fault, Monomial, NoMemory};
use ct_ore::{Algebra, Op};
use ct_poly::Poly;
use std::alloc::Global;

/// The value of an expression without symbols: the coefficient of 1.
pub fn evaluate_polynomial(alloc: Global, algebra: &Algebra, expr: &Expr) -> Result<Poly, Fault>
    requires { IsTrue (spec.is_evaluable expr.now) }
    ensures { Answers (spec.checked_polynomial (actions_of algebra.now) expr.now) result }
{
    let value = evaluate(alloc, algebra, expr)?;
    let polynomial = coefficient_of_one(alloc, &value)?;
    Ok(polynomial)
}

fn coefficient_of_one(alloc: Global, value: &Op) -> Result<Poly, NoMemory>
    ensures { IfOk result (λ p. p ≡ polynomial_at value.now unit) }
{
    let one = Monomial::one();
    for term in value.terms() {
        if term.mono == one {
            return term.coef.copy(alloc);
        }
    }
    Ok(Poly::zero(alloc))
}
