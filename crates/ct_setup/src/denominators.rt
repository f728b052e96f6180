// The polynomials of `den` lines.
ghost use Rattle.std.specs.Prelude.{IfErr, IfSome};
ghost use Rattle.ct_checked.specs.Checked.{AnswersAs};
ghost use Rattle.ct_ore.specs.Naming.{IsAlgebra, actions_of};
ghost use Rattle.ct_problem.specs.WellFormed.{AreDens, IsPolynomial};
ghost use Rattle.ct_setup.specs.Setup as spec;
ghost use Rattle.ct_setup.specs.SetupViews.{setup_refusal_of, IsOfLines};

use crate::expressions::append;
use crate::fault::SetupFault;
use ct_ore::Algebra;
use ct_poly::Poly;
use ct_problem::{Expr, evaluate_polynomial};
use std::alloc::Global;

/// What is given for each name, in order, if anything is.
pub(crate) fn denominators(
    alloc: Global,
    algebra: &Algebra,
    dens: &[Option<Expr>],
) -> Result<Vec<Option<Poly>>, SetupFault>
    requires names { IsAlgebra algebra.now }
    requires dens { AreDens algebra.now dens.now }
    ensures answers { AnswersAs setup_refusal_of (λ v. v.items) (spec.checked_dens (actions_of algebra.now) dens.now) result }
    ensures lines { IfErr result IsOfLines }
{
    let mut done = Vec::new(alloc);
    let mut rest = dens;
    'valuing: loop {
        let Some((den, more)) = rest.split_first() else {
            return Ok(done);
        };
        let value = denominator(alloc, algebra, done.len() as u8, den)?;
        append(&mut done, value)?;
        rest = more;
    }
}

// What is given for a name, which isn't zero.
fn denominator(
    alloc: Global,
    algebra: &Algebra,
    name: u8,
    den: &Option<Expr>,
) -> Result<Option<Poly>, SetupFault>
    requires { IfSome den.now (λ x. IsPolynomial algebra.now x) }
    ensures answers { AnswersAs setup_refusal_of (λ o. o) (spec.checked_den (actions_of algebra.now) name den.now) result }
    ensures lines { IfErr result IsOfLines }
{
    let Some(expr) = den else {
        return Ok(None);
    };
    let value = evaluate_polynomial(alloc, algebra, expr)?;
    if value.is_zero() {
        return Err(SetupFault::ZeroDen(name));
    }
    Ok(Some(value))
}
