// The values of expressions.
ghost use Rattle.std.specs.Prelude.{◌<◌, IsTrue, Ok};
ghost use Rattle.ct_checked.specs.Checked.{Answers};
ghost use Rattle.ct_ore.specs.Naming.{actions_of};
ghost use Rattle.ct_algebra.specs.Names.{name_with, symbol};
ghost use Rattle.ct_algebra.specs.Operators.{term_of};
ghost use Rattle.ct_algebra.specs.Polynomial.{polys};
ghost use Rattle.ct_algebra.specs.Substitution.{number, name};
ghost use Rattle.ct_expr.specs.Value as spec;
ghost use Rattle.ct_expr.specs.ValueArithmetic.{over_one};

use crate::expr::{Expr, Summand};
use crate::value::Value;
use ct_mono::Fault;
use ct_ore::{Algebra, Op};
use ct_poly::Poly;
use std::alloc::Global;

/// The operator that an expression stands for.
#[tactic(auto, unfolding(crate::specs::Value::value_of))]
pub fn evaluate(alloc: Global, algebra: &Algebra, expr: &Expr) -> Result<Op, Fault>
    requires { IsTrue (spec.is_evaluable expr.now) }
    ensures { Answers (spec.value_of (actions_of algebra.now) expr.now) result }
{
    let value = fraction(alloc, algebra, expr)?;
    Ok(value.operator)
}

/// The value of an expression.
#[cycle(evaluation)]
fn fraction(alloc: Global, algebra: &Algebra, expr: &Expr) -> Result<Value, Fault>
    requires { IsTrue (spec.is_evaluable expr.now) }
    ensures { Answers (spec.fraction_of (actions_of algebra.now) expr.now) result }
{
    match expr {
        Expr::Whole(n) => whole(alloc, *n),
        Expr::Ratio(n, d) => ratio(alloc, *n, *d),
        Expr::Name(i) => name(alloc, *i),
        Expr::Symbol(i) => symbol(alloc, *i),
        Expr::Sum(terms) => sum(alloc, algebra, terms.as_slice()),
        Expr::Product(factors) => product(alloc, algebra, factors.as_slice()),
        Expr::Power(base, n) => {
            let base = fraction(alloc, algebra, base.get())?;
            power(alloc, algebra, &base, *n)
        }
    }
}

/// A sum, from its first term.
#[cycle(evaluation)]
fn sum(alloc: Global, algebra: &Algebra, terms: &[Summand]) -> Result<Value, Fault>
    requires { IsTrue (spec.all_evaluable_terms terms.now) }
    ensures { Answers (spec.sum_of_values (actions_of algebra.now) (spec.signed (actions_of algebra.now) terms.now)) result }
{
    let mut so_far = None;
    for term in terms {
        let value = fraction(alloc, algebra, &term.expr)?;
        let more = joined(alloc, algebra, so_far, term.negative, value)?;
        so_far = Some(more);
    }
    match so_far {
        Some(sum) => Ok(sum),
        None => Ok(Value::over_one(Op::zero(alloc))),
    }
}

/// A product, from its first factor.
#[cycle(evaluation)]
fn product(alloc: Global, algebra: &Algebra, factors: &[Expr]) -> Result<Value, Fault>
    requires { IsTrue (spec.all_evaluable factors.now) }
    ensures { Answers (spec.product_of_values (actions_of algebra.now) (spec.fractions (actions_of algebra.now) factors.now)) result }
{
    let mut so_far = None;
    for factor in factors {
        let value = fraction(alloc, algebra, factor)?;
        let more = multiplied(alloc, algebra, so_far, value)?;
        so_far = Some(more);
    }
    match so_far {
        Some(product) => Ok(product),
        None => one(alloc),
    }
}

/// One more term, after the sum of those before it.
fn joined(
    alloc: Global,
    algebra: &Algebra,
    so_far: Option<Value>,
    negative: bool,
    value: Value,
) -> Result<Value, Fault>
    ensures { Answers (spec.joined (actions_of algebra.now) so_far negative value) result }
{
    match so_far {
        None if negative => value.negated(alloc),
        None => Ok(value),
        Some(so_far) if negative => so_far.minus(alloc, algebra, value),
        Some(so_far) => so_far.plus(alloc, algebra, value),
    }
}

/// One more factor, after the product of those before it.
fn multiplied(
    alloc: Global,
    algebra: &Algebra,
    so_far: Option<Value>,
    value: Value,
) -> Result<Value, Fault>
    ensures { Answers (spec.multiplied (actions_of algebra.now) so_far value) result }
{
    match so_far {
        None => Ok(value),
        Some(so_far) => so_far.times(alloc, algebra, &value),
    }
}

fn power(alloc: Global, algebra: &Algebra, base: &Value, exponent: u16) -> Result<Value, Fault>
    ensures { Answers (spec.power_from (actions_of algebra.now) spec.one_value exponent base.now) result }
{
    let mut so_far = one(alloc)?;
    for _turn in 0..exponent {
        so_far = so_far.times(alloc, algebra, base)?;
    }
    Ok(so_far)
}

fn one(alloc: Global) -> Result<Value, Fault>
    ensures { Answers (Ok spec.one_value) result }
{
    whole(alloc, 1)
}

fn whole(alloc: Global, n: i128) -> Result<Value, Fault>
    requires { IsTrue (spec.is_coefficient n) }
    ensures { Answers (Ok (over_one (spec.operator_of_polynomial (number n)))) result }
{
    let operator = Op::of_poly(alloc, Poly::constant(alloc, n)?)?;
    Ok(Value::over_one(operator))
}

fn ratio(alloc: Global, n: i128, d: i128) -> Result<Value, Fault>
    requires { IsTrue (spec.is_ratio n d) }
    ensures { Answers (Ok (spec.ratio n d)) result }
{
    let operator = Op::of_poly(alloc, Poly::constant(alloc, n)?)?;
    let value = Value::lowest(alloc, operator, d.unsigned_abs())?;
    Ok(value)
}

fn name(alloc: Global, i: u8) -> Result<Value, Fault>
    requires { i < 6 }
    ensures { Answers (Ok (over_one (spec.operator_of_polynomial (name (name_with i))))) result }
{
    let operator = Op::of_poly(alloc, Poly::name(alloc, i)?)?;
    Ok(Value::over_one(operator))
}

fn symbol(alloc: Global, i: u8) -> Result<Value, Fault>
    requires { i < 6 }
    ensures { Answers (Ok (over_one (term_of (symbol (name_with i)) polys.one))) result }
{
    let operator = Op::symbol(alloc, i)?;
    Ok(Value::over_one(operator))
}
