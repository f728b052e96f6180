// Values over whole numbers: the operators of each step, in lowest terms, and where a step overflows.
ghost use Rattle.std.specs.Prelude.{◌<◌, ◌≤◌, ◌≤ℤ◌, negsuc};
ghost use Rattle.ct_checked.specs.Limits.{largest_norm};

use crate::value::Value;
use ct_mono::{Fault, Kind, LARGEST_NORM, NoMemory};
use ct_ore::{Action, Algebra, NameInfo, Op, Role};
use ct_poly::Poly;
use std::alloc::Global;
use std::test::Fail;

/// Whether the coefficient terms are these: powers of the symbol of n, powers of n, and a number.
fn is_operator(p: &Op, terms: &[(u16, u16, i128)]) -> bool {
    let mut rest = terms;
    for t in p.terms() {
        for c in t.coef.terms() {
            let Some((want, more)) = rest.split_first() else {
                return false;
            };
            if *want != (t.mono.exp(0), c.mono.exp(0), c.coef) {
                return false;
            }
            rest = more;
        }
    }
    rest.is_empty()
}

/// An algebra of the shift of n.
fn shift(alloc: Global) -> Result<Algebra, NoMemory> {
    let n = NameInfo {
        text: String::from_str(alloc, "n")?,
        action: Action::Shift,
        role: Role::Summed,
    };
    let mut names = Vec::new(alloc);
    names.push(n)?;
    Ok(Algebra::new(names))
}

fn number(alloc: Global, c: i128) -> Result<Op, NoMemory>
    requires { negsuc 170141183460469231731687303715884105726 ≤ℤ c }
{
    let p = Poly::constant(alloc, c)?;
    let operator = Op::of_poly(alloc, p)?;
    Ok(operator)
}

/// The number 1 over another.
fn part(alloc: Global, whole: u128) -> Result<Value, NoMemory>
    requires some { 0 < whole }
    requires within { whole ≤ largest_norm }
{
    let one = number(alloc, 1)?;
    let value = Value::lowest(alloc, one, whole)?;
    Ok(value)
}

/// The product of a number and n.
fn names(alloc: Global, algebra: &Algebra, c: i128) -> Result<Value, Fault>
    requires { negsuc 170141183460469231731687303715884105726 ≤ℤ c }
{
    let p = Poly::name(alloc, 0)?;
    let n = Op::of_poly(alloc, p)?;
    let operator = number(alloc, c)?.mul(alloc, algebra, &n)?;
    Ok(Value::over_one(operator))
}

/// The value of 1/2*n + 1/3.
fn sum(alloc: Global, algebra: &Algebra) -> Result<Value, Fault> {
    let half = part(alloc, 2)?;
    let n = names(alloc, algebra, 1)?;
    let product = half.times(alloc, algebra, &n)?;
    let third = part(alloc, 3)?;
    product.plus(alloc, algebra, third)
}

/// The sum of a multiple of n and 1/2.
fn with_half(alloc: Global, algebra: &Algebra, c: i128) -> Result<Value, Fault>
    requires { negsuc 170141183460469231731687303715884105726 ≤ℤ c }
{
    let n = names(alloc, algebra, c)?;
    let half = part(alloc, 2)?;
    n.plus(alloc, algebra, half)
}

#[test]
fn sums_are_cleared(rt: HostRuntime) -> Result<(), Fail> {
    let algebra = shift(rt.alloc())?;
    let sum = sum(rt.alloc(), &algebra)?;
    assert_eq!(rt; sum.whole, 6);
    assert!(rt; is_operator(&sum.operator, &[(0, 1, 3), (0, 0, 2)]));
    let negative = sum.negated(rt.alloc())?;
    assert_eq!(rt; negative.whole, 6);
    assert!(rt; is_operator(&negative.operator, &[(0, 1, -3), (0, 0, -2)]));
    Ok(())
}

#[test]
fn whole_numbers_are_multiplied(rt: HostRuntime) -> Result<(), Fail> {
    let algebra = shift(rt.alloc())?;
    let sum = sum(rt.alloc(), &algebra)?;
    let square = sum.times(rt.alloc(), &algebra, &sum)?;
    assert_eq!(rt; square.whole, 36);
    assert!(rt; is_operator(&square.operator, &[(0, 2, 9), (0, 1, 12), (0, 0, 4)]));
    Ok(())
}

#[test]
fn a_difference_of_halves_is_zero(rt: HostRuntime) -> Result<(), Fail> {
    let algebra = shift(rt.alloc())?;
    let half = part(rt.alloc(), 2)?;
    let other = part(rt.alloc(), 2)?;
    let none = half.minus(rt.alloc(), &algebra, other)?;
    assert_eq!(rt; none.whole, 1);
    assert!(rt; none.operator.is_zero());
    Ok(())
}

#[test]
fn a_number_that_divides_all_goes_out(rt: HostRuntime) -> Result<(), Fail> {
    let algebra = shift(rt.alloc())?;
    let symbol = Op::symbol(rt.alloc(), 0)?;
    let twice = number(rt.alloc(), 2)?.mul(rt.alloc(), &algebra, &symbol)?;
    let value = Value::lowest(rt.alloc(), twice, 4)?;
    assert_eq!(rt; value.whole, 2);
    assert!(rt; is_operator(&value.operator, &[(1, 0, 1)]));
    Ok(())
}

#[test]
fn steps_overflow_past_the_limit(rt: HostRuntime) -> Result<(), Fail> {
    let algebra = shift(rt.alloc())?;
    let least = part(rt.alloc(), LARGEST_NORM)?;
    let half = part(rt.alloc(), 2)?;
    let product = least.times(rt.alloc(), &algebra, &half);
    assert!(rt; matches!(&product, Err(Fault::Overflow(Kind::Number))));
    let multiple = least.plus(rt.alloc(), &algebra, half);
    assert!(rt; matches!(&multiple, Err(Fault::Overflow(Kind::Number))));
    Ok(())
}

#[test]
fn clearing_overflows_past_the_limit(rt: HostRuntime) -> Result<(), Fail> {
    let algebra = shift(rt.alloc())?;
    let most = 85070591730234615865843651857942052863;
    let fits = with_half(rt.alloc(), &algebra, most)?;
    assert!(rt; is_operator(&fits.operator, &[(0, 1, 2 * most), (0, 0, 1)]));
    let past = with_half(rt.alloc(), &algebra, most + 1);
    assert!(rt; matches!(&past, Err(Fault::Overflow(Kind::Number))));
    Ok(())
}
