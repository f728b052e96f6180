// Written fractions, with values computed by hand.
ghost use Rattle.std.specs.Prelude.{pos, ◌≤ℤ◌};

use crate::common::wider;
use crate::{Fault, Frac, Kind, Poly};
use std::alloc::Global;
use std::test::Fail;

mod rows;

// a·k² + b·k + c, where k is the name 1
fn quadratic(alloc: Global, a: i16, b: i16, c: i16) -> Result<Poly, Fault> {
    let k = Poly::name(alloc, 1)?;
    let square = k.mul(alloc, &k)?;
    let second = Poly::constant(alloc, i128::from(a))?.mul(alloc, &square)?;
    let first = Poly::constant(alloc, i128::from(b))?.mul(alloc, &k)?;
    let last = Poly::constant(alloc, i128::from(c))?;
    let sum = second.add(alloc, &first)?;
    sum.add(alloc, &last)
}

// the quotient, where the divisor is not zero
fn ratio(alloc: Global, n: &Poly, d: &Poly) -> Result<Frac, Fault> {
    if d.is_zero() {
        return Err(Fault::NoMemory);
    }
    let r = Frac::quotient(alloc, n, d)?;
    Ok(r)
}

// whether these are the numerator, the whole number and the factors with their exponents
fn is_written(f: &Frac, numerator: &Poly, whole: u128, factors: &[(&Poly, u32)]) -> bool {
    let mut written = f.numerator().same(numerator)
        && f.den().whole() == whole
        && f.den().factors().len() == factors.len();
    for (factor, want) in f.den().factors().iter().zip(factors) {
        written = written && factor.poly.same(want.0) && factor.exp == want.1;
    }
    written
}

// 1 / (k + c)
fn reciprocal(alloc: Global, c: i16) -> Result<Frac, Fault> {
    let one = quadratic(alloc, 0, 0, 1)?;
    let d = quadratic(alloc, 0, 1, c)?;
    ratio(alloc, &one, &d)
}

// (k + 1) / (k² + 3·k + 2)
fn unreduced(alloc: Global) -> Result<Frac, Fault> {
    let n = quadratic(alloc, 0, 1, 1)?;
    let d = quadratic(alloc, 1, 3, 2)?;
    ratio(alloc, &n, &d)
}

// 1 / c
fn unit_fraction(alloc: Global, c: i128) -> Result<Frac, Fault>
    requires { pos 0 ≤ℤ c }
{
    let one = Poly::constant(alloc, 1)?;
    let d = Poly::constant(alloc, c)?;
    ratio(alloc, &one, &d)
}

#[test]
fn a_quotient_is_in_lowest_terms(rt: HostRuntime) -> Result<(), Fail> {
    let n = quadratic(rt.alloc(), 2, 2, 0)?;
    let d = quadratic(rt.alloc(), 0, 4, 0)?;
    let r = ratio(rt.alloc(), &n, &d)?;
    let left = quadratic(rt.alloc(), 0, 1, 1)?;
    assert!(rt; is_written(&r, &left, 2, &[]));
    Ok(())
}

#[test]
fn a_factor_that_does_not_divide_stays(rt: HostRuntime) -> Result<(), Fail> {
    let n = quadratic(rt.alloc(), 0, 1, 1)?;
    let d = quadratic(rt.alloc(), 1, 3, 2)?;
    let r = unreduced(rt.alloc())?;
    assert!(rt; is_written(&r, &n, 1, &[(&d, 1)]));
    Ok(())
}

#[test]
fn equal_values_can_be_written_apart(rt: HostRuntime) -> Result<(), Fail> {
    let r = unreduced(rt.alloc())?;
    let reduced = reciprocal(rt.alloc(), 2)?;
    assert!(rt; !r.same(&reduced));
    assert!(rt; r.same_value(rt.alloc(), &reduced)?);
    assert!(rt; !r.same_value(rt.alloc(), &reduced.neg(rt.alloc())?)?);
    Ok(())
}

#[test]
fn a_difference_of_equals_is_zero(rt: HostRuntime) -> Result<(), Fail> {
    let x = reciprocal(rt.alloc(), 1)?;
    let none = x.sub(rt.alloc(), &x)?;
    let zero = Frac::zero(rt.alloc())?;
    assert!(rt; none.same(&zero));
    assert!(rt; x.mul(rt.alloc(), &zero)?.same(&zero));
    Ok(())
}

#[test]
fn a_common_denominator_has_the_greatest_exponents(rt: HostRuntime) -> Result<(), Fail> {
    let x = reciprocal(rt.alloc(), 1)?;
    let mut list = Vec::new(rt.alloc());
    list.push(x.mul(rt.alloc(), &x)?).map_err(|_| "no memory")?;
    list.push(x).map_err(|_| "no memory")?;
    let den = Frac::common(rt.alloc(), list.as_slice())?;
    assert_eq!(rt; den.whole(), 1);
    assert!(rt; den.factors().len() == 1 && den.factors()[0].exp == 2);
    Ok(())
}

// the numerator of x over the least denominator that those of both divide
fn cleared_to_both(alloc: Global, x: &Frac, y: &Frac) -> Result<Poly, Fault> {
    x.in_written_form();
    y.in_written_form();
    let mine = x.den().copy(alloc)?;
    let den = wider(alloc, mine, y.den())?;
    x.clear(alloc, &den)
}

// 1 / (2·(k + 1))
fn half(alloc: Global) -> Result<Frac, Fault> {
    let one = quadratic(alloc, 0, 0, 1)?;
    let d = quadratic(alloc, 0, 2, 2)?;
    ratio(alloc, &one, &d)
}

// 1 / (3·(k + 1)²), with one factor
fn third_of_a_square(alloc: Global) -> Result<Frac, Fault> {
    let x = reciprocal(alloc, 1)?;
    let third = unit_fraction(alloc, 3)?;
    let square = x.mul(alloc, &x)?;
    square.mul(alloc, &third)
}

// over 6·(k + 1)² stand 3·(k + 1) and 2
fn both_are_cleared(alloc: Global, x: &Frac, y: &Frac) -> Result<bool, Fault> {
    let mine = cleared_to_both(alloc, x, y)?;
    let its = cleared_to_both(alloc, y, x)?;
    let n = quadratic(alloc, 0, 3, 3)?;
    let m = quadratic(alloc, 0, 0, 2)?;
    Ok(mine.same(&n) && its.same(&m))
}

#[test]
fn a_numerator_is_cleared_by_what_its_denominator_lacks(rt: HostRuntime) -> Result<(), Fail> {
    let x = half(rt.alloc())?;
    let y = third_of_a_square(rt.alloc())?;
    assert!(rt; both_are_cleared(rt.alloc(), &x, &y)?);
    Ok(())
}

#[test]
fn whole_numbers_overflow_past_the_limit(rt: HostRuntime) -> Result<(), Fail> {
    let x = unit_fraction(rt.alloc(), i128::MAX)?;
    let y = unit_fraction(rt.alloc(), 2)?;
    assert!(rt; overflows_by_number(x.add(rt.alloc(), &y)));
    assert!(rt; overflows_by_number(x.mul(rt.alloc(), &y)));
    Ok(())
}

fn overflows_by_number(answer: Result<Frac, Fault>) -> bool {
    match answer {
        Err(fault) => fault == Fault::Overflow(Kind::Number),
        Ok(_) => false,
    }
}
