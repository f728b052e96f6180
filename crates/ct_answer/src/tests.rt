// Texts by hand. The name n has a shift, and x a derivation.
ghost use Rattle.std.specs.Prelude.{◌<◌};

use crate::{
    print_frac, print_monomial, print_op, print_poly, print_reductions, print_tested, push_refusal,
};
use ct_border::BuildFault;
use ct_frac::{Fault, Frac, Kind};
use ct_mono::{Monomial, NoMemory};
use ct_ore::{Action, Algebra, NameInfo, Op, Role};
use ct_poly::Poly;
use ct_reduce::Reduced;
use std::alloc::Global;
use std::test::Fail;

fn shift_and_derivation(alloc: Global) -> Result<Algebra, NoMemory> {
    let n = NameInfo {
        text: String::from_str(alloc, "n")?,
        action: Action::Shift,
        role: Role::Free,
    };
    let x = NameInfo {
        text: String::from_str(alloc, "x")?,
        action: Action::Derive,
        role: Role::Summed,
    };
    let mut names = Vec::new(alloc);
    names.push(n)?;
    names.push(x)?;
    Ok(Algebra::new(names))
}

fn name(alloc: Global, i: u8) -> Result<Op, NoMemory>
    requires { i < 6 }
{
    Op::of_poly(alloc, Poly::name(alloc, i)?)
}

fn number(alloc: Global, n: u8) -> Result<Op, NoMemory> {
    Op::of_poly(alloc, Poly::constant(alloc, i128::from(n))?)
}

#[test]
fn operators_are_written_by_falling_terms(rt: HostRuntime) -> Result<(), Fail> {
    let alloc = rt.alloc();
    let algebra = shift_and_derivation(alloc)?;
    let shift = Op::symbol(alloc, 0)?;
    let derivation = Op::symbol(alloc, 1)?;
    let next = name(alloc, 0)?.add(alloc, &number(alloc, 1)?)?;
    let triple = number(alloc, 3)?.mul(alloc, &algebra, &name(alloc, 0)?)?;
    let square = shift.mul(alloc, &algebra, &shift)?;
    let sum = next.mul(alloc, &algebra, &square)?.sub(alloc, &triple)?;
    let text = print_op(alloc, &algebra, &sum)?;
    assert_eq!(rt; text.as_slice(), b"(n + 1)*S[n]^2 - 3*n".as_slice());
    let negative = Op::zero(alloc).sub(alloc, &next)?;
    let mixed = shift.add(alloc, &negative.mul(alloc, &algebra, &derivation)?)?;
    let text = print_op(alloc, &algebra, &mixed)?;
    assert_eq!(rt; text.as_slice(), b"S[n] + (-n - 1)*D[x]".as_slice());
    let product = triple.mul(alloc, &algebra, &square.mul(alloc, &algebra, &derivation)?)?;
    let last = Op::zero(alloc).sub(alloc, &product)?.sub(alloc, &shift)?;
    let text = print_op(alloc, &algebra, &last)?;
    assert_eq!(rt; text.as_slice(), b"-3*n*S[n]^2*D[x] - S[n]".as_slice());
    let text = print_op(alloc, &algebra, &Op::zero(alloc))?;
    assert_eq!(rt; text.as_slice(), b"0".as_slice());
    Ok(())
}

#[test]
fn polynomials_are_written_by_falling_terms(rt: HostRuntime) -> Result<(), Fail> {
    let alloc = rt.alloc();
    let algebra = shift_and_derivation(alloc)?;
    let n = Poly::name(alloc, 0)?;
    let x = Poly::name(alloc, 1)?;
    let one = Poly::constant(alloc, 1)?;
    let product = n.mul(alloc, &n)?.mul(alloc, &x)?;
    let sum = one.sub(alloc, &product)?.sub(alloc, &x)?;
    let text = print_poly(alloc, &algebra, &sum)?;
    assert_eq!(rt; text.as_slice(), b"-n^2*x - x + 1".as_slice());
    let greatest = Poly::constant(alloc, i128::MAX)?;
    let text = print_poly(alloc, &algebra, &greatest.mul(alloc, &n)?)?;
    assert_eq!(rt;
        text.as_slice(),
        b"170141183460469231731687303715884105727*n".as_slice()
    );
    let text = print_poly(alloc, &algebra, &one.neg(alloc)?)?;
    assert_eq!(rt; text.as_slice(), b"-1".as_slice());
    let text = print_poly(alloc, &algebra, &Poly::zero(alloc))?;
    assert_eq!(rt; text.as_slice(), b"0".as_slice());
    Ok(())
}

// the quotient, where the divisor is not zero
fn ratio(alloc: Global, n: &Poly, d: &Poly) -> Result<Frac, Fault> {
    if d.is_zero() {
        return Err(Fault::Overflow(Kind::Size));
    }
    Ok(Frac::quotient(alloc, n, d)?)
}

#[test]
fn fractions_are_written_over_their_factors(rt: HostRuntime) -> Result<(), Fail> {
    let alloc = rt.alloc();
    let algebra = shift_and_derivation(alloc)?;
    let n = Poly::name(alloc, 0)?;
    let x = Poly::name(alloc, 1)?;
    let one = Poly::constant(alloc, 1)?;
    let six = Poly::constant(alloc, 6)?;
    let next = n.add(alloc, &one)?;
    let rows = [
        (one.copy(alloc)?, six.copy(alloc)?, b"(1)/(6)".as_slice()),
        (
            six.copy(alloc)?,
            next.copy(alloc)?,
            b"(6)/((n + 1))".as_slice(),
        ),
        (
            next.copy(alloc)?,
            six.mul(alloc, &x)?.mul(alloc, &x)?,
            b"(n + 1)/(6*(x)^2)".as_slice(),
        ),
        (
            one.neg(alloc)?,
            n.mul(alloc, &x)?.mul(alloc, &next)?,
            b"(-1)/((x)*(n)*(n + 1))".as_slice(),
        ),
        (next.mul(alloc, &six)?, six, b"n + 1".as_slice()),
        (Poly::zero(alloc), next, b"0".as_slice()),
    ];
    for (n, d, wanted) in &rows {
        let text = print_frac(alloc, &algebra, &ratio(alloc, n, d)?)?;
        assert_eq!(rt; text.as_slice(), *wanted);
    }
    let text = print_monomial(alloc, &algebra, &Monomial::one())?;
    assert_eq!(rt; text.as_slice(), b"1".as_slice());
    let shift = Monomial::name(0);
    let square = shift.times(&shift).unwrap_or(Monomial::one());
    let product = square.times(&Monomial::name(1)).unwrap_or(Monomial::one());
    let text = print_monomial(alloc, &algebra, &product)?;
    assert_eq!(rt; text.as_slice(), b"S[n]^2*D[x]".as_slice());
    Ok(())
}

#[test]
fn reductions_are_written_by_lines(rt: HostRuntime) -> Result<(), Fail> {
    let alloc = rt.alloc();
    let algebra = shift_and_derivation(alloc)?;
    let mut cofactors = Vec::new(alloc);
    cofactors.push(Op::symbol(alloc, 0)?)?;
    cofactors.push(Op::zero(alloc))?;
    let mut reductions = Vec::new(alloc);
    reductions.push(Reduced {
        scale: Poly::name(alloc, 0)?,
        cofactors,
        rest: number(alloc, 3)?,
    })?;
    let text = print_reductions(alloc, &algebra, reductions.as_slice())?;
    let lines =
        b"mgfun reduce 1\ntarget 1\nscale n\ncofactor 1: S[n]\ncofactor 2: 0\nrest 3\nend\n";
    assert_eq!(rt; text.as_slice(), lines.as_slice());
    Ok(())
}

#[test]
fn bases_and_refusals_are_written_by_their_elements(rt: HostRuntime) -> Result<(), Fail> {
    let alloc = rt.alloc();
    let algebra = shift_and_derivation(alloc)?;
    let elements = [Monomial::one(), Monomial::name(0)];
    let text = print_tested(alloc, &algebra, &elements)?;
    let lines = b"mgfun test 1\ndimension 2\nbasis 1\nbasis S[n]\nend\n";
    assert_eq!(rt; text.as_slice(), lines.as_slice());
    let refused = BuildFault::NotClosed {
        first: 0,
        second: 1,
        element: 1,
        place: 0,
        one: Frac::zero(alloc)?,
        other: Frac::of_poly(alloc, Poly::name(alloc, 0)?)?,
    };
    let mut text = Vec::new(alloc);
    push_refusal(alloc, &mut text, &algebra, &elements, &refused)?;
    assert_eq!(rt; text.as_slice(), b"NotClosed n x S[n] 1: 0; n".as_slice());
    Ok(())
}
