// Each call that takes memory, with values that another program gives. The names 0 and 1 are n, a shift, and x, a derivation.
ghost use Rattle.std.specs.Prelude.{◌<◌};

use crate::{Reduced, left_reduce};
use ct_mono::{Fault, Kind, LARGEST_NORM, NoMemory};
use ct_ore::{Action, Algebra, NameInfo, Op, Role};
use ct_poly::Poly;
use std::alloc::Global;
use std::test::Fail;

fn shift_and_derivation(alloc: Global) -> Result<Algebra, NoMemory> {
    let n = NameInfo {
        text: String::from_str(alloc, "n")?,
        action: Action::Shift,
        role: Role::Free,
    };
    let x = NameInfo {
        text: String::from_str(alloc, "x")?,
        action: Action::Derive,
        role: Role::Free,
    };
    let mut names = Vec::new(alloc);
    names.push(n)?;
    names.push(x)?;
    Ok(Algebra::new(names))
}

// whether the coefficient terms are these: symbols of n and x, powers of n and x, and a number
fn is_listed(p: &Op, terms: &[(u16, u16, u16, u16, i128)]) -> bool {
    let mut listed = true;
    let mut rest = terms;
    for t in p.terms() {
        for c in t.coef.terms() {
            let Some((want, more)) = rest.split_first() else {
                return false;
            };
            listed = listed && t.mono.exp(0) == want.0 && t.mono.exp(1) == want.1;
            listed = listed
                && c.mono.exp(0) == want.2
                && c.mono.exp(1) == want.3
                && c.coef == want.4;
            rest = more;
        }
    }
    listed && rest.is_empty()
}

// whether the scale, both cofactors and the rest are these
fn is_reduction(
    alloc: Global,
    r: Reduced,
    scale: &[(u16, u16, u16, u16, i128)],
    first: &[(u16, u16, u16, u16, i128)],
    second: &[(u16, u16, u16, u16, i128)],
    rest: &[(u16, u16, u16, u16, i128)],
) -> Result<bool, NoMemory> {
    let scaled = Op::of_poly(alloc, r.scale)?;
    let Some((c, more)) = r.cofactors.as_slice().split_first() else {
        return Ok(false);
    };
    let Some((d, none)) = more.split_first() else {
        return Ok(false);
    };
    let listed = is_listed(&scaled, scale) && is_listed(c, first) && is_listed(d, second);
    Ok(listed && none.is_empty() && is_listed(&r.rest, rest))
}

fn name(alloc: Global, i: u8) -> Result<Op, NoMemory>
    requires { i < 6 }
{
    let p = Poly::name(alloc, i)?;
    let r = Op::of_poly(alloc, p)?;
    Ok(r)
}

fn number(alloc: Global, c: i32) -> Result<Op, NoMemory> {
    let p = Poly::constant(alloc, c as i128)?;
    let r = Op::of_poly(alloc, p)?;
    Ok(r)
}

// n·S − x and x·D − n
fn two_generators(alloc: Global, algebra: &Algebra) -> Result<Vec<Op>, Fault> {
    let n = name(alloc, 0)?;
    let x = name(alloc, 1)?;
    let shift = Op::symbol(alloc, 0)?;
    let derivation = Op::symbol(alloc, 1)?;
    let mut generators = Vec::new(alloc);
    let first = n.mul(alloc, algebra, &shift)?.sub(alloc, &x)?;
    let second = x.mul(alloc, algebra, &derivation)?.sub(alloc, &n)?;
    push(&mut generators, first)?;
    push(&mut generators, second)?;
    Ok(generators)
}

fn push(list: &mut Vec<Op>, p: Op) -> Result<(), NoMemory> {
    list.push(p)?;
    Ok(())
}

#[test]
fn no_generators_leave_the_operator(rt: HostRuntime) -> Result<(), Fail> {
    let algebra = shift_and_derivation(rt.alloc())?;
    let shift = Op::symbol(rt.alloc(), 0)?;
    let n = name(rt.alloc(), 0)?;
    let op = shift.mul(rt.alloc(), &algebra, &n)?;
    let generators = Vec::new(rt.alloc());
    let r = left_reduce(rt.alloc(), &algebra, &op, generators.as_slice())?;
    assert!(rt; r.cofactors.is_empty());
    assert!(rt; is_listed(&r.rest, &[(1, 0, 1, 0, 1), (1, 0, 0, 0, 1)]));
    let scale = Op::of_poly(rt.alloc(), r.scale)?;
    assert!(rt; is_listed(&scale, &[(0, 0, 0, 0, 1)]));
    Ok(())
}

#[test]
fn all_is_multiplied_from_the_left(rt: HostRuntime) -> Result<(), Fail> {
    let algebra = shift_and_derivation(rt.alloc())?;
    let generators = two_generators(rt.alloc(), &algebra)?;
    let shift = Op::symbol(rt.alloc(), 0)?;
    let op = shift.mul(rt.alloc(), &algebra, &shift)?;
    let r = left_reduce(rt.alloc(), &algebra, &op, generators.as_slice())?;
    assert!(rt;
        is_reduction(
            rt.alloc(),
            r,
            &[(0, 0, 2, 0, 1), (0, 0, 1, 0, 1)],
            &[(1, 0, 1, 0, 1), (0, 0, 0, 1, 1)],
            &[],
            &[(0, 0, 0, 2, 1)]
        )?
    );
    Ok(())
}

#[test]
fn each_generator_takes_its_monomials(rt: HostRuntime) -> Result<(), Fail> {
    let algebra = shift_and_derivation(rt.alloc())?;
    let generators = two_generators(rt.alloc(), &algebra)?;
    let shift = Op::symbol(rt.alloc(), 0)?;
    let derivation = Op::symbol(rt.alloc(), 1)?;
    let n = name(rt.alloc(), 0)?;
    let x = name(rt.alloc(), 1)?;
    let product = n.mul(rt.alloc(), &algebra, &x)?;
    let op = shift
        .mul(rt.alloc(), &algebra, &derivation)?
        .add(rt.alloc(), &product)?;
    let r = left_reduce(rt.alloc(), &algebra, &op, generators.as_slice())?;
    assert!(rt;
        is_reduction(
            rt.alloc(),
            r,
            &[(0, 0, 1, 0, 1)],
            &[(0, 1, 0, 0, 1)],
            &[(0, 0, 0, 0, 1)],
            &[(0, 0, 2, 1, 1), (0, 0, 1, 0, 1), (0, 0, 0, 0, 1)]
        )?
    );
    Ok(())
}

#[test]
fn steps_follow_each_other(rt: HostRuntime) -> Result<(), Fail> {
    let algebra = shift_and_derivation(rt.alloc())?;
    let generators = two_generators(rt.alloc(), &algebra)?;
    let shift = Op::symbol(rt.alloc(), 0)?;
    let derivation = Op::symbol(rt.alloc(), 1)?;
    let one = number(rt.alloc(), 1)?;
    let square = derivation.mul(rt.alloc(), &algebra, &derivation)?;
    let op = square
        .mul(rt.alloc(), &algebra, &shift)?
        .add(rt.alloc(), &shift)?
        .add(rt.alloc(), &one)?;
    let r = left_reduce(rt.alloc(), &algebra, &op, generators.as_slice())?;
    assert!(rt;
        is_reduction(
            rt.alloc(),
            r,
            &[(0, 0, 1, 1, 1)],
            &[(0, 2, 0, 1, 1), (0, 0, 0, 1, 1)],
            &[(0, 1, 0, 1, 1), (0, 0, 1, 0, 1), (0, 0, 0, 0, 1)],
            &[
                (0, 0, 2, 0, 1),
                (0, 0, 1, 1, 1),
                (0, 0, 0, 2, 1),
                (0, 0, 1, 0, 1)
            ]
        )?
    );
    Ok(())
}

#[test]
fn the_first_generator_serves_and_exact_quotients_are_taken(rt: HostRuntime) -> Result<(), Fail> {
    let algebra = shift_and_derivation(rt.alloc())?;
    let derivation = Op::symbol(rt.alloc(), 1)?;
    let square = derivation.mul(rt.alloc(), &algebra, &derivation)?;
    let cube = derivation.mul(rt.alloc(), &algebra, &square)?;
    let x = name(rt.alloc(), 1)?;
    let first = number(rt.alloc(), 2)?
        .mul(rt.alloc(), &algebra, &square)?
        .sub(rt.alloc(), &x)?;
    let mut generators = Vec::new(rt.alloc());
    push(&mut generators, first)?;
    push(&mut generators, cube.copy(rt.alloc())?)?;
    let of_cube = left_reduce(rt.alloc(), &algebra, &cube, generators.as_slice())?;
    assert!(rt;
        is_reduction(
            rt.alloc(),
            of_cube,
            &[(0, 0, 0, 0, 2)],
            &[(0, 1, 0, 0, 1)],
            &[],
            &[(0, 1, 0, 1, 1), (0, 0, 0, 0, 1)]
        )?
    );
    let op = number(rt.alloc(), 4)?
        .mul(rt.alloc(), &algebra, &square)?
        .add(rt.alloc(), &derivation)?;
    let exact = left_reduce(rt.alloc(), &algebra, &op, generators.as_slice())?;
    assert!(rt;
        is_reduction(
            rt.alloc(),
            exact,
            &[(0, 0, 0, 0, 1)],
            &[(0, 0, 0, 0, 2)],
            &[],
            &[(0, 1, 0, 0, 1), (0, 0, 0, 1, 2)]
        )?
    );
    Ok(())
}

#[test]
fn a_multiplication_overflows(rt: HostRuntime) -> Result<(), Fail> {
    let algebra = shift_and_derivation(rt.alloc())?;
    let shift = Op::symbol(rt.alloc(), 0)?;
    let one = number(rt.alloc(), 1)?;
    let generator = number(rt.alloc(), 2)?
        .mul(rt.alloc(), &algebra, &shift)?
        .sub(rt.alloc(), &one)?;
    let mut generators = Vec::new(rt.alloc());
    push(&mut generators, generator)?;
    let large = Op::of_poly(
        rt.alloc(),
        Poly::constant(rt.alloc(), LARGEST_NORM as i128)?,
    )?;
    let op = large.mul(rt.alloc(), &algebra, &shift)?;
    let refused = left_reduce(rt.alloc(), &algebra, &op, generators.as_slice());
    assert!(rt; matches!(refused, Err(Fault::Overflow(Kind::Number))));
    Ok(())
}
