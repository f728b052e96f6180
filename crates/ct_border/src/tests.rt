// Staircases from outside.
ghost use Rattle.std.specs.Prelude.{◌<◌};

use crate::{StairFault, staircase};
use ct_mono::{Fault, Kind, Monomial, NoMemory};
use ct_ore::{Action, Algebra, NameInfo, Op, Role};
use ct_poly::Poly;
use std::alloc::Global;
use std::test::Fail;

// n and k, whose symbols are shifts, and z, which has none
fn shifts(alloc: Global) -> Result<Algebra, NoMemory> {
    let n = NameInfo {
        text: String::from_str(alloc, "n")?,
        action: Action::Shift,
        role: Role::Free,
    };
    let k = NameInfo {
        text: String::from_str(alloc, "k")?,
        action: Action::Shift,
        role: Role::Summed,
    };
    let z = NameInfo {
        text: String::from_str(alloc, "z")?,
        action: Action::Still,
        role: Role::Param,
    };
    let mut names = Vec::new(alloc);
    names.push(n)?;
    names.push(k)?;
    names.push(z)?;
    Ok(Algebra::new(names))
}

// x and t, whose symbols are derivations, and n, whose symbol is a shift
fn two_derivations(alloc: Global) -> Result<Algebra, NoMemory> {
    let x = NameInfo {
        text: String::from_str(alloc, "x")?,
        action: Action::Derive,
        role: Role::Free,
    };
    let t = NameInfo {
        text: String::from_str(alloc, "t")?,
        action: Action::Derive,
        role: Role::Free,
    };
    let n = NameInfo {
        text: String::from_str(alloc, "n")?,
        action: Action::Shift,
        role: Role::Summed,
    };
    let mut names = Vec::new(alloc);
    names.push(x)?;
    names.push(t)?;
    names.push(n)?;
    Ok(Algebra::new(names))
}

// a power of the first symbol times one of the second
fn symbols(n: u16, k: u16) -> Monomial
    requires first { n < 100 }
    requires second { k < 100 }
{
    Monomial::one().with_exp(0, n).with_exp(1, k)
}

// the sum of monomials
fn sum(alloc: Global, monos: &[Monomial]) -> Result<Op, StairFault> {
    let mut op = Op::zero(alloc);
    for m in monos {
        let term = Op::of_term(alloc, Poly::constant(alloc, 1)?, m)?;
        op = match op.into_sum(alloc, term) {
            Ok(more) => more,
            Err(fault) => return Err(StairFault::Fault(fault)),
        };
    }
    Ok(op)
}

fn answer(
    alloc: Global,
    names: &Algebra,
    first: &[Monomial],
    second: &[Monomial],
    third: &[Monomial],
) -> Result<Vec<Monomial>, StairFault> {
    let generators = [sum(alloc, first)?, sum(alloc, second)?, sum(alloc, third)?];
    staircase(alloc, names, &generators)
}

#[test]
fn sixteen_monomials_rise(rt: HostRuntime) -> Result<(), Fail> {
    let one = symbols(0, 0);
    let names = shifts(rt.alloc())?;
    let found = answer(
        rt.alloc(),
        &names,
        &[symbols(4, 0), one],
        &[symbols(0, 4)],
        &[symbols(5, 1), one],
    );
    let Ok(found) = found else {
        return Err("not found".into());
    };
    assert_eq!(rt; found.len(), 16);
    assert!(rt; found[0] == one);
    assert!(rt; found[1] == symbols(0, 1));
    assert!(rt; found[2] == symbols(1, 0));
    assert!(rt; found[3] == symbols(0, 2));
    assert!(rt; found[15] == symbols(3, 3));
    Ok(())
}

#[test]
fn seventeen_monomials_are_refused(rt: HostRuntime) -> Result<(), Fail> {
    let names = shifts(rt.alloc())?;
    let found = answer(
        rt.alloc(),
        &names,
        &[symbols(16, 0)],
        &[symbols(0, 2)],
        &[symbols(1, 1)],
    );
    let size = StairFault::Fault(Fault::Overflow(Kind::Size));
    assert!(rt; found.is_err());
    assert_eq!(rt; found.err(), Some(size));
    Ok(())
}

#[test]
fn a_name_without_a_pure_power_is_not_finite(rt: HostRuntime) -> Result<(), Fail> {
    let names = shifts(rt.alloc())?;
    let found = answer(
        rt.alloc(),
        &names,
        &[symbols(1, 0), symbols(0, 0)],
        &[symbols(3, 2), symbols(0, 4)],
        &[symbols(1, 1)],
    );
    assert_eq!(rt; found.err(), Some(StairFault::NotFinite(1)));
    Ok(())
}

#[test]
fn the_first_generator_that_is_zero_or_trivial_is_named(rt: HostRuntime) -> Result<(), Fail> {
    let names = shifts(rt.alloc())?;
    let zero = answer(rt.alloc(), &names, &[symbols(1, 0)], &[], &[symbols(0, 0)]);
    assert_eq!(rt; zero.err(), Some(StairFault::ZeroGenerator(2)));
    let trivial = answer(rt.alloc(), &names, &[symbols(0, 0)], &[], &[]);
    assert_eq!(rt; trivial.err(), Some(StairFault::Trivial(1)));
    Ok(())
}

// Legendre polynomials: the terms of D[t], of D[x] with S[n], and of S[n]^2 with S[n]
#[test]
fn a_shift_of_order_two_leaves_two_monomials(rt: HostRuntime) -> Result<(), Fail> {
    let names = two_derivations(rt.alloc())?;
    let one = symbols(0, 0);
    let shift = Monomial::name(2);
    let found = answer(
        rt.alloc(),
        &names,
        &[symbols(0, 1), one],
        &[symbols(1, 0), shift, one],
        &[shift.times(&shift).ok_or("fits")?, shift, one],
    );
    let Ok(found) = found else {
        return Err("not found".into());
    };
    assert_eq!(rt; found.len(), 2);
    assert!(rt; found[0] == one);
    assert!(rt; found[1] == shift);
    Ok(())
}
