// Each call that takes memory once, with values computed by hand.
use crate::{Fault, Kind, LARGEST_NORM, Monomial, Poly};
use std::alloc::Global;
use std::cmp::Ordering;
use std::test::Fail;

// (n - k + 1) * (n - k), where n and k are the names 0 and 1
fn falling_pair(alloc: Global) -> Result<Poly, Fault> {
    let n = Poly::name(alloc, 0)?;
    let k = Poly::name(alloc, 1)?;
    let one = Poly::constant(alloc, 1)?;
    let difference = n.sub(alloc, &k)?;
    let more = difference.add(alloc, &one)?;
    more.mul(alloc, &difference)
}

// whether the terms are these coefficients of the monomials with these exponents of n and k
pub(crate) fn is_listed(p: &Poly, terms: &[(u16, u16, i128)]) -> bool {
    let mut listed = p.terms().len() == terms.len();
    for (t, want) in p.terms().iter().zip(terms) {
        listed = listed && t.mono.exp(0) == want.0 && t.mono.exp(1) == want.1 && t.coef == want.2;
    }
    listed
}

#[test]
fn a_product_is_expanded(rt: HostRuntime) -> Result<(), Fail> {
    let p = falling_pair(rt.alloc())?;
    assert!(rt;
        is_listed(
            &p,
            &[(2, 0, 1), (1, 1, -2), (0, 2, 1), (1, 0, 1), (0, 1, -1)]
        )
    );
    assert_eq!(rt; p.norm(), 6);
    assert!(rt; p.contains(1));
    assert!(rt; !p.contains(2));
    Ok(())
}

#[test]
fn a_shift_expands_the_powers(rt: HostRuntime) -> Result<(), Fail> {
    let n = Poly::name(rt.alloc(), 0)?;
    let square = n.mul(rt.alloc(), &n)?;
    let cube = square.mul(rt.alloc(), &n)?;
    let shifted = cube.shift(rt.alloc(), 0, 2)?;
    assert!(rt; is_listed(&shifted, &[(3, 0, 1), (2, 0, 6), (1, 0, 12), (0, 0, 8)]));
    assert!(rt; cube.shift(rt.alloc(), 1, 2)?.same(&cube));
    assert!(rt; cube.shift(rt.alloc(), 0, 0)?.same(&cube));
    Ok(())
}

#[test]
fn a_derivative_lowers_the_exponents(rt: HostRuntime) -> Result<(), Fail> {
    let p = falling_pair(rt.alloc())?;
    let derived = p.derive(rt.alloc(), 0)?;
    assert!(rt; is_listed(&derived, &[(1, 0, 2), (0, 1, -2), (0, 0, 1)]));
    Ok(())
}

#[test]
fn opposite_terms_vanish(rt: HostRuntime) -> Result<(), Fail> {
    let p = falling_pair(rt.alloc())?;
    let negative = p.neg(rt.alloc())?;
    assert!(rt; p.add(rt.alloc(), &negative)?.is_zero());
    match p.fits_sum(&negative) {
        None => assert!(rt; p.plus(rt.alloc(), &negative)?.is_zero()),
        Some(kind) => assert_eq!(rt; Some(kind), None),
    }
    assert!(rt; p.copy(rt.alloc())?.same(&p));
    assert!(rt; !negative.same(&p));
    Ok(())
}

#[test]
fn a_monomial_is_one_term(rt: HostRuntime) -> Result<(), Fail> {
    let m = Monomial::name(0)
        .times(&Monomial::name(1))
        .ok_or("too high")?;
    let p = Poly::monomial(rt.alloc(), &m)?;
    assert!(rt; is_listed(&p, &[(1, 1, 1)]));
    Ok(())
}

#[test]
fn the_limit_is_the_last_that_fits(rt: HostRuntime) -> Result<(), Fail> {
    let most = Poly::constant(rt.alloc(), i128::MAX)?;
    let one = Poly::constant(rt.alloc(), 1)?;
    let two = Poly::constant(rt.alloc(), 2)?;
    assert_eq!(rt; most.norm(), LARGEST_NORM);
    assert!(rt; most.mul(rt.alloc(), &one)?.same(&most));
    assert_eq!(rt; most.fits_product(&two), Some(Kind::Number));
    assert_eq!(rt; most.fits_sum(&one), Some(Kind::Number));
    assert_eq!(rt; one.fits_sum(&two), None);
    let overflows = match most.mul(rt.alloc(), &two) {
        Err(fault) => fault == Fault::Overflow(Kind::Number),
        Ok(_) => false,
    };
    assert!(rt; overflows);
    Ok(())
}

// the polynomial with these coefficients of the monomials with these exponents of n and k
pub(crate) fn poly_of(alloc: Global, terms: &[(u16, u16, i64)]) -> Result<Poly, Fault> {
    let n = Poly::name(alloc, 0)?;
    let k = Poly::name(alloc, 1)?;
    let mut sum = Poly::zero(alloc);
    for t in terms {
        let mut p = Poly::constant(alloc, i128::from(t.2))?;
        for _ in 0..t.0 {
            p = p.mul(alloc, &n)?;
        }
        for _ in 0..t.1 {
            p = p.mul(alloc, &k)?;
        }
        sum = sum.add(alloc, &p)?;
    }
    Ok(sum)
}

#[test]
fn a_split_takes_the_parts_out(rt: HostRuntime) -> Result<(), Fail> {
    let p = poly_of(rt.alloc(), &[(2, 1, -6), (1, 1, 4)])?;
    let most = Poly::constant(rt.alloc(), -i128::MAX)?;
    assert!(rt; !p.is_zero() && !most.is_zero());
    let parts = p.split(rt.alloc())?;
    assert!(rt; parts.negative);
    assert_eq!(rt; parts.content, 2);
    assert_eq!(rt;
        (parts.mono.exp(0), parts.mono.exp(1), parts.mono.total()),
        (1, 1, 2)
    );
    assert!(rt; is_listed(&parts.primitive, &[(1, 0, 3), (0, 0, -2)]));
    assert!(rt; is_listed(&p.primitive_form(rt.alloc())?, &[(2, 1, 3), (1, 1, -2)]));
    assert_eq!(rt; most.content(), LARGEST_NORM);
    assert!(rt; is_listed(&most.split(rt.alloc())?.primitive, &[(0, 0, 1)]));
    assert_eq!(rt; Poly::zero(rt.alloc()).content(), 0);
    Ok(())
}

#[test]
fn a_part_is_a_coefficient(rt: HostRuntime) -> Result<(), Fail> {
    let p = poly_of(rt.alloc(), &[(1, 2, 1), (0, 2, 1), (1, 1, 3), (0, 0, 5)])?;
    let n = Monomial::name(0);
    let k = Monomial::name(1);
    let square = k.times(&k).ok_or("too high")?;
    let both = n.times(&k).ok_or("too high")?;
    assert!(rt; is_listed(&p.part(rt.alloc(), &[1], &square)?, &[(1, 0, 1), (0, 0, 1)]));
    assert!(rt; is_listed(&p.part(rt.alloc(), &[1], &Monomial::one())?, &[(0, 0, 5)]));
    assert!(rt; is_listed(&p.part(rt.alloc(), &[0, 1], &both)?, &[(0, 0, 3)]));
    assert!(rt; p.part(rt.alloc(), &[1], &n)?.is_zero());
    Ok(())
}

#[test]
fn polynomials_are_sorted_by_their_terms(rt: HostRuntime) -> Result<(), Fail> {
    let twice = poly_of(rt.alloc(), &[(1, 0, 2), (0, 0, 1)])?;
    let sum = poly_of(rt.alloc(), &[(1, 0, 1), (0, 1, 1)])?;
    let n = poly_of(rt.alloc(), &[(1, 0, 1)])?;
    let minus = poly_of(rt.alloc(), &[(1, 0, -1)])?;
    assert_eq!(rt; twice.cmp(&sum), Ordering::Greater);
    assert_eq!(rt; n.cmp(&sum), Ordering::Less);
    assert_eq!(rt; minus.cmp(&n), Ordering::Less);
    assert_eq!(rt; sum.cmp(&sum), Ordering::Equal);
    Ok(())
}
