// Exact divisions: in cells, by steps where the cells do not pay or come to a limit, and those that find nothing.
use crate::tests::{is_listed, poly_of};
use crate::{Fault, Kind, Poly};
use std::alloc::Global;
use std::test::Fail;

// 1 + x + .. + x^(2^doublings - 1)
fn powers_below(alloc: Global, x: &Poly, doublings: u8) -> Result<Poly, Fault> {
    let one = Poly::constant(alloc, 1)?;
    let mut power = x.copy(alloc)?;
    let mut sum = Poly::constant(alloc, 1)?;
    for _ in 0..doublings {
        sum = sum.mul(alloc, &power.add(alloc, &one)?)?;
        power = power.mul(alloc, &power)?;
    }
    Ok(sum)
}

// whether the answer is an overflow of this kind
fn is_overflow(answer: Result<Option<Poly>, Fault>, kind: Kind) -> bool {
    match answer {
        Err(fault) => fault == Fault::Overflow(kind),
        Ok(_) => false,
    }
}

// whether the answer is the polynomial with these terms
fn is_quotient(answer: &Option<Poly>, terms: &[(u16, u16, i128)]) -> bool {
    match answer {
        Some(p) => is_listed(p, terms),
        None => false,
    }
}

#[test]
fn an_exact_quotient_is_found(rt: HostRuntime) -> Result<(), Fail> {
    let by = poly_of(rt.alloc(), &[(0, 1, 1), (0, 0, 1)])?;
    let p = poly_of(rt.alloc(), &[(0, 2, 1), (0, 1, 3), (0, 0, 2)])?;
    let turned = poly_of(rt.alloc(), &[(0, 2, 1), (0, 0, -1)])?;
    let other = poly_of(rt.alloc(), &[(0, 0, 1), (0, 1, -1)])?;
    let zero = Poly::zero(rt.alloc());
    assert!(rt; !by.is_zero() && !other.is_zero());
    assert!(rt; is_quotient(&p.div_exact(rt.alloc(), &by)?, &[(0, 1, 1), (0, 0, 2)]));
    assert!(rt; is_quotient(&p.quotient(rt.alloc(), &by)?, &[(0, 1, 1), (0, 0, 2)]));
    assert!(rt;
        is_quotient(
            &turned.div_exact(rt.alloc(), &other)?,
            &[(0, 1, -1), (0, 0, -1)]
        )
    );
    assert!(rt; is_quotient(&zero.div_exact(rt.alloc(), &by)?, &[]));
    Ok(())
}

#[test]
fn an_inexact_division_finds_nothing(rt: HostRuntime) -> Result<(), Fail> {
    let by = poly_of(rt.alloc(), &[(0, 1, 1), (0, 0, 1)])?;
    let four = poly_of(rt.alloc(), &[(0, 1, 4)])?;
    let p = poly_of(rt.alloc(), &[(0, 2, 1), (0, 0, 1)])?;
    let even = poly_of(rt.alloc(), &[(0, 2, 2), (0, 1, 2)])?;
    assert!(rt; !by.is_zero() && !four.is_zero());
    assert!(rt; p.div_exact(rt.alloc(), &by)?.is_none());
    assert!(rt; even.div_exact(rt.alloc(), &four)?.is_none());
    assert!(rt; even.quotient(rt.alloc(), &four)?.is_none());
    Ok(())
}

#[test]
fn a_division_overflows_by_its_numbers(rt: HostRuntime) -> Result<(), Fail> {
    let k = Poly::name(rt.alloc(), 1)?;
    let half = Poly::constant(rt.alloc(), 1 << 126)?;
    let less = Poly::constant(rt.alloc(), (1 << 126) - 1)?;
    let p = half.mul(rt.alloc(), &k)?;
    let q = less.mul(rt.alloc(), &k)?;
    assert!(rt; !k.is_zero());
    assert!(rt; is_overflow(p.div_exact(rt.alloc(), &k), Kind::Number));
    assert!(rt; p.quotient(rt.alloc(), &k)?.is_none());
    assert!(rt; is_quotient(&q.div_exact(rt.alloc(), &k)?, &[(0, 0, (1 << 126) - 1)]));
    Ok(())
}

#[test]
fn a_division_overflows_by_its_terms(rt: HostRuntime) -> Result<(), Fail> {
    let n = Poly::name(rt.alloc(), 0)?;
    let one = Poly::constant(rt.alloc(), 1)?;
    let rows = powers_below(rt.alloc(), &n, 10)?;
    let columns = powers_below(rt.alloc(), &Poly::name(rt.alloc(), 1)?, 9)?;
    let by = rows.mul(rt.alloc(), &columns)?;
    let p = by.mul(rt.alloc(), &n)?;
    let more = p.add(rt.alloc(), &one)?;
    assert!(rt; !by.is_zero());
    assert_eq!(rt; p.terms().len(), 1 << 19);
    assert!(rt; is_quotient(&p.div_exact(rt.alloc(), &by)?, &[(1, 0, 1)]));
    assert!(rt; is_overflow(more.div_exact(rt.alloc(), &by), Kind::Terms));
    Ok(())
}

// a power of a + b·n + c·k + z, where z is the name 2
fn power(alloc: Global, a: i64, b: i64, c: i64, exponent: u8) -> Result<Poly, Fault> {
    let rows = Poly::constant(alloc, i128::from(b))?.mul(alloc, &Poly::name(alloc, 0)?)?;
    let columns = Poly::constant(alloc, i128::from(c))?.mul(alloc, &Poly::name(alloc, 1)?)?;
    let two = rows
        .add(alloc, &columns)?
        .add(alloc, &Poly::name(alloc, 2)?)?;
    let form = two.add(alloc, &Poly::constant(alloc, i128::from(a))?)?;
    let mut product = Poly::constant(alloc, 1)?;
    for _ in 0..exponent {
        product = product.mul(alloc, &form)?;
    }
    Ok(product)
}

// whether the answer is the same polynomial
fn is_same(answer: &Option<Poly>, p: &Poly) -> bool {
    match answer {
        Some(q) => q.same(p),
        None => false,
    }
}

#[test]
fn a_dense_quotient_is_found_in_cells(rt: HostRuntime) -> Result<(), Fail> {
    let q = power(rt.alloc(), 1, -2, 3, 6)?;
    let by = power(rt.alloc(), -5, 1, 1, 5)?;
    let p = q.mul(rt.alloc(), &by)?;
    let more = p.add(rt.alloc(), &Poly::constant(rt.alloc(), 1)?)?;
    assert!(rt; !by.is_zero());
    assert_eq!(rt; q.terms().len(), 84);
    assert!(rt; is_same(&p.div_exact(rt.alloc(), &by)?, &q));
    assert!(rt; is_same(&p.quotient(rt.alloc(), &by)?, &q));
    assert!(rt; more.div_exact(rt.alloc(), &by)?.is_none());
    Ok(())
}

#[test]
fn a_quotient_from_cells_is_in_falling_order(rt: HostRuntime) -> Result<(), Fail> {
    let q = poly_of(rt.alloc(), &[(1, 0, 2), (0, 3, -1), (0, 0, 7)])?;
    let by = poly_of(rt.alloc(), &[(1, 1, 1), (0, 0, -3)])?;
    let p = q.mul(rt.alloc(), &by)?;
    assert!(rt; !by.is_zero());
    assert!(rt;
        is_quotient(
            &p.div_exact(rt.alloc(), &by)?,
            &[(0, 3, -1), (1, 0, 2), (0, 0, 7)]
        )
    );
    Ok(())
}

#[test]
fn a_sparse_quotient_is_found_by_steps(rt: HostRuntime) -> Result<(), Fail> {
    let q = poly_of(rt.alloc(), &[(70, 0, 1), (0, 90, -1)])?;
    let by = poly_of(rt.alloc(), &[(0, 80, 1), (60, 0, 1), (0, 0, 2)])?;
    let p = q.mul(rt.alloc(), &by)?;
    assert!(rt; !by.is_zero());
    assert!(rt; is_same(&p.div_exact(rt.alloc(), &by)?, &q));
    Ok(())
}

#[test]
fn a_quotient_near_the_limit_is_found_by_steps(rt: HostRuntime) -> Result<(), Fail> {
    let large = Poly::constant(rt.alloc(), 1 << 124)?;
    let q = poly_of(rt.alloc(), &[(1, 0, 1), (0, 0, 1)])?.mul(rt.alloc(), &large)?;
    let by = poly_of(rt.alloc(), &[(0, 1, 1), (0, 0, 1)])?;
    let p = q.mul(rt.alloc(), &by)?;
    assert!(rt; !by.is_zero());
    assert!(rt;
        is_quotient(
            &p.div_exact(rt.alloc(), &by)?,
            &[(1, 0, 1 << 124), (0, 0, 1 << 124)]
        )
    );
    Ok(())
}
