// What the clauses cannot say: values from outside, and that calls succeed.
use crate::{Monomial, up_to};
use std::cmp::Ordering;
use std::test::Fail;

#[test]
fn a_product_over_a_factor_is_the_other(rt: HostRuntime) -> Result<(), Fail> {
    let x = Monomial::name(0);
    let y = Monomial::name(5);
    let square = x.times(&x).ok_or("fits")?;
    let product = square.times(&y).ok_or("fits")?;
    assert_eq!(rt; product.total(), 3);
    assert_eq!(rt; product.exp(0), 2);
    assert!(rt; product.over(&square).ok_or("divides")? == y);
    assert!(rt; square.over(&y).is_none());
    Ok(())
}

#[test]
fn the_total_decides_before_the_first_name(rt: HostRuntime) -> Result<(), Fail> {
    let x = Monomial::name(0);
    let y = Monomial::name(1);
    let square = y.times(&y).ok_or("fits")?;
    assert!(rt; x.cmp(&y) == Ordering::Greater);
    assert!(rt; x.cmp(&square) == Ordering::Less);
    Ok(())
}

#[test]
fn a_total_of_4095_fits_and_4096_does_not(rt: HostRuntime) -> Result<(), Fail> {
    let x = Monomial::name(2);
    let mut power = Monomial::one();
    for _ in 0..12 {
        power = power.times(&power).ok_or("fits")?.times(&x).ok_or("fits")?;
    }
    assert_eq!(rt; power.total(), 4095);
    assert!(rt; power.times(&x).is_none());
    Ok(())
}

#[test]
fn lists_have_as_many_monomials_as_there_are(rt: HostRuntime) -> Result<(), Fail> {
    let few = up_to(rt.alloc(), &[1, 4], 2)?;
    assert_eq!(rt; few.len(), 6);
    assert!(rt; few[1] == Monomial::name(4));
    let most = up_to(rt.alloc(), &[0, 1, 2, 3, 4, 5], 12)?;
    assert_eq!(rt; most.len(), 18564);
    assert_eq!(rt; up_to(rt.alloc(), &[], 12)?.len(), 1);
    Ok(())
}
