// Values from outside: small ones, and those at the limit of 128 bits.
use crate::{IntFault, Rat, gcd};
use std::cmp::Ordering;
use std::test::Fail;

const LARGEST: i128 = i128::MAX;

#[test]
fn a_ratio_is_brought_to_lowest_terms(rt: HostRuntime) -> Result<(), Fail> {
    let value = Rat::new(6, -4)?;
    assert_eq!(rt; (value.num(), value.den()), (-3, 2));
    let zero = Rat::new(0, -7)?;
    assert_eq!(rt; (zero.num(), zero.den()), (0, 1));
    let least = Rat::new(-LARGEST, LARGEST)?;
    assert_eq!(rt; (least.num(), least.den()), (-1, 1));
    assert_eq!(rt; Rat::new(1, 0), Err(IntFault::ZeroDivisor));
    Ok(())
}

#[test]
fn a_half_and_a_third_are_five_sixths(rt: HostRuntime) -> Result<(), Fail> {
    let half = Rat::new(1, 2)?;
    let third = Rat::new(1, 3)?;
    assert_eq!(rt; half.add(&third)?, Rat::new(5, 6)?);
    assert_eq!(rt; half.sub(&third)?, Rat::new(1, 6)?);
    assert_eq!(rt; half.mul(&third)?, Rat::new(1, 6)?);
    assert_eq!(rt; half.div(&third)?, Rat::new(3, 2)?);
    assert_eq!(rt; half.cmp(&third), Ordering::Greater);
    Ok(())
}

#[test]
fn a_sum_overflows_by_the_size_of_its_summands(rt: HostRuntime) -> Result<(), Fail> {
    let greatest = Rat::new(LARGEST, 1)?;
    let one = Rat::new(1, 1)?;
    assert_eq!(rt; greatest.add(&one), Err(IntFault::Overflow));
    assert_eq!(rt; greatest.sub(&one), Err(IntFault::Overflow));
    assert_eq!(rt; greatest.sub(&Rat::new(0, 1)?)?, greatest);
    Ok(())
}

#[test]
fn a_product_is_judged_after_cancelling(rt: HostRuntime) -> Result<(), Fail> {
    let greatest = Rat::new(LARGEST, 2)?;
    let least = Rat::new(-2, LARGEST)?;
    assert_eq!(rt; greatest.mul(&least)?, Rat::new(-1, 1)?);
    assert_eq!(rt; greatest.mul(&greatest), Err(IntFault::Overflow));
    assert_eq!(rt; greatest.div(&greatest)?, Rat::new(1, 1)?);
    assert_eq!(rt; greatest.div(&Rat::new(0, 5)?), Err(IntFault::ZeroDivisor));
    Ok(())
}

#[test]
fn great_numbers_close_together_are_compared(rt: HostRuntime) -> Result<(), Fail> {
    let below = Rat::new(LARGEST - 2, LARGEST - 1)?;
    let above = Rat::new(LARGEST - 1, LARGEST)?;
    assert_eq!(rt; below.cmp(&above), Ordering::Less);
    assert_eq!(rt; above.cmp(&above), Ordering::Equal);
    let negative = Rat::new(1 - LARGEST, LARGEST)?;
    let higher = Rat::new(2 - LARGEST, LARGEST - 1)?;
    assert_eq!(rt; negative.cmp(&higher), Ordering::Less);
    assert_eq!(rt; above.cmp(&negative), Ordering::Greater);
    Ok(())
}

#[test]
fn a_common_divisor_is_the_greatest(rt: HostRuntime) {
    assert_eq!(rt; gcd(0, 0), 0);
    assert_eq!(rt; gcd(0, 12), 12);
    assert_eq!(rt; gcd(84, 36), 12);
    assert_eq!(rt; gcd(u128::MAX, 255), 255);
}
