// Each call that takes memory once, with values computed by hand. The names 0 and 1 are n, a shift, and x, a derivation.
ghost use Rattle.std.specs.Prelude.{◌<◌};

use crate::{Action, Algebra, NameInfo, Op, Role};
use ct_mono::{Fault, Kind, LARGEST_NORM, Monomial, NoMemory};
use ct_poly::Poly;
use std::alloc::Global;
use std::test::Fail;

fn shift_and_derivation(alloc: Global) -> Result<Algebra, NoMemory> {
    let n = NameInfo {
        text: String::from_str(alloc, "n")?,
        action: Action::Shift,
        role: Role::Summed,
    };
    let x = NameInfo {
        text: String::from_str(alloc, "x")?,
        action: Action::Derive,
        role: Role::Free,
    };
    let mut names = Vec::new(alloc);
    names.push(n)?;
    names.push(x)?;
    Ok(Algebra::new(names))
}

// whether the coefficient terms are these: symbols of n and x, powers of n and x, and a number
fn is_listed(p: &Op, terms: &[(u16, u16, u16, u16, i128)]) -> bool {
    let mut listed = true;
    let mut rest = terms;
    for t in p.terms() {
        for c in t.coef.terms() {
            let Some((want, more)) = rest.split_first() else {
                return false;
            };
            listed = listed && t.mono.exp(0) == want.0 && t.mono.exp(1) == want.1;
            listed = listed
                && c.mono.exp(0) == want.2
                && c.mono.exp(1) == want.3
                && c.coef == want.4;
            rest = more;
        }
    }
    listed && rest.is_empty()
}

fn name(alloc: Global, i: u8) -> Result<Op, NoMemory>
    requires { i < 6 }
{
    let p = Poly::name(alloc, i)?;
    let r = Op::of_poly(alloc, p)?;
    Ok(r)
}

#[test]
fn a_shift_moves_past_its_name(rt: HostRuntime) -> Result<(), Fail> {
    let algebra = shift_and_derivation(rt.alloc())?;
    let shift = Op::symbol(rt.alloc(), 0)?;
    let n = name(rt.alloc(), 0)?;
    let product = shift.mul(rt.alloc(), &algebra, &n)?;
    assert!(rt; is_listed(&product, &[(1, 0, 1, 0, 1), (1, 0, 0, 0, 1)]));
    let turned = n.mul(rt.alloc(), &algebra, &shift)?;
    let difference = product.sub(rt.alloc(), &turned)?;
    assert!(rt; is_listed(&difference, &[(1, 0, 0, 0, 1)]));
    assert!(rt; difference.same(&shift) && !product.same(&turned));
    Ok(())
}

#[test]
fn derivations_follow_the_rule_of_leibniz(rt: HostRuntime) -> Result<(), Fail> {
    let algebra = shift_and_derivation(rt.alloc())?;
    let derivation = Op::symbol(rt.alloc(), 1)?;
    let x = name(rt.alloc(), 1)?;
    let once = derivation.mul(rt.alloc(), &algebra, &x)?;
    assert!(rt; is_listed(&once, &[(0, 1, 0, 1, 1), (0, 0, 0, 0, 1)]));
    let twice = derivation.mul(rt.alloc(), &algebra, &derivation)?;
    let square = x.mul(rt.alloc(), &algebra, &x)?;
    let product = twice.mul(rt.alloc(), &algebra, &square)?;
    assert!(rt;
        is_listed(
            &product,
            &[(0, 2, 0, 2, 1), (0, 1, 0, 1, 4), (0, 0, 0, 0, 2)]
        )
    );
    assert!(rt;
        is_listed(
            &product.copy(rt.alloc())?,
            &[(0, 2, 0, 2, 1), (0, 1, 0, 1, 4), (0, 0, 0, 0, 2)]
        )
    );
    Ok(())
}

#[test]
fn sums_add_numbers_at_one_key(rt: HostRuntime) -> Result<(), Fail> {
    let shift = Op::symbol(rt.alloc(), 0)?;
    let n = name(rt.alloc(), 0)?;
    let two = Op::of_poly(rt.alloc(), Poly::constant(rt.alloc(), 2)?)?;
    let first = shift.add(rt.alloc(), &n)?;
    assert!(rt; is_listed(&first, &[(1, 0, 0, 0, 1), (0, 0, 1, 0, 1)]));
    let second = n.add(rt.alloc(), &two)?;
    let sum = first.add(rt.alloc(), &second)?;
    assert!(rt; is_listed(&sum, &[(1, 0, 0, 0, 1), (0, 0, 1, 0, 2), (0, 0, 0, 0, 2)]));
    let left = sum.sub(rt.alloc(), &shift)?;
    assert!(rt; is_listed(&left, &[(0, 0, 1, 0, 2), (0, 0, 0, 0, 2)]));
    let again = first.into_sum(rt.alloc(), second)?;
    assert!(rt; is_listed(&again, &[(1, 0, 0, 0, 1), (0, 0, 1, 0, 2), (0, 0, 0, 0, 2)]));
    let symbol = again.into_difference(rt.alloc(), &left)?;
    assert!(rt; is_listed(&symbol, &[(1, 0, 0, 0, 1)]));
    Ok(())
}

// the power 17 of n + 1, and a term beside one of its own
#[test]
fn a_term_joins_a_long_sum(rt: HostRuntime) -> Result<(), Fail> {
    let algebra = shift_and_derivation(rt.alloc())?;
    let n = name(rt.alloc(), 0)?;
    let one = Op::of_poly(rt.alloc(), Poly::constant(rt.alloc(), 1)?)?;
    let base = n.add(rt.alloc(), &one)?;
    let mut power = one;
    for _turn in 0..17 {
        power = power.mul(rt.alloc(), &algebra, &base)?;
    }
    let square = n.mul(rt.alloc(), &algebra, &n)?;
    let cube = square.mul(rt.alloc(), &algebra, &n)?;
    let sum = power.add(rt.alloc(), &cube)?;
    assert!(rt;
        is_listed(
            &sum,
            &[
                (0, 0, 17, 0, 1),
                (0, 0, 16, 0, 17),
                (0, 0, 15, 0, 136),
                (0, 0, 14, 0, 680),
                (0, 0, 13, 0, 2380),
                (0, 0, 12, 0, 6188),
                (0, 0, 11, 0, 12376),
                (0, 0, 10, 0, 19448),
                (0, 0, 9, 0, 24310),
                (0, 0, 8, 0, 24310),
                (0, 0, 7, 0, 19448),
                (0, 0, 6, 0, 12376),
                (0, 0, 5, 0, 6188),
                (0, 0, 4, 0, 2380),
                (0, 0, 3, 0, 681),
                (0, 0, 2, 0, 136),
                (0, 0, 1, 0, 17),
                (0, 0, 0, 0, 1)
            ]
        )
    );
    Ok(())
}

#[test]
fn combinations_add_products(rt: HostRuntime) -> Result<(), Fail> {
    let algebra = shift_and_derivation(rt.alloc())?;
    let mut cofactors = Vec::new(rt.alloc());
    cofactors.push(Op::symbol(rt.alloc(), 0)?)?;
    cofactors.push(Op::symbol(rt.alloc(), 1)?)?;
    let mut generators = Vec::new(rt.alloc());
    generators.push(name(rt.alloc(), 0)?)?;
    generators.push(name(rt.alloc(), 1)?)?;
    assert_eq!(rt; cofactors.len(), generators.len());
    let sum = Op::combine(
        rt.alloc(),
        &algebra,
        cofactors.as_slice(),
        generators.as_slice(),
    )?;
    assert!(rt;
        is_listed(
            &sum,
            &[
                (1, 0, 1, 0, 1),
                (1, 0, 0, 0, 1),
                (0, 1, 0, 1, 1),
                (0, 0, 0, 0, 1)
            ]
        )
    );
    Ok(())
}

#[test]
fn products_overflow_by_degree_and_number(rt: HostRuntime) -> Result<(), Fail> {
    let algebra = shift_and_derivation(rt.alloc())?;
    let one = Poly::constant(rt.alloc(), 1)?;
    let high = Op::of_term(rt.alloc(), one, &Monomial::one().with_exp(0, 4000))?;
    let refused = high.mul(rt.alloc(), &algebra, &high);
    assert!(rt; matches!(refused, Err(Fault::Overflow(Kind::Degree))));
    let large = Op::of_poly(
        rt.alloc(),
        Poly::constant(rt.alloc(), LARGEST_NORM as i128)?,
    )?;
    let doubled = large.add(rt.alloc(), &large);
    assert!(rt; matches!(doubled, Err(Fault::Overflow(Kind::Number))));
    let shift = Op::symbol(rt.alloc(), 0)?;
    let n = name(rt.alloc(), 0)?;
    let scaled = large.mul(rt.alloc(), &algebra, &n)?;
    let passed = shift.mul(rt.alloc(), &algebra, &scaled);
    assert!(rt; matches!(passed, Err(Fault::Overflow(Kind::Number))));
    Ok(())
}

// 1024 times 1024 terms are as many as there may be, so that the numbers before them are judged next
#[test]
fn products_overflow_by_the_count_of_pairs(rt: HostRuntime) -> Result<(), Fail> {
    let algebra = shift_and_derivation(rt.alloc())?;
    let shift = Op::symbol(rt.alloc(), 0)?;
    let one = Poly::constant(rt.alloc(), 1)?;
    let derivations = Op::of_term(rt.alloc(), one, &Monomial::one().with_exp(1, 1023))?;
    let symbols = shift.mul(rt.alloc(), &algebra, &derivations)?;
    let n = Op::of_poly(
        rt.alloc(),
        Poly::monomial(rt.alloc(), &Monomial::one().with_exp(0, 1023))?,
    )?;
    let x = Op::of_poly(
        rt.alloc(),
        Poly::monomial(rt.alloc(), &Monomial::one().with_exp(1, 1023))?,
    )?;
    let most = n.mul(rt.alloc(), &algebra, &x)?;
    let passed = symbols.mul(rt.alloc(), &algebra, &most);
    assert!(rt; matches!(passed, Err(Fault::Overflow(Kind::Number))));
    let more = name(rt.alloc(), 0)?.mul(rt.alloc(), &algebra, &most)?;
    let refused = symbols.mul(rt.alloc(), &algebra, &more);
    assert!(rt; matches!(refused, Err(Fault::Overflow(Kind::Terms))));
    Ok(())
}

#[test]
fn common_divisors_are_those_of_all_coefficients(rt: HostRuntime) -> Result<(), Fail> {
    let algebra = shift_and_derivation(rt.alloc())?;
    let twelve = Op::of_poly(rt.alloc(), Poly::constant(rt.alloc(), 12)?)?;
    let n = name(rt.alloc(), 0)?.times_whole(rt.alloc(), &algebra, 30)?;
    let shift = Op::symbol(rt.alloc(), 0)?;
    let sum = twelve
        .mul(rt.alloc(), &algebra, &shift)?
        .sub(rt.alloc(), &n)?;
    assert_eq!(rt; sum.common_divisor(1), 1);
    assert_eq!(rt; sum.common_divisor(7), 1);
    assert_eq!(rt; sum.common_divisor(8), 2);
    assert_eq!(rt; sum.common_divisor(36), 6);
    assert_eq!(rt; Op::zero(rt.alloc()).common_divisor(36), 36);
    Ok(())
}

#[test]
fn multiples_overflow_by_the_norm(rt: HostRuntime) -> Result<(), Fail> {
    let algebra = shift_and_derivation(rt.alloc())?;
    let one = Op::of_poly(rt.alloc(), Poly::constant(rt.alloc(), 1)?)?;
    let sum = Op::symbol(rt.alloc(), 0)?.add(rt.alloc(), &one)?;
    let half = (LARGEST_NORM - 1) / 2;
    let multiple = sum.times_whole(rt.alloc(), &algebra, half)?;
    let number = half as i128;
    assert!(rt; is_listed(&multiple, &[(1, 0, 0, 0, number), (0, 0, 0, 0, number)]));
    let sum = Op::symbol(rt.alloc(), 0)?.add(rt.alloc(), &one)?;
    let past = sum.times_whole(rt.alloc(), &algebra, half + 1);
    assert!(rt; matches!(&past, Err(Fault::Overflow(Kind::Number))));
    Ok(())
}
