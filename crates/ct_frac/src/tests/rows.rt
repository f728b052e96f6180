// Tables of written results, computed outside by the rules of written fractions. A polynomial is given by its terms: the
// number, the exponent of n, which is the name 0, and that of k, the name 1.
use crate::tests::ratio;
use crate::{Fault, Frac, Kind, Poly};
use ct_mono::Monomial;
use std::alloc::Global;

mod derivatives;
mod differences;
mod products;
mod quotients;
mod shifts;
mod sums;

type Terms = &'static [(i128, u16, u16)];

/// Numerator and denominator of both operands, the kind of the overflow if there is one, and the numerator, the whole
/// number and the factors with their exponents of the result.
type Row = (
    Terms,
    Terms,
    Terms,
    Terms,
    &'static str,
    Terms,
    u128,
    &'static [(Terms, u32)],
);

// The product of a power of n and one of k.
fn monomial(n: u16, k: u16) -> Option<Monomial> {
    let one = Monomial::one();
    if n > 4095 || one.total() + n > 4095 {
        return None;
    }
    let power = one.with_exp(0, n);
    if k > 4095 || power.total() + k > 4095 {
        return None;
    }
    Some(power.with_exp(1, k))
}

fn poly(alloc: Global, terms: &[(i128, u16, u16)]) -> Result<Poly, Fault> {
    let mut sum = Poly::zero(alloc);
    for (number, n, k) in terms {
        let Some(mono) = monomial(*n, *k) else {
            return Err(Fault::Overflow(Kind::Degree));
        };
        if *number == i128::MIN {
            return Err(Fault::Overflow(Kind::Number));
        }
        let number = Poly::constant(alloc, *number)?;
        let term = Poly::monomial(alloc, &mono)?.mul(alloc, &number)?;
        sum = sum.add(alloc, &term)?;
    }
    Ok(sum)
}

fn fraction(alloc: Global, numerator: Terms, denominator: Terms) -> Result<Frac, Fault> {
    ratio(alloc, &poly(alloc, numerator)?, &poly(alloc, denominator)?)
}

/// What the operation makes of both fractions.
fn result(
    alloc: Global,
    operation: &str,
    n: Terms,
    d: Terms,
    m: Terms,
    e: Terms,
) -> Result<Frac, Fault> {
    let x = fraction(alloc, n, d)?;
    let y = fraction(alloc, m, e)?;
    match operation {
        "sum" => x.add(alloc, &y),
        "difference" => x.sub(alloc, &y),
        "product" => x.mul(alloc, &y),
        "sigma of n" => x.sigma(alloc, 0),
        "sigma of k" => x.sigma(alloc, 1),
        "delta by n" => x.delta(alloc, 0),
        "delta by k" => x.delta(alloc, 1),
        _ => Ok(x),
    }
}

fn fault_name(fault: Fault) -> &'static str {
    match fault {
        Fault::Overflow(Kind::Degree) => "Degree",
        Fault::Overflow(Kind::Terms) => "Terms",
        Fault::Overflow(Kind::Number) => "Number",
        Fault::Overflow(Kind::Size) => "Size",
        Fault::NoMemory => "NoMemory",
    }
}

fn has_factors(alloc: Global, f: &Frac, factors: &[(Terms, u32)]) -> Result<bool, Fault> {
    let mut same = f.den().factors().len() == factors.len();
    for (factor, (terms, exp)) in f.den().factors().iter().zip(factors) {
        same = same && factor.poly.same(&poly(alloc, terms)?) && factor.exp == *exp;
    }
    Ok(same)
}

/// Whether the fraction is written so.
fn is_listed(
    alloc: Global,
    f: &Frac,
    numerator: Terms,
    whole: u128,
    factors: &[(Terms, u32)],
) -> Result<bool, Fault> {
    let numerator = poly(alloc, numerator)?;
    if !f.numerator().same(&numerator) || f.den().whole() != whole {
        return Ok(false);
    }
    has_factors(alloc, f, factors)
}

/// Whether the operation gives what the row lists.
fn agrees(alloc: Global, operation: &str, row: &Row) -> Result<bool, Fault> {
    let (n, d, m, e, overflow, numerator, whole, factors) = row;
    match result(alloc, operation, n, d, m, e) {
        Ok(found) => {
            let listed = is_listed(alloc, &found, numerator, *whole, factors)?;
            Ok(listed && overflow.is_empty())
        }
        Err(fault) => Ok(*overflow == fault_name(fault)),
    }
}

fn all_agree(alloc: Global, operation: &str, rows: &[Row]) -> Result<bool, Fault> {
    let mut all = true;
    for row in rows {
        all = agrees(alloc, operation, row)? && all;
    }
    Ok(all)
}
