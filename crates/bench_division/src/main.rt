//! Multiplies and divides polynomials of three names and adds fractions, for `bench/division.py` to time.
//!
//! Without words it divides one small product and prints what it found. `multiply D E ROUNDS` multiplies the power
//! D of x + y + z + 1 by the power E of x + 2y + 3z + 1, ROUNDS times; `divide D E ROUNDS` divides their product by the
//! second; `sum D E ROUNDS` adds the first over x + y + 2z + 1 and the second over 2x + y + z + 1. After `multiply` or
//! `divide`, the words TERMS COEFS ROUNDS NAMES BOUND are for two polynomials that are drawn (`random`). The line that it
//! prints has the number of terms and the norm of what it found, so that no work is left out.
#![tactic(auto)]

mod powers;
mod random;

use crate::powers::{form, power};
use crate::random::{Shape, drawn};
use ct_frac::Frac;
use ct_poly::{Fault, Poly};
use std::alloc::Global;
use std::{env, io};

#[derive(Clone, Copy, PartialEq, Eq)]
enum Work {
    Multiply,
    Divide,
    Sum,
}

fn main(rt: HostRuntime) -> io::Result<()> {
    let alloc = rt.alloc();
    let mut words = env::args(&rt)?;
    let _ = words.next();
    let work = work_of(words.next());
    let first = number(words.next(), 3);
    let second = number(words.next(), 2);
    let rounds = number(words.next(), 1);
    let names = number(words.next(), 0);
    let shape = Shape {
        terms: first,
        coefs: second,
        names,
        bound: number(words.next(), 2),
    };
    match measured(alloc, work, shape, rounds) {
        Ok(Some(found)) => println!(rt; "{} terms, norm {}", found.terms().len(), found.norm()),
        Ok(None) => println!(rt; "no quotient"),
        Err(_) => println!(rt; "an overflow, or no memory"),
    }
}

fn work_of(word: Option<String>) -> Work {
    match word {
        Some(text) => match text.as_str() {
            "multiply" => Work::Multiply,
            "sum" => Work::Sum,
            _ => Work::Divide,
        },
        None => Work::Divide,
    }
}

fn number(word: Option<String>, default: u64) -> u64 {
    match word {
        Some(text) => text.as_str().parse::<u64>().unwrap_or(default),
        None => default,
    }
}

/// The result for both polynomials, computed in each of the rounds.
fn measured(alloc: Global, work: Work, shape: Shape, rounds: u64) -> Result<Option<Poly>, Fault> {
    if shape.names > 0 {
        let p = drawn(alloc, shape, 1)?;
        let q = drawn(alloc, shape, 2)?;
        return repeated(alloc, work, &p, &q, rounds);
    }
    let p = power(alloc, &form(alloc, 1, 1, 1)?, shape.terms)?;
    let q = power(alloc, &form(alloc, 1, 2, 3)?, shape.coefs)?;
    repeated(alloc, work, &p, &q, rounds)
}

fn repeated(
    alloc: Global,
    work: Work,
    p: &Poly,
    q: &Poly,
    rounds: u64,
) -> Result<Option<Poly>, Fault> {
    match work {
        Work::Multiply => products(alloc, p, q, rounds),
        Work::Divide => quotients(alloc, p, q, rounds),
        Work::Sum => sums(alloc, p, q, rounds),
    }
}

fn products(alloc: Global, p: &Poly, q: &Poly, rounds: u64) -> Result<Option<Poly>, Fault> {
    let mut found = None;
    for _ in 0..rounds {
        found = Some(p.mul(alloc, q)?);
    }
    Ok(found)
}

/// The product divided by the second factor.
fn quotients(alloc: Global, p: &Poly, q: &Poly, rounds: u64) -> Result<Option<Poly>, Fault> {
    if q.is_zero() {
        return Ok(None);
    }
    let product = p.mul(alloc, q)?;
    let mut found = None;
    for _ in 0..rounds {
        found = product.quotient(alloc, q)?;
    }
    Ok(found)
}

/// The numerator of the sum of both, each over a form of its own.
fn sums(alloc: Global, p: &Poly, q: &Poly, rounds: u64) -> Result<Option<Poly>, Fault> {
    let one = form(alloc, 1, 1, 2)?;
    let other = form(alloc, 2, 1, 1)?;
    if one.is_zero() || other.is_zero() {
        return Ok(None);
    }
    let x = Frac::quotient(alloc, p, &one)?;
    let y = Frac::quotient(alloc, q, &other)?;
    let mut found = None;
    for _ in 0..rounds {
        let sum = x.add(alloc, &y)?;
        found = Some(sum.numerator().copy(alloc)?);
    }
    Ok(found)
}
