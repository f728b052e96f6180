//! Eliminates the matrix that it reads, for `bench/elimination` to time.
//!
//! The word tells how often. Each line of the input is a number: the numbers of certificate columns, of columns and of rows, and for
//! each entry, row by row, its number of terms and of each term six exponents and the coefficient. The line that it prints has the
//! number of pivots, the free column or -1, and of all entries of both parts the number of terms and a sum that each of their
//! coefficients and exponents changes; or the kind of the overflow.
#![tactic(auto)]

mod digest;
mod numbers;
mod reading;

use crate::digest::{Digest, digest_of};
use crate::numbers::Numbers;
use crate::reading::read_matrix;
use ct_linsolve::{Echelon, Matrix, eliminate};
use ct_poly::{Fault, Kind};
use std::alloc::Global;
use std::io::{BufRead, BufReader};
use std::{env, io};

fn main(rt: HostRuntime) -> io::Result<()> {
    let alloc = rt.alloc();
    let mut words = env::args(&rt)?;
    let _ = words.next();
    let rounds = match words.next() {
        Some(word) => word.as_str().parse::<u64>().unwrap_or(1),
        None => 1,
    };
    let mut list = Vec::new(alloc);
    for line in BufReader::new(alloc, rt.reader())?.lines(alloc) {
        list.push(line?.as_str().parse::<i128>().unwrap_or(0))?;
    }
    match measured(alloc, Numbers { list, at: 0 }, rounds) {
        Ok(Some(found)) => println!(rt;
            "pivots {} free {} terms {} sum {}",
            found.pivots, found.free, found.terms, found.sum
        ),
        Ok(None) => println!(rt; "nothing"),
        Err(Fault::Overflow(kind)) => println!(rt; "overflow {}", word_of(kind)),
        Err(Fault::NoMemory) => println!(rt; "no memory"),
    }
}

fn word_of(kind: Kind) -> &'static str {
    match kind {
        Kind::Degree => "degree",
        Kind::Terms => "terms",
        Kind::Number => "number",
        Kind::Size => "size",
    }
}

fn measured(alloc: Global, numbers: Numbers, rounds: u64) -> Result<Option<Digest>, Fault> {
    let Some(matrix) = read_matrix(alloc, numbers)? else {
        return Ok(None);
    };
    match repeated(alloc, &matrix, rounds)? {
        Some(e) => Ok(Some(digest_of(&e))),
        None => Ok(None),
    }
}

/// What the last of the rounds gives.
fn repeated(alloc: Global, matrix: &Matrix, rounds: u64) -> Result<Option<Echelon>, Fault> {
    let mut last = Ok(None);
    for _ in 0..rounds {
        last = once(alloc, matrix);
    }
    last
}

fn once(alloc: Global, matrix: &Matrix) -> Result<Option<Echelon>, Fault> {
    Ok(Some(eliminate(alloc, matrix)?))
}
