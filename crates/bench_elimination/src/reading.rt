// Matrices from numbers.

use crate::numbers::Numbers;
use ct_linsolve::Matrix;
use ct_mono::{LARGEST_DEGREE, Monomial, NoMemory};
use ct_poly::{Fault, Poly};
use std::alloc::Global;

/// The matrix, where no number is missing.
pub(crate) fn read_matrix(alloc: Global, numbers: Numbers) -> Result<Option<Matrix>, Fault> {
    let mut numbers = numbers;
    let certs = numbers.next_count();
    let width = numbers.next_count();
    let height = numbers.next_count();
    let mut rows = Vec::new(alloc);
    for _ in 0..height {
        append_row(&mut rows, read_row(alloc, &mut numbers, width)?)?;
    }
    Ok(matrix_of(rows, width, certs))
}

fn matrix_of(rows: Vec<Vec<Poly>>, width: usize, certs: usize) -> Option<Matrix> {
    if certs > width {
        return None;
    }
    if !rows.iter().all(|row| row.len() == width) {
        return None;
    }
    Some(Matrix { rows, width, certs })
}

fn read_row(alloc: Global, numbers: &mut Numbers, width: usize) -> Result<Vec<Poly>, Fault> {
    let mut row = Vec::new(alloc);
    for _ in 0..width {
        append(&mut row, read_polynomial(alloc, numbers)?)?;
    }
    Ok(row)
}

fn read_polynomial(alloc: Global, numbers: &mut Numbers) -> Result<Poly, Fault> {
    let count = numbers.next_count();
    let mut sum = Poly::zero(alloc);
    for _ in 0..count {
        let mono = read_monomial(numbers);
        let coef = numbers.next();
        if coef == i128::MIN {
            return Ok(sum);
        }
        let term = Poly::monomial(alloc, &mono)?.mul(alloc, &Poly::constant(alloc, coef)?)?;
        sum = sum.add(alloc, &term)?;
    }
    Ok(sum)
}

fn read_monomial(numbers: &mut Numbers) -> Monomial {
    let mut mono = Monomial::one();
    for i in 0..6u8 {
        let e = numbers.next_count();
        if e <= usize::from(LARGEST_DEGREE) && mono.total() + e as u16 <= LARGEST_DEGREE {
            mono = mono.with_exp(i, e as u16);
        }
    }
    mono
}

fn append(list: &mut Vec<Poly>, p: Poly) -> Result<(), NoMemory> {
    list.push(p)?;
    Ok(())
}

fn append_row(list: &mut Vec<Vec<Poly>>, row: Vec<Poly>) -> Result<(), NoMemory> {
    list.push(row)?;
    Ok(())
}
