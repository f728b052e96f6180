// Matrices with values that another program gives. An entry is written as its terms, as 2nn-3k+1; N, K and X are
// powers with the exponent 1024, and P is the sum of all powers of n below n^2048. Entries stand apart, and `/` is between rows.
ghost use Rattle.std.specs.Prelude.{◌≡◌, IsTrue, length};
ghost use Rattle.std.specs.List.{All};

use crate::{Echelon, eliminate, multiply_out, null_vector, refuting_rows};
use ct_mono::{Fault, Kind};
use ct_poly::{Matrix, Poly};
use std::alloc::Global;

mod tables;

/// Certificate columns, all columns and the rows of a matrix, and the candidates of slimming; then the kind of overflow of the
/// elimination, or both sides, the pivots as pairs of a row and a column, and the free column if there is one; last the kind of
/// overflow of the null vector, or this vector, or without a free column the refuting rows.
type Case = (
    usize,
    usize,
    &'static str,
    &'static str,
    &'static str,
    &'static str,
    &'static [(usize, usize)],
    Option<usize>,
    &'static str,
);

/// What was read of a term.
#[derive(Drop)]
struct Term {
    negative: bool,
    number: Option<i128>,
    power: Poly,
}

fn first_term(alloc: Global, negative: bool) -> Result<Term, Fault> {
    let power = Poly::constant(alloc, 1)?;
    Ok(Term {
        negative,
        number: None,
        power,
    })
}

/// The sum with a further term.
fn with_term(alloc: Global, sum: &Poly, term: &Term) -> Result<Poly, Fault> {
    let number = term.number.unwrap_or(1).max(0);
    let product = Poly::constant(alloc, number)?.mul(alloc, &term.power)?;
    if term.negative {
        sum.sub(alloc, &product)
    } else {
        sum.add(alloc, &product)
    }
}

/// The power of a name with the exponent 1024.
fn high_power(alloc: Global, name: &Poly) -> Result<Poly, Fault> {
    let mut power = name.copy(alloc)?;
    for _ in 0..10 {
        power = power.mul(alloc, &power)?;
    }
    Ok(power)
}

/// 1 + n + .. + n^2047.
fn all_powers(alloc: Global) -> Result<Poly, Fault> {
    let one = Poly::constant(alloc, 1)?;
    let mut power = Poly::name(alloc, 0)?;
    let mut sum = Poly::constant(alloc, 1)?;
    for _ in 0..11 {
        sum = sum.mul(alloc, &power.add(alloc, &one)?)?;
        power = power.mul(alloc, &power)?;
    }
    Ok(sum)
}

fn letter(alloc: Global, b: u8) -> Result<Poly, Fault> {
    match b {
        b'n' => Ok(Poly::name(alloc, 0)?),
        b'k' => Ok(Poly::name(alloc, 1)?),
        b'x' => Ok(Poly::name(alloc, 2)?),
        b'N' => high_power(alloc, &Poly::name(alloc, 0)?),
        b'P' => all_powers(alloc),
        b'K' => high_power(alloc, &Poly::name(alloc, 1)?),
        _ => high_power(alloc, &Poly::name(alloc, 2)?),
    }
}

/// The term with one more digit or letter.
fn with_byte(alloc: Global, term: Term, b: u8) -> Result<Term, Fault> {
    if b.is_ascii_digit() {
        let number = term.number.unwrap_or(0).saturating_mul(10);
        return Ok(Term {
            negative: term.negative,
            number: Some(number.saturating_add(i128::from(b.saturating_sub(b'0')))),
            power: term.power,
        });
    }
    let power = term.power.mul(alloc, &letter(alloc, b)?)?;
    Ok(Term {
        negative: term.negative,
        number: term.number,
        power,
    })
}

fn poly(alloc: Global, text: &str) -> Result<Poly, Fault> {
    let mut sum = Poly::zero(alloc);
    let mut term = first_term(alloc, false)?;
    let mut begun = false;
    for b in text.as_bytes() {
        if *b == b'+' || *b == b'-' {
            if begun {
                sum = with_term(alloc, &sum, &term)?;
            }
            term = first_term(alloc, *b == b'-')?;
        } else {
            term = with_byte(alloc, term, *b)?;
        }
        begun = true;
    }
    with_term(alloc, &sum, &term)
}

fn polys(alloc: Global, text: &str) -> Result<Vec<Poly>, Fault> {
    let mut row = Vec::new(alloc);
    for word in text.split_whitespace() {
        row.push(poly(alloc, word)?).map_err(|_| Fault::NoMemory)?;
    }
    Ok(row)
}

fn rows(alloc: Global, text: &str) -> Result<Vec<Vec<Poly>>, Fault> {
    let mut done = Vec::new(alloc);
    let mut row = Vec::new(alloc);
    for word in text.split_whitespace() {
        if word == "/" {
            done.push(row).map_err(|_| Fault::NoMemory)?;
            row = Vec::new(alloc);
        } else {
            row.push(poly(alloc, word)?).map_err(|_| Fault::NoMemory)?;
        }
    }
    if !row.is_empty() {
        done.push(row).map_err(|_| Fault::NoMemory)?;
    }
    Ok(done)
}

/// Whether each row has this many entries.
fn are_long(rows: &[Vec<Poly>], width: usize) -> bool
    ensures { IsTrue result → All (λ row. length row.items ≡ width) rows.now }
{
    let mut rest = rows;
    'measuring: while let Some((row, more)) = rest.split_first() {
        if row.len() != width {
            return false;
        }
        rest = more;
    }
    true
}

fn matrix(alloc: Global, certs: usize, width: usize, text: &str) -> Result<Option<Matrix>, Fault> {
    let rows = rows(alloc, text)?;
    if certs > width || !are_long(rows.as_slice(), width) {
        return Ok(None);
    }
    Ok(Some(Matrix { rows, width, certs }))
}

fn same_entries(mine: &[Poly], its: &[Poly]) -> bool {
    let mut same = mine.len() == its.len();
    for (p, q) in mine.iter().zip(its) {
        same = same && p.same(q);
    }
    same
}

fn same_rows(mine: &[Vec<Poly>], its: &[Vec<Poly>]) -> bool {
    let mut same = mine.len() == its.len();
    for (p, q) in mine.iter().zip(its) {
        same = same && same_entries(p.as_slice(), q.as_slice());
    }
    same
}

/// Whether both sides beside each other are these rows, and the pivots and the free column these.
fn is_echelon(alloc: Global, e: &Echelon, case: &Case) -> Result<bool, Fault> {
    let mut same = e.pivots.len() == case.6.len() && e.free == case.7;
    for (p, q) in e.pivots.iter().zip(case.6) {
        same = same && p.row == q.0 && p.column == q.1;
    }
    let left = rows(alloc, case.4)?;
    let right = rows(alloc, case.5)?;
    Ok(
        same && same_rows(e.left.as_slice(), left.as_slice())
            && same_rows(e.right.as_slice(), right.as_slice()),
    )
}

/// Whether the multipliers times the matrix are these rows, or their products overflow.
fn gives(alloc: Global, us: &[Vec<Poly>], m: &Matrix, vs: &[Vec<Poly>]) -> Result<bool, Fault> {
    if !are_long(us, m.rows.len()) {
        return Ok(false);
    }
    match multiply_out(alloc, us, m) {
        Ok(products) => Ok(same_rows(products.as_slice(), vs)),
        Err(fault) => Ok(fault == Fault::Overflow(Kind::Number)),
    }
}

fn fault_name(fault: Fault) -> &'static str {
    match fault {
        Fault::Overflow(Kind::Degree) => "Degree",
        Fault::Overflow(Kind::Terms) => "Terms",
        Fault::Overflow(Kind::Number) => "Number",
        Fault::Overflow(Kind::Size) => "Size",
        Fault::NoMemory => "NoMemory",
    }
}

/// Whether the null vector or the refuting rows are those of the case.
fn is_answer(alloc: Global, e: &Echelon, case: &Case) -> Result<bool, Fault> {
    if e.free.is_none() {
        let found = refuting_rows(alloc, e)?;
        let want = rows(alloc, case.8)?;
        return Ok(same_rows(found.as_slice(), want.as_slice()));
    }
    let extra = polys(alloc, case.3)?;
    match null_vector(alloc, e, extra.as_slice()) {
        Ok(found) => {
            let want = polys(alloc, case.8)?;
            Ok(same_entries(found.as_slice(), want.as_slice()))
        }
        Err(fault) => Ok(case.8 == fault_name(fault)),
    }
}

fn agrees(alloc: Global, case: &Case) -> Result<bool, Fault> {
    let Some(m) = matrix(alloc, case.0, case.1, case.2)? else {
        return Ok(false);
    };
    match eliminate(alloc, &m) {
        Ok(e) => Ok(
            is_echelon(alloc, &e, case)?
                && gives(alloc, e.right.as_slice(), &m, e.left.as_slice())?
                && is_answer(alloc, &e, case)?,
        ),
        Err(fault) => Ok(case.4 == fault_name(fault)),
    }
}

/// The place of the first case that does not agree, or how many there are.
fn agreeing(alloc: Global, cases: &[Case]) -> Result<usize, Fault> {
    let mut place: usize = 0;
    let mut all = true;
    for case in cases {
        all = all && agrees(alloc, case)?;
        if all {
            place = place.saturating_add(1);
        }
    }
    Ok(place)
}
