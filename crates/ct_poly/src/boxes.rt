// Boxes of monomials: those whose exponents are at most those of a greatest one. Each has a cell, and its number.
ghost use Rattle.std.specs.Prelude.{◌≡◌, ◌+◌, ◌≤◌, ◌<◌, IfSome};
ghost use Rattle.ct_algebra.specs.Monomial.{exp};
ghost use Rattle.ct_mono.specs.Division.{Divides};
ghost use Rattle.ct_checked.specs.Limits.{largest_degree};
ghost use Rattle.ct_poly.specs.Cells.{AreInBox, cell_of, cells_of, most_cells};

use crate::term::Term;
use ct_mono::{LARGEST_DEGREE, Monomial};

/// How many names there are.
const NAMES: u8 = 6;

/// The monomial of the greatest exponents, or `None` where its total is too large.
pub(crate) fn greatest_exponents(ts: &[Term]) -> Option<Monomial>
    ensures { IfSome result (λ m. AreInBox m ts.now) }
{
    let mut greatest = Monomial::one();
    let mut rest = ts;
    'raising: while let Some((t, more)) = rest.split_first() {
        greatest = common_multiple(&greatest, &t.mono)?;
        rest = more;
    }
    Some(greatest)
}

pub(crate) fn common_multiple(m: &Monomial, n: &Monomial) -> Option<Monomial>
    ensures { IfSome result (λ w. Divides m.now w × Divides n.now w) }
{
    let mut multiple = *m;
    for i in 0..NAMES {
        multiple = raised(&multiple, i, exponent(n, i))?;
    }
    Some(multiple)
}

/// A monomial with at least this exponent of a name.
fn raised(m: &Monomial, i: u8, e: u16) -> Option<Monomial>
    requires known { i < 6 }
    requires small { e ≤ largest_degree }
    ensures { IfSome result (λ w. (e ≤ exp w i) × Divides m.now w) }
{
    if e <= m.exp(i) {
        return Some(*m);
    }
    if m.total() + e > LARGEST_DEGREE {
        return None;
    }
    Some(m.with_exp(i, e))
}

/// How many cells a box has, or `None` where there are more.
pub(crate) fn number_of_cells(tops: &Monomial, most: usize) -> Option<usize>
    requires { (0 < most) × (most ≤ most_cells) }
    ensures { IfSome result (λ n. (n ≡ cells_of tops.now) × (n ≤ most)) }
{
    let mut number = 1;
    for i in 0..NAMES {
        number *= width(tops, i);
        if number > most {
            return None;
        }
    }
    Some(number)
}

/// How many exponents of a name there are in a box.
fn width(tops: &Monomial, i: u8) -> usize
    requires { i < 6 }
    ensures value { result ≡ exp tops.now i + 1 }
    ensures small { result ≤ largest_degree + 1 }
{
    usize::from(exponent(tops, i)) + 1
}

#[tactic(auto, using(crate::proofs::CellNumbers::exp_total))]
fn exponent(mono: &Monomial, i: u8) -> u16
    requires { i < 6 }
    ensures value { result ≡ exp mono.now i }
    ensures small { result ≤ largest_degree }
{
    prove!(mono.total() <= LARGEST_DEGREE);
    mono.exp(i)
}

/// The number of the cell of a monomial.
pub(crate) fn cell_of(tops: &Monomial, mono: &Monomial) -> usize
    requires few { cells_of tops.now ≤ most_cells }
    requires inside { Divides mono.now tops.now }
    ensures { result ≡ cell_of tops.now mono.now }
{
    let mut number = 0;
    for i in 0..NAMES {
        number = number * width(tops, i) + usize::from(mono.exp(i));
    }
    number
}

/// The monomial of a cell, where a box has it.
pub(crate) fn mono_at(tops: &Monomial, room: &Monomial, cell: usize) -> Option<Monomial>
    requires few { cells_of tops.now ≤ most_cells }
    requires inside { Divides room.now tops.now }
    ensures { IfSome result (λ m. Divides m room.now × (cell_of tops.now m ≡ cell)) }
{
    let mono = digits_of(tops, cell)?;
    let _ = room.over(&mono)?;
    if cell_of(tops, &mono) == cell {
        Some(mono)
    } else {
        None
    }
}

/// The digits of a number, as exponents, where their sum is within the limit.
fn digits_of(tops: &Monomial, number: usize) -> Option<Monomial> {
    let mut left = number;
    let mut mono = Monomial::one();
    for i in 0..NAMES {
        let name = NAMES - 1 - i;
        let width = width(tops, name);
        if width > 1 {
            let e = (left % width) as u16;
            if mono.total() + e > LARGEST_DEGREE {
                return None;
            }
            mono = mono.with_exp(name, e);
            left /= width;
        }
    }
    Some(mono)
}
