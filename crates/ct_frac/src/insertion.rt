// Factors put into rising lists.
ghost use Rattle.std.specs.Prelude.{◌≡◌, ◌<◌, ◌≤◌, IfOk, length};
ghost use Rattle.std.specs.List.{insert};
ghost use Rattle.ct_frac.specs.Normal.{inserted};
ghost use Rattle.ct_frac.specs.Code.{place_in, find_place, exponent_set};
ghost use Rattle.ct_frac.specs.Arithmetic.{exponent_in};

use crate::factor::Factor;
use ct_poly::{NoMemory, Poly};
use std::alloc::Global;
use std::cmp::Ordering;

// Where a polynomial stands in a rising list, with which exponent, or before which place it belongs.
pub enum Place {
    At(usize, u32),
    Before(usize),
}

// Puts a factor before the first that is not less.
pub fn insert(factors: &mut Vec<Factor>, f: Factor) -> Result<(), NoMemory>
    ensures { IfOk result (λ _. factors.new.items ≡ inserted f factors.old.items) }
{
    let place = place_of(factors.as_slice(), &f.poly);
    factors.insert(place, f)?;
    Ok(())
}

// How many factors from the first on are less.
fn place_of(factors: &[Factor], poly: &Poly) -> usize
    ensures value { result ≡ place_in poly.now factors.now }
    ensures within { result ≤ length factors.now }
{
    let mut place = 0;
    let mut rest = factors;
    'passing: while let Some((g, more)) = rest.split_first() {
        if g.poly.cmp(poly) != Ordering::Less {
            return place;
        }
        place += 1;
        rest = more;
    }
    place
}

// The place of a polynomial.
pub fn found(factors: &[Factor], poly: &Poly) -> Place
    ensures { result ≡ find_place 0 poly.now factors.now }
{
    let mut place = 0;
    let mut rest = factors;
    'finding: while let Some((g, more)) = rest.split_first() {
        match g.poly.cmp(poly) {
            Ordering::Less => {}
            Ordering::Equal => {
                return Place::At(place, g.exp);
            }
            Ordering::Greater => {
                return Place::Before(place);
            }
        }
        place += 1;
        rest = more;
    }
    Place::Before(place)
}

// The list where a factor stands once more before a place.
pub fn put_before(
    alloc: Global,
    factors: Vec<Factor>,
    place: usize,
    f: &Factor,
) -> Result<Vec<Factor>, NoMemory>
    requires { place ≤ length factors.items }
    ensures { IfOk result (λ v. v.items ≡ insert factors.items place f.now) }
{
    let poly = f.poly.copy(alloc)?;
    let mut longer = factors;
    longer.insert(place, Factor { poly, exp: f.exp })?;
    Ok(longer)
}

// The list with another exponent at a place.
pub fn with_exp_at(factors: Vec<Factor>, place: usize, exp: u32) -> Vec<Factor>
    requires { place < length factors.items }
    ensures { result.items ≡ exponent_set factors.items place exp }
{
    let mut changed = factors;
    changed[place].exp = exp;
    changed
}

// The exponent of a polynomial; 0 where it does not stand in the list.
pub fn exponent_of(factors: &[Factor], poly: &Poly) -> u32
    ensures { result ≡ exponent_in poly.now factors.now }
{
    let mut rest = factors;
    'seeking: while let Some((g, more)) = rest.split_first() {
        if g.poly.cmp(poly).is_eq() {
            return g.exp;
        }
        rest = more;
    }
    0
}
