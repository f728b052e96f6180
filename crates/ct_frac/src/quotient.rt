// Quotients of two polynomials.
ghost use Rattle.std.specs.Prelude.{◌≡◌, ◌≢◌, ◌<◌, ◌++◌, IfOk, [], cond, eqb};
ghost use Rattle.ct_algebra.specs.Names.{name_with};
ghost use Rattle.ct_algebra.specs.Polynomial.{polys, degree, degree_of};
ghost use Rattle.ct_algebra.specs.Substitution.{name};
ghost use Rattle.ct_poly.specs.Terms.{entries};
ghost use Rattle.ct_frac.specs.Written.{value, value_over};
ghost use Rattle.ct_frac.specs.Normal.{names_from, quotient_of, sorted_onto, unless_constant, with_exponent};

use crate::den::Den;
use crate::factor::Factor;
use crate::frac::Frac;
use crate::insertion::insert;
use crate::normal::brought_to_normal;
use ct_mono::{LARGEST_DEGREE, Monomial};
use ct_poly::{NoMemory, Poly, Term};
use std::alloc::Global;

// A polynomial over another.
pub fn divided_by_polynomial(alloc: Global, n: &Poly, d: &Poly) -> Result<Frac, NoMemory>
    requires { d.now ≢ polys.zero }
    ensures written { IfOk result (λ r. r ≡ quotient_of n.now d.now) }
    ensures value { IfOk result (λ r. value r ≡ value_over n.now d.now) }
{
    let split = d.split(alloc)?;
    let numerator = with_sign(alloc, n, split.negative)?;
    let whole = split.content;
    let mono = split.mono;
    prove!(mono.total() <= LARGEST_DEGREE);
    d.within_limits();
    let factors = factors_of_parts(alloc, &mono, split.primitive)?;
    let den = Den { whole, factors };
    brought_to_normal(alloc, numerator, &den)
}

fn with_sign(alloc: Global, n: &Poly, negative: bool) -> Result<Poly, NoMemory>
    ensures { IfOk result (λ p. p ≡ cond negative (polys.neg n.now) n.now) }
{
    if negative {
        n.neg(alloc)
    } else {
        n.copy(alloc)
    }
}

// The names of the monomial and the primitive part, rising.
#[tactic(auto, using(crate::proofs::Naming::sorted_onto_both))]
fn factors_of_parts(
    alloc: Global,
    mono: &Monomial,
    primitive: Poly,
) -> Result<Vec<Factor>, NoMemory>
    ensures { IfOk result (λ v. v.items ≡ sorted_onto [] (names_from 6 0 mono.now ++ unless_constant primitive)) }
{
    let mut factors = factors_of_names(alloc, mono)?;
    if is_constant(&primitive) {
        return Ok(factors);
    }
    let factor = Factor {
        poly: primitive,
        exp: 1,
    };
    insert(&mut factors, factor)?;
    Ok(factors)
}

// The names of the monomial, rising.
#[tactic(auto, using(crate::proofs::Naming::naming_more))]
fn factors_of_names(alloc: Global, mono: &Monomial) -> Result<Vec<Factor>, NoMemory>
    ensures { IfOk result (λ v. v.items ≡ sorted_onto [] (names_from 6 0 mono.now)) }
{
    let mut factors = Vec::new(alloc);
    let mut i: u8 = 0;
    let mut left: u8 = 6;
    'naming: while left > 0 {
        insert_name(alloc, &mut factors, i, u32::from(mono.exp(i)))?;
        i += 1;
        left -= 1;
    }
    Ok(factors)
}

// Puts in a name, unless its exponent is 0.
fn insert_name(alloc: Global, factors: &mut Vec<Factor>, i: u8, exp: u32) -> Result<(), NoMemory>
    requires { i < 6 }
    ensures { IfOk result (λ _. factors.new.items ≡ sorted_onto factors.old.items (with_exponent (name (name_with i)) exp [])) }
{
    if exp > 0 {
        let poly = Poly::name(alloc, i)?;
        insert(factors, Factor { poly, exp })?;
    }
    Ok(())
}

fn is_constant(p: &Poly) -> bool
    ensures { result ≡ eqb (degree p.now) 0 }
{
    is_first_constant(p.terms())
}

// Whether the first monomial is 1.
fn is_first_constant(ts: &[Term]) -> bool
    ensures { result ≡ eqb (degree_of (entries ts.now)) 0 }
{
    match ts.first() {
        None => true,
        Some(t) => t.mono.total() == 0,
    }
}
