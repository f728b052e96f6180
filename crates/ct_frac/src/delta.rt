// The derivative of a fraction by a name.
ghost use Rattle.std.specs.Prelude.{◌≡◌, ◌<◌, ◌+◌, ◌++◌, IfOk, [], ◌∷◌, cond, ltb};
ghost use Rattle.std.specs.List.{list_any};
ghost use Rattle.ct_algebra.specs.Actions.{Action, Derive};
ghost use Rattle.ct_algebra.specs.Field.{coefficients};
ghost use Rattle.ct_algebra.specs.Monomial.{exp};
ghost use Rattle.ct_algebra.specs.Names.{Name, name_with};
ghost use Rattle.ct_algebra.specs.Polynomial.{polys};
ghost use Rattle.ct_checked.specs.Checked.{Answers, AnswersBy};
ghost use Rattle.ct_poly.specs.Terms.{entries};
ghost use Rattle.ct_frac.specs.Arithmetic.{checked_exponent};
ghost use Rattle.ct_frac.specs.Symbols.{has_name, with_name, checked_once, checked_part, checked_without_parts, checked_raised, checked_delta};
ghost use Rattle.ct_frac.specs.Written.{value};

use crate::den::Den;
use crate::factor::Factor;
use crate::frac::Frac;
use crate::normal::brought_to_normal;
use crate::sum::exponent_sum;
use ct_poly::{Fault, NoMemory, Poly, Term};
use std::alloc::Global;

impl Frac {
    /// The derivative by the name.
    pub fn delta(&self, alloc: Global, i: u8) -> Result<Frac, Fault>
        requires { i < 6 }
        ensures answers { Answers (checked_delta (name_with i) self.now) result }
        ensures value { IfOk result (λ r. (a : Name → Action) → a (name_with i) ≡ Derive → value r ≡ (coefficients a).δ (name_with i) (value self.now)) }
    {
        self.in_written_form();
        derived(alloc, self, i)
    }
}

#[tactic(auto, unfolding(crate::specs::Symbols::checked_delta))]
fn derived(alloc: Global, f: &Frac, i: u8) -> Result<Frac, Fault>
    requires { i < 6 }
    ensures { Answers (checked_delta (name_with i) f.now) result }
{
    f.in_written_form();
    let named = factors_with_name(alloc, f.den().factors(), i)?;
    let product = product_once(alloc, &[], named.as_slice())?;
    let derivative = f.numerator().derive(alloc, i)?;
    let start = derivative.mul(alloc, &product)?;
    let n = without_parts(alloc, i, f.numerator(), start, named.as_slice())?;
    let factors = raised(alloc, f.den().factors(), i)?;
    let den = Den {
        whole: f.den().whole(),
        factors,
    };
    let r = brought_to_normal(alloc, n, &den)?;
    Ok(r)
}

// What is left of a polynomial without the part of each factor.
fn without_parts(
    alloc: Global,
    i: u8,
    n: &Poly,
    start: Poly,
    factors: &[Factor],
) -> Result<Poly, Fault>
    requires { i < 6 }
    ensures { Answers (checked_without_parts (name_with i) n.now start [] factors.now) result }
{
    let mut left = start;
    let mut place = 0;
    let mut rest = factors;
    'parting: while let Some((f, more)) = rest.split_first() {
        let (before, _) = factors.split_at(place);
        let part = part(alloc, i, n, f, before, more)?;
        left = left.sub(alloc, &part)?;
        place += 1;
        rest = more;
    }
    Ok(left)
}

// (n·e)·f'·g, for the factor f with the exponent e, and g the product of those before and after it.
#[tactic(auto, unfolding(crate::specs::Symbols::checked_part))]
fn part(
    alloc: Global,
    i: u8,
    n: &Poly,
    f: &Factor,
    before: &[Factor],
    after: &[Factor],
) -> Result<Poly, Fault>
    requires { i < 6 }
    ensures { Answers (checked_part (name_with i) n.now f.now (before.now ++ after.now)) result }
{
    let derivative = f.poly.derive(alloc, i)?;
    let others = product_once(alloc, before, after)?;
    let exponent = Poly::constant(alloc, i128::from(f.exp))?;
    let often = n.mul(alloc, &exponent)?;
    let part = often.mul(alloc, &derivative)?;
    part.mul(alloc, &others)
}

// The product of the polynomials of two lists of factors, each taken once.
fn product_once(alloc: Global, first: &[Factor], second: &[Factor]) -> Result<Poly, Fault>
    ensures { Answers (checked_once polys.one (first.now ++ second.now)) result }
{
    let one = Poly::constant(alloc, 1)?;
    let product = times_once(alloc, one, first)?;
    times_once(alloc, product, second)
}

// A polynomial times that of each factor in order.
fn times_once(alloc: Global, p: Poly, factors: &[Factor]) -> Result<Poly, Fault>
    ensures { Answers (checked_once p factors.now) result }
{
    let mut product = p;
    let mut rest = factors;
    'multiplying: while let Some((f, more)) = rest.split_first() {
        product = product.mul(alloc, &f.poly)?;
        rest = more;
    }
    Ok(product)
}

// The factors, where the exponent of each one with the name is one higher.
fn raised(alloc: Global, factors: &[Factor], i: u8) -> Result<Vec<Factor>, Fault>
    requires { i < 6 }
    ensures { AnswersBy (λ v. v.items) (checked_raised (name_with i) factors.now) result }
{
    let mut out = Vec::new(alloc);
    let mut rest = factors;
    'raising: while let Some((f, more)) = rest.split_first() {
        let exp = raised_exponent(f, i)?;
        push_with_exponent(alloc, &mut out, f, exp)?;
        rest = more;
    }
    Ok(out)
}

fn raised_exponent(f: &Factor, i: u8) -> Result<u32, Fault>
    requires { i < 6 }
    ensures { Answers (checked_exponent (f.now.exp + cond (has_name (name_with i) f.now.poly) 1 0)) result }
{
    let more = if has_name(&f.poly, i) { 1 } else { 0 };
    exponent_sum(f.exp, more)
}

// Those factors that have the name.
fn factors_with_name(alloc: Global, factors: &[Factor], i: u8) -> Result<Vec<Factor>, NoMemory>
    requires { i < 6 }
    ensures { IfOk result (λ v. v.items ≡ with_name (name_with i) factors.now) }
{
    let mut out = Vec::new(alloc);
    let mut rest = factors;
    'choosing: while let Some((f, more)) = rest.split_first() {
        if has_name(&f.poly, i) {
            push_with_exponent(alloc, &mut out, f, f.exp)?;
        }
        rest = more;
    }
    Ok(out)
}

// Puts a factor at the end, with another exponent.
fn push_with_exponent(
    alloc: Global,
    out: &mut Vec<Factor>,
    f: &Factor,
    exp: u32,
) -> Result<(), NoMemory>
    ensures { IfOk result (λ _. out.new.items ≡ out.old.items ++ record { poly = f.now.poly; exp = exp } ∷ []) }
{
    let poly = f.poly.copy(alloc)?;
    out.push(Factor { poly, exp })?;
    Ok(())
}

fn has_name(p: &Poly, i: u8) -> bool
    requires { i < 6 }
    ensures { result ≡ has_name (name_with i) p.now }
{
    is_in_terms(p.terms(), i)
}

// Whether a term has the name.
fn is_in_terms(ts: &[Term], i: u8) -> bool
    requires { i < 6 }
    ensures { result ≡ list_any (λ e. ltb 0 (exp e.0 i)) (entries ts.now) }
{
    let mut rest = ts;
    'seeking: while let Some((t, more)) = rest.split_first() {
        if t.mono.exp(i) > 0 {
            return true;
        }
        rest = more;
    }
    false
}
