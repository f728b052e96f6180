// Fractions as text.
ghost use Rattle.std.specs.Prelude.{◌≡◌, ◌++◌, OnOk, IfOk};
ghost use Rattle.ct_answer.specs.Text as spec;

use crate::bytes::{push, push_number};
use crate::factors::push_exponent;
use crate::polynomial::push_poly;
use ct_frac::{Den, Factor, Frac};
use ct_mono::NoMemory;
use ct_ore::Algebra;
use std::alloc::Global;

/// The text of a fraction as it is written, such as `(n + 1)/(2*(k)^3)`. A name past those of the algebra has no letters.
pub fn print_frac(alloc: Global, algebra: &Algebra, value: &Frac) -> Result<Vec<u8>, NoMemory>
    ensures { IfOk result (λ text. text.items ≡ spec.fraction_text algebra.now value.now) }
{
    let mut out = Vec::new(alloc);
    push_frac(alloc, &mut out, algebra, value)?;
    Ok(out)
}

#[tactic(auto, unfolding(crate::specs::Text::fraction_text))]
pub(crate) fn push_frac(
    alloc: Global,
    out: &mut Vec<u8>,
    algebra: &Algebra,
    value: &Frac,
) -> Result<(), NoMemory>
    ensures { OnOk result (out.new.items ≡ out.old.items ++ spec.fraction_text algebra.now value.now) }
{
    let den = value.den();
    if den.whole() == 1 && den.factors().is_empty() {
        return push_poly(alloc, out, algebra, value.numerator());
    }
    push(out, b"(")?;
    push_poly(alloc, out, algebra, value.numerator())?;
    push(out, b")/(")?;
    push_den(alloc, out, algebra, den)?;
    push(out, b")")
}

#[tactic(auto, unfolding(crate::specs::Text::denominator_text))]
fn push_den(alloc: Global, out: &mut Vec<u8>, algebra: &Algebra, den: &Den) -> Result<(), NoMemory>
    ensures { OnOk result (out.new.items ≡ out.old.items ++ spec.denominator_text algebra.now den.now) }
{
    if den.whole() != 1 {
        push_number(out, den.whole())?;
        return push_later_factors(alloc, out, algebra, den.factors());
    }
    let Some((first, others)) = den.factors().split_first() else {
        return Ok(());
    };
    push_factor(alloc, out, algebra, first)?;
    push_later_factors(alloc, out, algebra, others)
}

/// Factors with `*` before each.
fn push_later_factors(
    alloc: Global,
    out: &mut Vec<u8>,
    algebra: &Algebra,
    factors: &[Factor],
) -> Result<(), NoMemory>
    ensures { OnOk result (out.new.items ≡ out.old.items ++ spec.later_factors algebra.now factors.now) }
{
    for factor in factors {
        push(out, b"*")?;
        push_factor(alloc, out, algebra, factor)?;
    }
    Ok(())
}

#[tactic(auto, unfolding(crate::specs::Text::factor_text))]
fn push_factor(
    alloc: Global,
    out: &mut Vec<u8>,
    algebra: &Algebra,
    factor: &Factor,
) -> Result<(), NoMemory>
    ensures { OnOk result (out.new.items ≡ out.old.items ++ spec.factor_text algebra.now factor.now) }
{
    push(out, b"(")?;
    push_poly(alloc, out, algebra, &factor.poly)?;
    push(out, b")")?;
    push_exponent(out, factor.exp)
}
