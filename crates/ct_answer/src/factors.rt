// Terms: a number and powers, with `*` between them.
ghost use Rattle.std.specs.Prelude.{◌≡◌, ◌++◌, OnOk, IfOk};
ghost use Rattle.ct_answer.specs.Text as spec;

use crate::bytes::{push, push_name, push_number};
use ct_mono::{Monomial, NoMemory};
use ct_ore::{Action, Algebra};
use std::alloc::Global;

/// A power of a name or of its symbol.
#[derive(Clone, Copy)]
pub(crate) struct Power {
    pub is_symbol: bool,
    pub name: u8,
    pub exponent: u16,
}

/// Puts the powers of all names in the monomial at the end, or those of their symbols.
pub(crate) fn append_powers(
    powers: &mut Vec<Power>,
    is_symbol: bool,
    m: &Monomial,
) -> Result<(), NoMemory>
    ensures { OnOk result (powers.new.items ≡ powers.old.items ++ spec.powers_in is_symbol 6 m.now) }
{
    for name in 0..6 {
        let exponent = m.exp(name);
        if exponent != 0 {
            powers.push(Power {
                is_symbol,
                name,
                exponent,
            })?;
        }
    }
    Ok(())
}

// A name, or the symbol of one; nothing past the last name.
fn push_base(out: &mut Vec<u8>, algebra: &Algebra, power: Power) -> Result<(), NoMemory>
    ensures { OnOk result (out.new.items ≡ out.old.items ++ spec.base_text algebra.now power) }
{
    if power.is_symbol {
        push_letter(out, algebra, power.name)?;
        push(out, b"[")?;
        push_name(out, algebra, power.name)?;
        push(out, b"]")
    } else {
        push_name(out, algebra, power.name)
    }
}

fn push_letter(out: &mut Vec<u8>, algebra: &Algebra, name: u8) -> Result<(), NoMemory>
    ensures { OnOk result (out.new.items ≡ out.old.items ++ spec.letter (spec.naming_at algebra.now name).action) }
{
    if name >= algebra.count() {
        return Ok(());
    }
    match algebra.info(name).action {
        Action::Shift => push(out, b"S"),
        Action::Derive => push(out, b"D"),
        Action::Still => Ok(()),
    }
}

#[tactic(auto, unfolding(crate::specs::Text::power_text))]
fn push_power(out: &mut Vec<u8>, algebra: &Algebra, power: Power) -> Result<(), NoMemory>
    ensures { OnOk result (out.new.items ≡ out.old.items ++ spec.power_text algebra.now power) }
{
    push_base(out, algebra, power)?;
    push_exponent(out, u32::from(power.exponent))
}

/// An exponent with `^` before it; 1 is left out.
pub(crate) fn push_exponent(out: &mut Vec<u8>, exponent: u32) -> Result<(), NoMemory>
    ensures { OnOk result (out.new.items ≡ out.old.items ++ spec.exponent_text exponent) }
{
    if exponent == 1 {
        return Ok(());
    }
    push(out, b"^")?;
    push_number(out, exponent)
}

/// Powers with `*` before each.
pub(crate) fn push_later_powers(
    out: &mut Vec<u8>,
    algebra: &Algebra,
    powers: &[Power],
) -> Result<(), NoMemory>
    ensures { OnOk result (out.new.items ≡ out.old.items ++ spec.later_powers algebra.now powers.now) }
{
    for power in powers {
        push(out, b"*")?;
        push_power(out, algebra, *power)?;
    }
    Ok(())
}

/// The text of a monomial in the symbols of names, such as `S[n]^2*D[x]`. A name past those of the algebra has no letters.
pub fn print_monomial(alloc: Global, algebra: &Algebra, m: &Monomial) -> Result<Vec<u8>, NoMemory>
    ensures { IfOk result (λ text. text.items ≡ spec.monomial_text algebra.now m.now) }
{
    let mut out = Vec::new(alloc);
    push_monomial(alloc, &mut out, algebra, m)?;
    Ok(out)
}

pub(crate) fn push_monomial(
    alloc: Global,
    out: &mut Vec<u8>,
    algebra: &Algebra,
    m: &Monomial,
) -> Result<(), NoMemory>
    ensures { OnOk result (out.new.items ≡ out.old.items ++ spec.monomial_text algebra.now m.now) }
{
    let mut powers = Vec::new(alloc);
    append_powers(&mut powers, true, m)?;
    let Some((first, others)) = powers.as_slice().split_first() else {
        return push(out, b"1");
    };
    push_power(out, algebra, *first)?;
    push_later_powers(out, algebra, others)
}

/// The absolute value of a number and powers; 1 is left out before a power.
#[tactic(auto, unfolding(crate::specs::Text::term_text))]
pub(crate) fn push_term(
    out: &mut Vec<u8>,
    algebra: &Algebra,
    number: i128,
    powers: &[Power],
) -> Result<(), NoMemory>
    ensures { OnOk result (out.new.items ≡ out.old.items ++ spec.term_text algebra.now number powers.now) }
{
    let size = number.unsigned_abs();
    let Some((first, others)) = powers.split_first() else {
        return push_number(out, size);
    };
    if size == 1 {
        push_power(out, algebra, *first)?;
        push_later_powers(out, algebra, others)
    } else {
        push_number(out, size)?;
        push_later_powers(out, algebra, powers)
    }
}

#[tactic(auto, unfolding(crate::specs::Text::sign_text))]
pub(crate) fn push_sign(out: &mut Vec<u8>, is_first: bool, negative: bool) -> Result<(), NoMemory>
    ensures { OnOk result (out.new.items ≡ out.old.items ++ spec.sign_text is_first negative) }
{
    match (is_first, negative) {
        (true, true) => push(out, b"-"),
        (true, false) => Ok(()),
        (false, true) => push(out, b" - "),
        (false, false) => push(out, b" + "),
    }
}

#[tactic(auto, unfolding(crate::specs::Text::signed_term))]
pub(crate) fn push_signed_term(
    out: &mut Vec<u8>,
    algebra: &Algebra,
    is_first: bool,
    number: i128,
    powers: &[Power],
) -> Result<(), NoMemory>
    ensures { OnOk result (out.new.items ≡ out.old.items ++ spec.signed_term algebra.now is_first number powers.now) }
{
    push_sign(out, is_first, number < 0)?;
    push_term(out, algebra, number, powers)
}
