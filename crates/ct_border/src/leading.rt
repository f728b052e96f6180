// Leading monomials of generators.
ghost use Rattle.std.specs.Prelude.{◌≡◌, ◌<◌, ◌^◌, length};
ghost use Rattle.ct_checked.specs.Checked.{AnswersAs};
ghost use Rattle.ct_algebra.specs.Names.{name_with};
ghost use Rattle.ct_border.specs.Staircase.{refusal_of, leading_of, leading_monomials, has_power};

use crate::fault::StairFault;
use crate::remaining::append;
use ct_mono::Monomial;
use ct_ore::Op;
use std::alloc::Global;

/// The leading monomials of generators, which may be neither zero nor have the leading monomial 1.
pub(crate) fn leading_monomials(
    alloc: Global,
    generators: &[Op],
) -> Result<Vec<Monomial>, StairFault>
    requires { length generators.now < 2 ^ 32 }
    ensures { AnswersAs refusal_of (λ v. v.items) (leading_monomials generators.now) result }
{
    let mut done = Vec::new(alloc);
    let mut rest = generators;
    'leading: while let Some((generator, more)) = rest.split_first() {
        let mono = leading_monomial(done.len() as u32 + 1, generator)?;
        append(&mut done, mono)?;
        rest = more;
    }
    Ok(done)
}

fn leading_monomial(number: u32, generator: &Op) -> Result<Monomial, StairFault>
    ensures { AnswersAs refusal_of (λ m. m) (leading_of number generator.now) result }
{
    let Some((first, _)) = generator.terms().split_first() else {
        return Err(StairFault::ZeroGenerator(number));
    };
    if first.mono == Monomial::one() {
        return Err(StairFault::Trivial(number));
    }
    Ok(first.mono)
}

/// Whether one of the monomials is a power of a name's symbol.
pub(crate) fn has_power(leading: &[Monomial], i: u8) -> bool
    requires { i < 6 }
    ensures { result ≡ has_power leading.now (name_with i) }
{
    let mut rest = leading;
    'seeking: while let Some((m, more)) = rest.split_first() {
        if m.exp(i) == m.total() {
            return true;
        }
        rest = more;
    }
    false
}
