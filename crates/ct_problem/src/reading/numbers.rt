// The rules of whole numbers.
ghost use Rattle.std.specs.Prelude.{◌≡◌, ◌≤◌, ◌+◌, ◌-◌, ◌*◌, min, IfOk};
ghost use Rattle.ct_checked.specs.Limits.{largest_norm};
ghost use Rattle.ct_problem.specs.Number as spec;
ghost use Rattle.ct_problem.specs.Input.{Reads};

use crate::fault::{BadKind, ReadFault};
use crate::reading::tokens::Tokens;
use ct_mono::LARGEST_NORM;
use ct_token::Symbol;

/// The value of the digits that come next, cut at the first number past the greatest coefficient.
#[tactic(auto, unfolding(crate::specs::Number::digits))]
fn digits(tokens: &Tokens<'_>) -> Result<u128, ReadFault>
    ensures { Reads (spec.digits tokens.now) result tokens.now }
{
    match tokens.peek() {
        Some(Symbol::Number) => Ok(value_of(tokens.spelling())),
        _ => Err(tokens.fault(BadKind::Syntax)),
    }
}

/// The number that comes next, at most the greatest coefficient.
#[tactic(auto, unfolding(crate::specs::Number::coming_number))]
pub fn coming_number(tokens: &Tokens<'_>) -> Result<u128, ReadFault>
    ensures reads { Reads (spec.coming_number tokens.now) result tokens.now }
    ensures within { IfOk result (λ n. n ≤ largest_norm) }
{
    let n = digits(tokens)?;
    if n > LARGEST_NORM {
        return Err(tokens.fault(BadKind::NumberTooLarge));
    }
    Ok(n)
}

/// A number up to a limit; past it the fault is of this kind.
#[tactic(auto, unfolding(crate::specs::Number::number))]
pub fn number(tokens: &mut Tokens<'_>, limit: u128, kind: BadKind) -> Result<u128, ReadFault>
    ensures reads { Reads (spec.number limit kind tokens.old) result tokens.new }
    ensures within { IfOk result (λ n. n ≤ limit) }
{
    let n = coming_number(tokens)?;
    if n > limit {
        return Err(tokens.fault(kind));
    }
    tokens.skip();
    Ok(n)
}

/// A number of this value.
#[tactic(auto, unfolding(crate::specs::Number::exactly))]
pub fn exactly(tokens: &mut Tokens<'_>, n: u128) -> Result<(), ReadFault>
    ensures { Reads (spec.exactly n tokens.old) result tokens.new }
{
    if digits(tokens)? != n {
        return Err(tokens.fault(BadKind::Syntax));
    }
    tokens.skip();
    Ok(())
}

fn value_of(digits: &[u8]) -> u128
    ensures value { result ≡ spec.value_of digits.now }
    ensures within { result ≤ largest_norm + 1 }
{
    let mut n = 0u128;
    for b in digits {
        n = with_digit(n, *b);
    }
    n
}

fn with_digit(n: u128, byte: u8) -> u128
    ensures { result ≡ min (10 * n + (byte - 48)) (largest_norm + 1) }
{
    if n > LARGEST_NORM / 10 {
        return LARGEST_NORM + 1;
    }
    (10 * n + u128::from(byte.saturating_sub(b'0'))).min(LARGEST_NORM + 1)
}
