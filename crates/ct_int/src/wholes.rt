// Whole numbers within the limit 2^127 - 1.
ghost use Rattle.std.specs.Prelude.{◌≡◌, ◌+◌, ◌*◌, ◌<◌, ◌≤◌, pos, ◌+ℤ◌, ◌*ℤ◌, unsigned_abs, MatchResult};
ghost use Rattle.std.specs.Int.{◌∣◌};
ghost use Rattle.ct_int.specs.Limits.{largest_whole};

use crate::fault::IntFault;

const LARGEST_WHOLE: u128 = (1 << 127) - 1;

/// The quotient by a divisor.
pub fn exact_quotient(whole: i128, divisor: u128) -> i128
    requires positive { 0 < divisor }
    requires divides { divisor ∣ unsigned_abs whole }
    requires within { unsigned_abs whole ≤ largest_whole }
    ensures { result *ℤ pos divisor ≡ whole }
{
    let size = (whole.unsigned_abs() / divisor) as i128;
    if whole < 0 { -size } else { size }
}

/// A product, unless it passes the limit.
pub fn natural_product(a: u128, b: u128) -> Result<u128, IntFault>
    ensures { MatchResult result (λ c. (c ≡ a * b) × (c ≤ largest_whole)) (λ fault. (fault ≡ IntFault.Overflow) × (largest_whole < a * b)) }
{
    match a.checked_mul(b) {
        Some(product) if product <= LARGEST_WHOLE => Ok(product),
        _ => Err(IntFault::Overflow),
    }
}

/// A signed product, unless it passes the limit.
pub fn whole_product(a: i128, b: i128) -> Result<i128, IntFault>
    ensures { MatchResult result (λ c. (c ≡ a *ℤ b) × (unsigned_abs c ≤ largest_whole)) (λ fault. (fault ≡ IntFault.Overflow) × (largest_whole < unsigned_abs a * unsigned_abs b)) }
{
    let _size = natural_product(a.unsigned_abs(), b.unsigned_abs())?;
    Ok(a * b)
}

/// The sum a·j + b·k, unless |a|·j + |b|·k passes the limit.
pub fn weighted_sum(a: i128, j: u128, b: i128, k: u128) -> Result<i128, IntFault>
    requires first { j ≤ largest_whole }
    requires second { k ≤ largest_whole }
    ensures { MatchResult result (λ c. (c ≡ a *ℤ pos j +ℤ b *ℤ pos k) × (unsigned_abs a * j + unsigned_abs b * k ≤ largest_whole)) (λ fault. (fault ≡ IntFault.Overflow) × (largest_whole < unsigned_abs a * j + unsigned_abs b * k)) }
{
    let first = whole_product(a, j as i128)?;
    let second = whole_product(b, k as i128)?;
    if LARGEST_WHOLE - first.unsigned_abs() < second.unsigned_abs() {
        Err(IntFault::Overflow)
    } else {
        Ok(first + second)
    }
}
