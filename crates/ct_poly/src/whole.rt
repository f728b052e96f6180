// Whole numbers within the limit.
ghost use Rattle.std.specs.Prelude.{◌≡◌, ◌*◌, ◌<◌, ◌≤◌};
ghost use Rattle.ct_int.specs.Divisors.{least_common};
ghost use Rattle.ct_checked.specs.Checked.{Answers};
ghost use Rattle.ct_poly.specs.Wholes.{checked_whole};

use ct_int::gcd;
use ct_mono::{Fault, Kind, LARGEST_NORM};

/// The least common multiple of two numbers, unless it passes the limit.
pub fn least_common_multiple(a: u128, b: u128) -> Result<u128, Fault>
    requires { 0 < b }
    ensures { Answers (checked_whole (least_common a b)) result }
{
    whole_product(a / gcd(a, b), b)
}

/// A product of whole numbers, unless it passes the limit.
pub fn whole_product(a: u128, b: u128) -> Result<u128, Fault>
    ensures { Answers (checked_whole (a * b)) result }
{
    let product = a.saturating_mul(b);
    if product > LARGEST_NORM {
        Err(Fault::Overflow(Kind::Number))
    } else {
        Ok(product)
    }
}
