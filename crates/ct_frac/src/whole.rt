// Polynomials divided by a whole number.
ghost use Rattle.std.specs.Prelude.{◌≡◌, ◌≤◌, IfOk, pos};
ghost use Rattle.std.specs.Int.{◌∣◌};
ghost use Rattle.ct_algebra.specs.Monomial.{unit};
ghost use Rattle.ct_checked.specs.Limits.{largest_norm};
ghost use Rattle.ct_poly.specs.Content.{content, divided};

use ct_poly::{NoMemory, Poly};
use std::alloc::Global;

// The quotient by a number that divides each coefficient.
pub fn divided_by_number(alloc: Global, p: Poly, divisor: u128) -> Result<Poly, NoMemory>
    requires within { divisor ≤ largest_norm }
    requires divides { divisor ∣ content p }
    ensures { IfOk result (λ q. q ≡ divided unit (pos divisor) p) }
{
    if divisor == 1 {
        return Ok(p);
    }
    p.over_whole(alloc, divisor)
}
