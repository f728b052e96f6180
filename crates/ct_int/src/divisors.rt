// The greatest common divisor.
ghost use Rattle.std.specs.Int.{IsGcd};

/// The greatest common divisor of two numbers, by Euclid's algorithm. That of 0 and 0 is 0.
pub fn gcd(a: u128, b: u128) -> u128
    ensures { IsGcd a b result }
{
    let mut divisor = a;
    let mut rest = b;
    'steps: while rest != 0 {
        let next = divisor % rest;
        divisor = rest;
        rest = next;
    }
    divisor
}
