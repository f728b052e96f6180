// The calls on ranges and supports. A function can't stand in one module beside a type of its name.
ghost use Rattle.std.specs.Prelude.{◌≡◌, ◌≤◌, length, slice_get, option_map};
ghost use Rattle.ct_support.specs.Supports.{AreRanges, supports_of, with_index};
ghost use Rattle.ct_support.specs.ColumnCount.{monomial_count, column_count};

use crate::shape::{Range, Support};

/// How many supports there are.
pub fn count(orders: &Range, degrees: &Range) -> u64
    requires { AreRanges orders.now degrees.now }
    ensures { result ≡ length (supports_of orders.now degrees.now) }
{
    orders.len() * degrees.len()
}

/// The support with a number, or `None` past the last one.
pub fn support(orders: &Range, degrees: &Range, index: u64) -> Option<Support>
    requires { AreRanges orders.now degrees.now }
    ensures { result ≡ option_map (with_index index) (slice_get (supports_of orders.now degrees.now) index) }
{
    let width = degrees.len();
    let row = index / width;
    if row >= orders.len() {
        return None;
    }
    Some(Support {
        index,
        order: orders.low + row as u16,
        degree: degrees.low + (index % width) as u16,
    })
}

/// How many columns a support has, from how many names are free, how many are summed, and the dimension.
pub fn columns(free: u8, summed: u8, dimension: u8, support: &Support) -> u64
    requires free { free ≤ 4 }
    requires summed { summed ≤ 3 }
    requires dimension { dimension ≤ 16 }
    ensures { result ≡ column_count free summed dimension support.now }
{
    let powers = monomials(summed, support.degree);
    u64::from(summed) * (u64::from(dimension) * powers) + monomials(free, support.order)
}

// How many monomials in some names have a total of at most a degree: a binomial coefficient.
fn monomials(names: u8, degree: u16) -> u64
    requires { names ≤ 4 }
    ensures { result ≡ monomial_count names degree }
{
    let mut number: u64 = 1;
    for n in 0..names {
        number = number * (u64::from(degree) + u64::from(n) + 1) / (u64::from(n) + 1);
    }
    number
}
