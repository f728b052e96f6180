// What is printed of a result, so that no work is left out.

use ct_linsolve::Echelon;
use ct_poly::Poly;

/// The number of pivots, the free column or -1, the number of all terms, and a sum over them.
#[derive(Clone, Copy)]
pub(crate) struct Digest {
    pub(crate) pivots: usize,
    pub(crate) free: i64,
    pub(crate) terms: u64,
    pub(crate) sum: u64,
}

pub(crate) fn digest_of(e: &Echelon) -> Digest {
    let free = match e.free {
        Some(column) => i64::try_from(column).unwrap_or(-1),
        None => -1,
    };
    let mut digest = Digest {
        pivots: e.pivots.len(),
        free,
        terms: 0,
        sum: 0,
    };
    for (left, right) in e.left.iter().zip(e.right.iter()) {
        for p in left.iter().chain(right.iter()) {
            digest = with_entry(digest, p);
        }
    }
    digest
}

fn with_entry(before: Digest, p: &Poly) -> Digest {
    let mut terms = before.terms;
    let mut sum = mixed(before.sum, p.terms().len() as u64);
    for t in p.terms() {
        terms = terms.wrapping_add(1);
        sum = mixed(sum, low_bits(t.coef));
        for i in 0..6u8 {
            sum = mixed(sum, u64::from(t.mono.exp(i)));
        }
    }
    Digest {
        pivots: before.pivots,
        free: before.free,
        terms,
        sum,
    }
}

fn mixed(sum: u64, n: u64) -> u64 {
    sum.wrapping_mul(6364136223846793005).wrapping_add(n)
}

/// The last 64 bits of a number.
fn low_bits(n: i128) -> u64 {
    let low = (n.unsigned_abs() % 18446744073709551616) as u64;
    if n < 0 { 0u64.wrapping_sub(low) } else { low }
}
