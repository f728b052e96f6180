// What the symbols of a name make of a power of the name, for each kind of operator: how many terms, which numbers stand
// before them, and what these add up to.
ghost use Rattle.std.specs.Prelude.{◌≡◌, ◌+◌, ◌*◌, ◌^◌, ◌<◌, ◌≤◌, ℕ, eqb};
ghost use Rattle.ct_checked.specs.Limits.{largest_degree, largest_norm};
ghost use Rattle.ct_ore.specs.Naming.{action_of};
ghost use Rattle.ct_ore.specs.Kinds.{derivation_weight, how_many, ways, symbols_left, weight};
ghost use Rattle.ct_ore.specs.Bounds.{IsCapped};

use crate::algebra::Action;
use ct_mono::LARGEST_NORM;

/// How many terms k symbols make of the power e.
pub fn how_many(action: Action, k: u16, e: u16) -> u16
    requires { e ≤ largest_degree }
    ensures { result ≡ how_many (action_of action) k e }
{
    match action {
        Action::Shift => { if k == 0 { 1 } else { e + 1 } }
        Action::Derive => k.min(e) + 1,
        Action::Still => 1,
    }
}

/// How many of the k symbols stay where the power is lowered by j.
pub fn symbols_left(action: Action, k: u16, j: u16) -> u16
    ensures { result ≡ symbols_left (action_of action) k j }
{
    match action {
        Action::Shift => k,
        Action::Derive => k.saturating_sub(j),
        Action::Still => k,
    }
}

/// The number before the next term, from the number before this one.
pub fn next_way(action: Action, k: u16, e: u16, j: u16, way: u128) -> Option<u128>
    requires powers { e ≤ largest_degree }
    requires symbols { k ≤ largest_degree }
    requires lowered { j ≤ largest_degree }
    requires this { way ≡ ways (action_of action) k e j }
    requires small { way ≤ largest_norm }
    ensures { IsCapped (ways (action_of action) k e (j + 1)) result }
{
    match action {
        Action::Shift => times_over(way, u32::from(e.saturating_sub(j)) * u32::from(k), j + 1),
        Action::Derive => times_over(
            way,
            u32::from(k.saturating_sub(j)) * u32::from(e.saturating_sub(j)),
            j + 1,
        ),
        Action::Still => Some(way),
    }
}

// n times a over b, where b divides this product.
fn times_over(n: u128, a: u32, b: u16) -> Option<u128>
    requires small { n ≤ largest_norm }
    requires some { 0 < b }
    ensures { (v : ℕ) → v * b ≡ n * a → IsCapped v result }
{
    let b = u128::from(b);
    let a = u128::from(a);
    let whole = (n / b).checked_mul(a)?;
    let part = (n % b) * a / b;
    let sum = whole.checked_add(part)?;
    if sum > LARGEST_NORM { None } else { Some(sum) }
}

/// The sum, where it is within the largest norm.
pub fn capped_sum(m: Option<u128>, n: Option<u128>) -> Option<u128>
    ensures { (v w : ℕ) → IsCapped v m → IsCapped w n → IsCapped (v + w) result }
{
    let sum = m?.checked_add(n?)?;
    if sum > LARGEST_NORM { None } else { Some(sum) }
}

/// The product, where it is within the largest norm.
pub fn capped_product(m: Option<u128>, n: Option<u128>) -> Option<u128>
    ensures { (v w : ℕ) → IsCapped v m → IsCapped w n → IsCapped (v * w) result }
{
    if is_zero(m) {
        return Some(0);
    }
    if is_zero(n) {
        return Some(0);
    }
    positive_product(m, n)
}

fn is_zero(n: Option<u128>) -> bool
    ensures { (v : ℕ) → IsCapped v n → result ≡ eqb v 0 }
{
    match n {
        Some(n) => n == 0,
        None => false,
    }
}

// The product of positive numbers, where it is within the largest norm.
fn positive_product(m: Option<u128>, n: Option<u128>) -> Option<u128>
    ensures { (v w : ℕ) → 0 < v → 0 < w → IsCapped v m → IsCapped w n → IsCapped (v * w) result }
{
    let product = m?.checked_mul(n?)?;
    if product > LARGEST_NORM {
        None
    } else {
        Some(product)
    }
}

/// The weight of what k symbols make of the power e.
pub fn weight(action: Action, k: u16, e: u16) -> Option<u128>
    requires powers { e ≤ largest_degree }
    requires symbols { k ≤ largest_degree }
    ensures { IsCapped (weight (action_of action) k e) result }
{
    match action {
        Action::Shift => shift_weight(k, e),
        Action::Derive => derivation_weight(k, e),
        Action::Still => Some(1),
    }
}

// The weight of the shift by k of the power e.
fn shift_weight(k: u16, e: u16) -> Option<u128>
    ensures { IsCapped ((1 + k) ^ e) result }
{
    let mut weight = Some(1);
    if k == 0 {
        return weight;
    }
    let base = Some(1 + u128::from(k));
    for j in 0..e {
        weight = capped_product(weight, base);
    }
    weight
}

// The weight of k derivations of the power e.
fn derivation_weight(k: u16, e: u16) -> Option<u128>
    requires powers { e ≤ largest_degree }
    requires symbols { k ≤ largest_degree }
    ensures { IsCapped (derivation_weight k e) result }
{
    let mut weight = Some(0);
    let mut way = 1;
    for j in 0..k.min(e) + 1 {
        weight = capped_sum(weight, Some(way));
        way = next_way(Action::Derive, k, e, j, way)?;
    }
    weight
}
