// The monomials that none of a list divides.
ghost use Rattle.std.specs.Prelude.{◌≡◌, ◌+◌, ◌<◌, ◌≤◌, ◌++◌, ◌∷◌, [], length, map, OnOk};
ghost use Rattle.std.specs.List.{All, filter};
ghost use Rattle.ct_algebra.specs.Monomial.{total, ◌·◌};
ghost use Rattle.ct_checked.specs.Checked.{AnswersAs};
ghost use Rattle.ct_checked.specs.Limits.{largest_degree};
ghost use Rattle.ct_mono.specs.Listing.{of_total};
ghost use Rattle.ct_telescoping.specs.Tested.{largest_staircase};
ghost use Rattle.ct_border.specs.Staircase.{refusal_of, is_left, remaining, few};

use crate::fault::StairFault;
use ct_mono::{Fault, Kind, Monomial, NoMemory};
use std::alloc::Global;

/// The most elements of a staircase.
const LARGEST_STAIRCASE: u16 = 16;

/// The monomials in the names that none of a list divides, if they are few.
pub(crate) fn remaining(
    alloc: Global,
    names: &[u8],
    leading: &[Monomial],
) -> Result<Vec<Monomial>, StairFault>
    requires { All (λ i. i < 6) names.now }
    ensures { AnswersAs refusal_of (λ v. v.items) (few (remaining names.now leading.now)) result }
{
    let mut found = Vec::new(alloc);
    for t in 0..LARGEST_STAIRCASE + 1 {
        found = with_total(found, names, t, &Monomial::one(), leading)?;
    }
    Ok(found)
}

// Appends what is left of the products of a monomial with those in the names that have the total t,
// rising. Those without the first name come first.
fn with_total(
    found: Vec<Monomial>,
    names: &[u8],
    t: u16,
    part: &Monomial,
    leading: &[Monomial],
) -> Result<Vec<Monomial>, StairFault>
    requires names { All (λ i. i < 6) names.now }
    requires fits { total part.now + t ≤ largest_degree }
    requires few { length found.items ≤ largest_staircase }
    ensures { AnswersAs refusal_of (λ v. v.items)
        (few (found.items ++ filter (is_left leading.now) (map (λ m. part.now · m) (of_total names.now t)))) result }
{
    if t == 0 {
        return with_left(found, part, leading);
    }
    let Some((first, others)) = names.split_first() else {
        return Ok(found);
    };
    let without = with_total(found, others, t, part, leading)?;
    with_total(
        without,
        names,
        t - 1,
        &part.product(&Monomial::name(*first)),
        leading,
    )
}

// Appends a monomial that is left, if there is room.
fn with_left(
    found: Vec<Monomial>,
    m: &Monomial,
    leading: &[Monomial],
) -> Result<Vec<Monomial>, StairFault>
    requires { length found.items ≤ largest_staircase }
    ensures { AnswersAs refusal_of (λ v. v.items) (few (found.items ++ filter (is_left leading.now) (m.now ∷ []))) result }
{
    if !is_left(leading, m) {
        return Ok(found);
    }
    if found.len() == LARGEST_STAIRCASE as usize {
        return Err(StairFault::Fault(Fault::Overflow(Kind::Size)));
    }
    let mut more = found;
    append(&mut more, *m)?;
    Ok(more)
}

fn is_left(leading: &[Monomial], m: &Monomial) -> bool
    ensures { result ≡ is_left leading.now m.now }
{
    let mut rest = leading;
    'dividing: while let Some((divisor, more)) = rest.split_first() {
        if m.over(divisor).is_some() {
            return false;
        }
        rest = more;
    }
    true
}

pub(crate) fn append<T: Drop>(list: &mut Vec<T>, x: T) -> Result<(), NoMemory>
    ensures { OnOk result (list.new.items ≡ list.old.items ++ x ∷ []) }
{
    list.push(x)?;
    Ok(())
}
