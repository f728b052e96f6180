// All monomials in some names up to a total.
ghost use Rattle.std.specs.Prelude.{◌≡◌, ◌+◌, ◌<◌, ◌≤◌, ◌++◌, map, IfOk, OnOk};
ghost use Rattle.std.specs.List.{All, AllPairs};
ghost use Rattle.ct_algebra.specs.Monomial.{total, ◌·◌};
ghost use Rattle.ct_checked.specs.Limits.{largest_degree};
ghost use Rattle.ct_mono.specs.Listing.{IsListing, of_total, up_to};

use crate::monomial::Monomial;
use std::alloc::{AllocError, Global};

/// All monomials in rising names whose total is at most a degree, rising.
pub fn up_to(alloc: Global, names: &[u8], degree: u16) -> Result<Vec<Monomial>, AllocError>
    requires names { All (λ i. i < 6) names.now }
    requires rise { AllPairs (λ i j. i < j) names.now }
    requires small { degree ≤ 12 }
    ensures value { IfOk result (λ ms. ms.items ≡ up_to names.now degree) }
    ensures listing { IfOk result (λ ms. IsListing names.now degree ms.items) }
{
    let mut all = Vec::new(alloc);
    for t in 0..degree + 1 {
        append_of_total(&mut all, names, t, &Monomial::one())?;
    }
    Ok(all)
}

// Appends the products of a monomial with those in the names that have the total t, rising. Those
// without the first name come first.
fn append_of_total(
    all: &mut Vec<Monomial>,
    names: &[u8],
    t: u16,
    part: &Monomial,
) -> Result<(), AllocError>
    requires names { All (λ i. i < 6) names.now }
    requires fits { total part.now + t ≤ largest_degree }
    ensures { OnOk result (all.new.items ≡ all.old.items ++ map (λ m. part.now · m) (of_total names.now t)) }
{
    if t == 0 {
        all.push(*part)?;
        return Ok(());
    }
    let Some((first, others)) = names.split_first() else {
        return Ok(());
    };
    append_of_total(all, others, t, part)?;
    append_of_total(all, names, t - 1, &part.product(&Monomial::name(*first)))
}
