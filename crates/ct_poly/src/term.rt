// A term of a polynomial.
ghost use Rattle.std.specs.Prelude.{◌≡◌, IfOk, [], ◌∷◌};

use ct_mono::{Monomial, NoMemory};
use std::alloc::Global;

/// A coefficient times a monomial.
#[derive(Clone, Copy)]
pub struct Term {
    pub mono: Monomial,
    pub coef: i128,
}

/// The list of one term.
pub(crate) fn list_of_term(
    alloc: Global,
    mono: &Monomial,
    coef: i128,
) -> Result<Vec<Term>, NoMemory>
    ensures { IfOk result (λ v. v.items ≡ record { mono = mono.now; coef = coef } ∷ []) }
{
    let mut list = Vec::with_capacity(alloc, 1)?;
    list.push(Term { mono: *mono, coef })?;
    Ok(list)
}
