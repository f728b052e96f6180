// Left ideals that are given by generators, with their staircase.

use ct_mono::Monomial;
use ct_ore::{Algebra, Op};

/// Generators over an algebra, and the elements of their staircase.
#[derive(Clone, Copy, Drop)]
pub(crate) struct Ideal<'a> {
    pub algebra: &'a Algebra,
    pub generators: &'a [Op],
    pub basis: &'a [Monomial],
}
