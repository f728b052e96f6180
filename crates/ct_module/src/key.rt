// Keys: which columns there are.

use ct_mono::Monomial;

/// A free monomial; or, of the certificate of a summed name, an element and a monomial in the summed names, over the denominator of an
/// order.
#[derive(Clone, Copy, PartialEq, Eq)]
pub enum Key {
    Free(Monomial),
    Cert {
        order: u16,
        name: u8,
        element: u8,
        mono: Monomial,
    },
}
