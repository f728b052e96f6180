// Why a call on rational numbers has no value.

/// Why there is no number: a divisor is 0, and only then that a part of the number passes the limit.
#[derive(Clone, Copy, Debug, PartialEq, Eq)]
pub enum IntFault {
    ZeroDivisor,
    Overflow,
}
