// What a call that can overflow answers.

use std::alloc::AllocError;

/// Which limit a step could pass, judged by its operands. An operation with several kinds is judged in
/// the order `Degree`, `Terms`, `Number`; `Size` belongs to shapes that are too large to be tried.
#[derive(Clone, Copy, Debug, PartialEq, Eq)]
pub enum Kind {
    Degree,
    Terms,
    Number,
    Size,
}

/// Why a checked call has no value.
#[derive(Clone, Copy, Debug, PartialEq, Eq)]
pub enum Fault {
    Overflow(Kind),
    NoMemory,
}

impl From<AllocError> for Fault {
    ghost use Rattle.std.specs.Prelude.{◌≡◌};
    ghost use Rattle.ct_checked.specs.declared.fault.Fault.TheVariants.{NoMemory};

    ghost from_gives = { λ _ e. e ≡ NoMemory };

    fn from(_: AllocError) -> Fault {
        Fault::NoMemory
    }
}
