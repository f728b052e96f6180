// The phases of an attempt, and why a system isn't there.

use ct_mono::{Kind, NoMemory};

/// The parts of an attempt at a support, in the order in which they are worked.
#[derive(Clone, Copy, Debug, PartialEq, Eq)]
pub enum Phase {
    Support,
    NormalForm,
    System,
    Elimination,
    Refutation,
    Assembly,
    Reduction,
    Certificate,
}

/// Why a call that works phases has no value.
#[derive(Clone, Copy, Debug, PartialEq, Eq)]
pub enum SysFault {
    Overflow(Phase, Kind),
    NoMemory,
}

impl From<NoMemory> for SysFault {
    ghost use Rattle.std.specs.Prelude.{◌≡◌};
    ghost use Rattle.ct_module.specs.declared.phase.SysFault.TheVariants as fault;

    ghost from_gives = { λ _ e. e ≡ fault.NoMemory };

    fn from(_: NoMemory) -> SysFault {
        SysFault::NoMemory
    }
}
