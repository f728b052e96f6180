// Why a list of operators has no staircase, or isn't tested.

use ct_frac::Frac;
use ct_mono::Fault;
use std::alloc::AllocError;

/// Why there is no staircase, in the order of the tests. Generators are numbered from 1, names from 0.
#[derive(Clone, Copy, Debug, PartialEq, Eq)]
pub enum StairFault {
    /// The generator with this number is zero.
    ZeroGenerator(u32),
    /// The leading monomial of the generator with this number is 1.
    Trivial(u32),
    /// No leading monomial is a power of the symbol of this name.
    NotFinite(u8),
    /// More than 16 monomials remain, or memory ran out.
    Fault(Fault),
}

impl From<AllocError> for StairFault {
    ghost use Rattle.std.specs.Prelude.{◌≡◌};
    ghost use Rattle.ct_checked.specs.declared.fault.Fault.TheVariants.{NoMemory};
    ghost use Rattle.ct_border.specs.declared.fault.StairFault.TheVariants.{Fault};

    ghost from_gives = { λ _ e. e ≡ Fault NoMemory };

    fn from(_: AllocError) -> StairFault {
        StairFault::Fault(Fault::NoMemory)
    }
}

/// Why a list of operators isn't tested, in the order of the tests. Generators are numbered from 1, names, elements and places from 0.
#[derive(Drop)]
pub enum BuildFault {
    Stair(StairFault),
    /// The symbols of the two names don't commute at a place of the row of an element: `one` is what the second symbol makes of the row
    /// of the first, and `other` what the first makes of the row of the second.
    NotClosed {
        first: u8,
        second: u8,
        element: u8,
        place: u8,
        one: Frac,
        other: Frac,
    },
    /// The image of a generator isn't zero.
    NotKilled {
        generator: u32,
        image: Vec<Frac>,
    },
    Fault(Fault),
}

impl From<StairFault> for BuildFault {
    ghost use Rattle.std.specs.Prelude.{◌≡◌};
    ghost use Rattle.ct_border.specs.declared.fault.BuildFault.TheVariants.{Stair};

    ghost from_gives = { λ f e. e ≡ Stair f };

    fn from(fault: StairFault) -> BuildFault {
        BuildFault::Stair(fault)
    }
}

impl From<Fault> for BuildFault {
    ghost use Rattle.std.specs.Prelude.{◌≡◌};
    ghost use Rattle.ct_border.specs.declared.fault.BuildFault.TheVariants.{Fault};

    ghost from_gives = { λ f e. e ≡ Fault f };

    fn from(fault: Fault) -> BuildFault {
        BuildFault::Fault(fault)
    }
}

impl From<AllocError> for BuildFault {
    ghost use Rattle.std.specs.Prelude.{◌≡◌};
    ghost use Rattle.ct_checked.specs.declared.fault.Fault.TheVariants.{NoMemory};
    ghost use Rattle.ct_border.specs.declared.fault.BuildFault.TheVariants.{Fault};

    ghost from_gives = { λ _ e. e ≡ Fault NoMemory };

    fn from(_: AllocError) -> BuildFault {
        BuildFault::Fault(Fault::NoMemory)
    }
}
