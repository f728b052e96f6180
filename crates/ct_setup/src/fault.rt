// Why a problem isn't prepared.

use ct_border::BuildFault;
use ct_mono::{Fault, Kind};
use std::alloc::AllocError;

/// The parts of the work: the values of expressions, the closures of lists, and the test of a list.
#[derive(Clone, Copy, Debug, PartialEq, Eq)]
pub enum SetupPhase {
    Input,
    Closure,
    Test,
}

/// Why a problem isn't prepared. Names and lists are numbered from 0.
#[derive(Drop)]
pub enum SetupFault {
    /// The polynomial that is given for the name with this number is zero.
    ZeroDen(u8),
    /// The generators, or those of the list with this number, fail a test. No overflow and no want of memory is told here.
    Build {
        named: Option<u8>,
        fault: BuildFault,
    },
    Overflow(SetupPhase, Kind),
    NoMemory,
}

/// A fault of an expression.
impl From<Fault> for SetupFault {
    ghost use Rattle.std.specs.Prelude.{◌≡◌};
    ghost use Rattle.ct_setup.specs.SetupViews.{of_expression};

    ghost from_gives = { λ f e. e ≡ of_expression f };

    fn from(fault: Fault) -> SetupFault {
        match fault {
            Fault::Overflow(kind) => SetupFault::Overflow(SetupPhase::Input, kind),
            Fault::NoMemory => SetupFault::NoMemory,
        }
    }
}

impl From<AllocError> for SetupFault {
    ghost use Rattle.std.specs.Prelude.{◌≡◌};
    ghost use Rattle.ct_setup.specs.declared.fault.SetupFault.TheVariants.{NoMemory};

    ghost from_gives = { λ _ e. e ≡ NoMemory };

    fn from(_: AllocError) -> SetupFault {
        SetupFault::NoMemory
    }
}
