// The left reductions of several targets.
ghost use Rattle.std.specs.Prelude.{map, Err, Ok};
ghost use Rattle.ct_checked.specs.Checked.{AnswersAs};
ghost use Rattle.ct_ore.specs.Naming.{actions_of};
ghost use Rattle.ct_reduce.specs.Views.{reduction_of};
ghost use Rattle.ct_run.specs.Reducing as spec;
ghost use Rattle.ct_run.specs.Refusals.{target_overflow_of};

use crate::values::append;
use ct_mono::{Fault, Kind};
use ct_ore::{Algebra, Op};
use ct_reduce::{Reduced, left_reduce};
use std::alloc::Global;

/// Why targets are not reduced. Targets are counted from 1.
#[derive(Clone, Copy, Debug, PartialEq, Eq)]
pub(crate) enum TargetFault {
    Overflow(usize, Kind),
    NoMemory,
}

/// The reductions of operators by generators, in order.
pub(crate) fn reductions(
    alloc: Global,
    algebra: &Algebra,
    generators: &[Op],
    targets: &[Op],
) -> Result<Vec<Reduced>, TargetFault>
    ensures { AnswersAs target_overflow_of (λ v. map reduction_of v.items) (spec.checked_reductions (actions_of algebra.now) generators.now targets.now) result }
{
    let mut done = Vec::new(alloc);
    let mut rest = targets;
    'reducing: loop {
        let Some((target, more)) = rest.split_first() else {
            return Ok(done);
        };
        let reduced = match left_reduce(alloc, algebra, target, generators) {
            Ok(reduced) => reduced,
            Err(Fault::Overflow(kind)) => return Err(TargetFault::Overflow(done.len() + 1, kind)),
            Err(Fault::NoMemory) => return Err(TargetFault::NoMemory),
        };
        if append(&mut done, reduced).is_err() {
            return Err(TargetFault::NoMemory);
        }
        rest = more;
    }
}
