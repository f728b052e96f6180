// What the workers found, put together.
ghost use Rattle.std.specs.Prelude.{◌≡◌, ℕ, ◌+◌, ◌<◌, ◌≤◌, IfOk, IfSome, vec_len, map, length, Some, None, replicate};
ghost use Rattle.ct_core.specs.Counting.{Each};
ghost use Rattle.ct_pool.specs.FirstDecided.{IsDecision};
ghost use Rattle.ct_pool.specs.Found.{AreFound, Covers, bound_of};

use crate::NoMemory;
use crate::job::Job;
use crate::misses::{fill, in_order};
use std::alloc::Global;

/// The first index that was decided, or that none was.
#[derive(Debug, Drop)]
pub enum Decision<M, H> {
    /// The least index whose outcome is a hit, that hit, and the misses of all smaller indices in order.
    Hit { index: u64, hit: H, misses: Vec<M> },
    /// The misses of all indices in order.
    AllMissed { misses: Vec<M> },
}

fn bound(count: u64, least: Option<u64>) -> usize
    ensures { result ≡ bound_of count least }
{
    match least {
        Some(index) => index as usize,
        None => count as usize,
    }
}

fn nothing<M: Drop>(alloc: Global, count: usize) -> Result<Vec<Option<M>>, NoMemory>
    ensures { IfOk result (λ slots. slots.items ≡ replicate count None) }
{
    let mut slots = Vec::with_capacity(alloc, count)?;
    for _ in 0..count {
        slots.push(None)?;
    }
    Ok(slots)
}

/// The decision, from the misses and the hit of each worker and the least hit that was recorded.
pub(crate) fn conclude<J: Job>(
    alloc: Global,
    job: &J,
    count: u64,
    least: Option<u64>,
    mut founds: Vec<(Vec<(u64, J::Miss)>, Option<(u64, J::Hit)>)>,
) -> Result<Decision<J::Miss, J::Hit>, NoMemory>
    requires found { Each (λ f. AreFound (J.outcome job.now) (f.0.items, f.1)) founds.items }
    requires covers { Covers (bound_of count least) least (map (λ f. (f.0.items, f.1)) founds.items) }
    requires within { IfSome least (λ m. m < count) }
    ensures decided { IfOk result (IsDecision (J.outcome job.now) count) }
{
    let bound = bound(count, least);
    let mut slots = nothing(alloc, bound)?;
    let mut best = None;
    while let Some((misses, hit)) = founds.pop() {
        fill(job, &mut slots, misses);
        if let Some((index, value)) = hit {
            if least == Some(index) {
                best = Some(value);
            }
        }
    }
    let misses = in_order(alloc, job, slots)?;
    match (least, best) {
        (None, _) => Ok(Decision::AllMissed { misses }),
        (Some(index), Some(hit)) => Ok(Decision::Hit { index, hit, misses }),
        (Some(_), None) => unreachable!(),
    }
}
