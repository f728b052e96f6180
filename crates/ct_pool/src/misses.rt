// The misses in the order of their indices.
ghost use Rattle.std.specs.Prelude.{◌≡◌, ℕ, ◌+◌, ◌<◌, ◌≤◌, IfOk, vec_len, map, length, slice_get, Some, None, ◌≢◌};
ghost use Rattle.ct_pool.specs.declared.job.Outcome.TheVariants.{Miss};
ghost use Rattle.ct_pool.specs.FirstDecided.{outcomes_below};
ghost use Rattle.ct_pool.specs.Found.{AreMisses, AreSlots, LeftEmpty};

use crate::NoMemory;
use crate::job::Job;
use std::alloc::Global;

/// Puts each miss into the slot of its index, if there is one.
pub(crate) fn fill<J: Job>(
    job: &J,
    slots: &mut Vec<Option<J::Miss>>,
    mut misses: Vec<(u64, J::Miss)>,
)
    requires slots { AreSlots (J.outcome job.now) slots.old.items }
    requires misses { AreMisses (J.outcome job.now) misses.items }
    ensures slots { AreSlots (J.outcome job.now) slots.new.items }
    ensures len { length slots.new.items ≡ length slots.old.items }
    ensures left { LeftEmpty misses.items slots.old.items slots.new.items }
{
    while let Some((index, miss)) = misses.pop() {
        let place = index as usize;
        if place < slots.len() {
            slots[place] = Some(miss);
        }
    }
}

/// The misses of the slots, in order.
pub(crate) fn in_order<J: Job>(
    alloc: Global,
    job: &J,
    mut slots: Vec<Option<J::Miss>>,
) -> Result<Vec<J::Miss>, NoMemory>
    requires slots { AreSlots (J.outcome job.now) slots.items }
    requires full { (k : ℕ) → slice_get slots.items k ≢ Some None }
    ensures value { IfOk result (λ misses. map Miss misses.items ≡ outcomes_below (J.outcome job.now) (vec_len slots)) }
{
    let mut misses = Vec::with_capacity(alloc, slots.len())?;
    slots.reverse();
    while let Some(slot) = slots.pop() {
        match slot {
            Some(miss) => misses.push(miss)?,
            None => unreachable!(),
        }
    }
    Ok(misses)
}
