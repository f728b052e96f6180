// Lists of events from the start.
ghost use Rattle.std.specs.Prelude.{◌≡◌, ℕ, ◌<◌, ◌≤◌, ◌^◌, length, MatchResult, IfOk, Bool};
ghost use Rattle.ct_core.specs.Machine.{start_of};
ghost use Rattle.ct_core.specs.Runs.{run_of, Fails};
ghost use Rattle.ct_core.specs.CompleteList.{IsComplete, Decided, IsFaithful, IsFirstHit};

use crate::NoMemory;
use crate::event::Event;
use crate::state::{CoreFault, State};
use crate::view::View;
use std::alloc::Global;

/// The machine where nothing is claimed yet.
pub fn start(alloc: Global, count: u64, workers: u32) -> Result<State, NoMemory>
    requires count { count ≤ 65535 }
    requires workers { (0 < workers) × (workers ≤ 16) }
    ensures value { IfOk result (λ state. state ≡ start_of count workers) }
{
    let mut views = Vec::new(alloc);
    for _ in 0..workers {
        views.push(View::new(alloc))?;
    }
    Ok(State {
        count,
        next: 0,
        least: None,
        views,
    })
}

/// The state after all events from the start, or the place of the first that is not legal.
///
/// Once every worker is stopped, the views have refuted each index below the least hit exactly once, or each
/// index below the count where there is none. If the list also agrees with a function about which indices
/// are hits, the least hit is the function's first.
pub fn replay(alloc: Global, count: u64, workers: u32, events: &[Event]) -> Result<State, CoreFault>
    requires count { count ≤ 65535 }
    requires workers { (0 < workers) × (workers ≤ 16) }
    requires room { length events.now < 2 ^ 32 }
    ensures value { MatchResult result (λ state. run_of (start_of count workers) events.now ≡ Some state) (Fails (start_of count workers) events.now) }
    ensures decided { IfOk result (λ state. IsComplete state → Decided state) }
    ensures first_hit { IfOk result (λ state. (is_hit : ℕ → Bool) → IsFaithful is_hit events.now → IsComplete state → IsFirstHit is_hit count state.least) }
{
    let mut state = start(alloc, count, workers)?;
    for (place, event) in events.iter().enumerate() {
        match state.step(*event) {
            Ok(()) => {}
            Err(CoreFault::Illegal(_)) => return Err(CoreFault::Illegal(place as u64)),
            Err(CoreFault::NoMemory) => return Err(CoreFault::NoMemory),
        }
    }
    Ok(state)
}
