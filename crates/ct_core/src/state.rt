// The whole machine, and one event.
ghost use Rattle.std.specs.Prelude.{◌≡◌, ℕ, ◌-◌, ◌<◌, ◌^◌, MatchResult};
ghost use Rattle.ct_core.specs.Steps.{step_of, Refused};

use crate::NoMemory;
use crate::event::Event;
use crate::view::View;
use std::marker::Model;

/// Why a list of events has no state.
#[derive(Debug, Drop)]
pub enum CoreFault {
    /// The event at this place is not legal, and all before it are.
    Illegal(u64),
    NoMemory,
}

impl From<NoMemory> for CoreFault {
    ghost use Rattle.std.specs.Prelude.{◌≡◌};
    ghost use Rattle.ct_core.specs.declared.state.CoreFault.TheVariants.{NoMemory};

    ghost from_gives = { λ _ fault. fault ≡ NoMemory };

    fn from(_: NoMemory) -> CoreFault {
        CoreFault::NoMemory
    }
}

/// The count of indices, the two words, and the view of each worker.
#[derive(Debug, Drop)]
pub struct State {
    pub count: u64,
    /// How many indices were claimed.
    pub next: u64,
    /// The least hit.
    pub least: Option<u64>,
    pub views: Vec<View>,
}

impl Model for State {
    ghost use Rattle.ct_core.specs.Machine.{Machine};

    ghost Value = { Machine };

    ghost view = { λ s. record { count = s.count; next = s.next; least = s.least; views = s.views.items } };
}

impl State {
    /// One event. `Illegal(0)` comes exactly where it is not legal, and the state then stays.
    pub fn step(&mut self, event: Event) -> Result<(), CoreFault>
        requires { self.old.next < 2 ^ 64 - 1 }
        ensures { MatchResult result (λ _. step_of self.old event ≡ Some self.new) (λ fault. (self.new ≡ self.old) × Refused self.old event fault) }
    {
        let worker = event.worker() as usize;
        if worker >= self.views.len() {
            return Err(CoreFault::Illegal(0));
        }
        let view = &self.views[worker];
        if !view.allows(self.count, event) {
            return Err(CoreFault::Illegal(0));
        }
        let view = &mut self.views[worker];
        view.apply(self.next, self.least, event)?;
        self.next = event.next_after(self.next);
        self.least = event.least_after(self.least);
        Ok(())
    }
}
