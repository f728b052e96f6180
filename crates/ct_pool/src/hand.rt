// A pass that is moved by hand, one step at a time.
ghost use Rattle.std.specs.Prelude.{◌≡◌, ℕ, ◌<◌, true, false, Some, nat_le, ◌^◌};
ghost use Rattle.ct_core.specs.declared.event.Event.TheVariants.{Look};
ghost use Rattle.ct_core.specs.Machine.{fresh};
ghost use Rattle.ct_core.specs.Steps.{is_legal, none_or};
ghost use Rattle.ct_pool.specs.Passes.{may_claim, may_hit};
ghost use Rattle.ct_pool.specs.declared.hand.Stage.TheVariants.{Resting, Claimed, Hitting};

use crate::claims::{Claims, Pass};

/// What a pass does next.
#[derive(Clone, Copy, Debug, PartialEq, Eq)]
pub(crate) enum Stage {
    Resting,
    Claimed(u64),
    Hitting,
    /// It recorded its hit.
    Hit,
    Over,
}

/// A pass with what it does next, and what it did.
#[derive(Drop)]
pub(crate) struct Hand {
    pub pass: Pass,
    pub count: u64,
    pub stage: Stage,
    /// The miss that the next claim refutes.
    pub missed: Option<u64>,
    /// How many indices the pass claimed.
    pub claimed: u64,
    /// Whether it refuted index 0.
    pub refuted_first: bool,
    ghost resting: { stage ≡ Resting → may_claim pass.sight pass.sight.pending ≡ true },
    ghost claimed_one: { (i : ℕ) → stage ≡ Claimed i → (is_legal count pass.sight (Look 0) ≡ true) × (pass.sight.pending ≡ Some i) × (pass.sight.stopped ≡ false) },
    ghost hitting: { stage ≡ Hitting → may_hit pass.sight ≡ true },
}

impl Hand {
    pub(crate) fn new(pass: Pass, count: u64) -> Hand
        requires { pass.sight ≡ fresh }
        ensures { (result.pass ≡ pass) × (result.count ≡ count) }
    {
        Hand {
            pass,
            count,
            stage: Stage::Resting,
            missed: None,
            claimed: 0,
            refuted_first: false,
        }
    }

    /// The next step of the pass, where the indices that hit are these.
    pub(crate) fn turn(&mut self, claims: &Claims, hits: &[bool])
        requires claims { (self.old.pass.table ≡ claims.now.table) × (self.old.count ≡ claims.now.count) }
        ensures unchanged { (self.new.pass.table ≡ self.old.pass.table) × (self.new.count ≡ self.old.count) }
    {
        match self.stage {
            Stage::Resting => {
                if self.missed == Some(0) {
                    self.refuted_first = true;
                }
                self.claimed = self.claimed.saturating_add(1);
                self.stage = match claims.claim(&mut self.pass) {
                    Some(index) => Stage::Claimed(index),
                    None => Stage::Over,
                };
            }
            Stage::Claimed(index) => {
                let seen = claims.look(&mut self.pass);
                self.stage = if is_below(seen, index) {
                    Stage::Over
                } else if matches!(hits.get(index as usize), Some(true)) {
                    Stage::Hitting
                } else {
                    self.missed = Some(index);
                    Stage::Resting
                };
            }
            Stage::Hitting => {
                claims.hit(&mut self.pass);
                self.stage = Stage::Hit;
            }
            Stage::Hit | Stage::Over => {}
        }
    }
}

fn is_below(seen: Option<u64>, index: u64) -> bool
    ensures { result ≡ false → none_or seen (λ s. nat_le index s) ≡ true }
{
    match seen {
        Some(seen) => seen < index,
        None => false,
    }
}
