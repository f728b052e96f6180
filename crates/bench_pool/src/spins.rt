// A job whose attempts take a number of turns.
ghost use Rattle.std.specs.Prelude.{◌≡◌};
ghost use Rattle.bench_pool.specs.Turns.{turned};

use ct_pool::{Job, NoMemory, Outcome};
use std::alloc::Global;

/// Each index is turned `turns` times, and the result is its outcome: a hit at one index, misses elsewhere.
#[derive(Drop)]
pub(crate) struct Spins {
    pub count: u64,
    pub turns: u64,
    pub hit_at: u64,
}

impl Job for Spins {
    type Miss = u64;

    type Hit = u64;

    ghost use Rattle.std.specs.Prelude.{ℕ, nat_eq, if◌then◌else◌};
    ghost use Rattle.ct_pool.specs.declared.job.Outcome.{Outcome};
    ghost use Rattle.ct_pool.specs.declared.job.Outcome.TheVariants.{Miss, Hit};
    ghost use Rattle.bench_pool.specs.Turns.{turned};

    ghost size = { λ job. job.count };

    ghost outcome = { λ job i. if nat_eq i job.hit_at then Hit (turned i job.turns) else Miss (turned i job.turns) };

    fn attempt(&self, _: Global, index: u64) -> Result<Outcome<u64, u64>, NoMemory> {
        let found = spun(index, self.turns);
        if index == self.hit_at {
            Ok(Outcome::Hit(found))
        } else {
            Ok(Outcome::Miss(found))
        }
    }
}

fn spun(seed: u64, turns: u64) -> u64
    ensures value { result ≡ turned seed turns }
{
    let mut value = seed;
    for _ in 0..turns {
        value = value
            .wrapping_mul(value.wrapping_mul(2).wrapping_add(1))
            .wrapping_add(1442695040888963407);
    }
    value
}
