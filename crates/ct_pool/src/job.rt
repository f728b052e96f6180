// Work that is cut into indices.
use crate::NoMemory;
use std::alloc::Global;

/// What an attempt finds at an index.
#[derive(Debug, Drop)]
pub enum Outcome<M, H> {
    Miss(M),
    Hit(H),
}

/// Work that is cut into indices, each with an outcome that no order of the attempts changes.
pub trait Job: Sync {
    type Miss: Send + Drop;

    type Hit: Send + Drop;

    ghost use Rattle.std.specs.Prelude.{ℕ, ◌<◌, ◌≡◌, IfOk};
    ghost use Rattle.ct_pool.specs.declared.job.Outcome.{Outcome};

    /// The indices below it can be attempted.
    ghost size: { Self → ℕ };

    /// What stands at an index.
    ghost outcome: { Self → ℕ → Outcome Self.Miss Self.Hit };

    fn attempt(&self, alloc: Global, index: u64) -> Result<Outcome<Self::Miss, Self::Hit>, NoMemory>
        requires { index < size self.now }
        ensures { IfOk result (λ found. found ≡ outcome self.now index) };
}
