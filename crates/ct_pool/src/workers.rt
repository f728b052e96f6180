// A worker's loop, and all workers in threads.
ghost use Rattle.std.specs.Prelude.{◌≡◌, ℕ, ◌+◌, ◌-◌, ◌<◌, ◌≤◌, true, false, [], length, vec_len, None, slice_index_or, All, IfOk};
ghost use Rattle.std.specs.Thread.{IsSync};
ghost use Rattle.ct_core.specs.Machine.{fresh};
ghost use Rattle.ct_pool.specs.Found.{IsFound, IsLeftOpen};

use crate::claims::{Claims, Pass};
use crate::job::{Job, Outcome};
use ct_io::Gate;
use std::alloc::Global;
use std::thread;
use std::thread::Threads;

/// A worker with what it found: each miss with its index, and a hit with its index.
#[derive(Drop)]
pub(crate) struct Worker<M, H> {
    pub pass: Pass,
    pub misses: Vec<(u64, M)>,
    pub hit: Option<(u64, H)>,
    /// Whether it ended because it was out of memory.
    pub starved: bool,
}

/// Claims, looks and attempts until the indices are used up, a smaller hit was seen, or a hit was found.
///
/// The claim that follows a miss is what refutes its index, so the miss is kept before it.
pub(crate) fn work<J: Job, G: Gate>(
    claims: &Claims,
    alloc: Global,
    job: &J,
    gate: &G,
    worker: &mut Worker<J::Miss, J::Hit>,
)
    requires size { claims.now.count ≤ J.size job.now }
    requires table { worker.old.pass.table ≡ claims.now.table }
    requires fresh { (worker.old.pass.sight ≡ fresh) × (worker.old.misses.items ≡ []) × (worker.old.hit ≡ None) × (worker.old.starved ≡ false) }
    ensures unchanged { (worker.new.pass.table ≡ worker.old.pass.table) × (worker.new.pass.number ≡ worker.old.pass.number) }
    ensures found { worker.new.starved ≡ false → IsFound (J.outcome job.now) claims.now.count worker.new.pass.sight worker.new.misses.items worker.new.hit }
    ensures starved { worker.new.starved ≡ true → IsLeftOpen (J.outcome job.now) claims.now.count worker.new.pass.sight worker.new.misses.items }
{
    loop {
        let Some(index) = claims.claim(&mut worker.pass) else {
            return;
        };
        if let Some(seen) = claims.look(&mut worker.pass) {
            if seen < index {
                return;
            }
        }
        if worker.misses.reserve(1).is_err() {
            worker.starved = true;
            return;
        }
        gate.enter(index);
        match job.attempt(alloc, index) {
            Err(_) => {
                worker.starved = true;
                return;
            }
            Ok(Outcome::Miss(miss)) => worker.misses.push_reserved((index, miss)),
            Ok(Outcome::Hit(hit)) => {
                claims.hit(&mut worker.pass);
                worker.hit = Some((index, hit));
                return;
            }
        }
    }
}

/// Each worker in a thread of its own, as far as threads can be had.
pub(crate) fn work_all<J: Job, G: Gate, R: Threads + Sync>(
    rt: &R,
    claims: &Claims,
    alloc: Global,
    job: &J,
    gate: &G,
    workers: &mut [Worker<J::Miss, J::Hit>],
)
    requires size { claims.now.count ≤ J.size job.now }
    requires some_one { 0 < length workers.old }
    requires fresh { All (λ w. (w.pass.table ≡ claims.now.table) × (w.pass.sight ≡ fresh) × (w.misses.items ≡ []) × (w.hit ≡ None) × (w.starved ≡ false)) workers.old }
    ensures found { All (λ w. (w.pass.table ≡ claims.now.table) × (w.starved ≡ false → IsFound (J.outcome job.now) claims.now.count w.pass.sight w.misses.items w.hit)) workers.new }
{
    let threads = workers.len();
    let each = |_: usize, worker: &mut Worker<J::Miss, J::Hit>|
        requires { (claims.now.count ≤ J.size job.now) × (worker.now.pass.table ≡ claims.now.table) × (worker.now.pass.sight ≡ fresh) × (worker.now.misses.items ≡ []) × (worker.now.hit ≡ None) × (worker.now.starved ≡ false) }
        ensures { (worker.exit.now.pass.table ≡ claims.entry.now.table) × (worker.exit.now.starved ≡ false → IsFound (J.outcome job.entry.now) claims.entry.now.count worker.exit.now.pass.sight worker.exit.now.misses.items worker.exit.now.hit) }
    { work(claims, alloc, job, gate, worker) };
    thread::for_each_mut(rt, workers, threads, &each);
}
