// The first index that is decided.
ghost use Rattle.std.specs.Prelude.{◌≡◌, ℕ, ◌+◌, ◌<◌, ◌≤◌, [], None, false, true, IfOk, vec_len, map, All, length};
ghost use Rattle.ct_core.specs.Counting.{Each};
ghost use Rattle.ct_core.specs.CompleteList.{has_ended};
ghost use Rattle.ct_core.specs.Machine.{fresh};
ghost use Rattle.ct_pool.specs.FirstDecided.{IsDecision};
ghost use Rattle.ct_pool.specs.Found.{IsFound, AreFound, key_of, key_found};

use crate::NoMemory;
use crate::claims::{Claims, Pass};
use crate::decision::{Decision, conclude};
use crate::job::Job;
use crate::passes::open;
use crate::workers::{Worker, work_all};
use ct_io::Gate;
use std::alloc::Global;
use std::thread::Threads;

type Found<M, H> = (Vec<(u64, M)>, Option<(u64, H)>);

/// A worker for each pass, with nothing found.
fn team_of<M: Drop, H: Drop>(
    alloc: Global,
    claims: &Claims,
    mut passes: Vec<Pass>,
) -> Result<Vec<Worker<M, H>>, NoMemory>
    requires passes { All (λ pass. (pass.table ≡ claims.now.table) × (pass.sight ≡ fresh)) passes.items }
    ensures team { IfOk result (λ v. (vec_len v ≡ vec_len passes) × All (λ w. (w.pass.table ≡ claims.now.table) × (w.pass.sight ≡ fresh) × (w.misses.items ≡ []) × (w.hit ≡ None) × (w.starved ≡ false)) v.items) }
{
    let mut team = Vec::with_capacity(alloc, passes.len())?;
    passes.reverse();
    while let Some(pass) = passes.pop() {
        team.push(Worker {
            pass,
            misses: Vec::new(alloc),
            hit: None,
            starved: false,
        })?;
    }
    Ok(team)
}

/// The passes in order, and what each worker found. Out of memory where a worker was.
fn results_of<J: Job>(
    alloc: Global,
    job: &J,
    claims: &Claims,
    mut team: Vec<Worker<J::Miss, J::Hit>>,
) -> Result<(Vec<Pass>, Vec<Found<J::Miss, J::Hit>>), NoMemory>
    requires team { All (λ w. (w.pass.table ≡ claims.now.table) × (w.starved ≡ false → IsFound (J.outcome job.now) claims.now.count w.pass.sight w.misses.items w.hit)) team.items }
    ensures size { IfOk result (λ t. vec_len t.0 ≡ vec_len team) }
    ensures table { IfOk result (λ t. All (λ pass. pass.table ≡ claims.now.table) t.0.items) }
    ensures ended { IfOk result (λ t. Each (λ v. has_ended claims.now.count v ≡ true) (map (λ pass. pass.sight) t.0.items)) }
    ensures keys { IfOk result (λ t. map (λ f. key_found (f.0.items, f.1)) t.1.items ≡ map key_of (map (λ pass. pass.sight) t.0.items)) }
    ensures found { IfOk result (λ t. Each (λ f. AreFound (J.outcome job.now) (f.0.items, f.1)) t.1.items) }
{
    let mut passes = Vec::with_capacity(alloc, team.len())?;
    let mut founds = Vec::with_capacity(alloc, team.len())?;
    team.reverse();
    while let Some(worker) = team.pop() {
        let Worker {
            pass,
            misses,
            hit,
            starved,
        } = worker;
        if starved {
            return Err(NoMemory);
        }
        passes.push(pass)?;
        founds.push((misses, hit))?;
    }
    Ok((passes, founds))
}

/// The least index below the count whose outcome is a hit, with all misses before it, or all misses.
///
/// Where any worker was out of memory, this is the answer, also at an index beyond the least hit.
pub fn first_decided<J: Job, G: Gate, R: Threads + Sync>(
    rt: &R,
    alloc: Global,
    job: &J,
    count: u64,
    workers: u64,
    gate: &G,
) -> Result<Decision<J::Miss, J::Hit>, NoMemory>
    requires count { (count ≤ 65535) × (count ≤ J.size job.now) }
    requires workers { (0 < workers) × (workers ≤ 16) }
    ensures decided { IfOk result (IsDecision (J.outcome job.now) count) }
{
    let (claims, mut root, passes) = open(alloc, count, workers as u32)?;
    let mut team = team_of(alloc, &claims, passes)?;
    work_all(rt, &claims, alloc, job, gate, team.as_mut_slice());
    let (passes, founds) = results_of(alloc, job, &claims, team)?;
    let closed = claims.gather(&mut root, passes);
    conclude(alloc, job, count, closed.least, founds)
}
