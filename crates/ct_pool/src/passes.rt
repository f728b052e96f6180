// The passes are made, and taken back.
ghost use Rattle.std.specs.Prelude.{◌≡◌, ℕ, ◌+◌, ◌<◌, ◌≤◌, IfOk, [], vec_len, map, All, length};
ghost use Rattle.ct_core.specs.Machine.{fresh};
ghost use Rattle.ct_pool.specs.Passes.{passes_of, IsGathered};

use crate::NoMemory;
use crate::claims::{Claims, Closed, Pass, Root};
use std::alloc::Global;

/// The two words, the root and the passes, numbered from 0, with nothing claimed.
pub fn open(alloc: Global, count: u64, workers: u32) -> Result<(Claims, Root, Vec<Pass>), NoMemory>
    requires count { count ≤ 65535 }
    requires workers { (0 < workers) × (workers ≤ 16) }
    ensures claims { IfOk result (λ t. t.0.count ≡ count) }
    ensures root { IfOk result (λ t. t.1 ≡ record { count = count; made = workers; joined = []; table = t.0.table }) }
    ensures passes { IfOk result (λ t. t.2.items ≡ passes_of t.0.table workers) }
    ensures fresh { IfOk result (λ t. (vec_len t.2 ≡ workers) × All (λ pass. (pass.table ≡ t.0.table) × (pass.sight ≡ fresh)) t.2.items) }
{
    let (claims, mut root) = Claims::new(alloc, count)?;
    let mut passes = Vec::with_capacity(alloc, workers as usize)?;
    for number in 0..workers {
        passes.push(claims.worker(&mut root, number))?;
    }
    Ok((claims, root, passes))
}

impl Claims {
    /// Takes all passes back, whatever they have done, and tells the two words.
    pub fn gather(&self, root: &mut Root, mut passes: Vec<Pass>) -> Closed
        requires root { (root.old.table ≡ self.now.table) × (root.old.count ≡ self.now.count) }
        requires all { (root.old.joined ≡ []) × (root.old.made ≡ vec_len passes) }
        requires passes { All (λ pass. pass.table ≡ self.now.table) passes.items }
        ensures root { root.new ≡ record { count = root.old.count; made = root.old.made; joined = map (λ pass. pass.sight) passes.items; table = root.old.table } }
        ensures gathered { IsGathered self.now.count result.next result.least (map (λ pass. pass.sight) passes.items) }
    {
        passes.reverse();
        while let Some(pass) = passes.pop() {
            self.take_back(root, pass);
        }
        settle(self, root)
    }
}

// What the words are once all passes are back: each load names one of them, and the rule ties them together.
fn settle(claims: &Claims, root: &mut Root) -> Closed
    requires root { (root.old.table ≡ claims.now.table) × (root.old.count ≡ claims.now.count) }
    requires back { root.old.made ≡ length root.old.joined }
    ensures unchanged { root.new ≡ root.old }
    ensures gathered { IsGathered claims.now.count result.next result.least root.old.joined }
{
    let next = claims.next(root);
    let least = claims.least(root);
    Closed { next, least }
}
