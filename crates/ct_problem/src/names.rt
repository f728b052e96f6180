// The numbers of names.
ghost use Rattle.std.specs.Prelude.{◌≡◌, ◌<◌, length, map, IfOk};
ghost use Rattle.std.specs.List.{All};
ghost use Rattle.ct_algebra.specs.Names.{name_with};
ghost use Rattle.ct_ore.specs.Naming.{is_summed, summed_of};

use ct_mono::NoMemory;
use ct_ore::{Algebra, Role};
use std::alloc::Global;

/// The numbers of the summed names, in order.
pub fn summed_names(alloc: Global, algebra: &Algebra) -> Result<Vec<u8>, NoMemory>
    ensures names { IfOk result (λ v. map name_with v.items ≡ summed_of algebra.now) }
    ensures known { IfOk result (λ v. All (λ i. i < length algebra.now) v.items) }
{
    let mut found = Vec::new(alloc);
    for i in 0..algebra.count() {
        if is_summed(algebra.info(i).role) {
            found.push(i)?;
        }
    }
    Ok(found)
}

fn is_summed(role: Role) -> bool
    ensures { result ≡ is_summed role }
{
    matches!(role, Role::Summed)
}
