// Copies of algebras.
ghost use Rattle.std.specs.Prelude.{◌≡◌, IfOk};

use ct_mono::NoMemory;
use ct_ore::{Algebra, NameInfo};
use std::alloc::Global;

pub(crate) fn copy_of(alloc: Global, algebra: &Algebra) -> Result<Algebra, NoMemory>
    ensures { IfOk result (λ copy. copy ≡ algebra.now) }
{
    let infos = algebra.infos();
    let mut names = Vec::new(alloc);
    for info in infos {
        names.push(NameInfo {
            text: info.text.clone()?,
            action: info.action,
            role: info.role,
        })?;
    }
    Ok(Algebra::new(names))
}
