// Free and summed names.
ghost use Rattle.std.specs.Prelude.{◌≡◌, ◌<◌, ◌&&◌, IfOk, map};
ghost use Rattle.std.specs.List.{All, AllPairs};
ghost use Rattle.ct_algebra.specs.Names.{name_with};
ghost use Rattle.ct_frac.specs.Symbols.{has_name};
ghost use Rattle.ct_module.specs.Columns.{has_summed};
ghost use Rattle.ct_ore.specs.Naming.{actions_of, is_summed, summed_of};
ghost use Rattle.ct_telescoping.specs.Columns.{free_names};

use ct_mono::NoMemory;
use ct_ore::{Algebra, NameInfo, Role};
use ct_poly::Poly;
use std::alloc::Global;

/// The numbers of the free names, which have operators, in order.
pub(crate) fn free_names(alloc: Global, algebra: &Algebra) -> Result<Vec<u8>, NoMemory>
    ensures names { IfOk result (λ v. map name_with v.items ≡ free_names (actions_of algebra.now) (summed_of algebra.now)) }
    ensures known { IfOk result (λ v. All (λ i. i < 6) v.items) }
    ensures rise { IfOk result (λ v. AllPairs (λ i j. i < j) v.items) }
{
    let mut found = Vec::new(alloc);
    let mut i = 0;
    let mut rest = algebra.infos();
    'seeking: while let Some((info, more)) = rest.split_first() {
        if info.role == Role::Free {
            found.push(i)?;
        }
        i += 1;
        rest = more;
    }
    Ok(found)
}

/// Whether a polynomial has a summed name.
pub(crate) fn has_summed(algebra: &Algebra, p: &Poly) -> bool
    ensures { result ≡ has_summed algebra.now p.now }
{
    let mut i = 0;
    let mut rest = algebra.infos();
    'seeking: while let Some((info, more)) = rest.split_first() {
        if is_summed_in(info, i, p) {
            return true;
        }
        i += 1;
        rest = more;
    }
    false
}

// Whether a name is summed and a polynomial has it.
fn is_summed_in(info: &NameInfo, i: u8, p: &Poly) -> bool
    requires { i < 6 }
    ensures { result ≡ (is_summed info.now.role && has_name (name_with i) p.now) }
{
    match info.role {
        Role::Summed => p.contains(i),
        Role::Free | Role::Param => false,
    }
}
