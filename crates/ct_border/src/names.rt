// The names with operators.
ghost use Rattle.std.specs.Prelude.{◌≡◌, ◌<◌, IfOk};
ghost use Rattle.ct_algebra.specs.Names.{name_with};
ghost use Rattle.ct_ore.specs.Naming.{action_of, actions_of};
ghost use Rattle.ct_border.specs.Staircase.{acts, operator_numbers};

use ct_mono::NoMemory;
use ct_ore::{Action, Algebra};
use std::alloc::Global;

/// The numbers of the names that have an operator, in order.
pub(crate) fn operator_numbers(alloc: Global, algebra: &Algebra) -> Result<Vec<u8>, NoMemory>
    ensures { IfOk result (λ v. v.items ≡ operator_numbers (actions_of algebra.now)) }
{
    let mut found = Vec::new(alloc);
    for i in 0..6 {
        if !has_operator(algebra, i) {
            continue;
        }
        found.push(i)?;
    }
    Ok(found)
}

// A name past the list has none.
pub(crate) fn has_operator(algebra: &Algebra, i: u8) -> bool
    requires { i < 6 }
    ensures { result ≡ acts (actions_of algebra.now (name_with i)) }
{
    if i < algebra.count() {
        acts(algebra.info(i).action)
    } else {
        false
    }
}

fn acts(action: Action) -> bool
    ensures { result ≡ acts (action_of action) }
{
    !matches!(action, Action::Still)
}
