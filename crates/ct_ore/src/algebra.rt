// Algebras: the names, what their symbols do, and what they are for.
ghost use Rattle.std.specs.Prelude.{◌≡◌, ◌<◌, ◌≤◌, length, Some, slice_get};
ghost use Rattle.ct_algebra.specs.Names.{name_with};
ghost use Rattle.ct_ore.specs.AllNames.{number_of_names};
ghost use Rattle.ct_ore.specs.Naming.{action_of, actions_of, naming_of, namings_of, IsAlgebra};

use std::marker::Model;

/// How many names an algebra can have.
pub(crate) const NAMES: u8 = 6;

/// What the symbol of a name does: x becomes x + 1, the derivation by x, or the name has no symbol.
#[derive(Clone, Copy, Debug, PartialEq, Eq)]
pub enum Action {
    Shift,
    Derive,
    Still,
}

/// What a name is for. A summed name is one that the sum or integral runs over.
#[derive(Clone, Copy, Debug, PartialEq, Eq)]
pub enum Role {
    Free,
    Summed,
    Param,
}

/// A declared name.
#[derive(Drop)]
pub struct NameInfo {
    pub text: String,
    pub action: Action,
    pub role: Role,
}

/// One to six names, numbered from 0.
#[derive(Drop)]
pub struct Algebra {
    names: Vec<NameInfo>,
}

impl Model for Algebra {
    ghost use Rattle.std.specs.Prelude.{List};
    ghost use Rattle.ct_algebra.specs.Names.{name_with};
    ghost use Rattle.ct_ore.specs.Naming.{Naming, namings_of, IsAlgebra};

    ghost Value = { List Naming };

    ghost view = { λ a. namings_of a.names.items };

    ghost invariant = { λ a. IsAlgebra (namings_of a.names.items) };
}

impl Algebra {
    /// The algebra of the names: one to six with different texts, each a word other than `S` and `D`, at
    /// most four with an operator and at most three summed, the parameters being those without operator.
    pub fn new(names: Vec<NameInfo>) -> Algebra
        requires { IsAlgebra (namings_of names.items) }
        ensures { result ≡ namings_of names.items }
    {
        Algebra { names }
    }

    /// How many names there are.
    pub fn count(&self) -> u8
        ensures { result ≡ length self.now }
    {
        self.names.len() as u8
    }

    /// The names, in order.
    pub fn infos(&self) -> &[NameInfo]
        ensures names { namings_of result.now ≡ self.now }
        ensures algebra { IsAlgebra self.now }
        ensures few { length result.now ≤ number_of_names }
    {
        self.names.as_slice()
    }

    /// What the symbol of a name does; a name past the list has none.
    pub(crate) fn action(&self, i: u8) -> Action
        requires { i < number_of_names }
        ensures { action_of result ≡ actions_of self.now (name_with i) }
    {
        if i < self.count() {
            self.info(i).action
        } else {
            Action::Still
        }
    }

    /// The name with a number.
    pub fn info(&self, i: u8) -> &NameInfo
        requires { i < length self.now }
        ensures { slice_get self.now i ≡ Some (naming_of result.now) }
    {
        &self.names[i as usize]
    }
}
