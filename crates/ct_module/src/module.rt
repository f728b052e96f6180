// Finite modules: elements, rows and a start.
ghost use Rattle.std.specs.Prelude.{◌≡◌, ◌<◌, IfOk, length};
ghost use Rattle.ct_algebra.specs.Names.{name_with};
ghost use Rattle.ct_module.specs.Modules.{rows_of};
ghost use Rattle.ct_module.specs.Views.{rows_in};

use crate::copies::{copied, copied_lists};
use ct_frac::Frac;
use ct_mono::{Monomial, NoMemory};
use std::alloc::Global;
use std::marker::Model;

/// A finite module over the fractions. `rows[i][b]` is what the symbol of the name i makes of element b; the list of a name without
/// operator is empty.
#[derive(Drop)]
pub struct Module {
    pub basis: Vec<Monomial>,
    pub rows: Vec<Vec<Vec<Frac>>>,
    pub start: Vec<Frac>,
}

impl Model for Module {
    ghost use Rattle.ct_module.specs.Modules.{WrittenModule, module_code};
    ghost use Rattle.ct_module.specs.Views.{lists_in};

    ghost Value = { WrittenModule };

    ghost coded = { module_code };

    ghost view = { λ m. record { basis = m.basis.items; rows = lists_in m.rows.items; start = m.start.items } };
}

impl Module {
    /// The elements. Of a module that a closure made they are numbered by monomials, and only their places have a meaning.
    pub fn basis(&self) -> &[Monomial]
        ensures { result.now ≡ self.now.basis }
    {
        self.basis.as_slice()
    }

    /// The rows of a name.
    pub fn rows(&self, i: u8) -> &[Vec<Frac>]
        requires known { i < 6 }
        requires in_range { i < length self.now.rows }
        ensures { rows_in result.now ≡ rows_of self.now (name_with i) }
    {
        self.rows[i as usize].as_slice()
    }

    pub fn start(&self) -> &[Frac]
        ensures { result.now ≡ self.now.start }
    {
        self.start.as_slice()
    }

    pub fn copy(&self, alloc: Global) -> Result<Module, NoMemory>
        ensures value { IfOk result (λ m. m ≡ self.now) }
    {
        let basis = Vec::from_slice(alloc, self.basis())?;
        let rows = copied_lists(alloc, self.rows.as_slice())?;
        let start = copied(alloc, self.start())?;
        Ok(Module { basis, rows, start })
    }
}
