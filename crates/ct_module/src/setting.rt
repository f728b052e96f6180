// Settings: what columns are formed in.
ghost use Rattle.std.specs.Prelude.{◌≡◌, ◌<◌, ◌↔◌, IsTrue, Option, length};
ghost use Rattle.std.specs.Option.{option_map};
ghost use Rattle.ct_algebra.specs.Names.{name_with};
ghost use Rattle.ct_module.specs.Fitting.{SettingFits};
ghost use Rattle.ct_module.specs.Modules.{den_of};
ghost use Rattle.ct_ore.specs.Naming.{IsAlgebra};

use crate::module::Module;
use crate::same::{same_dens, same_names};
use ct_ore::Algebra;
use ct_poly::Poly;
use std::marker::Model;

/// An algebra and a module over it. `dens` has an entry for each name: where there is a polynomial, the denominator of the name's
/// certificate is made of it.
#[derive(Drop)]
pub struct Setting {
    pub algebra: Algebra,
    pub module: Module,
    pub dens: Vec<Option<Poly>>,
}

impl Model for Setting {
    ghost use Rattle.std.specs.Coded.{codes};
    ghost use Rattle.ct_module.specs.Modules.{WrittenSetting, setting_code};
    ghost use Rattle.ct_module.specs.Fitting.{SettingFits};

    ghost Value = { WrittenSetting };

    ghost coded = { setting_code (Prim.hlevel codes) };

    ghost view = { λ s. record { names = s.algebra; space = s.module; dens = s.dens.items } };

    ghost invariant = { λ s. SettingFits s.algebra s.module s.dens.items };
}

impl Setting {
    pub fn algebra(&self) -> &Algebra
        ensures { result.now ≡ self.now.names }
    {
        &self.algebra
    }

    pub fn module(&self) -> &Module
        ensures { result.now ≡ self.now.space }
    {
        &self.module
    }

    /// The polynomial that the denominator of a name is made of, where one is given.
    pub fn den(&self, i: u8) -> Option<&Poly>
        requires { i < length self.now.names }
        ensures { option_map (λ p. p.now) result ≡ den_of self.now.dens (name_with i) }
    {
        // Where the names are read, the proof knows how many there can be.
        let _ = self.algebra.infos();
        self.dens[i as usize].as_ref()
    }

    /// Each setting fits its algebra. A call tests nothing: it recalls this to the proof of its caller.
    pub fn fits(&self)
        ensures fits { SettingFits self.now.names self.now.space self.now.dens }
        ensures algebra { IsAlgebra self.now.names }
    {
        let _ = self.algebra.infos();
    }

    /// Whether both are written in the same way.
    pub fn same(&self, other: &Setting) -> bool
        ensures { IsTrue result ↔ (self.now ≡ other.now) }
    {
        same_names(self.algebra().infos(), other.algebra().infos())
            && self.module().same(other.module())
            && same_dens(self.dens.as_slice(), other.dens.as_slice())
    }
}
