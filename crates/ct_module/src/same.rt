// Whether names, polynomials of denominators, and modules are written in the same way.
ghost use Rattle.std.specs.Prelude.{◌≡◌, ◌↔◌, IsTrue};
ghost use Rattle.ct_ore.specs.Naming.{namings_of};
ghost use Rattle.ct_module.specs.Views.{rows_in, lists_in};

use crate::module::Module;
use ct_frac::Frac;
use ct_mono::Monomial;
use ct_ore::NameInfo;
use ct_poly::Poly;

impl Module {
    /// Whether both are written in the same way.
    pub fn same(&self, other: &Module) -> bool
        ensures { IsTrue result ↔ (self.now ≡ other.now) }
    {
        same_basis(self.basis(), other.basis())
            && same_lists(self.rows.as_slice(), other.rows.as_slice())
            && same_vector(self.start(), other.start())
    }
}

pub(crate) fn same_names(xs: &[NameInfo], ys: &[NameInfo]) -> bool
    ensures { IsTrue result ↔ (namings_of xs.now ≡ namings_of ys.now) }
{
    let mut mine = xs;
    let mut its = ys;
    'comparing: while let Some((x, more)) = mine.split_first() {
        let Some((y, others)) = its.split_first() else {
            return false;
        };
        if x.text != y.text || x.action != y.action || x.role != y.role {
            return false;
        }
        mine = more;
        its = others;
    }
    its.is_empty()
}

pub(crate) fn same_dens(xs: &[Option<Poly>], ys: &[Option<Poly>]) -> bool
    ensures { IsTrue result ↔ (xs.now ≡ ys.now) }
{
    let mut mine = xs;
    let mut its = ys;
    'comparing: while let Some((x, more)) = mine.split_first() {
        let Some((y, others)) = its.split_first() else {
            return false;
        };
        if !same_den(x, y) {
            return false;
        }
        mine = more;
        its = others;
    }
    its.is_empty()
}

fn same_den(x: &Option<Poly>, y: &Option<Poly>) -> bool
    ensures { IsTrue result ↔ (x.now ≡ y.now) }
{
    match (x, y) {
        (Some(p), Some(q)) => p.same(q),
        (None, None) => true,
        _ => false,
    }
}

fn same_basis(xs: &[Monomial], ys: &[Monomial]) -> bool
    ensures { IsTrue result ↔ (xs.now ≡ ys.now) }
{
    xs == ys
}

fn same_vector(xs: &[Frac], ys: &[Frac]) -> bool
    ensures { IsTrue result ↔ (xs.now ≡ ys.now) }
{
    let mut mine = xs;
    let mut its = ys;
    'comparing: while let Some((x, more)) = mine.split_first() {
        let Some((y, others)) = its.split_first() else {
            return false;
        };
        if !x.same(y) {
            return false;
        }
        mine = more;
        its = others;
    }
    its.is_empty()
}

fn same_rows(xs: &[Vec<Frac>], ys: &[Vec<Frac>]) -> bool
    ensures { IsTrue result ↔ (rows_in xs.now ≡ rows_in ys.now) }
{
    let mut mine = xs;
    let mut its = ys;
    'comparing: while let Some((x, more)) = mine.split_first() {
        let Some((y, others)) = its.split_first() else {
            return false;
        };
        if !same_vector(x.as_slice(), y.as_slice()) {
            return false;
        }
        mine = more;
        its = others;
    }
    its.is_empty()
}

fn same_lists(xs: &[Vec<Vec<Frac>>], ys: &[Vec<Vec<Frac>>]) -> bool
    ensures { IsTrue result ↔ (lists_in xs.now ≡ lists_in ys.now) }
{
    let mut mine = xs;
    let mut its = ys;
    'comparing: while let Some((x, more)) = mine.split_first() {
        let Some((y, others)) = its.split_first() else {
            return false;
        };
        if !same_rows(x.as_slice(), y.as_slice()) {
            return false;
        }
        mine = more;
        its = others;
    }
    its.is_empty()
}
