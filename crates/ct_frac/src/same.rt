// Copies of denominators, and whether two are written in the same way.
ghost use Rattle.std.specs.Prelude.{◌≡◌, ◌↔◌, IfOk, IsTrue};

use crate::den::Den;
use crate::factor::Factor;
use ct_poly::NoMemory;
use std::alloc::Global;

impl Den {
    pub fn copy(&self, alloc: Global) -> Result<Den, NoMemory>
        ensures value { IfOk result (λ d. d ≡ self.now) }
    {
        self.in_written_form();
        let factors = copy_of_factors(alloc, self.factors())?;
        Ok(Den {
            whole: self.whole(),
            factors,
        })
    }

    /// Whether both are written in the same way.
    pub fn same(&self, other: &Den) -> bool
        ensures { IsTrue result ↔ (self.now ≡ other.now) }
    {
        self.whole() == other.whole() && same_factors(self.factors(), other.factors())
    }
}

pub fn copy_of_factors(alloc: Global, factors: &[Factor]) -> Result<Vec<Factor>, NoMemory>
    ensures { IfOk result (λ v. v.items ≡ factors.now) }
{
    let mut out = Vec::with_capacity(alloc, factors.len())?;
    let mut rest = factors;
    'copying: while let Some((f, more)) = rest.split_first() {
        let poly = f.poly.copy(alloc)?;
        out.push(Factor { poly, exp: f.exp })?;
        rest = more;
    }
    Ok(out)
}

fn same_factors(fs: &[Factor], gs: &[Factor]) -> bool
    ensures { IsTrue result ↔ (fs.now ≡ gs.now) }
{
    let mut mine = fs;
    let mut its = gs;
    'comparing: while let Some((f, more)) = mine.split_first() {
        let Some((g, others)) = its.split_first() else {
            return false;
        };
        if f.exp != g.exp || !f.poly.same(&g.poly) {
            return false;
        }
        mine = more;
        its = others;
    }
    its.is_empty()
}
