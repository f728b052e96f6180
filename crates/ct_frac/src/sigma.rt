// A name of a fraction replaced by itself plus one.
ghost use Rattle.std.specs.Prelude.{◌≡◌, ◌<◌, IfOk, []};
ghost use Rattle.ct_algebra.specs.Actions.{Action, Shift};
ghost use Rattle.ct_algebra.specs.Field.{coefficients};
ghost use Rattle.ct_algebra.specs.Names.{Name, name_with};
ghost use Rattle.ct_checked.specs.Checked.{Answers, AnswersBy};
ghost use Rattle.ct_frac.specs.Symbols.{checked_shifted_factors, checked_sigma};
ghost use Rattle.ct_frac.specs.Written.{value};

use crate::den::Den;
use crate::factor::Factor;
use crate::frac::Frac;
use crate::insertion::insert;
use ct_poly::Fault;
use std::alloc::Global;

impl Frac {
    /// The name replaced by itself plus one.
    pub fn sigma(&self, alloc: Global, i: u8) -> Result<Frac, Fault>
        requires { i < 6 }
        ensures answers { Answers (checked_sigma (name_with i) self.now) result }
        ensures value { IfOk result (λ r. (a : Name → Action) → a (name_with i) ≡ Shift → value r ≡ (coefficients a).σ (name_with i) (value self.now)) }
    {
        self.in_written_form();
        shifted(alloc, self, i)
    }
}

#[tactic(auto, unfolding(crate::specs::Symbols::checked_sigma))]
fn shifted(alloc: Global, f: &Frac, i: u8) -> Result<Frac, Fault>
    requires { i < 6 }
    ensures { Answers (checked_sigma (name_with i) f.now) result }
{
    f.in_written_form();
    let numerator = f.numerator().shift(alloc, i, 1)?;
    let factors = shifted_factors(alloc, f.den().factors(), i)?;
    let den = Den {
        whole: f.den().whole(),
        factors,
    };
    Ok(Frac { numerator, den })
}

// Each factor is shifted, and they are sorted anew.
fn shifted_factors(alloc: Global, factors: &[Factor], i: u8) -> Result<Vec<Factor>, Fault>
    requires { i < 6 }
    ensures { AnswersBy (λ v. v.items) (checked_shifted_factors (name_with i) [] factors.now) result }
{
    let mut done = Vec::new(alloc);
    let mut rest = factors;
    'shifting: while let Some((f, more)) = rest.split_first() {
        let poly = f.poly.shift(alloc, i, 1)?;
        insert(&mut done, Factor { poly, exp: f.exp })?;
        rest = more;
    }
    Ok(done)
}
