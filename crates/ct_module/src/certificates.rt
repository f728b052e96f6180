// The columns of certificates.
ghost use Rattle.std.specs.Prelude.{◌≡◌, ◌≤◌, ◌<◌, IfOk, length, map};
ghost use Rattle.ct_algebra.specs.Names.{name_with};
ghost use Rattle.ct_checked.specs.Checked.{AnswersBy};
ghost use Rattle.ct_frac.specs.Arithmetic.{negative};
ghost use Rattle.ct_frac.specs.Written.{value};
ghost use Rattle.ct_module.specs.Modules.{dimension};
ghost use Rattle.ct_module.specs.Values.{vector_of, rows_by_value, differences_of, negatives_of, negative_difference, summand_vector, denominator_at};
ghost use Rattle.ct_ore.specs.Naming.{actions_of};
ghost use Rattle.ct_module.specs.Columns.{IsCertificateOf, only_at, checked_differences, checked_certificate_column};

use crate::calls::denominator;
use crate::copies::append;
use crate::kinds::negative_difference;
use crate::setting::Setting;
use ct_frac::{Frac, Poly};
use ct_mono::{Fault, Monomial, NoMemory};
use std::alloc::Global;

/// The column of a power over the denominator, times an element.
#[tactic(auto, unfolding(crate::specs::Columns::checked_certificate_column))]
pub(crate) fn certificate_column(
    alloc: Global,
    setting: &Setting,
    order: u16,
    name: u8,
    element: u8,
    mono: &Monomial,
) -> Result<Vec<Frac>, Fault>
    requires { IsCertificateOf setting.now order name element mono.now }
    ensures steps { AnswersBy (λ v. v.items) (checked_certificate_column setting.now order (name_with name) element mono.now) result }
    ensures means { IfOk result (λ v. vector_of (dimension setting.now.space) v.items ≡ negative_difference (actions_of setting.now.names) (dimension setting.now.space) (rows_by_value setting.now.space) (name_with name) (summand_vector (dimension setting.now.space) element mono.now (denominator_at setting.now order (name_with name)))) }
{
    setting.fits();
    let algebra = setting.algebra();
    let module = setting.module();
    let den = denominator(alloc, setting, order, name)?;
    let power = Poly::monomial(alloc, mono)?;
    let fraction = Frac::over(alloc, power, &den)?;
    let v = only_at(alloc, module.basis().len(), element as usize, fraction)?;
    let acted = module.act(alloc, algebra, name, v.as_slice())?;
    negative_difference(
        alloc,
        algebra.info(name).action,
        v.as_slice(),
        acted.as_slice(),
    )
}

// A fraction at one element, and zero elsewhere.
fn only_at(alloc: Global, dimension: usize, element: usize, f: Frac) -> Result<Vec<Frac>, NoMemory>
    requires { element < dimension }
    ensures { IfOk result (λ v. v.items ≡ only_at dimension element f) }
{
    let mut v = Vec::with_capacity(alloc, dimension)?;
    'filling: for _ in 0..dimension {
        append(&mut v, Frac::zero(alloc)?)?;
    }
    v[element] = f;
    Ok(v)
}

/// The differences of two vectors, entry by entry.
pub(crate) fn differences(alloc: Global, v: &[Frac], w: &[Frac]) -> Result<Vec<Frac>, Fault>
    ensures steps { AnswersBy (λ u. u.items) (checked_differences v.now w.now) result }
    ensures values { IfOk result (λ u. map value u.items ≡ differences_of v.now w.now) }
{
    let mut made = Vec::with_capacity(alloc, v.len())?;
    let mut left = v;
    let mut right = w;
    'going: while let Some((x, more)) = left.split_first() {
        let Some((y, others)) = right.split_first() else {
            return Ok(made);
        };
        append(&mut made, x.sub(alloc, y)?)?;
        left = more;
        right = others;
    }
    Ok(made)
}

/// The negatives of all entries.
pub(crate) fn negatives(alloc: Global, v: &[Frac]) -> Result<Vec<Frac>, NoMemory>
    ensures steps { IfOk result (λ u. u.items ≡ map negative v.now) }
    ensures values { IfOk result (λ u. map value u.items ≡ negatives_of v.now) }
{
    let mut made = Vec::with_capacity(alloc, v.len())?;
    let mut rest = v;
    'going: while let Some((x, more)) = rest.split_first() {
        append(&mut made, x.neg(alloc)?)?;
        rest = more;
    }
    Ok(made)
}
