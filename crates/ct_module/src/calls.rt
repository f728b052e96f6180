// Denominators and columns of a setting. They stand here because a function `column` cannot stand beside the type `Column`.
ghost use Rattle.std.specs.Prelude.{◌≡◌, ◌≢◌, ◌≤◌, IfOk};
ghost use Rattle.ct_algebra.specs.Names.{name_with};
ghost use Rattle.ct_algebra.specs.Polynomial.{polys};
ghost use Rattle.ct_checked.specs.Checked.{Answers};
ghost use Rattle.ct_frac.specs.Normal.{quotient_of};
ghost use Rattle.ct_module.specs.Columns.{largest_order, IsSummedName, IsKeyOf, checked_denominator, checked_column};
ghost use Rattle.ct_module.specs.Denominators.{DenominatorMeans, IsSignedProduct};
ghost use Rattle.ct_module.specs.Modules.{dimension};
ghost use Rattle.ct_module.specs.Values.{vector_of, key_vector};

use crate::certificates::certificate_column;
use crate::column::Column;
use crate::denominators::common_denominator;
use crate::key::Key;
use crate::setting::Setting;
use ct_frac::{Den, Frac, Poly};
use ct_mono::{Fault, LARGEST_DEGREE, NoMemory};
use std::alloc::Global;

/// The denominator of an order at a summed name.
pub fn denominator(alloc: Global, setting: &Setting, order: u16, name: u8) -> Result<Den, Fault>
    requires small { order ≤ largest_order }
    requires name { IsSummedName setting.now.names name }
    ensures steps { Answers (checked_denominator setting.now order (name_with name)) result }
    ensures means { IfOk result (λ d. DenominatorMeans setting.now order (name_with name) d) }
{
    setting.fits();
    match setting.den(name) {
        Some(p) => Ok(one_over(alloc, p)?),
        None => common_denominator(alloc, setting, order),
    }
}

// The denominator of 1 over a polynomial.
fn one_over(alloc: Global, p: &Poly) -> Result<Den, NoMemory>
    requires { p.now ≢ polys.zero }
    ensures written { IfOk result (λ d. d ≡ (quotient_of polys.one p.now).den) }
    ensures product { IfOk result (λ d. IsSignedProduct d p.now) }
{
    // The common monomial of all terms divides the first one, so its total is within the limit too.
    let first = &p.terms()[0];
    prove!(first.mono.total() <= LARGEST_DEGREE);
    p.within_limits();
    let one = Poly::constant(alloc, 1)?;
    let quotient = Frac::quotient(alloc, &one, p)?;
    quotient.den().copy(alloc)
}

/// The column of a key.
pub fn column(alloc: Global, setting: &Setting, key: &Key) -> Result<Column, Fault>
    requires key { IsKeyOf setting.now key.now }
    ensures steps { Answers (checked_column setting.now key.now) result }
    ensures means { IfOk result (λ c. vector_of (dimension setting.now.space) c ≡ key_vector setting.now key.now) }
{
    let entries = match key {
        Key::Free(m) => {
            setting.fits();
            let module = setting.module();
            module.free_column(alloc, setting.algebra(), module.start(), m)?
        }
        Key::Cert {
            order,
            name,
            element,
            mono,
        } => certificate_column(alloc, setting, *order, *name, *element, mono)?,
    };
    Ok(Column { entries })
}
