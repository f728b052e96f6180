// The denominators of certificates.
ghost use Rattle.std.specs.Prelude.{◌≡◌, ◌≤◌, ◌++◌, Ok, IfOk, OnOk, List};
ghost use Rattle.std.specs.List.{All, filter, flat_map};
ghost use Rattle.ct_checked.specs.Checked.{Answers, AnswersBy};
ghost use Rattle.ct_frac.specs.FractionLaws.{EachIsWritten};
ghost use Rattle.ct_frac.specs.Written.{Written, IsWritten};
ghost use Rattle.ct_module.specs.Columns.{largest_order, has_summed, checked_common_denominator, checked_free_columns};
ghost use Rattle.ct_module.specs.Denominators.{CollectsFactors, checked_parts, part_of, parts_of};
ghost use Rattle.ct_ore.specs.Naming.{actions_of};
ghost use Rattle.ct_telescoping.specs.Staircase.{HasOperators};

use crate::copies::append;
use crate::names::{free_names, has_summed};
use crate::setting::Setting;
use ct_frac::{Den, Factor, Frac, Poly};
use ct_mono::{Fault, Monomial, NoMemory, up_to};
use ct_ore::Algebra;
use std::alloc::Global;

/// The factors with a summed name of all free columns' entries.
pub(crate) fn common_denominator(alloc: Global, setting: &Setting, order: u16) -> Result<Den, Fault>
    requires { order ≤ largest_order }
    ensures steps { Answers (checked_common_denominator setting.now order) result }
    ensures means { IfOk result (λ d. (columns : List (List Written)) → checked_free_columns setting.now order ≡ Ok columns → CollectsFactors setting.now.names (flat_map (λ column. column) columns) d) }
{
    let names = free_names(alloc, setting.algebra())?;
    let monomials = up_to(alloc, names.as_slice(), order)?;
    let parts = free_parts(alloc, setting, monomials.as_slice())?;
    Frac::common(alloc, parts.as_slice())
}

// For each entry of the columns, 1 over the factors with a summed name.
fn free_parts(alloc: Global, setting: &Setting, monomials: &[Monomial]) -> Result<Vec<Frac>, Fault>
    requires { All (HasOperators (actions_of setting.now.names)) monomials.now }
    ensures steps { AnswersBy (λ v. v.items) (checked_parts setting.now monomials.now) result }
    ensures written { IfOk result (λ v. EachIsWritten v.items) }
{
    setting.fits();
    let algebra = setting.algebra();
    let module = setting.module();
    let mut parts = Vec::new(alloc);
    let mut rest = monomials;
    'forming: while let Some((m, more)) = rest.split_first() {
        let column = module.free_column(alloc, algebra, module.start(), m)?;
        append_parts(alloc, algebra, &mut parts, column.as_slice())?;
        rest = more;
    }
    Ok(parts)
}

// Appends, for each entry, 1 over the factors with a summed name.
fn append_parts(
    alloc: Global,
    algebra: &Algebra,
    parts: &mut Vec<Frac>,
    column: &[Frac],
) -> Result<(), NoMemory>
    requires { EachIsWritten parts.old.items }
    ensures parts { OnOk result (parts.new.items ≡ parts.old.items ++ parts_of algebra.now column.now) }
    ensures written { OnOk result (EachIsWritten parts.new.items) }
{
    let mut rest = column;
    'appending: while let Some((f, more)) = rest.split_first() {
        append(parts, summed_part(alloc, algebra, f)?)?;
        rest = more;
    }
    Ok(())
}

// 1 over the factors with a summed name.
fn summed_part(alloc: Global, algebra: &Algebra, f: &Frac) -> Result<Frac, NoMemory>
    ensures value { IfOk result (λ w. w ≡ part_of algebra.now f.now) }
    ensures written { IfOk result IsWritten }
{
    f.in_written_form();
    let numerator = Poly::constant(alloc, 1)?;
    let factors = summed_factors(alloc, algebra, f.den().factors())?;
    let den = Den { whole: 1, factors };
    Ok(Frac { numerator, den })
}

// The factors with a summed name.
fn summed_factors(
    alloc: Global,
    algebra: &Algebra,
    factors: &[Factor],
) -> Result<Vec<Factor>, NoMemory>
    ensures { IfOk result (λ v. v.items ≡ filter (λ f. has_summed algebra.now f.poly) factors.now) }
{
    let mut chosen = Vec::new(alloc);
    let mut rest = factors;
    'choosing: while let Some((f, more)) = rest.split_first() {
        if has_summed(algebra, &f.poly) {
            let poly = f.poly.copy(alloc)?;
            chosen.push(Factor { poly, exp: f.exp })?;
        }
        rest = more;
    }
    Ok(chosen)
}
