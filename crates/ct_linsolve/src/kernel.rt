// The null vector of a free column.
ghost use Rattle.std.specs.Prelude.{◌≡◌, ◌<◌, ◌++◌, ◌∷◌, [], IfOk, IfSome, IsSome, OnOk};
ghost use Rattle.ct_checked.specs.Checked.{AnswersBy};
ghost use Rattle.ct_checked.specs.Traversal.{checked_each};
ghost use Rattle.ct_frac.specs.Arithmetic.{checked_cleared};
ghost use Rattle.ct_frac.specs.FractionLaws.{EachDivides, EachIsWritten};
ghost use Rattle.ct_linsolve.specs.EchelonViews.{eliminated_of, null_vector_of};
ghost use Rattle.ct_linsolve.specs.NullVector.{AreKnown, HavePivots, IsKnown, IsNullVectorOf};
ghost use Rattle.ct_linsolve.specs.NullVector.{all_cleared, checked_null_vector, null_fraction, null_fractions, null_ratio};
ghost use Rattle.ct_linsolve.specs.Views.{pivots_of, rows_of};

use crate::echelon::Echelon;
use crate::entries::{append, entry_at, one};
use crate::pivot::Pivot;
use crate::rows::{pivot_of, row_or_none};
use crate::slimming::slimmed;
use ct_frac::{Den, Frac};
use ct_mono::{Fault, NoMemory};
use ct_poly::Poly;
use std::alloc::Global;

/// The null vector of the free column, without fractions. Polynomials of `extra`, and primitive forms of entries, that divide all
/// entries are divided out.
pub fn null_vector(alloc: Global, echelon: &Echelon, extra: &[Poly]) -> Result<Vec<Poly>, Fault>
    requires { IsSome echelon.now.free }
    ensures steps { IfSome echelon.now.free (λ f. AnswersBy (λ v. v.items) (null_vector_of echelon.now extra.now f) result) }
    ensures certified { IfSome echelon.now.free (λ f. IfOk result (λ v. IsNullVectorOf echelon.now.width (eliminated_of echelon.now) f v.items)) }
{
    let free = echelon.free.unwrap();
    let left = echelon.left.as_slice();
    let pivots = echelon.pivots.as_slice();
    null_vector_at(alloc, left, pivots, free, echelon.width, extra)
}

#[tactic(auto, unfolding(crate::specs::NullVector::checked_null_vector))]
fn null_vector_at(
    alloc: Global,
    left: &[Vec<Poly>],
    pivots: &[Pivot],
    free: usize,
    width: usize,
    extra: &[Poly],
) -> Result<Vec<Poly>, Fault>
    requires some { HavePivots (rows_of left.now) (pivots_of pivots.now) }
    requires in_range { free < width }
    ensures steps { AnswersBy (λ v. v.items) (checked_null_vector width (rows_of left.now) (pivots_of pivots.now) free extra.now) result }
    ensures known { IfOk result (λ _. AreKnown (rows_of left.now) (pivots_of pivots.now) free width) }
{
    let list = fractions(alloc, left, pivots, free, width)?;
    let entries = all_cleared(alloc, list.as_slice())?;
    Ok(slimmed(alloc, extra, entries)?)
}

/// The null vector with 1 at the free column, columns in order.
fn fractions(
    alloc: Global,
    left: &[Vec<Poly>],
    pivots: &[Pivot],
    free: usize,
    width: usize,
) -> Result<Vec<Frac>, NoMemory>
    requires { HavePivots (rows_of left.now) (pivots_of pivots.now) }
    ensures value { IfOk result (λ v. v.items ≡ null_fractions width (rows_of left.now) (pivots_of pivots.now) free) }
    ensures known { IfOk result (λ _. AreKnown (rows_of left.now) (pivots_of pivots.now) free width) }
{
    let mut done = Vec::with_capacity(alloc, width)?;
    let mut column = 0;
    let mut rest = width;
    'dividing: while rest > 0 {
        let f = fraction(alloc, left, pivots, free, column)?;
        append_fraction(&mut done, f)?;
        rest -= 1;
        column += 1;
    }
    Ok(done)
}

fn append_fraction(list: &mut Vec<Frac>, f: Frac) -> Result<(), NoMemory>
    ensures { OnOk result (list.new.items ≡ list.old.items ++ f ∷ []) }
{
    list.push(f)?;
    Ok(())
}

fn fraction(
    alloc: Global,
    left: &[Vec<Poly>],
    pivots: &[Pivot],
    free: usize,
    column: usize,
) -> Result<Frac, NoMemory>
    requires { HavePivots (rows_of left.now) (pivots_of pivots.now) }
    ensures value { IfOk result (λ r. r ≡ null_fraction (rows_of left.now) (pivots_of pivots.now) free column) }
    ensures known { IfOk result (λ _. IsKnown (rows_of left.now) (pivots_of pivots.now) free column) }
{
    let r = ratio(alloc, left, pivots, free, column)?;
    let f = Frac::quotient(alloc, &r.0, &r.1)?;
    f.in_written_form();
    Ok(f)
}

/// Numerator and denominator of the entry of a column.
fn ratio(
    alloc: Global,
    left: &[Vec<Poly>],
    pivots: &[Pivot],
    free: usize,
    column: usize,
) -> Result<(Poly, Poly), NoMemory>
    ensures { IfOk result (λ r. r ≡ null_ratio (rows_of left.now) (pivots_of pivots.now) free column) }
{
    if column == free {
        return Ok((one(alloc)?, one(alloc)?));
    }
    match pivot_of(pivots, column) {
        None => Ok((Poly::zero(alloc), one(alloc)?)),
        Some(p) => {
            let row = row_or_none(left, p.row);
            let numerator = entry_at(alloc, row, free)?.neg(alloc)?;
            let denominator = entry_at(alloc, row, p.column)?;
            Ok((numerator, denominator))
        }
    }
}

/// All numerators over the common denominator.
fn all_cleared(alloc: Global, list: &[Frac]) -> Result<Vec<Poly>, Fault>
    requires { EachIsWritten list.now }
    ensures { AnswersBy (λ v. v.items) (all_cleared list.now) result }
{
    let den = Frac::common(alloc, list)?;
    each_cleared(alloc, list, &den)
}

fn each_cleared(alloc: Global, list: &[Frac], den: &Den) -> Result<Vec<Poly>, Fault>
    requires { EachDivides list.now den.now }
    ensures { AnswersBy (λ v. v.items) (checked_each (λ w. checked_cleared w den.now) list.now) result }
{
    let mut done = Vec::with_capacity(alloc, list.len())?;
    let mut rest = list;
    'clearing: loop {
        let Some((f, more)) = rest.split_first() else {
            return Ok(done);
        };
        append(&mut done, f.clear(alloc, den)?)?;
        rest = more;
    }
}
