// Normal forms of monomials, each worked once.
ghost use Rattle.std.specs.Prelude.{◌≡◌, ◌≢◌, ◌++◌, ◌∷◌, [], IfOk, OnOk, cond, length};
ghost use Rattle.std.specs.List.{All};
ghost use Rattle.ct_algebra.specs.Field.{field};
ghost use Rattle.ct_algebra.specs.FreeOf.{IsOver};
ghost use Rattle.ct_algebra.specs.Operators.{term_of};
ghost use Rattle.ct_algebra.specs.Polynomial.{polys};
ghost use Rattle.ct_checked.specs.Checked.{AnswersBy, Answers};
ghost use Rattle.ct_frac.specs.Written.{value_over};
ghost use Rattle.ct_module.specs.Combination.{checked_with};
ghost use Rattle.ct_module.specs.Modules.{written_zero};
ghost use Rattle.ct_module.specs.Values.{vector_of};
ghost use Rattle.ct_mono.specs.Equal.{mono_eq};
ghost use Rattle.ct_ore.specs.Measures.{checked_product};
ghost use Rattle.ct_ore.specs.Naming.{actions_of};
ghost use Rattle.ct_telescoping.specs.Staircase.{HasOperators};
ghost use Rattle.ct_telescoping.specs.Vector.{plus_vector};
ghost use Rattle.ct_telescoping.specs.VectorModule.{scale_vector};
ghost use Rattle.ct_border.specs.Build.{checked_form, share_over, unit_at, written_one};
ghost use Rattle.ct_border.specs.BuildMeans.{IsFormOf};
ghost use Rattle.ct_border.specs.Known.{IsKnown, IsStored, place_of, form_at};
ghost use Rattle.ct_border.specs.StaircaseMeans.{HasStaircase};

use crate::ideal::Ideal;
use ct_frac::{Fault, Frac};
use ct_module::{added, copied, zeros};
use ct_mono::{Monomial, NoMemory};
use ct_ore::{Algebra, Op, OpTerm};
use ct_poly::Poly;
use ct_reduce::{Reducer, first_reducer};
use std::alloc::Global;

/// A monomial and its normal form.
#[derive(Drop)]
pub(crate) struct Known {
    pub mono: Monomial,
    pub form: Vec<Frac>,
}

/// The normal form of a monomial, which is kept in the list of those that are known.
pub(crate) fn normal_form(
    alloc: Global,
    ideal: &Ideal<'_>,
    known: &mut Vec<Known>,
    m: &Monomial,
) -> Result<Vec<Frac>, Fault>
    requires staircase { HasStaircase (actions_of ideal.now.algebra.now) ideal.now.generators.now ideal.now.basis.now }
    requires over { All (IsOver (actions_of ideal.now.algebra.now)) ideal.now.generators.now }
    requires operators { HasOperators (actions_of ideal.now.algebra.now) m.now }
    requires known { All (IsKnown (actions_of ideal.now.algebra.now) ideal.now.generators.now ideal.now.basis.now) known.old.items }
    ensures steps { AnswersBy (λ w. w.items) (checked_form (actions_of ideal.now.algebra.now) ideal.now.generators.now ideal.now.basis.now m.now) result }
    ensures size { IfOk result (λ w. length w.items ≡ length ideal.now.basis.now) }
    ensures means { IfOk result (λ w. IsFormOf (actions_of ideal.now.algebra.now) ideal.now.generators.now ideal.now.basis.now m.now w.items) }
    ensures known { OnOk result (All (IsKnown (actions_of ideal.now.algebra.now) ideal.now.generators.now ideal.now.basis.now) known.new.items) }
{
    let place = settled(alloc, ideal, known, m)?;
    let form = copied(alloc, known[place].form.as_slice())?;
    Ok(form)
}

// Where the normal form of a monomial stands in the list. One that is not known is worked from those of lower monomials, and appended.
fn settled(
    alloc: Global,
    ideal: &Ideal<'_>,
    known: &mut Vec<Known>,
    m: &Monomial,
) -> Result<usize, Fault>
    requires staircase { HasStaircase (actions_of ideal.now.algebra.now) ideal.now.generators.now ideal.now.basis.now }
    requires over { All (IsOver (actions_of ideal.now.algebra.now)) ideal.now.generators.now }
    requires operators { HasOperators (actions_of ideal.now.algebra.now) m.now }
    requires known { All (IsKnown (actions_of ideal.now.algebra.now) ideal.now.generators.now ideal.now.basis.now) known.old.items }
    ensures steps { AnswersBy (λ place. form_at known.new.items place) (checked_form (actions_of ideal.now.algebra.now) ideal.now.generators.now ideal.now.basis.now m.now) result }
    ensures stored { IfOk result (λ place. IsStored (actions_of ideal.now.algebra.now) ideal.now.generators.now ideal.now.basis.now known.new.items m.now place) }
{
    match place_of(known.as_slice(), m) {
        Some(place) => {
            return Ok(place);
        }
        None => {}
    }
    let Some(reducer) = first_reducer(m, ideal.generators) else {
        let form = unit_at(alloc, ideal.basis, m)?;
        let place = remember(known, m, form)?;
        return Ok(place);
    };
    let moved = moved(alloc, ideal.algebra, &reducer)?;
    let mut sum = zeros(alloc, ideal.basis.len())?;
    // a generator that divides has terms
    let Some((first, tail)) = moved.terms().split_first() else {
        let place = remember(known, m, sum)?;
        return Ok(place);
    };
    let mut rest = tail;
    'adding: while let Some((t, more)) = rest.split_first() {
        let place = settled(alloc, ideal, known, &t.mono)?;
        sum = with_share(
            alloc,
            sum.as_slice(),
            first,
            t,
            known[place].form.as_slice(),
        )?;
        rest = more;
    }
    let place = remember(known, m, sum)?;
    Ok(place)
}

// Where the form of a monomial stands.
fn place_of(known: &[Known], m: &Monomial) -> Option<usize>
    ensures { result ≡ place_of known.now m.now }
{
    let mut place = 0;
    let mut rest = known;
    'seeking: while let Some((entry, more)) = rest.split_first() {
        if entry.mono == *m {
            return Some(place);
        }
        place += 1;
        rest = more;
    }
    None
}

// Appends a form, and says where it stands.
fn remember(known: &mut Vec<Known>, m: &Monomial, form: Vec<Frac>) -> Result<usize, NoMemory>
    ensures appended { OnOk result (known.new.items ≡ known.old.items ++ record { mono = m.now; form = form } ∷ []) }
    ensures place { IfOk result (λ place. place ≡ length known.old.items) }
{
    let place = known.len();
    known.push(Known { mono: *m, form })?;
    Ok(place)
}

// The generator of a reducer, with its symbols before it.
fn moved(alloc: Global, algebra: &Algebra, reducer: &Reducer<'_>) -> Result<Op, Fault>
    ensures { Answers (checked_product (actions_of algebra.now) (term_of reducer.now.symbols polys.one) reducer.now.generator.now) result }
{
    let symbols = Op::of_term(alloc, one(alloc)?, &reducer.symbols)?;
    symbols.mul(alloc, algebra, reducer.generator)
}

// A sum, and the share of a term of the moved generator, whose first term is given.
fn with_share(
    alloc: Global,
    sum: &[Frac],
    first: &OpTerm,
    t: &OpTerm,
    form: &[Frac],
) -> Result<Vec<Frac>, Fault>
    requires first { first.now.coef ≢ polys.zero }
    requires size { length sum.now ≡ length form.now }
    ensures steps { AnswersBy (λ w. w.items) (checked_with (share_over first.now.coef (t.now.mono, t.now.coef)).1 sum.now form.now) result }
    ensures size { IfOk result (λ w. length w.items ≡ length form.now) }
    ensures means { let d = length form.now in IfOk result (λ w. vector_of d w.items ≡ plus_vector field.group d (vector_of d sum.now) (scale_vector field d (value_over (polys.neg t.now.coef) first.now.coef) (vector_of d form.now))) }
{
    let negative = t.coef.neg(alloc)?;
    let quotient = Frac::quotient(alloc, &negative, &first.coef)?;
    added(alloc, sum, &quotient, form)
}

/// One at an element, zero elsewhere.
pub(crate) fn unit_at(
    alloc: Global,
    basis: &[Monomial],
    m: &Monomial,
) -> Result<Vec<Frac>, NoMemory>
    ensures { IfOk result (λ v. v.items ≡ unit_at basis.now m.now) }
{
    let mut v = Vec::with_capacity(alloc, basis.len())?;
    let mut rest = basis;
    'filling: while let Some((e, more)) = rest.split_first() {
        v.push(unit_entry(alloc, e, m)?)?;
        rest = more;
    }
    Ok(v)
}

fn unit_entry(alloc: Global, e: &Monomial, m: &Monomial) -> Result<Frac, NoMemory>
    ensures { IfOk result (λ x. x ≡ cond (mono_eq e.now m.now) written_one written_zero) }
{
    if *e == *m {
        return Frac::of_poly(alloc, one(alloc)?);
    }
    Frac::zero(alloc)
}

fn one(alloc: Global) -> Result<Poly, NoMemory>
    ensures { IfOk result (λ p. p ≡ polys.one) }
{
    Poly::constant(alloc, 1)
}
