// Copies of fractions, vectors and rows.
ghost use Rattle.std.specs.Prelude.{◌≡◌, ◌++◌, ◌∷◌, [], IfOk, OnOk};
ghost use Rattle.ct_module.specs.Views.{rows_in, lists_in};

use ct_frac::Frac;
use ct_mono::NoMemory;
use std::alloc::Global;

pub fn copy_of(alloc: Global, f: &Frac) -> Result<Frac, NoMemory>
    ensures { IfOk result (λ g. g ≡ f.now) }
{
    f.in_written_form();
    let numerator = f.numerator().copy(alloc)?;
    let den = f.den().copy(alloc)?;
    Ok(Frac { numerator, den })
}

pub(crate) fn append(v: &mut Vec<Frac>, f: Frac) -> Result<(), NoMemory>
    ensures { OnOk result (v.new.items ≡ v.old.items ++ f ∷ []) }
{
    v.push(f)?;
    Ok(())
}

pub fn copied(alloc: Global, v: &[Frac]) -> Result<Vec<Frac>, NoMemory>
    ensures { IfOk result (λ w. w.items ≡ v.now) }
{
    let mut copy = Vec::with_capacity(alloc, v.len())?;
    let mut rest = v;
    'copying: while let Some((f, more)) = rest.split_first() {
        append(&mut copy, copy_of(alloc, f)?)?;
        rest = more;
    }
    Ok(copy)
}

fn copied_rows(alloc: Global, rows: &[Vec<Frac>]) -> Result<Vec<Vec<Frac>>, NoMemory>
    ensures { IfOk result (λ copy. rows_in copy.items ≡ rows_in rows.now) }
{
    let mut copy = Vec::with_capacity(alloc, rows.len())?;
    let mut rest = rows;
    'copying: while let Some((row, more)) = rest.split_first() {
        copy.push(copied(alloc, row.as_slice())?)?;
        rest = more;
    }
    Ok(copy)
}

pub(crate) fn copied_lists(
    alloc: Global,
    lists: &[Vec<Vec<Frac>>],
) -> Result<Vec<Vec<Vec<Frac>>>, NoMemory>
    ensures { IfOk result (λ copy. lists_in copy.items ≡ lists_in lists.now) }
{
    let mut copy = Vec::with_capacity(alloc, lists.len())?;
    let mut rest = lists;
    'copying: while let Some((rows, more)) = rest.split_first() {
        copy.push(copied_rows(alloc, rows.as_slice())?)?;
        rest = more;
    }
    Ok(copy)
}
