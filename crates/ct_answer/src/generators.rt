// Lists of generators as text.
ghost use Rattle.std.specs.Prelude.{◌≡◌, ◌++◌, IfOk, IsSomeAnd, OnOk, decimal};
ghost use Rattle.ct_border.specs.BuildViews.{build_refusal_of};
ghost use Rattle.ct_answer.specs.Generators as spec;

use crate::bytes::{push, push_name, push_number};
use crate::factors::push_monomial;
use crate::fraction::push_frac;
use ct_border::{BuildFault, StairFault};
use ct_frac::Frac;
use ct_mono::{Fault, Monomial, NoMemory};
use ct_ore::Algebra;
use std::alloc::Global;

/// The text of a tested list, whose staircase is given.
#[tactic(auto, unfolding(crate::specs::Generators::tested_text))]
pub fn print_tested(
    alloc: Global,
    algebra: &Algebra,
    elements: &[Monomial],
) -> Result<Vec<u8>, NoMemory>
    ensures value { IfOk result (λ text. text.items ≡ spec.tested_text algebra.now elements.now) }
{
    let mut text = Vec::from_slice(alloc, b"mgfun test 1\ndimension ")?;
    push_number(&mut text, elements.len())?;
    push(&mut text, b"\n")?;
    push_basis(alloc, &mut text, algebra, elements)?;
    push(&mut text, b"end\n")?;
    Ok(text)
}

// The line of each element.
fn push_basis(
    alloc: Global,
    text: &mut Vec<u8>,
    algebra: &Algebra,
    elements: &[Monomial],
) -> Result<(), NoMemory>
    ensures { OnOk result (text.new.items ≡ text.old.items ++ spec.basis_lines algebra.now elements.now) }
{
    for element in elements {
        push(text, b"basis ")?;
        push_monomial(alloc, text, algebra, element)?;
        push(text, b"\n")?;
    }
    Ok(())
}

/// Puts at the end of a text why a list with this staircase is refused; nothing of an overflow. A fault of memory is answered.
#[tactic(auto, unfolding(crate::specs::Generators::not_closed_text, crate::specs::Generators::not_killed_text))]
pub fn push_refusal(
    alloc: Global,
    out: &mut Vec<u8>,
    algebra: &Algebra,
    elements: &[Monomial],
    fault: &BuildFault,
) -> Result<(), NoMemory>
    ensures value { OnOk result (IsSomeAnd (build_refusal_of fault.now) (λ r. out.new.items ≡ out.old.items ++ spec.refusal_text algebra.now elements.now r)) }
{
    match fault {
        BuildFault::Stair(StairFault::ZeroGenerator(n)) => push_numbered(
            out,
            b"ZeroGenerator ",
            *n,
        ),
        BuildFault::Stair(StairFault::Trivial(n)) => push_numbered(out, b"Trivial ", *n),
        BuildFault::Stair(StairFault::NotFinite(i)) => {
            push(out, b"NotFinite ")?;
            push_name(out, algebra, *i)
        }
        BuildFault::NotClosed {
            first,
            second,
            element,
            place,
            one,
            other,
        } => {
            push(out, b"NotClosed ")?;
            push_name(out, algebra, *first)?;
            push(out, b" ")?;
            push_name(out, algebra, *second)?;
            push(out, b" ")?;
            push_element(alloc, out, algebra, elements, *element)?;
            push(out, b" ")?;
            push_element(alloc, out, algebra, elements, *place)?;
            push(out, b": ")?;
            push_frac(alloc, out, algebra, one)?;
            push(out, b"; ")?;
            push_frac(alloc, out, algebra, other)
        }
        BuildFault::NotKilled { generator, image } => {
            push_numbered(out, b"NotKilled ", *generator)?;
            push(out, b": ")?;
            push_fractions(alloc, out, algebra, image.as_slice())
        }
        BuildFault::Stair(StairFault::Fault(Fault::Overflow(_)))
        | BuildFault::Fault(Fault::Overflow(_)) => Ok(()),
        BuildFault::Stair(StairFault::Fault(Fault::NoMemory))
        | BuildFault::Fault(Fault::NoMemory) => Err(NoMemory),
    }
}

// A text and a number.
fn push_numbered(out: &mut Vec<u8>, text: &[u8], n: u32) -> Result<(), NoMemory>
    ensures { OnOk result (out.new.items ≡ out.old.items ++ (text.now ++ decimal n)) }
{
    push(out, text)?;
    push_number(out, n)
}

// The element with this number. One past those of the list is written as 1.
#[tactic(auto, using(std::proofs::lemmas::List::get_or_past))]
fn push_element(
    alloc: Global,
    out: &mut Vec<u8>,
    algebra: &Algebra,
    elements: &[Monomial],
    number: u8,
) -> Result<(), NoMemory>
    ensures { OnOk result (out.new.items ≡ out.old.items ++ spec.element_text algebra.now elements.now number) }
{
    match elements.get(usize::from(number)) {
        Some(element) => push_monomial(alloc, out, algebra, element),
        None => push_monomial(alloc, out, algebra, &Monomial::one()),
    }
}

#[tactic(auto, unfolding(crate::specs::Generators::fractions_text))]
fn push_fractions(
    alloc: Global,
    out: &mut Vec<u8>,
    algebra: &Algebra,
    values: &[Frac],
) -> Result<(), NoMemory>
    ensures { OnOk result (out.new.items ≡ out.old.items ++ spec.fractions_text algebra.now values.now) }
{
    let Some((first, others)) = values.split_first() else {
        return Ok(());
    };
    push_frac(alloc, out, algebra, first)?;
    for value in others {
        push(out, b"; ")?;
        push_frac(alloc, out, algebra, value)?;
    }
    Ok(())
}
