// Reductions as text.
ghost use Rattle.std.specs.Prelude.{◌≡◌, [], ◌∷◌, ◌++◌, map, IfOk, OnOk};
ghost use Rattle.ct_reduce.specs.Views.{reduction_of};
ghost use Rattle.ct_answer.specs.Text.{operator_text};
ghost use Rattle.ct_answer.specs.Reductions as spec;

use crate::bytes::{push, push_number};
use crate::operator::push_op;
use crate::polynomial::push_poly;
use ct_mono::NoMemory;
use ct_ore::{Algebra, Op};
use ct_reduce::Reduced;
use std::alloc::Global;

/// The text of reductions, whose targets are counted from 1.
#[tactic(auto, unfolding(crate::specs::Reductions::reduced_text))]
pub fn print_reductions(
    alloc: Global,
    algebra: &Algebra,
    reductions: &[Reduced],
) -> Result<Vec<u8>, NoMemory>
    ensures value { IfOk result (λ text. text.items ≡ spec.reduced_text algebra.now (map reduction_of reductions.now)) }
{
    let mut text = Vec::from_slice(alloc, b"mgfun reduce 1\n")?;
    push_targets(alloc, &mut text, algebra, reductions)?;
    push(&mut text, b"end\n")?;
    Ok(text)
}

// The lines of each target, counted from 1.
fn push_targets(
    alloc: Global,
    text: &mut Vec<u8>,
    algebra: &Algebra,
    reductions: &[Reduced],
) -> Result<(), NoMemory>
    ensures { OnOk result (text.new.items ≡ text.old.items ++ spec.targets_lines algebra.now 1 (map reduction_of reductions.now)) }
{
    for (at, reduced) in reductions.iter().enumerate() {
        push_target(alloc, text, algebra, at + 1, reduced)?;
    }
    Ok(())
}

#[tactic(auto, unfolding(crate::specs::Reductions::target_lines))]
fn push_target(
    alloc: Global,
    text: &mut Vec<u8>,
    algebra: &Algebra,
    place: usize,
    reduced: &Reduced,
) -> Result<(), NoMemory>
    ensures { OnOk result (text.new.items ≡ text.old.items ++ spec.target_lines algebra.now place (reduction_of reduced.now)) }
{
    push(text, b"target ")?;
    push_number(text, place)?;
    push(text, b"\nscale ")?;
    push_poly(alloc, text, algebra, &reduced.scale)?;
    push(text, b"\n")?;
    push_cofactors(alloc, text, algebra, reduced.cofactors.as_slice())?;
    push_op_line(alloc, text, algebra, b"rest ", &reduced.rest)
}

// The line of each cofactor, counted from 1.
fn push_cofactors(
    alloc: Global,
    text: &mut Vec<u8>,
    algebra: &Algebra,
    cofactors: &[Op],
) -> Result<(), NoMemory>
    ensures { OnOk result (text.new.items ≡ text.old.items ++ spec.cofactor_lines algebra.now 1 cofactors.now) }
{
    for (at, cofactor) in cofactors.iter().enumerate() {
        push(text, b"cofactor ")?;
        push_number(text, at + 1)?;
        push_op_line(alloc, text, algebra, b": ", cofactor)?;
    }
    Ok(())
}

// A text, an operator and the end of a line.
fn push_op_line(
    alloc: Global,
    text: &mut Vec<u8>,
    algebra: &Algebra,
    front: &[u8],
    op: &Op,
) -> Result<(), NoMemory>
    ensures { OnOk result (text.new.items ≡ text.old.items ++ (front.now ++ operator_text algebra.now op.now ++ 10 ∷ [])) }
{
    push(text, front)?;
    push_op(alloc, text, algebra, op)?;
    push(text, b"\n")
}
