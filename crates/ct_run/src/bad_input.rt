// The line of a text's first fault.
ghost use Rattle.std.specs.Prelude.{◌≡◌, IfOk};
ghost use Rattle.ct_run.specs.Lines as spec;
ghost use Rattle.ct_run.specs.Output.{output_of};

use crate::output::Output;
use crate::status::Outcome;
use ct_answer::{push, push_number};
use ct_io::NoMemory;
use ct_problem::{BadInput, BadKind};
use std::alloc::Global;

/// The kind and the place of a fault.
#[tactic(auto, unfolding(crate::specs::Lines::bad_input))]
pub(crate) fn bad_input(alloc: Global, fault: BadInput) -> Result<Output, NoMemory>
    ensures value { IfOk result (λ output. output_of output ≡ spec.bad_input fault) }
{
    let mut text = Vec::from_slice(alloc, b"bad input ")?;
    push(&mut text, bad_text(fault.kind))?;
    push(&mut text, b" at ")?;
    push_number(&mut text, fault.offset)?;
    push(&mut text, b"\n")?;
    Ok(Output {
        outcome: Outcome::BadInput,
        text,
    })
}

#[tactic(auto, unfolding(crate::specs::Lines::bad_text))]
fn bad_text(kind: BadKind) -> &'static [u8]
    ensures { result.now ≡ spec.bad_text kind }
{
    match kind {
        BadKind::TooLong => b"TooLong",
        BadKind::BadByte => b"BadByte",
        BadKind::Unfinished => b"Unfinished",
        BadKind::Syntax => b"Syntax",
        BadKind::TooMany => b"TooMany",
        BadKind::NameTooLong => b"NameTooLong",
        BadKind::DuplicateName => b"DuplicateName",
        BadKind::UnknownName => b"UnknownName",
        BadKind::WrongKind => b"WrongKind",
        BadKind::NumberTooLarge => b"NumberTooLarge",
        BadKind::ZeroDenominator => b"ZeroDenominator",
        BadKind::ExponentTooLarge => b"ExponentTooLarge",
        BadKind::TooDeep => b"TooDeep",
        BadKind::OutOfRange => b"OutOfRange",
        BadKind::EmptyRange => b"EmptyRange",
        BadKind::Missing => b"Missing",
        BadKind::TrailingText => b"TrailingText",
    }
}
