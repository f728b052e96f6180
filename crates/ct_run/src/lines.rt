// The outputs of one line.
ghost use Rattle.std.specs.Prelude.{◌≡◌, ◌++◌, IfOk, OnOk};
ghost use Rattle.ct_answer.specs.Text.{naming_at, name_text};
ghost use Rattle.ct_run.specs.Lines as spec;
ghost use Rattle.ct_run.specs.Output.{output_of};

use crate::output::Output;
use crate::status::Outcome;
use ct_answer::{push, push_name, push_number};
use ct_cert::Place;
use ct_io::NoMemory;
use ct_mono::Kind;
use ct_ore::Algebra;
use ct_setup::SetupPhase;
use std::alloc::Global;

/// The answer to a text of a form that is not supported yet.
pub(crate) fn not_yet(alloc: Global) -> Result<Output, NoMemory>
    ensures value { IfOk result (λ output. output_of output ≡ spec.not_yet) }
{
    Ok(Output {
        outcome: Outcome::BadInput,
        text: Vec::from_slice(alloc, b"bad input NotYet\n")?,
    })
}

/// Preparing a problem overflows.
#[tactic(auto, unfolding(crate::specs::Lines::overflow_in_setup))]
pub(crate) fn overflow_in_setup(
    alloc: Global,
    phase: SetupPhase,
    kind: Kind,
) -> Result<Output, NoMemory>
    ensures value { IfOk result (λ output. output_of output ≡ spec.overflow_in_setup phase kind) }
{
    let mut text = Vec::from_slice(alloc, b"overflow setup ")?;
    push(&mut text, phase_text(phase))?;
    push(&mut text, b" ")?;
    overflow_line(text, kind)
}

#[tactic(auto, unfolding(crate::specs::Lines::phase_text))]
fn phase_text(phase: SetupPhase) -> &'static [u8]
    ensures { result.now ≡ spec.phase_text phase }
{
    match phase {
        SetupPhase::Input => b"input",
        SetupPhase::Closure => b"closure",
        SetupPhase::Test => b"test",
    }
}

/// An expression of the report overflows.
#[tactic(auto, unfolding(crate::specs::Lines::overflow_in_report))]
pub(crate) fn overflow_in_report(alloc: Global, kind: Kind) -> Result<Output, NoMemory>
    ensures value { IfOk result (λ output. output_of output ≡ spec.overflow_in_report kind) }
{
    let text = Vec::from_slice(alloc, b"overflow check input ")?;
    overflow_line(text, kind)
}

/// The reduction of the target with this number overflows.
#[tactic(auto, unfolding(crate::specs::Lines::overflow_in_reduction))]
pub(crate) fn overflow_in_reduction(
    alloc: Global,
    place: usize,
    kind: Kind,
) -> Result<Output, NoMemory>
    ensures value { IfOk result (λ output. output_of output ≡ spec.overflow_in_reduction place kind) }
{
    let mut text = Vec::from_slice(alloc, b"overflow reduce ")?;
    push_number(&mut text, place)?;
    push(&mut text, b" ")?;
    overflow_line(text, kind)
}

/// All tests of the report pass.
pub(crate) fn yes(alloc: Global) -> Result<Output, NoMemory>
    ensures value { IfOk result (λ output. output_of output ≡ spec.yes_line) }
{
    Ok(Output {
        outcome: Outcome::Done,
        text: Vec::from_slice(alloc, b"yes found 0\n")?,
    })
}

/// The test at this place is false.
#[tactic(auto, unfolding(crate::specs::Lines::no_line))]
pub(crate) fn no(alloc: Global, algebra: &Algebra, place: Place) -> Result<Output, NoMemory>
    ensures value { IfOk result (λ output. output_of output ≡ spec.no_line algebra.now place) }
{
    let mut text = Vec::from_slice(alloc, b"no ")?;
    push_place(&mut text, algebra, place)?;
    push(&mut text, b"\n")?;
    Ok(Output {
        outcome: Outcome::CheckNo,
        text,
    })
}

/// The test at this place overflows.
#[tactic(auto, unfolding(crate::specs::Lines::overflow_in_test))]
pub(crate) fn overflow_in_test(
    alloc: Global,
    algebra: &Algebra,
    place: Place,
    kind: Kind,
) -> Result<Output, NoMemory>
    ensures value { IfOk result (λ output. output_of output ≡ spec.overflow_in_test algebra.now place kind) }
{
    let mut text = Vec::from_slice(alloc, b"overflow check ")?;
    push_place(&mut text, algebra, place)?;
    push(&mut text, b" ")?;
    overflow_line(text, kind)
}

// The line that begins with a text and ends with a kind.
fn overflow_line(text: Vec<u8>, kind: Kind) -> Result<Output, NoMemory>
    ensures { IfOk result (λ output. output_of output ≡ spec.overflow_line text.items kind) }
{
    let mut text = text;
    push(&mut text, kind_text(kind))?;
    push(&mut text, b"\n")?;
    Ok(Output {
        outcome: Outcome::Overflow,
        text,
    })
}

#[tactic(auto, unfolding(crate::specs::Lines::kind_text))]
fn kind_text(kind: Kind) -> &'static [u8]
    ensures { result.now ≡ spec.kind_text kind }
{
    match kind {
        Kind::Degree => b"degree",
        Kind::Terms => b"terms",
        Kind::Number => b"number",
        Kind::Size => b"size",
    }
}

#[tactic(auto, unfolding(crate::specs::Lines::place_text))]
fn push_place(out: &mut Vec<u8>, algebra: &Algebra, place: Place) -> Result<(), NoMemory>
    ensures { OnOk result (out.new.items ≡ out.old.items ++ spec.place_text algebra.now place) }
{
    match place {
        Place::Found => push(out, b"found"),
        Place::Telescoper => push(out, b"telescoper"),
        Place::Scale => push(out, b"scale"),
        Place::Denominator(i) => push_with_name(out, b"denominator ", algebra, i),
        Place::Part(i) => push_with_name(out, b"part ", algebra, i),
        Place::Identity => push(out, b"identity"),
    }
}

fn push_with_name(out: &mut Vec<u8>, text: &[u8], algebra: &Algebra, i: u8) -> Result<(), NoMemory>
    ensures { OnOk result (out.new.items ≡ out.old.items ++ (text.now ++ name_text (naming_at algebra.now i))) }
{
    push(out, text)?;
    push_name(out, algebra, i)
}
