// The outputs for problems that aren't prepared.
ghost use Rattle.std.specs.Prelude.{◌≡◌, ◌++◌, codes, false, IfOk, IsSomeAnd};
ghost use Rattle.ct_answer.specs.Generators.{refusal_text};
ghost use Rattle.ct_answer.specs.Reductions.{line_of};
ghost use Rattle.ct_answer.specs.Text.{naming_at, name_text};
ghost use Rattle.ct_border.specs.BuildViews.{build_refusal_of};
ghost use Rattle.ct_problem.specs.ReadProblem.{reading_of};
ghost use Rattle.ct_setup.specs.Setup.{elements_of, has_lists};
ghost use Rattle.ct_setup.specs.SetupViews.{setup_refusal_of};
ghost use Rattle.ct_run.specs.Lines as spec;
ghost use Rattle.ct_run.specs.Output.{output_of};
ghost use Rattle.ct_run.specs.declared.status.Outcome.TheVariants.{BadInput};

use crate::lines::overflow_in_setup;
use crate::output::Output;
use crate::status::Outcome;
use ct_answer::{push, push_name, push_refusal};
use ct_border::BuildFault;
use ct_io::NoMemory;
use ct_ore::Algebra;
use ct_problem::Problem;
use ct_setup::{SetupFault, elements};
use std::alloc::Global;

/// Why a problem isn't prepared.
pub(crate) fn refused_setup(
    alloc: Global,
    problem: &Problem,
    fault: SetupFault,
) -> Result<Output, NoMemory>
    requires { has_lists (reading_of problem.now) ≡ false }
    ensures value { IfOk result (λ output. IsSomeAnd (setup_refusal_of fault) (λ e. output_of output ≡ spec.setup_line (reading_of problem.now) e)) }
{
    match fault {
        SetupFault::ZeroDen(name) => zero_den(alloc, &problem.algebra, name),
        SetupFault::Build { named: _, fault } => refused_list(alloc, problem, &fault),
        SetupFault::Overflow(phase, kind) => overflow_in_setup(alloc, phase, kind),
        SetupFault::NoMemory => Err(NoMemory),
    }
}

// The polynomial that is given for a name is zero.
fn zero_den(alloc: Global, algebra: &Algebra, name: u8) -> Result<Output, NoMemory>
    ensures { IfOk result (λ output. output_of output ≡ spec.refused_line (codes "ZeroDen " ++ name_text (naming_at algebra.now name))) }
{
    let mut text = Vec::from_slice(alloc, b"bad input ZeroDen ")?;
    push_name(&mut text, algebra, name)?;
    refused(text)
}

// The generators fail a test.
fn refused_list(alloc: Global, problem: &Problem, fault: &BuildFault) -> Result<Output, NoMemory>
    requires { has_lists (reading_of problem.now) ≡ false }
    ensures { IfOk result (λ output. IsSomeAnd (build_refusal_of fault.now) (λ r. output_of output ≡ spec.refused_line (refusal_text problem.now.algebra (elements_of (reading_of problem.now)) r))) }
{
    let elements = elements(alloc, problem)?;
    let mut text = Vec::from_slice(alloc, b"bad input ")?;
    push_refusal(
        alloc,
        &mut text,
        &problem.algebra,
        elements.as_slice(),
        fault,
    )?;
    refused(text)
}

// The line that begins with a text.
fn refused(text: Vec<u8>) -> Result<Output, NoMemory>
    ensures { IfOk result (λ output. output_of output ≡ record { outcome = BadInput; text = line_of text.items }) }
{
    let mut text = text;
    push(&mut text, b"\n")?;
    Ok(Output {
        outcome: Outcome::BadInput,
        text,
    })
}
