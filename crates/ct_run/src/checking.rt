// The output of `check`.
ghost use Rattle.std.specs.Prelude.{◌≡◌, ◌≤◌, false, length, is_none, IfOk};
ghost use Rattle.std.specs.List.{list_all};
ghost use Rattle.ct_cert.specs.Certificates.{IsAnswerFor};
ghost use Rattle.ct_ore.specs.Answers.{certificate_of};
ghost use Rattle.ct_problem.specs.ReadProblem.{reading_of};
ghost use Rattle.ct_problem.specs.WellFormed.{IsReportOn};
ghost use Rattle.ct_setup.specs.Setup.{has_lists, listed};
ghost use Rattle.ct_run.specs.Checking as spec;
ghost use Rattle.ct_run.specs.Output.{output_of};
ghost use Rattle.ct_run.specs.Ready.{IsReadyWhere};

use crate::lines::{no, not_yet, overflow_in_report, overflow_in_test, yes};
use crate::output::Output;
use crate::refusals::refused_setup;
use crate::values::certificate;
use ct_cert::{Stop, Support, check_found};
use ct_io::NoMemory;
use ct_mono::Fault;
use ct_ore::{Answer, Op};
use ct_problem::{Expr, Gens, Problem, Range, Report, read_found_report};
use ct_setup::prepare;
use std::alloc::Global;

/// The output for a problem without `let` and `use` lines, and the text behind it.
#[tactic(auto, unfolding(crate::specs::Checking::checked_text))]
pub(crate) fn answer_check(
    alloc: Global,
    bytes: &[u8],
    problem: &Problem,
) -> Result<Output, NoMemory>
    requires lists { has_lists (reading_of problem.now) ≡ false }
    requires within { problem.now.end ≤ length bytes.now }
    ensures value { IfOk result (λ output. output_of output ≡ spec.checked_text bytes.now (reading_of problem.now) problem.now.end) }
    ensures ready { IfOk result (λ output. IsReadyWhere output.outcome (reading_of problem.now)) }
{
    if !is_first(problem) {
        return not_yet(alloc);
    }
    let generators = listed_count(&problem.gens);
    match read_found_report(alloc, &problem.algebra, generators, bytes, problem.end)? {
        Some(report) => answer_form(alloc, problem, &report),
        None => not_yet(alloc),
    }
}

/// No `den` line, and one support.
#[tactic(auto, unfolding(crate::specs::Checking::is_first))]
fn is_first(problem: &Problem) -> bool
    ensures { result ≡ spec.is_first (reading_of problem.now) }
{
    has_no_den(problem.dens.as_slice()) && is_single(problem.orders) && is_single(problem.degrees)
}

fn has_no_den(dens: &[Option<Expr>]) -> bool
    ensures { result ≡ list_all is_none dens.now }
{
    let mut rest = dens;
    'looking: while let Some((den, more)) = rest.split_first() {
        if den.is_some() {
            return false;
        }
        rest = more;
    }
    true
}

// How many `gen` lines there are.
fn listed_count(gens: &Gens) -> usize
    ensures { result ≡ length (listed gens.now) }
{
    match gens {
        Gens::Listed(exprs) => exprs.len(),
        Gens::Named(_) => 0,
    }
}

fn is_single(range: Option<Range>) -> bool
    ensures { result ≡ spec.is_single range }
{
    match range {
        None => false,
        Some(range) => range.low == range.high,
    }
}

/// The same for a text in the first form.
#[tactic(auto, unfolding(crate::specs::Checking::checked_form))]
fn answer_form(alloc: Global, problem: &Problem, report: &Report) -> Result<Output, NoMemory>
    requires lists { has_lists (reading_of problem.now) ≡ false }
    requires report { IsReportOn problem.now.algebra (length (listed problem.now.gens)) report.now }
    ensures value { IfOk result (λ output. output_of output ≡ spec.checked_form (reading_of problem.now) report.now) }
    ensures ready { IfOk result (λ output. IsReadyWhere output.outcome (reading_of problem.now)) }
{
    let ready = match prepare(alloc, problem) {
        Ok(ready) => ready,
        Err(fault) => return refused_setup(alloc, problem, fault),
    };
    let answer = match certificate(alloc, &problem.algebra, report) {
        Ok(answer) => answer,
        Err(Fault::Overflow(kind)) => return overflow_in_report(alloc, kind),
        Err(Fault::NoMemory) => return Err(NoMemory),
    };
    line_of_tests(alloc, problem, report, ready.generators.as_slice(), &answer)
}

/// The line of what the tests of an answer come to.
#[tactic(auto, unfolding(crate::specs::Checking::tested))]
fn line_of_tests(
    alloc: Global,
    problem: &Problem,
    report: &Report,
    generators: &[Op],
    answer: &Answer,
) -> Result<Output, NoMemory>
    requires { IsAnswerFor problem.now.algebra generators.now answer.now }
    ensures value { IfOk result (λ output. output_of output ≡ spec.tested (reading_of problem.now) report.now generators.now (certificate_of answer.now)) }
{
    let algebra = &problem.algebra;
    let due = due(problem);
    let found = found(report);
    match check_found(alloc, algebra, generators, due, found, answer) {
        Ok(()) => yes(alloc),
        Err(Stop::No(place)) => no(alloc, algebra, place),
        Err(Stop::Overflow(place, kind)) => overflow_in_test(alloc, algebra, place, kind),
        Err(Stop::NoMemory) => Err(NoMemory),
    }
}

/// The first support of a problem.
fn due(problem: &Problem) -> Support
    ensures { result ≡ spec.due_of (reading_of problem.now) }
{
    Support {
        index: 0,
        order: low(problem.orders),
        degree: low(problem.degrees),
    }
}

fn low(range: Option<Range>) -> u16
    ensures { result ≡ spec.low_of range }
{
    match range {
        None => 0,
        Some(range) => range.low,
    }
}

/// The support that a report names.
fn found(report: &Report) -> Support
    ensures { result ≡ spec.found_of report.now }
{
    Support {
        index: report.index,
        order: report.order,
        degree: report.degree,
    }
}
