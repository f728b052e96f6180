// Reading problems, and reports that found a telescoper.
ghost use Rattle.std.specs.Prelude.{◌≡◌, ◌≢◌, ◌≤◌, length, IfOk, IfErr, IfSome, None};
ghost use Rattle.ct_problem.specs.Cursor.{IsCursor};
ghost use Rattle.ct_problem.specs.Declarations.{declared};
ghost use Rattle.ct_problem.specs.Draft.{IsFormed, reading_of_draft};
ghost use Rattle.ct_problem.specs.GrammarProblem.{StandsFor, StandsForNone};
ghost use Rattle.ct_problem.specs.GrammarReport.{ReportStandsFor, ReportStandsForNone};
ghost use Rattle.ct_problem.specs.Input.{ReadsBy};
ghost use Rattle.ct_problem.specs.ReadProblem as spec;
ghost use Rattle.ct_problem.specs.ReadProblem.{Gives};
ghost use Rattle.ct_problem.specs.ReadReport.{report_of};
ghost use Rattle.ct_problem.specs.WellFormed.{IsReportOn};
ghost use Rattle.ct_problem.specs.declared.fault.ReadFault.TheVariants as fault;

mod atoms;
mod body;
mod declarations;
mod den_lines;
mod ending;
mod expressions;
mod let_lines;
mod lines;
mod name_table;
mod names;
mod numbers;
mod plain;
mod problem_lines;
mod report_lines;
mod tokens;

use crate::fault::{BadInput, BadKind, ReadFault};
use crate::problem::Problem;
use crate::reading::body::{Draft, body, head};
use crate::reading::ending::last_line;
use crate::reading::names::Names;
use crate::reading::plain::is_plain;
use crate::reading::report_lines::report;
use crate::reading::tokens::Tokens;
use crate::report::Report;
use ct_io::Command;
use ct_mono::NoMemory;
use ct_ore::{Algebra, NameInfo};
use ct_token::scan_text;
use std::alloc::Global;

/// The most bytes of a text.
pub const MOST_BYTES: usize = 1 << 26;

/// The problem that a text begins with, which has what the command needs, or the text's first fault. Behind
/// the problem may come a report for `check`, and else nothing.
#[tactic(auto, unfolding(crate::specs::ReadProblem::problem_of))]
pub fn read_problem(alloc: Global, bytes: &[u8], command: Command) -> Result<Problem, ReadFault>
    ensures reads { Gives (spec.problem_of command bytes.now) result }
    ensures accepts { IfOk result (λ p. StandsFor command bytes.now (spec.reading_of p) p.end) }
    ensures refuses { IfErr result (λ e. e ≢ fault.NoMemory → StandsForNone command bytes.now) }
    ensures within { IfOk result (λ p. p.end ≤ length bytes.now) }
{
    if bytes.len() > MOST_BYTES {
        return Err(ReadFault::Bad(BadInput {
            kind: BadKind::TooLong,
            offset: MOST_BYTES,
        }));
    }
    let scan = scan_text(alloc, bytes, 0)?;
    let mut tokens = Tokens::new(bytes, scan.tokens.as_slice(), scan.bad);
    problem(alloc, &mut tokens, command)
}

#[tactic(auto, unfolding(crate::specs::ReadProblem::problem))]
fn problem(alloc: Global, tokens: &mut Tokens<'_>, command: Command) -> Result<Problem, ReadFault>
    requires { IsCursor tokens.old.text tokens.old.left }
    ensures reads { ReadsBy (λ p. (spec.reading_of p, p.end)) (spec.problem command tokens.old) result tokens.new }
{
    let (names, lets) = head(alloc, tokens)?;
    let draft = body(alloc, names, lets, tokens)?;
    let end = last_line(tokens, command, &draft)?;
    Ok(problem_of(draft, end))
}

#[tactic(auto, unfolding(crate::specs::Draft::reading_of_draft))]
fn problem_of(draft: Draft, end: usize) -> Problem
    requires { IsFormed draft }
    ensures reads { spec.reading_of result ≡ reading_of_draft draft }
    ensures end { result.end ≡ end }
{
    let Draft {
        names,
        lets,
        gens,
        dens,
        targets,
        orders,
        degrees,
    } = draft;
    let (variables, let_names) = names.into_parts();
    Problem {
        algebra: Algebra::new(variables),
        lets,
        let_names,
        gens,
        dens,
        targets,
        orders,
        degrees,
        end,
    }
}

/// The report that found a telescoper which the text is from this place on, on a problem with these names
/// and so many generators, or none.
#[tactic(auto, unfolding(crate::specs::ReadReport::report_of))]
pub fn read_found_report(
    alloc: Global,
    algebra: &Algebra,
    generators: usize,
    bytes: &[u8],
    from: usize,
) -> Result<Option<Report>, NoMemory>
    requires { from ≤ length bytes.now }
    ensures reads { IfOk result (λ r. r ≡ report_of algebra.now generators bytes.now from) }
    ensures formed { IfOk result (λ o. IfSome o (IsReportOn algebra.now generators)) }
    ensures accepts { IfOk result (λ o. IfSome o (ReportStandsFor algebra.now generators bytes.now from)) }
    ensures refuses { IfOk result (λ o. o ≡ None → ReportStandsForNone algebra.now generators bytes.now from) }
{
    let (_, rest) = bytes.split_at(from);
    if !is_plain(rest) {
        return Ok(None);
    }
    let names = names_of(alloc, algebra)?;
    let scan = scan_text(alloc, bytes, from)?;
    let mut tokens = Tokens::new(bytes, scan.tokens.as_slice(), scan.bad);
    match report(alloc, &names, &mut tokens, generators) {
        Ok(found) => Ok(Some(found)),
        Err(ReadFault::Bad(_)) => Ok(None),
        Err(ReadFault::NoMemory) => Err(NoMemory),
    }
}

/// The names of an algebra, and no `let` line.
fn names_of(alloc: Global, algebra: &Algebra) -> Result<Names, NoMemory>
    ensures names { IfOk result (λ n. n ≡ declared algebra.now) }
    ensures few { IfOk result (λ n. length n.variables ≤ 6) }
{
    let infos = algebra.infos();
    let mut variables = Vec::new(alloc);
    for info in infos {
        variables.push(NameInfo {
            text: info.text.clone()?,
            action: info.action,
            role: info.role,
        })?;
    }
    Names::of(alloc, variables)
}
