// The values of generators and targets, without a test.
ghost use Rattle.std.specs.Prelude.{◌≡◌, Some, false};
ghost use Rattle.ct_checked.specs.Checked.{AnswersAs};
ghost use Rattle.ct_ore.specs.Naming.{actions_of};
ghost use Rattle.ct_problem.specs.ReadProblem.{reading_of};
ghost use Rattle.ct_problem.specs.WellFormed.{AreGenerators, IsOperator};
ghost use Rattle.ct_setup.specs.Setup as spec;
ghost use Rattle.ct_setup.specs.SetupViews.{setup_refusal_of, plain_of};

use crate::expressions::{append, values};
use crate::fault::SetupFault;
use crate::lines::listed;
use ct_border::{BuildFault, StairFault};
use ct_ore::{Algebra, Op};
use ct_problem::{Expr, Problem, evaluate};
use std::alloc::Global;

/// The generators, none of which is zero, and the targets.
#[derive(Drop)]
pub struct PlainReady {
    pub generators: Vec<Op>,
    pub targets: Vec<Op>,
}

/// The generators and the targets of a problem without `let` and `use` lines. A generator that is zero is refused at its line.
#[tactic(auto, unfolding(crate::specs::Setup::checked_plain_setup))]
pub fn prepare_plain(alloc: Global, problem: &Problem) -> Result<PlainReady, SetupFault>
    requires { spec.has_lists (reading_of problem.now) ≡ false }
    ensures { AnswersAs setup_refusal_of plain_of (spec.checked_plain_setup (reading_of problem.now)) result }
{
    let generators = plain_generators(alloc, &problem.algebra, listed(&problem.gens))?;
    let targets = values(alloc, &problem.algebra, problem.targets.as_slice())?;
    Ok(PlainReady {
        generators,
        targets,
    })
}

fn plain_generators(alloc: Global, algebra: &Algebra, exprs: &[Expr]) -> Result<Vec<Op>, SetupFault>
    requires { AreGenerators algebra.now exprs.now }
    ensures { AnswersAs setup_refusal_of (λ v. v.items) (spec.plain_generators (actions_of algebra.now) exprs.now) result }
{
    let mut done = Vec::new(alloc);
    let mut rest = exprs;
    'valuing: loop {
        let Some((expr, more)) = rest.split_first() else {
            return Ok(done);
        };
        let value = plain_generator(alloc, algebra, done.len() as u32 + 1, expr)?;
        append(&mut done, value)?;
        rest = more;
    }
}

// The value of the generator with this number, which isn't zero.
fn plain_generator(
    alloc: Global,
    algebra: &Algebra,
    place: u32,
    expr: &Expr,
) -> Result<Op, SetupFault>
    requires { IsOperator algebra.now expr.now }
    ensures { AnswersAs setup_refusal_of (λ v. v) (spec.plain_generator (actions_of algebra.now) place expr.now) result }
{
    let value = evaluate(alloc, algebra, expr)?;
    if value.terms().is_empty() {
        return Err(zero_generator(place));
    }
    Ok(value)
}

fn zero_generator(place: u32) -> SetupFault
    ensures { setup_refusal_of result ≡ Some (spec.zero_generator place) }
{
    SetupFault::Build {
        named: None,
        fault: BuildFault::Stair(StairFault::ZeroGenerator(place)),
    }
}
