// The lines of a problem.
ghost use Rattle.std.specs.Prelude.{◌≡◌, not};
ghost use Rattle.ct_problem.specs.ReadProblem.{is_empty, is_used, reading_of};
ghost use Rattle.ct_setup.specs.Setup as spec;

use ct_problem::{Expr, Gens, Problem};

/// Whether there is a `let` or `use` line.
pub fn has_lists(problem: &Problem) -> bool
    ensures { result ≡ spec.has_lists (reading_of problem.now) }
{
    has_lets(problem) || is_used(&problem.gens)
}

fn has_lets(problem: &Problem) -> bool
    ensures { result ≡ not (is_empty (reading_of problem.now).definitions) }
{
    !problem.lets.is_empty()
}

// Whether the generators are those of a `use` line.
fn is_used(gens: &Gens) -> bool
    ensures { result ≡ is_used gens.now }
{
    matches!(gens, Gens::Named(_))
}

// The expressions of `gen` lines.
pub(crate) fn listed(gens: &Gens) -> &[Expr]
    ensures { result.now ≡ spec.listed gens.now }
{
    match gens {
        Gens::Listed(exprs) => exprs.as_slice(),
        Gens::Named(_) => &[],
    }
}
