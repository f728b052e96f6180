// The last line of a problem, and what a command needs.
ghost use Rattle.std.specs.Prelude.{◌≡◌};
ghost use Rattle.ct_problem.specs.Draft.{reading_of_draft};
ghost use Rattle.ct_problem.specs.Input.{Reads};
ghost use Rattle.ct_problem.specs.ReadProblem as spec;

use crate::fault::{BadKind, ReadFault};
use crate::problem::Gens;
use crate::reading::body::Draft;
use crate::reading::names::summed_count;
use crate::reading::tokens::Tokens;
use ct_io::Command;
use ct_token::Symbol;

/// The `end` line, which gives the place behind it.
#[tactic(auto, unfolding(crate::specs::ReadProblem::last_line))]
pub fn last_line(
    tokens: &mut Tokens<'_>,
    command: Command,
    draft: &Draft,
) -> Result<usize, ReadFault>
    ensures { Reads (spec.last_line command (reading_of_draft draft.now) tokens.old) result tokens.new }
{
    if !tokens.sees_word(b"end") {
        return Err(tokens.fault(BadKind::Syntax));
    }
    if lacks(command, draft) {
        return Err(tokens.fault(BadKind::Missing));
    }
    tokens.skip();
    let at = ending(tokens)?;
    behind_end(tokens, command)?;
    Ok(at)
}

/// The end of the last line, and its place.
#[tactic(auto, unfolding(crate::specs::ReadProblem::ending))]
fn ending(tokens: &mut Tokens<'_>) -> Result<usize, ReadFault>
    ensures { Reads (spec.ending tokens.old) result tokens.new }
{
    match tokens.peek() {
        Some(Symbol::LineEnd) => {
            let at = tokens.end();
            tokens.skip();
            Ok(at)
        }
        None => Ok(tokens.place()),
        Some(_) => Err(tokens.fault(BadKind::Syntax)),
    }
}

/// For `check` a report may follow, and else nothing.
fn behind_end(tokens: &Tokens<'_>, command: Command) -> Result<(), ReadFault>
    ensures { Reads (spec.behind_end command tokens.now) result tokens.now }
{
    match command {
        Command::Check => Ok(()),
        _ => nothing_left(tokens),
    }
}

#[tactic(auto, unfolding(crate::specs::ReadProblem::nothing_left))]
fn nothing_left(tokens: &Tokens<'_>) -> Result<(), ReadFault>
    ensures { Reads (spec.nothing_left tokens.now) result tokens.now }
{
    tokens.fresh_line()?;
    if tokens.count() == 0 {
        Ok(())
    } else {
        Err(tokens.fault(BadKind::TrailingText))
    }
}

/// Whether the command needs a line that isn't there.
#[tactic(auto, unfolding(crate::specs::ReadProblem::lacks, crate::specs::Draft::reading_of_draft))]
fn lacks(command: Command, draft: &Draft) -> bool
    ensures { result ≡ spec.lacks command (reading_of_draft draft.now) }
{
    !match command {
        Command::Telescope | Command::Check => can_be_tried(draft),
        Command::Reduce => !draft.targets.is_empty(),
        Command::Test => has_generators(&draft.gens),
        Command::Close => is_used(&draft.gens),
        Command::Member => has_generators(&draft.gens) && !draft.targets.is_empty(),
        Command::Gen | Command::Demo => true,
    }
}

/// Something to sum over, generators, and supports to try.
#[tactic(auto, unfolding(crate::specs::Draft::reading_of_draft))]
fn can_be_tried(draft: &Draft) -> bool
    ensures { result ≡ spec.can_be_tried (reading_of_draft draft.now) }
{
    summed_count(draft.names.variables()) != 0
        && has_generators(&draft.gens)
        && draft.orders.is_some()
        && draft.degrees.is_some()
}

fn has_generators(gens: &Gens) -> bool
    ensures { result ≡ spec.has_generators gens.now }
{
    match gens {
        Gens::Listed(xs) => !xs.is_empty(),
        Gens::Named(_) => true,
    }
}

fn is_used(gens: &Gens) -> bool
    ensures { result ≡ spec.is_used gens.now }
{
    matches!(gens, Gens::Named(_))
}
